// Words: answers as words, for programs in C and in Rust.
//
// Here: `proposed_words` and `split_point_words`: an answer as a block of words. `normalised_bits`: the normalised weight of a proposal's
// words, which whoever evicts enters for it.
// Proved: the words are those of specs/Words for every answer, and so the bits for every input. Evictions end where each proposal is
// entered with the normalised weight of its words (proofs/Entered).
#![tactic(auto)]

pub mod words;
