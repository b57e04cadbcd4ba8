// Growth: the steps by which a region grows, the proposal that a region is, and the laws of both.
//
// Here: which side is tried (`next_turn`), what comes of trying one more gap (`try_gap`), growth after a try, `proposal_of`.
// Proved: each function equals a definition of specs/. The laws are in proofs/: the tries that suffice, demand 3 of every proposal,
// and that evictions end.
// A caller should know: growth sees gaps and what they meet through one record (`GapsSeen`), and nothing here walks. `region` calls these
// functions; their `requires` are named predicates of specs/Columns.
#![tactic(auto)]

pub mod proposal;
pub mod step;
