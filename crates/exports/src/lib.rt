// Exports: the three calls, for programs in C and in Rust.
//
// Here: `gelduvra_propose_split`, `gelduvra_find_optimal_split_point` and `gelduvra_normalised_weight`. A column is a pointer and how
// many items it has; an answer comes back in a lent block of words, a weight as its bits.
// Their symbols end in a version and in what to do, so that an archive and a binding of different versions do not link, and the linker's
// own message says how to get one that fits, by the command's older name: today it is `bin/archive`. `bin/raise-version` raises the version:
// after every change of what a function takes or answers.
// Proved: for every input the words are those of `words`, and the lent columns are as `propose_split` leaves them.
// A caller should know: there is no `requires`; no word is left as it was. What a caller in another language owes is what a slice
// is: columns that can be read, or written, for their whole length, and no column that is written overlaps another.
#![tactic(auto)]

pub mod propose;
pub mod split_point;
pub mod weight;
