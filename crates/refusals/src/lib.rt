// Refusals: document 01's refusals 1 to 11 in order, what a job alone is held to.
//
// Here: `Job`, a job's tables and parameters as they are lent, and `check_tables`, which answers the first line that a job breaks, with the
// first place at which it does, or none.
// Proved: the answer is that of specs/Refusals, where the table is a list of lines in the table's order. proofs/FirstBroken says of
// any such list that a refusal names a line and a place exactly if the line is broken there, at no place before, and no line before
// it is broken. proofs/Accepted says what an accepted job satisfies.
// A caller should know: it has no `requires`, and nothing is lent to be written. The functions of groups of lines (`lines`) are
// for this crate alone: each relies on the lines before its own. Line 12 speaks of lent tables, and is asked in `rooms`.
#![tactic(auto)]

pub mod job;
pub mod lines;
pub mod refusals;
