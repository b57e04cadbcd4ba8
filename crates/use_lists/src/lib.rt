// Use lists: the uses of the segments' lists, collected in use order into the lent columns.
//
// Here: `collect_lists`, which adds the uses of all lists, and `put_last`, which stores what then waits.
// Proved: each function does to the columns what specs/Collecting says. `uses` leads from there to the use table.
// A caller should know: it serves `uses`. Its `requires` are named predicates of specs/ that the checks of `jobs` establish.
#![tactic(auto)]

pub mod lists;
