// Tables: a job's work tables, filled by one call.
//
// Here: `fill_tables`, which checks a job by lines 1 to 12 and fills links, uses, gaps and gap segments.
// Proved: for every input its answer and all sixteen lent columns are those of specs/Filled.
// A caller should know: there is no `requires`. Columns of a table may differ in length; the shortest counts. A refused job changes
// nothing.
#![tactic(auto)]

pub mod fill;
