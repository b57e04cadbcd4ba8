// Work: the work tables of a job that has passed the checks, filled by one call.
//
// Here: `fill_checked`, which fills links, uses, gaps and gap segments.
// Proved: its answer and all sixteen lent columns are those of specs/FilledFrom.
// A caller should know: it relies on a job that `check_job` of `rooms` has accepted, whose block columns are cut to their rows.
#![tactic(auto)]

pub mod fill;
