// Cells: a sheet's cells as a job.
//
// Here: `job_of`, the job whose columns and parameters stand in cells.
// Proved: it is the job of specs/SheetJob.
// A caller should know: it relies on cells that `read_sheet` of `sheet` has filled.
#![tactic(auto)]

pub mod cells;
