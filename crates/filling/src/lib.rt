// Filling: the work tables of a checked job, filled one after the other.
//
// Here: `fill_uses` (links, use table, best use) and `fill_gap_tables` (gaps, live instructions, gap segments).
// Proved: each column holds its definition's rows, and later rows are as they were. specs/SourceTables has the rows of all tables, and the
// sixteen lent columns as one record; specs/TableLaws has what documents 01 and 02 say of the tables of a job with a best use.
// A caller should know: the columns may be longer than the rows used, and differ in length. The job has passed the checks.
#![tactic(auto)]

pub mod gap_tables;
pub mod lent;
pub mod use_tables;
