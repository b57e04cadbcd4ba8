// Columns: tables that are lent as one slice a column.
//
// Here: how many rows columns have (`rows`), search by halves (`search`).
// Proved: each equals its definition. proofs/ has the laws of tables by row number, of the first place at which a test holds, of columns
// that are filled row by row, and of counts: every crate above cites them.
// A caller should know: nothing here knows a job. Only the searches have a `requires`: a part of a column that does not fall.
#![tactic(auto)]

pub mod rows;
pub mod search;
