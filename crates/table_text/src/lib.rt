// Table text: a job's tables as text.
//
// Here: `write_tables` writes the rows of lent tables, a line a row: links, uses, gaps and gap segments, lines l, u, g and o.
// Proved: for every input the bytes are those of specs/TablesText, a buffer that is too short stays as it was, and the text of columns that
// tables fill is the tables' text (proofs/FilledText).
// A caller should know: there is no `requires`. What a column does not have is written as 0.
#![tactic(auto)]

pub mod write;
