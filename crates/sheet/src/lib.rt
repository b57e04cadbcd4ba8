// A sheet's text to numbers, and an answer to text (document 01, "Sheet"; refusals 14 and 15).
//
// Here: read_sheet checks a whole text and stores its numbers into lent cells, column by column; write_answer writes an
// answer's lines, write_line one line. Text and numbers only: weights are their bits, and no job is known.
// Proved: a text is read exactly if it is that of a sheet within the limits that has what is asked of each kind
// (proofs/Exact.antt), else its first bad line is named with its refusal; the longest sheet's bytes, and a line more, decide a text's
// verdict (proofs/Prefix.antt; proofs/Sizes.antt has the numbers); the cells at
// exit are the definition's, and rendering what was read gives the text back; the bytes that are written are the
// definition's.
// A caller should know: no public entry point has a `requires`. Too few cells, or a buffer that is too short, is an
// error of its own. Column c of kind k starts at cell column_of(k, c), kinds by name (kinds::P and so on), and as many of
// its cells as the kind has rows are in use. The limits belong to this layer alone.
#![tactic(auto)]

mod check;
mod field;
mod fill;
pub mod kinds;
mod write;

pub use check::BadLine;
pub use field::same;
pub use fill::{ReadError, column_of, read_sheet};
pub use kinds::CELLS;
pub use write::{Answer, Figures, NoRoom, write_answer, write_line};
