// Jobs: the rows of a job's tables, and document 01's lines 4 to 11.
//
// Here: segments, uses, reservations and fixed uses as rows of their columns, and for each line but 7 a function that answers the first
// row that breaks it, or the number of rows. Line 7 is asked in `use_checks`; what breaks it is said here (specs/Lines).
// Proved: each answer is the first place at which the line's definition holds. proofs/Sound and proofs/SoundUses say what rows satisfy
// that have passed.
// A caller should know: a row is read where it exists (`_at`, `cell`); no check has a `requires`. The rows of `rows` hold numbers as the
// columns do: before its check a number is no index of anything. After the checks a row is read by `checked`, its indices as types;
// definitions speak of the plain row all the same (specs/Checked).
#![tactic(auto)]

pub mod checked;
pub mod checks;
pub mod rows;
