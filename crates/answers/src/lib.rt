// Answers: what a sheet's text is answered, and the tables of its job as text.
//
// Here: `answer_sheet` reads a text and answers its job; `answer_in_place` does so in the buffer that holds the text; `answer_job` answers
// a job. Each writes the answer and the text of the tables. `room` has the rows of the work tables, which stand in `answer_job` alone.
// Proved: each equals its definition (specs/SheetAnswer, JobAnswer) for every input; the first 47,485 bytes of a text decide what is
// written (proofs/Front); work tables of those rows, `sheet_rooms`, are enough for every sheet (proofs/Rooms).
// A caller should know: there is no `requires`. A buffer that is too short stays as it was, and `NoRoom` says so.
#![tactic(auto)]

pub mod answer;
pub mod job;
pub mod room;
