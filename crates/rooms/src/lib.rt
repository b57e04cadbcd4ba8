// Rooms: line 12, the rows of the work tables that are lent with a job.
//
// Here: `check_job` (lines 1 to 12), which answers the first line that a job and the tables lent with it break, with the first place at
// which they do, or none.
// Proved: the answer is that of specs/Rooms, the list of lines of `refusals` with line 12 behind it. proofs/Refused says that a refusal
// names a line and a place exactly if the line is broken there, at no place before, and no line before it is broken.
// A caller should know: `check_job` has no `requires`, and nothing is lent to be written: a table is given by its number of rows.
#![tactic(auto)]

pub mod job;
pub mod rooms;
