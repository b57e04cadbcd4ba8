// Proposer: the call that proposes a split for a whole job.
//
// Here: `propose_in_tables`, which checks a job, fills its tables, and grows a region around its best use; `propose_split`, the same where each
// column is lent by itself.
// Proved: for every input the answer, the numbers of rows used and all sixteen lent columns are those of specs/Answer. proofs/Answered
// says when each answer is given, what holds of its tables and of every proposal, and that evictions end; proofs/TwoEvictions has a list of
// two.
// A caller should know: there is no `requires`. Columns of a table may differ in length; the shortest counts. A refused job changes
// nothing.
#![tactic(auto)]

pub mod propose;
