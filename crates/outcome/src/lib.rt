// Outcome: what a job is answered, where its tables are filled.
//
// Here: `Answer` and `Proposed`, which the call that proposes hands out; `grow_filled`, which grows a region where tables are ready.
// Proved: the answer is by what came of filling, and the region is that of `region`'s definition.
// A caller should know: growth relies on tables as `fill_tables` leaves them (`GrowableIf`); `proposer` shows that they are.
#![tactic(auto)]

pub mod grow;
