// Gaps: the instructions from the first use to the last, cut between neighbouring uses where the frequency falls.
//
// Here: `build_gaps`, which makes the gap table and the gap segments, in columns that are lent as `GapTable` and `GapSegmentTable`. It cuts
// the space between two uses by lower links, first to last, then takes each segment through the gaps, which counts their live instructions
// and stores its overlaps with them.
// Proved: the six columns of the gap table hold the gaps of specs/Gaps with their live instructions, the four of the gap segments all
// nonempty overlaps, and later rows are as they were. Gaps leave no hole, a gap's block carries the least frequency of those it meets, each
// weight of a use stands in one gap (proofs/GapTable, Placed), and live instructions add up (proofs/JobGaps).
// A caller should know: the links and the use table are those of the same job; its segments have passed the checks.
#![tactic(auto)]

mod cutting;
pub mod gaps;
mod segments;
pub mod table;
