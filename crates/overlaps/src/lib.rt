// Overlaps: what segments make of gaps.
//
// Here: `live_insts`, the live instructions of segments alone (`live`); `ValuedSegments`, the three columns of segments that gaps are made of
// (`valued`); one segment taken through the gaps (`passing`), whose gap segments stand in the columns that `GapSegmentTable` lends.
// Proved: `live_insts` equals its definition, which has no cursor; a segment leaves its count in the gaps that it passes and its gap segments
// behind those stored, and all other rows as they were. The laws of live instructions and of gap segments.
// A caller should know: these functions serve the layer above. Each `requires` is a named predicate of specs/ that the checks of `jobs`,
// or the gaps, establish.
#![tactic(auto)]

pub mod live;
pub mod passing;
pub mod valued;
