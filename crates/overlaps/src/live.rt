// Live instructions of segments, and which of them lie in a gap.
ghost use Rattle.std.specs.Prelude.{◌≡◌, min, max};
ghost use Rattle.numbers.specs.Point.{inst_of, round_up};
ghost use Rattle.overlaps.specs.Live.{Segments, SoundSegments, live_insts, overlap, starts_in, ends_in};

use crate::valued::ValuedSegments;
use jobs::rows;
use numbers::{Inst, Point};

// Where the live instructions of a segment begin. An instruction that it shares with the segment before counts there alone.
pub(crate) fn live_from(last: Inst, start: Point) -> Inst
    ensures { result.0 ≡ max last.0 (inst_of start.0) }
{
    Inst(last.0.max(start.inst().0))
}

// Where they end.
pub(crate) fn live_to(end: Point) -> Inst
    ensures { result.0 ≡ round_up end.0 }
{
    end.round_to_next_inst()
}

// The live instructions of the segments alone.
pub fn live_insts(start: &[u32], end: &[u32]) -> u32
    requires { Segments start.now end.now }
    ensures { result ≡ live_insts start.now end.now }
{
    let mut sum: u32 = 0;
    let mut last = Inst(0);
    for i in 0..start.len() {
        let first = live_from(last, Point(start[i]));
        last = live_to(Point(end[i]));
        sum += last.0 - first.0;
    }
    sum
}

// Those of a job's segments. Their table is named with its module: in a contract here `Segments` is what is asked of two columns.
pub fn live_insts_of(segments: &rows::Segments) -> u32
    requires { SoundSegments segments.now }
    ensures { result ≡ live_insts (starts_in segments.now) (ends_in segments.now) }
{
    let columns = ValuedSegments::of(segments);
    live_insts(columns.start, columns.end)
}

// How many of the instructions from a to before e lie from `from` to before `to`.
pub(crate) fn overlap(a: Inst, e: Inst, from: Inst, to: Inst) -> u32
    ensures { result ≡ overlap a.0 e.0 from.0 to.0 }
{
    let first = a.0.max(from.0);
    let end = e.0.min(to.0);
    end.saturating_sub(first)
}
