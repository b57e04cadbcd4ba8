// A segment taken through the gaps: its live instructions are counted in them, and its nonempty overlaps with them stored, in order.
ghost use Rattle.std.specs.Prelude.{◌≡◌, ◌+◌, ◌≤◌, ◌<◌, length};
ghost use Rattle.overlaps.specs.Live.{Gaps};
ghost use Rattle.overlaps.specs.GapSegments.{nonempty, overlaps_of, EndedBy, put, SegmentRoom};
ghost use Rattle.overlaps.specs.ValuedColumns.{ValuedAt};
ghost use Rattle.overlaps.specs.Lent.{columns_in, lenders};
ghost use Rattle.overlaps.specs.Passing.{passing_segment, Passing, held_at, RowsSet, CountedIn};

use crate::live::{live_from, live_to, overlap};
use crate::valued::ValuedSegments;
use jobs::rows::cell;
use numbers::{Inst, Point, Value};

// The gap segments' columns, lent to be filled.
#[derive(Drop)]
pub struct GapSegmentTable<'a> {
    pub from: &'a mut [u32],
    pub to: &'a mut [u32],
    pub value: &'a mut [u32],
    pub gap: &'a mut [u32],
}

// Stores a gap segment behind the rows used, if it has any points. Answers how many rows are used then.
#[tactic(auto, using(crate::proofs::GapRows::put_some, crate::proofs::GapRows::put_none))]
fn put_overlap(
    table: &mut GapSegmentTable,
    used: usize,
    from: Point,
    to: Point,
    value: Value,
    gap: u32,
) -> usize
    requires { SegmentRoom (length (nonempty from.0 to.0 value.0 gap)) (columns_in table.old used) }
    ensures same { lenders table.new ≡ lenders table.old }
    ensures value { columns_in table.new result ≡ put (nonempty from.0 to.0 value.0 gap) (columns_in table.old used) }
{
    if from.0 >= to.0 {
        return used;
    }
    table.from[used] = from.0;
    table.to[used] = to.0;
    table.value[used] = value.0;
    table.gap[used] = gap;
    used + 1
}

// A segment on its way through the gaps: its points, its value, and its live instructions, from one to before another.
#[derive(Clone, Copy)]
pub struct PassingSegment {
    pub start: Point,
    pub end: Point,
    pub value: Value,
    pub live_from: Inst,
    pub live_to: Inst,
}

// The i-th segment. The live instructions of those before it end at `last`.
pub fn segment_at(segments: &ValuedSegments, i: usize, last: Inst) -> PassingSegment
    requires { ValuedAt i segments.now }
    ensures { result ≡ passing_segment segments.now.starts segments.now.ends segments.now.values i last.0 }
{
    let start = Point(cell(segments.start, i));
    let end = Point(cell(segments.end, i));
    PassingSegment {
        start,
        end,
        value: Value(cell(segments.value, i)),
        live_from: live_from(last, start),
        live_to: live_to(end),
    }
}

// The first gap that a later segment may lie in, how many live instructions are held of it, and how many gap segments are stored.
#[derive(Clone, Copy)]
pub struct Passed {
    pub gap: usize,
    pub held: u32,
    pub used: usize,
}

// Takes a segment through the gaps, from one on before which it has no points; `held` of that gap's live instructions are counted
// already. A gap that ends before the segment does gets its row, which is the first of the rest of the live column that is lent on.
pub fn pass_gaps(
    from: &[u32],
    to: &[u32],
    live: &mut [u32],
    s: PassingSegment,
    table: &mut GapSegmentTable,
    gap: usize,
    held: u32,
    used: usize,
) -> Passed
    requires gaps { Gaps from.now to.now × Passing from.now to.now s gap held × (length from.now ≤ gap + length live.old) }
    requires room { let overlaps = overlaps_of from.now to.now s.start.0 s.end.0 s.value.0 in
        SegmentRoom (length overlaps) (columns_in table.old used) }
    ensures same { lenders table.new ≡ lenders table.old }
    ensures value { let overlaps = overlaps_of from.now to.now s.start.0 s.end.0 s.value.0 in
        EndedBy from.now to.now s.end.0 result.gap
        × CountedIn from.now to.now s gap held live.old live.new result.gap result.held
        × (columns_in table.new result.used ≡ put overlaps (columns_in table.old used)) }
{
    let mut count = held;
    let mut n = used;
    for g in gap..from.len() {
        let f = from[g];
        let t = to[g];
        count += overlap(s.live_from, s.live_to, Inst(f), Inst(t));
        let a = Point(s.start.0.max(4 * f));
        let e = Point(s.end.0.min(4 * t));
        n = put_overlap(table, n, a, e, s.value, g as u32);
        if t >= s.live_to.0 {
            return Passed {
                gap: g,
                held: count,
                used: n,
            };
        }
        live[g - gap] = count;
        count = 0;
    }
    Passed {
        gap: from.len(),
        held: count,
        used: n,
    }
}

// What is held of the gap that the last segment reached is its row; later gaps have no live instructions.
pub fn put_rest(live: &mut [u32], n: usize, held: u32)
    requires { n ≤ length live.old }
    ensures { RowsSet (held_at held) n live.old live.new }
{
    live[..n].fill(0);
    if n > 0 {
        live[0] = held;
    }
}
