// The segments taken through the gaps one after the other: each gap's live instructions, and all gap segments, in order.
ghost use Rattle.std.specs.Prelude.{◌≡◌, ◌≤◌, length};
ghost use Rattle.columns.specs.Table.{filled};
ghost use Rattle.overlaps.specs.Live.{Gaps, live_column};
ghost use Rattle.overlaps.specs.GapSegments.{gap_segments, Valued, SegmentRoom, Filled};
ghost use Rattle.overlaps.specs.Lent.{columns_in, lenders};

use numbers::Inst;
use overlaps::passing::{GapSegmentTable, pass_gaps, put_rest, segment_at};
use overlaps::valued::ValuedSegments;

// Counts the live instructions of each gap, and stores all gap segments. Answers how many gap segments there are.
pub(crate) fn fill_segments(
    segments: &ValuedSegments,
    from: &[u32],
    to: &[u32],
    live: &mut [u32],
    table: &mut GapSegmentTable,
) -> usize
    requires valued { Valued segments.now.starts segments.now.ends segments.now.values × Gaps from.now to.now × (length from.now ≤ length live.old) }
    requires room { let found = gap_segments from.now to.now segments.now.starts segments.now.ends segments.now.values in
        SegmentRoom (length found) (columns_in table.old 0) }
    ensures same { lenders table.new ≡ lenders table.old }
    ensures value { let counted = live_column segments.now.starts segments.now.ends from.now to.now in
        let found = gap_segments from.now to.now segments.now.starts segments.now.ends segments.now.values in
        (live.new ≡ filled counted live.old) × Filled found (columns_in table.old 0) (columns_in table.new result) }
{
    let mut gap: usize = 0;
    let mut held: u32 = 0;
    let mut used: usize = 0;
    let mut last = Inst(0);
    for i in 0..segments.len() {
        let s = segment_at(segments, i, last);
        let passed = pass_gaps(from, to, &mut live[gap..], s, table, gap, held, used);
        gap = passed.gap;
        held = passed.held;
        used = passed.used;
        last = s.live_to;
    }
    put_rest(&mut live[gap..], from.len() - gap, held);
    used
}
