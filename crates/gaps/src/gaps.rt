// The gap table of a use table, every column of it, and its gap segments.
ghost use Rattle.std.specs.Prelude.{◌≡◌, length};
ghost use Rattle.links.specs.Blocks.{blocks_of};
ghost use Rattle.overlaps.specs.GapSegments.{Valued, SegmentRoom, Filled};
ghost use Rattle.overlaps.specs.Lent.{columns_in as segments_in, lenders as segment_lenders};
ghost use Rattle.gaps.specs.Gaps.{gaps_of, initial_gap, uses_in, Cuttable};
ghost use Rattle.gaps.specs.GapColumns.{gap_segments_of, Rows, GapsHeld};
ghost use Rattle.gaps.specs.Lent.{columns_in, lenders};

use crate::cutting::cut_gaps;
use crate::segments::fill_segments;
use crate::table::GapTable;
use overlaps::passing::GapSegmentTable;
use overlaps::valued::ValuedSegments;
use use_rows::row::UseRows;

// How many gaps there are, which is the best use's own, and how many gap segments there are.
#[derive(Clone, Copy)]
pub struct GapCounts {
    pub gaps: usize,
    pub initial: usize,
    pub segments: usize,
}

// Fills the gap table of a use table around its best use, and its gap segments. The rows past them stay.
pub fn build_gaps(
    uses: &UseRows,
    best: usize,
    freq: &[u32],
    first: &[u32],
    end: &[u32],
    prev_lower_freq: &[u32],
    next_lower_freq: &[u32],
    segments: &ValuedSegments,
    gaps: &mut GapTable,
    gap_segments: &mut GapSegmentTable,
) -> GapCounts
    requires cuttable { Cuttable freq.now first.now end.now prev_lower_freq.now next_lower_freq.now uses.now best
        × Valued segments.now.starts segments.now.ends segments.now.values }
    requires room { let found = gaps_of (blocks_of freq.now first.now end.now) (uses_in uses.now) best in
        let overlaps = gap_segments_of found segments.now.starts segments.now.ends segments.now.values in
        Rows (length found) (columns_in gaps.old) × SegmentRoom (length overlaps) (segments_in gap_segments.old 0) }
    ensures same { (lenders gaps.new ≡ lenders gaps.old) × (segment_lenders gap_segments.new ≡ segment_lenders gap_segments.old) }
    ensures value { let blocks = blocks_of freq.now first.now end.now in
        let found = gaps_of blocks (uses_in uses.now) best in
        let overlaps = gap_segments_of found segments.now.starts segments.now.ends segments.now.values in
        GapsHeld found segments.now.starts segments.now.ends (columns_in gaps.old) (columns_in gaps.new) result.gaps
        × Filled overlaps (segments_in gap_segments.old 0) (segments_in gap_segments.new result.segments)
        × (result.initial ≡ initial_gap blocks (uses_in uses.now) best) }
{
    let cut = cut_gaps(
        uses,
        best,
        freq,
        first,
        end,
        prev_lower_freq,
        next_lower_freq,
        gaps,
    );
    let n = cut.rows;
    // The two that are only read are lent as `&mut` too: a `&` to a field beside a loan of another field gets no proof of its borrows.
    let from = &mut gaps.from[..n];
    let to = &mut gaps.to[..n];
    let found = fill_segments(segments, from, to, gaps.live, gap_segments);
    GapCounts {
        gaps: n,
        initial: cut.initial,
        segments: found,
    }
}
