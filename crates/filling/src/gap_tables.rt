// The gap table of a use table, and its gap segments.
ghost use Rattle.std.specs.Prelude.{◌≡◌, length, take};
ghost use Rattle.links.specs.Blocks.{blocks_of};
ghost use Rattle.overlaps.specs.GapSegments.{Valued, SegmentRoom, Filled};
ghost use Rattle.overlaps.specs.Lent.{columns_in as segments_in, lenders as segment_lenders};
ghost use Rattle.gaps.specs.Gaps.{gaps_of, initial_gap, uses_in, Cuttable};
ghost use Rattle.gaps.specs.GapColumns.{gap_segments_of, Rows, GapsHeld};
ghost use Rattle.gaps.specs.Lent.{columns_in, lenders};
ghost use Rattle.filling.specs.GapTables.{CutInside, first_uses, first_valued};

use gaps::gaps::{GapCounts, build_gaps};
use gaps::table::GapTable;
use overlaps::passing::GapSegmentTable;
use overlaps::valued::ValuedSegments;
use use_rows::row::UseRows;

// Fills both from work tables and segments of which only the first rows count: so many rows of the use table, a link for each block, so
// many segments.
pub fn fill_gap_tables(
    uses: &UseRows,
    rows: usize,
    best: usize,
    freq: &[u32],
    first: &[u32],
    end: &[u32],
    prev_lower_freq: &[u32],
    next_lower_freq: &[u32],
    segments: &ValuedSegments,
    count: usize,
    gaps: &mut GapTable,
    gap_segments: &mut GapSegmentTable,
) -> GapCounts
    requires inside { CutInside rows uses.now (length freq.now) prev_lower_freq.now next_lower_freq.now
        count segments.now.starts segments.now.ends segments.now.values }
    requires cuttable { let cut = first_valued count segments.now in
        Cuttable freq.now first.now end.now (take (length freq.now) prev_lower_freq.now)
        (take (length freq.now) next_lower_freq.now) (first_uses rows uses.now) best
        × Valued cut.starts cut.ends cut.values }
    requires room { let found = gaps_of (blocks_of freq.now first.now end.now) (uses_in (first_uses rows uses.now)) best in
        let cut = first_valued count segments.now in
        let overlaps = gap_segments_of found cut.starts cut.ends cut.values in
        Rows (length found) (columns_in gaps.old) × SegmentRoom (length overlaps) (segments_in gap_segments.old 0) }
    ensures same { (lenders gaps.new ≡ lenders gaps.old) × (segment_lenders gap_segments.new ≡ segment_lenders gap_segments.old) }
    ensures value { let blocks = blocks_of freq.now first.now end.now in
        let used = uses_in (first_uses rows uses.now) in
        let found = gaps_of blocks used best in
        let cut = first_valued count segments.now in
        GapsHeld found cut.starts cut.ends (columns_in gaps.old) (columns_in gaps.new) result.gaps
        × Filled (gap_segments_of found cut.starts cut.ends cut.values)
        (segments_in gap_segments.old 0) (segments_in gap_segments.new result.segments)
        × (result.initial ≡ initial_gap blocks used best) }
{
    let blocks = freq.len();
    let uses = UseRows {
        inst: &uses.inst[..rows],
        weight: &uses.weight[..rows],
        left_weight: &uses.left_weight[..rows],
        right_weight: &uses.right_weight[..rows],
    };
    let segments = ValuedSegments {
        start: &segments.start[..count],
        end: &segments.end[..count],
        value: &segments.value[..count],
    };
    build_gaps(
        &uses,
        best,
        freq,
        first,
        end,
        &prev_lower_freq[..blocks],
        &next_lower_freq[..blocks],
        &segments,
        gaps,
        gap_segments,
    )
}
