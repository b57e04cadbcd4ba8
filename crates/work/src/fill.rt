// The work tables of a job that has passed the checks, filled by one call: links and uses, gaps, their live instructions and gap segments.
ghost use Rattle.std.specs.Prelude.{◌≡◌, length, take};
ghost use Rattle.links.specs.Blocks.{blocks_of, SoundColumns};
ghost use Rattle.use_rows.specs.Uses.{source_of};
ghost use Rattle.use_rows.specs.Lent.{columns_in as uses_held, lenders as use_lenders};
ghost use Rattle.overlaps.specs.Live.{starts_in, ends_in};
ghost use Rattle.overlaps.specs.GapSegments.{values_in, Valued, SegmentRoom, Filled};
ghost use Rattle.overlaps.specs.Lent.{columns_in as segments_in, lenders as segment_lenders};
ghost use Rattle.gaps.specs.Gaps.{gaps_of, initial_gap, uses_in, Cuttable};
ghost use Rattle.gaps.specs.GapColumns.{gap_segments_of, Rows, GapsHeld};
ghost use Rattle.gaps.specs.Lent.{columns_in, lenders};
ghost use Rattle.uses.specs.CheckedUses.{CheckedUses};
ghost use Rattle.filling.specs.UseTables.{FromBits};
ghost use Rattle.filling.specs.GapTables.{CutInside, first_uses};
ghost use Rattle.filling.specs.SourceTables.{rooms_of, Roomy};
ghost use Rattle.work.specs.FilledFrom.{IsFilledFrom};
ghost use Rattle.work.specs.Lent.{work_columns_in};

use filling::gap_tables::fill_gap_tables;
use filling::use_tables::fill_uses;
use gaps::gaps::GapCounts;
use gaps::table::GapTable;
use jobs::rows::{Segments, Uses};
use links::blocks::Refusal;
use numbers::costs::RematScales;
use overlaps::passing::GapSegmentTable;
use overlaps::valued::ValuedSegments;
use use_rows::row::{UseRows, UseTable};

// How many rows of the use table, of the gaps and of the gap segments are used, and which gap is the best use's own.
#[derive(Clone, Copy)]
pub struct ReadyTables {
    pub uses: usize,
    pub gaps: usize,
    pub gap_segments: usize,
    pub own: usize,
}

// What came of filling a job's tables: refused, filled with links and so many uses where there is no best use, or ready for growth. No `Result`:
// `filled_of` and its laws speak of these three cases.
#[derive(Clone, Copy)]
pub enum FilledTables {
    Refused(Refusal),
    NoBestUse(usize),
    Ready(ReadyTables),
}

// Fills the gap table and the gap segments of a job whose use table is filled. That is only read from here on, so its columns are lent as
// shared ones, beside three of the segments'.
fn fill_gaps(
    table: &UseTable,
    rows: usize,
    best: usize,
    freq: &[u32],
    first: &[u32],
    end: &[u32],
    prev_lower_freq: &[u32],
    next_lower_freq: &[u32],
    segments: &Segments,
    gaps: &mut GapTable,
    gap_segments: &mut GapSegmentTable,
) -> GapCounts
    requires inside { CutInside rows (uses_held table.now) (length freq.now) prev_lower_freq.now next_lower_freq.now
        (length segments.now) (starts_in segments.now) (ends_in segments.now) (values_in segments.now) }
    requires cuttable { Cuttable freq.now first.now end.now (take (length freq.now) prev_lower_freq.now)
        (take (length freq.now) next_lower_freq.now) (first_uses rows (uses_held table.now)) best
        × Valued (starts_in segments.now) (ends_in segments.now) (values_in segments.now) }
    requires room { let found = gaps_of (blocks_of freq.now first.now end.now) (uses_in (first_uses rows (uses_held table.now))) best in
        let overlaps = gap_segments_of found (starts_in segments.now) (ends_in segments.now) (values_in segments.now) in
        Rows (length found) (columns_in gaps.old) × SegmentRoom (length overlaps) (segments_in gap_segments.old 0) }
    ensures same { (lenders gaps.new ≡ lenders gaps.old) × (segment_lenders gap_segments.new ≡ segment_lenders gap_segments.old) }
    ensures value { let blocks = blocks_of freq.now first.now end.now in
        let used = uses_in (first_uses rows (uses_held table.now)) in
        let found = gaps_of blocks used best in
        let overlaps = gap_segments_of found (starts_in segments.now) (ends_in segments.now) (values_in segments.now) in
        GapsHeld found (starts_in segments.now) (ends_in segments.now) (columns_in gaps.old) (columns_in gaps.new) result.gaps
        × Filled overlaps (segments_in gap_segments.old 0) (segments_in gap_segments.new result.segments)
        × (result.initial ≡ initial_gap blocks used best) }
{
    let count = segments.len();
    let uses = UseRows {
        inst: table.inst,
        weight: table.weight,
        left_weight: table.left_weight,
        right_weight: table.right_weight,
    };
    fill_gap_tables(
        &uses,
        rows,
        best,
        freq,
        first,
        end,
        prev_lower_freq,
        next_lower_freq,
        &ValuedSegments::of(segments),
        count,
        gaps,
        gap_segments,
    )
}

// Fills the tables of a job that has passed the checks.
pub fn fill_checked(
    prev_lower_freq: &mut [u32],
    next_lower_freq: &mut [u32],
    table: &mut UseTable,
    gaps: &mut GapTable,
    gap_segments: &mut GapSegmentTable,
    freq: &[u32],
    first: &[u32],
    end: &[u32],
    code: &[u32],
    segments: &Segments,
    uses: &Uses,
    scales: RematScales,
) -> FilledTables
    requires { let source = source_of uses.now segments.now code.now scales (blocks_of freq.now first.now end.now) in
        let lent = work_columns_in prev_lower_freq.old next_lower_freq.old table.old gaps.old gap_segments.old in
        SoundColumns freq.now first.now end.now × CheckedUses source × FromBits scales
        × Roomy (length source.uses) (length source.blocks) (length source.segments) (rooms_of lent) }
    ensures same { (use_lenders table.new ≡ use_lenders table.old) × (lenders gaps.new ≡ lenders gaps.old)
        × (segment_lenders gap_segments.new ≡ segment_lenders gap_segments.old) }
    ensures value { let source = source_of uses.now segments.now code.now scales (blocks_of freq.now first.now end.now) in
        let lent = work_columns_in prev_lower_freq.old next_lower_freq.old table.old gaps.old gap_segments.old in
        let after = work_columns_in prev_lower_freq.new next_lower_freq.new table.new gaps.new gap_segments.new in
        IsFilledFrom source lent after result }
{
    let filled = fill_uses(
        freq,
        first,
        end,
        segments,
        code,
        uses,
        scales,
        prev_lower_freq,
        next_lower_freq,
        table,
    );
    let rows = filled.rows;
    let found = filled.best;
    let Some(best) = found else {
        return FilledTables::NoBestUse(rows);
    };
    let t = fill_gaps(
        table,
        rows,
        best,
        freq,
        first,
        end,
        prev_lower_freq,
        next_lower_freq,
        segments,
        gaps,
        gap_segments,
    );
    FilledTables::Ready(ReadyTables {
        uses: rows,
        gaps: t.gaps,
        gap_segments: t.segments,
        own: t.initial,
    })
}
