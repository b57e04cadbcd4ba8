// The call that proposes: a job's tables are filled, and a region is grown around its best use.
ghost use Rattle.std.specs.Prelude.{◌≡◌};
ghost use Rattle.filling.specs.SourceTables.{work_columns};
ghost use Rattle.use_rows.specs.Lent.{lenders as use_lenders};
ghost use Rattle.overlaps.specs.Lent.{lenders as segment_lenders};
ghost use Rattle.gaps.specs.Lent.{lenders};
ghost use Rattle.work.specs.Lent.{work_columns_in};
ghost use Rattle.outcome.specs.Growing.{growth_columns, GrowableIf, grown_from};
ghost use Rattle.refusals.specs.Job.{register_of, reserved_of_job};
ghost use Rattle.proposer.specs.Answer.{IsProposed};

use gaps::table::GapTable;
use numbers::Unit;
use outcome::grow::{Proposed, grow_filled};
use overlaps::passing::GapSegmentTable;
use refusals::job::Job;
use region::rows::GapRows;
use tables::fill::fill_tables;
use use_rows::row::UseTable;
use walks::gap_rows::GapSegments;
use walks::meeting::Register;
use walks::reserved::Reserved;
use work::fill::FilledTables;

// Grows a region in a job's tables, of which the first rows are filled.
fn grow_in_tables(
    job: &Job,
    gaps: &GapTable,
    gap_segments: &GapSegmentTable,
    filled: FilledTables,
) -> Proposed
    requires { let columns = growth_columns
        gaps.now.from.now gaps.now.weight.now gaps.now.live.now gaps.now.min_freq.now
        gap_segments.now.from.now gap_segments.now.to.now gap_segments.now.value.now gap_segments.now.gap.now in
        GrowableIf (register_of job.now) (reserved_of_job job.now) job.now.k columns filled }
    ensures { let columns = growth_columns
        gaps.now.from.now gaps.now.weight.now gaps.now.live.now gaps.now.min_freq.now
        gap_segments.now.from.now gap_segments.now.to.now gap_segments.now.value.now gap_segments.now.gap.now in
        result ≡ grown_from (register_of job.now) (reserved_of_job job.now) job.now.k columns filled }
{
    grow_filled(
        &GapRows {
            from: gaps.from,
            weight: gaps.weight,
            live: gaps.live,
            min_freq: gaps.min_freq,
        },
        &GapSegments {
            from: gap_segments.from,
            to: gap_segments.to,
            value: gap_segments.value,
            gap: gap_segments.gap,
        },
        &Reserved {
            reservations: &job.reservations,
            fixed_uses: &job.fixed_uses,
            weight: job.weight,
        },
        Register {
            first: Unit(0),
            units: job.parameters.units,
        },
        job.parameters.k,
        filled,
    )
}

// The answer to a job, and its tables: links, uses, gaps and gap segments in the lent tables, from their first row on. A table has as many
// rows as its shortest column. What a refused job, or a job without a best use, does not fill, and all later rows, stay.
pub fn propose_in_tables(
    job: &Job,
    prev_lower_freq: &mut [u32],
    next_lower_freq: &mut [u32],
    table: &mut UseTable,
    gaps: &mut GapTable,
    gap_segments: &mut GapSegmentTable,
) -> Proposed
    ensures same { (use_lenders table.new ≡ use_lenders table.old) × (lenders gaps.new ≡ lenders gaps.old)
        × (segment_lenders gap_segments.new ≡ segment_lenders gap_segments.old) }
    ensures value { let lent = work_columns_in prev_lower_freq.old next_lower_freq.old table.old gaps.old gap_segments.old in
        let after = work_columns_in prev_lower_freq.new next_lower_freq.new table.new gaps.new gap_segments.new in
        IsProposed job.now lent after result }
{
    let filled = fill_tables(
        job,
        prev_lower_freq,
        next_lower_freq,
        table,
        gaps,
        gap_segments,
    );
    grow_in_tables(job, gaps, gap_segments, filled)
}

// The same where each column is lent by itself, as the C interface lends them.
pub fn propose_split(
    job: &Job,
    prev_lower_freq: &mut [u32],
    next_lower_freq: &mut [u32],
    inst: &mut [u32],
    weight: &mut [f32],
    left_weight: &mut [f32],
    right_weight: &mut [f32],
    gap_from: &mut [u32],
    gap_to: &mut [u32],
    gap_weight: &mut [f32],
    live: &mut [u32],
    min_freq: &mut [f32],
    gap_block: &mut [u32],
    segment_from: &mut [u32],
    segment_to: &mut [u32],
    segment_value: &mut [u32],
    segment_gap: &mut [u32],
) -> Proposed
    ensures { let lent = work_columns
        prev_lower_freq.old next_lower_freq.old
        inst.old weight.old left_weight.old right_weight.old
        gap_from.old gap_to.old gap_weight.old live.old min_freq.old gap_block.old
        segment_from.old segment_to.old segment_value.old segment_gap.old in
        let after = work_columns
        prev_lower_freq.new next_lower_freq.new
        inst.new weight.new left_weight.new right_weight.new
        gap_from.new gap_to.new gap_weight.new live.new min_freq.new gap_block.new
        segment_from.new segment_to.new segment_value.new segment_gap.new in
        IsProposed job.now lent after result }
{
    propose_in_tables(
        job,
        prev_lower_freq,
        next_lower_freq,
        &mut UseTable {
            inst,
            weight,
            left_weight,
            right_weight,
        },
        &mut GapTable {
            from: gap_from,
            to: gap_to,
            weight: gap_weight,
            live,
            min_freq,
            block: gap_block,
        },
        &mut GapSegmentTable {
            from: segment_from,
            to: segment_to,
            value: segment_value,
            gap: segment_gap,
        },
    )
}
