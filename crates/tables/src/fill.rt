// A job's work tables, filled by one call: the job is checked, then links and uses, gaps, their live instructions and gap segments.
ghost use Rattle.std.specs.Prelude.{◌≡◌};
ghost use Rattle.links.specs.Blocks.{no_refusal};
ghost use Rattle.use_rows.specs.Lent.{lenders as use_lenders};
ghost use Rattle.overlaps.specs.Lent.{lenders as segment_lenders};
ghost use Rattle.gaps.specs.Lent.{lenders};
ghost use Rattle.filling.specs.SourceTables.{rooms_of};
ghost use Rattle.work.specs.Lent.{work_columns_in};
ghost use Rattle.rooms.specs.Rooms.{refusal_of};
ghost use Rattle.tables.specs.Filled.{IsFilled};

use columns::rows::shortest;
use filling::lent::Rooms;
use gaps::table::GapTable;
use links::blocks::count;
use numbers::costs::RematScales;
use overlaps::passing::GapSegmentTable;
use refusals::job::Job;
use rooms::job::check_job;
use use_rows::row::UseTable;
use work::fill::{FilledTables, fill_checked};

// How many rows each table has: as many as its shortest column.
fn rooms_of(
    prev_lower_freq: &[u32],
    next_lower_freq: &[u32],
    table: &UseTable,
    gaps: &GapTable,
    gap_segments: &GapSegmentTable,
) -> Rooms
    ensures { result ≡ rooms_of (work_columns_in prev_lower_freq.now next_lower_freq.now table.now gaps.now gap_segments.now) }
{
    Rooms {
        uses: shortest(&[
            table.inst.len(),
            table.weight.len(),
            table.left_weight.len(),
            table.right_weight.len(),
        ]),
        gaps: shortest(&[
            gaps.from.len(),
            gaps.to.len(),
            gaps.weight.len(),
            gaps.live.len(),
            gaps.min_freq.len(),
            gaps.block.len(),
        ]),
        gap_segments: shortest(&[
            gap_segments.from.len(),
            gap_segments.to.len(),
            gap_segments.value.len(),
            gap_segments.gap.len(),
        ]),
        links: prev_lower_freq.len().min(next_lower_freq.len()),
    }
}

// Fills the tables of a job that lines 1 to 12 accept.
fn fill_accepted(
    prev_lower_freq: &mut [u32],
    next_lower_freq: &mut [u32],
    table: &mut UseTable,
    gaps: &mut GapTable,
    gap_segments: &mut GapSegmentTable,
    job: &Job,
) -> FilledTables
    requires { let lent = work_columns_in prev_lower_freq.old next_lower_freq.old table.old gaps.old gap_segments.old in
        refusal_of job.now (rooms_of lent) ≡ no_refusal }
    ensures same { (use_lenders table.new ≡ use_lenders table.old) × (lenders gaps.new ≡ lenders gaps.old)
        × (segment_lenders gap_segments.new ≡ segment_lenders gap_segments.old) }
    ensures value { let lent = work_columns_in prev_lower_freq.old next_lower_freq.old table.old gaps.old gap_segments.old in
        let after = work_columns_in prev_lower_freq.new next_lower_freq.new table.new gaps.new gap_segments.new in
        IsFilled job.now lent after result }
{
    let scales = RematScales::from(job.parameters);
    let blocks = count(job.freq, job.first, job.end);
    fill_checked(
        prev_lower_freq,
        next_lower_freq,
        table,
        gaps,
        gap_segments,
        &job.freq[..blocks],
        &job.first[..blocks],
        &job.end[..blocks],
        job.code,
        &job.segments,
        &job.uses,
        scales,
    )
}

// Checks a job by lines 1 to 12 and fills its tables: links, uses, gaps and gap segments in the lent columns, from their first row on. A
// table has as many rows as its shortest column. What a refused job, or a job without a best use, does not fill, and all later rows, stay.
pub fn fill_tables(
    job: &Job,
    prev_lower_freq: &mut [u32],
    next_lower_freq: &mut [u32],
    table: &mut UseTable,
    gaps: &mut GapTable,
    gap_segments: &mut GapSegmentTable,
) -> FilledTables
    ensures same { (use_lenders table.new ≡ use_lenders table.old) × (lenders gaps.new ≡ lenders gaps.old)
        × (segment_lenders gap_segments.new ≡ segment_lenders gap_segments.old) }
    ensures value { let lent = work_columns_in prev_lower_freq.old next_lower_freq.old table.old gaps.old gap_segments.old in
        let after = work_columns_in prev_lower_freq.new next_lower_freq.new table.new gaps.new gap_segments.new in
        IsFilled job.now lent after result }
{
    let rooms = rooms_of(prev_lower_freq, next_lower_freq, table, gaps, gap_segments);
    if let Err(r) = check_job(job, rooms) {
        return FilledTables::Refused(r);
    }
    fill_accepted(
        prev_lower_freq,
        next_lower_freq,
        table,
        gaps,
        gap_segments,
        job,
    )
}
