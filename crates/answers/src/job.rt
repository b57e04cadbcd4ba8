// The answer to a job and its tables, as text. The work tables stand here.
ghost use Rattle.std.specs.Prelude.{◌≡◌};
ghost use Rattle.answers.specs.JobAnswer.{links_used, rows_of_proposed, IsAnsweredJob};

use crate::room::{GAP_ROWS, GAP_SEGMENT_ROWS, LINK_ROWS, USE_ROWS, rooms_lent};
use figures::figures::shown_of;
use filling::lent::Rooms;
use links::blocks::count;
use outcome::grow::{Answer, Proposed};
use proposer::propose::propose_split;
use refusals::job::Job;
use sheet::{NoRoom, write_answer};
use table_text::write::write_tables;

// How many bytes were written: of the answer, and of the tables.
#[derive(Clone, Copy, Debug, PartialEq, Eq)]
pub struct Answered {
    pub answer: Result<usize, NoRoom>,
    pub tables: Result<usize, NoRoom>,
}

// How many links are filled: one a block, and none where the job is refused.
fn links_used(a: Answer, blocks: usize) -> usize
    ensures { result ≡ links_used a blocks }
{
    match a {
        Answer::Refused(_) => 0,
        Answer::NoBestUse => blocks,
        Answer::NoRegion => blocks,
        Answer::Found(_) => blocks,
    }
}

// How many rows of each table are used, in a job of so many blocks.
fn rows_used(p: Proposed, blocks: usize) -> Rooms
    ensures { result ≡ rows_of_proposed p blocks }
{
    let answer = p.answer;
    Rooms {
        uses: p.uses,
        gaps: p.gaps,
        gap_segments: p.gap_segments,
        links: links_used(answer, blocks),
    }
}

// Writes the answer to a job to the front of `out`, and the text of its tables to the front of `tables`; a refused job has none. The
// tables are lent as many rows as are asked for, and no more than a sheet can need.
pub fn answer_job(job: &Job, asked: Rooms, out: &mut [u8], tables: &mut [u8]) -> Answered
    ensures { IsAnsweredJob job.now asked out.old out.new tables.old tables.new result }
{
    let lent = rooms_lent(asked);
    let links = lent.links;
    let uses = lent.uses;
    let gaps = lent.gaps;
    let gap_segments = lent.gap_segments;
    let mut prev = [0u32; LINK_ROWS];
    let mut next = [0u32; LINK_ROWS];
    let mut inst = [0u32; USE_ROWS];
    let mut weight = [0f32; USE_ROWS];
    let mut left = [0f32; USE_ROWS];
    let mut right = [0f32; USE_ROWS];
    let mut gap_from = [0u32; GAP_ROWS];
    let mut gap_to = [0u32; GAP_ROWS];
    let mut gap_weight = [0f32; GAP_ROWS];
    let mut live = [0u32; GAP_ROWS];
    let mut freq = [0f32; GAP_ROWS];
    let mut gap_block = [0u32; GAP_ROWS];
    let mut segment_from = [0u32; GAP_SEGMENT_ROWS];
    let mut segment_to = [0u32; GAP_SEGMENT_ROWS];
    let mut segment_value = [0u32; GAP_SEGMENT_ROWS];
    let mut segment_gap = [0u32; GAP_SEGMENT_ROWS];
    let proposed = propose_split(
        job,
        &mut prev[..links],
        &mut next[..links],
        &mut inst[..uses],
        &mut weight[..uses],
        &mut left[..uses],
        &mut right[..uses],
        &mut gap_from[..gaps],
        &mut gap_to[..gaps],
        &mut gap_weight[..gaps],
        &mut live[..gaps],
        &mut freq[..gaps],
        &mut gap_block[..gaps],
        &mut segment_from[..gap_segments],
        &mut segment_to[..gap_segments],
        &mut segment_value[..gap_segments],
        &mut segment_gap[..gap_segments],
    );
    let answer = proposed.answer;
    let rows = rows_used(proposed, count(job.freq, job.first, job.end));
    Answered {
        answer: write_answer(out, shown_of(answer, job.parameters.k)),
        tables: write_tables(
            &prev,
            &next,
            &inst,
            &weight,
            &left,
            &right,
            &gap_from,
            &gap_to,
            &gap_weight,
            &live,
            &freq,
            &gap_block,
            &segment_from,
            &segment_to,
            &segment_value,
            &segment_gap,
            rows,
            tables,
        ),
    }
}
