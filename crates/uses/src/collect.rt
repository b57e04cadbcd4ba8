// The use table of a checked job.
ghost use Rattle.std.specs.Prelude.{◌≡◌, ◌+◌, length};
ghost use Rattle.use_rows.specs.Uses.{start_inst, end_inst, source_of, use_table_of};
ghost use Rattle.use_rows.specs.UseColumns.{Inside, Holds};
ghost use Rattle.use_rows.specs.Lent.{columns_in, lenders};
ghost use Rattle.uses.specs.CheckedUses.{CheckedUses};
ghost use Rattle.uses.specs.FirstLast.{Starting, Ending};
ghost use Rattle.jobs.specs.Checked.{plain_segment};
ghost use Rattle.links.specs.Blocks.{blocks_of, SoundColumns};

use jobs::checked::LiveSegment;
use jobs::rows::{Segments, Uses};
use numbers::costs::RematScales;
use numbers::{Block, Inst};
use use_lists::lists::{Collected, collect_lists, put_last};
use use_rows::row::{UseTable, no_weights};

// The first instruction of the first segment: that of its start, or the one before it with a fixed def.
fn first_inst(s: LiveSegment) -> Inst
    requires { Starting (plain_segment s) }
    ensures { result.0 ≡ start_inst (plain_segment s) }
{
    let p = s.start.inst();
    if s.has_fixeddef() {
        return Inst(p.0 - 1);
    }
    p
}

// The last instruction of the last segment: the one before its end if it is live-out, else that of its last use.
fn last_inst(uses: &Uses, s: LiveSegment) -> Inst
    requires { Ending uses.now (plain_segment s) }
    ensures { result.0 ≡ end_inst uses.now (plain_segment s) }
{
    if s.has_liveout() {
        let end = s.end.inst();
        return Inst(end.0 - 1);
    }
    let u = uses.placed_at((s.end_use - 1) as usize);
    u.position
}

// Fills a table with the use table of a checked job, and answers how many rows that has. The rows past them stay. The column
// `block_first` is not read: it is lent so that the contract can speak of the block list.
pub fn collect_uses(
    segments: &Segments,
    code: &[u32],
    uses: &Uses,
    freq: &[u32],
    block_first: &[u32],
    block_end: &[u32],
    scales: RematScales,
    table: &mut UseTable,
) -> usize
    requires sound_columns { SoundColumns freq.now block_first.now block_end.now }
    requires checked { let blocks = blocks_of freq.now block_first.now block_end.now in
        CheckedUses (source_of uses.now segments.now code.now scales blocks) }
    requires room { Inside (length uses.now + 1) (columns_in table.old) }
    ensures same { lenders table.new ≡ lenders table.old }
    ensures value { let blocks = blocks_of freq.now block_first.now block_end.now in
        Holds (use_table_of (source_of uses.now segments.now code.now scales blocks)) (columns_in table.old) (columns_in table.new) result }
{
    let first_segment = segments.live_at(0);
    let last_segment = segments.live_at(segments.len() - 1);
    let last = last_inst(uses, last_segment);
    // The first instruction has a row, and so has the last, even if nothing counts there.
    let latest = no_weights(first_inst(first_segment));
    let done = collect_lists(
        segments,
        code,
        uses,
        freq,
        block_end,
        scales,
        table,
        Collected {
            rows: 0,
            latest,
            near: Block(0),
        },
    );
    put_last(table, done, last)
}
