// The uses of the segments' lists, collected in use order.
ghost use Rattle.std.specs.Prelude.{◌≡◌, ◌+◌, ◌-◌, ◌≤◌, ◌<◌, length, get_or};
ghost use Rattle.use_rows.specs.UseColumns.{Inside};
ghost use Rattle.use_rows.specs.Lent.{columns_in, lenders};
ghost use Rattle.use_lists.specs.Collecting.{collecting, is_stored, added_before, added, weight_in, counted, counted_list, counted_lists};
ghost use Rattle.use_lists.specs.Collecting.{held_in, with_last, Listing, Listings, RowsLeft};
ghost use Rattle.use_lists.specs.Steps.{number_before, block_in_use};
ghost use Rattle.jobs.specs.Rows.{no_use};
ghost use Rattle.jobs.specs.Checked.{plain_segment, plain_use};
ghost use Rattle.links.specs.Blocks.{Ends};

use jobs::checked::{LiveSegment, PlacedUse};
use jobs::rows::{Segments, Uses, cell};
use links::blocks::{step_back, step_forward};
use numbers::costs::{RematScales, use_spill_cost};
use numbers::weights::Limit;
use numbers::{Block, Inst};
use use_rows::row::{Part, SplitUse, UseTable, added_to, no_weights, part_of};

// How far the collection is: the rows stored, the latest row, which is not, and the block of the latest use listed, from which the
// next one's is found.
#[derive(Clone, Copy)]
pub struct Collected {
    pub rows: usize,
    pub latest: SplitUse,
    pub near: Block,
}

// Whether the row stored last is that of an instruction.
#[tactic(auto, unfolding(crate::specs::Collecting::is_stored))]
fn is_stored(table: &UseTable, rows: usize, p: Inst) -> bool
    requires { rows ≤ length table.now.inst.now }
    ensures { result ≡ is_stored table.now.inst.now rows p.0 }
{
    rows > 0 && table.inst[rows - 1] == p.0
}

// Adds a use just before the latest row: a fixed def, which stands before its segment.
#[tactic(auto, using(crate::proofs::Storing::stored_some), unfolding(crate::specs::Collecting::added_before))]
fn add_before(table: &mut UseTable, done: Collected, p: Inst, part: Part, w: f32) -> Collected
    requires { Inside done.rows (columns_in table.old) }
    ensures same { lenders table.new ≡ lenders table.old }
    ensures value { collecting (columns_in table.new) result ≡ added_before (collecting (columns_in table.old) done) p.0 part w }
{
    let rows = done.rows;
    if is_stored(table, rows, p) {
        let last = rows - 1;
        let u = table.at(last);
        let v = added_to(u, part, w);
        table.put(last, v);
        return done;
    }
    let v = added_to(no_weights(p), part, w);
    table.put(rows, v);
    Collected {
        rows: rows + 1,
        ..done
    }
}

// Adds a use that counts: to the latest row, after it or just before it.
#[tactic(auto, unfolding(crate::specs::Collecting::added))]
fn add_use(table: &mut UseTable, done: Collected, p: Inst, part: Part, w: f32) -> Collected
    requires { Inside done.rows (columns_in table.old) }
    ensures same { lenders table.new ≡ lenders table.old }
    ensures value { collecting (columns_in table.new) result ≡ added (collecting (columns_in table.old) done) p.0 part w }
{
    let latest = done.latest;
    if p.0 < latest.inst.0 {
        return add_before(table, done, p, part, w);
    }
    if p.0 == latest.inst.0 {
        return Collected {
            latest: added_to(latest, part, w),
            ..done
        };
    }
    table.put(done.rows, latest);
    Collected {
        rows: done.rows + 1,
        latest: added_to(no_weights(p), part, w),
        ..done
    }
}

// A use's weight: its cost times the frequency of its block.
#[tactic(auto, unfolding(crate::specs::Collecting::weight_in))]
fn weight_in(freq: &[u32], cost: f32, b: Block) -> f32
    requires { b.0 < length freq.now }
    ensures { result ≡ weight_in freq.now cost b.0 }
{
    let i = b.0 as usize;
    cost * Limit::Frequency.value_of(freq[i])
}

// Collects one use of a segment, in a block. A use that costs nothing is ignored.
#[tactic(auto, unfolding(crate::specs::Collecting::counted))]
fn count_use(
    freq: &[u32],
    s: LiveSegment,
    p: Inst,
    b: Block,
    cost: f32,
    table: &mut UseTable,
    done: Collected,
) -> Collected
    requires inside { Inside done.rows (columns_in table.old) }
    requires block_inside { b.0 < length freq.now }
    ensures same { lenders table.new ≡ lenders table.old }
    ensures value { collecting (columns_in table.new) result ≡ counted freq.now (plain_segment s) p.0 b.0 cost (collecting (columns_in table.old) done) }
{
    if cost == 0.0 {
        return done;
    }
    let w = weight_in(freq, cost, b);
    let part = part_of(s, p);
    add_use(table, done, p, part, w)
}

// A use and its block.
#[derive(Clone, Copy)]
struct FoundUse {
    pub row: PlacedUse,
    pub block: Block,
}

// Use i and its block, stepped to from that of the use listed before it: by one block back at most, which only a fixed def needs, else
// forward.
fn find_use(uses: &Uses, end: &[u32], n: usize, i: usize, from: Block) -> FoundUse
    requires use_inside { (i < length uses.now) × Ends end.now n (get_or uses.now i no_use).position }
    requires from_before { let block = block_in_use end.now n uses.now in
        (from.0 ≡ number_before block i) × (from.0 ≤ block i + 1) }
    ensures { (plain_use result.row ≡ get_or uses.now i no_use) × (result.block.0 ≡ block_in_use end.now n uses.now i) }
{
    let row = uses.placed_at(i);
    let p = row.position;
    let near = step_back(end, n, p, from);
    let block = step_forward(end, n, p, near);
    FoundUse { row, block }
}

// Collects the uses of one segment's list, whose value has a code. The block of each use is found from that of the use listed
// before it.
fn collect_list(
    uses: &Uses,
    freq: &[u32],
    end: &[u32],
    s: LiveSegment,
    code: u32,
    scales: RematScales,
    table: &mut UseTable,
    done: Collected,
) -> Collected
    requires listing { Listing uses.now end.now (length freq.now) (plain_segment s) }
    requires room { RowsLeft (s.end_use - s.first_use) (collecting (columns_in table.old) done) }
    requires near_value { done.near.0 ≡ number_before (block_in_use end.now (length freq.now) uses.now) s.first_use }
    ensures same { lenders table.new ≡ lenders table.old }
    ensures value { (collecting (columns_in table.new) result ≡
        counted_list uses.now freq.now end.now (plain_segment s) code scales (s.end_use - s.first_use) (collecting (columns_in table.old) done)) ×
        (result.near.0 ≡ number_before (block_in_use end.now (length freq.now) uses.now) s.end_use) }
{
    let mut done = done;
    for i in s.first_use as usize..s.end_use as usize {
        let near = done.near;
        let found = find_use(uses, end, freq.len(), i, near);
        let u = found.row;
        let b = found.block;
        let c = use_spill_cost(u.kind, u.cost, code, scales);
        done = count_use(freq, s, u.position, b, c, table, done);
        done.near = b;
    }
    done
}

// Collects the uses of all segments, list by list.
pub fn collect_lists(
    segments: &Segments,
    code: &[u32],
    uses: &Uses,
    freq: &[u32],
    block_end: &[u32],
    scales: RematScales,
    table: &mut UseTable,
    done: Collected,
) -> Collected
    requires checked { Listings uses.now block_end.now (length freq.now) (length code.now) segments.now }
    requires room { RowsLeft (length uses.now) (collecting (columns_in table.old) done) }
    requires near_value { done.near.0 ≡ 0 }
    ensures same { lenders table.new ≡ lenders table.old }
    ensures value { collecting (columns_in table.new) result ≡
        counted_lists uses.now freq.now block_end.now segments.now code.now scales (length segments.now) (collecting (columns_in table.old) done) }
{
    let mut done = done;
    for i in 0..segments.len() {
        let s = segments.live_at(i);
        let c = cell(code, s.value.0 as usize);
        done = collect_list(uses, freq, block_end, s, c, scales, table, done);
    }
    done
}

// Stores the latest row, and behind it that of the last instruction where that comes later. Answers how many rows there are.
#[tactic(auto, unfolding(crate::specs::Collecting::with_last))]
pub fn put_last(table: &mut UseTable, done: Collected, last: Inst) -> usize
    requires { RowsLeft 1 (collecting (columns_in table.old) done) }
    ensures same { lenders table.new ≡ lenders table.old }
    ensures value { held_in (columns_in table.new) result ≡ with_last (collecting (columns_in table.old) done) last.0 }
{
    let rows = done.rows;
    let latest = done.latest;
    let at = latest.inst;
    table.put(rows, latest);
    if at.0 == last.0 {
        return rows + 1;
    }
    let u = no_weights(last);
    table.put(rows + 1, u);
    rows + 2
}
