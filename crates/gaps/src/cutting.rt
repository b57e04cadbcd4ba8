// The gaps between uses, cut where the frequency falls.
ghost use Rattle.std.specs.Prelude.{◌≡◌, ◌+◌, ◌-◌, ◌≤◌, ◌<◌, length};
ghost use Rattle.links.specs.Blocks.{blocks_of, Ends};
ghost use Rattle.links.specs.Links.{on_side};
ghost use Rattle.gaps.specs.Gaps.{gaps_of, initial_gap, Cuttable, uses_in};
ghost use Rattle.gaps.specs.Cutting.{with_row, with_gap, stored_gaps, CutRows};
ghost use Rattle.gaps.specs.Lent.{cut_in, uncut};
ghost use Rattle.gaps.specs.Cutting.{Ordered, space_of, Leads, cuts_in, freq_in, Alike, space_gaps, side_gaps, own_in, InOrder};

use crate::table::GapTable;
use links::blocks::{block_near, block_of};
use links::lower::{Side, link_at, reaches};
use numbers::weights::Limit;
use numbers::{Block, Inst};
use use_rows::row::{SplitUse, UseRows};

// What stands left of the best use, or right of it.
fn on_side(side: Side, left: Inst, right: Inst) -> Inst
    ensures { result.0 ≡ on_side side left.0 right.0 }
{
    match side {
        Side::Previous => left,
        Side::Next => right,
    }
}

// Two neighbouring uses and the space between them, from the use nearer to the best one to the farther one: where it begins and
// ends, the weights placed in it, the block in which cutting begins, and the farther use's block.
#[derive(Clone, Copy)]
struct Space {
    pub edge: Inst,
    pub end: Inst,
    pub near: f32,
    pub far: f32,
    pub main: f32,
    pub block: Block,
    pub last: Block,
}

// The space between two uses.
fn space_between(side: Side, end: &[u32], n: usize, u: SplitUse, v: SplitUse, hint: Block) -> Space
    requires { Ordered end.now n u v }
    ensures { result ≡ space_of side end.now n u v }
{
    let p = u.inst;
    let q = v.inst;
    match side {
        Side::Previous => {
            let last = block_near(end, n, p, hint);
            let block = block_near(end, n, Inst(q.0 - 1), last);
            Space {
                edge: q,
                end: p,
                near: v.left_weight,
                far: u.right_weight,
                main: u.weight,
                block,
                last,
            }
        }
        Side::Next => {
            let edge = Inst(p.0 + 1);
            let block = block_near(end, n, edge, hint);
            let last = block_near(end, n, q, block);
            Space {
                edge,
                end: Inst(q.0 + 1),
                near: u.right_weight,
                far: v.left_weight,
                main: v.weight,
                block,
                last,
            }
        }
    }
}

// The later of a space's two blocks: the next space on the right begins there.
fn later_block(side: Side, s: Space) -> Block {
    match side {
        Side::Previous => s.block,
        Side::Next => s.last,
    }
}

// How many cuts there are: one at each lower link, as long as none leads beyond the farther use's block.
fn count_cuts(side: Side, links: &[u32], b: Block, last: Block) -> usize
    requires { Leads side links.now × (b.0 < length links.now) }
    ensures { result ≡ length (cuts_in side links.now last.0 b.0) }
{
    let mut b = b;
    let mut n: usize = 0;
    loop {
        let Some(lower) = link_at(links, b) else {
            break;
        };
        if !reaches(side, last, lower) {
            break;
        }
        b = lower;
        n += 1;
    }
    n
}

// How many rows stand before that of the nearest gap: on the left one for each cut.
fn rows_before(side: Side, links: &[u32], b: Block, last: Block) -> usize
    requires { Leads side links.now × (b.0 < length links.now) }
    ensures { result ≡ on_side side (length (cuts_in side links.now last.0 b.0)) 0 }
{
    match side {
        Side::Previous => count_cuts(side, links, b, last),
        Side::Next => 0,
    }
}

// The row of the next gap away from the best use.
fn next_row(side: Side, at: usize) -> usize
    requires { (on_side side 1 0 ≤ at) × (at < 18446744073709551615) }
    ensures { result ≡ on_side side (at - 1) (at + 1) }
{
    match side {
        Side::Previous => at - 1,
        Side::Next => at + 1,
    }
}

// Stores the gap from an edge to a farther one, with a block and its frequency.
fn put_gap(
    gaps: &mut GapTable,
    at: usize,
    side: Side,
    edge: Inst,
    farther: Inst,
    w: f32,
    f: f32,
    b: Block,
)
    requires { CutRows (at + 1) (cut_in gaps.old) }
    ensures same { uncut gaps.new ≡ uncut gaps.old }
    ensures value { cut_in gaps.new ≡
        with_row (cut_in gaps.old) at (on_side side farther.0 edge.0) (on_side side edge.0 farther.0) w f b.0 }
{
    let a = on_side(side, farther, edge);
    let e = on_side(side, edge, farther);
    gaps.from[at] = a.0;
    gaps.to[at] = e.0;
    gaps.weight[at] = w;
    gaps.min_freq[at] = f;
    gaps.block[at] = b.0;
}

// The frequency of a block.
fn block_frequency(freq: &[u32], b: Block) -> f32
    requires { b.0 < length freq.now }
    ensures { result ≡ freq_in freq.now b.0 }
{
    let i = b.0 as usize;
    Limit::Frequency.value_of(freq[i])
}

// Stores the gaps of the space between two uses from row n on, the nearest first. Answers how many rows are used then.
fn cut_space(
    side: Side,
    freq: &[u32],
    edges: &[u32],
    links: &[u32],
    gaps: &mut GapTable,
    n: usize,
    s: Space,
) -> usize
    requires leads { Leads side links.now × Alike freq.now edges.now links.now × (s.block.0 < length links.now) }
    requires room { CutRows (n + length (space_gaps side freq.now edges.now links.now s)) (cut_in gaps.old) }
    ensures same { uncut gaps.new ≡ uncut gaps.old }
    ensures value { let found = space_gaps side freq.now edges.now links.now s in
        (result ≡ n + length found) × (cut_in gaps.new ≡ stored_gaps n found (cut_in gaps.old)) }
{
    let last = s.last;
    let mut b = s.block;
    let first = n + rows_before(side, links, b, last);
    let mut at = first;
    let mut edge = s.edge;
    let mut w = s.near;
    loop {
        let Some(lower) = link_at(links, b) else {
            break;
        };
        if !reaches(side, last, lower) {
            break;
        }
        let i = lower.0 as usize;
        let place = edges[i];
        let e = Inst(place);
        let f = block_frequency(freq, b);
        put_gap(gaps, at, side, edge, e, w, f, b);
        at = next_row(side, at);
        edge = e;
        w = 0.0;
        b = lower;
    }
    let far_freq = block_frequency(freq, b);
    put_gap(gaps, at, side, edge, s.end, w + s.far + s.main, far_freq, b);
    first.max(at) + 1
}

// Stores the gaps between the uses from the i-th to the last, all on one side of the best use. Answers how many rows are used then.
fn cut_side(
    side: Side,
    uses: &UseRows,
    freq: &[u32],
    end: &[u32],
    edges: &[u32],
    links: &[u32],
    gaps: &mut GapTable,
    i: usize,
    last: usize,
    n: usize,
) -> usize
    requires leads { Leads side links.now × Alike freq.now edges.now links.now }
    requires in_order { InOrder end.now (length freq.now) uses.now i last }
    requires room { let found = side_gaps side freq.now end.now edges.now links.now uses.now i (last - i) in
        CutRows (n + length found) (cut_in gaps.old) }
    ensures same { uncut gaps.new ≡ uncut gaps.old }
    ensures value { let found = side_gaps side freq.now end.now edges.now links.now uses.now i (last - i) in
        (result ≡ n + length found) × (cut_in gaps.new ≡ stored_gaps n found (cut_in gaps.old)) }
{
    let mut n = n;
    let mut near = Block(0);
    for k in i..last {
        let u = uses.at(k);
        let v = uses.at(k + 1);
        let s = space_between(side, end, freq.len(), u, v, near);
        n = cut_space(side, freq, edges, links, gaps, n, s);
        near = later_block(side, s);
    }
    n
}

// Stores the best use's own gap: one instruction.
fn put_own(freq: &[u32], end: &[u32], gaps: &mut GapTable, n: usize, u: SplitUse)
    requires { Ends end.now (length freq.now) u.inst.0 × CutRows (n + 1) (cut_in gaps.old) }
    ensures same { uncut gaps.new ≡ uncut gaps.old }
    ensures value { cut_in gaps.new ≡ with_gap (cut_in gaps.old) n (own_in freq.now end.now u) }
{
    let p = u.inst;
    let b = block_of(end, freq.len(), p);
    let f = block_frequency(freq, b);
    let w = u.weight;
    let next = Inst(p.0 + 1);
    put_gap(gaps, n, Side::Next, p, next, w, f, b);
}

// How many gaps there are, and which is the best use's own.
#[derive(Clone, Copy)]
pub(crate) struct GapsCut {
    pub rows: usize,
    pub initial: usize,
}

// Stores the gaps of a use table around its best use: all columns but the live one. The rows past them stay.
pub(crate) fn cut_gaps(
    uses: &UseRows,
    best: usize,
    freq: &[u32],
    first: &[u32],
    end: &[u32],
    prev_lower_freq: &[u32],
    next_lower_freq: &[u32],
    gaps: &mut GapTable,
) -> GapsCut
    requires cuttable { Cuttable freq.now first.now end.now prev_lower_freq.now next_lower_freq.now uses.now best }
    requires room { let found = gaps_of (blocks_of freq.now first.now end.now) (uses_in uses.now) best in
        CutRows (length found) (cut_in gaps.old) }
    ensures same { uncut gaps.new ≡ uncut gaps.old }
    ensures value { let blocks = blocks_of freq.now first.now end.now in
        let found = gaps_of blocks (uses_in uses.now) best in
        (result.rows ≡ length found) × (cut_in gaps.new ≡ stored_gaps 0 found (cut_in gaps.old)) ×
        (result.initial ≡ initial_gap blocks (uses_in uses.now) best) }
{
    // Cuts stand at the ends of blocks on the left, at their starts on the right.
    let left_edges = end;
    let right_edges = first;
    let initial = cut_side(
        Side::Previous,
        uses,
        freq,
        end,
        left_edges,
        prev_lower_freq,
        gaps,
        0,
        best,
        0,
    );
    let u = uses.at(best);
    put_own(freq, end, gaps, initial, u);
    let rows = cut_side(
        Side::Next,
        uses,
        freq,
        end,
        right_edges,
        next_lower_freq,
        gaps,
        best,
        uses.len() - 1,
        initial + 1,
    );
    GapsCut { rows, initial }
}
