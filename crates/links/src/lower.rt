// Lower links, previous and next. Where links are made, a block is its row's number, a `usize` as sweeps over rows count: as a `Block` each
// would be narrowed and widened again. Links are read as blocks (`link_at`).
ghost use Rattle.std.specs.Prelude.{◌≡◌, ◌<◌, length, get_or};
ghost use Rattle.columns.specs.Table.{filled};
ghost use Rattle.links.specs.Links.{beside, beyond, nth, lower_link, link_column, link_answer, Frequencies, LinkedBeyond};
ghost use Rattle.links.specs.Split.{reaches};

use numbers::Block;

// The side of a block on which a lower one is looked for.
#[derive(Clone, Copy)]
pub enum Side {
    Previous,
    Next,
}

// The link of a block that has none: the column is lent as numbers, as C has it.
const ABSENT: u32 = 4294967295;

// How many of n blocks lie on a side of block b.
pub(crate) fn beside(side: Side, n: usize, b: usize) -> usize
    requires { b < n }
    ensures { result ≡ beside side n b }
{
    match side {
        Side::Previous => b,
        Side::Next => n - (b + 1),
    }
}

// The block on a side of block b with t blocks between.
pub(crate) fn beyond(side: Side, n: usize, b: usize, t: usize) -> usize
    requires { (b < n) × (t < beside side n b) }
    ensures { result ≡ beyond side b t }
{
    match side {
        Side::Previous => b - (t + 1),
        Side::Next => b + 1 + t,
    }
}

// The link of block b, from the links of the blocks beyond it: a block that is not lower is passed together with all that its own
// link passes. So the column that is filled does the work of a stack.
fn lower_link(freq: &[u32], links: &[u32], b: usize, side: Side) -> u32
    requires { LinkedBeyond side freq.now links.now b }
    ensures { result ≡ lower_link side freq.now b }
{
    let n = freq.len();
    let x = freq[b];
    if beside(side, n, b) == 0 {
        return ABSENT;
    }
    let mut j = beyond(side, n, b, 0);
    while j < n {
        if freq[j] < x {
            return j as u32;
        }
        j = links[j] as usize;
    }
    ABSENT
}

// The block that is linked after t others.
fn nth(side: Side, n: usize, t: usize) -> usize
    requires { t < n }
    ensures { result ≡ nth side n t }
{
    match side {
        Side::Previous => t,
        Side::Next => n - (t + 1),
    }
}

// The lower links of every block on a side, farthest block first. Later rows of the lent column are unchanged.
fn lower_links(freq: &[u32], links: &mut [u32], side: Side)
    requires { Frequencies freq.now (length links.old) }
    ensures { links.new ≡ filled (link_column side freq.now) links.old }
{
    let n = freq.len();
    for t in 0..n {
        let b = nth(side, n, t);
        links[b] = lower_link(freq, links, b, side);
    }
}

// Both columns of lower links. The blocks are those of a list that `check_blocks` has passed.
pub fn prepare(freq: &[u32], prev_lower_freq: &mut [u32], next_lower_freq: &mut [u32])
    requires { Frequencies freq.now (length prev_lower_freq.old) × Frequencies freq.now (length next_lower_freq.old) }
    ensures prev_lower_freq_after { prev_lower_freq.new ≡ filled (link_column Side.Previous freq.now) prev_lower_freq.old }
    ensures next_lower_freq_after { next_lower_freq.new ≡ filled (link_column Side.Next freq.now) next_lower_freq.old }
{
    lower_links(freq, prev_lower_freq, Side::Previous);
    lower_links(freq, next_lower_freq, Side::Next);
}

// The link that a block has.
pub fn link_at(links: &[u32], b: Block) -> Option<Block>
    requires { b.0 < length links.now }
    ensures { result ≡ link_answer (get_or links.now b.0 0) }
{
    let at = b.0 as usize;
    let link = links[at];
    if link == ABSENT {
        return None;
    }
    Some(Block(link))
}

// A block on a side that does not lie beyond the last.
pub fn reaches(side: Side, last: Block, b: Block) -> bool
    ensures { result ≡ reaches side last.0 b.0 }
{
    not_past(side, last.0, b.0)
}

// A number that does not pass a limit.
pub(crate) fn not_past(side: Side, limit: u32, n: u32) -> bool
    ensures { result ≡ reaches side limit n }
{
    match side {
        Side::Previous => limit <= n,
        Side::Next => n <= limit,
    }
}
