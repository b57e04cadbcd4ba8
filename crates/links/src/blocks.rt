// The block list: its part of refusal 2, refusal 3, and the block of an instruction.
ghost use Rattle.std.specs.Prelude.{◌≡◌, false, cond, ◌+◌, ◌-◌, ◌≤◌, min, eqb, ltb, length, get_or};
ghost use Rattle.columns.specs.First.{first_below};
ghost use Rattle.links.specs.Blocks.{blocks_of, is_bad, bad_block, check_of, block_in, Ends};

use columns::rows::shortest;
use columns::search;
use numbers::{Block, Inst, weights};

// No input table has more items.
pub const ITEM_LIMIT: usize = 4096;

// No block ends later.
const END_LIMIT: u32 = 262144;

// A line of document 01's table, and its first offending place. The number is no enum: the C interface hands it out, and `first_broken` and its
// laws speak of lines by number.
#[derive(Clone, Copy)]
pub struct Refusal {
    pub number: u32,
    pub place: u32,
}

// How many blocks the columns hold: as many as the shortest.
pub fn count(freq: &[u32], first: &[u32], end: &[u32]) -> usize
    ensures { result ≡ length (blocks_of freq.now first.now end.now) }
{
    shortest(&[freq.len(), first.len(), end.len()])
}

// A block that has to start at `start` leaves a hole or overlaps, is empty, ends too late or has bad frequency bits.
#[tactic(auto, unfolding(crate::specs::Blocks::is_bad))]
fn is_bad(start: u32, freq: u32, first: u32, end: u32) -> bool
    ensures { result ≡ is_bad start (record { frequency = freq; first = first; end = end }) }
{
    first != start || end <= first || end > END_LIMIT || freq > weights::FREQUENCY_LIMIT
}

// The first bad block, or n: no `Option`, since `first_below`, which `check_of` is made of, says it so.
#[tactic(auto, using(crate::proofs::Rows::blocks_inside))]
fn first_bad(freq: &[u32], first: &[u32], end: &[u32], n: usize) -> usize
    requires { n ≡ length (blocks_of freq.now first.now end.now) }
    ensures { result ≡ first_below (bad_block (blocks_of freq.now first.now end.now)) n }
{
    let mut start: u32 = 0;
    for i in 0..n {
        let e = end[i];
        if is_bad(start, freq[i], first[i], e) {
            return i;
        }
        start = e;
    }
    n
}

// Whether the block list is sound, or the first line that it breaks: 2 for no block or too many, 3 for its first bad block.
pub fn check_blocks(freq: &[u32], first: &[u32], end: &[u32]) -> Result<(), Refusal>
    ensures { result ≡ check_of (blocks_of freq.now first.now end.now) }
{
    let n = count(freq, first, end);
    if n == 0 {
        return Err(Refusal {
            number: 2,
            place: 0,
        });
    }
    if n > ITEM_LIMIT {
        return Err(Refusal {
            number: 2,
            place: 0,
        });
    }
    let bad = first_bad(freq, first, end, n);
    if bad < n {
        return Err(Refusal {
            number: 3,
            place: bad as u32,
        });
    }
    Ok(())
}

// The block of an instruction before the last of n block ends: the first that ends after it. Of a sound block list that is the
// block whose range holds the instruction.
pub fn block_of(end: &[u32], n: usize, inst: Inst) -> Block
    requires { Ends end.now n inst.0 }
    ensures { result.0 ≡ block_in end.now n inst.0 }
{
    let at = search::first_at_least(end, 0, n, inst.0 + 1);
    Block(at as u32)
}

// Whether an instruction lies before a block.
fn lies_before(end: &[u32], b: Block, inst: Inst) -> bool
    requires { b.0 ≤ length end.now }
    ensures { result ≡ cond (eqb b.0 0) false (ltb inst.0 (get_or end.now (b.0 - 1) 0)) }
{
    let at = b.0 as usize;
    at != 0 && inst.0 < end[at - 1]
}

// How many steps forward lead from a block to that of an instruction: the blocks passed end at or before it. The number of blocks is
// not read: it is given so that the contract can say which blocks there are.
#[tactic(auto, using(crate::proofs::Columns::ends_inside, crate::proofs::Stepping::passed, crate::proofs::Stepping::not_passed))]
fn steps_to(end: &[u32], n: usize, inst: Inst, from: Block) -> usize
    requires ends { Ends end.now n inst.0 }
    requires from_bound { from.0 ≤ block_in end.now n inst.0 }
    ensures { from.0 + result ≡ block_in end.now n inst.0 }
{
    let first = from.0 as usize;
    let mut steps: usize = 0;
    // no count over a range: it looks for the first end past the instruction, which is known to be there
    while end[first + steps] <= inst.0 {
        steps += 1;
    }
    steps
}

// The block of an instruction, stepped forward to from one that is not behind it.
#[tactic(auto, using(crate::proofs::Columns::ends_inside))]
pub fn step_forward(end: &[u32], n: usize, inst: Inst, from: Block) -> Block
    requires ends { Ends end.now n inst.0 }
    requires from_bound { from.0 ≤ block_in end.now n inst.0 }
    ensures { result.0 ≡ block_in end.now n inst.0 }
{
    let steps = steps_to(end, n, inst, from);
    Block(from.0 + steps as u32)
}

// One step back from a block to that of an instruction, where that is the one before; else none.
#[tactic(auto, using(crate::proofs::Columns::ends_inside, crate::proofs::Stepping::lies_behind, crate::proofs::Stepping::lies_not_behind))]
pub fn step_back(end: &[u32], n: usize, inst: Inst, from: Block) -> Block
    requires ends { Ends end.now n inst.0 }
    requires from_bound { from.0 ≤ block_in end.now n inst.0 + 1 }
    ensures { result.0 ≡ min from.0 (block_in end.now n inst.0) }
{
    if lies_before(end, from, inst) {
        return Block(from.0 - 1);
    }
    from
}

// The block of an instruction, stepped forward to from one that is likely to be near and not behind it, else searched for: a sweep over
// instructions in order passes each block once. Any block may be given.
#[tactic(auto, using(crate::proofs::Stepping::lies_not_behind))]
pub fn block_near(end: &[u32], n: usize, inst: Inst, near: Block) -> Block
    requires { Ends end.now n inst.0 }
    ensures { result.0 ≡ block_in end.now n inst.0 }
{
    if near.0 as usize >= n || lies_before(end, near, inst) {
        return block_of(end, n, inst);
    }
    step_forward(end, n, inst, near)
}
