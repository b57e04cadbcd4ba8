// The lower-cost split point.
ghost use Rattle.std.specs.Prelude.{◌≡◌};
ghost use Rattle.links.specs.Blocks.{blocks_of};
ghost use Rattle.links.specs.Split.{reaches, Swept, last_reached, Between, side_of, split_point, split_answer};

use crate::blocks::Refusal;
use crate::lower::Side;
use crate::{blocks, lower};
use numbers::{Block, Inst};

// A place that does not pass the limit.
fn reaches(side: Side, limit: Inst, place: Inst) -> bool
    ensures { result ≡ reaches side limit.0 place.0 }
{
    lower::not_past(side, limit.0, place.0)
}

// The last place that lower links reach from block b without passing the limit, or `start`. One sweep finds the lower blocks: a
// block is linked from the last one reached exactly if it is lower than all that were swept.
fn sweep(freq: &[u32], edges: &[u32], b: Block, side: Side, start: Inst, limit: Inst) -> Inst
    requires { Swept freq.now edges.now b.0 }
    ensures { result.0 ≡ last_reached side freq.now edges.now limit.0 start.0 b.0 }
{
    let n = freq.len();
    let at = b.0 as usize;
    let count = lower::beside(side, n, at);
    let mut split = start;
    let mut least = freq[at];
    for t in 0..count {
        let i = lower::beyond(side, n, at, t);
        let edge = edges[i];
        let place = Inst(edge);
        if !reaches(side, limit, place) {
            return split;
        }
        let f = freq[i];
        if f < least {
            least = f;
            split = place;
        }
    }
    split
}

// The split point, of a sound block list and an `after` and `before` that are in order.
fn between(
    freq: &[u32],
    first: &[u32],
    end: &[u32],
    after: Inst,
    before: Inst,
    prefer_early: bool,
) -> Inst
    requires { Between freq.now first.now end.now after.0 before.0 }
    ensures { let blocks = blocks_of freq.now first.now end.now in
        result.0 ≡ split_point (side_of prefer_early) blocks after.0 before.0 }
{
    let n = freq.len();
    let early = Inst(after.0 + 1);
    if early.0 == before.0 {
        return before;
    }
    if prefer_early {
        let b = blocks::block_of(end, n, early);
        return sweep(freq, first, b, Side::Next, early, before);
    }
    let b = blocks::block_of(end, n, Inst(before.0 - 1));
    sweep(freq, end, b, Side::Previous, before, early)
}

// The instruction before which the lower-cost split between two instructions stands, for the blocks of the three columns: early next to
// `after`, or late next to `before`. Refused are block lists that break line 2 or 3, and then 13: after not below before, or before above the last end.
pub fn find_optimal_split_point(
    freq: &[u32],
    first: &[u32],
    end: &[u32],
    after: Inst,
    before: Inst,
    prefer_early: bool,
) -> Result<Inst, Refusal>
    ensures { result ≡ split_answer (blocks_of freq.now first.now end.now) after.0 before.0 prefer_early }
{
    blocks::check_blocks(freq, first, end)?;
    let n = blocks::count(freq, first, end);
    let last = end[n - 1];
    if before.0 <= after.0 {
        return Err(Refusal {
            number: 13,
            place: 0,
        });
    }
    if last < before.0 {
        return Err(Refusal {
            number: 13,
            place: 0,
        });
    }
    let split = between(
        &freq[..n],
        &first[..n],
        &end[..n],
        after,
        before,
        prefer_early,
    );
    Ok(split)
}
