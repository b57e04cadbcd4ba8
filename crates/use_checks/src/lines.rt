// Line 7: the uses.
ghost use Rattle.std.specs.Prelude.{◌≡◌, length, ◌≤◌};
ghost use Rattle.columns.specs.First.{first_below, FirstIn};
ghost use Rattle.jobs.specs.Lines.{cost_most, lies_outside, bad_use, bad_use_of, bad_use_at, Lists};

use crate::all_uses::uses_fit;
use jobs::rows::{Limits, Segment, Segments, Use, Uses};
use numbers::pick::picked;
use numbers::weights;

// The largest cost field of a kind.
pub(crate) fn cost_most(kind: u32) -> u32
    ensures { result ≡ cost_most kind }
{
    let first = picked(kind < 2, 1, 0);
    let last = picked(kind < 8, weights::COST_LIMIT, 0);
    picked(kind < 4, first, last)
}

// A use lies outside a segment. The products are made in 64 bits: a position may be any 32-bit number here.
pub(crate) fn is_outside(s: Segment, u: Use) -> bool
    ensures { result ≡ lies_outside s u }
{
    let p = u.position as u64;
    4 * (p + 1) <= (s.start as u64) || (s.end as u64) < 4 * p
}

// Line 7: a use of segment s, after the use `last`.
#[tactic(auto, unfolding(jobs::specs::Lines::bad_use))]
fn use_is_bad(limits: Limits, s: Segment, is_first: bool, last: Use, u: Use) -> bool
    ensures { result ≡ bad_use limits s is_first last u }
{
    u.kind > 9
        || u.cost > cost_most(u.kind)
        || (limits.end as u64) <= 4 * (u.position as u64)
        || (!is_first && u.position < last.position)
        || (!(is_first && s.has_fixeddef()) && is_outside(s, u))
}

// Line 7: the first bad use of segment s, or the end of its list.
fn first_bad_use_of(uses: &Uses, s: Segment, limits: Limits) -> usize
    requires { (s.first_use ≤ s.end_use) × (s.end_use ≤ length uses.now) }
    ensures { FirstIn (bad_use_of limits uses.now s) s.first_use s.end_use result }
{
    let first = s.first_use as usize;
    let end = s.end_use as usize;
    for i in first..end {
        let u = uses.at(i);
        let last = uses.before(i);
        if use_is_bad(limits, s, i == first, last, u) {
            return i;
        }
    }
    end
}

// Line 7: the first bad use, looked for list by list. The use lists are those that line 5 has passed.
fn search_bad_use(segments: &Segments, uses: &Uses, limits: Limits) -> usize
    requires { Lists (length uses.now) segments.now }
    ensures { result ≡ first_below (bad_use_at limits uses.now segments.now) (length uses.now) }
{
    let n = segments.len();
    for i in 0..n {
        let s = segments.at(i);
        let bad = first_bad_use_of(uses, s, limits);
        if bad < s.end_use as usize {
            return bad;
        }
    }
    uses.len()
}

// Line 7: the first bad use, or their number, as in the checks of `jobs`. All uses are asked at once; only where one is bad it is looked
// for. The use lists are those that line 5 has passed.
#[tactic(auto, using(crate::proofs::AllUses::all_fit))]
pub fn first_bad_use(segments: &Segments, uses: &Uses, limits: Limits) -> usize
    requires { Lists (length uses.now) segments.now }
    ensures { result ≡ first_below (bad_use_at limits uses.now segments.now) (length uses.now) }
{
    if uses_fit(segments, uses, limits) {
        return uses.len();
    }
    search_bad_use(segments, uses, limits)
}
