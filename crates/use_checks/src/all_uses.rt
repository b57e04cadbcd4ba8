// Line 7 of all uses at once, by counting, so that few branches depend on what a use holds: a processor could not guess them. It does not
// say which use is bad: where the counts do not fit, `lines` looks for it.
ghost use Rattle.std.specs.Prelude.{◌≡◌, ◌≤◌, length};
ghost use Rattle.columns.specs.Below.{count_below};
ghost use Rattle.jobs.specs.Lines.{Lists};
ghost use Rattle.use_checks.specs.AllUses.{bad_field, bad_field_at, falls_at, strays, strays_at, begins_lower, begins_lower_at, uses_fit};

use crate::lines::{cost_most, is_outside};
use jobs::rows::{Limits, Segment, Segments, Use, Uses};
use numbers::pick::picked;

// A use's kind is above 9, or its cost field is bad.
#[tactic(auto, unfolding(crate::specs::AllUses::bad_field))]
fn field_is_bad(u: Use) -> bool
    ensures { result ≡ bad_field u }
{
    (u.kind > 9) | (u.cost > cost_most(u.kind))
}

// How many uses have a bad kind or cost field.
#[tactic(auto, using(columns::proofs::Counting::counted_none, columns::proofs::Counting::counted_all))]
fn count_bad_fields(uses: &Uses) -> usize
    ensures { result ≡ count_below (bad_field_at uses.now) (length uses.now) }
{
    let n = uses.len();
    let mut bad: usize = 0;
    for i in 0..n {
        let u = uses.at(i);
        if field_is_bad(u) {
            bad += 1;
        }
    }
    bad
}

// How many uses stand lower than the use before, of whatever segment that is.
#[tactic(auto, using(columns::proofs::Counting::counted_none, columns::proofs::Counting::counted_all))]
fn count_falls(uses: &Uses) -> usize
    ensures { result ≡ count_below (falls_at uses.now) (length uses.now) }
{
    let n = uses.len();
    let mut falls: usize = 0;
    let mut last: u32 = 0;
    for i in 0..n {
        let u = uses.at(i);
        if u.position < last {
            falls += 1;
        }
        last = u.position;
    }
    falls
}

// The last use of a segment's list lies past the blocks, or it or the first one lies outside the segment. The first use of a fixed def is
// left out there: the one after it has to lie inside.
#[tactic(auto, using(columns::proofs::Tables::table_length), unfolding(crate::specs::AllUses::strays))]
fn strays(uses: &Uses, s: Segment, limits: Limits) -> bool
    requires { s.end_use ≤ length uses.now }
    ensures { result ≡ strays limits uses.now s }
{
    let first = s.first_use as usize;
    let end = s.end_use as usize;
    if end <= first {
        return false;
    }
    let last = uses.at(end - 1);
    if (limits.end as u64) <= 4 * (last.position as u64) {
        return true;
    }
    let from = first + picked(s.has_fixeddef(), 1, 0);
    if end <= from {
        return false;
    }
    let u = uses.at(from);
    is_outside(s, u) | is_outside(s, last)
}

// The first use of a segment's list stands lower than the use before, which another segment has.
#[tactic(auto, unfolding(crate::specs::AllUses::begins_lower))]
fn begins_lower(uses: &Uses, s: Segment) -> bool
    requires { s.end_use ≤ length uses.now }
    ensures { result ≡ begins_lower uses.now s }
{
    let first = s.first_use as usize;
    let end = s.end_use as usize;
    if end <= first || first == 0 {
        return false;
    }
    let last = uses.at(first - 1);
    let u = uses.at(first);
    u.position < last.position
}

// How many segments have a list that strays, and how many one that begins lower than the list before ended.
#[derive(Clone, Copy)]
struct ListCounts {
    pub strays: usize,
    pub lower: usize,
}

#[tactic(auto, using(columns::proofs::Counting::counted_none, columns::proofs::Counting::counted_all))]
fn count_lists(segments: &Segments, uses: &Uses, limits: Limits) -> ListCounts
    requires { Lists (length uses.now) segments.now }
    ensures { (result.strays ≡ count_below (strays_at limits uses.now segments.now) (length segments.now)) ×
        (result.lower ≡ count_below (begins_lower_at uses.now segments.now) (length segments.now)) }
{
    let n = segments.len();
    let mut astray: usize = 0;
    let mut lower: usize = 0;
    for i in 0..n {
        let s = segments.at(i);
        if strays(uses, s, limits) {
            astray += 1;
        }
        if begins_lower(uses, s) {
            lower += 1;
        }
    }
    ListCounts {
        strays: astray,
        lower,
    }
}

// Whether the counts show that no use breaks line 7: kinds and cost fields are sound, no list strays, and positions fall only from one
// list to the next. The use lists are those that line 5 has passed.
#[tactic(auto, unfolding(crate::specs::AllUses::uses_fit))]
pub(crate) fn uses_fit(segments: &Segments, uses: &Uses, limits: Limits) -> bool
    requires { Lists (length uses.now) segments.now }
    ensures { result ≡ uses_fit limits uses.now segments.now }
{
    if count_bad_fields(uses) != 0 {
        return false;
    }
    let c = count_lists(segments, uses, limits);
    c.strays == 0 && c.lower == count_falls(uses)
}
