// Document 01's lines 4 to 11: each check answers the first place of its table that breaks the line, or the number of places. That is no `Option`:
// `first_below`, which `first_broken` and its laws are made of, says it so.
ghost use Rattle.std.specs.Prelude.{◌≡◌, ◌||◌, length, ◌≤◌, ltb, position};
ghost use Rattle.columns.specs.First.{first_below, FirstIn};
ghost use Rattle.jobs.specs.Lines.{above, bad_value, bad_bounds, bad_list, bad_segment, bad_def, bad_def_at, bad_end_by_last, bad_end_by_last_at, bad_weight};
ghost use Rattle.jobs.specs.Lines.{fixed_of, bad_span, bad_kind, bad_reservation, bad_fixed_use, bad_fixed_use_at};

use crate::rows::{
    FixedUse, FixedUses, Limits, Reservation, Reservations, Segment, Segments, Uses,
};
use numbers::pick::picked;
use numbers::{Point, weights};

// The first number above a limit.
fn first_above(col: &[u32], limit: u32) -> Option<usize>
    ensures { result ≡ position (λ x. ltb limit x) col.now }
{
    col.iter().position(|x| *x > limit)
}

// Line 4: the first rematerialisation code above 3.
#[tactic(auto, using(crate::proofs::Walk::first_position))]
pub fn first_bad_value(code: &[u32]) -> usize
    ensures { result ≡ first_below (bad_value code.now) (length code.now) }
{
    first_above(code, 3).unwrap_or(code.len())
}

// Line 9: the first spill weight above infinity.
#[tactic(auto, using(crate::proofs::Walk::first_position))]
pub fn first_bad_weight(weight: &[u32]) -> usize
    ensures { result ≡ first_below (bad_weight weight.now) (length weight.now) }
{
    first_above(weight, weights::WEIGHT_LIMIT).unwrap_or(weight.len())
}

// Line 5: a segment's bounds, value and flags, after the segment `last`.
#[tactic(auto, unfolding(crate::specs::Lines::bad_bounds))]
fn bounds_are_bad(limits: Limits, last: Segment, s: Segment) -> bool
    ensures { result ≡ bad_bounds limits last s }
{
    s.end <= s.start
        || s.start % 4 == 3
        || s.end % 4 == 3
        || s.end > limits.end
        || s.start < last.end
        || s.value as usize >= limits.values
        || s.flags > 15
}

// Line 5: a segment's use list, after that of the segment `last`; the last segment's list ends with the uses.
#[tactic(auto, unfolding(crate::specs::Lines::bad_list))]
fn list_is_bad(limits: Limits, last: Segment, is_last: bool, s: Segment) -> bool
    ensures { result ≡ bad_list limits last is_last s }
{
    s.first_use != last.end_use
        || s.end_use < s.first_use
        || s.end_use as usize > limits.uses
        || (is_last && (s.end_use as usize) < limits.uses)
}

// Line 5: the first segment with bad bounds or a bad use list.
#[tactic(auto, using(columns::proofs::Firsts::first_none))]
pub fn first_bad_segment(segments: &Segments, limits: Limits) -> usize
    ensures { result ≡ first_below (bad_segment limits segments.now) (length segments.now) }
{
    let n = segments.len();
    let mut last = Segment::default();
    for i in 0..n {
        let s = segments.at(i);
        if bounds_are_bad(limits, last, s) || list_is_bad(limits, last, i + 1 == n, s) {
            return i;
        }
        last = s;
    }
    n
}

// Line 6: a segment with a fixed def whose start is no Boundary of instruction 1 or later, or whose first use is missing or is no
// fixed def at the instruction before. The use has not been checked: it may hold anything.
#[tactic(auto, unfolding(crate::specs::Lines::bad_def))]
fn def_is_bad(uses: &Uses, s: Segment) -> bool
    ensures { result ≡ bad_def uses.now s }
{
    if !s.has_fixeddef() {
        return false;
    }
    if s.start % 4 != 0 || s.start < 4 || s.end_use <= s.first_use {
        return true;
    }
    let u = uses.at_or_none(s.first_use as usize);
    u.kind != 0 || u.position != s.start / 4 - 1
}

// Line 6: the first segment whose fixed def is not as it must be.
#[tactic(auto, using(columns::proofs::Firsts::first_none))]
pub fn first_bad_def(segments: &Segments, uses: &Uses) -> usize
    ensures { result ≡ first_below (bad_def_at uses.now segments.now) (length segments.now) }
{
    let n = segments.len();
    for i in 0..n {
        let s = segments.at(i);
        if def_is_bad(uses, s) {
            return i;
        }
    }
    n
}

// Line 8: the end of a segment does not fit its flags and its last use, which line 7 has left its highest.
#[tactic(auto, unfolding(crate::specs::Lines::bad_end_by_last))]
fn end_is_bad(uses: &Uses, is_last: bool, s: Segment) -> bool
    ensures { result ≡ bad_end_by_last uses.now is_last s }
{
    if s.has_liveout() {
        if s.end % 4 != 0 {
            return true;
        }
        if s.end_use <= s.first_use {
            return false;
        }
        let u = uses.at_or_none((s.end_use - 1) as usize);
        return u.position == s.end / 4;
    }
    if !is_last {
        return false;
    }
    if s.end_use <= s.first_use {
        return true;
    }
    let u = uses.at_or_none((s.end_use - 1) as usize);
    let end = Point(s.end).round_to_next_inst();
    (u.position as u64) + 1 < (end.0 as u64)
}

// Line 8, where line 7 has passed: the first segment whose end is bad.
#[tactic(auto, using(columns::proofs::Firsts::first_none))]
pub fn first_bad_end(segments: &Segments, uses: &Uses) -> usize
    ensures { result ≡ first_below (bad_end_by_last_at uses.now segments.now) (length segments.now) }
{
    let n = segments.len();
    for i in 0..n {
        let s = segments.at(i);
        if end_is_bad(uses, i + 1 == n, s) {
            return i;
        }
    }
    n
}

// Line 11: a fixed use after the fixed use `last`.
#[tactic(auto, unfolding(crate::specs::Lines::bad_fixed_use))]
fn fixed_use_is_bad(limits: Limits, last: FixedUse, f: FixedUse) -> bool
    ensures { result ≡ bad_fixed_use limits last f }
{
    f.unit >= limits.units
        || f.unit < last.unit
        || f.value as usize >= limits.values
        || f.point % 4 != 0
        || f.point >= limits.end
        || (f.unit == last.unit && f.point < last.point)
}

// Line 11: the first bad fixed use.
#[tactic(auto, using(columns::proofs::Firsts::first_none))]
pub fn first_bad_fixed_use(fixed_uses: &FixedUses, limits: Limits) -> usize
    ensures { result ≡ first_below (bad_fixed_use_at limits fixed_uses.now) (length fixed_uses.now) }
{
    let n = fixed_uses.len();
    let mut last = FixedUse::default();
    for i in 0..n {
        let f = fixed_uses.at(i);
        if fixed_use_is_bad(limits, last, f) {
            return i;
        }
        last = f;
    }
    n
}

// How many fixed uses a unit has, in whatever order they stand.
#[tactic(auto, using(columns::proofs::Counting::counted_none, columns::proofs::Counting::counted_all))]
fn fixed_count(fixed_uses: &FixedUses, u: u32) -> usize
    ensures { result ≡ fixed_of fixed_uses.now u }
{
    let n = fixed_uses.len();
    let mut have: usize = 0;
    for i in 0..n {
        let f = fixed_uses.at(i);
        if f.unit == u {
            have += 1;
        }
    }
    have
}

// Line 10: a reservation's unit and span, after the reservation `last`.
#[tactic(auto, unfolding(crate::specs::Lines::bad_span))]
fn span_is_bad(limits: Limits, last: Reservation, r: Reservation) -> bool
    ensures { result ≡ bad_span limits last r }
{
    r.unit >= limits.units
        || r.unit < last.unit
        || r.end <= r.start
        || r.start % 4 == 3
        || r.end % 4 == 3
        || r.end > limits.end
        || (r.unit == last.unit && r.start < last.end)
}

// Line 10: a reservation's kind, index and fixed row, where its unit has `have` fixed uses. Kinds come in no order, so limits by kind are
// picked (`picked`): a branch for each kind took a quarter more time where kinds mix.
#[tactic(auto, unfolding(crate::specs::Lines::bad_kind))]
fn kind_is_bad(limits: Limits, have: usize, r: Reservation) -> bool
    ensures { result ≡ bad_kind limits have r }
{
    if r.kind > 2 {
        return true;
    }
    let known = picked(r.kind == 0, limits.weights, limits.values);
    let indices = picked(r.kind == 1, 1, known);
    let unfixed = picked(r.kind == 0, u32::MAX, 0);
    let rows = picked(r.kind == 0, have, 1);
    if r.index as usize >= indices {
        return true;
    }
    if r.fixed == unfixed {
        return false;
    }
    r.fixed as usize >= rows
}

// Line 10: the first bad reservation. Units do not fall, so a unit's fixed uses are counted once.
#[tactic(auto, using(columns::proofs::Firsts::first_none))]
pub fn first_bad_reservation(
    reservations: &Reservations,
    fixed_uses: &FixedUses,
    limits: Limits,
) -> usize
    ensures { result ≡ first_below (bad_reservation limits fixed_uses.now reservations.now) (length reservations.now) }
{
    let n = reservations.len();
    let mut have = fixed_count(fixed_uses, 0);
    let mut last = Reservation::default();
    for i in 0..n {
        let r = reservations.at(i);
        if span_is_bad(limits, last, r) {
            return i;
        }
        if r.unit != last.unit {
            have = fixed_count(fixed_uses, r.unit);
        }
        if kind_is_bad(limits, have, r) {
            return i;
        }
        last = r;
    }
    n
}
