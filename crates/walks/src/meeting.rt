// What a gap segment meets: one fixed use, one reservation, and what was met so far.
ghost use Rattle.std.specs.Prelude.{◌≡◌, length, get_or};
ghost use Rattle.jobs.specs.Checked.{plain_row, plain_fixed_use};
ghost use Rattle.columns.specs.Below.{any_below};
ghost use Rattle.numbers.specs.Weight.{weight_limit, value_of};
ghost use Rattle.walks.specs.Meeting.{meets, clashes, use_counts, counts_as_fixed, looked};
ghost use Rattle.walks.specs.Standing.{OrderedUses, reaches_past};

use crate::reserved::Reserved;
use crate::units::first_use;
use jobs::checked::{Held, HeldUse};
use jobs::rows::FixedUses;
use links::lower::Side;
use numbers::weights::{Limit, heavier};
use numbers::{Point, Unit, Value};

// A gap segment: points from one to before another, and a value.
#[derive(Clone, Copy)]
pub struct GapSegment {
    pub from: Point,
    pub to: Point,
    pub value: Value,
}

// A physical register: its first unit, and how many units it has.
#[derive(Clone, Copy)]
pub struct Register {
    pub first: Unit,
    pub units: u32,
}

// What was met so far: whether something counts as fixed, and the heaviest weight.
#[derive(Clone, Copy)]
pub struct Met {
    pub fixed: bool,
    pub heaviest: f32,
}

// A reservation meets a gap segment.
#[tactic(auto, unfolding(crate::specs::Meeting::meets))]
fn meets(s: GapSegment, r: Held) -> bool
    ensures { result ≡ meets s (plain_row r) }
{
    r.start.0 < s.to.0 && s.from.0 < r.end.0
}

// It reaches past the segment's end, on the way to a side.
pub(crate) fn reaches_past(side: Side, s: GapSegment, r: Held) -> bool
    ensures { result ≡ reaches_past side s (plain_row r) }
{
    match side {
        Side::Previous => r.start.0 < s.from.0,
        Side::Next => s.to.0 < r.end.0,
    }
}

// A fixed use overlaps a gap segment and has another value. The sum is made in 64 bits: a point may be any 32-bit number here.
#[tactic(auto, unfolding(crate::specs::Meeting::clashes))]
fn clashes(s: GapSegment, f: HeldUse) -> bool
    ensures { result ≡ clashes s (plain_fixed_use f) }
{
    f.point.0 < s.to.0 && (s.from.0 as u64) < (f.point.0 as u64) + 2 && f.value.0 != s.value.0
}

// A fixed use of the reservation's unit, from its fixed row on, clashes with the segment. Where the unit's fixed uses begin is
// searched for here, so that no walker has to keep it. They are in order: once one lies past the segment, the rest does.
fn use_clashes(fixed_uses: &FixedUses, r: Held, s: GapSegment) -> bool
    ensures { OrderedUses fixed_uses.now → result ≡ any_below (use_counts fixed_uses.now s (plain_row r)) (length fixed_uses.now) }
{
    let from = first_use(fixed_uses, r.unit);
    let first = from + r.fixed as usize;
    for i in first..fixed_uses.len() {
        let f = fixed_uses.held_at(i);
        if f.unit.0 != r.unit.0 {
            return false;
        }
        if f.point.0 >= s.to.0 {
            return false;
        }
        if clashes(s, f) {
            return true;
        }
    }
    false
}

// Whether a reservation that meets the segment counts as fixed.
#[tactic(auto, unfolding(crate::specs::Meeting::counts_as_fixed))]
fn counts_as_fixed(fixed_uses: &FixedUses, r: Held, s: GapSegment) -> bool
    ensures { OrderedUses fixed_uses.now → result ≡ counts_as_fixed fixed_uses.now s (plain_row r) }
{
    match r.kind {
        0 => r.fixed != 4294967295 && use_clashes(fixed_uses, r, s),
        1 => true,
        2 => r.index != s.value.0,
        _ => false,
    }
}

// The spill weight at an index, zero if there is none.
fn spill_weight(weight: &[u32], index: u32) -> f32
    ensures { result ≡ value_of weight_limit (get_or weight.now index 0) }
{
    let i = index as usize;
    if i < weight.len() {
        return Limit::Weight.value_of(weight[i]);
    }
    Limit::Weight.value_of(0)
}

// What was met, and with it one reservation of the register.
#[tactic(auto, unfolding(crate::specs::Meeting::looked, crate::specs::Meeting::spill_weight))]
pub(crate) fn look(reserved: &Reserved, r: Held, s: GapSegment, met: Met) -> Met
    ensures { OrderedUses reserved.now.fixed_uses → result ≡ looked reserved.now.fixed_uses reserved.now.weights s (plain_row r) met }
{
    if !meets(s, r) {
        return met;
    }
    let counts = counts_as_fixed(reserved.fixed_uses, r, s);
    let fixed = met.fixed | counts;
    let heaviest = if r.kind == 0 {
        heavier(met.heaviest, spill_weight(reserved.weight, r.index))
    } else {
        met.heaviest
    };
    Met { fixed, heaviest }
}
