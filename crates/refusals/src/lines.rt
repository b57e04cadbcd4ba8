// Document 01's lines 1 to 11, by groups: each function answers the first of its lines that is broken, or none. A group relies on
// those before it.
ghost use Rattle.std.specs.Prelude.{◌≡◌, [], ◌∷◌, ◌≤◌, length};
ghost use Rattle.links.specs.Blocks.{item_limit};
ghost use Rattle.refusals.specs.Refusals.{first_broken, verdict_of, bad_parameters, some_long, bad_sizes, line1, line2, line4, line5, line6};
ghost use Rattle.refusals.specs.Refusals.{line7, line8, line9, line10, line11, limits_by, LastEnd, FewSegments, Few};

use crate::job::{Parameters, Sizes};
use jobs::checks;
use jobs::rows::{FixedUses, Limits, Reservations, Segments, Uses};
use links::blocks;
use links::blocks::Refusal;
use numbers::weights;
use use_checks::lines::first_bad_use;

// The adjustment k is no larger.
pub const ADJUSTMENT_LIMIT: u32 = 65536;

// A register has no more units.
pub const UNIT_LIMIT: u32 = 8;

// The answer of a line of so many places, whose first bad place is `bad`.
pub fn verdict(number: u32, bad: usize, places: usize) -> Result<(), Refusal>
    requires { places ≤ item_limit }
    ensures { result ≡ verdict_of number bad places }
{
    if bad < places {
        return Err(Refusal {
            number: number,
            place: bad as u32,
        });
    }
    Ok(())
}

// Line 1: k too large, or a scale.
#[tactic(auto, unfolding(crate::specs::Refusals::bad_parameters))]
fn parameters_are_bad(p: Parameters) -> bool
    ensures { result ≡ bad_parameters p.k p.cheaper_than_move p.cheaper_than_load p.indirect }
{
    p.k > ADJUSTMENT_LIMIT
        || p.cheaper_than_move > weights::COST_LIMIT
        || p.cheaper_than_load > weights::COST_LIMIT
        || p.indirect > weights::COST_LIMIT
}

// Line 2: some table is too long.
#[tactic(auto, unfolding(crate::specs::Refusals::some_long))]
fn some_long(t: Sizes) -> bool
    ensures { result ≡ some_long t }
{
    t.blocks > blocks::ITEM_LIMIT
        || t.values > blocks::ITEM_LIMIT
        || t.segments > blocks::ITEM_LIMIT
        || t.uses > blocks::ITEM_LIMIT
        || t.weights > blocks::ITEM_LIMIT
        || t.reservations > blocks::ITEM_LIMIT
        || t.fixed_uses > blocks::ITEM_LIMIT
}

// Line 2: no block, no segment, no unit or too many, or a table that is too long.
#[tactic(auto, unfolding(crate::specs::Refusals::bad_sizes))]
fn sizes_are_bad(units: u32, t: Sizes) -> bool
    ensures { result ≡ bad_sizes units t }
{
    t.blocks == 0 || t.segments == 0 || units == 0 || units > UNIT_LIMIT || some_long(t)
}

// Lines 1 and 2: the parameters, and how many items the tables have.
#[tactic(auto, unfolding(crate::specs::Refusals::first_broken, columns::specs::First::first_below))]
pub(crate) fn check_sizes(p: Parameters, t: Sizes) -> Result<(), Refusal>
    ensures { result ≡ first_broken (line1 p.k p.cheaper_than_move p.cheaper_than_load p.indirect ∷ line2 p.units t ∷ []) }
{
    if parameters_are_bad(p) {
        return Err(Refusal {
            number: 1,
            place: 0,
        });
    }
    if sizes_are_bad(p.units, t) {
        return Err(Refusal {
            number: 2,
            place: 0,
        });
    }
    Ok(())
}

// Line 4.
#[tactic(auto, unfolding(crate::specs::Refusals::first_broken))]
pub(crate) fn check_values(code: &[u32]) -> Result<(), Refusal>
    requires { length code.now ≤ item_limit }
    ensures { result ≡ first_broken (line4 code.now ∷ []) }
{
    let bad = checks::first_bad_value(code);
    verdict(4, bad, code.len())
}

// What rows are held to. The product does not wrap: line 3 has passed the last block's end.
pub(crate) fn limits_of(end: &[u32], units: u32, t: Sizes) -> Limits
    requires { LastEnd end.now t.blocks }
    ensures { result ≡ limits_by end.now units t }
{
    let last = t.blocks - 1;
    Limits {
        values: t.values,
        uses: t.uses,
        weights: t.weights,
        units: units,
        end: 4 * end[last],
    }
}

// Lines 5 to 8: segments and uses. Line 7 relies on the use lists that line 5 has passed.
#[tactic(auto, unfolding(crate::specs::Refusals::first_broken))]
pub(crate) fn check_segments(
    segments: &Segments,
    uses: &Uses,
    limits: Limits,
) -> Result<(), Refusal>
    requires { FewSegments limits uses.now segments.now }
    ensures { let segments = segments.now in
        let uses = uses.now in
        result ≡ first_broken (line5 limits segments ∷ line6 uses segments ∷ line7 limits uses segments ∷ line8 uses segments ∷ []) }
{
    let rows = segments.len();
    let segment = checks::first_bad_segment(segments, limits);
    if segment < rows {
        return verdict(5, segment, rows);
    }
    let def = checks::first_bad_def(segments, uses);
    if def < rows {
        return verdict(6, def, rows);
    }
    let at = first_bad_use(segments, uses, limits);
    let places = uses.len();
    if at < places {
        return verdict(7, at, places);
    }
    let end = checks::first_bad_end(segments, uses);
    verdict(8, end, rows)
}

// Lines 9 to 11: spill weights, reservations and fixed uses.
#[tactic(auto, unfolding(crate::specs::Refusals::first_broken))]
pub(crate) fn check_reservations(
    weight: &[u32],
    reservations: &Reservations,
    fixed_uses: &FixedUses,
    limits: Limits,
) -> Result<(), Refusal>
    requires { Few (length weight.now) (length reservations.now) (length fixed_uses.now) }
    ensures { let fixed_uses = fixed_uses.now in
        result ≡ first_broken (line9 weight.now ∷ line10 limits fixed_uses reservations.now ∷ line11 limits fixed_uses ∷ []) }
{
    let weights = weight.len();
    let heavy = checks::first_bad_weight(weight);
    if heavy < weights {
        return verdict(9, heavy, weights);
    }
    let rows = reservations.len();
    let row = checks::first_bad_reservation(reservations, fixed_uses, limits);
    if row < rows {
        return verdict(10, row, rows);
    }
    let at = checks::first_bad_fixed_use(fixed_uses, limits);
    verdict(11, at, fixed_uses.len())
}
