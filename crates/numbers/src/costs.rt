// What a use costs if its virtual register is spilled.
ghost use Rattle.std.specs.Prelude.{◌≡◌};
ghost use Rattle.numbers.specs.Cost.{reload_cost, move_cost, spill_cost, scaled, cost_bits};

use crate::pick::picked;
use crate::weights::Limit;

// Cost of a spill or a reload of a register from memory.
pub const SPILL_RELOAD_COST: f32 = 1.0;

// Cost of a move between two registers.
pub const MOVE_COST: f32 = 0.5;

// The job's three scales for values that are computed again instead of reloaded.
#[derive(Clone, Copy)]
pub struct RematScales {
    pub cheaper_than_move: f32,
    pub cheaper_than_load: f32,
    pub indirect: f32,
}

// The bits of a use's cost, from its kind and its cost field. They are picked as whole numbers, which needs no branch: a processor can't
// guess the kinds of uses.
fn spill_cost_bits(kind: u32, cost: u32) -> u32
    ensures { result ≡ cost_bits kind cost }
{
    // A fixed def or use: the spill or reload, unless the fixed register is a memory location.
    let fixed = picked(cost == 0, f32::to_bits(SPILL_RELOAD_COST), 0);
    // A tied use or a constraint conflict is a move, which a register makes cheaper.
    let tied = f32::to_bits(SPILL_RELOAD_COST - MOVE_COST);
    let first = picked(kind < 2, fixed, tied);
    // Some instructions take stack operands: the class says what that costs. Block parameters do not care where they stand.
    let last = picked(kind < 8, cost, 0);
    picked(kind < 4, first, last)
}

// The cost of a use, from its kind and its cost field, before it is scaled.
fn spill_cost(kind: u32, cost: u32) -> f32
    ensures { result ≡ spill_cost reload_cost move_cost kind cost }
{
    Limit::Cost.value_of(spill_cost_bits(kind, cost))
}

// The cost of a use of a value with this rematerialisation code.
pub fn use_spill_cost(kind: u32, cost: u32, code: u32, scales: RematScales) -> f32
    ensures { result ≡ scaled code scales (spill_cost reload_cost move_cost kind cost) }
{
    let spill_cost = spill_cost(kind, cost);
    match code {
        1 => spill_cost * scales.cheaper_than_move,
        2 => spill_cost * scales.cheaper_than_load,
        3 => spill_cost * scales.indirect,
        _ => spill_cost,
    }
}
