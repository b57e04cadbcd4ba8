// Where the rows and the fixed uses of a unit stand. Units do not fall, so both stand together. A register often has one unit, whose rows
// are all rows: the ends of the column tell.
ghost use Rattle.std.specs.Prelude.{◌≤◌, ◌<◌, length};
ghost use Rattle.walks.specs.Standing.{OrderedRows, OrderedUses, RowsOfUnit, UsesFrom};

use columns::search::first_from_ends;
use jobs::rows::{FixedUses, Reservations};
use numbers::Unit;

// The rows of a unit: from one to before another.
#[derive(Clone, Copy)]
pub(crate) struct UnitRows {
    pub from: usize,
    pub to: usize,
}

#[tactic(auto, using(columns::proofs::Tables::table_length))]
pub(crate) fn rows_of_unit(reservations: &Reservations, u: Unit) -> UnitRows
    requires { OrderedRows reservations.now × (u.0 < 4294967295) }
    ensures { RowsOfUnit reservations.now u.0 result.from result.to }
{
    let n = reservations.len();
    let from = first_from_ends(reservations.unit, 0, n, u.0);
    let to = first_from_ends(reservations.unit, from, n, u.0 + 1);
    UnitRows { from, to }
}

// Where a unit's fixed uses begin: so few come before them that a fixed row can be added.
#[tactic(auto, using(columns::proofs::Tables::table_length))]
pub(crate) fn first_use(fixed_uses: &FixedUses, u: Unit) -> usize
    ensures few { result < 4611686018427387904 }
    ensures begin { (result ≤ length fixed_uses.now) × (OrderedUses fixed_uses.now → UsesFrom fixed_uses.now u.0 result) }
{
    first_from_ends(fixed_uses.unit, 0, fixed_uses.len(), u.0)
}
