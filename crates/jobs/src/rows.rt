// The tables of a job and their rows. A table is lent as one slice a column, and has as many rows as its shortest column: a contract sees it
// as the list of its rows.
#![tactic(auto, using(columns::proofs::Tables::table_length))]

ghost use Rattle.std.specs.Prelude.{◌≡◌, ◌<◌, List, length, get_or};
ghost use Rattle.columns.specs.Table.{row_before};
ghost use Rattle.jobs.specs.Rows.{segments_of, no_segment, uses_of, no_use, live_out, fixed_def};
ghost use Rattle.jobs.specs.Rows.{reservations_of, no_reservation, fixed_uses_of, no_fixed_use};
ghost use Rattle.jobs.specs.declared.rows.Segment.{Segment};
ghost use Rattle.jobs.specs.declared.rows.Use.{Use};
ghost use Rattle.jobs.specs.declared.rows.Reservation.{Reservation};
ghost use Rattle.jobs.specs.declared.rows.FixedUse.{FixedUse};

use columns::rows::shortest;
use std::marker::Model;

// A segment of the virtual register: points from start to end, its value, its uses from first to before end, and flags: 1
// live-in, 2 live-out, 4 fixed hint, 8 fixed def.
#[derive(Clone, Copy, Default)]
pub struct Segment {
    pub start: u32,
    pub end: u32,
    pub value: u32,
    pub first_use: u32,
    pub end_use: u32,
    pub flags: u32,
}

// A use at an instruction.
#[derive(Clone, Copy, Default)]
pub struct Use {
    pub position: u32,
    pub kind: u32,
    pub cost: u32,
}

// A reservation of a unit.
#[derive(Clone, Copy, Default)]
pub struct Reservation {
    pub unit: u32,
    pub start: u32,
    pub end: u32,
    pub kind: u32,
    pub index: u32,
    pub fixed: u32,
}

// A fixed use of a unit.
#[derive(Clone, Copy, Default)]
pub struct FixedUse {
    pub unit: u32,
    pub point: u32,
    pub value: u32,
}

// What rows are held to: how many values, uses and spill weights there are, how many units, and the point at the last block's end.
#[derive(Clone, Copy)]
pub struct Limits {
    pub values: usize,
    pub uses: usize,
    pub weights: usize,
    pub units: u32,
    pub end: u32,
}

// A number of a column.
pub fn cell(col: &[u32], i: usize) -> u32
    requires { i < length col.now }
    ensures { result ≡ get_or col.now i 0 }
{
    col[i]
}

// The segments. The four tables are alike but for their columns: a trait over them would have each say its columns all the same.
#[derive(Drop)]
pub struct Segments<'a> {
    pub start: &'a [u32],
    pub end: &'a [u32],
    pub value: &'a [u32],
    pub first_use: &'a [u32],
    pub end_use: &'a [u32],
    pub flags: &'a [u32],
}

impl<'a> Model for Segments<'a> {
    ghost Value = { List Segment };

    ghost view = { λ t. segments_of t.start.now t.end.now t.value.now t.first_use.now t.end_use.now t.flags.now };
}

impl<'a> Segments<'a> {
    // How many there are.
    pub fn len(&self) -> usize
        ensures { result ≡ length self.now }
    {
        shortest(&[
            self.start.len(),
            self.end.len(),
            self.value.len(),
            self.first_use.len(),
            self.end_use.len(),
            self.flags.len(),
        ])
    }

    // Segment i.
    #[tactic(auto, using(columns::proofs::Tables::table_length, crate::proofs::Reading::own_segment))]
    pub fn at(&self, i: usize) -> Segment
        requires { i < length self.now }
        ensures { result ≡ get_or self.now i no_segment }
    {
        Segment {
            start: cell(self.start, i),
            end: cell(self.end, i),
            value: cell(self.value, i),
            first_use: cell(self.first_use, i),
            end_use: cell(self.end_use, i),
            flags: cell(self.flags, i),
        }
    }
}

// The uses.
#[derive(Drop)]
pub struct Uses<'a> {
    pub position: &'a [u32],
    pub kind: &'a [u32],
    pub cost: &'a [u32],
}

impl<'a> Model for Uses<'a> {
    ghost Value = { List Use };

    ghost view = { λ t. uses_of t.position.now t.kind.now t.cost.now };
}

impl<'a> Uses<'a> {
    // How many there are.
    pub fn len(&self) -> usize
        ensures { result ≡ length self.now }
    {
        shortest(&[self.position.len(), self.kind.len(), self.cost.len()])
    }

    // Use i.
    #[tactic(auto, using(columns::proofs::Tables::table_length, crate::proofs::Reading::own_use))]
    pub fn at(&self, i: usize) -> Use
        requires { i < length self.now }
        ensures { result ≡ get_or self.now i no_use }
    {
        Use {
            position: cell(self.position, i),
            kind: cell(self.kind, i),
            cost: cell(self.cost, i),
        }
    }

    // Use i, or no use past the last.
    pub(crate) fn at_or_none(&self, i: usize) -> Use
        ensures { result ≡ get_or self.now i no_use }
    {
        if i < self.len() {
            return self.at(i);
        }
        Use::default()
    }

    // The use before use i, or no use before the first.
    pub fn before(&self, i: usize) -> Use
        ensures { result ≡ row_before self.now no_use i }
    {
        if i == 0 {
            return Use::default();
        }
        self.at_or_none(i - 1)
    }
}

// The reservations.
#[derive(Drop)]
pub struct Reservations<'a> {
    pub unit: &'a [u32],
    pub start: &'a [u32],
    pub end: &'a [u32],
    pub kind: &'a [u32],
    pub index: &'a [u32],
    pub fixed: &'a [u32],
}

impl<'a> Model for Reservations<'a> {
    ghost Value = { List Reservation };

    ghost view = { λ t. reservations_of t.unit.now t.start.now t.end.now t.kind.now t.index.now t.fixed.now };
}

impl<'a> Reservations<'a> {
    // How many there are.
    pub fn len(&self) -> usize
        ensures { result ≡ length self.now }
    {
        shortest(&[
            self.unit.len(),
            self.start.len(),
            self.end.len(),
            self.kind.len(),
            self.index.len(),
            self.fixed.len(),
        ])
    }

    // Reservation i.
    #[tactic(auto, using(columns::proofs::Tables::table_length, crate::proofs::Reading::own_reservation))]
    pub fn at(&self, i: usize) -> Reservation
        requires { i < length self.now }
        ensures { result ≡ get_or self.now i no_reservation }
    {
        Reservation {
            unit: cell(self.unit, i),
            start: cell(self.start, i),
            end: cell(self.end, i),
            kind: cell(self.kind, i),
            index: cell(self.index, i),
            fixed: cell(self.fixed, i),
        }
    }
}

// The fixed uses.
#[derive(Drop)]
pub struct FixedUses<'a> {
    pub unit: &'a [u32],
    pub point: &'a [u32],
    pub value: &'a [u32],
}

impl<'a> Model for FixedUses<'a> {
    ghost Value = { List FixedUse };

    ghost view = { λ t. fixed_uses_of t.unit.now t.point.now t.value.now };
}

impl<'a> FixedUses<'a> {
    // How many there are.
    pub fn len(&self) -> usize
        ensures { result ≡ length self.now }
    {
        shortest(&[self.unit.len(), self.point.len(), self.value.len()])
    }

    // Fixed use i.
    #[tactic(auto, using(columns::proofs::Tables::table_length, crate::proofs::Reading::own_fixed_use))]
    pub fn at(&self, i: usize) -> FixedUse
        requires { i < length self.now }
        ensures { result ≡ get_or self.now i no_fixed_use }
    {
        FixedUse {
            unit: cell(self.unit, i),
            point: cell(self.point, i),
            value: cell(self.value, i),
        }
    }
}

// Of a segment's flags: the value leaves it alive.
pub(crate) fn live_out(flags: u32) -> bool
    ensures { result ≡ live_out flags }
{
    flags / 2 % 2 == 1
}

// Its first use is a fixed def before its start.
pub(crate) fn fixed_def(flags: u32) -> bool
    ensures { result ≡ fixed_def flags }
{
    flags / 8 % 2 == 1
}

impl Segment {
    // The value leaves the segment alive.
    pub fn has_liveout(self) -> bool
        ensures { result ≡ live_out self.flags }
    {
        live_out(self.flags)
    }

    // Its first use is a fixed def before its start.
    pub fn has_fixeddef(self) -> bool
        ensures { result ≡ fixed_def self.flags }
    {
        fixed_def(self.flags)
    }
}
