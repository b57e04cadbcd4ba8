// Rows as they are read after the checks: what has passed as the index of something has its type. Kinds and flags stay the columns' numbers:
// the definitions speak of these, and numbers that no accepted job holds have their answer too.
ghost use Rattle.std.specs.Prelude.{◌≡◌, ◌<◌, length, get_or};
ghost use Rattle.jobs.specs.Rows.{no_segment, no_use, no_reservation, no_fixed_use, live_out, fixed_def};
ghost use Rattle.jobs.specs.Checked.{live_segment, placed_use, held_reservation, held_use};

use crate::rows;
use crate::rows::{FixedUse, FixedUses, Reservation, Reservations, Segment, Segments, Use, Uses};
use numbers::{Inst, Point, Unit, Value};

// A segment: its points, its value, its uses from first to before end, and flags.
#[derive(Clone, Copy)]
pub struct LiveSegment {
    pub start: Point,
    pub end: Point,
    pub value: Value,
    pub first_use: u32,
    pub end_use: u32,
    pub flags: u32,
}

// A use, placed at an instruction.
#[derive(Clone, Copy)]
pub struct PlacedUse {
    pub position: Inst,
    pub kind: u32,
    pub cost: u32,
}

// A reservation: the unit that is held, and from which point to which.
#[derive(Clone, Copy)]
pub struct Held {
    pub unit: Unit,
    pub start: Point,
    pub end: Point,
    pub kind: u32,
    pub index: u32,
    pub fixed: u32,
}

// A fixed use: the unit that is held, the point, and the value.
#[derive(Clone, Copy)]
pub struct HeldUse {
    pub unit: Unit,
    pub point: Point,
    pub value: Value,
}

impl From<Segment> for LiveSegment {
    ghost from_gives = { λ s r. r ≡ live_segment s };

    fn from(s: Segment) -> LiveSegment {
        LiveSegment {
            start: Point(s.start),
            end: Point(s.end),
            value: Value(s.value),
            first_use: s.first_use,
            end_use: s.end_use,
            flags: s.flags,
        }
    }
}

impl From<Use> for PlacedUse {
    ghost from_gives = { λ u r. r ≡ placed_use u };

    fn from(u: Use) -> PlacedUse {
        PlacedUse {
            position: Inst(u.position),
            kind: u.kind,
            cost: u.cost,
        }
    }
}

impl From<Reservation> for Held {
    ghost from_gives = { λ r h. h ≡ held_reservation r };

    fn from(r: Reservation) -> Held {
        Held {
            unit: Unit(r.unit),
            start: Point(r.start),
            end: Point(r.end),
            kind: r.kind,
            index: r.index,
            fixed: r.fixed,
        }
    }
}

impl From<FixedUse> for HeldUse {
    ghost from_gives = { λ f h. h ≡ held_use f };

    fn from(f: FixedUse) -> HeldUse {
        HeldUse {
            unit: Unit(f.unit),
            point: Point(f.point),
            value: Value(f.value),
        }
    }
}

impl<'a> Segments<'a> {
    // Segment i.
    pub fn live_at(&self, i: usize) -> LiveSegment
        requires { i < length self.now }
        ensures { result ≡ live_segment (get_or self.now i no_segment) }
    {
        LiveSegment::from(self.at(i))
    }
}

impl<'a> Uses<'a> {
    // Use i.
    pub fn placed_at(&self, i: usize) -> PlacedUse
        requires { i < length self.now }
        ensures { result ≡ placed_use (get_or self.now i no_use) }
    {
        PlacedUse::from(self.at(i))
    }
}

impl<'a> Reservations<'a> {
    // Reservation i.
    pub fn held_at(&self, i: usize) -> Held
        requires { i < length self.now }
        ensures { result ≡ held_reservation (get_or self.now i no_reservation) }
    {
        Held::from(self.at(i))
    }
}

impl<'a> FixedUses<'a> {
    // Fixed use i.
    pub fn held_at(&self, i: usize) -> HeldUse
        requires { i < length self.now }
        ensures { result ≡ held_use (get_or self.now i no_fixed_use) }
    {
        HeldUse::from(self.at(i))
    }
}

impl LiveSegment {
    // The value leaves the segment alive. A line each here and for `Segment`: a trait for both would be no shorter.
    pub fn has_liveout(self) -> bool
        ensures { result ≡ live_out self.flags }
    {
        rows::live_out(self.flags)
    }

    // Its first use is a fixed def before its start.
    pub fn has_fixeddef(self) -> bool
        ensures { result ≡ fixed_def self.flags }
    {
        rows::fixed_def(self.flags)
    }
}
