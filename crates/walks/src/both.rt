// A walk to each side, both from one point: a search in each unit finds the places of both.
ghost use Rattle.std.specs.Prelude.{◌≡◌, ◌≤◌, ◌<◌, length};
ghost use Rattle.links.specs.declared.lower.Side.TheVariants.{Previous, Next};
ghost use Rattle.walks.specs.Ways.{other_side};
ghost use Rattle.walks.specs.Gaps.{walk_on, FitsBoth, TakesBoth};
ghost use Rattle.walks.specs.Standing.{OrderedRows, Known, StandsIn, StandsInUnits, PlacesInside};

use crate::gap_rows::GapSegments;
use crate::meeting::{Met, Register};
use crate::reserved::Reserved;
use crate::units::rows_of_unit;
use crate::walk::Walk;
use columns::search::first_at_least;
use jobs::rows::{Reservations, cell};
use links::lower::Side;
use numbers::{Point, Unit};

// Where the walks of one unit begin.
#[derive(Clone, Copy)]
struct Places {
    pub left: usize,
    pub right: usize,
}

// A walk to each side.
#[derive(Clone, Copy)]
pub struct Walkers {
    pub left: Walk,
    pub right: Walk,
}

// What was met, and the walkers behind it.
#[derive(Clone, Copy)]
pub struct TookGap {
    pub met: Met,
    pub walkers: Walkers,
}

// To the right: the first row of the unit that reaches the point. To the left: the row after the last that starts before the point, which
// is the same row or the next one.
#[tactic(auto, using(columns::proofs::Tables::table_length))]
fn places_in(reservations: &Reservations, u: Unit, point: Point) -> Places
    requires { OrderedRows reservations.now × (u.0 < 4294967295) }
    ensures { ((result.left ≤ length reservations.now) × StandsIn Previous reservations.now u.0 point.0 result.left) ×
        ((result.right ≤ length reservations.now) × StandsIn Next reservations.now u.0 point.0 result.right) }
{
    let r = rows_of_unit(reservations, u);
    let from = r.from;
    let to = r.to;
    let right = first_at_least(reservations.end, from, to, point.0);
    if right < to && cell(reservations.start, right) < point.0 {
        return Places {
            left: right + 1,
            right,
        };
    }
    Places { left: right, right }
}

impl Walkers {
    // Walkers for gap segments before row `next`, which end at or before the point, and from that row on, which start at or past it.
    pub fn new(reservations: &Reservations, register: Register, next: usize, point: Point) -> Self
        requires ordered_rows { OrderedRows reservations.now }
        requires known { Known register }
        ensures { (result.left.next ≡ next) ×
            (result.right.next ≡ next) ×
            (PlacesInside register (length reservations.now) result.left × StandsInUnits Previous register reservations.now point.0 result.left) ×
            (PlacesInside register (length reservations.now) result.right × StandsInUnits Next register reservations.now point.0 result.right) }
    {
        let mut lefts = [0usize; 8];
        let mut rights = [0usize; 8];
        for v in 0..register.units {
            let u = Unit(register.first.0 + v);
            let i = v as usize;
            let p = places_in(reservations, u, point);
            lefts[i] = p.left;
            rights[i] = p.right;
        }
        Walkers {
            left: Walk { next, at: lefts },
            right: Walk { next, at: rights },
        }
    }

    // The walk of a side.
    fn walk_on(&self, side: Side) -> Walk
        ensures { result ≡ walk_on side self.now }
    {
        match side {
            Side::Previous => self.left,
            Side::Next => self.right,
        }
    }

    // Puts the walk of a side back; the other stays where it is.
    fn put_back(&mut self, side: Side, walk: Walk)
        ensures { (walk_on side self.new ≡ walk) × (walk_on (other_side side) self.new ≡ walk_on (other_side side) self.old) }
    {
        match side {
            Side::Previous => self.left = walk,
            Side::Next => self.right = walk,
        }
    }

    // The walk of a side takes a gap; the other stays where it is.
    pub fn take_gap(
        mut self,
        side: Side,
        segments: &GapSegments,
        reserved: &Reserved,
        register: Register,
        gap: u32,
        heaviest: f32,
    ) -> TookGap
        requires { FitsBoth register reserved.now segments.now self }
        ensures { TakesBoth side register reserved.now segments.now gap heaviest self result }
    {
        let took = self
            .walk_on(side)
            .take_gap(side, segments, reserved, register, gap, heaviest);
        self.put_back(side, took.walk);
        TookGap {
            met: took.met,
            walkers: self,
        }
    }
}
