// One walk for both sides: over gap segments and, in each unit of a register, over its reservations. To the right both come in rising
// order, to the left in falling order.
ghost use Rattle.std.specs.Prelude.{◌≡◌, ◌≤◌, length};
ghost use Rattle.walks.specs.Meeting.{also_met, one_unit};
ghost use Rattle.walks.specs.Standing.{Known, StandsIn, StandsInUnits, PlacesInside, Sound, segment_begin, segment_end};
ghost use Rattle.walks.specs.Gaps.{Fits, Takes};

use crate::gap_rows::GapSegments;
use crate::meeting::{GapSegment, Met, Register, look, reaches_past};
use crate::places::{ahead_is, place_behind, row_ahead};
use crate::reserved::Reserved;
use links::lower::Side;
use numbers::Unit;

// Where a walk stands: at a place among the gap segments' rows, and for each unit of the register, in turn, at a place among its rows.
#[derive(Clone, Copy)]
pub struct Walk {
    pub next: usize,
    pub at: [usize; 8],
}

// What was met, and the walk behind it.
#[derive(Clone, Copy)]
pub struct Took {
    pub met: Met,
    pub walk: Walk,
}

// What was met, and where the walk stands in the unit.
#[derive(Clone, Copy)]
struct Walked {
    pub at: usize,
    pub met: Met,
}

// One unit: its rows from `at` on, up to one that reaches past the segment. That one may meet the next segment too.
#[tactic(auto, using(columns::proofs::Tables::table_length))]
fn walk_unit(side: Side, reserved: &Reserved, u: Unit, at: usize, s: GapSegment, met: Met) -> Walked
    requires { at ≤ length reserved.now.rows }
    ensures { (result.at ≤ length reserved.now.rows) ×
        (Sound reserved.now s met → StandsIn side reserved.now.rows u.0 (segment_begin side s) at →
        (result.met ≡ also_met (one_unit u.0) reserved.now s met) × StandsIn side reserved.now.rows u.0 (segment_end side s) result.at) }
{
    let reservations = reserved.reservations;
    let n = reservations.len();
    let mut i = at;
    let mut met = met;
    while ahead_is(side, reservations.unit, n, i, u.0) {
        let row = row_ahead(side, i);
        let r = reservations.held_at(row);
        met = look(reserved, r, s, met);
        if reaches_past(side, s, r) {
            break;
        }
        i = place_behind(side, i);
    }
    Walked { at: i, met }
}

impl Walk {
    // One gap segment, in all units of the register.
    fn take_segment(
        mut self,
        side: Side,
        reserved: &Reserved,
        register: Register,
        s: GapSegment,
        met: Met,
    ) -> Took
        requires { Known register × PlacesInside register (length reserved.now.rows) self }
        ensures { (result.walk.next ≡ self.next) × PlacesInside register (length reserved.now.rows) result.walk ×
            (Sound reserved.now s met → StandsInUnits side register reserved.now.rows (segment_begin side s) self →
            (result.met ≡ also_met register reserved.now s met) × StandsInUnits side register reserved.now.rows (segment_end side s) result.walk) }
    {
        let mut met = met;
        for v in 0..register.units {
            let i = v as usize;
            let w = walk_unit(
                side,
                reserved,
                Unit(register.first.0 + v),
                self.at[i],
                s,
                met,
            );
            met = w.met;
            self.at[i] = w.at;
        }
        Took { met, walk: self }
    }

    // The gap segments of one gap, from the next row on.
    pub(crate) fn take_gap(
        mut self,
        side: Side,
        segments: &GapSegments,
        reserved: &Reserved,
        register: Register,
        gap: u32,
        heaviest: f32,
    ) -> Took
        requires { Fits register reserved.now segments.now self }
        ensures { Takes side register reserved.now segments.now gap heaviest self result }
    {
        let mut met = Met {
            fixed: false,
            heaviest,
        };
        let mut i = self.next;
        while ahead_is(side, segments.gap, segments.len(), i, gap) {
            let row = row_ahead(side, i);
            let s = segments.at(row);
            let took = self.take_segment(side, reserved, register, s, met);
            met = took.met;
            self = took.walk;
            i = place_behind(side, i);
        }
        self.next = i;
        Took { met, walk: self }
    }
}
