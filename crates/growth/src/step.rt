// The steps of growth: which side is tried, and whether a gap passes.
ghost use Rattle.std.specs.Prelude.{◌≡◌, ◌≤◌, ◌<◌, length};
ghost use Rattle.links.specs.Links.{on_side};
ghost use Rattle.growth.specs.Growth.{gap_outside, prefers_left, side_open, side_tried, used_up};
ghost use Rattle.growth.specs.Columns.{number_at, float_at, span_of, state_of, InsideGaps, HasNeighbours, CountFits};
ghost use Rattle.growth.specs.Columns.{turn_of, grown_with, came_with, tried_with, no_growth, barred_on, after_tried};

use links::lower::Side;
use std::cmp::Ordering;

// A region: the gaps from left to before right, their use weight and live instructions, and the heaviest weight met.
#[derive(Clone, Copy)]
pub struct Grown {
    pub left: usize,
    pub right: usize,
    pub weight: f32,
    pub insts: u32,
    pub heaviest: f32,
}

impl Grown {
    // Whether no gap is left on a side.
    pub(crate) fn used_up(self, side: Side, gaps: usize) -> bool
        ensures { result ≡ used_up side gaps (span_of self) }
    {
        match side {
            Side::Previous => self.left == 0,
            Side::Next => self.right >= gaps,
        }
    }

    // The region with one more gap on a side, of this weight and so many instructions, and the heaviest weight that it then meets. Live
    // instructions together are at most the largest 32-bit number.
    fn with_gap(self, side: Side, gap: usize, weight: f32, insts: u32, heaviest: f32) -> Self
        requires { gap < 4294967295 }
        ensures { CountFits self insts → result ≡ grown_with side gap self weight insts heaviest }
    {
        let wider = match side {
            Side::Previous => Grown { left: gap, ..self },
            Side::Next => Grown {
                right: gap + 1,
                ..self
            },
        };
        Grown {
            weight: self.weight + weight,
            insts: self.insts.saturating_add(insts),
            heaviest,
            ..wider
        }
    }
}

// What came of a try: the region grew, or the gap meets something fixed, or the region with it can't evict the heaviest weight that it meets.
#[derive(Clone, Copy)]
pub enum Came {
    Grown,
    Fixed,
    Weight,
}

// A try: the gap beside a region, the region with it and its normalised weight, and what came of it. What the region with the gap meets is
// exact in every case.
#[derive(Clone, Copy)]
pub struct Tried {
    pub side: Side,
    pub gap: usize,
    pub region: Grown,
    pub normalised: f32,
    pub came: Came,
}

// Growth so far: the region, and whether its sides are barred. A side that failed is barred for good.
#[derive(Clone, Copy)]
pub struct Growth {
    pub region: Grown,
    pub left_barred: bool,
    pub right_barred: bool,
}

// With both sides open, whether the left one is tried: the one of higher frequency. On equal ones it is the gap with more
// instructions, and left if both have as many.
#[tactic(auto, unfolding(crate::specs::Growth::left_first))]
fn prefers_left(freq: &[f32], live: &[u32], gaps: usize, g: Grown) -> bool
    requires has_neighbours { HasNeighbours gaps g }
    requires freq_long { gaps ≤ length freq.now }
    requires live_long { gaps ≤ length live.now }
    ensures { result ≡ prefers_left (float_at freq.now) (number_at live.now) (span_of g) }
{
    let left = g.left - 1;
    let right = g.right;
    match freq[left].partial_cmp(&freq[right]) {
        Some(Ordering::Greater) => true,
        Some(Ordering::Less) => false,
        _ => live[right] <= live[left],
    }
}

// The side that is tried next, or none where growth ends.
#[tactic(auto, unfolding(crate::specs::Growth::side_tried, crate::specs::Growth::side_open))]
fn grow_next(freq: &[f32], live: &[u32], gaps: usize, growth: Growth) -> Option<Side>
    requires inside_gaps { InsideGaps gaps growth.region }
    requires freq_long { gaps ≤ length freq.now }
    requires live_long { gaps ≤ length live.now }
    ensures { result ≡ side_tried gaps (float_at freq.now) (number_at live.now) (state_of growth) }
{
    let left = growth.is_open(Side::Previous, gaps);
    let right = growth.is_open(Side::Next, gaps);
    if left && (!right || prefers_left(freq, live, gaps, growth.region)) {
        return Some(Side::Previous);
    }
    if right {
        return Some(Side::Next);
    }
    None
}

// Whether growth goes on, from a region that may have no gap: its own gap has failed then, and nothing is tried any more.
#[tactic(auto, unfolding(crate::specs::Columns::turn_of))]
pub fn next_turn(freq: &[f32], live: &[u32], gaps: usize, growth: Growth) -> Option<Side>
    requires inside_gaps { growth.region.left < growth.region.right → InsideGaps gaps growth.region }
    requires freq_long { gaps ≤ length freq.now }
    requires live_long { gaps ≤ length live.now }
    ensures { result ≡ turn_of gaps (float_at freq.now) (number_at live.now) growth }
{
    let g = growth.region;
    if g.left < g.right {
        return grow_next(freq, live, gaps, growth);
    }
    None
}

// The gap just outside a region.
pub fn gap_outside(side: Side, g: Grown) -> usize
    requires { on_side side 1 0 ≤ g.left }
    ensures { result ≡ gap_outside side (span_of g) }
{
    match side {
        Side::Previous => g.left - 1,
        Side::Next => g.right,
    }
}

// What comes of a try: the gap must be free of fixed interference, and the region must be able to evict the heaviest weight that it then meets.
#[tactic(auto, unfolding(crate::specs::Columns::came_with))]
fn came_of(fixed: bool, normalised: f32, heaviest: f32) -> Came
    ensures { result ≡ came_with fixed normalised heaviest }
{
    if fixed {
        return Came::Fixed;
    }
    if numbers::normal::strictly_exceeds(normalised, heaviest) {
        return Came::Grown;
    }
    Came::Weight
}

// One more gap on a side of a region, tried: the gap's weight and instructions, whether it meets something fixed, and the heaviest weight that
// the region with it meets.
pub fn try_gap(
    side: Side,
    gap: usize,
    g: Grown,
    weight: f32,
    insts: u32,
    fixed: bool,
    heaviest: f32,
    k: u32,
) -> Tried
    requires { gap < 4294967295 }
    ensures { CountFits g insts → result ≡ tried_with side gap g weight insts fixed heaviest k }
{
    let region = g.with_gap(side, gap, weight, insts, heaviest);
    let normalised = numbers::normal::normalize_spill_weight(region.weight, region.insts, k);
    let came = came_of(fixed, normalised, heaviest);
    Tried {
        side,
        gap,
        region,
        normalised,
        came,
    }
}

impl Growth {
    // Growth from a region of no gap, which the own gap lies right of.
    pub fn new(own: usize) -> Self
        ensures { result ≡ no_growth own }
    {
        let region = Grown {
            left: own,
            right: own,
            weight: 0.0,
            insts: 0,
            heaviest: 0.0,
        };
        Growth {
            region,
            left_barred: false,
            right_barred: false,
        }
    }

    // Whether a side is open: neither barred nor used up.
    #[tactic(auto, unfolding(crate::specs::Growth::side_open))]
    fn is_open(self, side: Side, gaps: usize) -> bool
        ensures { result ≡ side_open side gaps (state_of self) }
    {
        let barred = match side {
            Side::Previous => self.left_barred,
            Side::Next => self.right_barred,
        };
        !barred && !self.region.used_up(side, gaps)
    }

    // Growth with a side barred.
    fn barred(self, side: Side) -> Self
        ensures { result ≡ barred_on side self }
    {
        match side {
            Side::Previous => Growth {
                left_barred: true,
                ..self
            },
            Side::Next => Growth {
                right_barred: true,
                ..self
            },
        }
    }

    // Growth after a try: the region with the gap, or the side barred.
    pub fn after(self, t: Tried) -> Self
        ensures { result ≡ after_tried t self }
    {
        match t.came {
            Came::Grown => Growth {
                region: t.region,
                ..self
            },
            Came::Fixed | Came::Weight => self.barred(t.side),
        }
    }
}
