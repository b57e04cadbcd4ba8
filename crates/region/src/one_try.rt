// One try of growth: the gap segments of the gap on a side, walked, and the region with that gap, tried.
ghost use Rattle.std.specs.Prelude.{◌≡◌, ◌<◌, length};
ghost use Rattle.walks.specs.Gaps.{FitsBoth};
ghost use Rattle.region.specs.OneTry.{insts_at, Triable, Attempts};

use crate::rows::GapRows;
use growth::step::{Growth, Tried, gap_outside, try_gap};
use links::lower::Side;
use walks::both::Walkers;
use walks::gap_rows::GapSegments;
use walks::meeting::Register;
use walks::reserved::Reserved;

// A try, and the walkers behind the gap that was tried.
#[derive(Clone, Copy)]
pub(crate) struct Attempt {
    pub tried: Tried,
    pub walkers: Walkers,
}

// The instructions that a gap adds to a region: its live ones, and 1 for the best use's own gap.
fn insts_of(live: &[u32], own: usize, gap: usize) -> u32
    requires { gap < length live.now }
    ensures { result ≡ insts_at live.now own gap }
{
    if gap == own {
        return 1;
    }
    live[gap]
}

// A try on a side: the walker there takes the gap's segments, and the region with the gap is tried.
pub(crate) fn try_side(
    side: Side,
    gaps: &GapRows,
    own: usize,
    segments: &GapSegments,
    reserved: &Reserved,
    register: Register,
    k: u32,
    growth: Growth,
    walkers: Walkers,
) -> Attempt
    requires triable { Triable side gaps.now.weights gaps.now.lives growth }
    requires fits_both { FitsBoth register reserved.now segments.now walkers }
    ensures { Attempts side gaps.now.weights gaps.now.lives own segments.now reserved.now register k growth walkers result }
{
    let g = growth.region;
    let weight = gaps.weight;
    let gap = gap_outside(side, g);
    let took = walkers.take_gap(side, segments, reserved, register, gap as u32, g.heaviest);
    let met = took.met;
    let insts = insts_of(gaps.live, own, gap);
    let tried = try_gap(side, gap, g, weight[gap], insts, met.fixed, met.heaviest, k);
    let walkers = took.walkers;
    Attempt { tried, walkers }
}
