// The region around the best use's gap, grown try by try.
ghost use Rattle.std.specs.Prelude.{◌≡◌};
ghost use Rattle.walks.specs.Standing.{Known};
ghost use Rattle.walks.specs.Gaps.{first_segments, Walkable};
ghost use Rattle.growth.specs.Proposal.{region_of};
ghost use Rattle.region.specs.Find.{first_gaps, seen_of, InRows, Walking, RowsInside, Begun, Answers, point_at};

use crate::one_try::try_side;
use crate::rows::GapRows;
use columns::search::first_at_least;
use growth::proposal::{SplitProposal, proposal_of};
use growth::step::{Grown, Growth, next_turn};
use links::lower::Side;
use numbers::Point;
use walks::both::Walkers;
use walks::gap_rows::GapSegments;
use walks::meeting::Register;
use walks::reserved::Reserved;

// Grows from a region of no gap, with the own gap as the first that is tried, until no side is open: the region with which growth ends, and
// the heaviest weight that it meets. It has no gap if the own gap fails.
fn grow(
    gaps: &GapRows,
    initial: usize,
    segments: &GapSegments,
    reserved: &Reserved,
    register: Register,
    k: u32,
    walkers: Walkers,
) -> Grown
    requires ready { InRows register reserved.now segments.now gaps.now initial k }
    requires begun { Begun register reserved.now segments.now initial walkers }
    ensures { Answers (seen_of register reserved.now segments.now gaps.now initial k) result }
{
    let count = gaps.len();
    let mut growth = Growth::new(initial);
    let mut walkers = walkers;
    let mut side = Side::Next;
    let region = 'grow: loop {
        let t = try_side(
            side, gaps, initial, segments, reserved, register, k, growth, walkers,
        );
        walkers = t.walkers;
        growth = growth.after(t.tried);
        let Some(next) = next_turn(gaps.min_freq, gaps.live, count, growth) else {
            break 'grow growth.region;
        };
        side = next;
    };
    region
}

// Where a row's gap segment begins, and past the last one the last point.
#[tactic(auto, unfolding(crate::specs::Find::point_at))]
fn point_at(segment_from: &[u32], next: usize) -> Point
    ensures { result.0 ≡ point_at segment_from.now next }
{
    Point(segment_from.get(next).copied().unwrap_or(u32::MAX))
}

// The proposal of the region with which growth from the best use's gap ends, or nothing where that gap fails.
fn find_split_region(
    gaps: &GapRows,
    initial: usize,
    segments: &GapSegments,
    reserved: &Reserved,
    register: Register,
    k: u32,
) -> Option<SplitProposal>
    requires ready { InRows register reserved.now segments.now gaps.now initial k }
    requires walking { Walking register reserved.now segments.now }
    ensures { result ≡ region_of (seen_of register reserved.now segments.now gaps.now initial k) }
{
    let next = first_at_least(segments.gap, 0, segments.len(), initial as u32);
    let point = point_at(segments.from, next);
    let walkers = Walkers::new(reserved.reservations, register, next, point);
    let g = grow(gaps, initial, segments, reserved, register, k, walkers);
    if g.left < g.right {
        return Some(proposal_of(gaps.from, gaps.min_freq, gaps.len(), g));
    }
    None
}

// The same for work tables of which only the first rows count: so many gaps, so many gap segments.
pub fn find_in_tables(
    gaps: &GapRows,
    gap_count: usize,
    initial: usize,
    segments: &GapSegments,
    segment_count: usize,
    reserved: &Reserved,
    register: Register,
    k: u32,
) -> Option<SplitProposal>
    requires rows_inside { RowsInside
        gap_count gaps.now.froms gaps.now.weights gaps.now.lives gaps.now.freqs
        segment_count segments.now.from segments.now.to segments.now.value segments.now.gap }
    requires ready { let gap_segments = first_segments segment_count segments.now in
        Known register × Walkable reserved.now gap_segments × InRows register reserved.now gap_segments (first_gaps gap_count gaps.now) initial k }
    ensures { result ≡ region_of (seen_of register reserved.now (first_segments segment_count segments.now) (first_gaps gap_count gaps.now) initial k) }
{
    let gaps = gaps.first(gap_count);
    let segments = segments.first(segment_count);
    find_split_region(&gaps, initial, &segments, reserved, register, k)
}
