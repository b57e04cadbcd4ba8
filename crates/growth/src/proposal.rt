// The proposal that a region is.
ghost use Rattle.std.specs.Prelude.{◌≡◌, ◌≤◌, length};
ghost use Rattle.growth.specs.Proposal.{end_of, freq_outside, split_cost, proposal_with};
ghost use Rattle.growth.specs.Columns.{number_at, float_at, span_of, InsideGaps};

use crate::step::{Grown, gap_outside};
use links::lower::Side;
use numbers::Inst;

// A proposal: where the region begins and ends, its use weight and live instructions, the heaviest weight met, and what the
// two cuts cost.
#[derive(Clone, Copy)]
pub struct SplitProposal {
    pub left: Option<Inst>,
    pub right: Option<Inst>,
    pub use_weight: f32,
    pub live_insts: u32,
    pub interference_weight: f32,
    pub split_cost: f32,
}

// Where the region begins or ends, absent at the table's start or end.
#[tactic(auto, unfolding(crate::specs::Proposal::end_of))]
fn end_of(side: Side, from: &[u32], gaps: usize, g: Grown) -> Option<Inst>
    requires inside_gaps { InsideGaps gaps g }
    requires from_long { gaps ≤ length from.now }
    ensures { result ≡ end_of side gaps (number_at from.now) (span_of g) }
{
    if g.used_up(side, gaps) {
        return None;
    }
    let end = match side {
        Side::Previous => g.left,
        Side::Next => g.right,
    };
    Some(Inst(from[end]))
}

// The frequency of the gap just outside the region, zero where there is none.
fn freq_outside(side: Side, freq: &[f32], gaps: usize, g: Grown) -> f32
    requires inside_gaps { InsideGaps gaps g }
    requires freq_long { gaps ≤ length freq.now }
    ensures { result ≡ freq_outside side gaps (float_at freq.now) (span_of g) }
{
    if g.used_up(side, gaps) {
        return 0.0;
    }
    freq[gap_outside(side, g)]
}

// The split cost, estimated by the frequencies just before and after the region.
#[tactic(auto, unfolding(crate::specs::Proposal::split_cost))]
fn split_cost(freq: &[f32], gaps: usize, g: Grown) -> f32
    requires inside_gaps { InsideGaps gaps g }
    requires freq_long { gaps ≤ length freq.now }
    ensures { result ≡ split_cost gaps (float_at freq.now) (span_of g) }
{
    freq_outside(Side::Previous, freq, gaps, g) + freq_outside(Side::Next, freq, gaps, g)
}

// The proposal that a region is.
#[tactic(auto, unfolding(crate::specs::Proposal::proposal_with))]
pub fn proposal_of(from: &[u32], freq: &[f32], gaps: usize, g: Grown) -> SplitProposal
    requires inside_gaps { InsideGaps gaps g }
    requires from_long { gaps ≤ length from.now }
    requires freq_long { gaps ≤ length freq.now }
    ensures { result ≡ proposal_with gaps (number_at from.now) (float_at freq.now) (span_of g) g.heaviest }
{
    let left = end_of(Side::Previous, from, gaps, g);
    let right = end_of(Side::Next, from, gaps, g);
    let split_cost = split_cost(freq, gaps, g);
    SplitProposal {
        left,
        right,
        use_weight: g.weight,
        live_insts: g.insts,
        interference_weight: g.heaviest,
        split_cost,
    }
}
