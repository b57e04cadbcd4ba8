// Line 12: the rows of the work tables that are lent with a job.
ghost use Rattle.std.specs.Prelude.{◌≡◌, [], ◌∷◌};
ghost use Rattle.columns.specs.First.{first_below};
ghost use Rattle.refusals.specs.Refusals.{first_broken};
ghost use Rattle.rooms.specs.Rooms.{too_short, line12, FewItems};

use filling::lent::Rooms;
use links::blocks::Refusal;
use refusals::job::Sizes;
use refusals::lines::verdict;

// Line 12: the first work table that is too short, of uses, gaps, gap segments and links; else their number, as in the checks of `jobs`.
#[tactic(auto, unfolding(columns::specs::First::first_below))]
fn first_short(t: Sizes, r: Rooms) -> usize
    requires { FewItems t }
    ensures { result ≡ first_below (too_short t r) 4 }
{
    if r.uses < t.uses + 2 {
        return 0;
    }
    if r.gaps < t.uses + t.blocks + 2 {
        return 1;
    }
    if r.gap_segments < t.uses + t.blocks + t.segments + 2 {
        return 2;
    }
    if r.links < t.blocks {
        return 3;
    }
    4
}

// Line 12.
#[tactic(auto, unfolding(refusals::specs::Refusals::first_broken))]
pub(crate) fn check_rooms(t: Sizes, r: Rooms) -> Result<(), Refusal>
    requires { FewItems t }
    ensures { result ≡ first_broken (line12 t r ∷ []) }
{
    let bad = first_short(t, r);
    verdict(12, bad, 4)
}
