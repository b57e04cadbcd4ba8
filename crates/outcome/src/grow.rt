// What a job is answered, where its tables are filled: growth over shared columns.
ghost use Rattle.std.specs.Prelude.{◌≡◌};
ghost use Rattle.outcome.specs.Outcome.{of_region};
ghost use Rattle.outcome.specs.Growing.{growth_columns, GrowableIf, grown_from};

use growth::proposal::SplitProposal;
use links::blocks::Refusal;
use region::find::find_in_tables;
use region::rows::GapRows;
use walks::gap_rows::GapSegments;
use walks::meeting::Register;
use walks::reserved::Reserved;
use work::fill::FilledTables;

// What a job is answered: refused by document 01's table, none for want of a best use or of a region, or a proposal. No `Result`: the exactness
// theorems speak of these four cases (`numbered`).
#[derive(Clone, Copy)]
pub enum Answer {
    Refused(Refusal),
    NoBestUse,
    NoRegion,
    Found(SplitProposal),
}

// The answer, and how many rows of the use table, of the gaps and of the gap segments are used.
#[derive(Clone, Copy)]
pub struct Proposed {
    pub answer: Answer,
    pub uses: usize,
    pub gaps: usize,
    pub gap_segments: usize,
}

// A region found is a proposal.
fn answer_of(region: Option<SplitProposal>) -> Answer
    ensures { result ≡ of_region region }
{
    let Some(p) = region else {
        return Answer::NoRegion;
    };
    Answer::Found(p)
}

// Where tables are ready, grows a region in them.
pub fn grow_filled(
    gaps: &GapRows,
    segments: &GapSegments,
    reserved: &Reserved,
    register: Register,
    k: u32,
    filled: FilledTables,
) -> Proposed
    requires { let columns = growth_columns
        gaps.now.froms gaps.now.weights gaps.now.lives gaps.now.freqs
        segments.now.from segments.now.to segments.now.value segments.now.gap in
        GrowableIf register reserved.now k columns filled }
    ensures { let columns = growth_columns
        gaps.now.froms gaps.now.weights gaps.now.lives gaps.now.freqs
        segments.now.from segments.now.to segments.now.value segments.now.gap in
        result ≡ grown_from register reserved.now k columns filled }
{
    match filled {
        FilledTables::Refused(r) => Proposed {
            answer: Answer::Refused(r),
            uses: 0,
            gaps: 0,
            gap_segments: 0,
        },
        FilledTables::NoBestUse(uses) => Proposed {
            answer: Answer::NoBestUse,
            uses,
            gaps: 0,
            gap_segments: 0,
        },
        FilledTables::Ready(t) => {
            let region = find_in_tables(
                gaps,
                t.gaps,
                t.own,
                segments,
                t.gap_segments,
                reserved,
                register,
                k,
            );
            Proposed {
                answer: answer_of(region),
                uses: t.uses,
                gaps: t.gaps,
                gap_segments: t.gap_segments,
            }
        }
    }
}
