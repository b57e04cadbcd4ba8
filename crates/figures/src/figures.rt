// What a job is answered, in the figures of its text.
ghost use Rattle.std.specs.Prelude.{◌≡◌};
ghost use Rattle.std.specs.Float.{binary32};
ghost use Rattle.std.specs.Float.Ieee.{to_bits};
ghost use Rattle.outcome.specs.declared.grow.Answer.TheVariants.{Found};
ghost use Rattle.sheet.specs.declared.write.Answer.TheVariants.{Proposal};
ghost use Rattle.figures.specs.Figures.{end_shown, thousandths, shown_of};

use growth::proposal::SplitProposal;
use numbers::Inst;
use numbers::normal::{h_figure, normalize_spill_weight};
use numbers::weights::bits_of;
use outcome::grow::Answer;
use sheet::Figures;

// An end of a proposal.
fn end_shown(e: Option<Inst>) -> Option<u32>
    ensures { result ≡ end_shown e }
{
    let Some(i) = e else {
        return None;
    };
    Some(i.0)
}

// The H figure of a use weight over so many instructions.
fn thousandths_of(use_weight: f32, live_insts: u32, k: u32) -> u32
    ensures { result ≡ thousandths (to_bits binary32 use_weight) live_insts k }
{
    h_figure(normalize_spill_weight(use_weight, live_insts, k))
}

// A proposal, and its normalised use weight in thousandths.
fn figures_of(p: SplitProposal, k: u32) -> Figures
    ensures { Proposal result ≡ shown_of k (Found p) }
{
    let left = p.left;
    let right = p.right;
    Figures {
        left: end_shown(left),
        right: end_shown(right),
        use_weight: bits_of(p.use_weight),
        live_insts: p.live_insts,
        interference_weight: bits_of(p.interference_weight),
        split_cost: bits_of(p.split_cost),
        thousandths: thousandths_of(p.use_weight, p.live_insts, k),
    }
}

// What a job is answered, as its text has it.
pub fn shown_of(a: Answer, k: u32) -> sheet::Answer
    ensures { result ≡ shown_of k a }
{
    match a {
        Answer::Refused(r) => sheet::Answer::Refused(r.number, r.place),
        Answer::NoBestUse => sheet::Answer::NoneOf(1),
        Answer::NoRegion => sheet::Answer::NoneOf(2),
        Answer::Found(p) => sheet::Answer::Proposal(figures_of(p, k)),
    }
}
