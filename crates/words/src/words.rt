// Answers as words.
ghost use Rattle.std.specs.Prelude.{◌≡◌};
ghost use Rattle.std.specs.Float.{binary32};
ghost use Rattle.std.specs.Float.Ieee.{to_bits};
ghost use Rattle.outcome.specs.declared.grow.Answer.TheVariants.{Found};
ghost use Rattle.words.specs.Words.{end_word, answer_words, proposed_words, split_point_words, normalised_bits};

use growth::proposal::SplitProposal;
use links::blocks::Refusal;
use numbers::Inst;
use numbers::normal::normalize_spill_weight;
use numbers::weights::{Limit, bits_of};
use outcome::grow::{Answer, Proposed};

// What stands for an absent end.
const ABSENT: u64 = 4294967295;

// An end of a proposal.
fn end_word(e: Option<Inst>) -> u64
    ensures { result ≡ end_word e }
{
    let Some(i) = e else {
        return ABSENT;
    };
    i.0 as u64
}

// A weight's bits.
fn weight_word(w: f32) -> u64
    ensures { result ≡ to_bits binary32 w }
{
    bits_of(w) as u64
}

// A proposal's six fields, behind the number of its kind.
fn proposal_words(p: SplitProposal) -> [u64; 7]
    ensures { result ≡ answer_words (Found p) }
{
    let left = p.left;
    let right = p.right;
    [
        0,
        end_word(left),
        end_word(right),
        weight_word(p.use_weight),
        p.live_insts as u64,
        weight_word(p.interference_weight),
        weight_word(p.split_cost),
    ]
}

// An answer: its kind, and six words more.
fn answer_words(a: Answer) -> [u64; 7]
    ensures { result ≡ answer_words a }
{
    match a {
        Answer::Found(p) => proposal_words(p),
        Answer::NoBestUse => [1, 0, 0, 0, 0, 0, 0],
        Answer::NoRegion => [2, 0, 0, 0, 0, 0, 0],
        Answer::Refused(r) => [3, r.number as u64, r.place as u64, 0, 0, 0, 0],
    }
}

// What a job is answered: the answer, and the rows used of the use table, of the gaps and of the gap segments.
pub fn proposed_words(proposed: Proposed) -> [u64; 10]
    ensures { result ≡ proposed_words proposed }
{
    let a = proposed.answer;
    let w = answer_words(a);
    [
        w[0],
        w[1],
        w[2],
        w[3],
        w[4],
        w[5],
        w[6],
        proposed.uses as u64,
        proposed.gaps as u64,
        proposed.gap_segments as u64,
    ]
}

// A split point or a refusal.
pub fn split_point_words(point: Result<Inst, Refusal>) -> [u64; 3]
    ensures { result ≡ split_point_words point }
{
    match point {
        Ok(i) => [0, i.0 as u64, 0],
        Err(r) => [1, r.number as u64, r.place as u64],
    }
}

// A normalised weight's bits, from those of the use weight. Of a proposal's words they are what whoever evicts enters for it.
pub fn normalised_bits(use_weight: u32, live_insts: u32, k: u32) -> u32
    ensures { result ≡ normalised_bits use_weight live_insts k }
{
    bits_of(normalize_spill_weight(Limit::Weight.value_of(use_weight), live_insts, k))
}
