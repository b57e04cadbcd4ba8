// longest: the longest list of evictions that the weight test leaves room for, run job by job.
//
// A member is a proposal that meets a reservation with the weight of the proposal before, and nothing else. The first member has the
// smallest weight above zero, each next one the least weight that passes the test over the one before. No list is longer: the test is
// monotone, so by induction each member of any other list weighs at least as much as the one here at the same place, and the last one
// here is passed by no weight. The law of evictions in `growth` bounds a list above zero by 9,495.
//
// Each member's job is case J's: four instructions, a use at the first and at the last one. The best use's own gap is the first
// instruction, so the use weight is the block's frequency. A fixed def on the third instruction keeps the region to that gap.
#![tactic(auto)]

ghost use Rattle.std.specs.Prelude.{◌≤◌, ◌≡◌, length};

use jobs::rows::{FixedUses, Reservations, Segments, Uses};
use numbers::normal::{normalize_spill_weight, strictly_exceeds};
use numbers::weights::{FREQUENCY_LIMIT, Limit, bits_of};
use outcome::grow::Answer;
use proposer::propose::propose_split;
use refusals::job::{Job, Parameters};
use std::io;

// The bits of 1.0.
const ONE: u32 = 1065353216;

// Where the weight met stands: from point 2 to 4 is the own gap's segment; before it nothing is met, as for the first member.
fn met_from(before: u32) -> u32
    ensures { result ≤ 2 }
{
    if before == 0 { 0 } else { 2 }
}

// What the proposer answers for the job whose own gap has a weight and meets the one before.
fn answer_of(block_weight: u32, before: u32) -> Answer {
    let from = met_from(before);
    // B: the one block; k and the first instruction are 0
    let block_freq = [block_weight];
    let first = [0u32];
    let end = [4u32];
    // V, S: one value, one segment
    let code = [0u32];
    let start = [2u32];
    let stop = [14u32];
    let value = [0u32];
    let first_use = [0u32];
    let end_use = [2u32];
    let flags = [0u32];
    // U: two uses of cost 1.0
    let position = [0u32, 3];
    let use_kind = [5u32, 4];
    let cost = [ONE, ONE];
    // W, E: the weight before on the points from a place to two behind it, and a fixed def from 8 to 12
    let met = [before];
    let unit = [0u32, 0];
    let reserved_from = [from, 8];
    let reserved_to = [from + 2, 12];
    let reserved_kind = [0u32, 1];
    let met_index = [0u32, 0];
    let fixed = [u32::MAX, 0];
    // F: no fixed use
    let unused = [0u32];
    let none = &unused[..0];
    let job = Job {
        freq: &block_freq,
        first: &first,
        end: &end,
        code: &code,
        segments: Segments {
            start: &start,
            end: &stop,
            value: &value,
            first_use: &first_use,
            end_use: &end_use,
            flags: &flags,
        },
        uses: Uses {
            position: &position,
            kind: &use_kind,
            cost: &cost,
        },
        weight: &met,
        reservations: Reservations {
            unit: &unit,
            start: &reserved_from,
            end: &reserved_to,
            kind: &reserved_kind,
            index: &met_index,
            fixed: &fixed,
        },
        fixed_uses: FixedUses {
            unit: none,
            point: none,
            value: none,
        },
        parameters: Parameters {
            k: 0,
            cheaper_than_move: ONE,
            cheaper_than_load: ONE,
            indirect: ONE,
            units: 1,
        },
    };
    let mut prev = [0u32; 1];
    let mut next = [0u32; 1];
    let mut inst = [0u32; 4];
    let mut weight = [0f32; 4];
    let mut left = [0f32; 4];
    let mut right = [0f32; 4];
    let mut gap_from = [0u32; 5];
    let mut gap_to = [0u32; 5];
    let mut gap_weight = [0f32; 5];
    let mut live = [0u32; 5];
    let mut freq = [0f32; 5];
    let mut gap_block = [0u32; 5];
    let mut segment_from = [0u32; 6];
    let mut segment_to = [0u32; 6];
    let mut segment_value = [0u32; 6];
    let mut segment_gap = [0u32; 6];
    let proposed = propose_split(
        &job,
        &mut prev,
        &mut next,
        &mut inst,
        &mut weight,
        &mut left,
        &mut right,
        &mut gap_from,
        &mut gap_to,
        &mut gap_weight,
        &mut live,
        &mut freq,
        &mut gap_block,
        &mut segment_from,
        &mut segment_to,
        &mut segment_value,
        &mut segment_gap,
    );
    proposed.answer
}

// Whether a proposal is answered whose normalised weight is the one given and whose interference weight is the one before.
fn is_member(answer: Answer, weight: u32, before: u32) -> bool {
    let Answer::Found(p) = answer else {
        return false;
    };
    p.live_insts == 1
        && bits_of(p.interference_weight) == before
        && bits_of(p.use_weight) == weight
        && bits_of(normalize_spill_weight(p.use_weight, p.live_insts, 0)) == weight
}

// The least bits whose weight passes the test over another weight, by halves; one above the highest where none passes.
fn least_above(before: f32) -> u32
    ensures { result ≤ 2139095040 }
{
    let mut low: u32 = 0;
    let mut high: u32 = FREQUENCY_LIMIT + 1;
    while low < high {
        let middle = low + (high - low) / 2;
        if strictly_exceeds(Limit::Weight.value_of(middle), before) {
            high = middle;
        } else {
            low = middle + 1;
        }
    }
    low
}

// A list of evictions as far as it goes: how many members, and the bits of the last one's weight.
#[derive(Clone, Copy)]
struct Evictions {
    members: u32,
    last: u32,
}

// Runs members, each by the least weight over the one before, until none is left; the list so far is the error where one is answered
// otherwise.
fn run() -> Result<Evictions, Evictions> {
    let mut last = 0;
    for members in 0..10000 {
        let weight = least_above(Limit::Weight.value_of(last));
        if weight > FREQUENCY_LIMIT {
            return Ok(Evictions { members, last });
        }
        if !is_member(answer_of(weight, last), weight, last) {
            return Err(Evictions { members, last });
        }
        last = weight;
    }
    Ok(Evictions {
        members: 10000,
        last,
    })
}

fn main(rt: HostRuntime) -> io::Result<()> {
    let (list, end) = match run() {
        Ok(list) => (list, "each meets the weight of the one before"),
        Err(list) => (list, "and then another answer"),
    };
    println!(rt; "{} proposals, {end}", list.members)?;
    println!(rt; "first {}", least_above(0.0))?;
    println!(rt; "last {}", list.last)?;
    if strictly_exceeds(
        Limit::Weight.value_of(FREQUENCY_LIMIT),
        Limit::Weight.value_of(list.last),
    ) {
        println!(rt; "a weight passes over the last")
    } else {
        println!(rt; "no weight passes over the last")
    }
}
