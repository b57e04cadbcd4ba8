// The call that proposes, for programs in C and in Rust.
ghost use Rattle.refusals.specs.Job.{job_of, job_columns};
ghost use Rattle.filling.specs.SourceTables.{work_columns};
ghost use Rattle.words.specs.Words.{IsExported};

use jobs::rows::{FixedUses, Reservations, Segments, Uses};
use proposer::propose::propose_split;
use refusals::job::{Job, Parameters};
use words::words::proposed_words;

// The answer to a job, and its tables in the lent columns, one parameter a column as C has them; those that are written come first:
// `propose_split`, with its answer in ten words.
#[unsafe(no_mangle)]
pub extern "C" fn gelduvra_propose_split_v3_else_run_rt_staticlib_exports<'a>(
    prev_lower_freq: &mut [u32],
    next_lower_freq: &mut [u32],
    inst: &mut [u32],
    weight: &mut [f32],
    left_weight: &mut [f32],
    right_weight: &mut [f32],
    gap_from: &mut [u32],
    gap_to: &mut [u32],
    gap_weight: &mut [f32],
    live: &mut [u32],
    min_freq: &mut [f32],
    gap_block: &mut [u32],
    segment_from: &mut [u32],
    segment_to: &mut [u32],
    segment_value: &mut [u32],
    segment_gap: &mut [u32],
    freq: &'a [u32],
    first: &'a [u32],
    end: &'a [u32],
    code: &'a [u32],
    s_start: &'a [u32],
    s_end: &'a [u32],
    s_value: &'a [u32],
    s_first_use: &'a [u32],
    s_end_use: &'a [u32],
    s_flags: &'a [u32],
    position: &'a [u32],
    u_kind: &'a [u32],
    cost: &'a [u32],
    spill_weight: &'a [u32],
    r_unit: &'a [u32],
    r_start: &'a [u32],
    r_end: &'a [u32],
    r_kind: &'a [u32],
    r_index: &'a [u32],
    r_fixed: &'a [u32],
    f_unit: &'a [u32],
    f_point: &'a [u32],
    f_value: &'a [u32],
    k: u32,
    cheaper_than_move: u32,
    cheaper_than_load: u32,
    indirect: u32,
    units: u32,
    answer: &mut [u64; 10],
)
    ensures { let job = job_of
        (record {
          k = k;
          cheaper_than_move = cheaper_than_move;
          cheaper_than_load = cheaper_than_load;
          indirect = indirect;
          units = units;
        })
        (job_columns freq.now first.now end.now code.now
        s_start.now s_end.now s_value.now
        s_first_use.now s_end_use.now s_flags.now
        position.now u_kind.now cost.now spill_weight.now
        r_unit.now r_start.now r_end.now
        r_kind.now r_index.now r_fixed.now
        f_unit.now f_point.now f_value.now) in
        let lent = work_columns
        prev_lower_freq.old next_lower_freq.old
        inst.old weight.old left_weight.old right_weight.old
        gap_from.old gap_to.old gap_weight.old live.old min_freq.old gap_block.old
        segment_from.old segment_to.old segment_value.old segment_gap.old in
        let after = work_columns
        prev_lower_freq.new next_lower_freq.new
        inst.new weight.new left_weight.new right_weight.new
        gap_from.new gap_to.new gap_weight.new live.new min_freq.new gap_block.new
        segment_from.new segment_to.new segment_value.new segment_gap.new in
        IsExported job lent after answer.new }
{
    let job = Job {
        freq,
        first,
        end,
        code,
        segments: Segments {
            start: s_start,
            end: s_end,
            value: s_value,
            first_use: s_first_use,
            end_use: s_end_use,
            flags: s_flags,
        },
        uses: Uses {
            position,
            kind: u_kind,
            cost,
        },
        weight: spill_weight,
        reservations: Reservations {
            unit: r_unit,
            start: r_start,
            end: r_end,
            kind: r_kind,
            index: r_index,
            fixed: r_fixed,
        },
        fixed_uses: FixedUses {
            unit: f_unit,
            point: f_point,
            value: f_value,
        },
        parameters: Parameters {
            k,
            cheaper_than_move,
            cheaper_than_load,
            indirect,
            units,
        },
    };
    let proposed = propose_split(
        &job,
        prev_lower_freq,
        next_lower_freq,
        inst,
        weight,
        left_weight,
        right_weight,
        gap_from,
        gap_to,
        gap_weight,
        live,
        min_freq,
        gap_block,
        segment_from,
        segment_to,
        segment_value,
        segment_gap,
    );
    *answer = proposed_words(proposed);
}
