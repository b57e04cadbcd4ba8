// The call for a split point, for programs in C and in Rust.
ghost use Rattle.std.specs.Prelude.{◌≡◌};
ghost use Rattle.links.specs.Blocks.{blocks_of};
ghost use Rattle.links.specs.Split.{split_answer};
ghost use Rattle.words.specs.Words.{split_point_words};

use links::split::find_optimal_split_point;
use numbers::Inst;
use words::words::split_point_words;

// The lower-cost split point, or its refusal: `find_optimal_split_point`, with its answer in three words.
#[unsafe(no_mangle)]
pub extern "C" fn gelduvra_find_optimal_split_point_v3_else_run_rt_staticlib_exports(
    freq: &[u32],
    first: &[u32],
    end: &[u32],
    after: u32,
    before: u32,
    prefer_early: bool,
    answer: &mut [u64; 3],
)
    ensures { let blocks = blocks_of freq.now first.now end.now in
        answer.new ≡ split_point_words (split_answer blocks after before prefer_early) }
{
    let point = find_optimal_split_point(freq, first, end, Inst(after), Inst(before), prefer_early);
    *answer = split_point_words(point);
}
