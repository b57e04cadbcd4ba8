// The call for a normalised weight, for programs in C and in Rust.
ghost use Rattle.std.specs.Prelude.{◌≡◌};
ghost use Rattle.words.specs.Words.{normalised_bits};

use words::words::normalised_bits;

// What whoever evicts enters for a proposal: its use weight over its live instructions and the job's k, at most the largest finite f32.
// The use weight and the answer are bits.
#[unsafe(no_mangle)]
pub extern "C" fn gelduvra_normalised_weight_v3_else_run_rt_staticlib_exports(
    use_weight: u32,
    live_insts: u32,
    k: u32,
) -> u32
    ensures { result ≡ normalised_bits use_weight live_insts k }
{
    normalised_bits(use_weight, live_insts, k)
}
