// The normalised weight, the weight test and the H figure.
ghost use Rattle.std.specs.Prelude.{◌≡◌, pos};
ghost use Prim.Native.Nat.{◌+◌, ◌^◌, ◌<◌, compare};
ghost use Rattle.std.specs.Float.{binary32};
ghost use Rattle.std.specs.Float.Ieee.{of_int, nearest};
ghost use Rattle.numbers.specs.Weight.{weight_limit, value_of};
ghost use Rattle.numbers.specs.Normal.{normalised, exceeds};
ghost use Rattle.numbers.specs.Figure.{figure_of, figure};

use crate::weights;

// The weight test's factor. It leaves room for the rounding of weights that are added again in another order.
const FLOAT_PRECISION_ADJUST: f32 = 2007.0 / 2048.0;

// The sign's bit.
const SIGN: u32 = 2147483648;

// The largest finite f32.
const LARGEST: f32 = f32::MAX;

// The least H figure of a weight above zero.
const LEAST: u32 = 1;

// The H figure's ceiling.
const CEILING: u32 = 999999999;

// The whole number a + b as a float, rounded once. A cast is exact up to 2 to the power 24; above that the number goes in two
// parts that are floats exactly, so that their sum is the one rounding.
fn sum_as_f32(a: u32, b: u32) -> f32
    ensures { result ≡ of_int binary32 (pos (a + b)) }
{
    let n = (a as u64) + (b as u64);
    if n <= 16777216 {
        return n as f32;
    }
    let high = (n / 65536) as f32;
    let low = (n % 65536) as f32;
    high * 65536.0 + low
}

// The weight of all uses over the live instructions and the adjustment k, at most the largest finite f32.
pub fn normalize_spill_weight(spill_cost: f32, num_insts: u32, k: u32) -> f32
    ensures { result ≡ normalised spill_cost num_insts k }
{
    let weight = spill_cost / sum_as_f32(num_insts, k);
    if weight > LARGEST { LARGEST } else { weight }
}

// The weight test: the weight, made a little smaller, strictly exceeds the heaviest weight met.
pub fn strictly_exceeds(weight: f32, heaviest: f32) -> bool
    ensures { result ≡ exceeds 2007 weight heaviest }
{
    weight * FLOAT_PRECISION_ADJUST > heaviest
}

// A whole number, or the next one: by how twice the rest compares with what is one, and at a tie the even one.
fn nearest_even(whole: u64, twice_rest: u64, one: u64) -> u64
    requires { whole < 2 ^ 63 }
    ensures { result ≡ nearest whole (compare twice_rest one) }
{
    if twice_rest == one {
        return whole + whole % 2;
    }
    if twice_rest > one {
        return whole + 1;
    }
    whole
}

// n / 2 ^ places as H shows it: to the nearest, ties to even; at least 1 where it is above zero; at most the ceiling.
fn figure_of(n: u64, places: u32) -> u32
    requires { n < 2 ^ 34 }
    ensures { result ≡ figure_of n (2 ^ places) }
{
    if n == 0 {
        return 0;
    }
    // Less than a half.
    if places >= 36 {
        return LEAST;
    }
    let one = 1u64 << places;
    let whole = n / one;
    let figure = nearest_even(whole, n % one * 2, one);
    if figure == 0 {
        return LEAST;
    }
    if figure > CEILING as u64 {
        return CEILING;
    }
    figure as u32
}

// The H figure of a weight, from its bits; of bits that are no weight's, 0.
fn figure_of_bits(bits: u32) -> u32
    ensures { result ≡ figure (value_of weight_limit bits) }
{
    if bits > weights::WEIGHT_LIMIT {
        return 0;
    }
    let exponent = bits / 8388608;
    let fraction = bits % 8388608;
    // 2 to the power exponent - 150 is the place value of the last digit: from 150 on the weight is 2 to the power 23 or more.
    if exponent >= 150 {
        return CEILING;
    }
    if exponent == 0 {
        return figure_of(1000 * (fraction as u64), 149);
    }
    figure_of(1000 * ((8388608 + fraction) as u64), 150 - exponent)
}

// The H figure of a weight: the weight times 1000, to the nearest, ties to even; 1 for what is above zero and would be 0; at most the
// ceiling. The sign's bit is left out, which no weight has.
pub fn h_figure(weight: f32) -> u32
    ensures { result ≡ figure weight }
{
    figure_of_bits(weights::bits_of(weight) % SIGN)
}
