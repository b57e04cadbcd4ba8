// Weights, from their bits and back.
ghost use Rattle.std.specs.Prelude.{◌≡◌, ◌≤◌};
ghost use Rattle.numbers.specs.Weight.{limit_bits, value_from, value_of, heavier};
ghost use Rattle.std.specs.Float.{binary32};
ghost use Rattle.std.specs.Float.Ieee.{to_bits};

// The bits of infinity: no weight has higher ones.
pub const WEIGHT_LIMIT: u32 = 2139095040;

// The bits of the largest finite f32: no frequency has higher ones.
pub const FREQUENCY_LIMIT: u32 = 2139095039;

// The bits of 65536.0: no class cost and no scale has higher ones.
pub const COST_LIMIT: u32 = 1199570944;

// The bits of a NaN: IEEE 754's quiet one without a payload.
const NAN_BITS: u32 = 2143289344;

// What bits are the value of: each kind has its limit.
#[derive(Clone, Copy)]
pub enum Limit {
    // A spill weight.
    Weight,
    // A block's frequency.
    Frequency,
    // A class cost or a scale.
    Cost,
}

impl Limit {
    // No bits of this kind are higher.
    pub fn bits(self) -> u32
        ensures { result ≡ limit_bits self }
    {
        match self {
            Limit::Weight => WEIGHT_LIMIT,
            Limit::Frequency => FREQUENCY_LIMIT,
            Limit::Cost => COST_LIMIT,
        }
    }

    // The value of the bits, if they are within the limit.
    pub fn value_from_bits(self, bits: u32) -> Option<f32>
        ensures { result ≡ value_from (limit_bits self) bits }
    {
        if bits <= self.bits() {
            return Some(f32::from_bits(bits));
        }
        None
    }

    // The value of the bits, and zero where they are above the limit, for tables that a check has passed.
    pub fn value_of(self, bits: u32) -> f32
        ensures { result ≡ value_of (limit_bits self) bits }
    {
        self.value_from_bits(bits).unwrap_or(0.0)
    }
}

// The heavier of two weights.
pub fn heavier(a: f32, b: f32) -> f32
    ensures { result ≡ heavier a b }
{
    if a < b { b } else { a }
}

// The bits of a weight. A NaN, which no answer and no table has, shows one pattern whatever its own is.
pub fn bits_of(w: f32) -> u32
    ensures { result ≡ to_bits binary32 w }
{
    if w != w {
        return NAN_BITS;
    }
    f32::to_bits(w)
}
