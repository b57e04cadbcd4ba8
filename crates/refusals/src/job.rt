// A job: its tables, its parameters, and how many items its tables have.
ghost use Rattle.std.specs.Prelude.{◌≡◌};
ghost use Rattle.numbers.specs.Cost.{scales_of};
ghost use Rattle.refusals.specs.Job.{sizes_of};

use jobs::rows::{FixedUses, Reservations, Segments, Uses};
use links::blocks;
use numbers::costs::RematScales;
use numbers::weights::Limit;
use std::marker::Model;

// The adjustment k, the bits of the three scales, and the number of units.
#[derive(Clone, Copy)]
pub struct Parameters {
    pub k: u32,
    pub cheaper_than_move: u32,
    pub cheaper_than_load: u32,
    pub indirect: u32,
    pub units: u32,
}

impl From<Parameters> for RematScales {
    ghost from_gives = { λ p r. r ≡ scales_of p.cheaper_than_move p.cheaper_than_load p.indirect };

    // The scales, from their bits.
    fn from(p: Parameters) -> RematScales {
        RematScales {
            cheaper_than_move: Limit::Cost.value_of(p.cheaper_than_move),
            cheaper_than_load: Limit::Cost.value_of(p.cheaper_than_load),
            indirect: Limit::Cost.value_of(p.indirect),
        }
    }
}

// How many items each input table has.
#[derive(Clone, Copy)]
pub struct Sizes {
    pub blocks: usize,
    pub values: usize,
    pub segments: usize,
    pub uses: usize,
    pub weights: usize,
    pub reservations: usize,
    pub fixed_uses: usize,
}

// A job: the columns of its block list, the values' rematerialisation codes, its segments and uses, the bits of its spill weights, what is
// reserved, and its parameters. A contract sees it as the record of its lists.
#[derive(Drop)]
pub struct Job<'a> {
    pub freq: &'a [u32],
    pub first: &'a [u32],
    pub end: &'a [u32],
    pub code: &'a [u32],
    pub segments: Segments<'a>,
    pub uses: Uses<'a>,
    pub weight: &'a [u32],
    pub reservations: Reservations<'a>,
    pub fixed_uses: FixedUses<'a>,
    pub parameters: Parameters,
}

impl<'a> Model for Job<'a> {
    ghost use Rattle.links.specs.Blocks.{blocks_of};
    ghost use Rattle.refusals.specs.Job.{Job};

    ghost Value = { Job };

    ghost view = { λ j. record {
      k = j.parameters.k;
      cheaper_than_move = j.parameters.cheaper_than_move;
      cheaper_than_load = j.parameters.cheaper_than_load;
      indirect = j.parameters.indirect;
      units = j.parameters.units;
      blocks = blocks_of j.freq.now j.first.now j.end.now;
      codes = j.code.now;
      segments = j.segments;
      uses = j.uses;
      weights = j.weight.now;
      reservations = j.reservations;
      fixed_uses = j.fixed_uses;
    } };
}

impl<'a> Job<'a> {
    // The items of its tables: as many as the shortest column of each has.
    pub fn sizes(&self) -> Sizes
        ensures { result ≡ sizes_of self.now }
    {
        Sizes {
            blocks: blocks::count(self.freq, self.first, self.end),
            values: self.code.len(),
            segments: self.segments.len(),
            uses: self.uses.len(),
            weights: self.weight.len(),
            reservations: self.reservations.len(),
            fixed_uses: self.fixed_uses.len(),
        }
    }
}
