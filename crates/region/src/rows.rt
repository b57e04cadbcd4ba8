// The gaps that growth reads, lent as one slice a column: of each its first instruction, its weight, its live instructions and the lowest
// frequency in it.
ghost use Rattle.std.specs.Prelude.{◌≡◌, length};
ghost use Rattle.region.specs.Find.{first_gaps, HasGaps};

use std::marker::Model;

#[derive(Drop)]
pub struct GapRows<'a> {
    pub from: &'a [u32],
    pub weight: &'a [f32],
    pub live: &'a [u32],
    pub min_freq: &'a [f32],
}

impl<'a> Model for GapRows<'a> {
    ghost use Rattle.region.specs.Find.{GapRows, gap_rows};

    ghost Value = { GapRows };

    ghost view = { λ g. gap_rows g.from.now g.weight.now g.live.now g.min_freq.now };
}

impl<'a> GapRows<'a> {
    // How many there are.
    pub fn len(&self) -> usize
        ensures { result ≡ length self.now.froms }
    {
        self.from.len()
    }

    // The first n.
    pub(crate) fn first(&self, n: usize) -> GapRows<'a>
        requires { HasGaps n self.now }
        ensures { result ≡ first_gaps n self.now }
    {
        GapRows {
            from: &self.from[..n],
            weight: &self.weight[..n],
            live: &self.live[..n],
            min_freq: &self.min_freq[..n],
        }
    }
}
