// The gap segments. They are lent as one slice a column, and there are as many as the first column has rows.
ghost use Rattle.std.specs.Prelude.{◌≡◌, ℕ, ◌<◌, ◌≤◌, length, get_or, take};
ghost use Rattle.walks.specs.Gaps.{segment_in, HasRows, first_segments, HasSegments};

use crate::meeting::GapSegment;
use jobs::rows::cell;
use numbers::{Point, Value};
use std::marker::Model;

// Of each the points from one to before another, the value, and the gap.
#[derive(Drop)]
pub struct GapSegments<'a> {
    pub from: &'a [u32],
    pub to: &'a [u32],
    pub value: &'a [u32],
    pub gap: &'a [u32],
}

impl<'a> Model for GapSegments<'a> {
    ghost use Rattle.std.specs.Prelude.{length};
    ghost use Rattle.overlaps.specs.GapSegments.{SegmentColumns, segment_columns};

    ghost Value = { SegmentColumns };

    ghost view = { λ s. segment_columns s.from.now s.to.now s.value.now s.gap.now (length s.from.now) };
}

// The first n numbers of a column, each of 32 bits.
fn first_of<'a>(column: &'a [u32], n: usize) -> &'a [u32]
    requires { n ≤ length column.now }
    ensures cut { result.now ≡ take n column.now }
    ensures small { (k : ℕ) → get_or result.now k 0 ≤ 4294967295 }
{
    &column[..n]
}

impl<'a> GapSegments<'a> {
    // How many there are.
    pub fn len(&self) -> usize
        ensures { result ≡ self.now.used }
    {
        self.from.len()
    }

    // Gap segment i.
    pub fn at(&self, i: usize) -> GapSegment
        requires rows { HasRows self.now }
        requires inside { i < self.now.used }
        ensures { result ≡ segment_in self.now i }
    {
        GapSegment {
            from: Point(cell(self.from, i)),
            to: Point(cell(self.to, i)),
            value: Value(cell(self.value, i)),
        }
    }

    // The first n.
    pub fn first(&self, n: usize) -> GapSegments<'a>
        requires { HasSegments n self.now }
        ensures cut { result ≡ first_segments n self.now }
        ensures rows { HasRows result }
        ensures small { (k : ℕ) → get_or result.to k 0 ≤ 4294967295 }
    {
        GapSegments {
            from: first_of(self.from, n),
            to: first_of(self.to, n),
            value: first_of(self.value, n),
            gap: first_of(self.gap, n),
        }
    }
}
