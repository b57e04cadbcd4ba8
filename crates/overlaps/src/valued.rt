// The columns of segments that gaps are made of, whether or not a caller has a job's six.
ghost use Rattle.std.specs.Prelude.{◌≡◌, length};
ghost use Rattle.overlaps.specs.ValuedColumns.{valued_in};

use jobs::rows::Segments;
use std::marker::Model;

// The starts, ends and values of segments, lent as one slice a column. A contract sees the columns.
#[derive(Drop)]
pub struct ValuedSegments<'a> {
    pub start: &'a [u32],
    pub end: &'a [u32],
    pub value: &'a [u32],
}

impl<'a> Model for ValuedSegments<'a> {
    ghost use Rattle.overlaps.specs.ValuedColumns.{ValuedColumns, valued_columns};

    ghost Value = { ValuedColumns };

    ghost view = { λ t. valued_columns t.start.now t.end.now t.value.now };
}

impl<'a> ValuedSegments<'a> {
    // Those of a job's segments, each cut to as many rows as there are segments: a column that goes on past them has no more to say.
    pub fn of(segments: &Segments<'a>) -> ValuedSegments<'a>
        ensures { result ≡ valued_in segments.now }
    {
        let n = segments.len();
        ValuedSegments {
            start: &segments.start[..n],
            end: &segments.end[..n],
            value: &segments.value[..n],
        }
    }

    // How many there are.
    pub fn len(&self) -> usize
        ensures { result ≡ length self.now.starts }
    {
        self.start.len()
    }
}
