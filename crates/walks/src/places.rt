// Places between rows: place i stands between rows i - 1 and i.
ghost use Rattle.std.specs.Prelude.{◌≡◌, ◌≤◌, ◌<◌, length};
ghost use Rattle.links.specs.Links.{on_side};
ghost use Rattle.walks.specs.Ways.{any_ahead, row_ahead, ahead_is, place_behind};

use links::lower::Side;

// One of n rows lies ahead on the way to a side.
pub(crate) fn any_ahead(side: Side, i: usize, n: usize) -> bool
    ensures { result ≡ any_ahead side i n }
{
    match side {
        Side::Previous => 0 < i,
        Side::Next => i < n,
    }
}

// The first row ahead.
pub(crate) fn row_ahead(side: Side, i: usize) -> usize
    requires { on_side side 1 0 ≤ i }
    ensures { result ≡ row_ahead side i }
{
    match side {
        Side::Previous => i - 1,
        Side::Next => i,
    }
}

// One of n rows lies ahead, and the first has the number x in a column.
pub(crate) fn ahead_is(side: Side, column: &[u32], n: usize, i: usize, x: u32) -> bool
    requires { (n ≤ length column.now) × (i ≤ n) }
    ensures { result ≡ ahead_is side column.now n i x }
{
    any_ahead(side, i, n) && column[row_ahead(side, i)] == x
}

// The place behind the first row ahead.
pub(crate) fn place_behind(side: Side, i: usize) -> usize
    requires { (on_side side 1 0 ≤ i) × (i < 18446744073709551615) }
    ensures { result ≡ place_behind side i }
{
    match side {
        Side::Previous => i - 1,
        Side::Next => i + 1,
    }
}
