// How many rows columns have.
ghost use Rattle.std.specs.Prelude.{◌≡◌};
ghost use Rattle.columns.specs.Table.{shortest};

// How many rows columns of these lengths have: as many as the shortest; none if there is no column.
pub fn shortest(lengths: &[usize]) -> usize
    ensures { result ≡ shortest lengths.now }
{
    let Some((first, rest)) = lengths.split_first() else {
        return 0;
    };
    let mut rows = *first;
    for n in rest {
        rows = rows.min(*n);
    }
    rows
}
