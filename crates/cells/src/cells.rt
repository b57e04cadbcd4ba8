// A job in the cells that a sheet was read into: its parameters and its columns are lent from there.
ghost use Rattle.std.specs.Prelude.{◌≡◌};
ghost use Rattle.sheet.specs.Kinds.{kind_p};
ghost use Rattle.cells.specs.SheetJob.{parameter_of, parameters_of, job_of_columns, cells_column, IsColumn, InCells};

use jobs::rows::{FixedUses, Reservations, Segments, Uses};
use refusals::job::{Job, Parameters};
use sheet::column_of;
use sheet::kinds::{B, E, F, KINDS, P, S, U, V, W};

// Column c of kind k: as many cells as the kind has rows.
fn column(cells: &[u32], counts: [usize; KINDS], k: usize, c: usize) -> &[u32]
    requires { InCells cells.now counts × IsColumn k c }
    ensures { result.now ≡ cells_column cells.now counts k c }
{
    let from = column_of(k, c);
    let to = from + counts[k];
    &cells[from..to]
}

// The number in column c of the line P.
fn parameter(cells: &[u32], counts: [usize; KINDS], c: usize) -> u32
    requires { InCells cells.now counts × IsColumn kind_p c }
    ensures { result ≡ parameter_of (cells_column cells.now counts) c }
{
    let p = column(cells, counts, P, c);
    p[0]
}

// The line P.
fn parameters_of(cells: &[u32], counts: [usize; KINDS]) -> Parameters
    requires { InCells cells.now counts }
    ensures { result ≡ parameters_of (cells_column cells.now counts) }
{
    Parameters {
        k: parameter(cells, counts, 0),
        cheaper_than_move: parameter(cells, counts, 1),
        cheaper_than_load: parameter(cells, counts, 2),
        indirect: parameter(cells, counts, 3),
        units: parameter(cells, counts, 4),
    }
}

// The job, whose columns stay where they are.
pub fn job_of<'a>(cells: &'a [u32], counts: [usize; KINDS]) -> Job<'a>
    requires { InCells cells.now counts }
    ensures { result ≡ job_of_columns (cells_column cells.now counts) }
{
    Job {
        freq: column(cells, counts, B, 0),
        first: column(cells, counts, B, 1),
        end: column(cells, counts, B, 2),
        code: column(cells, counts, V, 0),
        segments: Segments {
            start: column(cells, counts, S, 0),
            end: column(cells, counts, S, 1),
            value: column(cells, counts, S, 2),
            first_use: column(cells, counts, S, 3),
            end_use: column(cells, counts, S, 4),
            flags: column(cells, counts, S, 5),
        },
        uses: Uses {
            position: column(cells, counts, U, 0),
            kind: column(cells, counts, U, 1),
            cost: column(cells, counts, U, 2),
        },
        weight: column(cells, counts, W, 0),
        reservations: Reservations {
            unit: column(cells, counts, E, 0),
            start: column(cells, counts, E, 1),
            end: column(cells, counts, E, 2),
            kind: column(cells, counts, E, 3),
            index: column(cells, counts, E, 4),
            fixed: column(cells, counts, E, 5),
        },
        fixed_uses: FixedUses {
            unit: column(cells, counts, F, 0),
            point: column(cells, counts, F, 1),
            value: column(cells, counts, F, 2),
        },
        parameters: parameters_of(cells, counts),
    }
}
