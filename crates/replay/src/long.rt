// One record of a job that no sheet can hold: in one table the last line stands until there are so many items.
use crate::compare::{Record, tell};
use crate::text::tail;
use answers::job::answer_job;
use answers::room::sheet_rooms;
use jobs::rows::{FixedUses, Reservations, Segments, Uses};
use refusals::job::{Job, Parameters};
use sheet::kinds::{B, E, F, KINDS, P, S, U, V, W, fields_of};
use sheet::{CELLS, column_of, read_sheet};
use std::alloc::{AllocError, Global};
use std::io;

// The kinds that a record numbers from 0 on, in the order in which a job has their columns.
const TABLES: [usize; 7] = [B, V, S, U, W, E, F];

// No column of a job has more items here.
const ITEMS: usize = 4097;

// The number that was read for a row of a kind's column.
fn cell(cells: &[u32], k: usize, c: usize, row: usize) -> u32 {
    tail(cells, column_of(k, c)).get(row).copied().unwrap_or(0)
}

// How many items of each kind were read; the kind whose table is lengthened, if it is any, and to how many items.
#[derive(Clone, Copy)]
struct Sizes {
    read: [usize; KINDS],
    lengthened: Option<usize>,
    items: usize,
}

impl Sizes {
    // How many items of a kind were read.
    fn read(&self, k: usize) -> usize {
        self.read.get(k).copied().unwrap_or(0)
    }

    // How many the job has.
    fn items(&self, k: usize) -> usize {
        let n = if self.lengthened == Some(k) {
            self.items
        } else {
            self.read(k)
        };
        n.min(ITEMS)
    }

    // The items of a column: those that were read, and then the last one again.
    fn column(
        &self,
        alloc: Global,
        cells: &[u32],
        k: usize,
        c: usize,
    ) -> Result<Vec<u32>, AllocError> {
        // the column's place is looked for once, not for each item
        let read = tail(cells, column_of(k, c));
        let last = self.read(k).saturating_sub(1);
        (0..self.items(k))
            .map(|i| read.get(i.min(last)).copied().unwrap_or(0))
            .collect(alloc)
    }

    // The columns of the job.
    fn columns(&self, alloc: Global, cells: &[u32]) -> Result<Vec<Vec<u32>>, AllocError> {
        let mut columns = Vec::new(alloc);
        for k in TABLES {
            for c in 0..fields_of(k) {
                columns.push(self.column(alloc, cells, k, c)?)?;
            }
        }
        Ok(columns)
    }
}

// A column by its place among those of a job; an empty one behind the last.
fn column_at(columns: &[Vec<u32>], i: usize) -> &[u32] {
    match columns.get(i) {
        Some(column) => column.as_slice(),
        None => &[],
    }
}

// The line P.
fn parameters_in(cells: &[u32]) -> Parameters {
    Parameters {
        k: cell(cells, P, 0, 0),
        cheaper_than_move: cell(cells, P, 1, 0),
        cheaper_than_load: cell(cells, P, 2, 0),
        indirect: cell(cells, P, 3, 0),
        units: cell(cells, P, 4, 0),
    }
}

// The job of these columns.
fn job_of<'a>(columns: &'a [Vec<u32>], parameters: Parameters) -> Job<'a> {
    Job {
        freq: column_at(columns, 0),
        first: column_at(columns, 1),
        end: column_at(columns, 2),
        code: column_at(columns, 3),
        segments: Segments {
            start: column_at(columns, 4),
            end: column_at(columns, 5),
            value: column_at(columns, 6),
            first_use: column_at(columns, 7),
            end_use: column_at(columns, 8),
            flags: column_at(columns, 9),
        },
        uses: Uses {
            position: column_at(columns, 10),
            kind: column_at(columns, 11),
            cost: column_at(columns, 12),
        },
        weight: column_at(columns, 13),
        reservations: Reservations {
            unit: column_at(columns, 14),
            start: column_at(columns, 15),
            end: column_at(columns, 16),
            kind: column_at(columns, 17),
            index: column_at(columns, 18),
            fixed: column_at(columns, 19),
        },
        fixed_uses: FixedUses {
            unit: column_at(columns, 20),
            point: column_at(columns, 21),
            value: column_at(columns, 22),
        },
        parameters,
    }
}

// Reads a record's sheet, lengthens a table, and says whether the answer and the tables agree with those recorded.
pub(crate) fn replay_long(
    rt: &(impl Print + AllocGlobal),
    record: &Record<'_>,
    table: usize,
    items: usize,
) -> io::Result<bool> {
    let mut cells = [0u32; CELLS];
    let Ok(read) = read_sheet(record.sheet, &mut cells) else {
        tell(rt, record.number);
        let _ = println!(rt; "no sheet");
        return Ok(false);
    };
    let sizes = Sizes {
        read,
        lengthened: TABLES.get(table).copied(),
        items,
    };
    let columns = sizes.columns(rt.alloc(), &cells)?;
    let job = job_of(&columns, parameters_in(&cells));
    Ok(record.agrees(rt, |out, lines| answer_job(&job, sheet_rooms(), out, lines)))
}
