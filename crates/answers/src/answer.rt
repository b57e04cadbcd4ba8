// The answer to a sheet: its text is read, its job answered.
ghost use Rattle.std.specs.Prelude.{IfOk, List, ℕ, ◌≤◌, length, take};
ghost use Rattle.sheet.specs.Kinds.{cell_count};
ghost use Rattle.sheet.specs.Cells.{Read};
ghost use Rattle.cells.specs.SheetJob.{InCells};
ghost use Rattle.answers.specs.SheetAnswer.{IsAnswered};

use crate::job::{Answered, answer_job};
use cells::cells::job_of;
use filling::lent::Rooms;
use sheet::kinds::KINDS;
use sheet::{CELLS, NoRoom, ReadError, read_sheet, write_answer};

// Answers a text that was read into cells, any that was read so: by its job, or by its refusal.
fn answer_read(
    read: Result<[usize; KINDS], ReadError>,
    cells: &[u32],
    asked: Rooms,
    out: &mut [u8],
    tables: &mut [u8],
) -> Answered
    requires { IfOk read (λ counts. InCells cells.now counts) }
    ensures { (text before : List ℕ) → Read text before cells.now read → cell_count ≤ length before
        → IsAnswered text asked out.old out.new tables.old tables.new result }
{
    match read {
        Ok(counts) => answer_job(&job_of(cells, counts), asked, out, tables),
        Err(e) => match e {
            ReadError::Refused(bad) => Answered {
                answer: write_answer(out, sheet::Answer::Refused(bad.number, bad.line)),
                tables: Ok(0),
            },
            // never: there are as many cells as a sheet needs
            ReadError::NoRoom => Answered {
                answer: Err(NoRoom),
                tables: Err(NoRoom),
            },
        },
    }
}

// Writes the answer to a text to the front of `out`, and the text of its job's tables to the front of `tables`: a text that is refused,
// and a job that is refused, has none. The tables are lent as many rows as are asked for, and no more than a sheet can need.
pub fn answer_sheet(text: &[u8], asked: Rooms, out: &mut [u8], tables: &mut [u8]) -> Answered
    ensures { IsAnswered text.now asked
        out.old out.new tables.old tables.new result }
{
    let mut cells = [0u32; CELLS];
    let read = read_sheet(text, &mut cells);
    answer_read(read, &cells, asked, out, tables)
}

// The same of the first n bytes of a buffer, or of all where it has fewer: the text of the tables goes to its front.
pub fn answer_in_place(buf: &mut [u8], n: usize, asked: Rooms, out: &mut [u8]) -> Answered
    ensures { IsAnswered (take n buf.old) asked out.old out.new buf.old buf.new result }
{
    let mut cells = [0u32; CELLS];
    let read = read_sheet(&buf[..n.min(buf.len())], &mut cells);
    answer_read(read, &cells, asked, out, buf)
}
