// The cells are filled from a text that the check found sound: every line stands where the counts say.
ghost use Rattle.std.specs.Prelude.{◌≡◌, ℕ, ◌+◌, ◌*◌, ◌<◌, ◌≤◌, length, get_or, drop};
ghost use Rattle.std.proofs.lemmas.List.Edits.{sets};
ghost use Rattle.sheet.specs.Kinds.{kinds, fields, limit, widest, base, cell_count};
ghost use Rattle.sheet.specs.Refusal.{verdict, sheet_of};
ghost use Rattle.sheet.specs.Lines.{AreLines, rows_of, Readable, fields_at};
ghost use Rattle.sheet.specs.Cells.{column_of, stored_columns, stored, Read};
ghost use Rattle.sheet.specs.declared.fill.ReadError.TheVariants.{Refused};

use crate::check::{BadLine, check_text};
use crate::field::value_of;
use crate::kinds;

// Why a sheet is not read: its text is refused, or the lent cells are too few.
#[derive(Clone, Copy, Debug, PartialEq, Eq)]
pub enum ReadError {
    Refused(BadLine),
    NoRoom,
}

impl From<BadLine> for ReadError {
    ghost from_gives = { λ b e. e ≡ Refused b };

    fn from(b: BadLine) -> ReadError {
        ReadError::Refused(b)
    }
}

// Where the cells of a kind start: behind those of the kinds before it.
fn base_of(k: usize) -> usize
    requires { k ≤ kinds }
    ensures { result ≡ base k }
{
    let mut at: usize = 0;
    for j in 0..k {
        at += kinds::fields_of(j) * kinds::limit_of(j);
    }
    at
}

// Where column c of kind k starts among the cells; their end for a column that does not exist.
pub fn column_of(k: usize, c: usize) -> usize
    ensures { (result ≡ column_of k c) × (result ≤ cell_count) }
{
    if k >= kinds::KINDS {
        return kinds::cells_needed();
    }
    if c >= kinds::fields_of(k) {
        return kinds::cells_needed();
    }
    base_of(k) + c * kinds::limit_of(k)
}

// Stores one field of each of some lines to the cells of a column, the first field at `from` and `step` bytes apart.
fn fill_column(text: &[u8], column: &mut [u32], from: usize, step: usize)
    requires readable { Readable text.now from step (length column.old) }
    requires step_le_widest { step ≤ widest }
    ensures { column.new ≡ fields_at text.now from step (length column.old) }
{
    let mut p = from;
    for cell in column.iter_mut() {
        let e = p + 11;
        *cell = value_of(&text[p..e]) as u32;
        p += step;
    }
}

// Stores the columns of the `count` lines of kind k that stand at `at`.
fn fill_kind(text: &[u8], cells: &mut [u32], k: usize, at: usize, count: usize)
    requires k_lt_kinds { (k < kinds) × (at ≤ length text.now) × (count ≤ limit k) × (cell_count ≤ length cells.old) }
    requires are_lines { AreLines k count (drop at text.now) }
    ensures { cells.new ≡ stored_columns k (rows_of k count (drop at text.now)) 0 (fields k) cells.old }
{
    let n = kinds::fields_of(k);
    let w = kinds::width_of(k);
    let most = kinds::limit_of(k);
    let base = base_of(k);
    for c in 0..n {
        let from = base + c * most;
        let to = from + count;
        fill_column(text, &mut cells[from..to], at + 1 + 11 * c, w);
    }
}

// Stores every kind of a sound text.
fn fill_all(text: &[u8], cells: &mut [u32], counts: [usize; kinds::KINDS])
    requires { (verdict text.now ≡ Ok tt) ×
        (cell_count ≤ length cells.old) ×
        ((k : ℕ) → k < kinds → get_or counts k 0 ≡ length (sheet_of text.now k)) }
    ensures { cells.new ≡ stored (sheet_of text.now) cells.old }
{
    let mut at: usize = 0;
    for (k, count) in counts.iter().enumerate() {
        fill_kind(text, cells, k, at, *count);
        at += *count * kinds::width_of(k);
    }
}

// Reads a sheet into the lent cells, and answers how many lines of each kind it has. The whole text is checked first: a refusal, or too few
// cells, leaves them as they were.
pub fn read_sheet(text: &[u8], cells: &mut [u32]) -> Result<[usize; kinds::KINDS], ReadError>
    ensures { Read text.now cells.old cells.new result }
{
    if cells.len() < kinds::cells_needed() {
        return Err(ReadError::NoRoom);
    }
    let counts = check_text(text)?;
    fill_all(text, cells, counts);
    Ok(counts)
}
