// The tables of a job as text: a line a row, one table behind the other. Weights are given as their bits.
ghost use Rattle.std.specs.Prelude.{◌≡◌, ◌+◌, ◌*◌, ◌≤◌, ◌<◌, length, leb};
ghost use Rattle.std.proofs.lemmas.List.Edits.{sets};
ghost use Rattle.columns.specs.Below.{joined};
ghost use Rattle.sheet.specs.Sheet.{line_text};
ghost use Rattle.sheet.specs.Answer.{Wrote};
ghost use Rattle.filling.specs.SourceTables.{work_columns};
ghost use Rattle.table_text.specs.TablesText.{number_in, bits_in, field_in, row_line, columns_text, bytes_of_rows};

use filling::lent::Rooms;
use numbers::weights::bits_of;
use sheet::{NoRoom, write_line};

// How many bytes a line of each table has: a letter, 11 for each field, a line feed.
pub const LINK_LINE: usize = 2 + 11 * 2;

pub const USE_LINE: usize = 2 + 11 * 4;

pub const GAP_LINE: usize = 2 + 11 * 6;

pub const GAP_SEGMENT_LINE: usize = 2 + 11 * 4;

// A table has so many columns at most.
const MOST_FIELDS: usize = 6;

// A number of a column; 0 past its end.
fn number_at(column: &[u32], i: usize) -> u32
    ensures { result ≡ number_in column.now i }
{
    column.get(i).copied().unwrap_or(0)
}

// The bits of a weight of a column; 0 past its end.
fn bits_at(column: &[f32], i: usize) -> u32
    ensures { result ≡ bits_in column.now i }
{
    if i < column.len() {
        return bits_of(column[i]);
    }
    0
}

// Writes a line at a place that has room for it.
fn put_line(out: &mut [u8], at: usize, letter: u8, fields: &[u32])
    requires { at + (1 + 11 * length fields.now + 1) ≤ length out.old }
    ensures { out.new ≡ sets out.old at (line_text letter fields.now) }
{
    write_line(&mut out[at..], letter, fields).unwrap();
}

// A column of a table: numbers, or weights, which are written as their bits.
#[derive(Clone, Copy)]
enum Column<'a> {
    Numbers(&'a [u32]),
    Weights(&'a [f32]),
}

// The field of row i of a column; 0 past its end.
fn field_at(column: Column, i: usize) -> u32
    ensures { result ≡ field_in column.entry i }
{
    match column {
        Column::Numbers(numbers) => number_at(numbers, i),
        Column::Weights(weights) => bits_at(weights, i),
    }
}

// Writes the line of row i of a table.
fn put_row(out: &mut [u8], at: usize, letter: u8, columns: &[Column], i: usize)
    requires few { length columns.now ≤ MOST_FIELDS }
    requires room { at + (2 + 11 * length columns.now) ≤ length out.old }
    ensures { out.new ≡ sets out.old at (row_line letter columns.now i) }
{
    let mut row = [0u32; MOST_FIELDS];
    for (c, column) in columns.iter().enumerate() {
        row[c] = field_at(*column, i);
    }
    put_line(out, at, letter, &row[..columns.len()]);
}

// Writes the lines of the first rows of a table from a place on.
fn put_rows(out: &mut [u8], at: usize, letter: u8, columns: &[Column], rows: usize)
    requires few { length columns.now ≤ MOST_FIELDS }
    requires room { at + (2 + 11 * length columns.now) * rows ≤ length out.old }
    ensures { out.new ≡ sets out.old at (joined (row_line letter columns.now) 0 rows) }
{
    let width = 2 + 11 * columns.len();
    for i in 0..rows {
        put_row(out, at + width * i, letter, columns, i);
    }
}

// Whether so many lines of a width fit into so many bytes: a product could be too large to be a number.
fn fit(rows: usize, width: usize, bytes: usize) -> bool
    requires { 0 < width }
    ensures { result ≡ leb (width * rows) bytes }
{
    rows <= bytes / width
}

// Whether the lines of so many rows of each table fit.
fn tables_fit(rows: Rooms, bytes: usize) -> bool
    ensures { result ≡ leb (bytes_of_rows rows) bytes }
{
    if !fit(rows.links, LINK_LINE, bytes) {
        return false;
    }
    let behind_links = bytes - LINK_LINE * rows.links;
    if !fit(rows.uses, USE_LINE, behind_links) {
        return false;
    }
    let behind_uses = behind_links - USE_LINE * rows.uses;
    if !fit(rows.gaps, GAP_LINE, behind_uses) {
        return false;
    }
    fit(
        rows.gap_segments,
        GAP_SEGMENT_LINE,
        behind_uses - GAP_LINE * rows.gaps,
    )
}

// Writes the text of the first rows of each table to the front of a buffer, which stays where it is too short. What a column does not
// have is 0.
pub fn write_tables(
    prev: &[u32],
    next: &[u32],
    inst: &[u32],
    weight: &[f32],
    left: &[f32],
    right: &[f32],
    gap_from: &[u32],
    gap_to: &[u32],
    gap_weight: &[f32],
    live: &[u32],
    freq: &[f32],
    gap_block: &[u32],
    segment_from: &[u32],
    segment_to: &[u32],
    segment_value: &[u32],
    segment_gap: &[u32],
    rows: Rooms,
    out: &mut [u8],
) -> Result<usize, NoRoom>
    ensures { let lent = work_columns
        prev.now next.now
        inst.now weight.now left.now right.now
        gap_from.now gap_to.now gap_weight.now live.now freq.now gap_block.now
        segment_from.now segment_to.now segment_value.now segment_gap.now in
        Wrote (columns_text lent rows) out.old out.new result }
{
    if !tables_fit(rows, out.len()) {
        return Err(NoRoom);
    }
    let uses_at = LINK_LINE * rows.links;
    let gaps_at = uses_at + USE_LINE * rows.uses;
    let segments_at = gaps_at + GAP_LINE * rows.gaps;
    let end = segments_at + GAP_SEGMENT_LINE * rows.gap_segments;
    put_rows(
        out,
        0,
        b'l',
        &[Column::Numbers(prev), Column::Numbers(next)],
        rows.links,
    );
    put_rows(
        out,
        uses_at,
        b'u',
        &[
            Column::Numbers(inst),
            Column::Weights(weight),
            Column::Weights(left),
            Column::Weights(right),
        ],
        rows.uses,
    );
    put_rows(
        out,
        gaps_at,
        b'g',
        &[
            Column::Numbers(gap_from),
            Column::Numbers(gap_to),
            Column::Weights(gap_weight),
            Column::Numbers(live),
            Column::Weights(freq),
            Column::Numbers(gap_block),
        ],
        rows.gaps,
    );
    put_rows(
        out,
        segments_at,
        b'o',
        &[
            Column::Numbers(segment_from),
            Column::Numbers(segment_to),
            Column::Numbers(segment_value),
            Column::Numbers(segment_gap),
        ],
        rows.gap_segments,
    );
    Ok(end)
}
