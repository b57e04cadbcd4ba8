// An answer's text. Weights are given as their binary32 bits.
ghost use Rattle.std.specs.Prelude.{◌≡◌, ◌+◌, ◌*◌, ◌≤◌, length};
ghost use Rattle.std.proofs.lemmas.List.Edits.{sets};
ghost use Rattle.sheet.specs.Sheet.{fields_text, line_text};
ghost use Rattle.sheet.specs.Answer.{end_text, ends_text, weights_text, figures_text, answer_text, Wrote};

use crate::field::put_number;

// A proposal's record, and its normalised use weight in thousandths. An end is an instruction, or none.
#[derive(Clone, Copy, Debug, PartialEq, Eq)]
pub struct Figures {
    pub left: Option<u32>,
    pub right: Option<u32>,
    pub use_weight: u32,
    pub live_insts: u32,
    pub interference_weight: u32,
    pub split_cost: u32,
    pub thousandths: u32,
}

// What a job is answered: a proposal, none with its kind, a refusal with its number and place; kinds and numbers are those of the text,
// since no job is known here.
#[derive(Clone, Copy, Debug, PartialEq, Eq)]
pub enum Answer {
    Proposal(Figures),
    NoneOf(u32),
    Refused(u32, u32),
}

// Why nothing is written: the buffer is too short.
#[derive(Clone, Copy, Debug, PartialEq, Eq)]
pub struct NoRoom;

// Writes an end into 11 columns: a field of 0 with its digit made a '-' is an absent one.
fn put_end(out: &mut [u8], at: usize, e: Option<u32>)
    requires { at + 11 ≤ length out.old }
    ensures { out.new ≡ sets out.old at (end_text e) }
{
    match e {
        Some(n) => {
            put_number(out, at, n);
        }
        None => {
            put_number(out, at, 0);
            out[at + 10] = b'-';
        }
    }
}

// Writes fields one behind the other, from `at` on.
fn put_fields(out: &mut [u8], at: usize, fields: &[u32])
    requires { at + 11 * length fields.now ≤ length out.old }
    ensures { out.new ≡ sets out.old at (fields_text fields.now) }
{
    let mut p = at;
    for n in fields {
        put_number(out, p, *n);
        p += 11;
    }
}

// Writes a line of any fields, from `at` on.
fn put_line(out: &mut [u8], at: usize, letter: u8, fields: &[u32])
    requires { at + (1 + 11 * length fields.now + 1) ≤ length out.old }
    ensures { out.new ≡ sets out.old at (line_text letter fields.now) }
{
    out[at] = letter;
    put_fields(out, at + 1, fields);
    out[at + 1 + 11 * fields.len()] = b'\n';
}

// Writes a line of any fields to the front of a buffer, and answers how many bytes it has.
pub fn write_line(out: &mut [u8], letter: u8, fields: &[u32]) -> Result<usize, NoRoom>
    ensures { Wrote (line_text letter fields.now) out.old out.new result }
{
    if out.len() < 2 {
        return Err(NoRoom);
    }
    if (out.len() - 2) / 11 < fields.len() {
        return Err(NoRoom);
    }
    put_line(out, 0, letter, fields);
    Ok(1 + 11 * fields.len() + 1)
}

// Writes a proposal's letter and ends.
fn put_ends(out: &mut [u8], left: Option<u32>, right: Option<u32>)
    requires { 23 ≤ length out.old }
    ensures { out.new ≡ sets out.old 0 (ends_text left right) }
{
    out[0] = b'Q';
    put_end(out, 1, left);
    put_end(out, 12, right);
}

// Writes a proposal's other figures behind its ends.
fn put_weights(out: &mut [u8], weight: u32, insts: u32, met: u32, cost: u32)
    requires { 68 ≤ length out.old }
    ensures { out.new ≡ sets out.old 23 (weights_text weight insts met cost) }
{
    put_fields(out, 23, &[weight, insts, met, cost]);
    out[67] = b'\n';
}

// Writes a proposal's two lines.
fn put_figures(out: &mut [u8], f: Figures)
    requires { 81 ≤ length out.old }
    ensures { out.new ≡ sets out.old 0 (figures_text f) }
{
    put_ends(out, f.left, f.right);
    put_weights(
        out,
        f.use_weight,
        f.live_insts,
        f.interference_weight,
        f.split_cost,
    );
    put_line(out, 68, b'H', &[f.thousandths]);
}

// Writes an answer's text to the front of a buffer, and answers how many bytes it has.
pub fn write_answer(out: &mut [u8], a: Answer) -> Result<usize, NoRoom>
    ensures { Wrote (answer_text a) out.old out.new result }
{
    match a {
        Answer::Proposal(f) => {
            if out.len() < 81 {
                return Err(NoRoom);
            }
            put_figures(out, f);
            Ok(81)
        }
        Answer::NoneOf(kind) => write_line(out, b'N', &[kind]),
        Answer::Refused(number, place) => write_line(out, b'R', &[number, place]),
    }
}
