// splitsheet [--tables] [SHEET]: answers the sheet that a file holds, or standard input where none is named, or where it is named `-`.
//
// The answer is document 01's: Q and H, N, or R. With --tables the tables follow it: links, uses, gaps and gap segments, lines l, u, g
// and o. Where nothing can be read, one line on standard error says why, and nothing is answered. No more than 65,536 bytes are read:
// those of a text that has more decide its answer (proofs/Front.antt of `answers`). The work tables have room for every sheet
// (proofs/Rooms.antt there). What is read and written is not proved; the work is done by `answer_in_place`, on slices.
#![tactic(auto)]

ghost use Rattle.std.specs.Prelude.{◌≤◌, length, IfOk};
ghost use Rattle.answers.specs.SheetRooms.{table_bytes};

use answers::answer::answer_in_place;
use answers::room::{ANSWER_BYTES, sheet_rooms};
use sheet::{NoRoom, same};
use std::env::{Env, FillError};
use std::io::{Error, ErrorKind, Read, Write};
use std::str::from_utf8;
use std::{fs, io};

// No more of a text is read.
const TEXT_BYTES: usize = 65536;

// No longer argument names a file.
const NAME_BYTES: usize = 4096;

// std says no more of an error: 256 bytes, and a number behind them.
const ERROR_BYTES: usize = 300;

// Holds at its front an argument, then the text, then the text of its tables, and once more the argument that a failure names. Nothing is
// asked of an allocator, which could refuse it.
type Buffer = [u8; TEXT_BYTES];

// What the arguments ask for: whether the tables are printed, and which argument names the file that holds the sheet; without one
// standard input does.
#[derive(Clone, Copy)]
struct Asked {
    tables: bool,
    named: Option<usize>,
}

// Why nothing is answered, or not all of it is printed. An argument is known by its place.
#[derive(Clone, Copy)]
enum Failure {
    UnknownOption(usize),
    NameTooLong,
    TooManyArguments,
    File(usize, Error),
    StandardInput(Error),
    StandardOutput(Error),
}

impl Failure {
    // Says on standard error what failed, and why.
    fn tell(self, rt: &HostRuntime, buf: &mut Buffer) {
        match self {
            Failure::UnknownOption(at) => {
                complain(rt, b"unknown or second option: ", name_at(rt, at, buf))
            }
            Failure::NameTooLong => complain(rt, b"SHEET: ", b"File name too long"),
            Failure::TooManyArguments => {
                complain(
                    rt,
                    b"too many arguments: ",
                    b"splitsheet [--tables] [SHEET]",
                )
            }
            Failure::File(at, e) => complain_of(rt, name_at(rt, at, buf), e),
            Failure::StandardInput(e) => complain_of(rt, b"standard input", e),
            Failure::StandardOutput(e) => complain_of(rt, b"standard output", e),
        }
    }
}

// One line on standard error; nothing is left to do where it fails.
fn complain(rt: &HostRuntime, what: &[u8], with: &[u8]) {
    let err = rt.stderr();
    let _ = err.write_all(b"splitsheet: ");
    let _ = err.write_all(what);
    let _ = err.write_all(with);
    let _ = err.write_all(b"\n");
}

// The same, with what std says of an error, without the number behind it.
fn complain_of(rt: &HostRuntime, what: &[u8], e: Error) {
    let mut said = [0u8; ERROR_BYTES];
    let mut rest = &mut said[..];
    let _ = write!(rest, "{e}");
    let n = ERROR_BYTES.saturating_sub(rest.len());
    let said = from_utf8(&said[..n]).unwrap_or("");
    let err = rt.stderr();
    let _ = err.write_all(b"splitsheet: ");
    let _ = err.write_all(what);
    let _ = err.write_all(b": ");
    let _ = err.write_all(without_number(said).as_bytes());
    let _ = err.write_all(b"\n");
}

fn without_number(said: &str) -> &str {
    match said.split_once(" (os error ") {
        Some((words, _)) => words,
        None => said,
    }
}

// Whether the first argument asks for the tables.
fn tables_asked(rt: &impl Env) -> bool {
    let mut word = [0u8; 9];
    match rt.arg(1, &mut word) {
        Ok(n) => same(&word[..n], b"--tables"),
        Err(_) => false,
    }
}

// Whether there is an argument at a place, however long.
fn is_argument(rt: &impl Env, at: usize) -> bool {
    !matches!(rt.arg(at, &mut []), Err(FillError::NotPresent))
}

// Whether a word is an option: `-` alone is standard input.
fn is_option(word: &[u8]) -> bool {
    word.len() > 1 && word.starts_with(b"-")
}

// The argument at a place, which comes to the front of a buffer.
fn argument<'a>(rt: &impl Env, at: usize, buf: &'a mut Buffer) -> Result<&'a [u8], FillError> {
    let name = &mut buf[..NAME_BYTES];
    let n = rt.arg(at, name)?;
    Ok(&name[..n])
}

// One that was read before, once more; were it gone by then, it would be empty.
fn name_at<'a>(rt: &impl Env, at: usize, buf: &'a mut Buffer) -> &'a [u8] {
    argument(rt, at, buf).unwrap_or(b"")
}

// What is asked for. Not std's `args`: there one argument that is no UTF-8 fails them all.
fn read_arguments(rt: &impl Env, buf: &mut Buffer) -> Result<Asked, Failure> {
    let tables = tables_asked(rt);
    let at = if tables { 2 } else { 1 };
    let name = match argument(rt, at, buf) {
        Ok(name) => name,
        Err(FillError::NotPresent) => return Ok(Asked {
            tables,
            named: None,
        }),
        Err(FillError::TooLong) => return Err(Failure::NameTooLong),
    };
    if is_option(name) {
        return Err(Failure::UnknownOption(at));
    }
    if is_argument(rt, at + 1) {
        return Err(Failure::TooManyArguments);
    }
    let named = if same(name, b"-") { None } else { Some(at) };
    Ok(Asked { tables, named })
}

// Reads until the buffer is full or the input ends, and answers how many bytes were read. Not std's `take` and `read_to_end`: of a file
// they promise no bound.
fn read_text(from: &mut impl Read, buf: &mut [u8]) -> io::Result<usize>
    ensures { IfOk result (λ n. n ≤ length buf.new) }
{
    let mut done: usize = 0;
    while done < buf.len() {
        let n = from.read(&mut buf[done..])?;
        if n == 0 {
            break;
        }
        done += n;
    }
    Ok(done)
}

fn read_file(rt: &HostRuntime, at: usize, buf: &mut Buffer) -> io::Result<usize>
    ensures { IfOk result (λ n. n ≤ length buf.new) }
{
    let Ok(path) = from_utf8(name_at(rt, at, buf)) else {
        return Err(Error::from(ErrorKind::InvalidFilename));
    };
    let mut file = fs::open(rt, path)?;
    read_text(&mut file, buf)
}

// Reads the text that is asked for, and answers how many bytes it has.
fn read_asked(rt: &HostRuntime, named: Option<usize>, buf: &mut Buffer) -> Result<usize, Failure>
    ensures { IfOk result (λ n. n ≤ length buf.new) }
{
    match named {
        None => read_text(&mut rt.stdin(), buf).map_err(Failure::StandardInput),
        Some(at) => read_file(rt, at, buf).map_err(|e| Failure::File(at, e)),
    }
}

// Prints what a call has written to the front of a text. What a text has not, and what was not written, is an error.
fn print_written(rt: &impl Print, text: &[u8], w: Result<usize, NoRoom>) -> io::Result<()> {
    let Ok(n) = w else {
        return Err(Error::from(ErrorKind::WriteZero));
    };
    match text.get(..n) {
        Some(front) => rt.write_all(front),
        None => Err(Error::from(ErrorKind::WriteZero)),
    }
}

// Prints the answer to the text at the front of a buffer, which has room for every sheet's tables, and where they are asked for its tables.
fn print_answer(rt: &impl Print, buf: &mut Buffer, n: usize, tables: bool) -> io::Result<()>
    ensures room { table_bytes ≤ length buf.new }
{
    let mut out = [0u8; ANSWER_BYTES];
    let r = answer_in_place(buf, n, sheet_rooms(), &mut out);
    let answer = r.answer;
    print_written(rt, &out, answer)?;
    if !tables {
        return Ok(());
    }
    let rows = r.tables;
    print_written(rt, buf, rows)
}

fn run(rt: &HostRuntime, buf: &mut Buffer) -> Result<(), Failure> {
    let Asked { tables, named } = read_arguments(rt, buf)?;
    let n = read_asked(rt, named, buf)?;
    print_answer(rt, buf, n, tables).map_err(Failure::StandardOutput)
}

fn main(rt: HostRuntime) {
    let mut buf = [0u8; TEXT_BYTES];
    if let Err(failure) = run(&rt, &mut buf) {
        failure.tell(&rt, &mut buf);
    }
}
