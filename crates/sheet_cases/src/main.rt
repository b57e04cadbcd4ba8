// Runs the sheets that standard input holds, and prints what each comes to: the refusal's line, or S, the counts and a sum
// of the cells. Then too few cells, a line of a megabyte, and answers. gen.py writes the input and what is to be printed.
// A sheet is a list of pieces: how often and how long, in six digits each, a line feed, the bytes; 0 times ends it.
#![tactic(auto)]

ghost use Rattle.std.specs.Prelude.{◌≤◌, ◌<◌, length, vec_len, IfOk};

use sheet::kinds::KINDS;
use sheet::{Answer, BadLine, CELLS, Figures, ReadError};
use std::alloc::Global;
use std::io;
use std::io::{BufWriter, Read, Write};

// More cells than a sheet needs, and fewer.
const MORE: usize = CELLS + 99;

const FEWER: usize = CELLS - 1;

// How much of the input is read, and how long a text may grow.
const INPUT_BYTES: usize = 131072;

const TEXT_BYTES: usize = 65536;

// The sums of cells are taken modulo this prime.
const PRIME: u64 = 4294967291;

// A sum of all cells that tells their places apart.
fn print_sum(to: &mut impl Write, cells: &[u32]) -> io::Result<()> {
    let sum = cells.iter().fold(0, |sum: u64, cell| {
        (sum % PRIME * 31 + u64::from(*cell)) % PRIME
    });
    write!(to, "{sum}")
}

fn print_answer(to: &mut impl Write, a: Answer) -> io::Result<()> {
    let mut out = [b'.'; 90];
    match sheet::write_answer(&mut out, a) {
        Ok(n) => {
            writeln!(to, "{n}")?;
            to.write_all(&out)?;
        }
        Err(_) => {
            to.write_all(b"no room")?;
        }
    }
    to.write_all(b"\n")
}

fn print_refusal(to: &mut impl Write, n: u32, line: u32) -> io::Result<()> {
    let mut out = [0u8; 24];
    match sheet::write_answer(&mut out, Answer::Refused(n, line)) {
        Ok(_) => to.write_all(&out),
        Err(_) => to.write_all(b"no room\n"),
    }
}

fn print_counts(to: &mut impl Write, counts: &[usize; KINDS]) -> io::Result<()> {
    to.write_all(b"S")?;
    for count in counts {
        write!(to, " {count}")?;
    }
    to.write_all(b" ")
}

// Reads a text into the lent cells.
fn report(to: &mut impl Write, text: &[u8], cells: &mut [u32]) -> io::Result<()> {
    match sheet::read_sheet(text, cells) {
        Ok(counts) => {
            print_counts(to, &counts)?;
            print_sum(to, cells)?;
            to.write_all(b"\n")
        }
        Err(ReadError::Refused(BadLine { number, line })) => print_refusal(to, number, line),
        Err(ReadError::NoRoom) => to.write_all(b"too few cells\n"),
    }
}

fn show(to: &mut impl Write, text: &[u8]) -> io::Result<()> {
    let mut cells = [7u32; MORE];
    report(to, text, &mut cells)
}

fn digit(b: u8) -> usize {
    usize::from(b.saturating_sub(b'0'))
}

// The number that digits make, the last six of them. Not std's `parse`: what is no digit counts here too, and the next piece is still found.
fn number(digits: &[u8]) -> usize
    ensures { result < 1000000 }
{
    let mut n = 0;
    for b in digits {
        n = n % 100000 * 10 + digit(*b) % 10;
    }
    n
}

// Appends a piece so many times, as far as there is room.
fn repeat(text: &mut Vec<u8>, piece: &[u8], times: usize) -> io::Result<()>
    ensures { vec_len text.old ≤ 65536 → vec_len text.new ≤ 65536 }
{
    for _ in 0..times {
        let room = TEXT_BYTES.saturating_sub(text.len());
        let n = piece.len().min(room);
        // no later turn appends any more
        if n == 0 {
            break;
        }
        text.extend_from_slice(&piece[..n])?;
    }
    Ok(())
}

// Shows each text of the input; a piece that is not whole ends it.
fn run(to: &mut impl Write, alloc: Global, input: &[u8]) -> io::Result<()> {
    let mut text = Vec::new(alloc);
    let mut rest = input;
    while let Some((head, body)) = rest.split_at_checked(13) {
        let times = number(&head[..6]);
        let size = number(&head[6..12]);
        let Some((piece, behind)) = body.split_at_checked(size) else {
            break;
        };
        if times == 0 {
            show(to, &text)?;
            text.clear();
        } else {
            repeat(&mut text, piece, times)?;
        }
        rest = behind;
    }
    Ok(())
}

fn answers(to: &mut impl Write) -> io::Result<()> {
    print_answer(
        to,
        Answer::Proposal(Figures {
            left: None,
            right: None,
            use_weight: 1073741824,
            live_insts: 4,
            interference_weight: 0,
            split_cost: 0,
            thousandths: 500,
        }),
    )?;
    print_answer(
        to,
        Answer::Proposal(Figures {
            left: Some(0),
            right: Some(4294967295),
            use_weight: 4294967295,
            live_insts: 10,
            interference_weight: 99,
            split_cost: 100,
            thousandths: 999999999,
        }),
    )?;
    print_answer(to, Answer::NoneOf(2))?;
    print_answer(to, Answer::Refused(5, 1000000000))?;
    let mut out = [b'.'; 12];
    print_short(to, &mut out)?;
    to.write_all(b"\n")
}

// A buffer that is too short for the answer is left as it was.
fn print_short(to: &mut impl Write, out: &mut [u8]) -> io::Result<()> {
    match sheet::write_answer(out, Answer::NoneOf(1)) {
        Ok(_) => {
            to.write_all(b"bytes\n")?;
        }
        Err(_) => {
            to.write_all(b"no room\n")?;
        }
    }
    to.write_all(out)
}

// A line of a megabyte, and a megabyte of line feeds.
fn long(to: &mut impl Write, alloc: Global) -> io::Result<()> {
    let spaces = vec![in alloc; b' '; 1048576]?;
    show(to, &spaces)?;
    let feeds = vec![in alloc; b'\n'; 1048576]?;
    show(to, &feeds)
}

// An empty text, with enough cells and with one too few.
fn empty(to: &mut impl Write) -> io::Result<()> {
    let mut cells = [7u32; CELLS];
    report(to, b"", &mut cells)?;
    let mut few = [7u32; FEWER];
    report(to, b"", &mut few)
}

// Reads until the buffer is full or the input ends, and answers how many bytes were read. Not std's `take` and `read_to_end`: of standard
// input they promise no bound.
fn read_full(from: &mut impl Read, buf: &mut [u8]) -> io::Result<usize>
    ensures { IfOk result (λ n. n ≤ length buf.new) }
{
    let mut done: usize = 0;
    while done < buf.len() {
        let n = from.read(&mut buf[done..])?;
        if n == 0 {
            break;
        }
        done += n;
    }
    Ok(done)
}

fn main(rt: HostRuntime) -> io::Result<()> {
    let mut input = [0u8; INPUT_BYTES];
    let n = read_full(&mut rt.reader(), &mut input)?;
    let mut to = BufWriter::new(rt.alloc(), io::writer(&rt))?;
    run(&mut to, rt.alloc(), &input[..n])?;
    empty(&mut to)?;
    long(&mut to, rt.alloc())?;
    answers(&mut to)?;
    to.flush()
}
