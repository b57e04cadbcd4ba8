// replay FILE..: the proved code on recorded sheets, on jobs with longer tables and on block lists, held to the answers and tables that
// are recorded (data/README.md has the form of the files).
//
// Of each file it prints how many records agree, or calls for the lower-cost split point, where its records are block lists. A difference
// is named by its record, and by its line among the tables or its call; places count from 0.
#![tactic(auto)]

mod compare;
mod long;
mod points;
mod text;

ghost use Rattle.std.specs.Prelude.{◌≡◌, ◌≤◌, ◌<◌, length, IfOk};

use answers::answer::answer_sheet;
use answers::room::sheet_rooms;
use compare::Record;
use filling::lent::Rooms;
use long::replay_long;
use points::replay_list;
use std::env::{Env, FillError};
use std::io::Read;
use std::str::from_utf8;
use std::{fs, io};
use text::{closed_at, field, part, tail};

// Room for the largest file: no more of one is read.
pub(crate) const ROOM: usize = 1048576;

// How long a file's first line is, and lines n and b; line t; line s; and the line `=`.
const FIRST_LINE: usize = 13;

pub(crate) const HEAD_LINE: usize = 24;

const LENT_LINE: usize = 46;

const SHEET_LINE: usize = 79;

pub(crate) const END_LINE: usize = 2;

// What a record comes to: of how many answers, how many agree; and how many bytes it has, with its line `=`.
#[derive(Clone, Copy)]
pub(crate) struct Replayed {
    pub(crate) all: usize,
    pub(crate) agree: usize,
    pub(crate) bytes: usize,
}

// A line t has the rows of the tables that are lent; without one there is room for every sheet.
fn lent_by(line: &[u8]) -> Rooms {
    if !line.starts_with(b"t") {
        return sheet_rooms();
    }
    Rooms {
        uses: field(line, 0),
        gaps: field(line, 1),
        gap_segments: field(line, 2),
        links: field(line, 3),
    }
}

// How many bytes a line t or n takes in front of line s.
fn head_length(text: &[u8]) -> usize
    ensures { result ≤ 46 }
{
    match text.first() {
        Some(b't') => LENT_LINE,
        Some(b'n') => HEAD_LINE,
        _ => 0,
    }
}

// Whether a record agrees, given its first line. A line n says which table is lengthened, and to how many items.
fn record_agrees(
    rt: &(impl Print + AllocGlobal),
    line: &[u8],
    record: &Record<'_>,
) -> io::Result<bool> {
    if line.starts_with(b"n") {
        return replay_long(rt, record, field(line, 0), field(line, 1));
    }
    Ok(record.agrees(
        rt,
        |out, lines| answer_sheet(record.sheet, lent_by(line), out, lines),
    ))
}

// Replays the record of a job that a text begins with. Its line s has the lengths of the sheet and of the answer; the tables end before
// the line `=`.
fn replay_job(rt: &(impl Print + AllocGlobal), number: usize, text: &[u8]) -> io::Result<Replayed>
    ensures { IfOk result (λ job. (job.all ≡ 1) × (job.agree ≤ 1) × (0 < job.bytes) × (job.bytes ≤ 3000124)) }
{
    let head = head_length(text);
    let line = tail(text, head);
    let sheet = field(line, 0);
    let answer = field(line, 1);
    let body = tail(line, SHEET_LINE);
    let rest = tail(body, sheet + answer);
    let tables = closed_at(part(rest, 0, 999999));
    let record = Record {
        number,
        sheet: part(body, 0, sheet),
        answer: part(body, sheet, answer),
        tables: part(rest, 0, tables),
    };
    let agrees = record_agrees(rt, text, &record)?;
    Ok(Replayed {
        all: 1,
        agree: usize::from(agrees),
        bytes: head + SHEET_LINE + sheet + answer + tables + END_LINE,
    })
}

// Replays a file's records, each by its number and its place, and prints how many of what agree. Its first line has the number of records.
fn replay_records<F: Fn(usize, usize) -> io::Result<Replayed>>(
    rt: &impl Print,
    text: &[u8],
    what: &str,
    replay: F,
) -> io::Result<()>
    requires { F.IsAlwaysCallable replay }
{
    let records = field(text, 0);
    let mut all = 0usize;
    let mut agree = 0usize;
    let mut at = FIRST_LINE;
    for record in 0..records {
        if at >= text.len() {
            tell_broken(rt, record);
            return Ok(());
        }
        let r = replay(record, at)?;
        // no bound is known here of what a record counts, so the sums saturate
        all = all.saturating_add(r.all);
        agree = agree.saturating_add(r.agree);
        at = at.saturating_add(r.bytes);
    }
    if at != text.len() {
        tell_broken(rt, records);
        return Ok(());
    }
    let _ = println!(rt; "{agree} of {all} {what} agree");
    Ok(())
}

// Says that a file ends before its records do, or goes on behind them.
fn tell_broken(rt: &impl Print, record: usize) {
    let _ = println!(rt; "broken off at record {record}");
}

// Replays a file's text: block lists, or jobs.
fn replay_text(rt: &(impl Print + AllocGlobal), text: &[u8]) -> io::Result<()> {
    if tail(text, FIRST_LINE).starts_with(b"b") {
        return replay_records(
            rt,
            text,
            "calls",
            |record, at| replay_list(rt, record, tail(text, at), at),
        );
    }
    replay_records(
        rt,
        text,
        "records",
        |record, at| replay_job(rt, record, tail(text, at)),
    )
}

// Room for the largest file.
fn room(b: u8) -> [u8; ROOM]
    ensures { 1048576 ≡ length result }
{
    [b; ROOM]
}

// Reads until the buffer is full or the file ends, and answers how many bytes were read; a read that fails is the end. Not std's `take` and
// `read_to_end`: of a file they promise no bound, and memory that is refused would end a text too.
fn read_full(file: &mut impl Read, buf: &mut [u8]) -> usize
    ensures { result ≤ length buf.new }
{
    let mut done: usize = 0;
    while done < buf.len() {
        let Ok(n) = file.read(&mut buf[done..]) else {
            break;
        };
        if n == 0 {
            break;
        }
        done += n;
    }
    done
}

fn replay_path(rt: &HostRuntime, path: &[u8]) -> io::Result<()> {
    let _ = rt.write_all(path);
    let _ = print!(rt; ": ");
    let opened = from_utf8(path)
        .ok()
        .and_then(|name| fs::open(rt, name).ok());
    let Some(mut file) = opened else {
        let _ = println!(rt; "can't be opened");
        return Ok(());
    };
    let mut text = room(0);
    let n = read_full(&mut file, &mut text);
    replay_text(rt, &text[..n])
}

fn main(rt: HostRuntime) -> io::Result<()> {
    let mut path = [0u8; 4096];
    // not std's `args`: there one argument that is no UTF-8 fails them all
    for i in 1..usize::MAX {
        match rt.arg(i, &mut path) {
            Ok(n) => replay_path(&rt, &path[..n])?,
            // an argument longer than the buffer names nothing
            Err(FillError::TooLong) => replay_path(&rt, b"")?,
            Err(FillError::NotPresent) => break,
        }
    }
    Ok(())
}
