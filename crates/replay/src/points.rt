// Recorded calls for the lower-cost split point: a block list, and what each call on it is answered.
ghost use Rattle.std.specs.Prelude.{◌≤◌, ◌<◌, ◌+◌, IfOk};

use crate::compare::tell;
use crate::text::{field, number, tail};
use crate::{END_LINE, HEAD_LINE, ROOM, Replayed};
use links::split::find_optimal_split_point;
use numbers::Inst;
use std::alloc::{AllocError, Global};
use std::io;

// The longest block list that is recorded has 10 blocks.
const BLOCKS: usize = 16;

// How long a line B is.
const BLOCK_LINE: usize = 35;

// A block list as columns.
#[derive(Drop)]
struct Blocks {
    freq: Vec<u32>,
    first: Vec<u32>,
    end: Vec<u32>,
}

// A field of each of the first n lines B, which stand one behind the other.
fn column(alloc: Global, lines: &[u8], n: usize, c: usize) -> Result<Vec<u32>, AllocError>
    requires { c ≤ 2 }
{
    lines
        .chunks(BLOCK_LINE)
        .take(n)
        .map(|line| number(line, c))
        .collect(alloc)
}

impl Blocks {
    // The list of the first n lines B.
    fn read(alloc: Global, lines: &[u8], n: usize) -> Result<Blocks, AllocError> {
        Ok(Blocks {
            freq: column(alloc, lines, n, 0)?,
            first: column(alloc, lines, n, 1)?,
            end: column(alloc, lines, n, 2)?,
        })
    }

    // Whether the call in a line is answered as recorded: a line p has the point, a line x the refusal's number and place.
    fn call_agrees(&self, line: &[u8]) -> bool {
        let found = find_optimal_split_point(
            &self.freq,
            &self.first,
            &self.end,
            Inst(number(line, 0)),
            Inst(number(line, 1)),
            number(line, 2) == 1,
        );
        match found {
            Ok(point) => line.starts_with(b"p") && point.0 == number(line, 3),
            Err(r) => {
                line.starts_with(b"x") && r.number == number(line, 3) && r.place == number(line, 4)
            }
        }
    }
}

// How long a call's line is.
fn call_width(line: &[u8]) -> usize
    ensures { result ≤ 57 }
{
    if line.starts_with(b"x") { 57 } else { 46 }
}

// Replays the block list that a text begins with, which stands at a place of its file. Its calls stand one behind the other.
pub(crate) fn replay_list(
    rt: &(impl Print + AllocGlobal),
    record: usize,
    text: &[u8],
    at: usize,
) -> io::Result<Replayed>
    ensures { IfOk result (λ made. (made.all < 1000000) × (made.agree < 1000000)
        × (at ≤ 1048576 → at + made.bytes ≤ 1100002)) }
{
    let blocks = field(text, 0);
    let calls = field(text, 1);
    // what has too many blocks goes on past the end
    if blocks > BLOCKS {
        return Ok(Replayed {
            all: 0,
            agree: 0,
            bytes: ROOM.saturating_sub(at) + 1,
        });
    }
    let list = Blocks::read(rt.alloc(), tail(text, HEAD_LINE), blocks)?;
    let mut made = Replayed {
        all: 0,
        agree: 0,
        bytes: HEAD_LINE + BLOCK_LINE * blocks,
    };
    for call in 0..calls {
        // past the text's end calls differ, as far as there is room for a text
        if made.bytes > ROOM.saturating_sub(at) {
            break;
        }
        let line = tail(text, made.bytes);
        if list.call_agrees(line) {
            made.agree += 1;
        } else {
            tell(rt, record);
            let _ = println!(rt; "call {call} differs");
        }
        made.all += 1;
        made.bytes += call_width(line);
    }
    made.bytes += END_LINE;
    Ok(made)
}
