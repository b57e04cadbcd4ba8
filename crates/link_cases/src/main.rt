// Document 01's case K: the lower links of frequencies 4, 2, 2 and 1, next and then previous; then the early and the late split
// points of those blocks between any two instructions, a line for each `after`, with a refusal's number in brackets; then other lists.
#![tactic(auto)]

use links::blocks::Refusal;
use links::{lower, split};
use numbers::Inst;
use std::io;

// A block list as three columns: each block's frequency, first instruction and end.
#[derive(Clone, Copy)]
struct Blocks<'a> {
    freq: &'a [u32],
    first: &'a [u32],
    end: &'a [u32],
}

impl<'a> Blocks<'a> {
    // The split points of the list: a line for each `after`, a point for each `before`.
    fn print_points(&self, rt: &impl Print, prefer_early: bool) -> io::Result<()> {
        for after in 0..11 {
            for before in 0..12 {
                print_point(
                    rt,
                    split::find_optimal_split_point(
                        self.freq,
                        self.first,
                        self.end,
                        Inst(after),
                        Inst(before),
                        prefer_early,
                    ),
                )?;
            }
            println!(rt; "")?;
        }
        Ok(())
    }
}

fn print_links(rt: &impl Print, column: &[u32]) -> io::Result<()> {
    for link in column {
        print!(rt; " {link}")?;
    }
    println!(rt; "")
}

fn print_point(rt: &impl Print, p: Result<Inst, Refusal>) -> io::Result<()> {
    match p {
        Ok(i) => print!(rt; " {}", i.0),
        Err(r) => print!(rt; " ({})", r.number),
    }
}

fn main(rt: HostRuntime) -> io::Result<()> {
    let freq = [1082130432u32, 1073741824, 1073741824, 1065353216];
    let first = [0u32, 2, 5, 6];
    let end = [2u32, 5, 6, 10];
    // the last row is no block's, and stays as it is
    let mut prev = [7u32; 5];
    let mut next = [7u32; 5];
    lower::prepare(&freq, &mut prev, &mut next);
    print_links(&rt, &next)?;
    print_links(&rt, &prev)?;
    let blocks = Blocks {
        freq: &freq,
        first: &first,
        end: &end,
    };
    blocks.print_points(&rt, true)?;
    blocks.print_points(&rt, false)?;
    // the same blocks with frequencies 1, 2, 2, 4: late split points have links to follow
    let rising = Blocks {
        freq: &[1065353216u32, 1073741824, 1073741824, 1082130432],
        ..blocks
    };
    rising.print_points(&rt, true)?;
    rising.print_points(&rt, false)?;
    // no block, and a hole
    let none = Blocks {
        freq: &[],
        first: &[],
        end: &[],
    };
    none.print_points(&rt, true)?;
    let hole = Blocks {
        first: &[0u32, 2, 4, 6],
        ..blocks
    };
    hole.print_points(&rt, true)
}
