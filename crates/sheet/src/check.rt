// The check of a whole text, line by line: refusals 14 and 15. Nothing is written.
ghost use Rattle.std.specs.Prelude.{◌≡◌, ◌*◌, ◌-◌, ◌<◌, ◌≤◌, length};
ghost use Rattle.sheet.specs.Refusal.{are_fields, is_line, open_kind, none_needed, is_in_order, is_complete, Checked};
ghost use Rattle.sheet.specs.Next.{next_at};

use crate::field::is_field;
use crate::kinds;

// The numbers of the two refusals: a line malformed or out of order, and one too many of its kind.
const BAD_LINE: u32 = 14;

const TOO_MANY: u32 = 15;

// Why a text is refused: the refusal's number, and the line, counted from 1. The number is no enum: it stands in the text of the answer.
#[derive(Clone, Copy, Debug, PartialEq, Eq)]
pub struct BadLine {
    pub number: u32,
    pub line: u32,
}

// Whether n fields stand at the front of a text.
fn are_fields(s: &[u8], n: usize) -> bool
    requires { 11 * n ≤ length s.now }
    ensures { result ≡ are_fields n s.now }
{
    for c in 0..n {
        let a = 11 * c;
        let e = a + 11;
        if !is_field(&s[a..e]) {
            return false;
        }
    }
    true
}

// Whether a text is a well-formed line of kind k.
fn is_line(s: &[u8], k: usize) -> bool
    ensures { result ≡ is_line k s.now }
{
    if k >= kinds::KINDS {
        return false;
    }
    let w = kinds::width_of(k);
    if s.len() != w {
        return false;
    }
    if s[0] != kinds::letter_of(k) {
        return false;
    }
    if s[w - 1] != b'\n' {
        return false;
    }
    are_fields(&s[1..], kinds::fields_of(k))
}

// The first kind that may stand next below n lines, the latest of kind m.
fn open_kind(n: usize, m: usize) -> usize
    ensures { result ≡ open_kind n m }
{
    if n == 0 {
        return 0;
    }
    if kinds::is_once(m) {
        return m + 1;
    }
    m
}

// Whether no line is needed of the kinds from `a` on that come before `b`.
fn none_needed(a: usize, b: usize) -> bool
    ensures { result ≡ none_needed a (b - a) }
{
    for k in a..b {
        if kinds::is_needed(k) {
            return false;
        }
    }
    true
}

// Whether a line of kind k may stand below n lines, the latest of kind m.
fn is_in_order(n: usize, m: usize, k: usize) -> bool
    ensures { result ≡ is_in_order n m k }
{
    let first = open_kind(n, m);
    if k < first {
        return false;
    }
    none_needed(first, k)
}

// Whether nothing is missing below n lines, the latest of kind m.
fn is_complete(n: usize, m: usize) -> bool
    ensures { result ≡ is_complete n m }
{
    none_needed(open_kind(n, m), kinds::KINDS)
}

// A line in order: its kind, and where it ends.
#[derive(Clone, Copy, Debug, PartialEq, Eq)]
struct Line {
    kind: usize,
    end: usize,
}

// The line at a place, where n lines stand above it, the latest of kind m; none if what stands there is no line in order.
fn next_line(text: &[u8], at: usize, n: usize, m: usize) -> Option<Line>
    requires { at < length text.now }
    ensures { result ≡ next_at text.now at n m }
{
    let kind = kinds::kind_of(text[at])?;
    let w = kinds::width_of(kind);
    if text.len() - at < w {
        return None;
    }
    let end = at + w;
    if !is_line(&text[at..end], kind) {
        return None;
    }
    if !is_in_order(n, m, kind) {
        return None;
    }
    Some(Line { kind, end })
}

// How many lines of each kind a text has, or why it is refused.
pub(crate) fn check_text(text: &[u8]) -> Result<[usize; kinds::KINDS], BadLine>
    ensures { Checked text.now result }
{
    let mut counts = [0usize; kinds::KINDS];
    let mut lines: u32 = 0;
    let mut latest: usize = 0;
    let mut at: usize = 0;
    // no count: each line says where the next one begins
    while at < text.len() {
        let Some(Line { kind, end }) = next_line(text, at, lines as usize, latest) else {
            return Err(BadLine {
                number: BAD_LINE,
                line: lines + 1,
            });
        };
        let rows = counts[kind];
        if rows >= kinds::limit_of(kind) {
            return Err(BadLine {
                number: TOO_MANY,
                line: lines + 1,
            });
        }
        counts[kind] = rows + 1;
        lines += 1;
        latest = kind;
        at = end;
    }
    if !is_complete(lines as usize, latest) {
        return Err(BadLine {
            number: BAD_LINE,
            line: lines + 1,
        });
    }
    Ok(counts)
}
