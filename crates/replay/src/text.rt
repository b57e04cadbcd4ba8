// Parts of a file's text. A part that lies past the end is empty.
ghost use Rattle.std.specs.Prelude.{◌≤◌, ◌<◌, length};

// What stands from a place on.
pub(crate) fn tail<T>(all: &[T], at: usize) -> &[T] {
    all.get(at..).unwrap_or(&[])
}

// The n bytes at a place, as far as the text goes.
pub(crate) fn part(text: &[u8], at: usize, n: usize) -> &[u8]
    ensures { length result.now ≤ n }
{
    let rest = tail(text, at);
    &rest[..n.min(rest.len())]
}

fn digit(b: u8) -> u64 {
    u64::from(b.saturating_sub(b'0'))
}

// The number in field c of a line, ten digits of it; 32 bits of a longer one. Not std's `parse`: what is no digit counts here too.
pub(crate) fn number(line: &[u8], c: usize) -> u32
    requires { c ≤ 6 }
{
    let columns = tail(line, 1 + 11 * c);
    let n = (0..11).fold(0, |n: u64, i| {
        n % 1000000000 * 10 + digit(columns.get(i).copied().unwrap_or(0)) % 10
    });
    (n % 4294967296) as u32
}

// The same for lengths and counts, which are below a million.
pub(crate) fn field(line: &[u8], c: usize) -> usize
    requires { c ≤ 6 }
    ensures { result < 1000000 }
{
    (number(line, c) % 1000000) as usize
}

// How many bytes stand in front of the line `=`; all, where there is none.
pub(crate) fn closed_at(text: &[u8]) -> usize
    ensures { result ≤ length text.now }
{
    if text.starts_with(b"=") {
        return 0;
    }
    match text.windows(2).position(|pair| pair == b"\n=".as_slice()) {
        Some(feed) => feed + 1,
        None => text.len(),
    }
}
