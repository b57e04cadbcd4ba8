// A field of 11 columns: a number right-justified, with no leading zeros.
ghost use Rattle.std.specs.Prelude.{◌≡◌, ◌+◌, ◌-◌, ◌≤◌, ◌<◌, length};
ghost use Rattle.std.specs.Str.{bytes_eq};
ghost use Rattle.std.proofs.lemmas.List.Edits.{sets};
ghost use Rattle.sheet.specs.Field.{digit_or_blank, field, value, is_field};

// The columns of a field.
const COLUMNS: usize = 11;

// What a byte counts as a digit; a blank and any byte below '0' count 0.
fn digit(c: u8) -> u64
    ensures { result ≡ c - 48 }
{
    u64::from(c.saturating_sub(b'0'))
}

// The number that a field's columns make. Not std's `parse`: a field has blanks in front.
pub(crate) fn value_of(s: &[u8]) -> u64
    requires { length s.now ≤ 11 }
    ensures { result ≡ value s.now }
{
    let mut n: u64 = 0;
    for c in s {
        n = n * 10 + digit(*c);
    }
    n
}

// The last digit of what is left of a number, or a blank where nothing is left.
fn digit_or_blank(n: u32) -> u8
    ensures { result ≡ digit_or_blank n }
{
    if n == 0 {
        return b' ';
    }
    b'0' + (n % 10) as u8
}

// Writes a number into the 11 columns from `at` on. Not by `write!`: the lent bytes are of a fixed length, and a field is filled from its end.
pub(crate) fn put_number(out: &mut [u8], at: usize, n: u32)
    requires { at + 11 ≤ length out.old }
    ensures { out.new ≡ sets out.old at (field n) }
{
    out[at + 10] = b'0' + (n % 10) as u8;
    let mut left = n / 10;
    for i in (0..10).rev() {
        out[at + i] = digit_or_blank(left);
        left /= 10;
    }
}

// Whether two texts are the same.
pub fn same(a: &[u8], b: &[u8]) -> bool
    ensures { result ≡ bytes_eq a.now b.now }
{
    a == b
}

// Whether a text is a field: it is held against the text of the number that it makes.
pub(crate) fn is_field(s: &[u8]) -> bool
    ensures { result ≡ is_field s.now }
{
    if s.len() != COLUMNS {
        return false;
    }
    let n = value_of(s);
    if n > 4294967295 {
        return false;
    }
    let mut text = [0u8; 11];
    put_number(&mut text, 0, n as u32);
    same(s, &text)
}
