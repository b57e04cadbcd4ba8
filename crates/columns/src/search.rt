// Search by halves.
ghost use Rattle.std.specs.Prelude.{◌≡◌, cond, leb, ltb, length, get_or, ℕ, ◌≤◌};
ghost use Rattle.columns.specs.First.{FirstIn, Rising};

// 1 if n is below x, else 0, from the carry of a difference: a processor guesses a branch here wrong every other time. The carry is taken
// at bit 63, since a compiler makes a branch of one at bit 32.
fn below(n: u32, x: u32) -> usize
    ensures { result ≡ cond (ltb n x) 1 0 }
{
    ((x as u64 + 9223372036854775807 - n as u64) / 9223372036854775808) as usize
}

// The first place from lo on, before hi, whose number is at least x; hi if there is none. That is so if the column does not fall there;
// it is a place from lo to hi in any case.
pub fn first_at_least(col: &[u32], lo: usize, hi: usize, x: u32) -> usize
    requires { (lo ≤ hi) × (hi ≤ length col.now) }
    ensures { (lo ≤ result) × (result ≤ hi) ×
        (Rising col.now lo hi → FirstIn (λ (k : ℕ). leb x (get_or col.now k 0)) lo hi result) }
{
    if lo == hi {
        return hi;
    }
    let mut base = lo;
    let mut size = hi - lo;
    while size > 1 {
        let half = size / 2;
        base += half * below(col[base + half], x);
        size -= half;
    }
    base + below(col[base], x)
}

// The same, asked at both ends first: for a column whose first number is often at least x, or its last one below it.
pub fn first_from_ends(col: &[u32], lo: usize, hi: usize, x: u32) -> usize
    requires { (lo ≤ hi) × (hi ≤ length col.now) }
    ensures { (lo ≤ result) × (result ≤ hi) ×
        (Rising col.now lo hi → FirstIn (λ (k : ℕ). leb x (get_or col.now k 0)) lo hi result) }
{
    if lo == hi {
        return hi;
    }
    if col[lo] >= x {
        return lo;
    }
    if col[hi - 1] < x {
        return hi;
    }
    first_at_least(col, lo, hi, x)
}
