// One of two values, for tests whose outcome comes in no order that a processor could guess: a compiler can do without a branch here, where
// it has to make one of an `if` around more code.
ghost use Rattle.std.specs.Prelude.{◌≡◌, cond};

pub fn picked<T: Copy>(first: bool, a: T, b: T) -> T
    ensures { result ≡ cond first a b }
{
    if first { a } else { b }
}
