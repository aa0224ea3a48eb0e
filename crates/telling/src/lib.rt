// Text told into lent bytes, a piece behind the other; where there is no room the position is beyond the end, and all that follows is passed over.
#![tactic(auto)]

ghost use Rattle.std.specs.Prelude.{◌<◌, ◌^◌, nat_abs, length, [], ◌∷◌};
ghost use Rattle.specification.specs.Commands.{numeral, signed_numeral, blanks};
ghost use Rattle.telling.specs.Told.{Tells};

use integers::{is_negative, size};

// Bytes behind those told so far.
pub fn put(out: &mut [u8], at: usize, word: &[u8]) -> usize
    ensures { Tells out.old out.new at result word.now }
{
    let n = out.len();
    if at > n {
        return at;
    }
    let m = word.len();
    if m > n - at {
        return n + 1;
    }
    out[at..at + m].copy_from_slice(word);
    at + m
}

// One byte.
pub fn put_byte(out: &mut [u8], at: usize, b: u8) -> usize
    ensures { Tells out.old out.new at result (b ∷ []) }
{
    put(out, at, &[b])
}

// So many blanks.
pub fn put_blanks(out: &mut [u8], at: usize, n: usize) -> usize
    ensures { Tells out.old out.new at result (blanks n) }
{
    let mut next = at;
    for _ in 0..n {
        next = put_byte(out, next, b' ');
    }
    next
}

// A number in decimal.
pub fn put_number(out: &mut [u8], at: usize, n: u64) -> usize
    ensures { Tells out.old out.new at result (numeral n) }
{
    if n < 10 {
        return put_byte(out, at, 48 + n as u8);
    }
    let next = put_number(out, at, n / 10);
    put_byte(out, next, 48 + (n % 10) as u8)
}

// A signed number in decimal.
pub fn put_signed(out: &mut [u8], at: usize, z: i64) -> usize
    requires { nat_abs z < 2 ^ 63 }
    ensures { Tells out.old out.new at result (signed_numeral z) }
{
    if is_negative(z) {
        let next = put_byte(out, at, b'-');
        return put_number(out, next, size(z));
    }
    put_number(out, at, size(z))
}
