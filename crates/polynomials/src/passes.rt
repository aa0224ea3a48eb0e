// Passes over summands in lent bytes: like neighbours added with a number put for the lowest variable, and the variable itself.
ghost use Rattle.std.specs.Prelude.{◌≡◌, ◌^◌, ◌≤◌, ◌<◌, nat_abs, length, get_or, take};
ghost use Rattle.polynomials.specs.Keys.{exponent};
ghost use Rattle.polynomials.specs.Summands.{put_for, substituted, is_some};
ghost use Rattle.polynomials.specs.Memory.{none, summands};
ghost use Rattle.polynomials.specs.Passes.{loaded_of, Substitutable, Kept, Substituted, lesser_of, least_from};

use crate::memory::{coef_at, key_at, put};
use crate::variables::{cut_off, lowest_digit, power};
use integers::{add, is_zero, mul};

// A summand out of memory.
#[derive(Clone, Copy)]
struct Loaded {
    key: u64,
    coef: i64,
}

// The summand number i with v put for the variable of a digit.
fn substituted_at(work: &[u8], i: usize, d: u64, v: u64) -> Loaded
    requires { (i < length (summands work.now)) × (1 ≤ d) × (v ≤ 6) × (nat_abs (put_for d v (get_or (summands work.now) i none)).coef < 2 ^ 62) }
    ensures { loaded_of result ≡ put_for d v (get_or (summands work.now) i none) }
{
    let c = cut_off(key_at(work, i), d);
    let coef = mul(coef_at(work, i), power(v, c.exponent));
    Loaded { key: c.rest, coef }
}

// Whether a summand is left when v is put for the variable of a digit.
pub fn leaves(work: &[u8], n: usize, d: u64, v: u64) -> bool
    requires { (n ≤ length (summands work.now)) × Substitutable d v (take n (summands work.now)) }
    ensures { result ≡ is_some (substituted d v (take n (summands work.now))) }
{
    if n == 0 {
        return false;
    }
    let first = substituted_at(work, 0, d, v);
    let mut key = first.key;
    let mut coef = first.coef;
    for i in 1..n {
        let m = substituted_at(work, i, d, v);
        let c = m.coef;
        if m.key == key {
            coef = add(coef, c);
            continue;
        }
        if !is_zero(coef) {
            return true;
        }
        key = m.key;
        coef = c;
    }
    !is_zero(coef)
}

// Writes a summand behind the first j, unless its coefficient is 0.
fn keep(work: &mut [u8], j: usize, key: u64, coef: i64) -> usize
    requires { j < length (summands work.old) }
    ensures { Kept j key coef result (summands work.old) (summands work.new) }
{
    if is_zero(coef) {
        return j;
    }
    put(work, j, key, coef);
    j + 1
}

// Puts v for the variable of a digit in the first n summands and adds like neighbours; so many are left.
pub fn substitute(work: &mut [u8], n: usize, d: u64, v: u64) -> usize
    requires { (n ≤ length (summands work.old)) × Substitutable d v (take n (summands work.old)) }
    ensures { Substituted d v n result (summands work.old) (summands work.new) }
{
    if n == 0 {
        return 0;
    }
    let first = substituted_at(work, 0, d, v);
    let mut key = first.key;
    let mut coef = first.coef;
    let mut j: usize = 0;
    for i in 1..n {
        let m = substituted_at(work, i, d, v);
        let c = m.coef;
        if m.key == key {
            coef = add(coef, c);
            continue;
        }
        j = keep(work, j, key, coef);
        key = m.key;
        coef = c;
    }
    keep(work, j, key, coef)
}

// The lesser of two digits, where 0 is none.
fn lesser(a: u64, b: u64) -> u64
    ensures { result ≡ lesser_of a b }
{
    if a == 0 {
        return b;
    }
    if b == 0 {
        return a;
    }
    if a <= b { a } else { b }
}

// The least digit of the first n keys that is not 0, or 0.
pub fn least(work: &[u8], n: usize) -> u64
    requires { n ≤ length (summands work.now) }
    ensures { result ≡ least_from 0 (take n (summands work.now)) }
{
    let mut d: u64 = 0;
    for i in 0..n {
        d = lesser(d, lowest_digit(key_at(work, i)));
    }
    d
}
