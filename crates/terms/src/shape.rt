// The one shape of a term: letters in order, factors in order, at most 6 vector letters and 2 scalar letters.
ghost use Rattle.std.specs.Prelude.{◌≡◌, ◌&&◌, [], ◌∷◌, map, ◌+◌, ◌≤◌, length, take, leb};
ghost use Rattle.specification.specs.Lists.{all, ascend};
ghost use Rattle.specification.specs.Terms.{factor_in_shape, factor_not_after, part_in_shape, vector_letters_of, scalar_letters_of, term_in_shape};
ghost use Rattle.terms.specs.Numbers.{letters_of};
ghost use Rattle.terms.specs.Abstraction.{part_of, term_of};
ghost use Rattle.terms.specs.Used.{UsedBy};

use crate::factors::{factor_in_shape, letter_count};
use crate::types::Part;
use integers::{is_zero, within};

// How many letters factors use.
#[derive(Clone, Copy)]
pub struct Used {
    pub vectors: usize,
    pub scalars: usize,
}

// The letters of each of n factors are in order, and so are the factors.
fn factors_in_shape(f: &[u32; 7], n: u8) -> bool
    requires { (n ≤ 7) × (length f.now ≡ 7) }
    ensures { result ≡ (all factor_in_shape (map letters_of (take n f.now)) && ascend factor_not_after (map letters_of (take n f.now))) }
{
    let m = n as usize;
    let mut last: u32 = 0;
    for i in 0..m {
        let k = f[i];
        if k < last {
            return false;
        }
        if !factor_in_shape(k) {
            return false;
        }
        last = k;
    }
    true
}

// The vector letters of one factor.
fn vector_count(k: u32) -> usize
    ensures { (result ≡ vector_letters_of (letters_of k ∷ [])) × (result ≤ 3) }
{
    let n = letter_count(k);
    if n == 1 { 0 } else { n }
}

// The scalar letters of one factor.
fn scalar_count(k: u32) -> usize
    ensures { (result ≡ scalar_letters_of (letters_of k ∷ [])) × (result ≤ 1) }
{
    if letter_count(k) == 1 { 1 } else { 0 }
}

// The letters that n factors use, repeats counted.
pub fn letters_used(f: &[u32; 7], n: u8) -> Used
    requires { (n ≤ 7) × (length f.now ≡ 7) }
    ensures { UsedBy (map letters_of (take n f.now)) result }
{
    let m = n as usize;
    let mut vectors: usize = 0;
    let mut scalars: usize = 0;
    for i in 0..m {
        let k = f[i];
        vectors += vector_count(k);
        scalars += scalar_count(k);
    }
    Used { vectors, scalars }
}

// The letters of a vector part are in order.
fn part_in_shape(p: Part) -> bool
    ensures { result ≡ part_in_shape (part_of p) }
{
    match p {
        Part::Nothing => true,
        Part::Letter(_) => true,
        Part::Wedge(x, y) => x < y,
    }
}

// How many letters a vector part has.
pub fn part_letters(p: Part) -> usize
    ensures { result ≡ length (part_of p) }
{
    match p {
        Part::Nothing => 0,
        Part::Letter(_) => 1,
        Part::Wedge(_, _) => 2,
    }
}

// The letters of n factors and of a vector part are not too many.
fn letters_in_shape(f: &[u32; 7], n: u8, p: Part) -> bool
    requires { (n ≤ 7) × (length f.now ≡ 7) }
    ensures { result ≡ (leb (vector_letters_of (map letters_of (take n f.now)) + length (part_of p)) 6 && leb (scalar_letters_of (map letters_of (take n f.now))) 2) }
{
    let u = letters_used(f, n);
    if u.vectors + part_letters(p) > 6 {
        return false;
    }
    u.scalars <= 2
}

// A term of a coefficient, n factors and a vector part is in shape.
pub fn in_shape(c: i64, f: &[u32; 7], n: u8, p: Part) -> bool
    requires { (n ≤ 7) × (length f.now ≡ 7) }
    ensures { result ≡ term_in_shape (term_of (record { coef = c; factors = f.now; factor_count = n; part = p })) }
{
    if is_zero(c) {
        return false;
    }
    if !within(c) {
        return false;
    }
    if !factors_in_shape(f, n) {
        return false;
    }
    if !part_in_shape(p) {
        return false;
    }
    letters_in_shape(f, n, p)
}
