// Assignments of signed bytes: the tests of 12, and the vector of a letter.
ghost use Rattle.std.specs.Prelude.{◌≡◌, true, ◌*◌, ◌≤◌, ◌<◌, length, get_or};
ghost use Rattle.specification.specs.Lists.{all, each};
ghost use Rattle.specification.specs.Evaluation.{signed_byte, six_or_less, rest_is_zero, good_assignment, assignment};
ghost use Rattle.evaluation.specs.Vectors.{vec_of};

use crate::vectors::Vector;
use letters::kind_of;

// The byte at a position, 0 behind the end.
fn byte(s: &[u8], i: usize) -> u8
    ensures { result ≡ get_or s.now i 0 }
{
    if i < s.len() {
        return s[i];
    }
    0
}

// A byte as a signed number.
fn signed(b: u8) -> i64
    ensures { result ≡ signed_byte b }
{
    i64::from(b.cast_signed())
}

// The signed number at a position.
pub fn component(s: &[u8], i: usize) -> i64
    ensures { result ≡ signed_byte (get_or s.now i 0) }
{
    signed(byte(s, i))
}

// The vector of a letter.
pub fn vector_of(s: &[u8], letter: u8) -> Vector
    ensures { vec_of result ≡ assignment s.now letter }
{
    let i = 3 * letter as usize;
    let x = component(s, i);
    let y = component(s, i + 1);
    let z = component(s, i + 2);
    Vector { x, y, z }
}

// A byte is from −6 to 6.
fn six_or_less(b: u8) -> bool
    ensures { result ≡ six_or_less b }
{
    if b <= 6 {
        return true;
    }
    b >= 250
}

// Every byte is from −6 to 6.
fn all_small(s: &[u8]) -> bool
    ensures { result ≡ all six_or_less s.now }
{
    for &b in s {
        if !six_or_less(b) {
            return false;
        }
    }
    true
}

// The second and third number of a letter are 0, or it is a vector.
fn rest_is_zero(table: &[u8], s: &[u8], n: usize) -> bool
    requires { (n < length table.now) × (length table.now ≤ 24) }
    ensures { result ≡ rest_is_zero table.now s.now n }
{
    if kind_of(table, n) == 1 {
        return true;
    }
    if byte(s, 3 * n + 1) != 0 {
        return false;
    }
    byte(s, 3 * n + 2) == 0
}

// The second and third number of every scalar letter are 0.
fn all_rest_zero(table: &[u8], s: &[u8]) -> bool
    requires { length table.now ≤ 24 }
    ensures { result ≡ each (length table.now) (rest_is_zero table.now s.now) }
{
    for n in 0..table.len() {
        if !rest_is_zero(table, s, n) {
            return false;
        }
    }
    true
}

// Bytes are an assignment of the letters of a table.
pub fn good_assignment(table: &[u8], s: &[u8]) -> bool
    requires { length table.now ≤ 24 }
    ensures { result ≡ good_assignment table.now s.now }
{
    if s.len() != 3 * table.len() {
        return false;
    }
    if !all_small(s) {
        return false;
    }
    all_rest_zero(table, s)
}
