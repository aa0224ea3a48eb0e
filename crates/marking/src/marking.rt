// The marks of letters, factors and terms: what the field calls hashes, numbers that depend on no order of letters and factors.
// A term whose mark no other has is like none of them.
ghost use Rattle.std.specs.Prelude.{◌≡◌, map, ℕ, ◌≤◌, ◌<◌, nat_abs, length, take};
ghost use Rattle.theory.specs.Elements.{All};
ghost use Rattle.terms.specs.Numbers.{letters_of};
ghost use Rattle.terms.specs.Abstraction.{part_of, term_of, Counted};
ghost use Rattle.rows.specs.Rows.{run_of, Run, Light};
ghost use Rattle.marking.specs.Marks.{letter_mark, letters_mark, factors_mark, mark_of, size_mark, Joint, Covering};

use integers::size;
use rows::term_of;
use terms::factors::{Factor, letters_of};
use terms::types::{Part, Term};

// The mark of a letter.
pub fn letter_mark(x: u32) -> u64
    ensures { (result ≡ letter_mark x) × (result ≤ 250) }
{
    (x as u64 * 42533 + 44591) % 65536 % 251
}

// The mark of a factor.
fn factor_mark(k: u32) -> u64
    requires { k < 16843008 }
    ensures { (result ≡ letters_mark (letters_of k)) × (result ≤ 15625000) }
{
    let f = letters_of(k);
    match f {
        Factor::Scalar(x) => letter_mark(x as u32),
        Factor::Dot(x, y) => {
            let a = letter_mark(x as u32);
            let b = letter_mark(y as u32);
            a * b
        }
        Factor::Triple(x, y, z) => {
            let a = letter_mark(x as u32);
            let b = letter_mark(y as u32);
            let c = letter_mark(z as u32);
            a * b * c
        }
    }
}

// The mark of n factors.
pub fn factors_mark(f: &[u32; 7], n: u8) -> u64
    requires { (n ≤ 7) × (length f.now ≡ 7) × All (λ (k : ℕ). k < 16843008) (take n f.now) }
    ensures { (result ≡ factors_mark (map letters_of (take n f.now))) × (result ≤ 109375000) }
{
    let mut a: u64 = 0;
    for i in (0..n as usize).rev() {
        a = factor_mark(f[i]) + a;
    }
    a
}

// The mark of a vector part.
pub fn part_mark(p: Part) -> u64
    ensures { (result ≡ letters_mark (part_of p)) × (result ≤ 62500) }
{
    match p {
        Part::Nothing => 1,
        Part::Letter(x) => letter_mark(x as u32),
        Part::Wedge(x, y) => {
            let a = letter_mark(x as u32);
            let b = letter_mark(y as u32);
            a * b
        }
    }
}

// The mark of a term.
pub fn term_mark(t: Term) -> usize
    requires { Counted t }
    ensures { (result ≡ mark_of (term_of t)) × (result < 509) }
{
    let p = t.part;
    let n = t.factor_count;
    let a = factors_mark(&t.factors, n);
    let b = part_mark(p);
    ((a + 3 * b) % 509) as usize
}

// The mark of a coefficient, by its size alone.
pub fn size_mark(c: i64) -> u8
    requires { nat_abs c ≤ 2147483647 }
    ensures { result ≡ size_mark c }
{
    (size(c) % 253 + 1) as u8
}

// What stands at a mark after one more term of a size: 255 where there were terms of another.
fn joint_mark(w: u8, v: u8) -> u8
    ensures { Joint w v result }
{
    if w == 0 {
        return v;
    }
    if w == v {
        return v;
    }
    255
}

// The size of each of n terms in rows at its mark, 0 elsewhere.
pub fn mark_rows(rows: &[[u32; 8]], coefs: &[i64], n: usize) -> [u8; 512]
    requires { Run n rows.now coefs.now × Light 2147483647 n coefs.now }
    ensures covering { Covering result (run_of n rows.now coefs.now) }
    ensures long { length result ≡ 512 }
{
    let mut marks = [0u8; 512];
    for i in 0..n {
        let r = rows[i];
        let c = coefs[i];
        let t = term_of(r, c);
        let h = term_mark(t);
        let v = size_mark(c);
        marks[h] = joint_mark(marks[h], v);
    }
    marks
}
