// Term records written into lent bytes.
#![tactic(auto)]

ghost use Rattle.std.specs.Prelude.{◌≡◌, ◌+◌, ◌≤◌, ◌<◌, length};
ghost use Rattle.specification.specs.Lists.{joined};
ghost use Rattle.specification.specs.Records.{factors_of, coef_field, count_field, part_bit, write_term};
ghost use Rattle.terms.specs.Numbers.{letters_of};
ghost use Rattle.terms.specs.Abstraction.{part_of, term_of, Counted};
ghost use Rattle.terms.specs.Valid.{TermValid};
ghost use Rattle.record_writing.specs.Written.{Written, FieldBit};

use integers::{is_one, write_four_bytes};
use terms::factors::{Factor, letter_count, letters_of};
use terms::types::{Part, Term};

// The letters of a factor.
fn write_letters(out: &mut [u8], at: usize, k: u32) -> usize
    requires { (k < 16843008) × (at + length (letters_of k) ≤ length out.old) }
    ensures { Written out.old out.new at result (letters_of k) }
{
    let f = letters_of(k);
    match f {
        Factor::Scalar(x) => {
            out[at] = x;
            at + 1
        }
        Factor::Dot(x, y) => {
            out[at] = x;
            out[at + 1] = y;
            at + 2
        }
        Factor::Triple(x, y, z) => {
            out[at] = x;
            out[at + 1] = y;
            out[at + 2] = z;
            at + 3
        }
    }
}

// How many factors of one number of letters a term has.
fn count_of_size(t: Term, size: usize) -> u8
    requires { Counted t }
    ensures { result ≡ length (factors_of size (term_of t)) }
{
    let n = t.factor_count as usize;
    let mut count: u8 = 0;
    for i in 0..n {
        if letter_count(t.factors[i]) == size {
            count += 1;
        }
    }
    count
}

// The letters of all factors of one number of letters.
fn write_joined(out: &mut [u8], at: usize, t: Term, size: usize) -> usize
    requires { Counted t × (at + length (joined (factors_of size (term_of t))) ≤ length out.old) }
    ensures { Written out.old out.new at result (joined (factors_of size (term_of t))) }
{
    let n = t.factor_count as usize;
    let mut next = at;
    for i in 0..n {
        let k = t.factors[i];
        if letter_count(k) == size {
            next = write_letters(out, next, k);
        }
    }
    next
}

// The count and the letters of all factors of one number of letters; nothing where there are none.
fn write_factors(out: &mut [u8], at: usize, t: Term, size: usize) -> usize
    requires { Counted t × (at + length (count_field (factors_of size (term_of t))) ≤ length out.old) }
    ensures { Written out.old out.new at result (count_field (factors_of size (term_of t))) }
{
    let count = count_of_size(t, size);
    if count == 0 {
        return at;
    }
    out[at] = count;
    write_joined(out, at + 1, t, size)
}

// The coefficient, left out where it is 1.
fn write_coef(out: &mut [u8], at: usize, t: Term) -> usize
    requires { TermValid t × (at + length (coef_field t.coef) ≤ length out.old) }
    ensures { Written out.old out.new at result (coef_field t.coef) }
{
    if is_one(t.coef) {
        return at;
    }
    write_four_bytes(out, at, t.coef);
    at + 4
}

// The letters of a vector part.
fn write_part(out: &mut [u8], at: usize, p: Part) -> usize
    requires { at + length (part_of p) ≤ length out.old }
    ensures { Written out.old out.new at result (part_of p) }
{
    match p {
        Part::Nothing => at,
        Part::Letter(x) => {
            out[at] = x;
            at + 1
        }
        Part::Wedge(x, y) => {
            out[at] = x;
            out[at + 1] = y;
            at + 2
        }
    }
}

// The bit of a field that was written between two positions.
fn field_bit(from: usize, to: usize, value: u8) -> u8
    ensures { FieldBit from to value result }
{
    if from < to { value } else { 0 }
}

// The bit of a vector part.
fn part_bit(p: Part) -> u8
    ensures { result ≡ part_bit (part_of p) }
{
    match p {
        Part::Nothing => 0,
        Part::Letter(_) => 16,
        Part::Wedge(_, _) => 32,
    }
}

// The record of a term: its fields, and in front of them the bit map of those that are there.
pub fn write_term(out: &mut [u8], at: usize, t: Term) -> usize
    requires { TermValid t × (at + 16 ≤ length out.old) }
    ensures { Written out.old out.new at result (write_term (term_of t)) }
{
    let p = t.part;
    let coef = at + 1;
    let scalars = write_coef(out, coef, t);
    let dots = write_factors(out, scalars, t, 1);
    let triples = write_factors(out, dots, t, 2);
    let part = write_factors(out, triples, t, 3);
    let end = write_part(out, part, p);
    out[at] = field_bit(coef, scalars, 1)
        + field_bit(scalars, dots, 2)
        + field_bit(dots, triples, 4)
        + field_bit(triples, part, 8)
        + part_bit(p);
    end
}
