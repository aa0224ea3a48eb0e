// Term records read: any bytes whatsoever, from any position.
ghost use Rattle.std.specs.Prelude.{◌≡◌, ◌&&◌, [], ◌+◌, ◌*◌, ◌/◌, ◌%◌, ◌≤◌, ◌<◌, ltb, leb, eqb, length, get_or, take, drop};
ghost use Rattle.specification.specs.Results.{refused, given};
ghost use Rattle.specification.specs.Terms.{plus};
ghost use Rattle.specification.specs.Records.{factors_at, good_bits, part_letters, read_term_at};
ghost use Rattle.terms.specs.Numbers.{FactorNumber};
ghost use Rattle.terms.specs.Abstraction.{part_of, Counted};
ghost use Rattle.records.specs.Reading.{listed, factors_step, rest_of, read_fields, CoefRead, Stepped, TermRead};
ghost use Rattle.terms.specs.Build.{Appended};

use integers::{four_bytes_at, is_one};
use refusal::Refusal;
use terms::factors::{dot_number, scalar_number, triple_number};
use terms::shape::in_shape;
use terms::types::{Part, Term};

// The fields of a term read so far, its factors beside them: the position behind what was read, the coefficient and the count of factors.
#[derive(Clone, Copy)]
pub struct Fields {
    pub next: usize,
    pub coef: i64,
    pub count: u8,
}

// Whether n bytes stand at a position.
pub fn room(s: &[u8], at: usize, n: usize) -> bool
    ensures { result ≡ leb (at + n) (length s.now) }
{
    if s.len() < n {
        return false;
    }
    at <= s.len() - n
}

// The coefficient, if its bit stands, before any factor.
fn read_coef(s: &[u8], at: usize, there: bool) -> Result<Fields, Refusal>
    ensures { CoefRead there s.now at result }
{
    if !there {
        return Ok(Fields {
            next: at,
            coef: 1,
            count: 0,
        });
    }
    if !room(s, at, 4) {
        return Err(Refusal::WrongShape);
    }
    let coef = four_bytes_at(s, at);
    if is_one(coef) {
        return Err(Refusal::WrongShape);
    }
    Ok(Fields {
        next: at + 4,
        coef,
        count: 0,
    })
}

// The factor of so many letters at a position.
fn factor_at(s: &[u8], at: usize, size: usize) -> u32
    requires { (1 ≤ size) × (size ≤ 3) × (at + size ≤ length s.now) }
    ensures { FactorNumber (take size (drop at s.now)) result }
{
    let x = s[at];
    if size == 1 {
        return scalar_number(x);
    }
    let y = s[at + 1];
    if size == 2 {
        return dot_number(x, y);
    }
    let z = s[at + 2];
    triple_number(x, y, z)
}

// So many factors of so many letters behind the first n.
fn append_factors(s: &[u8], at: usize, count: usize, size: usize, f: &mut [u32; 7], n: usize)
    requires { Counted (listed n f.old) × (n + count ≤ 7) × (1 ≤ size) × (size ≤ 3) × (at + count * size ≤ length s.now) × (length f.old ≡ 7) }
    ensures { Appended (factors_at count size s.now at) count (listed n f.old) (listed (n + count) f.new) × (length f.new ≡ 7) }
{
    let mut next = at;
    for i in 0..count {
        f[n + i] = factor_at(s, next, size);
        next += size;
    }
}

// Whether a count from 1 to most stands at a position, and its factors behind it.
fn factors_stand(s: &[u8], at: usize, most: usize, size: usize) -> bool
    requires { size ≤ 3 }
    ensures { result ≡ (ltb at (length s.now) && ((leb 1 (get_or s.now at 0) && leb (get_or s.now at 0) most) && leb (at + 1 + get_or s.now at 0 * size) (length s.now))) }
{
    if at >= s.len() {
        return false;
    }
    let n = s[at] as usize;
    if n < 1 {
        return false;
    }
    if n > most {
        return false;
    }
    room(s, at + 1, n * size)
}

// The factors of so many letters, at most so many, if their bit stands.
fn read_factors(
    s: &[u8],
    f: &mut [u32; 7],
    r: Fields,
    there: bool,
    most: usize,
    size: usize,
) -> Result<Fields, Refusal>
    requires { Counted (listed r.count f.old) × (r.count + most ≤ 7) × (1 ≤ size) × (size ≤ 3) × (length f.old ≡ 7) }
    ensures { Stepped (factors_step there most size s.now) most r f.old result f.new × (length f.new ≡ 7) }
{
    if !there {
        return Ok(r);
    }
    let at = r.next;
    if !factors_stand(s, at, most, size) {
        return Err(Refusal::WrongShape);
    }
    let more = s[at];
    let n = more as usize;
    append_factors(s, at + 1, n, size, f, r.count as usize);
    Ok(Fields {
        next: at + 1 + n * size,
        coef: r.coef,
        count: r.count + more,
    })
}

// The vector part of so many letters at a position.
fn part_at(s: &[u8], at: usize, n: usize) -> Part
    requires { (n ≤ 2) × (at + n ≤ length s.now) }
    ensures { part_of result ≡ take n (drop at s.now) }
{
    if n == 0 {
        return Part::Nothing;
    }
    let x = s[at];
    if n == 1 {
        return Part::Letter(x);
    }
    let y = s[at + 1];
    Part::Wedge(x, y)
}

// The vector part of so many letters behind the factors, and the shape of the whole term.
fn read_rest(s: &[u8], f: &[u32; 7], r: Fields, n: usize) -> Result<(Term, usize), Refusal>
    requires { Counted (listed r.count f.now) × (n ≤ 2) × (length f.now ≡ 7) }
    ensures { TermRead (rest_of n s.now r f.now) result }
{
    let at = r.next;
    if !room(s, at, n) {
        return Err(Refusal::WrongShape);
    }
    let part = part_at(s, at, n);
    if !in_shape(r.coef, f, r.count, part) {
        return Err(Refusal::WrongShape);
    }
    let t = Term {
        coef: r.coef,
        factors: *f,
        factor_count: r.count,
        part,
    };
    Ok((t, at + n))
}

// Whether the bit of a value stands in a bit map.
fn bit_stands(m: u8, value: u8) -> bool
    requires { 1 ≤ value }
    ensures { result ≡ eqb (m / value % 2) 1 }
{
    m / value % 2 == 1
}

// How many letters the vector part has.
fn part_size(m: u8) -> usize
    ensures { (result ≡ part_letters m) × (result ≤ 2) }
{
    if bit_stands(m, 16) {
        return 1;
    }
    if bit_stands(m, 32) {
        return 2;
    }
    0
}

// A bit map that a term can have.
fn bits_fit(m: u8) -> bool
    ensures { result ≡ good_bits m }
{
    if m >= 64 {
        return false;
    }
    if bit_stands(m, 16) {
        return !bit_stands(m, 32);
    }
    true
}

// The fields behind a bit map.
fn read_fields(s: &[u8], at: usize, m: u8) -> Result<(Term, usize), Refusal>
    ensures { TermRead (read_fields m s.now at) result }
{
    let mut f = [0u32; 7];
    let coef = read_coef(s, at, bit_stands(m, 1))?;
    let scalars = read_factors(s, &mut f, coef, bit_stands(m, 2), 2, 1)?;
    let dots = read_factors(s, &mut f, scalars, bit_stands(m, 4), 3, 2)?;
    let triples = read_factors(s, &mut f, dots, bit_stands(m, 8), 2, 3)?;
    read_rest(s, &f, triples, part_size(m))
}

// The term record at a position, and the position behind it.
pub fn read_term(s: &[u8], at: usize) -> Result<(Term, usize), Refusal>
    ensures { TermRead (read_term_at s.now at) result }
{
    if at >= s.len() {
        return Err(Refusal::WrongShape);
    }
    let m = s[at];
    if !bits_fit(m) {
        return Err(Refusal::WrongShape);
    }
    read_fields(s, at + 1, m)
}
