// Terms expanded into summands in lent bytes, factor by factor.
ghost use Rattle.std.specs.Prelude.{◌≡◌, ◌+◌, ◌*◌, ◌<◌, length, get_or, set};
ghost use Rattle.terms.specs.Numbers.{letters_of};
ghost use Rattle.terms.specs.Abstraction.{part_of, term_of};
ghost use Rattle.polynomials.specs.Memory.{none, summands};
ghost use Rattle.polynomials.specs.Expansion.{digit_of, piece_sign, cross_piece, piece_at, count_of, block_of, part_block, times_piece, PieceFit, Spreading, Spread, SmallBlock, Multiplying, Multiplied, Factorable, Factored, Expandable, Expanded, expand_term};

use crate::memory::{coef_at, key_at, put};
use crate::variables::times;
use integers::mul;
use terms::factors::{Factor, letters_of};
use terms::types::{Part, Term};

// A product of three variables by their digits, 0 for none, with a sign.
#[derive(Clone, Copy)]
pub struct Piece {
    pub a: u64,
    pub b: u64,
    pub c: u64,
    pub sign: i64,
}

// A polynomial that a term is a product of: nothing, 1, a component of a letter, a dot, a triple, a component of a wedge.
#[derive(Clone, Copy)]
pub enum Block {
    Zero,
    One,
    Single(u8, u8),
    Dot(u8, u8),
    Triple(u8, u8, u8),
    Cross(u8, u8, u8),
}

// The digit of a component of a letter.
fn digit(letter: u8, i: usize) -> u64
    requires { i < 3 }
    ensures { result ≡ digit_of letter i }
{
    3 * letter as u64 + i as u64 + 1
}

// The sign of the first or the second product of a wedge's component.
fn piece_sign(o: usize) -> i64
    ensures { result ≡ piece_sign o }
{
    if o == 0 { 1 } else { -1 }
}

// The first or the second product of the component i of a wedge, times a third variable.
fn cross_piece(l: u8, m: u8, i: usize, o: usize, c: u64) -> Piece
    requires { (i < 3) × (o < 2) }
    ensures { result ≡ cross_piece l m i o c }
{
    let a = digit(l, (i + 1 + o) % 3);
    let b = digit(m, (i + 2 + 2 * o) % 3);
    let sign = piece_sign(o);
    Piece { a, b, c, sign }
}

// The product number j of a polynomial.
fn piece_at(f: Block, j: usize) -> Piece
    requires { (j < count_of f) × SmallBlock f }
    ensures { result ≡ piece_at f j }
{
    match f {
        Block::Zero => Piece {
            a: 0,
            b: 0,
            c: 0,
            sign: 1,
        },
        Block::One => Piece {
            a: 0,
            b: 0,
            c: 0,
            sign: 1,
        },
        Block::Single(l, i) => {
            let a = digit(l, i as usize);
            Piece {
                a,
                b: 0,
                c: 0,
                sign: 1,
            }
        }
        Block::Dot(l, m) => {
            let a = digit(l, j);
            let b = digit(m, j);
            Piece {
                a,
                b,
                c: 0,
                sign: 1,
            }
        }
        Block::Triple(l, m, k) => {
            let c = digit(k, j / 2);
            cross_piece(l, m, j / 2, j % 2, c)
        }
        Block::Cross(l, m, i) => cross_piece(l, m, i as usize, j, 0),
    }
}

// How many products a polynomial has.
fn count(f: Block) -> usize
    ensures { result ≡ count_of f }
{
    match f {
        Block::Zero => 0,
        Block::One => 1,
        Block::Single(_, _) => 1,
        Block::Dot(_, _) => 3,
        Block::Triple(_, _, _) => 6,
        Block::Cross(_, _, _) => 2,
    }
}

// The polynomial of a factor.
fn block_of(k: u32) -> Block
    requires { k < 16843008 }
    ensures { result ≡ block_of (letters_of k) }
{
    let f = letters_of(k);
    match f {
        Factor::Scalar(x) => Block::Single(x, 0),
        Factor::Dot(x, y) => Block::Dot(x, y),
        Factor::Triple(x, y, z) => Block::Triple(x, y, z),
    }
}

// The polynomial of a component of a vector part.
fn part_block(p: Part, i: u8) -> Block
    ensures { result ≡ part_block i (part_of p) }
{
    match p {
        Part::Nothing => {
            if i == 0 {
                return Block::One;
            }
            Block::Zero
        }
        Part::Letter(l) => Block::Single(l, i),
        Part::Wedge(l, m) => Block::Cross(l, m, i),
    }
}

// Writes the summand number `from`, times a product, as the summand number `to`.
fn put_product(work: &mut [u8], from: usize, to: usize, p: Piece)
    requires { (from < length (summands work.old)) × (to < length (summands work.old)) × PieceFit p (get_or (summands work.old) from none) }
    ensures { summands work.new ≡ set (summands work.old) to (times_piece p (get_or (summands work.old) from none)) }
{
    let a = p.a;
    let b = p.b;
    let c = p.c;
    let sign = p.sign;
    let key = times(times(times(key_at(work, from), a), b), c);
    let coef = mul(coef_at(work, from), sign);
    put(work, to, key, coef);
}

// Writes the n summands from `from` on, times a product, from `to` on.
fn spread(work: &mut [u8], from: usize, n: usize, to: usize, p: Piece)
    requires { Spreading from n to p (summands work.old) }
    ensures { Spread from n to p (summands work.old) (summands work.new) }
{
    for i in 0..n {
        put_product(work, from + i, to + i, p);
    }
}

// Multiplies the n summands from `start` on by a polynomial; so many they are then.
fn multiply(work: &mut [u8], start: usize, n: usize, f: Block) -> usize
    requires { Multiplying start n f (summands work.old) }
    ensures { Multiplied start n f result (summands work.old) (summands work.new) }
{
    let m = count(f);
    for j in (0..m).rev() {
        spread(work, start, n, start + j * n, piece_at(f, j));
    }
    m * n
}

// Multiplies the summand number `start` by the factors of a term; so many they are then.
fn times_factors(work: &mut [u8], start: usize, t: Term) -> usize
    requires { Factorable start t (summands work.old) }
    ensures { Factored start t result (summands work.old) (summands work.new) }
{
    let mut n: usize = 1;
    for k in 0..t.factor_count as usize {
        n = multiply(work, start, n, block_of(t.factors[k]));
    }
    n
}

// Writes the summands of a component of a term, times a sign, from `start` on; so many they are.
pub fn expand_term(work: &mut [u8], start: usize, t: Term, i: u8, sign: i64) -> usize
    requires { Expandable start t i sign (summands work.old) }
    ensures { Expanded start (expand_term i sign (term_of t)) result (summands work.old) (summands work.new) }
{
    let c = t.coef;
    let part = t.part;
    put(work, start, 0, mul(c, sign));
    let n = times_factors(work, start, t);
    multiply(work, start, n, part_block(part, i))
}
