// Factors and vector parts as numbers: shorter ones have smaller numbers, and those of one length are numbered in the order of their letters.
// Only here does it stand which number is which factor, and which vector part.
ghost use Rattle.std.specs.Prelude.{◌≡◌, [], ◌∷◌, ◌<◌, ◌%◌, length};
ghost use Rattle.specification.specs.Terms.{factor_in_shape};
ghost use Rattle.terms.specs.Numbers.{letters_of, part_letters_of, FactorNumber, PartNumber};
ghost use Rattle.terms.specs.Abstraction.{factor_of, part_of};

use crate::types::Part;

// The number of the first dot: scalar letters come before.
const DOTS: u32 = 256;

// The number of the first triple: dots come before.
const TRIPLES: u32 = 65792;

// A factor by its letters: a scalar letter, a dot of two, a triple of three.
#[derive(Clone, Copy)]
pub enum Factor {
    Scalar(u8),
    Dot(u8, u8),
    Triple(u8, u8, u8),
}

fn wide(x: u8) -> u32
    ensures { (result ≡ x) × (result < 256) }
{
    x as u32
}

// A scalar letter.
pub fn scalar_number(x: u8) -> u32
    ensures { FactorNumber (x ∷ []) result }
{
    wide(x)
}

// A dot of two letters.
pub fn dot_number(x: u8, y: u8) -> u32
    ensures { FactorNumber (x ∷ y ∷ []) result }
{
    DOTS + 256 * wide(x) + wide(y)
}

// A triple of three letters.
pub fn triple_number(x: u8, y: u8, z: u8) -> u32
    ensures { FactorNumber (x ∷ y ∷ z ∷ []) result }
{
    TRIPLES + 65536 * wide(x) + 256 * wide(y) + wide(z)
}

// The lowest byte.
pub fn low(x: u32) -> u8
    ensures { result ≡ x % 256 }
{
    (x % 256) as u8
}

// The letters of a factor's number.
pub fn letters_of(k: u32) -> Factor
    requires { k < 16843008 }
    ensures { factor_of result ≡ letters_of k }
{
    if k < DOTS {
        return Factor::Scalar(low(k));
    }
    if k < TRIPLES {
        let j = k - DOTS;
        return Factor::Dot(low(j / 256), low(j));
    }
    let j = k - TRIPLES;
    Factor::Triple(low(j / 65536), low(j / 256), low(j))
}

// How many letters a factor has.
pub fn letter_count(k: u32) -> usize
    ensures { result ≡ length (letters_of k) }
{
    if k < DOTS {
        return 1;
    }
    if k < TRIPLES {
        return 2;
    }
    3
}

// The letters of a factor ascend: those of a dot may be equal, those of a triple may not.
pub fn factor_in_shape(k: u32) -> bool
    ensures { result ≡ factor_in_shape (letters_of k) }
{
    if k < DOTS {
        return true;
    }
    if k < TRIPLES {
        let j = k - DOTS;
        return j / 256 <= j % 256;
    }
    let j = k - TRIPLES;
    if j / 65536 < j / 256 % 256 {
        return j / 256 % 256 < j % 256;
    }
    false
}

// The number of a vector part: nothing, then the letters, then the wedges.
pub fn part_number(p: Part) -> u32
    ensures { PartNumber (part_of p) result }
{
    match p {
        Part::Nothing => 0,
        Part::Letter(x) => 1 + scalar_number(x),
        Part::Wedge(x, y) => 1 + dot_number(x, y),
    }
}

// The vector part of a number.
pub fn part_of(k: u32) -> Part
    requires { k < 65793 }
    ensures { part_of result ≡ part_letters_of k }
{
    if k == 0 {
        return Part::Nothing;
    }
    let i = k - 1;
    if i < DOTS {
        return Part::Letter(low(i));
    }
    let j = i - DOTS;
    Part::Wedge(low(j / 256), low(j))
}
