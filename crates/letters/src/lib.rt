// The table, a letter's kind, and letters tested in byte order.
#![tactic(auto)]

ghost use Rattle.std.specs.Prelude.{◌≡◌, [], ◌∷◌, ◌<◌, eqb, length};
ghost use Rattle.specification.specs.Results.{when◌then◌else◌};
ghost use Rattle.specification.specs.Letters.{scalar, vector, kind_of, test_table, test_letter, test_letters};
ghost use Rattle.specification.specs.Records.{test_term, test_terms};
ghost use Rattle.terms.specs.Numbers.{letters_of};
ghost use Rattle.terms.specs.Abstraction.{part_of, term_of, Counted, terms_of};
ghost use Rattle.terms.specs.Valid.{Readable};
ghost use Rattle.refusal.specs.Tests.{test_of};

use refusal::Refusal;
use terms::factors::{Factor, letters_of};
use terms::types::{Form, Part, Term};

// A table of 1 to 24 bytes, none above 1.
pub fn check_table(table: &[u8]) -> Result<(), Refusal>
    ensures { test_of result ≡ test_table table.now }
{
    let n = table.len();
    if n < 1 {
        return Err(Refusal::BadTable);
    }
    if n > 24 {
        return Err(Refusal::BadTable);
    }
    for i in 0..n {
        if table[i] > 1 {
            return Err(Refusal::BadTable);
        }
    }
    Ok(())
}

// The kind of a letter that the table has.
pub fn kind_of(table: &[u8], n: usize) -> u8
    requires { n < length table.now }
    ensures { result ≡ kind_of table.now n }
{
    table[n]
}

// A letter of the table, of this kind.
pub fn test_letter(table: &[u8], kind: u8, x: u8) -> Result<(), Refusal>
    ensures { test_of result ≡ test_letter table.now kind x }
{
    let n = x as usize;
    if n >= table.len() {
        return Err(Refusal::AbsentLetter);
    }
    if kind_of(table, n) != kind {
        return Err(Refusal::WrongKind);
    }
    Ok(())
}

// Two vector letters.
fn test_two(table: &[u8], x: u8, y: u8) -> Result<(), Refusal>
    ensures { test_of result ≡ test_letters table.now vector (x ∷ y ∷ []) }
{
    test_letter(table, 1, x)?;
    test_letter(table, 1, y)
}

// Three vector letters.
fn test_three(table: &[u8], x: u8, y: u8, z: u8) -> Result<(), Refusal>
    ensures { test_of result ≡ test_letters table.now vector (x ∷ y ∷ z ∷ []) }
{
    test_letter(table, 1, x)?;
    test_two(table, y, z)
}

// The letters of a factor: one is scalar, those of dots and triples are vectors.
fn test_factor(table: &[u8], k: u32) -> Result<(), Refusal>
    requires { k < 16843008 }
    ensures { test_of result ≡ test_letters table.now (when eqb (length (letters_of k)) 1 then scalar else vector) (letters_of k) }
{
    match letters_of(k) {
        Factor::Scalar(x) => test_letter(table, 0, x),
        Factor::Dot(x, y) => test_two(table, x, y),
        Factor::Triple(x, y, z) => test_three(table, x, y, z),
    }
}

// The letters of a vector part.
fn test_part(table: &[u8], p: Part) -> Result<(), Refusal>
    ensures { test_of result ≡ test_letters table.now vector (part_of p) }
{
    match p {
        Part::Nothing => Ok(()),
        Part::Letter(x) => test_letter(table, 1, x),
        Part::Wedge(x, y) => test_two(table, x, y),
    }
}

// The letters of a term.
pub fn test_term(table: &[u8], t: Term) -> Result<(), Refusal>
    requires { Counted t }
    ensures { test_of result ≡ test_term table.now (term_of t) }
{
    let n = t.factor_count as usize;
    for i in 0..n {
        test_factor(table, t.factors[i])?;
    }
    test_part(table, t.part)
}

// The letters of the terms of a form.
pub fn test_terms(table: &[u8], f: Form) -> Result<(), Refusal>
    requires { Readable 48 f }
    ensures { test_of result ≡ test_terms table.now (terms_of f) }
{
    let n = f.count;
    for i in 0..n {
        test_term(table, f.terms[i])?;
    }
    Ok(())
}
