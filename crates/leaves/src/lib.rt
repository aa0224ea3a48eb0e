// Leaves: the form of one term, of a letter alone, and of a constant, in the first of the lent rows.
#![tactic(auto)]

ghost use Rattle.std.specs.Prelude.{Ok, [], ◌∷◌, ◌≤◌, ◌<◌, length};
ghost use Rattle.specification.specs.Results.{given};
ghost use Rattle.specification.specs.Terms.{plus};
ghost use Rattle.specification.specs.Reduction.{letter_form, constant_form};
ghost use Rattle.theory.specs.Shape.Forms.{FormInShape};
ghost use Rattle.terms.specs.Numbers.{letters_of};
ghost use Rattle.terms.specs.Abstraction.{part_of, term_of, Counted};
ghost use Rattle.rows.specs.Rows.{RowsGive};
ghost use Rattle.leaves.specs.Leaves.{TermAs};

use integers::{is_zero, within};
use refusal::Refusal;
use rows::{Worked, row_of};
use terms::factors::scalar_number;
use terms::types::{Part, Term};

// A form of one term.
pub fn alone(kind: u8, t: Term, rows: &mut [[u32; 8]], coefs: &mut [i64]) -> Worked
    requires { Counted t × FormInShape (record { kind = kind; terms = term_of t ∷ [] }) × (1 ≤ length rows.old) × (1 ≤ length coefs.old) }
    ensures { RowsGive (given (record { kind = kind; terms = term_of t ∷ [] })) (Ok result) rows.new coefs.new }
{
    rows[0] = row_of(t);
    coefs[0] = t.coef;
    Worked { kind, count: 1 }
}

// A factor alone as a term.
pub fn only_factor(k: u32) -> Term
    requires { k < 16843008 }
    ensures { TermAs (plus (letters_of k ∷ []) []) result }
{
    let mut f = [0u32; 7];
    f[0] = k;
    Term {
        coef: 1,
        factors: f,
        factor_count: 1,
        part: Part::Nothing,
    }
}

// A vector part without factors as a term.
pub fn bare(k: i64, p: Part) -> Term
    ensures { TermAs (record { coef = k; factors = []; part = part_of p }) result }
{
    Term {
        coef: k,
        factors: [0u32; 7],
        factor_count: 0,
        part: p,
    }
}

// A letter of a kind.
pub fn letter(n: u8, kind: u8, rows: &mut [[u32; 8]], coefs: &mut [i64]) -> Worked
    requires { (1 ≤ length rows.old) × (1 ≤ length coefs.old) }
    ensures { RowsGive (given (letter_form n kind)) (Ok result) rows.new coefs.new }
{
    if kind == 0 {
        return alone(0, only_factor(scalar_number(n)), rows, coefs);
    }
    alone(1, bare(1, Part::Letter(n)), rows, coefs)
}

// A constant within ±2147483647: the empty form where it is 0.
pub fn constant(k: i64, rows: &mut [[u32; 8]], coefs: &mut [i64]) -> Result<Worked, Refusal>
    requires { (1 ≤ length rows.old) × (1 ≤ length coefs.old) }
    ensures { RowsGive (constant_form k) result rows.new coefs.new }
{
    if !within(k) {
        return Err(Refusal::LargeCoefficient);
    }
    if is_zero(k) {
        return Ok(Worked { kind: 0, count: 0 });
    }
    Ok(alone(0, bare(k, Part::Nothing), rows, coefs))
}
