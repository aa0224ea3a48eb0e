// The tests of a product: how many pairs, then the letters and the coefficients of the terms that stay. Where the most letters and the largest coefficient of each side are within the
// limits, no term is beyond; only elsewhere are the pairs gone through.
#![tactic(auto)]

ghost use Rattle.std.specs.Prelude.{◌≡◌, ◌&&◌, [], ◌∷◌, ◌+◌, ◌*◌, ◌≤◌, leb, nat_abs};
ghost use Rattle.specification.specs.Reduction.{pair_staying, product_terms};
ghost use Rattle.theory.specs.Elements.{All};
ghost use Rattle.terms.specs.Abstraction.{term_of, Counted};
ghost use Rattle.rows.specs.Rows.{run_of, Run, Light};
ghost use Rattle.refusal.specs.Tests.{test_of};
ghost use Rattle.pairing.specs.Parts.{parts_of};
ghost use Rattle.pair_limits.specs.Limits.{larger, MostWith, MostOf, MostSmall, FitOf, Paired, row_terms, SomeOperands, test_pairs};

use integers::size;
use pairing::parts::Operation;
use pairing::staying::stays;
use refusal::Refusal;
use rows::term_of;
use terms::shape::{letters_used, part_letters};
use terms::types::Term;

// The most vector letters and scalar letters that a term has, and the largest size of a coefficient.
#[derive(Clone, Copy)]
pub struct Most {
    pub vectors: usize,
    pub scalars: usize,
    pub size: usize,
}

// Whether the letters of terms and their coefficients are within the limits.
#[derive(Clone, Copy)]
pub struct Fit {
    pub letters: bool,
    pub coefs: bool,
}

// The larger of two numbers.
fn larger(a: usize, b: usize) -> usize
    ensures { result ≡ larger a b }
{
    if a < b { b } else { a }
}

// One term more.
fn with_term(m: Most, t: Term) -> Most
    requires { Counted t × (nat_abs t.coef ≤ 2147483647) }
    ensures { MostWith (term_of t) m result }
{
    let n = t.factor_count;
    let p = t.part;
    let used = letters_used(&t.factors, n);
    let c = size(t.coef) as usize;
    Most {
        vectors: larger(used.vectors + part_letters(p), m.vectors),
        scalars: larger(used.scalars, m.scalars),
        size: larger(c, m.size),
    }
}

// The terms of n rows, from the last to the first.
fn most_of(rows: &[[u32; 8]], coefs: &[i64], n: usize) -> Most
    requires { Run n rows.now coefs.now × Light 2147483647 n coefs.now }
    ensures { MostOf (run_of n rows.now coefs.now) result }
{
    let mut m = Most {
        vectors: 0,
        scalars: 0,
        size: 0,
    };
    for i in (0..n).rev() {
        let r = rows[i];
        let t = term_of(r, coefs[i]);
        m = with_term(m, t);
    }
    m
}

// The letters of all pairs fit.
fn letters_fit(a: Most, b: Most) -> bool
    requires { MostSmall a × MostSmall b }
    ensures { result ≡ (leb (a.vectors + b.vectors) 6 && leb (a.scalars + b.scalars) 2) }
{
    if a.vectors + b.vectors > 6 {
        return false;
    }
    a.scalars + b.scalars <= 2
}

// The coefficients of all pairs fit.
fn coefs_fit(a: Most, b: Most) -> bool
    requires { MostSmall a × MostSmall b }
    ensures { result ≡ leb (a.size * b.size) 2147483647 }
{
    a.size * b.size <= 2147483647
}

// Of two lists of terms together.
fn both(a: Fit, b: Fit) -> Fit
    ensures { (result.letters ≡ (a.letters && b.letters)) × (result.coefs ≡ (a.coefs && b.coefs)) }
{
    Fit {
        letters: a.letters && b.letters,
        coefs: a.coefs && b.coefs,
    }
}

// What one term has.
fn one_term(t: Term) -> Most
    requires { Counted t × (nat_abs t.coef ≤ 2147483647) }
    ensures { MostOf (term_of t ∷ []) result }
{
    let m = Most {
        vectors: 0,
        scalars: 0,
        size: 0,
    };
    with_term(m, t)
}

// The terms of one pair that stay: each has the letters and the size of the coefficient that the pair has. Where none stays, nothing is tested.
fn fit_of_pair(op: Operation, t: Term, u: Term) -> Fit
    requires { Counted t × Counted u × Paired op (term_of t) (term_of u) }
    ensures { FitOf (pair_staying (parts_of op) (term_of t, term_of u)) result }
{
    let p = t.part;
    let q = u.part;
    if !stays(op, p, q) {
        return Fit {
            letters: true,
            coefs: true,
        };
    }
    let a = one_term(t);
    let b = one_term(u);
    Fit {
        letters: letters_fit(a, b),
        coefs: coefs_fit(a, b),
    }
}

// The terms that stay of a left term with each of m right ones, from the last to the first.
fn fit_of_row(op: Operation, t: Term, m: usize, right: &[[u32; 8]], rights: &[i64]) -> Fit
    requires { Counted t × Run m right.now rights.now × All (Paired op (term_of t)) (run_of m right.now rights.now) }
    ensures { FitOf (row_terms op (term_of t) (run_of m right.now rights.now)) result }
{
    let mut fit = Fit {
        letters: true,
        coefs: true,
    };
    for j in (0..m).rev() {
        let r = right[j];
        let u = term_of(r, rights[j]);
        fit = both(fit_of_pair(op, t, u), fit);
    }
    fit
}

// The terms that stay of all pairs, from the last left term to the first.
fn fit_of_pairs(
    op: Operation,
    n: usize,
    rows: &[[u32; 8]],
    coefs: &[i64],
    m: usize,
    right: &[[u32; 8]],
    rights: &[i64],
) -> Fit
    requires { Run n rows.now coefs.now × Run m right.now rights.now
        × All (λ t. All (Paired op t) (run_of m right.now rights.now)) (run_of n rows.now coefs.now) }
    ensures { FitOf (product_terms (parts_of op) (run_of n rows.now coefs.now)
        (run_of m right.now rights.now)) result }
{
    let mut fit = Fit {
        letters: true,
        coefs: true,
    };
    for i in (0..n).rev() {
        let r = rows[i];
        let t = term_of(r, coefs[i]);
        fit = both(fit_of_row(op, t, m, right, rights), fit);
    }
    fit
}

// Not more than 48 pairs, and what stays of them within the limits of letters and then of coefficients. The pairs are gone through only where the most letters or the largest
// coefficients of the two sides are beyond.
pub fn test_pairs(
    op: Operation,
    n: usize,
    rows: &[[u32; 8]],
    coefs: &[i64],
    m: usize,
    right: &[[u32; 8]],
    rights: &[i64],
) -> Result<(), Refusal>
    requires { SomeOperands op n rows.now coefs.now m right.now rights.now }
    ensures { test_of result ≡ test_pairs op (run_of n rows.now coefs.now) (run_of m right.now rights.now) }
{
    if n * m > 48 {
        return Err(Refusal::ManyPairs);
    }
    let a = most_of(rows, coefs, n);
    let b = most_of(right, rights, m);
    let letters = letters_fit(a, b);
    let coefs_within = coefs_fit(a, b);
    if letters && coefs_within {
        return Ok(());
    }
    let fit = fit_of_pairs(op, n, rows, coefs, m, right, rights);
    if !fit.letters {
        return Err(Refusal::ManyLetters);
    }
    if !fit.coefs {
        return Err(Refusal::LargeCoefficient);
    }
    Ok(())
}
