// Terms in lent memory: a row of eight numbers each, the vector part's number times 8 with the count of factors, then the factors' numbers; the coefficients beside them.
#![tactic(auto)]

ghost use Rattle.std.specs.Prelude.{IfOk, ◌≡◌, ◌≤◌, ℤ, length};
ghost use Rattle.specification.specs.Terms.{compare_terms};
ghost use Rattle.terms.specs.Abstraction.{term_of, ordering_of, Counted};
ghost use Rattle.terms.specs.Valid.{FormValid};
ghost use Rattle.rows.specs.Rows.{term_by, RowValid, RowOf, Run, FormRun, HeldIn, Copied, FormOfRun, OutcomeOf};

use refusal::Refusal;
use std::cmp::Ordering;
use terms::build::no_term;
use terms::factors::{part_number, part_of};
use terms::types::{Form, Term};

// What working gave in lent rows: the kind of a form and how many rows it has.
#[derive(Clone, Copy)]
pub struct Worked {
    pub kind: u8,
    pub count: usize,
}

// The term of a row and a coefficient.
pub fn term_of(r: [u32; 8], c: i64) -> Term
    requires { RowValid r }
    ensures { (term_of result ≡ term_by r c) × Counted result }
{
    let h = r[0];
    let f = [r[1], r[2], r[3], r[4], r[5], r[6], r[7]];
    let p = part_of(h / 8);
    Term {
        coef: c,
        factors: f,
        factor_count: (h % 8) as u8,
        part: p,
    }
}

// The row of a term.
pub fn row_of(t: Term) -> [u32; 8]
    requires { Counted t }
    ensures { RowOf t result }
{
    let p = t.part;
    let h = part_number(p) * 8 + t.factor_count as u32;
    let f = t.factors;
    [h, f[0], f[1], f[2], f[3], f[4], f[5], f[6]]
}

// The order of two rows: their heads and factors compared up to the first that differs.
pub fn order_of(a: &[u32; 8], b: &[u32; 8]) -> Ordering
    requires { (length a.now ≡ 8) × (length b.now ≡ 8) }
    ensures { (c d : ℤ) → ordering_of result ≡ compare_terms (term_by a.now c) (term_by b.now d) }
{
    let m = (a[0] % 8) as usize + 1;
    for k in 0..m {
        if a[k] < b[k] {
            return Ordering::Less;
        }
        if b[k] < a[k] {
            return Ordering::Greater;
        }
    }
    Ordering::Equal
}

// The terms of a form in lent memory.
pub fn hold(f: Form, rows: &mut [[u32; 8]], coefs: &mut [i64])
    requires { FormValid f × (f.count ≤ length rows.old) × (f.count ≤ length coefs.old) }
    ensures { HeldIn f rows.new coefs.new }
{
    let n = f.count;
    for i in 0..n {
        let t = f.terms[i];
        let r = row_of(t);
        rows[i] = r;
        let d = t.coef;
        coefs[i] = d;
    }
}

// The first n rows copied.
pub fn copy(n: usize, from: &[[u32; 8]], froms: &[i64], rows: &mut [[u32; 8]], coefs: &mut [i64])
    requires { (n ≤ length from.now) × (n ≤ length froms.now) × (n ≤ length rows.old) × (n ≤ length coefs.old) }
    ensures { Copied n from.now froms.now rows.new coefs.new }
{
    for i in 0..n {
        let r = from[i];
        rows[i] = r;
        let c = froms[i];
        coefs[i] = c;
    }
}

// The form of a kind with the terms of n rows.
pub fn form_of(kind: u8, rows: &[[u32; 8]], coefs: &[i64], n: usize) -> Form
    requires { Run n rows.now coefs.now × (n ≤ 48) }
    ensures { FormOfRun kind n rows.now coefs.now result }
{
    let t = no_term();
    let mut ts = [t; 48];
    for i in 0..n {
        let r = rows[i];
        let u = term_of(r, coefs[i]);
        ts[i] = u;
    }
    Form {
        kind,
        count: n,
        terms: ts,
    }
}

// What working gave in lent rows, as a form by value: its refusal, or the form.
pub fn outcome(
    w: Result<Worked, Refusal>,
    rows: &[[u32; 8]],
    coefs: &[i64],
) -> Result<Form, Refusal>
    requires { IfOk w (λ w. FormRun w.kind w.count rows.now coefs.now) }
    ensures { OutcomeOf w rows.now coefs.now result }
{
    let held = w?;
    Ok(form_of(held.kind, rows, coefs, held.count))
}
