// Products of forms in lent rows: each left term with each right term, what stays of all pairs tested first, then gathered.
ghost use Rattle.std.specs.Prelude.{ℕ, ◌+◌, ◌*◌, ◌≤◌, length};
ghost use Rattle.specification.specs.Reduction.{product_terms, product, times_forms, dot_forms, wedge_forms, triple_forms};
ghost use Rattle.theory.specs.Elements.{All};
ghost use Rattle.terms.specs.Abstraction.{term_of, Counted};
ghost use Rattle.rows.specs.Rows.{run_of, Run, Light, form_by, FormRun, RowsGive};
ghost use Rattle.gathering.specs.Bringing.{Bringable};
ghost use Rattle.pairing.specs.Parts.{parts_of, list_of};
ghost use Rattle.sums.specs.Results.{Brought};
ghost use Rattle.pair_limits.specs.Limits.{Operands, row_terms};
ghost use Rattle.operators.specs.Products.{Scalars, Pair, PairMade, PairFits, PairsFit, few_bound, pairs_bound};

use gathering::bringing::bring_term;
use pair_limits::test_pairs;
use pairing::parts::{Few, Operation, parts};
use refusal::Refusal;
use rows::{Worked, term_of};
use sums::results::close;
use terms::types::{Part, Term};
use tidying::join;

// A term without its vector part.
fn scalars(t: Term) -> Term
    requires { Counted t }
    ensures { Scalars t result }
{
    let c = t.coef;
    let f = t.factors;
    let n = t.factor_count;
    let p = Part::Nothing;
    Term {
        coef: c,
        factors: f,
        factor_count: n,
        part: p,
    }
}

// The terms of one pair that stay, their letters and factors in any order. A pair of which none stays was not tested: its factors are not joined.
fn pair_terms(op: Operation, t: Term, u: Term) -> Few
    requires { Pair op t u }
    ensures { PairMade op t u result }
{
    let p = t.part;
    let q = u.part;
    let few = parts(op, p, q);
    let n = few.count;
    if n == 0 {
        return Few {
            count: 0,
            first: t,
            second: t,
        };
    }
    let b = join(scalars(t), scalars(u));
    let f = few.first;
    let x = join(b, f);
    if n < 2 {
        return Few {
            count: n,
            first: x,
            second: x,
        };
    }
    let g = few.second;
    let y = join(b, g);
    Few {
        count: n,
        first: x,
        second: y,
    }
}

// At most two terms brought in among n rows; how many there are then. One call for both, so that it costs no call.
fn bring_few(rows: &mut [[u32; 8]], coefs: &mut [i64], n: usize, few: Few) -> usize
    requires { Run n rows.old coefs.old × Light few_bound n coefs.old × (n + 2 ≤ length rows.old) × (n + 2 ≤ length coefs.old) × (few.count ≤ 2)
        × Bringable few.first × Bringable few.second }
    ensures { Brought 2 n rows.old coefs.old (list_of few) result rows.new coefs.new }
{
    let m = few.count;
    let mut count = n;
    for i in 0..m {
        let t = if i == 0 { few.first } else { few.second };
        count = bring_term(rows, coefs, count, t);
    }
    count
}

// The terms of a left term with each of m right ones, brought in among n rows; how many there are then.
fn bring_row(
    op: Operation,
    t: Term,
    m: usize,
    right: &[[u32; 8]],
    rights: &[i64],
    rows: &mut [[u32; 8]],
    coefs: &mut [i64],
    n: usize,
) -> usize
    requires { Counted t × Run m right.now rights.now × All (PairFits op (term_of t)) (run_of m right.now rights.now) × (m ≤ 48)
        × Run n rows.old coefs.old × Light pairs_bound n coefs.old × (n + 2 * m ≤ length rows.old) × (n + 2 * m ≤ length coefs.old) }
    ensures { Brought (2 * m) n rows.old coefs.old (row_terms op (term_of t) (run_of m right.now rights.now)) result
        rows.new coefs.new }
{
    let mut count = n;
    for j in 0..m {
        let r = right[j];
        let u = term_of(r, rights[j]);
        let few = pair_terms(op, t, u);
        count = bring_few(rows, coefs, count, few);
    }
    count
}

// The terms of all pairs, gathered into rows lent for it; how many there are then.
fn bring_pairs(
    op: Operation,
    n: usize,
    rows: &[[u32; 8]],
    coefs: &[i64],
    m: usize,
    right: &[[u32; 8]],
    rights: &[i64],
    more: &mut [[u32; 8]],
    beside: &mut [i64],
) -> usize
    requires { Run n rows.now coefs.now × Run m right.now rights.now
        × PairsFit op n (run_of n rows.now coefs.now) m (run_of m right.now rights.now) × (96 ≤ length more.old) × (96 ≤ length beside.old) }
    ensures { Brought (2 * (n * m)) 0 more.old beside.old
        (product_terms (parts_of op) (run_of n rows.now coefs.now) (run_of m right.now rights.now)) result
        more.new beside.new }
{
    let mut count: usize = 0;
    for i in 0..n {
        let r = rows[i];
        let t = term_of(r, coefs[i]);
        count = bring_row(op, t, m, right, rights, more, beside, count);
    }
    count
}

// The product of two forms whose kinds fit: the pairs and what stays of them tested, then the limits of what is gathered.
fn multiply(
    op: Operation,
    kind: u8,
    n: usize,
    rows: &mut [[u32; 8]],
    coefs: &mut [i64],
    m: usize,
    right: &[[u32; 8]],
    rights: &[i64],
) -> Result<Worked, Refusal>
    requires { Operands op kind n rows.old coefs.old m right.now rights.now × (48 ≤ length rows.old) × (48 ≤ length coefs.old) }
    ensures { (a b : ℕ) → RowsGive (product kind (parts_of op) (form_by a n rows.old coefs.old)
        (form_by b m right.now rights.now)) result rows.new coefs.new }
{
    test_pairs(op, n, rows, coefs, m, right, rights)?;
    let z = [0u32; 8];
    let mut more = [z; 96];
    let mut beside = [0i64; 96];
    let count = bring_pairs(op, n, rows, coefs, m, right, rights, &mut more, &mut beside);
    close(kind, count, &more, &beside, rows, coefs)
}

// A product of which at least one operand is a scalar.
pub fn times(
    kind: u8,
    n: usize,
    rows: &mut [[u32; 8]],
    coefs: &mut [i64],
    other: u8,
    m: usize,
    right: &[[u32; 8]],
    rights: &[i64],
) -> Result<Worked, Refusal>
    requires { FormRun kind n rows.old coefs.old × FormRun other m right.now rights.now × (48 ≤ length rows.old) × (48 ≤ length coefs.old) }
    ensures { RowsGive (times_forms (form_by kind n rows.old coefs.old) (form_by other m right.now rights.now))
        result rows.new coefs.new }
{
    if kind == 0 {
        return multiply(Operation::Times, other, n, rows, coefs, m, right, rights);
    }
    if other == 0 {
        return multiply(Operation::Times, kind, n, rows, coefs, m, right, rights);
    }
    Err(Refusal::WrongKind)
}

// The dot of two vectors.
pub fn dot(
    kind: u8,
    n: usize,
    rows: &mut [[u32; 8]],
    coefs: &mut [i64],
    other: u8,
    m: usize,
    right: &[[u32; 8]],
    rights: &[i64],
) -> Result<Worked, Refusal>
    requires { FormRun kind n rows.old coefs.old × FormRun other m right.now rights.now × (48 ≤ length rows.old) × (48 ≤ length coefs.old) }
    ensures { RowsGive (dot_forms (form_by kind n rows.old coefs.old) (form_by other m right.now rights.now)) result
        rows.new coefs.new }
{
    if kind != 1 {
        return Err(Refusal::WrongKind);
    }
    if other != 1 {
        return Err(Refusal::WrongKind);
    }
    multiply(Operation::Dot, 0, n, rows, coefs, m, right, rights)
}

// The wedge of two vectors.
pub fn wedge(
    kind: u8,
    n: usize,
    rows: &mut [[u32; 8]],
    coefs: &mut [i64],
    other: u8,
    m: usize,
    right: &[[u32; 8]],
    rights: &[i64],
) -> Result<Worked, Refusal>
    requires { FormRun kind n rows.old coefs.old × FormRun other m right.now rights.now × (48 ≤ length rows.old) × (48 ≤ length coefs.old) }
    ensures { RowsGive (wedge_forms (form_by kind n rows.old coefs.old) (form_by other m right.now rights.now))
        result rows.new coefs.new }
{
    if kind != 1 {
        return Err(Refusal::WrongKind);
    }
    if other != 1 {
        return Err(Refusal::WrongKind);
    }
    multiply(Operation::Wedge, 1, n, rows, coefs, m, right, rights)
}

// The triple of three vectors: their kinds first, then a wedge and a dot.
pub fn triple(
    kind: u8,
    n: usize,
    rows: &mut [[u32; 8]],
    coefs: &mut [i64],
    other: u8,
    m: usize,
    right: &[[u32; 8]],
    rights: &[i64],
    last: u8,
    k: usize,
    third: &[[u32; 8]],
    thirds: &[i64],
) -> Result<Worked, Refusal>
    requires { FormRun kind n rows.old coefs.old × FormRun other m right.now rights.now × (48 ≤ length rows.old) × (48 ≤ length coefs.old)
        × FormRun last k third.now thirds.now }
    ensures { RowsGive (triple_forms (form_by kind n rows.old coefs.old) (form_by other m right.now rights.now)
        (form_by last k third.now thirds.now)) result rows.new coefs.new }
{
    if last != 1 {
        return Err(Refusal::WrongKind);
    }
    let w = wedge(kind, n, rows, coefs, other, m, right, rights)?;
    dot(w.kind, w.count, rows, coefs, last, k, third, thirds)
}
