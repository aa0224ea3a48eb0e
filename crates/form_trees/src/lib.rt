// The tree of a form worked in lent rows, another form standing for one letter: its terms in order, summed left to right.
#![tactic(auto)]

ghost use Rattle.std.specs.Prelude.{◌≡◌, ◌≤◌, length, drop};
ghost use Rattle.specification.specs.Insertion.{insert_terms, insert_form};
ghost use Rattle.theory.specs.Reduction.Standing.{plus_each};
ghost use Rattle.terms.specs.Abstraction.{term_of, form_of};
ghost use Rattle.terms.specs.Valid.{TermValid, FormValid, Gives};
ghost use Rattle.rows.specs.Rows.{run_of, form_by, FormRun, SomeForm, RowsGive};
ghost use Rattle.replacing.specs.Replacing.{leaf_by, Replaces, plus_term};

use refusal::Refusal;
use rows::{Worked, form_of, hold, term_of};
use sums::adding::sum;
use term_trees::work_term;
use terms::types::{Form, Term};

// What stands in the rows plus a term, which is worked in others.
fn add_term(
    x: Worked,
    t: Term,
    replaced: u8,
    m: usize,
    right: &[[u32; 8]],
    rights: &[i64],
    rows: &mut [[u32; 8]],
    coefs: &mut [i64],
    more: &mut [[u32; 8]],
    beside: &mut [i64],
) -> Result<Worked, Refusal>
    requires { TermValid t × Replaces m right.now rights.now rows.old coefs.old × FormRun x.kind x.count rows.old coefs.old
        × (48 ≤ length more.old) × (48 ≤ length beside.old) }
    ensures { RowsGive (plus_term (leaf_by replaced m right.now rights.now)
        (form_by x.kind x.count rows.old coefs.old) (term_of t)) result rows.new coefs.new }
{
    let y = work_term(t, replaced, m, right, rights, more, beside)?;
    sum(x.kind, x.count, rows, coefs, y.kind, y.count, more, beside)
}

// What stands in the rows plus the terms of n other rows behind the first, one after the other.
fn add_terms(
    x: Worked,
    n: usize,
    old: &[[u32; 8]],
    olds: &[i64],
    replaced: u8,
    m: usize,
    right: &[[u32; 8]],
    rights: &[i64],
    rows: &mut [[u32; 8]],
    coefs: &mut [i64],
) -> Result<Worked, Refusal>
    requires { SomeForm n old.now olds.now × Replaces m right.now rights.now rows.old coefs.old
        × FormRun x.kind x.count rows.old coefs.old × (1 ≤ n) }
    ensures { RowsGive (plus_each (leaf_by replaced m right.now rights.now)
        (form_by x.kind x.count rows.old coefs.old) (drop 1 (run_of n old.now olds.now))) result
        rows.new coefs.new }
{
    let e = [0u32; 8];
    let mut more = [e; 48];
    let mut beside = [0i64; 48];
    let mut w = x;
    for i in 1..n {
        let r = old[i];
        let t = term_of(r, olds[i]);
        w = add_term(
            w,
            t,
            replaced,
            m,
            right,
            rights,
            rows,
            coefs,
            &mut more,
            &mut beside,
        )?;
    }
    Ok(w)
}

// The form of a kind with the terms of n rows, worked; the empty form stands.
fn work_terms(
    kind: u8,
    n: usize,
    old: &[[u32; 8]],
    olds: &[i64],
    replaced: u8,
    m: usize,
    right: &[[u32; 8]],
    rights: &[i64],
    rows: &mut [[u32; 8]],
    coefs: &mut [i64],
) -> Result<Worked, Refusal>
    requires { FormRun kind n old.now olds.now × Replaces m right.now rights.now rows.old coefs.old }
    ensures { RowsGive (insert_terms (leaf_by replaced m right.now rights.now) kind (run_of n old.now olds.now)) result
        rows.new coefs.new }
{
    if n == 0 {
        return Ok(Worked { kind, count: 0 });
    }
    let r = old[0];
    let t = term_of(r, olds[0]);
    let w = work_term(t, replaced, m, right, rights, rows, coefs)?;
    add_terms(w, n, old, olds, replaced, m, right, rights, rows, coefs)
}

// A form with a vector form for one of its letters.
pub fn replace(f: Form, replaced: u8, g: Form) -> Result<Form, Refusal>
    requires { FormValid f × FormValid g × (g.kind ≡ 1) }
    ensures { Gives (insert_form replaced (form_of g) (form_of f)) result }
{
    let e = [0u32; 8];
    let mut old = [e; 48];
    let mut olds = [0i64; 48];
    hold(f, &mut old, &mut olds);
    let mut right = [e; 48];
    let mut rights = [0i64; 48];
    hold(g, &mut right, &mut rights);
    let mut rows = [e; 48];
    let mut coefs = [0i64; 48];
    let w = work_terms(
        f.kind, f.count, &old, &olds, replaced, g.count, &right, &rights, &mut rows, &mut coefs,
    )?;
    Ok(form_of(w.kind, &rows, &coefs, w.count))
}
