// The replay: the steps taken in their order from the first form, and the form reached compared with the last.
#![tactic(auto)]

ghost use Rattle.std.specs.Prelude.{◌≡◌, ◌≤◌, length};
ghost use Rattle.specification.specs.Logs.{same_form};
ghost use Rattle.terms.specs.Abstraction.{term_of, form_of, Counted};
ghost use Rattle.terms.specs.Valid.{FormValid};
ghost use Rattle.rows.specs.Rows.{term_by, RowValid, Run, form_by, FormRun};
ghost use Rattle.logs.specs.Steps.{StepsValid};
ghost use Rattle.replaying.specs.Replaying.{same_term, ReachedAs, ReplayedAs};

use integers::equal;
use limits::largest;
use logs::steps::{RefusedAt, Steps, at_step};
use refusal::Refusal;
use rows::{hold, order_of, row_of};
use rules::steps::{raised, take_step};
use terms::types::{Form, Term};

// The steps taken in their order from the form of a kind in lent rows. They stand for the current form from step to step, and so does a bound on their
// coefficients, so that each step costs its own terms alone.
fn take_steps(
    kind: u8,
    held: usize,
    rows: &mut [[u32; 8]],
    coefs: &mut [i64],
    q: Steps,
) -> Result<usize, RefusedAt>
    requires { FormRun kind held rows.old coefs.old × (55 ≤ length rows.old) × (55 ≤ length coefs.old) × StepsValid q }
    ensures { ReachedAs kind held rows.old coefs.old q result rows.new coefs.new }
{
    let n = q.count;
    let mut count = held;
    let mut bound = largest(coefs, held);
    for i in 0..n {
        let s = q.steps[i];
        let w = at_step(take_step(kind, count, rows, coefs, s, bound), i as u8 + 1)?;
        count = w.count;
        bound = raised(bound, s.m.coef);
    }
    Ok(count)
}

// Whether a term is that of a row and a coefficient.
fn same_row(t: Term, r: &[u32; 8], c: i64) -> bool
    requires { Counted t × RowValid r.now }
    ensures { result ≡ same_term (term_of t) (term_by r.now c) }
{
    if !equal(t.coef, c) {
        return false;
    }
    let u = row_of(t);
    order_of(&u, r).is_eq()
}

// Whether a form is that of a kind in lent rows.
pub fn same_form(f: Form, kind: u8, rows: &[[u32; 8]], coefs: &[i64], count: usize) -> bool
    requires { FormValid f × Run count rows.now coefs.now }
    ensures { result ≡ same_form (form_of f) (form_by kind count rows.now coefs.now) }
{
    let n = f.count;
    if f.kind != kind {
        return false;
    }
    if n != count {
        return false;
    }
    for j in 0..n {
        let t = f.terms[j];
        let r = rows[j];
        if !same_row(t, &r, coefs[j]) {
            return false;
        }
    }
    true
}

// The steps taken in their order from the first form, to the last: refused with the last form's step where another is reached.
pub fn replay(f: Form, q: Steps, last: Form) -> Result<(), RefusedAt>
    requires { FormValid f × FormValid last × StepsValid q }
    ensures { ReplayedAs f q last result }
{
    let z = [0u32; 8];
    let mut rows = [z; 56];
    let mut coefs = [0i64; 56];
    hold(f, &mut rows, &mut coefs);
    let count = take_steps(f.kind, f.count, &mut rows, &mut coefs, q)?;
    if !same_form(last, f.kind, &rows, &coefs, count) {
        return Err(RefusedAt {
            why: Refusal::OtherForm,
            step: q.count as u8 + 1,
        });
    }
    Ok(())
}
