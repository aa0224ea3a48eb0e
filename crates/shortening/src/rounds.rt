// The rounds: a step to fewer terms from each form reached, until there is none.
// Each search begins behind the term that the last step took away, with the marks carried over that step; that there is none is found by one over all terms, with marks made afresh.
ghost use Rattle.std.specs.Prelude.{◌≤◌, length};
ghost use Rattle.terms.specs.Valid.{FormValid};
ghost use Rattle.rows.specs.Rows.{FormRun};
ghost use Rattle.shortening.specs.Derived.{RoundsTaken, Derived};

use logs::steps::{Steps, no_step};
use marking::marking::mark_rows;
use marks::steps::mark_reached;
use rows::{copy, form_of, hold};
use searching::searching::search;
use terms::types::Form;

// Steps from a form to the last one.
#[derive(Clone, Copy)]
pub struct Derivation {
    pub steps: Steps,
    pub last: Form,
}

// Steps in their order, and how many terms the form has that they reach.
#[derive(Clone, Copy)]
pub struct Rounds {
    pub count: usize,
    pub steps: Steps,
}

// Steps from the form of a kind in lent rows, which become those of a form that no step shortens; the other rows are for trials.
fn take_rounds(
    table: &[u8],
    kind: u8,
    held: usize,
    rows: &mut [[u32; 8]],
    coefs: &mut [i64],
    to: &mut [[u32; 8]],
    tos: &mut [i64],
) -> Rounds
    requires { FormRun kind held rows.old coefs.old × (55 ≤ length to.old) × (55 ≤ length tos.old) }
    ensures { RoundsTaken table.now kind held rows.old coefs.old result rows.new coefs.new }
{
    let none = no_step();
    let mut steps = [none; 64];
    let mut n: usize = 0;
    let mut count = held;
    let mut marks = mark_rows(rows, coefs, count);
    let mut found = search(table, &marks, kind, count, rows, coefs, 0, to, tos);
    while let Some(r) = found {
        steps[n] = r.step;
        n += 1;
        count = r.count;
        copy(count, to, tos, rows, coefs);
        mark_reached(&mut marks, r.step);
        found = search(table, &marks, kind, count, rows, coefs, r.behind, to, tos);
        if found.is_none() {
            marks = mark_rows(rows, coefs, count);
            found = search(table, &marks, kind, count, rows, coefs, 0, to, tos);
        }
    }
    let all = Steps { count: n, steps };
    Rounds { count, steps: all }
}

// Steps from a form to one that no step shortens.
pub fn derive(table: &[u8], f: Form) -> Derivation
    requires { FormValid f }
    ensures { Derived table.now f result }
{
    let z = [0u32; 8];
    let mut rows = [z; 48];
    let mut coefs = [0i64; 48];
    let mut to = [z; 56];
    let mut tos = [0i64; 56];
    let kind = f.kind;
    hold(f, &mut rows, &mut coefs);
    let r = take_rounds(
        table, kind, f.count, &mut rows, &mut coefs, &mut to, &mut tos,
    );
    let steps = r.steps;
    let last = form_of(kind, &rows, &coefs, r.count);
    Derivation { steps, last }
}
