// The search for a step to fewer terms: the standing terms, and for each its candidates, until one shortens.
ghost use Rattle.std.specs.Prelude.{◌≡◌, ◌+◌, ◌≤◌, length, take, IfOk};
ghost use Rattle.specification.specs.Rules.{step_at};
ghost use Rattle.theory.specs.Elements.{All};
ghost use Rattle.terms.specs.Abstraction.{Counted};
ghost use Rattle.rows.specs.Rows.{run_of, form_by, RowValid, FormRun, RowsGive};
ghost use Rattle.rules.specs.Steps.{step_of};
ghost use Rattle.marking.specs.Marks.{Covering};
ghost use Rattle.searching.specs.Searching.{SearchedBy};

use candidates::trying::next_candidate;
use gathering::bringing::find_place;
use refusal::Refusal;
use rows::{Worked, copy, term_of};
use rules::admissible::step_at;
use rules::steps::Step;

// A step to fewer terms, how many it reaches, and the place among those behind the term that was taken away.
#[derive(Clone, Copy)]
pub struct Found {
    pub behind: usize,
    pub count: usize,
    pub step: Step,
}

// A step tried at the form of a kind in n rows; what it reaches is put into other rows.
fn try_step(
    table: &[u8],
    kind: u8,
    n: usize,
    rows: &[[u32; 8]],
    coefs: &[i64],
    s: Step,
    to: &mut [[u32; 8]],
    tos: &mut [i64],
) -> Result<Worked, Refusal>
    requires { FormRun kind n rows.now coefs.now × Counted s.m × (n + 7 ≤ length to.old) × (n + 7 ≤ length tos.old) }
    ensures reached { RowsGive (step_at table.now (form_by kind n rows.now coefs.now) (step_of s)) result to.new tos.new }
    ensures kind { IfOk result (λ w. w.kind ≡ kind) }
{
    copy(n, rows, coefs, to, tos);
    step_at(table, kind, n, to, tos, s)
}

// Where a row belongs among n that ascend, whether a like one stands there or not.
fn place_of(rows: &[[u32; 8]], n: usize, r: &[u32; 8]) -> usize
    requires { (n ≤ length rows.now) × All RowValid (take n rows.now) × RowValid r.now }
    ensures { result ≤ n }
{
    match find_place(rows, n, r) {
        Ok(at) => at,
        Err(at) => at,
    }
}

// A step to fewer terms from the form of a kind in n rows, if there is one, by the terms from one on; what it reaches is in the other rows. The places of all terms stand in one row, 40960 for each.
pub fn search(
    table: &[u8],
    marks: &[u8; 512],
    kind: u8,
    n: usize,
    rows: &[[u32; 8]],
    coefs: &[i64],
    first: usize,
    to: &mut [[u32; 8]],
    tos: &mut [i64],
) -> Option<Found>
    requires { FormRun kind n rows.now coefs.now × (first ≤ 48) × (length marks.now ≡ 512) × Covering marks.now (run_of n rows.now coefs.now) × (55 ≤ length to.old) × (55 ≤ length tos.old) }
    ensures { SearchedBy first table.now (form_by kind n rows.now coefs.now) result to.new tos.new }
{
    let end = n * 40960;
    let mut at = first * 40960;
    // A `while`, since a turn does not go to the next place but to the one behind the candidate tried.
    while at < end {
        let i = at / 40960;
        let row = rows[i];
        let t = term_of(row, coefs[i]);
        let Some(next) = next_candidate(marks, kind, t, at % 40960) else {
            at = (i + 1) * 40960;
            continue;
        };
        at = i * 40960 + next.next;
        let s = next.step;
        if let Ok(w) = try_step(table, kind, n, rows, coefs, s, to, tos) {
            let count = w.count;
            if count < n {
                return Some(Found {
                    behind: place_of(to, count, &row),
                    count,
                    step: s,
                });
            }
        }
    }
    None
}
