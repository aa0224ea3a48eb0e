// A step alone at a form: its shape (11), its letters in byte order (5, 6), then the step itself (6, 8, 9, 10). Admissible where nothing is refused.
ghost use Rattle.std.specs.Prelude.{IfOk, ◌≡◌, ◌+◌, ◌≤◌, length, take};
ghost use Rattle.specification.specs.Letters.{vector, test_letters};
ghost use Rattle.specification.specs.Rules.{is_rule, test_step_letters, step_at};
ghost use Rattle.terms.specs.Abstraction.{Counted};
ghost use Rattle.rows.specs.Rows.{form_by, FormRun, RowsGive};
ghost use Rattle.refusal.specs.Tests.{test_of};
ghost use Rattle.rules.specs.Steps.{step_of};

use crate::steps::{Step, rule_letters, take_step};
use letters::{test_letter, test_term};
use refusal::Refusal;
use rows::Worked;
use terms::shape::in_shape;

// Whether a number is that of a rule.
pub fn is_rule(rule: u8) -> bool
    ensures { result ≡ is_rule rule }
{
    match rule {
        1..=5 => true,
        _ => false,
    }
}

// The first n of a rule's letters: each a vector of the table.
fn test_rule_letters(table: &[u8], letters: [u8; 6], n: usize) -> Result<(), Refusal>
    requires { n ≤ 6 }
    ensures { test_of result ≡ test_letters table.now vector (take n letters) }
{
    for i in 0..n {
        test_letter(table, 1, letters[i])?;
    }
    Ok(())
}

// The letters of a step in byte order: the rule's, then M's.
pub fn test_step_letters(table: &[u8], s: Step) -> Result<(), Refusal>
    requires { Counted s.m }
    ensures { test_of result ≡ test_step_letters table.now (step_of s) }
{
    test_rule_letters(table, s.letters, rule_letters(s.rule))?;
    test_term(table, s.m)
}

// A step alone, with the form of a kind in n rows as the current one; they become those of the form reached.
pub fn step_at(
    table: &[u8],
    kind: u8,
    n: usize,
    rows: &mut [[u32; 8]],
    coefs: &mut [i64],
    s: Step,
) -> Result<Worked, Refusal>
    requires { FormRun kind n rows.old coefs.old × Counted s.m × (n + 7 ≤ length rows.old) × (n + 7 ≤ length coefs.old) }
    ensures reached { RowsGive (step_at table.now (form_by kind n rows.old coefs.old) (step_of s)) result rows.new coefs.new }
    ensures kind { IfOk result (λ w. w.kind ≡ kind) }
{
    if !is_rule(s.rule) {
        return Err(Refusal::WrongShape);
    }
    let m = s.m;
    if !in_shape(m.coef, &m.factors, m.factor_count, m.part) {
        return Err(Refusal::WrongShape);
    }
    test_step_letters(table, s)?;
    take_step(kind, n, rows, coefs, s, 2147483647)
}
