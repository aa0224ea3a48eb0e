// One step applied to a form: M times each term of a rule's left side less M times each term of its right side, gathered with the form.
ghost use Rattle.std.specs.Prelude.{IfErr, IfOk, ◌≡◌, [], ◌+◌, ◌*◌, ◌≤◌, leb, nat_abs, length};
ghost use Rattle.specification.specs.Terms.{vector_letters};
ghost use Rattle.specification.specs.Rules.{rule_letters, rule_kind, step_kinds_fit, take_step};
ghost use Rattle.terms.specs.Abstraction.{part_of};
ghost use Rattle.rows.specs.Rows.{Run, Light, form_by, FormRun, RowsGive};
ghost use Rattle.gathering.specs.Bringing.{coef_bound};
ghost use Rattle.rule_table.specs.Table.{row_count};
ghost use Rattle.theory.specs.Shape.Terms.{kind_of_part};
ghost use Rattle.refusal.specs.Tests.{test_of};
ghost use Rattle.rules.specs.Steps.{step_of, StepValid, step_tests, StepFits, StepBrought, LeftBehind};

use gathering::bringing::bring;
use integers::size;
use limits::test_limits;
use refusal::Refusal;
use rows::{Worked, row_of};
use rule_table::{rule_rows, times_row};
use terms::shape::{letters_used, part_letters};
use terms::types::{Part, Term};

// A step: the rule's number, its letters in their order, and the term M. A rule with fewer letters uses the first ones.
#[derive(Clone, Copy)]
pub struct Step {
    pub rule: u8,
    pub letters: [u8; 6],
    pub m: Term,
}

// How many letters a rule has.
pub fn rule_letters(rule: u8) -> usize
    ensures { (result ≡ rule_letters rule) × (result ≤ 6) }
{
    match rule {
        0..=2 => 4,
        3..=4 => 5,
        _ => 6,
    }
}

// The kind of a rule's sides: 0 scalar, 1 vector.
pub fn rule_kind(rule: u8) -> u8
    ensures { result ≡ rule_kind rule }
{
    match rule {
        3 => 0,
        5 => 0,
        _ => 1,
    }
}

// How many rows of the table a rule has.
pub fn row_count(rule: u8) -> usize
    ensures { result ≡ row_count rule }
{
    if rule == 5 { 7 } else { 4 }
}

// The kind of a term with this vector part.
fn part_kind(p: Part) -> u8
    ensures { result ≡ kind_of_part (part_of p) }
{
    match p {
        Part::Nothing => 0,
        Part::Letter(_) => 1,
        Part::Wedge(_, _) => 1,
    }
}

// Whether a step's kinds agree with those of a form of a kind.
fn kinds_fit(kind: u8, s: Step) -> bool
    ensures { result ≡ step_kinds_fit (record { kind = kind; terms = [] }) (step_of s) }
{
    let a = rule_kind(s.rule);
    let m = s.m;
    let p = m.part;
    let b = part_kind(p);
    if a != 1 {
        return kind == b;
    }
    if b != 0 {
        return false;
    }
    kind == 1
}

// Whether M's and the rule's vector letters are at most six.
fn letters_fit(s: Step) -> bool
    requires { StepValid s }
    ensures { result ≡ leb (vector_letters (step_of s).m + rule_letters s.rule) 6 }
{
    let m = s.m;
    let n = m.factor_count;
    let p = m.part;
    let u = letters_used(&m.factors, n);
    u.vectors + part_letters(p) + rule_letters(s.rule) <= 6
}

// A step whose kinds agree with those of a form of a kind, M and the rule without too many letters.
pub fn test_step(kind: u8, s: Step) -> Result<(), Refusal>
    requires { StepValid s }
    ensures { test_of result ≡ step_tests kind (step_of s) }
{
    if !kinds_fit(kind, s) {
        return Err(Refusal::WrongKind);
    }
    if !letters_fit(s) {
        return Err(Refusal::ManyLetters);
    }
    Ok(())
}

// The terms of a step brought in among n rows: M times each row of the rule; how many rows there are then.
fn bring_step(rows: &mut [[u32; 8]], coefs: &mut [i64], n: usize, s: Step) -> usize
    requires run { Run n rows.old coefs.old × Light 2147483647 n coefs.old × (n + 7 ≤ length rows.old) × (n + 7 ≤ length coefs.old) }
    requires step { StepValid s × StepFits s }
    ensures { StepBrought n rows.old coefs.old s result rows.new coefs.new }
{
    let m = s.m;
    let letters = s.letters;
    let rule = s.rule;
    let count = row_count(rule);
    let table = rule_rows(rule);
    let mut held = n;
    for i in 0..count {
        let t = times_row(m, letters, table[i]);
        let r = row_of(t);
        held = bring(rows, coefs, held, r, t.coef);
    }
    held
}

// A bound on the coefficients behind a step, by one on those before it: a rule has at most seven rows.
pub fn raised(bound: u64, c: i64) -> u64
    requires { (bound ≤ coef_bound) × (nat_abs c ≤ 2147483647) }
    ensures { result ≡ bound + 7 * nat_abs c }
{
    bound + 7 * size(c)
}

// A step taken at the form of a kind in n rows, which become those of the form reached: 6, 8, then 9 and 10 of the gathered form.
// No coefficient is larger than the bound, where the step is refused too; while it is small, 9 needs no look at them.
pub fn take_step(
    kind: u8,
    n: usize,
    rows: &mut [[u32; 8]],
    coefs: &mut [i64],
    s: Step,
    bound: u64,
) -> Result<Worked, Refusal>
    requires { FormRun kind n rows.old coefs.old × StepValid s × (n + 7 ≤ length rows.old) × (n + 7 ≤ length coefs.old) × Light bound n coefs.old × (bound ≤ coef_bound) }
    ensures reached { RowsGive (take_step (form_by kind n rows.old coefs.old) (step_of s)) result rows.new coefs.new }
    ensures kind { IfOk result (λ w. w.kind ≡ kind) }
    ensures light { IfOk result (λ w. Light (bound + 7 * nat_abs s.m.coef) w.count coefs.new) }
    ensures left { IfErr result (λ _. LeftBehind n rows.old coefs.old s (bound + 7 * nat_abs s.m.coef) rows.new coefs.new) }
{
    test_step(kind, s)?;
    let m = bring_step(rows, coefs, n, s);
    let b = raised(bound, s.m.coef);
    test_limits(coefs, m, b)?;
    Ok(Worked { kind, count: m })
}
