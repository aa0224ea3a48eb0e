// A quick test that a step leads to no fewer terms, and what a step adds to one term.
// A product of M with a row of the rule whose mark no term has adds a term; one whose mark only terms of other sizes have takes none away; any other
// takes away at most one.
ghost use Rattle.std.specs.Prelude.{◌≡◌, true, false, ◌⊎◌, [], ◌%◌, ◌≤◌, length, take};
ghost use Rattle.specification.specs.Terms.{times_term, gather};
ghost use Rattle.specification.specs.Rules.{step_terms};
ghost use Rattle.theory.specs.Order.{monomial};
ghost use Rattle.theory.specs.Gathering.Coefficients.{coeff};
ghost use Rattle.terms.specs.Abstraction.{part_of, term_of, Counted};
ghost use Rattle.terms.specs.Valid.{TermValid};
ghost use Rattle.rule_table.specs.Table.{part_at, row_term};
ghost use Rattle.rules.specs.Steps.{step_of, StepValid, StepFits};
ghost use Rattle.marks.specs.Steps.{Among, NotShorter, Carried, StepMarked, RowGained};

use integers::add;
use marking::marking::{factors_mark, part_mark, term_mark};
use marking::products::{letter_marks, product_mark, row_score};
use rule_table::{rule_rows, times_row};
use rules::steps::{Step, row_count};
use terms::order::compare;
use terms::types::Term;

// The marks of a step: those of M's factors and of its vector part, and those of the rule's letters at their places.
#[derive(Clone, Copy)]
pub struct StepMarks {
    pub factors: u64,
    pub part: u64,
    pub letters: [u64; 8],
}

// The marks of a step.
pub fn mark_step(s: Step) -> StepMarks
    requires { Counted s.m }
    ensures { StepMarked s.letters (term_of s.m) result }
{
    StepMarks {
        factors: factors_mark(&s.m.factors, s.m.factor_count),
        part: part_mark(s.m.part),
        letters: letter_marks(s.letters),
    }
}

// Whether a step with these marks surely leads no form with those marks to fewer terms, whatever the coefficient of M, if it has the size v; 0 stands for any.
// A product's mark is made when its row comes, since most steps are ruled out before the last.
pub fn surely_longer(marks: &[u8; 512], v: u8, s: Step, w: StepMarks) -> bool
    requires { StepValid s × StepFits s × StepMarked s.letters (term_of s.m) w × (length marks.now ≡ 512) }
    ensures { result ≡ true → NotShorter marks.now v (step_of s) }
{
    let rule = s.rule;
    let n = row_count(rule);
    let rows = rule_rows(rule);
    let mut hs = [0usize; 8];
    let mut score: usize = 0;
    for i in 0..n {
        if n <= score {
            return true;
        }
        let k = rows[i];
        let h = product_mark(w.factors, w.part, &w.letters, k);
        let seen = hs[..i].contains(&h);
        hs[i] = h;
        if seen {
            continue;
        }
        score += row_score(marks, v, h, &w.letters, k);
    }
    n <= score
}

// What M times a row adds to the monomial of a term.
fn row_gain(t: Term, m: Term, letters: [u8; 6], k: u64) -> i64
    requires counts { Counted t × TermValid m × (m.factor_count ≤ 4) }
    requires part { (part_of m.part ≡ []) ⊎ (part_at letters (k % 64) ≡ []) }
    ensures { RowGained (term_of t) (times_term (term_of m) (row_term letters k)) result }
{
    let u = times_row(m, letters, k);
    if compare(t, u).is_eq() {
        return u.coef;
    }
    0
}

// What a step with these marks adds to the monomial of a term. Only products with the term's mark are multiplied out.
pub fn gain(t: Term, s: Step, w: StepMarks) -> i64
    requires { Counted t × StepValid s × StepFits s × StepMarked s.letters (term_of s.m) w }
    ensures { result ≡ coeff (monomial (term_of t)) (gather (step_terms (step_of s))) }
{
    let m = s.m;
    let letters = s.letters;
    let rule = s.rule;
    let n = row_count(rule);
    let rows = rule_rows(rule);
    let h = term_mark(t);
    let mut g: i64 = 0;
    for i in 0..n {
        let k = rows[i];
        if product_mark(w.factors, w.part, &w.letters, k) == h {
            g = add(g, row_gain(t, m, letters, k));
        }
    }
    g
}

// 255 at the mark of each product of a step: any size may stand there once it is taken.
pub fn mark_reached(marks: &mut [u8; 512], s: Step)
    requires { StepValid s × (length marks.old ≡ 512) }
    ensures covering { Carried marks.old (step_of s) marks.new }
    ensures long { length marks.new ≡ 512 }
{
    let rule = s.rule;
    let n = row_count(rule);
    let rows = rule_rows(rule);
    let w = mark_step(s);
    for i in 0..n {
        let h = product_mark(w.factors, w.part, &w.letters, rows[i]);
        marks[h] = 255;
    }
}
