// Candidates for a step to fewer terms, one after the other: each takes one standing term away exactly.
ghost use Rattle.std.specs.Prelude.{◌≡◌, false, ◌⊎◌, ◌+◌, ◌%◌, ◌^◌, ◌<◌, ◌≤◌, [], T, eqb, length, get_or};
ghost use Rattle.specification.specs.Results.{when◌then◌else◌};
ghost use Rattle.specification.specs.Letters.{vector};
ghost use Rattle.specification.specs.Rules.{is_rule, rule_letters, rule_kind};
ghost use Rattle.terms.specs.Abstraction.{part_of, term_of};
ghost use Rattle.terms.specs.Valid.{TermValid};
ghost use Rattle.picks.specs.Choosing.{LeftBy};
ghost use Rattle.candidates.specs.Trying.{SomeOpened, Tried, NextPick, RuledOut, NextOfMask, NextPlace};

use integers::{divide, neg};
use marking::marking::size_mark;
use marks::steps::{gain, mark_step, surely_longer};
use picks::choosing::{Opening, bit_digits, block_size, letters_left, mask_count, open, pick};
use rules::steps::{Step, rule_kind, rule_letters};
use terms::shape::part_letters;
use terms::types::{Part, Term};

// A step worth a trial, and the place behind it.
#[derive(Clone, Copy)]
pub struct Next {
    pub next: usize,
    pub step: Step,
}

// A term with another coefficient.
fn with_coef(c: i64, t: Term) -> Term
    ensures { result ≡ record { coef = c; factors = t.factors; factor_count = t.factor_count; part = t.part } }
{
    Term { coef: c, ..t }
}

// The candidate by a pick, if it is worth a trial: its M takes the term away exactly.
fn try_pick(marks: &[u8; 512], t: Term, rule: u8, o: Opening, j: usize) -> Option<Step>
    requires { (length marks.now ≡ 512) × TermValid t × T (is_rule rule) × SomeOpened t rule o × (j < 2 ^ rule_letters rule) }
    ensures { Tried marks.now t rule o j result }
{
    let letters = pick(&o.pool, rule, j)?;
    let m = o.m;
    let s = Step { rule, letters, m };
    let w = mark_step(s);
    if surely_longer(marks, 0, s, w) {
        return None;
    }
    let q = divide(neg(t.coef), gain(t, s, w))?;
    if surely_longer(marks, size_mark(q), s, w) {
        return None;
    }
    Some(Step {
        rule,
        letters,
        m: with_coef(q, m),
    })
}

// Whether a block can be taken without the first letter: in rule 5, where the block is first, only if the second is the same.
fn may_leave_first(pool: &[u32; 7], rule: u8) -> bool
    requires { length pool.now ≡ 7 }
    ensures { result ≡ false → (rule ≡ 5) × (get_or pool.now 0 0 < get_or pool.now 1 0) }
{
    if rule != 5 {
        return true;
    }
    pool[1] <= pool[0]
}

// Whether a mask can take a block of so many letters.
fn may_take_block(digits: &[u8; 64], block: u8, first: bool, j: usize) -> bool
    requires { (length digits.now ≡ 64) × (j < 64) × (block ≤ 4) }
    ensures { result ≡ false → (get_or digits.now j 0 ≡ 48 + block → ⊥) ⊎ ((first ≡ false) × (j % 2 ≡ 0)) }
{
    if digits[j] != b'0' + block {
        return false;
    }
    if first {
        return true;
    }
    j % 2 == 1
}

// The next pick of an opening that is worth a trial.
fn next_pick(marks: &[u8; 512], t: Term, rule: u8, o: Opening, from: usize) -> Option<Next>
    requires { (length marks.now ≡ 512) × TermValid t × T (is_rule rule) × SomeOpened t rule o × (from < 64) }
    ensures { NextPick marks.now t rule o from result }
{
    let end = mask_count(rule_letters(rule) as u8);
    let block = block_size(rule);
    let digits = bit_digits();
    let first = may_leave_first(&o.pool, rule);
    for j in from..end {
        if !may_take_block(&digits, block, first, j) {
            continue;
        }
        if let Some(step) = try_pick(marks, t, rule, o, j) {
            return Some(Next { next: j + 1, step });
        }
    }
    None
}

// How many letters of a vector part a rule takes.
fn rule_part(rule: u8, p: Part) -> usize
    ensures { result ≡ length (when eqb (rule_kind rule) vector then part_of p else []) }
{
    if rule_kind(rule) == 1 {
        return part_letters(p);
    }
    0
}

// Whether a rule can take the letters that a mask leaves, at a form of a kind: a rule of vectors is for vector forms alone.
fn is_open(kind: u8, left: usize, p: Part, rule: u8) -> bool
    requires { left ≤ 64 }
    ensures { result ≡ false → RuledOut kind left (part_of p) rule }
{
    let a = rule_kind(rule);
    if kind == 0 {
        if a == 1 {
            return false;
        }
    }
    left + rule_part(rule, p) == rule_letters(rule)
}

// The next candidate of a term that is worth a trial, by a mask that leaves so many letters.
fn next_of_mask(
    marks: &[u8; 512],
    kind: u8,
    t: Term,
    k: usize,
    left: usize,
    from: usize,
) -> Option<Next>
    requires { (length marks.now ≡ 512) × TermValid t × (k < 2 ^ t.factor_count) × LeftBy (term_of t).factors k left × (from < 320) }
    ensures { NextOfMask marks.now kind (term_of t) k from result }
{
    let p = t.part;
    let mut at = from % 64;
    for q in from / 64..5 {
        let start = at;
        at = 0;
        let rule = (q + 1) as u8;
        if !is_open(kind, left, p, rule) {
            continue;
        }
        let Some(o) = open(kind, t, k, rule) else {
            continue;
        };
        if let Some(n) = next_pick(marks, t, rule, o, start) {
            return Some(Next {
                next: q * 64 + n.next,
                step: n.step,
            });
        }
    }
    None
}

// The next candidate of a term that is worth a trial.
pub fn next_candidate(marks: &[u8; 512], kind: u8, t: Term, from: usize) -> Option<Next>
    requires { (length marks.now ≡ 512) × TermValid t × (from < 40960) }
    ensures { NextPlace marks.now kind (term_of t) from result }
{
    let end = mask_count(t.factor_count);
    let mut at = from % 320;
    for k in from / 320..end {
        let start = at;
        at = 0;
        let left = letters_left(&t.factors, t.factor_count, k);
        if left > 6 {
            continue;
        }
        if let Some(n) = next_of_mask(marks, kind, t, k, left, start) {
            return Some(Next {
                next: k * 320 + n.next,
                step: n.step,
            });
        }
    }
    None
}
