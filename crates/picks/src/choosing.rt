// What a mask over a term's factors gives M and leaves to a rule, and the letters that a mask over those gives the rule's block.
ghost use Rattle.std.specs.Prelude.{◌≡◌, [], ◌∷◌, map, ℕ, ◌-◌, ◌^◌, ◌<◌, ◌≤◌, T, ltb, pos, length, take};
ghost use Rattle.specification.specs.Lists.{joined, ascend};
ghost use Rattle.specification.specs.Rules.{is_rule, rule_letters};
ghost use Rattle.theory.specs.Elements.{All};
ghost use Rattle.theory.specs.Shortening.Candidates.{block_size};
ghost use Rattle.terms.specs.Numbers.{letters_of};
ghost use Rattle.terms.specs.Abstraction.{part_of, term_of, Counted};
ghost use Rattle.picks.specs.Choosing.{MaskTaken, bit_digits, LeftBy, Pooled, Adds, letters_left, MultiplierOf, PassesBy, OpenedBy, RuleOrdered, PickedBy};

use rules::steps::{Step, rule_kind, rule_letters, test_step};
use terms::build::{place, put_at};
use terms::factors::{Factor, letter_count, letters_of, low};
use terms::shape::in_shape;
use terms::types::{Part, Term};

// M with the coefficient 1, and the letters left to the rule in ascending order.
#[derive(Clone, Copy)]
pub struct Opening {
    pub m: Term,
    pub pool: [u32; 7],
}

// How many masks there are over so many numbers.
pub fn mask_count(n: u8) -> usize
    requires { n ≤ 7 }
    ensures { result ≡ 2 ^ n }
{
    match n {
        0 => 1,
        1 => 2,
        2 => 4,
        3 => 8,
        4 => 16,
        5 => 32,
        6 => 64,
        _ => 128,
    }
}

// How many bits stand in each mask over six letters, as digits.
pub fn bit_digits() -> [u8; 64]
    ensures { result ≡ bit_digits 0 64 }
{
    *b"0112122312232334122323342334344512232334233434452334344534454556"
}

// The numbers whose bit in a mask stands, in their order; how many they are.
fn take_by_mask(from: &[u32; 7], n: u8, mask: usize, to: &mut [u32; 7]) -> u8
    requires { (n ≤ 7) × (length from.now ≡ 7) × (length to.old ≡ 7) }
    ensures { MaskTaken (take n from.now) mask to.new result }
{
    let m = n as usize;
    let mut b = mask;
    let mut c: u8 = 0;
    for i in 0..m {
        if b % 2 == 1 {
            let k = c as usize;
            to[k] = from[i];
            c += 1;
        }
        b = b / 2;
    }
    c
}

// How many letters a mask leaves of n factors; 64, more than any rule takes, where a scalar letter is among them, since a rule takes vectors alone.
pub fn letters_left(f: &[u32; 7], n: u8, mask: usize) -> usize
    requires { (n ≤ 7) × (length f.now ≡ 7) }
    ensures { LeftBy (map letters_of (take n f.now)) mask result }
{
    let m = n as usize;
    let mut b = mask;
    let mut c: usize = 0;
    for i in 0..m {
        if b % 2 == 0 {
            let l = letter_count(f[i]);
            if l == 1 {
                return 64;
            }
            c += l;
        }
        b = b / 2;
    }
    c
}

// One more letter in a pool, in its place; seven letters stand for seven or more, which no rule takes.
fn add_letter(pool: &mut [u32; 7], n: u8, x: u32) -> u8
    requires { (n ≤ 7) × (length pool.old ≡ 7) × (x < 256) }
    ensures { Adds (x ∷ []) pool.old n pool.new result }
{
    if n > 6 {
        return 7;
    }
    let i = place(pool, n, x);
    put_at(pool, n, i, x);
    n + 1
}

// The letters of a factor in a pool.
fn add_factor(pool: &mut [u32; 7], n: u8, k: u32) -> u8
    requires { (n ≤ 7) × (length pool.old ≡ 7) × (k < 16843008) }
    ensures { Adds (letters_of k) pool.old n pool.new result }
{
    let f = letters_of(k);
    match f {
        Factor::Scalar(x) => add_letter(pool, n, x as u32),
        Factor::Dot(x, y) => {
            let a = add_letter(pool, n, y as u32);
            add_letter(pool, a, x as u32)
        }
        Factor::Triple(x, y, z) => {
            let a = add_letter(pool, n, z as u32);
            let b = add_letter(pool, a, y as u32);
            add_letter(pool, b, x as u32)
        }
    }
}

// The letters of a vector part in an empty pool.
fn add_part(pool: &mut [u32; 7], p: Part) -> u8
    requires { length pool.old ≡ 7 }
    ensures { Pooled (part_of p) pool.new result }
{
    match p {
        Part::Nothing => 0,
        Part::Letter(x) => add_letter(pool, 0, x as u32),
        Part::Wedge(x, y) => {
            let a = add_letter(pool, 0, y as u32);
            add_letter(pool, a, x as u32)
        }
    }
}

// The letters of n factors in a pool, from the last to the first.
fn add_factors(pool: &mut [u32; 7], n: u8, f: &[u32; 7], count: u8) -> u8
    requires { (n ≤ 7) × (length pool.old ≡ 7) × (count ≤ 7) × (length f.now ≡ 7) × All (λ (k : ℕ). k < 16843008) (take count f.now) }
    ensures { Adds (joined (map letters_of (take count f.now))) pool.old n pool.new result }
{
    let mut c = n;
    for i in (0..count as usize).rev() {
        c = add_factor(pool, c, f[i]);
    }
    c
}

// The letters that M leaves to a rule, in a pool.
fn fill_pool(pool: &mut [u32; 7], t: Term, k: usize, rule: u8) -> u8
    requires { Counted t × (length pool.old ≡ 7) × (k < 2 ^ t.factor_count) }
    ensures { Pooled (letters_left (term_of t) k rule) pool.new result }
{
    let p = t.part;
    let n = t.factor_count;
    let mut c: u8 = 0;
    if rule_kind(rule) == 1 {
        c = add_part(pool, p);
    }
    let left = mask_count(n) - 1 - k;
    let mut f = [0u32; 7];
    let m = take_by_mask(&t.factors, n, left, &mut f);
    add_factors(pool, c, &f, m)
}

// M with the coefficient 1: the factors that the mask takes, and the vector part unless the rule has it.
fn unit_multiplier(t: Term, k: usize, rule: u8) -> Term
    requires { Counted t }
    ensures { MultiplierOf t k rule result }
{
    let mut p = t.part;
    if rule_kind(rule) == 1 {
        p = Part::Nothing;
    }
    let mut f = [0u32; 7];
    let n = take_by_mask(&t.factors, t.factor_count, k, &mut f);
    Term {
        coef: 1,
        factors: f,
        factor_count: n,
        part: p,
    }
}

// Whether a step by such an M passes the tests of its shape, its kinds and its number of letters at a form of a kind.
fn can_pass(kind: u8, rule: u8, m: Term) -> bool
    requires { T (is_rule rule) × Counted m × (m.coef ≡ pos 1) }
    ensures { PassesBy result kind rule m }
{
    let n = m.factor_count;
    let p = m.part;
    if !in_shape(1, &m.factors, n, p) {
        return false;
    }
    let letters = [0u8; 6];
    let s = Step { rule, letters, m };
    test_step(kind, s).is_ok()
}

// What a mask over a term's factors gives M and leaves to a rule, if such a step can pass.
pub fn open(kind: u8, t: Term, k: usize, rule: u8) -> Option<Opening>
    requires { T (is_rule rule) × Counted t × (k < 2 ^ t.factor_count) }
    ensures { OpenedBy kind t k rule result }
{
    let mut pool = [0u32; 7];
    let n = fill_pool(&mut pool, t, k, rule) as usize;
    let m = unit_multiplier(t, k, rule);
    if n != rule_letters(rule) {
        return None;
    }
    if !can_pass(kind, rule, m) {
        return None;
    }
    Some(Opening { m, pool })
}

// How many letters of a rule ascend as one block.
pub fn block_size(rule: u8) -> u8
    ensures { result ≡ block_size rule }
{
    match rule {
        2 => 4,
        3 => 4,
        _ => 3,
    }
}

// Whether n numbers ascend strictly.
fn ascend_strictly(f: &[u32; 7], n: u8) -> bool
    requires { (n ≤ 7) × (length f.now ≡ 7) }
    ensures { result ≡ ascend ltb (take n f.now) }
{
    for i in 1..n as usize {
        if f[i] <= f[i - 1] {
            return false;
        }
    }
    true
}

// The block and the other letters in the order of a rule.
fn in_rule_order(rule: u8, x: &[u32; 7], y: &[u32; 7]) -> [u8; 6]
    requires { T (is_rule rule) × (length x.now ≡ 7) × (length y.now ≡ 7) }
    ensures { RuleOrdered rule x.now y.now result }
{
    let mut d = y[0];
    if rule == 2 {
        d = x[3];
    }
    let mut e = y[1];
    if rule == 3 {
        e = x[3];
    }
    let l0 = low(x[0]);
    let l1 = low(x[1]);
    let l2 = low(x[2]);
    let l3 = low(d);
    let l4 = low(e);
    let l5 = low(y[2]);
    [l0, l1, l2, l3, l4, l5]
}

// The letters of a rule in their order by a mask over the pool, if it takes a block.
pub fn pick(pool: &[u32; 7], rule: u8, j: usize) -> Option<[u8; 6]>
    requires rule { T (is_rule rule) × (length pool.now ≡ 7) × (j < 2 ^ rule_letters rule) }
    requires small { All (λ (x : ℕ). x < 256) (take (rule_letters rule) pool.now) }
    ensures { PickedBy (take (rule_letters rule) pool.now) rule j result }
{
    let n = rule_letters(rule) as u8;
    let mut x = [0u32; 7];
    let a = take_by_mask(pool, n, j, &mut x);
    if a != block_size(rule) {
        return None;
    }
    if !ascend_strictly(&x, a) {
        return None;
    }
    let left = mask_count(n) - 1 - j;
    let mut y = [0u32; 7];
    let b = take_by_mask(pool, n, left, &mut y);
    if !ascend_strictly(&y, b) {
        return None;
    }
    if rule == 5 {
        if x[0] > y[0] {
            return None;
        }
    }
    Some(in_rule_order(rule, &x, &y))
}
