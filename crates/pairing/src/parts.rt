// What two vector parts make in a product, as document 01's identities have it, but for terms that vanish: no term, one, or two.
ghost use Rattle.std.specs.Prelude.{◌≡◌, ◌⊎◌, [], ◌∷◌, ◌++◌, ◌≤◌, ◌<◌, nat_abs, pos};
ghost use Rattle.specification.specs.Results.{when◌then◌else◌};
ghost use Rattle.specification.specs.Terms.{exchange_sign, is_zero, staying, plus, minus, dot_of, triple_of};
ghost use Rattle.specification.specs.Reduction.{times_parts, dot_parts, wedge_parts};
ghost use Rattle.terms.specs.Numbers.{letters_of};
ghost use Rattle.terms.specs.Abstraction.{part_of, term_of};
ghost use Rattle.pairing.specs.Parts.{parts_of, Small, Made, FewMade, Together};

use terms::factors::{dot_number, triple_number};
use terms::types::{Part, Term};
use tidying::join_parts;

// The operation of a product.
#[derive(Clone, Copy)]
pub enum Operation {
    Times,
    Dot,
    Wedge,
}

// At most two terms.
#[derive(Clone, Copy)]
pub struct Few {
    pub count: usize,
    pub first: Term,
    pub second: Term,
}

// A vector part alone.
fn alone(p: Part) -> Term
    ensures { Made (plus [] (part_of p)) result }
{
    let f = [0u32; 7];
    Term {
        coef: 1,
        factors: f,
        factor_count: 0,
        part: p,
    }
}

// One factor with a vector part.
fn with_factor(c: i64, k: u32, p: Part) -> Term
    requires { (nat_abs c ≤ 1) × (k < 16843008) }
    ensures { Made (record { coef = c; factors = letters_of k ∷ []; part = part_of p }) result }
{
    let mut f = [0u32; 7];
    f[0] = k;
    Term {
        coef: c,
        factors: f,
        factor_count: 1,
        part: p,
    }
}

// Two factors without a vector part.
fn with_factors(c: i64, k: u32, l: u32) -> Term
    requires { (nat_abs c ≤ 1) × (k < 16843008) × (l < 16843008) }
    ensures { Made (record { coef = c; factors = letters_of k ∷ letters_of l ∷ []; part = [] }) result }
{
    let mut f = [0u32; 7];
    f[0] = k;
    f[1] = l;
    let p = Part::Nothing;
    Term {
        coef: c,
        factors: f,
        factor_count: 2,
        part: p,
    }
}

// No term.
fn none() -> Few
    ensures { FewMade [] result }
{
    let p = Part::Nothing;
    let t = alone(p);
    Few {
        count: 0,
        first: t,
        second: t,
    }
}

// One term.
fn one(t: Term) -> Few
    requires { Small t }
    ensures { FewMade (term_of t ∷ []) result }
{
    Few {
        count: 1,
        first: t,
        second: t,
    }
}

// Two terms.
fn two(t: Term, u: Term) -> Few
    requires { Small t × Small u }
    ensures { FewMade (term_of t ∷ term_of u ∷ []) result }
{
    Few {
        count: 2,
        first: t,
        second: u,
    }
}

// One term, unless it vanishes. Only the count tells, so that no array is made twice.
fn one_unless(gone: bool, t: Term) -> Few
    requires { Small t }
    ensures { FewMade (when gone then [] else term_of t ∷ []) result }
{
    let n: usize = if gone { 0 } else { 1 };
    Few {
        count: n,
        first: t,
        second: t,
    }
}

// Two terms, or the first alone where the second vanishes.
fn two_unless(gone: bool, t: Term, u: Term) -> Few
    requires { Small t × Small u }
    ensures { FewMade (term_of t ∷ (when gone then [] else term_of u ∷ [])) result }
{
    let n: usize = if gone { 1 } else { 2 };
    Few {
        count: n,
        first: t,
        second: u,
    }
}

// One dot, without a vector part.
fn dot_alone(a: u8, b: u8) -> Few
    ensures { FewMade (plus (dot_of a b ∷ []) [] ∷ []) result }
{
    let p = Part::Nothing;
    one(with_factor(1, dot_number(a, b), p))
}

// Two letters of a triple are equal: it makes its term vanish.
pub fn vanishing(a: u8, b: u8, c: u8) -> bool
    ensures { result ≡ is_zero (exchange_sign (a ∷ b ∷ c ∷ [])) }
{
    if a == b {
        return true;
    }
    if a == c {
        return true;
    }
    b == c
}

// One triple, without a vector part.
fn triple_alone(a: u8, b: u8, c: u8) -> Few
    ensures { FewMade (staying (plus (triple_of a b c ∷ []) [] ∷ [])) result }
{
    let p = Part::Nothing;
    one_unless(
        vanishing(a, b, c),
        with_factor(1, triple_number(a, b, c), p),
    )
}

// Two factors with a letter each, the second with the sign turned.
fn two_letters(k: u32, a: u8, l: u32, b: u8) -> Few
    requires { (k < 16843008) × (l < 16843008) }
    ensures { FewMade (plus (letters_of k ∷ []) (a ∷ []) ∷ minus (letters_of l ∷ []) (b ∷ []) ∷ []) result }
{
    let p = Part::Letter(a);
    let q = Part::Letter(b);
    two(with_factor(1, k, p), with_factor(-1, l, q))
}

// A letter dot a vector part.
fn dot_letter(a: u8, q: Part) -> Few
    ensures { FewMade (staying (dot_parts (a ∷ []) (part_of q))) result }
{
    match q {
        Part::Nothing => none(),
        Part::Letter(b) => dot_alone(a, b),
        Part::Wedge(b, c) => triple_alone(a, b, c),
    }
}

// A wedge dot a wedge.
fn dot_wedges(a: u8, b: u8, c: u8, d: u8) -> Few
    ensures { FewMade (dot_parts (a ∷ b ∷ []) (c ∷ d ∷ [])) result }
{
    let t = with_factors(1, dot_number(a, c), dot_number(b, d));
    let u = with_factors(-1, dot_number(a, d), dot_number(b, c));
    two(t, u)
}

// A wedge dot a vector part.
fn dot_wedge(a: u8, b: u8, q: Part) -> Few
    ensures { FewMade (staying (dot_parts (a ∷ b ∷ []) (part_of q))) result }
{
    match q {
        Part::Nothing => none(),
        Part::Letter(c) => triple_alone(a, b, c),
        Part::Wedge(c, d) => dot_wedges(a, b, c, d),
    }
}

// A vector part dot a vector part.
fn dot_parts(p: Part, q: Part) -> Few
    ensures { FewMade (staying (dot_parts (part_of p) (part_of q))) result }
{
    match p {
        Part::Nothing => none(),
        Part::Letter(a) => dot_letter(a, q),
        Part::Wedge(a, b) => dot_wedge(a, b, q),
    }
}

// The wedge of two letters.
fn wedge_alone(a: u8, b: u8) -> Few
    ensures { FewMade (staying (plus [] (a ∷ b ∷ []) ∷ [])) result }
{
    let p = Part::Wedge(a, b);
    one_unless(a == b, alone(p))
}

// A letter wedge a vector part.
fn wedge_letter(a: u8, q: Part) -> Few
    ensures { FewMade (staying (wedge_parts (a ∷ []) (part_of q))) result }
{
    match q {
        Part::Nothing => none(),
        Part::Letter(b) => wedge_alone(a, b),
        Part::Wedge(b, c) => two_letters(dot_number(a, c), b, dot_number(a, b), c),
    }
}

// A wedge wedge a wedge: each of the two terms by itself.
fn wedge_wedges(a: u8, b: u8, c: u8, d: u8) -> Few
    ensures { FewMade (staying (wedge_parts (a ∷ b ∷ []) (c ∷ d ∷ []))) result }
{
    let p = Part::Letter(c);
    let q = Part::Letter(d);
    let x = with_factor(1, triple_number(a, b, d), p);
    let y = with_factor(-1, triple_number(a, b, c), q);
    let second = vanishing(a, b, c);
    if vanishing(a, b, d) {
        return one_unless(second, y);
    }
    two_unless(second, x, y)
}

// A wedge wedge a vector part.
fn wedge_wedge(a: u8, b: u8, q: Part) -> Few
    ensures { FewMade (staying (wedge_parts (a ∷ b ∷ []) (part_of q))) result }
{
    match q {
        Part::Nothing => none(),
        Part::Letter(c) => two_letters(dot_number(a, c), b, dot_number(b, c), a),
        Part::Wedge(c, d) => wedge_wedges(a, b, c, d),
    }
}

// A vector part wedge a vector part.
fn wedge_parts(p: Part, q: Part) -> Few
    ensures { FewMade (staying (wedge_parts (part_of p) (part_of q))) result }
{
    match p {
        Part::Nothing => none(),
        Part::Letter(a) => wedge_letter(a, q),
        Part::Wedge(a, b) => wedge_wedge(a, b, q),
    }
}

// The one of two vector parts that is there, its letters in order.
fn times_parts(p: Part, q: Part) -> Few
    requires { ((part_of p ≡ []) ⊎ (part_of q ≡ [])) × (exchange_sign (part_of p ++ part_of q) ≡ pos 1) }
    ensures { FewMade (staying (times_parts (part_of p) (part_of q))) result }
{
    let o = join_parts(p, q);
    one(alone(o))
}

// What two vector parts make in a product, but for terms that vanish.
pub fn parts(op: Operation, p: Part, q: Part) -> Few
    requires { Together op (part_of p) (part_of q) }
    ensures { FewMade (staying (parts_of op (part_of p) (part_of q))) result }
{
    match op {
        Operation::Times => times_parts(p, q),
        Operation::Dot => dot_parts(p, q),
        Operation::Wedge => wedge_parts(p, q),
    }
}
