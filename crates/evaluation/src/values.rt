// Values of factors, vector parts, terms and forms under an assignment.
ghost use Rattle.std.specs.Prelude.{◌≡◌, true, ◌<◌};
ghost use Rattle.specification.specs.Lists.{all};
ghost use Rattle.specification.specs.Evaluation.{six_or_less, assignment, factor_value, factors_value, part_value, term_value};
ghost use Rattle.specification.specs.Evaluation as S;
ghost use Rattle.terms.specs.Numbers.{letters_of};
ghost use Rattle.terms.specs.Abstraction.{part_of, term_of, form_of};
ghost use Rattle.terms.specs.Valid.{TermValid, FormValid};
ghost use Rattle.evaluation.specs.Vectors.{vec_of};

use crate::assignments::{component, vector_of};
use crate::vectors::{Vector, dot, plus, times, triple, wedge};
use integers::mul;
use terms::factors::{Factor, letters_of};
use terms::types::{Form, Part, Term};

// A factor: a scalar letter, a dot or a triple.
fn factor_value(s: &[u8], k: u32) -> i64
    requires { (all six_or_less s.now ≡ true) × (k < 16843008) }
    ensures { result ≡ factor_value (assignment s.now) (letters_of k) }
{
    match letters_of(k) {
        Factor::Scalar(x) => component(s, 3 * x as usize),
        Factor::Dot(x, y) => dot(vector_of(s, x), vector_of(s, y)),
        Factor::Triple(x, y, z) => triple(vector_of(s, x), vector_of(s, y), vector_of(s, z)),
    }
}

// The product of the factors of a term, from the last to the first.
fn factors_value(s: &[u8], t: Term) -> i64
    requires { (all six_or_less s.now ≡ true) × TermValid t }
    ensures { result ≡ factors_value (assignment s.now) (term_of t).factors }
{
    let mut v: i64 = 1;
    for i in (0..t.factor_count as usize).rev() {
        v = mul(factor_value(s, t.factors[i]), v);
    }
    v
}

// A vector part; nothing is the scalar 1.
fn part_value(s: &[u8], p: Part) -> Vector
    requires { all six_or_less s.now ≡ true }
    ensures { vec_of result ≡ part_value (assignment s.now) (part_of p) }
{
    match p {
        Part::Nothing => Vector { x: 1, y: 0, z: 0 },
        Part::Letter(a) => vector_of(s, a),
        Part::Wedge(a, b) => wedge(vector_of(s, a), vector_of(s, b)),
    }
}

// A term.
fn term_value(s: &[u8], t: Term) -> Vector
    requires { (all six_or_less s.now ≡ true) × TermValid t }
    ensures { vec_of result ≡ term_value (assignment s.now) (term_of t) }
{
    let k = mul(t.coef, factors_value(s, t));
    times(k, part_value(s, t.part))
}

// A form, from its last term to its first.
pub fn form_value(s: &[u8], f: Form) -> Vector
    requires { (all six_or_less s.now ≡ true) × FormValid f }
    ensures { vec_of result ≡ S.value (assignment s.now) (form_of f) }
{
    let mut v = Vector { x: 0, y: 0, z: 0 };
    for n in (0..f.count).rev() {
        v = plus(term_value(s, f.terms[n]), v);
    }
    v
}
