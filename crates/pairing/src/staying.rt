// Whether one of the terms that two vector parts make stays, seen on their letters alone: no term is made for it.
ghost use Rattle.std.specs.Prelude.{◌≡◌, [], ◌∷◌};
ghost use Rattle.specification.specs.Terms.{staying};
ghost use Rattle.specification.specs.Reduction.{dot_parts, wedge_parts};
ghost use Rattle.terms.specs.Abstraction.{part_of};
ghost use Rattle.pairing.specs.Parts.{parts_of, is_some, Together};

use crate::parts::{Operation, vanishing};
use terms::types::Part;

// A letter dot a vector part: what it makes stays unless the letter is in the wedge.
fn dot_letter_stays(a: u8, q: Part) -> bool
    ensures { result ≡ is_some (staying (dot_parts (a ∷ []) (part_of q))) }
{
    match q {
        Part::Nothing => false,
        Part::Letter(_) => true,
        Part::Wedge(b, c) => !vanishing(a, b, c),
    }
}

// A wedge dot a vector part.
fn dot_wedge_stays(a: u8, b: u8, q: Part) -> bool
    ensures { result ≡ is_some (staying (dot_parts (a ∷ b ∷ []) (part_of q))) }
{
    match q {
        Part::Nothing => false,
        Part::Letter(c) => !vanishing(a, b, c),
        Part::Wedge(_, _) => true,
    }
}

// A vector part dot a vector part.
fn dot_stays(p: Part, q: Part) -> bool
    ensures { result ≡ is_some (staying (dot_parts (part_of p) (part_of q))) }
{
    match p {
        Part::Nothing => false,
        Part::Letter(a) => dot_letter_stays(a, q),
        Part::Wedge(a, b) => dot_wedge_stays(a, b, q),
    }
}

// A letter wedge a vector part.
fn wedge_letter_stays(a: u8, q: Part) -> bool
    ensures { result ≡ is_some (staying (wedge_parts (a ∷ []) (part_of q))) }
{
    match q {
        Part::Nothing => false,
        Part::Letter(b) => a != b,
        Part::Wedge(_, _) => true,
    }
}

// A wedge wedge a wedge: one of two triples has three different letters.
fn wedges_stay(a: u8, b: u8, c: u8, d: u8) -> bool
    ensures { result ≡ is_some (staying (wedge_parts (a ∷ b ∷ []) (c ∷ d ∷ []))) }
{
    if vanishing(a, b, d) {
        return !vanishing(a, b, c);
    }
    true
}

// A wedge wedge a vector part.
fn wedge_wedge_stays(a: u8, b: u8, q: Part) -> bool
    ensures { result ≡ is_some (staying (wedge_parts (a ∷ b ∷ []) (part_of q))) }
{
    match q {
        Part::Nothing => false,
        Part::Letter(_) => true,
        Part::Wedge(c, d) => wedges_stay(a, b, c, d),
    }
}

// A vector part wedge a vector part.
fn wedge_stays(p: Part, q: Part) -> bool
    ensures { result ≡ is_some (staying (wedge_parts (part_of p) (part_of q))) }
{
    match p {
        Part::Nothing => false,
        Part::Letter(a) => wedge_letter_stays(a, q),
        Part::Wedge(a, b) => wedge_wedge_stays(a, b, q),
    }
}

// Two vector parts make a term that stays.
pub fn stays(op: Operation, p: Part, q: Part) -> bool
    requires { Together op (part_of p) (part_of q) }
    ensures { result ≡ is_some (staying (parts_of op (part_of p) (part_of q))) }
{
    match op {
        Operation::Times => true,
        Operation::Dot => dot_stays(p, q),
        Operation::Wedge => wedge_stays(p, q),
    }
}
