// The decision of two forms in words: it holds, or an assignment and what each side is under it.
#![tactic(auto)]

ghost use Rattle.std.specs.Prelude.{◌≡◌, true, ◌≤◌, length};
ghost use Rattle.specification.specs.Lists.{all};
ghost use Rattle.specification.specs.Evaluation.{six_or_less, assignment, value};
ghost use Rattle.specification.specs.Decision.{differs};
ghost use Rattle.specification.specs.Commands.{value_text, decision_text, DecisionTold};
ghost use Rattle.terms.specs.Abstraction.{form_of};
ghost use Rattle.terms.specs.Valid.{FormValid};
ghost use Rattle.decision.specs.Answers.{decision_of};
ghost use Rattle.telling.specs.Told.{Told, Tells, AnswerTold};
ghost use Rattle.decision_telling.specs.Comparisons.{is_differs, Comparable};

use decision::{BUFFER_BYTES, Decision, WORK_BYTES, components, settle};
use evaluation::values::form_value;
use telling::put;
use terms::types::Form;
use value_telling::{tell_assignment, tell_value};

// What a form is under an assignment.
fn tell_form_value(out: &mut [u8], at: usize, s: &[u8], f: Form) -> usize
    requires { (all six_or_less s.now ≡ true) × FormValid f }
    ensures { Tells out.old out.new at result (value_text (form_of f).kind (value (assignment s.now) (form_of f))) }
{
    let v = form_value(s, f);
    tell_value(out, at, f.kind, v)
}

// Two forms that differ: an assignment, and what each is under it.
fn tell_difference(out: &mut [u8], names: &[u8], table: &[u8], f: Form, g: Form, s: &[u8]) -> usize
    requires { (all six_or_less s.now ≡ true) × FormValid f × FormValid g × (length names.now ≤ length table.now) × (length names.now ≤ 24) }
    ensures { Told out.new result (decision_text names.now table.now (form_of f) (form_of g) s.now differs) }
{
    let a = put(out, 0, b"differs\n");
    let b = tell_assignment(out, a, names, table, s);
    let c = put(out, b, b"\nleft = ");
    let d = tell_form_value(out, c, s, f);
    let e = put(out, d, b"\nright = ");
    let h = tell_form_value(out, e, s, g);
    put(out, h, b"\n")
}

// Whether a decision says that two forms differ.
fn says_differs(d: Decision) -> bool
    ensures { result ≡ is_differs (decision_of d) }
{
    match d {
        Decision::Holds => false,
        Decision::Differs => true,
        Decision::Refused(_) => false,
    }
}

// The decision of two forms, told.
pub fn tell_decision(out: &mut [u8], names: &[u8], table: &[u8], f: Form, g: Form) -> usize
    requires { Comparable names.now table.now f g }
    ensures { AnswerTold (DecisionTold names.now table.now (form_of f) (form_of g)) out.new result }
{
    let mut buffer = [0u8; BUFFER_BYTES];
    let mut work = [0u8; WORK_BYTES];
    let m = components(f.kind);
    let d = settle(table, f, g, m, &mut buffer, &mut work);
    if says_differs(d) {
        return tell_difference(out, names, table, f, g, &buffer);
    }
    put(out, 0, b"holds\n")
}
