// Logs written into lent bytes.
ghost use Rattle.std.specs.Prelude.{◌+◌, ◌*◌, ◌≤◌, length};
ghost use Rattle.specification.specs.Records.{form_bytes};
ghost use Rattle.specification.specs.Logs.{write_step, write_steps};
ghost use Rattle.terms.specs.Abstraction.{form_of};
ghost use Rattle.terms.specs.Valid.{FormValid};
ghost use Rattle.record_writing.specs.Written.{Written};
ghost use Rattle.rules.specs.Steps.{step_of, StepValid};
ghost use Rattle.logs.specs.Steps.{steps_of, StepsValid};
ghost use Rattle.logs.specs.Writing.{LogWritten};

use crate::steps::Steps;
use forms::write_form;
use record_writing::write_term;
use rules::steps::{Step, rule_letters};
use terms::types::Form;

// Letters, a rule's or a table's, from a position on.
pub fn write_letters(out: &mut [u8], at: usize, letters: &[u8]) -> usize
    requires { at + length letters.now ≤ length out.old }
    ensures { Written out.old out.new at result letters.now }
{
    let n = letters.len();
    for i in 0..n {
        out[at + i] = letters[i];
    }
    at + n
}

// The record of a step: the rule's number, its letters, and the term M.
pub fn write_step(out: &mut [u8], at: usize, s: Step) -> usize
    requires { StepValid s × (at + 23 ≤ length out.old) }
    ensures { Written out.old out.new at result (write_step (step_of s)) }
{
    let m = s.m;
    let letters = s.letters;
    let n = rule_letters(s.rule);
    out[at] = s.rule;
    let behind = write_letters(out, at + 1, &letters[..n]);
    write_term(out, behind, m)
}

// The records of the steps, one behind the other.
fn write_steps(out: &mut [u8], at: usize, q: Steps) -> usize
    requires { StepsValid q × (at + 23 * q.count ≤ length out.old) }
    ensures { Written out.old out.new at result (write_steps (steps_of q)) }
{
    let n = q.count;
    let mut next = at;
    for i in 0..n {
        let s = q.steps[i];
        next = write_step(out, next, s);
    }
    next
}

// The log: the first form, the number of steps, the steps, the last form.
pub fn write_log(out: &mut [u8], f: Form, q: Steps, g: Form) -> usize
    requires { FormValid f × StepsValid q × FormValid g × (form_bytes + 1 + 23 * q.count + (2 + 16 * g.count) ≤ length out.old) }
    ensures { LogWritten out.old out.new result (form_of f) (steps_of q) (form_of g) }
{
    let count = q.count;
    let a = write_form(out, f);
    out[a] = count as u8;
    let b = write_steps(out, a + 1, q);
    b + write_form(&mut out[b..], g)
}
