// A step added to an open log: taken or refused, and the state afterwards.
ghost use Rattle.specification.specs.Rules.{step_at};
ghost use Rattle.specification.specs.OpenLogs.{step_from};
ghost use Rattle.terms.specs.Abstraction.{form_of};
ghost use Rattle.terms.specs.Valid.{FormValid, Gives};
ghost use Rattle.rules.specs.Steps.{step_of, StepValid};
ghost use Rattle.open_log.specs.States.{StateValid, state_of};
ghost use Rattle.open_log.specs.Added.{AddedAs};

use crate::state::State;
use logs::reading::read_step;
use refusal::Refusal;
use rows::{hold, outcome};
use rules::admissible::step_at;
use rules::steps::Step;
use terms::types::Form;

// Whether a step was taken, and the state afterwards: the old one where the step is refused.
#[derive(Clone, Copy)]
pub struct Added {
    pub answer: Result<(), Refusal>,
    pub state: State,
}

// A step in shape at a form: its letters (5, 6), then the step itself (6, 8, 9, 10), or the form reached.
fn step_on(table: &[u8], f: Form, step: Step) -> Result<Form, Refusal>
    requires { FormValid f × StepValid step }
    ensures { Gives (step_at table.now (form_of f) (step_of step)) result }
{
    let z = [0u32; 8];
    let mut rows = [z; 56];
    let mut coefs = [0i64; 56];
    hold(f, &mut rows, &mut coefs);
    let w = step_at(table, f.kind, f.count, &mut rows, &mut coefs, step);
    outcome(w, &rows, &coefs)
}

// The form that the step reaches whose record the bytes are, at a form: its shape (11), its letters (5, 6), then the step itself (6, 8, 9, 10).
pub fn step_from(table: &[u8], f: Form, s: &[u8]) -> Result<Form, Refusal>
    requires { FormValid f }
    ensures { Gives (step_from table.now (form_of f) s.now) result }
{
    let (step, next) = read_step(s, 0)?;
    if next != s.len() {
        return Err(Refusal::WrongShape);
    }
    step_on(table, f, step)
}

// A step added to a log: 14 for a 65th, then the step. A refused step leaves the state as it was.
pub fn add_step(state: State, step: &[u8]) -> Added
    requires { StateValid state }
    ensures { AddedAs (state_of state) step.now result }
{
    if state.count >= 64 {
        return Added {
            answer: Err(Refusal::FullLog),
            state,
        };
    }
    let n = state.letters;
    let reached = step_from(&state.table[..n], state.form, step);
    let Ok(form) = reached else {
        return Added {
            answer: reached.and(Ok(())),
            state,
        };
    };
    Added {
        answer: Ok(()),
        state: State {
            count: state.count + 1,
            form,
            ..state
        },
    }
}
