// A derivation at its beginning, and the answer to a line of any kind.
ghost use Rattle.std.specs.Prelude.{◌≡◌, true, ◌&&◌, [], leb};
ghost use Rattle.specification.specs.LogTexts.{is_step_line};
ghost use Rattle.specification.specs.Commands.{unopened, answer_line, pass_line};
ghost use Rattle.derivation_word.specs.Derivations.{derivation_of, DerivationValid, LineTold};

use crate::reading::{Answered, Derivation, first_line, names_line, step_line};
use declarations::is_declaration;
use lines::places::is_empty_line;
use log_texts::reading::is_step_line;
use logs::steps::no_steps;
use open_log::state::State;
use refusal::Refusal;
use terms::build::no_term;
use terms::types::Form;
use verdicts::tell_step_refusal;

// Nothing is declared and nothing is open; the forms count for nothing.
pub fn start() -> Derivation
    ensures { DerivationValid result × (derivation_of result ≡ unopened [] []) }
{
    let terms = [no_term(); 48];
    let f = Form {
        kind: 0,
        count: 0,
        terms,
    };
    let table = [0u8; 24];
    let state = State {
        letters: 0,
        table,
        count: 0,
        form: f,
    };
    let steps = no_steps();
    Derivation {
        begun: false,
        names: table,
        state,
        first: f,
        steps,
    }
}

// Whether a line is the step behind so many, and there is no room for it.
fn is_one_too_many(count: u8, line: &[u8]) -> bool
    ensures { result ≡ (is_step_line line.now && leb 64 count) }
{
    if !is_step_line(line) {
        return false;
    }
    count >= 64
}

// What the line k of an open log leaves, and what is told for it: 14 for a 65th step before anything in it is read.
fn open_line(d: Derivation, k: usize, line: &[u8], out: &mut [u8], at: usize) -> Answered
    requires { DerivationValid d × (d.begun ≡ true) }
    ensures { LineTold (answer_line k line.now (derivation_of d)) out.old out.new at result }
{
    let state = d.state;
    let count = state.count;
    if is_one_too_many(count, line) {
        let end = tell_step_refusal(out, at, Refusal::FullLog.number(), count + 1);
        return Answered { derivation: d, end };
    }
    step_line(d, k, line, out, at)
}

// What the line k leaves, and what is told for it.
pub fn answer_line(d: Derivation, k: usize, line: &[u8], out: &mut [u8], at: usize) -> Answered
    requires { DerivationValid d }
    ensures { LineTold (pass_line k line.now (derivation_of d)) out.old out.new at result }
{
    if is_empty_line(line) {
        return Answered {
            derivation: d,
            end: at,
        };
    }
    if d.begun {
        return open_line(d, k, line, out, at);
    }
    if is_declaration(line) {
        return names_line(d, k, line, out, at);
    }
    first_line(d, k, line, out, at)
}
