// A derivation while it goes on, and what one line of each kind leaves of it: names, the first form, a step.
ghost use Rattle.std.specs.Prelude.{◌≡◌, true, false, ◌<◌};
ghost use Rattle.specification.specs.Logs.{write_step};
ghost use Rattle.specification.specs.Lines.{declared};
ghost use Rattle.specification.specs.Commands.{line_read, names_answer, read_first, read_one_step};
ghost use Rattle.rules.specs.Steps.{step_of, StepValid};
ghost use Rattle.formulas.specs.Readings.{Named};
ghost use Rattle.formula_call.specs.Texts.{TextGives};
ghost use Rattle.open_log.specs.States.{state_of, StateValid};
ghost use Rattle.open_log.specs.Added.{AddedAs};
ghost use Rattle.derivation_word.specs.Derivations.{names_of, kinds_of, derivation_of, DerivationValid, read_as_first, read_as_step, LineTold, StepTyped, StepAdded};

use declarations::declare;
use log_telling::tell_form;
use log_texts::kinds::read_form_line;
use log_texts::reading::is_step_line;
use log_texts::steps::read_step_line;
use logs::steps::{Steps, no_steps};
use logs::writing::write_step;
use open_log::adding::{Added, add_step};
use open_log::state::State;
use refusal::Refusal;
use refusals::tell_refusal;
use rules::steps::Step;
use terms::types::Form;
use texts::{Unread, past_blanks};
use verdicts::tell_step_refusal;

// A derivation: its names, and the table of their kinds in the state; where it is open, the state of its log, the first form and the steps taken.
#[derive(Clone, Copy)]
pub struct Derivation {
    pub begun: bool,
    pub names: [u8; 24],
    pub state: State,
    pub first: Form,
    pub steps: Steps,
}

// What a line leaves, and the position behind what is told for it.
#[derive(Clone, Copy)]
pub struct Answered {
    pub derivation: Derivation,
    pub end: usize,
}

// Names, put behind those declared; a refused line leaves these.
pub fn names_line(d: Derivation, k: usize, line: &[u8], out: &mut [u8], at: usize) -> Answered
    requires { DerivationValid d × (d.begun ≡ false) }
    ensures { LineTold (line_read k line.now (derivation_of d) (declared line.now (names_of d, kinds_of d)) names_answer) out.old out.new at result }
{
    let before = d.state;
    let mut names = d.names;
    let mut table = before.table;
    let n = match declare(line, &mut names, &mut table, before.letters) {
        Ok(n) => n,
        Err(e) => {
            let end = tell_refusal(out, at, e.why.number(), k, e.column, line);
            return Answered { derivation: d, end };
        }
    };
    let form = before.form;
    let state = State {
        letters: n,
        table,
        count: 0,
        form,
    };
    let first = d.first;
    let steps = d.steps;
    let next = Derivation {
        begun: false,
        names,
        state,
        first,
        steps,
    };
    Answered {
        derivation: next,
        end: at,
    }
}

// The first form: 1 where no names are declared.
fn read_first(names: &[u8], table: &[u8], line: &[u8]) -> Result<Form, Unread>
    requires { Named names.now table.now }
    ensures { TextGives (read_first names.now table.now line.now) result }
{
    if names.len() == 0 {
        return Err(Unread {
            why: Refusal::BadTable,
            column: 0,
        });
    }
    read_form_line(names, table, line)
}

// The first form, which opens the log.
pub fn first_line(d: Derivation, k: usize, line: &[u8], out: &mut [u8], at: usize) -> Answered
    requires { DerivationValid d × (d.begun ≡ false) }
    ensures { LineTold (read_as_first k line.now d) out.old out.new at result }
{
    let names = d.names;
    let before = d.state;
    let n = before.letters;
    let table = before.table;
    let f = match read_first(&names[..n], &table[..n], line) {
        Ok(f) => f,
        Err(e) => {
            let end = tell_refusal(out, at, e.why.number(), k, e.column, line);
            return Answered { derivation: d, end };
        }
    };
    let end = tell_form(out, at, &names[..n], f);
    let state = State {
        letters: n,
        table,
        count: 0,
        form: f,
    };
    let steps = no_steps();
    let next = Derivation {
        begun: true,
        names,
        state,
        first: f,
        steps,
    };
    Answered {
        derivation: next,
        end,
    }
}

// A step: 4 for a line that is none.
fn read_one_step(names: &[u8], table: &[u8], line: &[u8]) -> Result<Step, Unread>
    requires { Named names.now table.now }
    ensures { StepTyped (read_one_step names.now table.now line.now) result }
{
    if !is_step_line(line) {
        let at = past_blanks(line, 0);
        return Err(Unread {
            why: Refusal::Torn,
            column: at,
        });
    }
    read_step_line(names, table, line)
}

// A step in shape added to a log by its record.
fn add_typed(state: State, step: Step) -> Added
    requires { StateValid state × StepValid step }
    ensures { AddedAs (state_of state) (write_step (step_of step)) result }
{
    let mut record = [0u8; 23];
    let n = write_step(&mut record, 0, step);
    add_step(state, &record[..n])
}

// A derivation with one step more, and the form that it leads to.
fn stepped(d: Derivation, step: Step, f: Form) -> Derivation
    requires { DerivationValid d × (d.begun ≡ true) × (d.state.count < 64) × StepValid step }
    ensures { StepAdded d step f result }
{
    let before = d.state;
    let count = before.count;
    let i = count as usize;
    let mut steps = d.steps;
    steps.steps[i] = step;
    steps.count = i + 1;
    let table = before.table;
    let state = State {
        letters: before.letters,
        table,
        count: count + 1,
        form: f,
    };
    let names = d.names;
    let first = d.first;
    Derivation {
        begun: true,
        names,
        state,
        first,
        steps,
    }
}

// A step, added to the log that is open; a refused one leaves it as before.
pub fn step_line(d: Derivation, k: usize, line: &[u8], out: &mut [u8], at: usize) -> Answered
    requires { DerivationValid d × (d.begun ≡ true) }
    ensures { LineTold (read_as_step k line.now d) out.old out.new at result }
{
    let names = d.names;
    let before = d.state;
    let n = before.letters;
    let table = before.table;
    let step = match read_one_step(&names[..n], &table[..n], line) {
        Ok(step) => step,
        Err(e) => {
            let end = tell_refusal(out, at, e.why.number(), k, e.column, line);
            return Answered { derivation: d, end };
        }
    };
    let a = add_typed(before, step);
    match a.answer {
        Err(why) => {
            let end = tell_step_refusal(out, at, why.number(), before.count + 1);
            Answered { derivation: d, end }
        }
        Ok(()) => {
            let reached = a.state;
            let f = reached.form;
            let end = tell_form(out, at, &names[..n], f);
            let next = stepped(d, step, f);
            Answered {
                derivation: next,
                end,
            }
        }
    }
}
