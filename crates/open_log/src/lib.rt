// Logs that stay open (document 02, K5): the calls on the bytes of a state.
#![tactic(auto)]

ghost use Rattle.std.specs.Prelude.{◌≡◌};
ghost use Rattle.specification.specs.OpenLogs.{open_call, add_call, look_call, DecidedOpen, close_call};
ghost use Rattle.decision.specs.Answers.{decision_of};
ghost use Rattle.open_log.specs.Answers.{answered_of, closed_of};

use adding::add_step;
use closing::is_reached;
use decision::{Decision, decide};
use forms::{FORM_BYTES, read_form, write_form};
use letters::check_table;
use refusal::Refusal;
use state::{STATE_BYTES, State, read_state, table_of, write_state};

pub mod adding;
pub mod closing;
pub mod state;

// Open a log with a table and a first form: 1, 2, then contents. The answer of a call that writes is how many bytes it wrote.
pub fn open(table: &[u8], form: &[u8], out: &mut [u8]) -> Result<usize, Refusal>
    ensures { (answered_of result, out.new) ≡ open_call table.now form.now out.old }
{
    check_table(table)?;
    if out.len() < STATE_BYTES {
        return Err(Refusal::NoRoom);
    }
    let form = read_form(table, form)?;
    let first = State {
        letters: table.len(),
        table: table_of(table),
        count: 0,
        form,
    };
    Ok(write_state(out, first))
}

// Add a step: the state (11), 2, then the step.
pub fn add(s: &[u8], step: &[u8], out: &mut [u8]) -> Result<usize, Refusal>
    ensures { (answered_of result, out.new) ≡ add_call s.now step.now out.old }
{
    let state = read_state(s)?;
    if out.len() < STATE_BYTES {
        return Err(Refusal::NoRoom);
    }
    let a = add_step(state, step);
    a.answer?;
    Ok(write_state(out, a.state))
}

// Look at the form reached: the state (11), then 2.
pub fn look(s: &[u8], out: &mut [u8]) -> Result<usize, Refusal>
    ensures { (answered_of result, out.new) ≡ look_call s.now out.old }
{
    let state = read_state(s)?;
    if out.len() < FORM_BYTES {
        return Err(Refusal::NoRoom);
    }
    Ok(write_form(out, state.form))
}

// Decide the form reached against another: the state (11), then as the decision of its form's record does.
pub fn decide_open(s: &[u8], form: &[u8], buffer: &mut [u8], work: &mut [u8]) -> Decision
    ensures { DecidedOpen s.now form.now buffer.old work.old (decision_of result) buffer.new work.new }
{
    if let Err(e) = read_state(s) {
        return Decision::Refused(e);
    }
    let n = s[0] as usize;
    let end = n + 1;
    let start = n + 2;
    decide(&s[1..end], &s[start..], form, buffer, work)
}

// Close with a last form: the state (11), the form (11, 5, 6), 13 for another form than the one reached.
pub fn close(s: &[u8], form: &[u8]) -> Result<(), Refusal>
    ensures { closed_of result ≡ close_call s.now form.now }
{
    let state = read_state(s)?;
    let n = state.letters;
    let last = read_form(&state.table[..n], form)?;
    if !is_reached(last, state.form) {
        return Err(Refusal::OtherForm);
    }
    Ok(())
}
