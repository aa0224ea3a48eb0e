// Logs read: a step at a position, steps one after the other, and a whole log.
ghost use Rattle.std.specs.Prelude.{◌≡◌, [], ◌+◌, ◌≤◌, length, take, drop};
ghost use Rattle.specification.specs.Logs.{read_step_at, read_steps, read_log};
ghost use Rattle.logs.specs.Reading.{StepRead, StepsRead, LogRead};

use crate::steps::{Steps, no_steps};
use forms::read_form_at;
use records::read::{read_term, room};
use refusal::Refusal;
use rules::admissible::is_rule;
use rules::steps::{Step, rule_letters};
use terms::types::Form;

// A log that was read: its forms with where the first ends and the last begins, and its steps.
#[derive(Clone, Copy)]
pub struct LogReading {
    pub first_end: usize,
    pub last_start: usize,
    pub first: Form,
    pub steps: Steps,
    pub last: Form,
}

// So many letters from a position on.
fn letters_at(s: &[u8], at: usize, n: usize) -> [u8; 6]
    requires { (n ≤ 6) × (at + n ≤ length s.now) }
    ensures { take n result ≡ take n (drop at s.now) }
{
    let mut letters = [0u8; 6];
    for i in 0..n {
        letters[i] = s[at + i];
    }
    letters
}

// The step record at a position, and the position behind it.
pub fn read_step(s: &[u8], at: usize) -> Result<(Step, usize), Refusal>
    ensures { StepRead (read_step_at s.now at) result }
{
    if at >= s.len() {
        return Err(Refusal::WrongShape);
    }
    let rule = s[at];
    if !is_rule(rule) {
        return Err(Refusal::WrongShape);
    }
    let n = rule_letters(rule);
    if !room(s, at + 1, n) {
        return Err(Refusal::WrongShape);
    }
    let letters = letters_at(s, at + 1, n);
    let (m, next) = read_term(s, at + 1 + n)?;
    Ok((Step { rule, letters, m }, next))
}

// So many steps from a position on, and the position behind them.
pub fn read_steps(s: &[u8], at: usize, n: usize) -> Result<(Steps, usize), Refusal>
    requires { n ≤ 64 }
    ensures { StepsRead (read_steps n [] s.now at) n result }
{
    let mut steps = no_steps();
    let mut next = at;
    for i in 0..n {
        let (t, behind) = read_step(s, next)?;
        steps.steps[i] = t;
        steps.count = i + 1;
        next = behind;
    }
    Ok((steps, next))
}

// The log that the bytes are: the first form, a count byte 0 to 64, the steps, the last form, and nothing behind it.
pub fn read_log(s: &[u8]) -> Result<LogReading, Refusal>
    ensures { LogRead (read_log s.now) result }
{
    let (first, first_end) = read_form_at(s, 0)?;
    if first_end >= s.len() {
        return Err(Refusal::WrongShape);
    }
    let n = s[first_end] as usize;
    if n > 64 {
        return Err(Refusal::WrongShape);
    }
    let (steps, last_start) = read_steps(s, first_end + 1, n)?;
    let (last, end) = read_form_at(s, last_start)?;
    if end != s.len() {
        return Err(Refusal::WrongShape);
    }
    Ok(LogReading {
        first_end,
        last_start,
        first,
        steps,
        last,
    })
}
