// The checker: for any table and any log exactly the answer of document 01's replay.
#![tactic(auto)]

ghost use Rattle.std.specs.Prelude.{◌≡◌, take, drop};
ghost use Rattle.specification.specs.Logs.{check_call};
ghost use Rattle.terms.specs.Valid.{FormValid};
ghost use Rattle.logs.specs.Steps.{StepsValid};
ghost use Rattle.logs.specs.Reading.{parts_of};
ghost use Rattle.checker.specs.Answers.{checked_of};
ghost use Rattle.checker.specs.Read.{log_checked};

use letters::{check_table, test_terms};
use logs::reading::{LogReading, read_log};
use logs::steps::{RefusedAt, at_step, test_steps};
use replaying::replay;

// An accepted log: where its first form ends, where the last begins, and the number of its steps.
#[derive(Clone, Copy)]
pub struct Accepted {
    pub first_end: usize,
    pub last_start: usize,
    pub steps: usize,
}

// The answer for a log that was read: its letters in byte order, then the replay. It takes the log where it stands, since a log by value is 7,000 bytes.
fn check_read(table: &[u8], q: &LogReading) -> Result<Accepted, RefusedAt>
    requires { FormValid q.now.first × StepsValid q.now.steps × FormValid q.now.last }
    ensures { checked_of result ≡ log_checked table.now (parts_of q.now) }
{
    at_step(test_terms(table, q.first), 0)?;
    test_steps(table, q.steps)?;
    at_step(test_terms(table, q.last), q.steps.count as u8 + 1)?;
    replay(q.first, q.steps, q.last)?;
    Ok(Accepted {
        first_end: q.first_end,
        last_start: q.last_start,
        steps: q.steps.count,
    })
}

// The answer for a table and a log: accepted, or refused with number and step.
pub fn check(table: &[u8], log: &[u8]) -> Result<Accepted, RefusedAt>
    ensures { checked_of result ≡ check_call table.now log.now }
{
    at_step(check_table(table), 0)?;
    match &read_log(log) {
        Ok(q) => check_read(table, q),
        Err(why) => Err(RefusedAt { why: *why, step: 0 }),
    }
}

// The first form of an accepted log as a part of it, by where it ends; the whole log where that is past its end.
pub fn first_form(log: &[u8], end: usize) -> &[u8]
    ensures { result.now ≡ take end log.now }
{
    if end > log.len() {
        return &log[..];
    }
    &log[..end]
}

// The last form of an accepted log as a part of it, by where it begins; nothing where that is past its end.
pub fn last_form(log: &[u8], start: usize) -> &[u8]
    ensures { result.now ≡ drop start log.now }
{
    let n = log.len();
    if start > n {
        return &log[n..];
    }
    &log[start..]
}
