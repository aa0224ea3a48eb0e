// The word `unpack`: the table's length byte, the table and a log's bytes told as the text of the log, or the refusal and its step.
#![tactic(auto)]

ghost use Rattle.std.specs.Prelude.{◌≡◌};
ghost use Rattle.specification.specs.Commands.{tested_log, unpack_log, unpack_input};
ghost use Rattle.terms.specs.Valid.{FormValid};
ghost use Rattle.logs.specs.Steps.{StepsValid};
ghost use Rattle.telling.specs.Told.{Told};
ghost use Rattle.unpack_word.specs.Parts.{log_with, tests_of, LogTested};

use letters::{check_table, test_terms};
use log_telling::tell_log;
use logs::reading::{LogReading, read_log};
use logs::steps::{RefusedAt, Steps, at_step, test_steps};
use printing::ALPHABET;
use refusal::Refusal;
use terms::types::Form;
use verdicts::tell_refused;

// The checker's tests of a log before its replay.
fn test_log(table: &[u8], f: Form, q: Steps, g: Form) -> Result<(), RefusedAt>
    requires { FormValid f × StepsValid q × FormValid g }
    ensures { tested_log table.now (log_with f q g) ≡ tests_of result }
{
    at_step(test_terms(table, f), 0)?;
    test_steps(table, q)?;
    at_step(test_terms(table, g), (q.count + 1) as u8)
}

// A log read and tested: its table, its shape, then its letters.
fn read_tested(table: &[u8], s: &[u8]) -> Result<LogReading, RefusedAt>
    ensures { LogTested table.now s.now result }
{
    at_step(check_table(table), 0)?;
    let q = at_step(read_log(s), 0)?;
    test_log(table, q.first, q.steps, q.last)?;
    Ok(q)
}

// The text of a log, by its table and its bytes.
fn unpack_log(table: &[u8], s: &[u8], out: &mut [u8]) -> usize
    ensures { Told out.new result (unpack_log table.now s.now) }
{
    match read_tested(table, s) {
        Ok(q) => {
            let n = table.len();
            tell_log(out, 0, &ALPHABET[..n], table, q.first, q.steps, q.last)
        }
        Err(e) => tell_refused(out, e.why.number(), e.step),
    }
}

// The answer to the word.
pub fn unpack_text(s: &[u8], out: &mut [u8]) -> usize
    ensures { Told out.new result (unpack_input s.now) }
{
    let n = s.len();
    if n == 0 {
        return tell_refused(out, Refusal::BadTable.number(), 0);
    }
    let k = s[0] as usize + 1;
    if n < k {
        return tell_refused(out, Refusal::BadTable.number(), 0);
    }
    unpack_log(&s[1..k], &s[k..n], out)
}
