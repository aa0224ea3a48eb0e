// Shortening: steps from a form to one that no admissible step shortens, as a log that the checker accepts.
#![tactic(auto)]

ghost use Rattle.std.specs.Prelude.{◌≤◌};
ghost use Rattle.specification.specs.Shortening.{shortening_bytes, log_length, Shortened};
ghost use Rattle.shortening.specs.Answers.{shortening_of};

pub mod rounds;

use crate::rounds::derive;
use forms::read_form;
use letters::check_table;
use logs::writing::write_log;
use refusal::Refusal;

// Bytes that the log of any shortening fits into.
pub const SHORTENING_BYTES: usize = 2309;

// A log that was written: its length and its steps.
#[derive(Clone, Copy)]
pub struct Written {
    pub size: usize,
    pub steps: usize,
}

// The log of a form's shortening, at the start of the bytes lent.
// Refused with 1 for the table, 2 for short memory, 11 for the form, then 5 or 6 for its letters.
pub fn shorten(table: &[u8], form: &[u8], out: &mut [u8]) -> Result<Written, Refusal>
    ensures answer { Shortened table.now form.now out.old (shortening_of result) out.new }
    ensures short { log_length (shortening_of result) ≤ shortening_bytes }
{
    check_table(table)?;
    if out.len() < SHORTENING_BYTES {
        return Err(Refusal::NoRoom);
    }
    let f = read_form(table, form)?;
    let d = derive(table, f);
    let size = write_log(out, f, d.steps, d.last);
    Ok(Written {
        size,
        steps: d.steps.count,
    })
}
