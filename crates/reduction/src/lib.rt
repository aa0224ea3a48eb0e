// Reduction: an expression read as a tree and worked into a form, and the call that writes its record.
#![tactic(auto)]

ghost use Rattle.std.specs.Prelude.{◌≡◌};
ghost use Rattle.specification.specs.Reduction.{reduced, reduce_call};
ghost use Rattle.terms.specs.Valid.{Gives};
ghost use Rattle.reduction.specs.Answers.{reduced_of};

use expressions::trees::read_tree;
use forms::{FORM_BYTES, write_form};
use letters::check_table;
use refusal::Refusal;
use rows::outcome;
use terms::types::Form;

// The form of an expression of at most 512 bytes, read whole: reading precedes working.
pub fn form_of(table: &[u8], s: &[u8]) -> Result<Form, Refusal>
    ensures { Gives (reduced table.now s.now) result }
{
    if s.len() > 512 {
        return Err(Refusal::TooLong);
    }
    let z = [0u32; 8];
    let mut rows = [z; 48];
    let mut coefs = [0i64; 48];
    let t = read_tree(table, s, 0, 16, &mut rows, &mut coefs)?;
    if t.next != s.len() {
        return Err(Refusal::Torn);
    }
    outcome(t.work, &rows, &coefs)
}

// The call: the table, the room, then contents; the record of the form is written into the bytes lent, and its length is the answer.
pub fn reduce(table: &[u8], s: &[u8], out: &mut [u8]) -> Result<usize, Refusal>
    ensures { (reduced_of result, out.new) ≡ reduce_call table.now s.now out.old }
{
    check_table(table)?;
    if out.len() < FORM_BYTES {
        return Err(Refusal::NoRoom);
    }
    let f = form_of(table, s)?;
    Ok(write_form(out, f))
}
