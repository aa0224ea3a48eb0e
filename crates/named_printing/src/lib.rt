// The call that prints a form with declared names.
#![tactic(auto)]

ghost use Rattle.std.specs.Prelude.{◌≡◌};
ghost use Rattle.specification.specs.Text.{print_named_call};
ghost use Rattle.printer_call.specs.Answers.{length_of};

use forms::read_form;
use letters::check_table;
use printing::{LINE_BYTES, print_form};
use refusal::Refusal;
use texts::good_names;

// The text of a form's record with a name for each letter of the table: the table, the names, the room, then the form's own refusals.
pub fn print_named(
    table: &[u8],
    names: &[u8],
    form: &[u8],
    out: &mut [u8],
) -> Result<usize, Refusal>
    ensures { (length_of result, out.new) ≡ print_named_call table.now names.now form.now out.old }
{
    check_table(table)?;
    if !good_names(names, table) {
        return Err(Refusal::BadTable);
    }
    if out.len() < LINE_BYTES {
        return Err(Refusal::NoRoom);
    }
    let f = read_form(table, form)?;
    Ok(print_form(names, out, f))
}
