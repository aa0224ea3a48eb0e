// The form of a text by value, and the call that reads a text and writes the record of its form.
#![tactic(auto)]

ghost use Rattle.std.specs.Prelude.{◌≡◌};
ghost use Rattle.specification.specs.Text.{text_form, text_call};
ghost use Rattle.formulas.specs.Readings.{Named};
ghost use Rattle.formula_call.specs.Texts.{TextGives};
ghost use Rattle.formula_call.specs.Answers.{formula_read_of};

use forms::{FORM_BYTES, write_form};
use formulas::reading::read_text;
use letters::check_table;
use refusal::Refusal;
use rows::form_of;
use terms::types::Form;
use texts::{Unread, good_names};

// The form of a text: reading precedes working.
pub fn form_of_text(names: &[u8], table: &[u8], s: &[u8]) -> Result<Form, Unread>
    requires { Named names.now table.now }
    ensures { TextGives (text_form names.now table.now s.now) result }
{
    let z = [0u32; 8];
    let mut rows = [z; 48];
    let mut coefs = [0i64; 48];
    let w = read_text(names, table, s, &mut rows, &mut coefs)?;
    Ok(form_of(w.kind, &rows, &coefs, w.count))
}

// The call: 1 of the table, 1 of the names, 2, then the text. The record of its form is written into the bytes lent, or the column of its refusal into the numbers.
pub fn read_formula(
    table: &[u8],
    names: &[u8],
    s: &[u8],
    out: &mut [u8],
    columns: &mut [u64],
) -> Result<usize, Refusal>
    ensures { (formula_read_of result, out.new, columns.new) ≡ text_call table.now names.now s.now out.old columns.old }
{
    check_table(table)?;
    if !good_names(names, table) {
        return Err(Refusal::BadTable);
    }
    if out.len() < FORM_BYTES {
        return Err(Refusal::NoRoom);
    }
    if columns.len() < 1 {
        return Err(Refusal::NoRoom);
    }
    match form_of_text(names, table, s) {
        Ok(f) => Ok(write_form(out, f)),
        Err(e) => {
            columns[0] = e.column as u64;
            Err(e.why)
        }
    }
}
