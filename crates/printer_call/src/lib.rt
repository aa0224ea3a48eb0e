// What the printer writes for what it read: the form in letters, or R and the number of the refusal, on a line.
#![tactic(auto)]

ghost use Rattle.std.specs.Prelude.{◌≡◌, ◌≤◌, length};
ghost use Rattle.specification.specs.Printing.{print_call, TextWritten, print_answer, line_bytes};
ghost use Rattle.terms.specs.Valid.{Gives};
ghost use Rattle.printer_call.specs.Answers.{length_of};
ghost use Rattle.printer_call.specs.Lines.{table_reduced, print_reduced};

use letters::check_table;
use printing::{ALPHABET, LINE_BYTES, print_line, print_refusal};
use reduction::form_of;
use refusal::Refusal;
use terms::types::Form;

// The form of a table and an expression.
pub fn table_form(table: &[u8], expression: &[u8]) -> Result<Form, Refusal>
    ensures { Gives (table_reduced table.now expression.now) result }
{
    check_table(table)?;
    form_of(table, expression)
}

// The line of a table and an expression.
fn print_form(table: &[u8], expression: &[u8], out: &mut [u8]) -> usize
    requires { line_bytes ≤ length out.old }
    ensures { TextWritten out.old out.new result (print_reduced table.now expression.now) }
{
    match table_form(table, expression) {
        Ok(f) => print_line(&ALPHABET, out, f),
        Err(why) => print_refusal(out, why.number()),
    }
}

// The line of all that stands in the input, in memory that is long enough.
fn print_input(s: &[u8], out: &mut [u8]) -> usize
    requires { line_bytes ≤ length out.old }
    ensures { TextWritten out.old out.new result (print_call s.now) }
{
    let n = s.len();
    if n == 0 {
        return print_refusal(out, Refusal::BadTable.number());
    }
    let k = s[0] as usize + 1;
    if n < k {
        return print_refusal(out, Refusal::BadTable.number());
    }
    print_form(&s[1..k], &s[k..n], out)
}

// The line of all that stands in the input. Memory that is too short for a line is refused, and nothing is written.
pub fn print(s: &[u8], out: &mut [u8]) -> Result<usize, Refusal>
    ensures { (length_of result, out.new) ≡ print_answer s.now out.old }
{
    if out.len() < LINE_BYTES {
        return Err(Refusal::NoRoom);
    }
    Ok(print_input(s, out))
}
