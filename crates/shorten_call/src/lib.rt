// What the program shorten writes for what it read: the form, the steps that shorten it and the last form in letters, each on a line, or the refusal.
#![tactic(auto)]

ghost use Rattle.std.specs.Prelude.{◌≤◌, length};
ghost use Rattle.printer_call.specs.Lines.{table_reduced};
ghost use Rattle.specification.specs.Printing.{input_table, print_tested, lines_bytes, PrintedBy, LinesPrinted};
ghost use Rattle.printer_call.specs.Answers.{length_of};

use log_lines::lines::print_log;
use printer_call::table_form;
use printing::{ALPHABET, print_refusal};
use refusal::Refusal;
use shortening::rounds::derive;

// Bytes that the text of any shortening fits into.
pub const LINES_BYTES: usize = 5426;

// The lines of a table and an expression.
fn print_shortened(table: &[u8], expression: &[u8], out: &mut [u8]) -> usize
    requires { lines_bytes ≤ length out.old }
    ensures { PrintedBy (table_reduced table.now expression.now) table.now out.old out.new result }
{
    match table_form(table, expression) {
        Ok(f) => {
            let d = derive(table, f);
            print_log(&ALPHABET, out, f, d.steps, d.last)
        }
        Err(why) => print_refusal(out, why.number()),
    }
}

// The lines of all that stands in the input, in memory that is long enough.
fn print_input(s: &[u8], out: &mut [u8]) -> usize
    requires { lines_bytes ≤ length out.old }
    ensures { PrintedBy (print_tested s.now) (input_table s.now) out.old out.new result }
{
    let n = s.len();
    if n == 0 {
        return print_refusal(out, Refusal::BadTable.number());
    }
    let k = s[0] as usize + 1;
    if n < k {
        return print_refusal(out, Refusal::BadTable.number());
    }
    print_shortened(&s[1..k], &s[k..n], out)
}

// The lines of all that stands in the input. Memory that is too short for them is refused, and nothing is written.
pub fn print_shortening(s: &[u8], out: &mut [u8]) -> Result<usize, Refusal>
    ensures { LinesPrinted s.now out.old (length_of result) out.new }
{
    if out.len() < LINES_BYTES {
        return Err(Refusal::NoRoom);
    }
    Ok(print_input(s, out))
}
