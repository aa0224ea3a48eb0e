// Reads formulas as text, cases from standard input. A case is its length (two bytes), the number of letters (one byte), the table, a name for each letter, and
// the line. For each it writes a line: R and the number of a refusal, with the column where the text is refused; or the kind of the form and its text.
#![tactic(auto)]

ghost use Rattle.std.specs.Prelude.{◌<◌, length};

use case_lines::{byte_at, print_character, print_refusal, two_bytes_at};
use forms::FORM_BYTES;
use formula_call::read_formula;
use named_printing::print_named;
use printing::LINE_BYTES;

// The kind of a form's record.
fn print_kind(form: &[u8]) {
    if form.len() < 1 {
        return;
    }
    if form[0] == 0 {
        io::write_all(1, b"scalar ");
        return;
    }
    io::write_all(1, b"vector ");
}

// The kind and the text of a form's record.
fn print_form(table: &[u8], names: &[u8], form: &[u8]) {
    print_kind(form);
    let mut out = [0u8; LINE_BYTES];
    match print_named(table, names, form, &mut out) {
        Ok(m) => {
            io::write_all(1, &out[..m]);
        }
        Err(why) => print_refusal(why.number()),
    }
}

// The answer for a line.
fn print_case(table: &[u8], names: &[u8], line: &[u8]) {
    let mut out = [0u8; FORM_BYTES];
    let mut columns = [0u64; 1];
    match read_formula(table, names, line, &mut out, &mut columns) {
        Ok(n) => print_form(table, names, &out[..n]),
        Err(why) => {
            print_refusal(why.number());
            if why.number() > 2 {
                print_character(b' ');
                io::print_decimal(1, columns[0]);
            }
        }
    }
    print_character(b'\n');
}

// The table, the names and the line of a case.
fn run_case(s: &[u8]) {
    let len = s.len();
    if len < 1 {
        return;
    }
    let k = byte_at(s, 0);
    let a = 1 + k;
    let b = a + k;
    if len < b {
        return;
    }
    print_case(&s[1..a], &s[a..b], &s[b..]);
}

// The case at a position, and the position behind it; the end where a case is cut off.
fn case_at(s: &[u8], at: usize) -> usize
    requires { at < length s.now }
    ensures { at < result }
{
    let len = s.len();
    if len - at < 2 {
        return len;
    }
    let m = two_bytes_at(s, at);
    let b = at + 2;
    if len - b < m {
        return len;
    }
    run_case(&s[b..b + m]);
    b + m
}

// All cases.
fn run(s: &[u8]) {
    let mut at: usize = 0;
    while at < s.len() {
        at = case_at(s, at);
    }
}

fn main() {
    let mut buf = io::large_buffer();
    let n = io::read_full(0, &mut buf);
    run(&buf[..n]);
}
