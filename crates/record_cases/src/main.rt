// Runs cases of form records from standard input. A case is the length of a table (one byte), the table, the length of a record (two bytes), the record.
// For each it writes a line: the number of the table's test, the number of the record's, and, where that is 0, the record as it is written back.
#![tactic(auto)]

ghost use Rattle.std.specs.Prelude.{◌<◌, length};
ghost use Rattle.terms.specs.Valid.{FormValid};

use case_lines::{byte_at, print_bytes, print_character};
use forms::{FORM_BYTES, read_form, write_form};
use letters::check_table;
use refusal::Refusal;
use terms::types::Form;

// A record written back.
fn print_form(f: Form)
    requires { FormValid f }
{
    let mut out = [0u8; FORM_BYTES];
    let n = write_form(&mut out, f);
    print_character(b' ');
    print_bytes(&out[..n]);
}

// The number of a refusal.
fn print_number(why: Refusal) {
    io::print_decimal(1, why.number() as u64);
}

// The line of a case.
fn print_case(table: &[u8], bytes: &[u8]) {
    match check_table(table) {
        Ok(()) => print_character(b'0'),
        Err(why) => print_number(why),
    }
    print_character(b' ');
    match read_form(table, bytes) {
        Ok(f) => {
            print_character(b'0');
            print_form(f);
        }
        Err(why) => print_number(why),
    }
    print_character(b'\n');
}

// The case at a position, and the position behind it; the end where a case is cut off.
fn case_at(s: &[u8], at: usize) -> usize
    requires { at < length s.now }
    ensures { at < result }
{
    let len = s.len();
    let t = byte_at(s, at);
    if len - at - 1 < t + 2 {
        return len;
    }
    let k = at + 1 + t;
    let m = byte_at(s, k) * 256 + byte_at(s, k + 1);
    let b = k + 2;
    if len - b < m {
        return len;
    }
    print_case(&s[at + 1..k], &s[b..b + m]);
    b + m
}

// All cases.
fn run(s: &[u8]) {
    let mut at: usize = 0;
    while at < s.len() {
        at = case_at(s, at);
    }
}

fn main() {
    let mut buf = io::large_buffer();
    let n = io::read_full(0, &mut buf);
    run(&buf[..n]);
}
