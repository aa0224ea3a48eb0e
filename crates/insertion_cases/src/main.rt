// Runs cases of the insertion call from standard input. A case is the length of a table (one byte), the table, the number of a letter (one byte), the length of
// a form (two bytes), the form, the length of the form inserted (two bytes), that form, and, where the table's length is 1 to 24, an assignment of three bytes a letter.
// For each it writes a line: R and the number of the refusal; or the record of the form, and its three values under the assignment.
#![tactic(auto)]

ghost use Rattle.std.specs.Prelude.{◌<◌, length};

use case_lines::{
    assignment_length, byte_at, print_character, print_form, print_refusal, two_bytes_at,
};
use forms::FORM_BYTES;
use insertion::insert;

// The line of a case.
fn print_case(table: &[u8], letter: u8, form: &[u8], inserted: &[u8], assignment: &[u8]) {
    let mut out = [0u8; FORM_BYTES];
    match insert(table, form, letter, inserted, &mut out) {
        Ok(n) => print_form(table, &out[..n], assignment),
        Err(why) => print_refusal(why.number()),
    }
    print_character(b'\n');
}

// The case at a position, and the position behind it; the end where a case is cut off.
fn case_at(s: &[u8], at: usize) -> usize
    requires { at < length s.now }
    ensures { at < result }
{
    let len = s.len();
    let t = byte_at(s, at);
    if len - at - 1 < t + 3 {
        return len;
    }
    let k = at + 1 + t;
    let b = k + 3;
    let c = b + two_bytes_at(s, k + 1);
    if len < c + 2 {
        return len;
    }
    let d = c + 2;
    let e = d + two_bytes_at(s, c);
    let n = assignment_length(t);
    if len < e + n {
        return len;
    }
    print_case(&s[at + 1..k], s[k], &s[b..c], &s[d..e], &s[e..e + n]);
    e + n
}

// All cases.
fn run(s: &[u8]) {
    let mut at: usize = 0;
    while at < s.len() {
        at = case_at(s, at);
    }
}

fn main() {
    let mut buf = io::large_buffer();
    let n = io::read_full(0, &mut buf);
    run(&buf[..n]);
}
