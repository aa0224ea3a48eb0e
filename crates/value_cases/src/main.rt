// Runs cases of the value call from standard input. A case is the length of a table (one byte), the table, the length of a record (two bytes), the record,
// the length of an assignment (one byte), the assignment.
// For each it writes a line: R and the number of the refusal, or the three numbers.
#![tactic(auto)]

ghost use Rattle.std.specs.Prelude.{◌<◌, length};

use case_lines::{byte_at, print_character, print_values};

// The line of a case.
fn print_case(table: &[u8], form: &[u8], assignment: &[u8]) {
    print_values(table, form, assignment);
    print_character(b'\n');
}

// The case at a position, and the position behind it; the end where a case is cut off.
fn case_at(s: &[u8], at: usize) -> usize
    requires { at < length s.now }
    ensures { at < result }
{
    let len = s.len();
    let t = byte_at(s, at);
    if len - at - 1 < t + 2 {
        return len;
    }
    let k = at + 1 + t;
    let m = byte_at(s, k) * 256 + byte_at(s, k + 1);
    let b = k + 2;
    if len - b < m + 1 {
        return len;
    }
    let j = b + m;
    let n = byte_at(s, j);
    let e = j + 1;
    if len - e < n {
        return len;
    }
    print_case(&s[at + 1..k], &s[b..j], &s[e..e + n]);
    e + n
}

// All cases.
fn run(s: &[u8]) {
    let mut at: usize = 0;
    while at < s.len() {
        at = case_at(s, at);
    }
}

fn main() {
    let mut buf = io::large_buffer();
    let n = io::read_full(0, &mut buf);
    run(&buf[..n]);
}
