// Runs cases of the checker's call from standard input. A case is the length of a table (one byte), the table, the length of a log (two bytes) and the log.
// For each it writes a line: accepted, where the first form ends, where the last begins and the steps; or R, the number of the refusal, and its step.
#![tactic(auto)]

ghost use Rattle.std.specs.Prelude.{◌<◌, length};

use case_lines::{byte_at, print_character, print_refusal};
use checker::{Accepted, check};
use logs::steps::RefusedAt;

// A number behind a blank.
fn print_number(n: u64) {
    print_character(b' ');
    io::print_decimal(1, n);
}

// An accepted log.
fn print_accepted(a: Accepted) {
    io::write_all(1, b"accepted");
    print_number(a.first_end as u64);
    print_number(a.last_start as u64);
    print_number(a.steps as u64);
}

// A refused log.
fn print_refused(e: RefusedAt) {
    print_refusal(e.why.number());
    print_number(e.step as u64);
}

// The line of a case.
fn print_case(table: &[u8], log: &[u8]) {
    match check(table, log) {
        Ok(a) => print_accepted(a),
        Err(e) => print_refused(e),
    }
    print_character(b'\n');
}

// The case at a position, and the position behind it; the end where a case is cut off.
fn case_at(s: &[u8], at: usize) -> usize
    requires { at < length s.now }
    ensures { at < result }
{
    let len = s.len();
    let t = byte_at(s, at);
    if len - at - 1 < t + 2 {
        return len;
    }
    let k = at + 1 + t;
    let m = byte_at(s, k) * 256 + byte_at(s, k + 1);
    let b = k + 2;
    if len - b < m {
        return len;
    }
    let j = b + m;
    print_case(&s[at + 1..k], &s[b..j]);
    j
}

// All cases.
fn run(s: &[u8]) {
    let mut at: usize = 0;
    while at < s.len() {
        at = case_at(s, at);
    }
}

fn main() {
    let mut buf = io::large_buffer();
    let n = io::read_full(0, &mut buf);
    run(&buf[..n]);
}
