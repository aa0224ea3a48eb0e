// Runs cases of shortening from standard input. A case is the length of a table (one byte), the table, the length of a form's record (two bytes), the record,
// and how many bytes are lent for the log (two bytes).
// For each it writes a line: the terms of the log's first form and of its last, or R and the number of the refusal; behind it what is wrong with the log or
// with the memory lent, if anything is.
#![tactic(auto)]

ghost use Rattle.std.specs.Prelude.{◌<◌, ◌≤◌, length};

use case_lines::{
    byte_at, fill, print_accepted, print_character, print_refusal, print_standing, two_bytes_at,
};
use checker::{check, first_form, last_form};
use shortening::shorten;

// A log that was written, with the steps reported.
fn print_log(table: &[u8], form: &[u8], log: &[u8], steps: usize) {
    match check(table, log) {
        Ok(a) => print_accepted(
            form,
            first_form(log, a.first_end),
            last_form(log, a.last_start),
            a.steps,
            steps,
        ),
        Err(e) => {
            io::write_all(1, b"not-accepted ");
            print_refusal(e.why.number());
        }
    }
}

// The memory lent after a log of so many bytes was written.
fn print_written(table: &[u8], form: &[u8], out: &[u8], size: usize, steps: usize) {
    if out.len() < size {
        io::write_all(1, b"too-long");
        return;
    }
    print_log(table, form, &out[..size], steps);
    print_standing(&out[size..]);
}

// The line of a case.
fn print_case(table: &[u8], form: &[u8], out: &mut [u8]) {
    fill(out);
    match shorten(table, form, out) {
        Ok(w) => print_written(table, form, out, w.size, w.steps),
        Err(why) => {
            print_refusal(why.number());
            print_standing(out);
        }
    }
    print_character(b'\n');
}

// The line of a case, with the first bytes of the memory lent.
fn print_lent(table: &[u8], form: &[u8], out: &mut [u8], p: usize)
    requires { p ≤ length out.old }
{
    print_case(table, form, &mut out[..p]);
}

// The case at a position, and the position behind it; the end where a case is cut off or asks for more memory than there is.
fn case_at(s: &[u8], at: usize, out: &mut [u8]) -> usize
    requires { at < length s.now }
    ensures { at < result }
{
    let len = s.len();
    let t = byte_at(s, at);
    if len - at - 1 < t + 2 {
        return len;
    }
    let k = at + 1 + t;
    let m = two_bytes_at(s, k);
    let b = k + 2;
    if len - b < m + 2 {
        return len;
    }
    let j = b + m;
    let p = two_bytes_at(s, j);
    if out.len() < p {
        return len;
    }
    print_lent(&s[at + 1..k], &s[b..j], out, p);
    j + 2
}

// All cases.
fn run(s: &[u8], out: &mut [u8]) {
    let mut at: usize = 0;
    while at < s.len() {
        at = case_at(s, at, out);
    }
}

fn main() {
    let mut buf = io::large_buffer();
    let mut out = io::large_buffer();
    let n = io::read_full(0, &mut buf);
    run(&buf[..n], &mut out);
}
