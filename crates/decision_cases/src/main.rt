// Runs cases of the decision from standard input. A case is the length of a table (one byte), the table, the length of a form's record (two bytes), the record,
// the same for the second form, how many bytes of the buffer are lent (one byte) and how many of the work memory (two bytes).
// For each it writes a line: holds, differs and the assignment handed over, or R and the number of the refusal; behind it what is wrong with the memory lent,
// if anything is.
#![tactic(auto)]

ghost use Rattle.std.specs.Prelude.{◌<◌, ◌≤◌, length};

use case_lines::{
    byte_at, fill, print_assignment, print_character, print_refusal, print_standing, two_bytes_at,
};
use decision::{Decision, decide};

// The line of a case.
fn print_case(table: &[u8], first: &[u8], second: &[u8], buffer: &mut [u8], work: &mut [u8]) {
    fill(buffer);
    fill(work);
    let d = decide(table, first, second, buffer, work);
    match d {
        Decision::Holds => {
            io::write_all(1, b"holds");
            print_standing(buffer);
        }
        Decision::Differs => {
            io::write_all(1, b"differs");
            print_assignment(table, buffer);
        }
        Decision::Refused(why) => {
            print_refusal(why.number());
            print_standing(buffer);
            print_standing(work);
        }
    }
    print_character(b'\n');
}

// The line of a case, with the first bytes of the buffer and of the work memory lent.
fn print_lent(
    table: &[u8],
    first: &[u8],
    second: &[u8],
    buffer: &mut [u8],
    p: usize,
    work: &mut [u8],
    q: usize,
)
    requires { (p ≤ length buffer.old) × (q ≤ length work.old) }
{
    print_case(table, first, second, &mut buffer[..p], &mut work[..q]);
}

// The case at a position, and the position behind it; the end where a case is cut off or asks for more memory than there is.
fn case_at(s: &[u8], at: usize, buffer: &mut [u8], work: &mut [u8]) -> usize
    requires { at < length s.now }
    ensures { at < result }
{
    let len = s.len();
    let t = byte_at(s, at);
    if len - at - 1 < t + 2 {
        return len;
    }
    let k = at + 1 + t;
    let m = two_bytes_at(s, k);
    let b = k + 2;
    if len - b < m + 2 {
        return len;
    }
    let j = b + m;
    let n = two_bytes_at(s, j);
    let c = j + 2;
    if len - c < n + 3 {
        return len;
    }
    let e = c + n;
    let p = byte_at(s, e);
    let q = two_bytes_at(s, e + 1);
    if buffer.len() < p {
        return len;
    }
    if work.len() < q {
        return len;
    }
    print_lent(&s[at + 1..k], &s[b..j], &s[c..e], buffer, p, work, q);
    e + 3
}

// All cases.
fn run(s: &[u8], buffer: &mut [u8], work: &mut [u8]) {
    let mut at: usize = 0;
    while at < s.len() {
        at = case_at(s, at, buffer, work);
    }
}

fn main() {
    let mut buf = io::large_buffer();
    let mut buffer = [0u8; 256];
    let mut work = io::large_buffer();
    let n = io::read_full(0, &mut buf);
    run(&buf[..n], &mut buffer, &mut work);
}
