// Runs the printer over cases from standard input. A case is the length of an input (two bytes) and the input. For each it writes what the printer prints.
#![tactic(auto)]

ghost use Rattle.std.specs.Prelude.{◌+◌, ◌<◌, length};

use case_lines::two_bytes_at;
use printer_call::print;
use printing::LINE_BYTES;

// The line of a case.
fn print_case(s: &[u8]) {
    let mut out = [0u8; LINE_BYTES];
    let Ok(m) = print(s, &mut out) else {
        return;
    };
    io::write_all(1, &out[..m]);
}

// The case at a position, and the position behind it; the end where a case is cut off.
fn case_at(s: &[u8], at: usize) -> usize
    requires { at < length s.now }
    ensures { at < result }
{
    let len = s.len();
    if len - at < 2 {
        return len;
    }
    let m = two_bytes_at(s, at);
    let b = at + 2;
    if len - b < m {
        return len;
    }
    print_case(&s[b..b + m]);
    b + m
}

// All cases.
fn run(s: &[u8]) {
    let mut at: usize = 0;
    while at < s.len() {
        at = case_at(s, at);
    }
}

fn main() {
    let mut buf = io::large_buffer();
    let n = io::read_full(0, &mut buf);
    run(&buf[..n]);
}
