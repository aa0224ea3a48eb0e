// Runs calls on logs that stay open from standard input. A call begins with 8 bytes: its number (one byte), the length of a table (one byte) and of an input
// (two bytes), and how much is lent of two parts of memory (two bytes each); then come the table and the input. The calls: 1 opens, 2 adds, 3 looks, 4 decides,
// 5 closes, 6 adds and is told by its length alone; 0 is none, it hands over the input as the state. Every other call gets the state at hand: the bytes that
// the last accepted opening or adding gave back, or those handed over since. What a call does not take is empty, or 0.
// For each call it writes a line: the length and the bytes written, holds, differs and the assignment, accepted, or R and the number of the refusal; behind it
// the word changed for memory that has to stand and does not.
#![tactic(auto)]

ghost use Rattle.std.specs.Prelude.{◌<◌, length};

use case_lines::{
    FILLING, behind, byte_at, front, lend, print_assignment, print_bytes, print_character,
    print_refusal, print_standing, two_bytes_at,
};
use decision::Decision;
use open_log::{add, close, decide_open, look, open};
use refusal::Refusal;

// Where the next call begins, and how many bytes the state at hand has.
#[derive(Clone, Copy)]
struct Place {
    at: usize,
    size: usize,
}

// The table in the bytes of a state; nothing where it is cut off.
fn table_in(state: &[u8]) -> &[u8] {
    if state.len() == 0 {
        return state;
    }
    front(behind(state, 1), byte_at(state, 0))
}

// Bytes become the state at hand, as many as there is room for.
fn keep(held: &mut [u8], state: &[u8]) -> usize {
    let n = state.len().min(held.len());
    held[..n].copy_from_slice(&state[..n]);
    n
}

// The line of a call that wrote n bytes: their number, the bytes unless it is told by its length alone, and whether those behind them stand.
fn print_written(out: &[u8], n: usize, whole: bool) {
    io::print_decimal(1, n as u64);
    if whole {
        print_character(b' ');
        print_bytes(front(out, n));
    }
    print_standing(behind(out, n));
    print_character(b'\n');
}

// The line of a refused call, all of whose memory stands.
fn print_refused(out: &[u8], why: Refusal) {
    print_refusal(why.number());
    print_standing(out);
    print_character(b'\n');
}

// The line of a call that gives a state, and the size of the state at hand: the one given, or the one before where the call is refused.
fn take(r: Result<usize, Refusal>, out: &[u8], whole: bool, held: &mut [u8], size: usize) -> usize {
    match r {
        Ok(n) => {
            print_written(out, n, whole);
            keep(held, front(out, n))
        }
        Err(why) => {
            print_refused(out, why);
            size
        }
    }
}

// The opening call, with so many bytes lent.
fn run_open(table: &[u8], form: &[u8], p: usize, held: &mut [u8], size: usize) -> usize {
    let mut memory = [FILLING; 1024];
    let out = lend(&mut memory, p);
    let r = open(table, form, out);
    take(r, out, true, held, size)
}

// The call that adds a step.
fn run_add(step: &[u8], p: usize, whole: bool, held: &mut [u8], size: usize) -> usize {
    let mut memory = [FILLING; 1024];
    let out = lend(&mut memory, p);
    let r = add(front(held, size), step, out);
    take(r, out, whole, held, size)
}

// The call that looks at the form reached.
fn run_look(state: &[u8], p: usize) {
    let mut memory = [FILLING; 1024];
    let out = lend(&mut memory, p);
    match look(state, out) {
        Ok(n) => print_written(out, n, true),
        Err(why) => print_refused(out, why),
    }
}

// The line of a decision: what it said, and whether the memory stands that has to.
fn print_decision(d: Decision, state: &[u8], buffer: &[u8], work: &[u8]) {
    match d {
        Decision::Holds => {
            io::write_all(1, b"holds");
            print_standing(buffer);
        }
        Decision::Differs => {
            io::write_all(1, b"differs");
            print_assignment(table_in(state), buffer);
        }
        Decision::Refused(why) => {
            print_refusal(why.number());
            print_standing(buffer);
            print_standing(work);
        }
    }
    print_character(b'\n');
}

// The call that decides the form reached against another, with so many bytes of each part lent.
fn run_decide(state: &[u8], form: &[u8], p: usize, q: usize) {
    let mut bytes = [FILLING; 256];
    let mut memory = [FILLING; 65536];
    let buffer = lend(&mut bytes, p);
    let work = lend(&mut memory, q);
    let d = decide_open(state, form, buffer, work);
    print_decision(d, state, buffer, work);
}

// The call that closes a log.
fn run_close(state: &[u8], form: &[u8]) {
    match close(state, form) {
        Ok(()) => {
            io::write_all(1, b"accepted");
        }
        Err(why) => print_refusal(why.number()),
    }
    print_character(b'\n');
}

// A call that gives a state, by its number: the size of the state that is then at hand.
fn run_changing(
    call: u8,
    table: &[u8],
    input: &[u8],
    p: usize,
    held: &mut [u8],
    size: usize,
) -> usize {
    match call {
        1 => run_open(table, input, p, held, size),
        2 => run_add(input, p, true, held, size),
        _ => run_add(input, p, false, held, size),
    }
}

// Whether a call, by its number, leaves the state at hand as it is.
fn leaves(call: u8) -> bool {
    match call {
        3..=5 => true,
        _ => false,
    }
}

// Such a call.
fn run_leaving(call: u8, state: &[u8], input: &[u8], p: usize, q: usize) {
    match call {
        3 => run_look(state, p),
        4 => run_decide(state, input, p, q),
        _ => run_close(state, input),
    }
}

// The line of a call, by its number, and the size of the state that is then at hand; a state handed over is no call and has no line.
fn run_call(
    call: u8,
    table: &[u8],
    input: &[u8],
    p: usize,
    q: usize,
    held: &mut [u8],
    size: usize,
) -> usize {
    if call == 0 {
        return keep(held, input);
    }
    if leaves(call) {
        run_leaving(call, front(held, size), input, p, q);
        return size;
    }
    run_changing(call, table, input, p, held, size)
}

// The call at a position with the state at hand, and where the next begins; the end where a call is cut off.
fn call_at(s: &[u8], at: usize, held: &mut [u8], size: usize) -> Place
    requires { at < length s.now }
    ensures { at < result.at }
{
    let len = s.len();
    if len - at < 8 {
        return Place {
            at: len,
            size: size,
        };
    }
    let a = at + 8;
    let b = a + byte_at(s, at + 1);
    let e = b + two_bytes_at(s, at + 2);
    if len < e {
        return Place {
            at: len,
            size: size,
        };
    }
    let p = two_bytes_at(s, at + 4);
    let q = two_bytes_at(s, at + 6);
    let next = run_call(s[at], &s[a..b], &s[b..e], p, q, held, size);
    Place { at: e, size: next }
}

// All calls, with no state at hand before the first.
fn run(s: &[u8], held: &mut [u8]) {
    let mut at: usize = 0;
    let mut size: usize = 0;
    while at < s.len() {
        let next = call_at(s, at, held, size);
        at = next.at;
        size = next.size;
    }
}

fn main() {
    let mut buf = io::large_buffer();
    let mut held = [0u8; 1024];
    let n = io::read_full(0, &mut buf);
    run(&buf[..n], &mut held);
}
