// Runs cases of the calls for C and of the audit from standard input. A case begins with 12 bytes: the number of the call (one byte), the lengths of a
// table (one byte) and of two inputs (two bytes each), and how much is lent of three parts of memory (two bytes each); then come the table and the inputs.
// What a call does not take is empty, or 0; the letter of an insertion stands in place of the second part of memory. For each case it writes a line: the
// number returned, and behind it what the memory lent holds, or the assignment that the decision handed over; or, where document 01 leaves the memory open,
// what is wrong with it.
#![tactic(auto)]

ghost use Rattle.std.specs.Prelude.{◌<◌, length};

use audit::{Verdict, audit};
use case_lines::{
    FILLING, behind, byte_at, front, lend, print_accepted, print_assignment, print_bytes,
    print_character, print_refusal, print_signed, print_standing, two_bytes_at,
};
use exports::{
    kalzunbi_check, kalzunbi_decide, kalzunbi_insert, kalzunbi_reduce, kalzunbi_shorten,
    kalzunbi_value,
};
use integers::{is_negative, is_one, is_zero, size, within};

// What every number lent is before a call.
const NUMBER: u64 = 170;

const SIGNED: i64 = 170;

// How many bytes a number returned says are written: none where it is a refusal.
fn written(r: i64) -> usize {
    if !within(r) {
        return 0;
    }
    if is_negative(r) {
        return 0;
    }
    size(r) as usize
}

// Numbers behind blanks, from a position on.
fn print_numbers(s: &[u64], from: usize) {
    for i in from..s.len() {
        print_character(b' ');
        io::print_decimal(1, s[i]);
    }
}

// Signed numbers behind blanks.
fn print_all_signed(s: &[i64]) {
    for &n in s {
        print_character(b' ');
        print_signed(n);
    }
}

// The value call: the number returned, and the numbers lent.
fn print_value(table: &[u8], form: &[u8], assignment: &[u8], values: &mut [i64]) {
    let r = kalzunbi_value(table, form, assignment, values);
    print_signed(r);
    print_all_signed(values);
}

// The same with two numbers lent, or with three.
fn run_value(table: &[u8], form: &[u8], assignment: &[u8], p: usize) {
    match p {
        2 => print_value(table, form, assignment, &mut [SIGNED; 2]),
        _ => print_value(table, form, assignment, &mut [SIGNED; 3]),
    }
}

// The number that a call which gives a form returned, and the bytes written.
fn print_record(r: i64, out: &[u8]) {
    print_signed(r);
    let n = written(r);
    if n > 0 {
        print_character(b' ');
        print_bytes(front(out, n));
    }
    print_standing(behind(out, n));
}

// The reduction call.
fn print_reduced(table: &[u8], expression: &[u8], out: &mut [u8]) {
    let r = kalzunbi_reduce(table, expression, out);
    print_record(r, out);
}

// The same with so many bytes lent.
fn run_reduced(table: &[u8], expression: &[u8], p: usize) {
    let mut out = [FILLING; 4096];
    print_reduced(table, expression, lend(&mut out, p));
}

// The insertion call.
fn print_inserted(table: &[u8], form: &[u8], letter: u8, inserted: &[u8], out: &mut [u8]) {
    let r = kalzunbi_insert(table, form, letter, inserted, out);
    print_record(r, out);
}

// The same with so many bytes lent, the letter's number in place of the second length.
fn run_inserted(table: &[u8], form: &[u8], inserted: &[u8], p: usize, q: usize) {
    let mut out = [FILLING; 4096];
    print_inserted(table, form, (q % 256) as u8, inserted, lend(&mut out, p));
}

// The checker's call: the number returned, and the numbers lent.
fn print_checked(table: &[u8], log: &[u8], places: &mut [u64]) {
    let r = kalzunbi_check(table, log, places);
    print_signed(r);
    print_numbers(places, 0);
}

// The same with two numbers lent, or with three.
fn run_checked(table: &[u8], log: &[u8], p: usize) {
    match p {
        2 => print_checked(table, log, &mut [NUMBER; 2]),
        _ => print_checked(table, log, &mut [NUMBER; 3]),
    }
}

// What is wrong with memory that has to stand: the buffer, and the work bytes too where the call is refused.
fn print_kept(r: i64, buffer: &[u8], work: &[u8]) {
    print_standing(buffer);
    if is_negative(r) {
        print_standing(work);
    }
}

// The decision call: the number returned, and the assignment where the forms differ.
fn print_decided(table: &[u8], first: &[u8], second: &[u8], buffer: &mut [u8], work: &mut [u8]) {
    let r = kalzunbi_decide(table, first, second, buffer, work);
    print_signed(r);
    if is_one(r) {
        print_assignment(table, buffer);
    } else {
        print_kept(r, buffer, work);
    }
}

// The same with so many bytes of each part lent.
fn run_decided(table: &[u8], first: &[u8], second: &[u8], q: usize, r: usize) {
    let mut buffer = [FILLING; 256];
    let mut work = [FILLING; 65536];
    print_decided(
        table,
        first,
        second,
        lend(&mut buffer, q),
        lend(&mut work, r),
    );
}

// The log that shortening wrote, with the steps reported: the terms of its first form and of its last.
fn print_log(table: &[u8], form: &[u8], log: &[u8], steps: usize) {
    let mut places = [NUMBER; 3];
    let r = kalzunbi_check(table, log, &mut places);
    if !is_zero(r) {
        io::write_all(1, b"not-accepted");
        return;
    }
    let first = front(log, places[0] as usize);
    let last = behind(log, places[1] as usize);
    print_accepted(form, first, last, places[2] as usize, steps);
}

// The first number lent, or 0 where none is.
fn first_of(s: &[u64]) -> usize {
    if s.len() == 0 {
        return 0;
    }
    s[0] as usize
}

// The shortening call: the number returned where it is a refusal, else the terms; behind them the numbers lent, but not that of the steps.
fn print_shortened(table: &[u8], form: &[u8], out: &mut [u8], steps: &mut [u64]) {
    let r = kalzunbi_shorten(table, form, out, steps);
    let n = written(r);
    if is_negative(r) {
        print_signed(r);
        print_numbers(steps, 0);
    } else {
        print_log(table, form, front(out, n), first_of(steps));
        print_numbers(steps, 1);
    }
    print_standing(behind(out, n));
}

// The same with so many bytes lent, and no number, or one.
fn run_shortened(table: &[u8], form: &[u8], p: usize, q: usize) {
    let mut memory = [FILLING; 4096];
    let out = lend(&mut memory, p);
    match q {
        0 => print_shortened(table, form, out, &mut [NUMBER; 0]),
        _ => print_shortened(table, form, out, &mut [NUMBER; 1]),
    }
}

// What the audit says: the terms of the log's first form and of its last where all agree.
fn print_verdict(v: Verdict, table: &[u8], form: &[u8], out: &[u8], work: &[u8]) {
    match v {
        Verdict::Agreed(w) => {
            io::write_all(1, b"agreed ");
            print_log(table, form, front(out, w.size), w.steps);
            print_standing(behind(out, w.size));
        }
        Verdict::Refused(why) => {
            print_refusal(why.number());
            print_standing(out);
            print_standing(work);
        }
        Verdict::Apart => {
            io::write_all(1, b"apart");
        }
    }
}

// The audit, and the buffer, which stands.
fn print_audited(table: &[u8], form: &[u8], out: &mut [u8], buffer: &mut [u8], work: &mut [u8]) {
    let v = audit(table, form, out, buffer, work);
    print_verdict(v, table, form, out, work);
    print_standing(buffer);
}

// The same with so many bytes of each part lent.
fn run_audited(table: &[u8], form: &[u8], p: usize, q: usize, r: usize) {
    let mut out = [FILLING; 4096];
    let mut buffer = [FILLING; 256];
    let mut work = [FILLING; 65536];
    print_audited(
        table,
        form,
        lend(&mut out, p),
        lend(&mut buffer, q),
        lend(&mut work, r),
    );
}

// What a call answers, by its number, where so much is lent.
fn print_call(call: u8, table: &[u8], first: &[u8], second: &[u8], p: usize, q: usize, r: usize) {
    match call {
        1 => run_value(table, first, second, p),
        2 => run_reduced(table, first, p),
        3 => run_checked(table, first, p),
        4 => run_decided(table, first, second, q, r),
        5 => run_shortened(table, first, p, q),
        7 => run_inserted(table, first, second, p, q),
        _ => run_audited(table, first, p, q, r),
    }
    print_character(b'\n');
}

// The case at a position, and the position behind it; the end where a case is cut off.
fn case_at(s: &[u8], at: usize) -> usize
    requires { at < length s.now }
    ensures { at < result }
{
    let len = s.len();
    if len - at < 12 {
        return len;
    }
    let a = at + 12;
    let b = a + byte_at(s, at + 1);
    let c = b + two_bytes_at(s, at + 2);
    let e = c + two_bytes_at(s, at + 4);
    if len < e {
        return len;
    }
    let p = two_bytes_at(s, at + 6);
    let q = two_bytes_at(s, at + 8);
    let r = two_bytes_at(s, at + 10);
    print_call(s[at], &s[a..b], &s[b..c], &s[c..e], p, q, r);
    e
}

// All cases.
fn run(s: &[u8]) {
    let mut at: usize = 0;
    while at < s.len() {
        at = case_at(s, at);
    }
}

fn main() {
    let mut buf = io::large_buffer();
    let n = io::read_full(0, &mut buf);
    run(&buf[..n]);
}
