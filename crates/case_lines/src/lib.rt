// What the programs over cases share: bytes taken from the input, and lines written to standard output.
#![tactic(auto)]

ghost use Rattle.std.specs.Prelude.{◌≡◌, ◌+◌, ◌*◌, ◌^◌, ◌≤◌, ◌<◌, nat_abs, length};
ghost use Rattle.case_lines.specs.Filling.{AllFilling, Stand};
ghost use Rattle.evaluation.specs.Vectors.{vec_of, Within};

use evaluation::value;
use evaluation::vectors::Vector;
use integers::{is_negative, less, size};

// A byte as a number.
pub fn byte_at(s: &[u8], i: usize) -> usize
    requires { i < length s.now }
    ensures { result < 256 }
{
    s[i] as usize
}

// Two bytes as a number.
pub fn two_bytes_at(s: &[u8], i: usize) -> usize
    requires { i + 1 < length s.now }
    ensures { result < 65536 }
{
    byte_at(s, i) * 256 + byte_at(s, i + 1)
}

// The first n bytes, or all where there are fewer.
pub fn front(s: &[u8], n: usize) -> &[u8] {
    if s.len() < n {
        return s;
    }
    &s[..n]
}

// The bytes behind the first n, or all where there are fewer.
pub fn behind(s: &[u8], n: usize) -> &[u8] {
    if s.len() < n {
        return s;
    }
    &s[n..]
}

// The first n bytes of memory that is lent, or all where there are fewer.
pub fn lend(s: &mut [u8], n: usize) -> &mut [u8] {
    if s.len() < n {
        return s;
    }
    &mut s[..n]
}

// One character.
pub fn print_character(c: u8) {
    io::write_all(1, &[c]);
}

// Bytes as hexadecimal digits.
pub fn print_bytes(s: &[u8]) {
    for &b in s {
        io::print_hex(1, b as u64, 2);
    }
}

// A signed number of less than 64 bits in decimal.
fn print_number(a: i64)
    requires { nat_abs a < 2 ^ 63 }
{
    if is_negative(a) {
        print_character(b'-');
    }
    io::print_decimal(1, size(a));
}

// Any signed number in decimal.
pub fn print_signed(a: i64) {
    if less(a, -9223372036854775807) {
        io::write_all(1, b"-9223372036854775808");
        return;
    }
    print_number(a);
}

// R and the number of a refusal.
pub fn print_refusal(n: u8) {
    print_character(b'R');
    io::print_decimal(1, n as u64);
}

// What every byte lent is before a call: no number of an assignment, and in a record only a byte of a coefficient.
pub const FILLING: u8 = 170;

// Fills the bytes.
pub fn fill(s: &mut [u8])
    ensures filled { AllFilling s.new }
    ensures same { length s.new ≡ length s.old }
{
    s.fill(FILLING);
}

// Whether the bytes are as they were filled.
fn stands(s: &[u8]) -> bool
    ensures { Stand s.now result }
{
    for i in 0..s.len() {
        if s[i] != FILLING {
            return false;
        }
    }
    true
}

// The word for memory that was changed.
pub fn print_standing(s: &[u8]) {
    if !stands(s) {
        io::write_all(1, b" changed");
    }
}

// Whether two parts of memory hold the same bytes.
fn same(s: &[u8], t: &[u8]) -> bool {
    s == t
}

// The terms that a form's record counts; 255 where it is cut off.
fn terms_of(form: &[u8]) -> usize
    ensures { result < 256 }
{
    if form.len() < 2 {
        return 255;
    }
    byte_at(form, 1)
}

// The numbers of terms, and the word for a log that has more steps than terms were saved.
fn print_counts(first: usize, last: usize, steps: usize)
    requires { (first < 256) × (last < 256) }
{
    io::print_decimal(1, first as u64);
    print_character(b' ');
    io::print_decimal(1, last as u64);
    if last > first {
        io::write_all(1, b" longer");
        return;
    }
    if steps > first - last {
        io::write_all(1, b" idle-steps");
    }
}

// An accepted log, with its first form, its last form and its steps.
pub fn print_accepted(form: &[u8], first: &[u8], last: &[u8], counted: usize, steps: usize) {
    print_counts(terms_of(first), terms_of(last), counted);
    if !same(first, form) {
        io::write_all(1, b" another-form");
    }
    if counted != steps {
        io::write_all(1, b" steps-miscounted");
    }
}

// Three numbers.
fn print_vector(v: Vector)
    requires { Within (48 * 2 ^ 57) (vec_of v) }
{
    print_number(v.x);
    print_character(b' ');
    print_number(v.y);
    print_character(b' ');
    print_number(v.z);
}

// What the value call answers.
pub fn print_values(table: &[u8], form: &[u8], assignment: &[u8]) {
    match value(table, form, assignment) {
        Ok(v) => print_vector(v),
        Err(why) => print_refusal(why.number()),
    }
}

// A record and its values.
pub fn print_form(table: &[u8], form: &[u8], assignment: &[u8]) {
    print_bytes(form);
    print_character(b' ');
    print_values(table, form, assignment);
}

// How many bytes the assignment of a case has.
pub fn assignment_length(letters: usize) -> usize
    ensures { result ≤ 72 }
{
    if letters > 24 {
        return 0;
    }
    3 * letters
}

// The assignment that a decision handed over, and whether the bytes behind it stand.
pub fn print_assignment(table: &[u8], buffer: &[u8]) {
    let n = assignment_length(table.len());
    if buffer.len() < n {
        io::write_all(1, b" cut-off");
        return;
    }
    print_character(b' ');
    print_bytes(&buffer[..n]);
    print_standing(&buffer[n..]);
}
