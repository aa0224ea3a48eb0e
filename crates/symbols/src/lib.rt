// The symbols of a text: numbers in decimal, letters, factors, vector parts, the star and the signs.
#![tactic(auto)]

ghost use Rattle.std.specs.Prelude.{◌≡◌, ◌+◌, ◌-◌, ◌*◌, ◌≤◌, ◌<◌, length};
ghost use Rattle.specification.specs.Printing.{name_of, decimal, print_factor, print_part, is_nothing, print_size, print_first_sign, print_sign};
ghost use Rattle.terms.specs.Numbers.{letters_of};
ghost use Rattle.terms.specs.Abstraction.{part_of, term_of, Counted};
ghost use Rattle.terms.specs.Valid.{TermValid};
ghost use Rattle.record_writing.specs.Written.{Written};
ghost use Rattle.symbols.specs.Printable.{Printed};
ghost use Rattle.symbols.specs.Text.{other_letters, is_left_out, pair_text, triple_text, StarWritten};

use integers::{is_negative, size};
use terms::factors::{Factor, letters_of};
use terms::types::{Part, Term};

// The byte of a digit.
fn digit(n: u64) -> u8
    requires { n < 10 }
    ensures { result ≡ 48 + n }
{
    48 + n as u8
}

// A number in decimal.
pub fn print_decimal(out: &mut [u8], at: usize, n: u64) -> usize
    requires { (n < 10000000000) × (at + length (decimal n) ≤ length out.old) }
    ensures { Written out.old out.new at result (decimal n) }
{
    if n < 10 {
        out[at] = digit(n);
        return at + 1;
    }
    let next = print_decimal(out, at, n / 10);
    out[next] = digit(n % 10);
    next + 1
}

// The name of a letter.
pub fn letter(names: &[u8], n: u8) -> u8
    requires { n < length names.now }
    ensures { result ≡ name_of names.now n }
{
    names[n as usize]
}

// Two letters with a mark between them: a dot or a wedge.
fn print_pair(names: &[u8], out: &mut [u8], at: usize, x: u8, mark: u8, y: u8) -> usize
    requires { (x < length names.now) × (y < length names.now) × (at + 5 ≤ length out.old) }
    ensures { Written out.old out.new at result (pair_text names.now x mark y) }
{
    out[at] = 40;
    out[at + 1] = letter(names, x);
    out[at + 2] = mark;
    out[at + 3] = letter(names, y);
    out[at + 4] = 41;
    at + 5
}

// Three letters: a triple.
fn print_triple(names: &[u8], out: &mut [u8], at: usize, x: u8, y: u8, z: u8) -> usize
    requires { (x < length names.now) × (y < length names.now) × (z < length names.now) × (at + 5 ≤ length out.old) }
    ensures { Written out.old out.new at result (triple_text names.now x y z) }
{
    out[at] = 40;
    out[at + 1] = letter(names, x);
    out[at + 2] = letter(names, y);
    out[at + 3] = letter(names, z);
    out[at + 4] = 41;
    at + 5
}

// A factor.
pub fn print_factor(names: &[u8], out: &mut [u8], at: usize, k: u32) -> usize
    requires { (k < 16843008) × Printed names.now (letters_of k) × (at + length (print_factor names.now (letters_of k)) ≤ length out.old) }
    ensures { Written out.old out.new at result (print_factor names.now (letters_of k)) }
{
    let f = letters_of(k);
    match f {
        Factor::Scalar(x) => {
            out[at] = letter(names, x);
            at + 1
        }
        Factor::Dot(x, y) => print_pair(names, out, at, x, b'.', y),
        Factor::Triple(x, y, z) => print_triple(names, out, at, x, y, z),
    }
}

// A vector part.
pub fn print_part(names: &[u8], out: &mut [u8], at: usize, p: Part) -> usize
    requires { Printed names.now (part_of p) × (at + length (print_part names.now (part_of p)) ≤ length out.old) }
    ensures { Written out.old out.new at result (print_part names.now (part_of p)) }
{
    match p {
        Part::Nothing => at,
        Part::Letter(x) => {
            out[at] = letter(names, x);
            at + 1
        }
        Part::Wedge(x, y) => print_pair(names, out, at, x, b'^', y),
    }
}

// Whether a term has nothing but its coefficient.
fn is_bare(t: Term) -> bool
    requires { Counted t }
    ensures { result ≡ is_nothing (other_letters (term_of t)) }
{
    if t.factor_count > 0 {
        return false;
    }
    let p = t.part;
    match p {
        Part::Nothing => true,
        Part::Letter(_) => false,
        Part::Wedge(_, _) => false,
    }
}

// Whether a coefficient of this size is left out: 1 is, where anything else is written.
fn is_left_out(n: u64, t: Term) -> bool
    requires { Counted t }
    ensures { result ≡ is_left_out n (other_letters (term_of t)) }
{
    if n != 1 {
        return false;
    }
    !is_bare(t)
}

// The size of a term's coefficient, if it is not left out.
pub fn print_size(out: &mut [u8], at: usize, t: Term) -> usize
    requires { TermValid t × (at + length (print_size t.coef (other_letters (term_of t))) ≤ length out.old) }
    ensures { Written out.old out.new at result (print_size t.coef (other_letters (term_of t))) }
{
    let n = size(t.coef);
    if is_left_out(n, t) {
        return at;
    }
    print_decimal(out, at, n)
}

// The star before a vector part, if anything stands from a position on.
pub fn print_star(out: &mut [u8], from: usize, at: usize, p: Part) -> usize
    requires { at < length out.old }
    ensures { StarWritten out.old out.new from at result (part_of p) }
{
    if at <= from {
        return at;
    }
    match p {
        Part::Nothing => at,
        Part::Letter(_) => {
            out[at] = b'*';
            at + 1
        }
        Part::Wedge(_, _) => {
            out[at] = b'*';
            at + 1
        }
    }
}

// The sign of the first term: written where it is minus.
pub fn print_first_sign(out: &mut [u8], at: usize, k: i64) -> usize
    requires { at < length out.old }
    ensures { Written out.old out.new at result (print_first_sign k) }
{
    if is_negative(k) {
        out[at] = b'-';
        return at + 1;
    }
    at
}

// The sign of a later term.
pub fn print_sign(out: &mut [u8], at: usize, k: i64) -> usize
    requires { at < length out.old }
    ensures { Written out.old out.new at result (print_sign k) }
{
    if is_negative(k) {
        out[at] = b'-';
        return at + 1;
    }
    out[at] = b'+';
    at + 1
}
