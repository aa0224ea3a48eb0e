// The text of terms and forms: terms joined by their signs, each a coefficient, factors and a vector part; the lines that a result prints.
#![tactic(auto)]

ghost use Rattle.std.specs.Prelude.{[], ◌∷◌, map, ◌+◌, ◌-◌, ◌*◌, ◌≤◌, ◌<◌, length, take, drop};
ghost use Rattle.specification.specs.Results.{refused};
ghost use Rattle.specification.specs.Printing.{print_term, print_terms, print_form, line_bytes, print_result, TextWritten};
ghost use Rattle.terms.specs.Abstraction.{term_of, form_of};
ghost use Rattle.record_writing.specs.Written.{Written};
ghost use Rattle.symbols.specs.Printable.{TermPrintable, Printable};
ghost use Rattle.symbols.specs.Text.{print_factors, print_line};

use symbols::{
    print_decimal, print_factor, print_first_sign, print_part, print_sign, print_size, print_star,
};
use terms::types::{Form, Term};

// Bytes that the line of any form fits into.
pub const LINE_BYTES: usize = 1393;

// The names of letters where no others are given: a to x.
pub const ALPHABET: [u8; 24] = *b"abcdefghijklmnopqrstuvwx";

// All factors of a term.
fn print_factors(names: &[u8], out: &mut [u8], at: usize, t: Term) -> usize
    requires { TermPrintable names.now t × (at + length (print_factors names.now (term_of t)) ≤ length out.old) }
    ensures { Written out.old out.new at result (print_factors names.now (term_of t)) }
{
    let n = t.factor_count as usize;
    let mut next = at;
    for i in 0..n {
        let k = t.factors[i];
        next = print_factor(names, out, next, k);
    }
    next
}

// A term without its sign.
fn print_term(names: &[u8], out: &mut [u8], at: usize, t: Term) -> usize
    requires { TermPrintable names.now t × (at + 28 ≤ length out.old) }
    ensures { Written out.old out.new at result (print_term names.now (term_of t)) }
{
    let p = t.part;
    let factors = print_size(out, at, t);
    let star = print_factors(names, out, factors, t);
    let part = print_star(out, at, star, p);
    print_part(names, out, part, p)
}

// The terms behind the first.
fn print_terms(names: &[u8], out: &mut [u8], at: usize, f: Form) -> usize
    requires { Printable names.now f × (at + 29 * (f.count - 1) ≤ length out.old) }
    ensures { Written out.old out.new at result (print_terms names.now (map term_of (drop 1 (take f.count f.terms)))) }
{
    let n = f.count;
    let mut next = at;
    for i in 1..n {
        let t = f.terms[i];
        let from = print_sign(out, next, t.coef);
        next = print_term(names, out, from, t);
    }
    next
}

// The text of a form of one term.
pub fn print_single(names: &[u8], out: &mut [u8], at: usize, t: Term) -> usize
    requires { TermPrintable names.now t × (at + 29 ≤ length out.old) }
    ensures { Written out.old out.new at result (print_form names.now (term_of t ∷ [])) }
{
    let behind = print_first_sign(out, at, t.coef);
    print_term(names, out, behind, t)
}

// The text of a form.
pub fn print_form(names: &[u8], out: &mut [u8], f: Form) -> usize
    requires { Printable names.now f × (line_bytes ≤ length out.old) }
    ensures { TextWritten out.old out.new result (print_form names.now (form_of f).terms) }
{
    if f.count == 0 {
        out[0] = b'0';
        return 1;
    }
    let t = f.terms[0];
    let next = print_single(names, out, 0, t);
    print_terms(names, out, next, f)
}

// The line of a form: its text and a newline.
pub fn print_line(names: &[u8], out: &mut [u8], f: Form) -> usize
    requires { Printable names.now f × (line_bytes ≤ length out.old) }
    ensures { TextWritten out.old out.new result (print_line names.now (form_of f)) }
{
    let end = print_form(names, out, f);
    out[end] = b'\n';
    end + 1
}

// The line of a refusal: R, its number and a newline.
pub fn print_refusal(out: &mut [u8], n: u8) -> usize
    requires { 12 ≤ length out.old }
    ensures { TextWritten out.old out.new result (print_result (refused n)) }
{
    out[0] = b'R';
    let last = print_decimal(out, 1, n as u64);
    out[last] = b'\n';
    last + 1
}
