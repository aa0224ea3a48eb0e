// The text of a log told into lent bytes: the line of the names, the lines of the forms and of the steps.
#![tactic(auto)]

ghost use Rattle.std.specs.Prelude.{◌≤◌, length};
ghost use Rattle.specification.specs.Printing.{print_steps};
ghost use Rattle.specification.specs.LogTexts.{kinds_word, write_names, names_line, kind_word, form_line, log_text};
ghost use Rattle.terms.specs.Abstraction.{form_of};
ghost use Rattle.logs.specs.Steps.{steps_of};
ghost use Rattle.symbols.specs.Printable.{Printable};
ghost use Rattle.log_lines.specs.Printed.{StepsPrintable};
ghost use Rattle.telling.specs.Told.{Tells};
ghost use Rattle.log_telling.specs.Names.{kind_change, name_text};

use log_lines::lines::print_steps;
use logs::steps::Steps;
use printing::{LINE_BYTES, print_form};
use telling::{put, put_byte};
use terms::types::Form;
use texts::byte_at;

// The lines of 64 steps, of at most 55 bytes each.
const STEPS_BYTES: usize = 3520;

// `vector` or `scalar`.
fn tell_kind(out: &mut [u8], at: usize, kind: u8) -> usize
    ensures { Tells out.old out.new at result (kind_word kind) }
{
    if kind == 0 {
        return put(out, at, b"scalar");
    }
    put(out, at, b"vector")
}

// `vectors` or `scalars`.
fn tell_kinds(out: &mut [u8], at: usize, kind: u8) -> usize
    ensures { Tells out.old out.new at result (kinds_word kind) }
{
    let word = tell_kind(out, at, kind);
    put_byte(out, word, b's')
}

// A blank and the word of a kind, where it is another than the one before.
fn tell_change(out: &mut [u8], at: usize, before: u8, kind: u8) -> usize
    ensures { Tells out.old out.new at result (kind_change before kind) }
{
    if kind == before {
        return at;
    }
    let next = put_byte(out, at, b' ');
    tell_kinds(out, next, kind)
}

// A name behind those of a kind.
fn tell_name(out: &mut [u8], at: usize, before: u8, name: u8, kind: u8) -> usize
    ensures { Tells out.old out.new at result (name_text before name kind) }
{
    let word = tell_change(out, at, before, kind);
    let blank = put_byte(out, word, b' ');
    put_byte(out, blank, name)
}

// The names behind a word that says a kind.
fn tell_names(out: &mut [u8], at: usize, kind: u8, names: &[u8], table: &[u8]) -> usize
    requires { length names.now ≤ length table.now }
    ensures { Tells out.old out.new at result (write_names kind names.now table.now) }
{
    let mut next = at;
    let mut last = kind;
    for i in 0..names.len() {
        let k = table[i];
        next = tell_name(out, next, last, names[i], k);
        last = k;
    }
    next
}

// The line of the names.
fn tell_names_line(out: &mut [u8], at: usize, names: &[u8], table: &[u8]) -> usize
    requires { length names.now ≤ length table.now }
    ensures { Tells out.old out.new at result (names_line names.now table.now) }
{
    let kind = byte_at(table, 0);
    let word = tell_kinds(out, at, kind);
    let end = tell_names(out, word, kind, names, table);
    put_byte(out, end, b'\n')
}

// The line of a form: its kind and its text.
pub fn tell_form(out: &mut [u8], at: usize, names: &[u8], f: Form) -> usize
    requires { Printable names.now f }
    ensures { Tells out.old out.new at result (form_line names.now (form_of f)) }
{
    let mut line = [0u8; LINE_BYTES];
    let n = print_form(names, &mut line, f);
    let word = tell_kind(out, at, f.kind);
    let blank = put_byte(out, word, b' ');
    let end = put(out, blank, &line[..n]);
    put_byte(out, end, b'\n')
}

// The lines of the steps.
fn tell_steps(out: &mut [u8], at: usize, names: &[u8], q: Steps) -> usize
    requires { StepsPrintable names.now q }
    ensures { Tells out.old out.new at result (print_steps names.now (steps_of q)) }
{
    let mut lines = [0u8; STEPS_BYTES];
    let n = print_steps(names, &mut lines, 0, q);
    put(out, at, &lines[..n])
}

// The text of a log: its names, the first form, the steps and the last form.
pub fn tell_log(
    out: &mut [u8],
    at: usize,
    names: &[u8],
    table: &[u8],
    f: Form,
    q: Steps,
    g: Form,
) -> usize
    requires { Printable names.now f × StepsPrintable names.now q × Printable names.now g × (length names.now ≤ length table.now) }
    ensures { Tells out.old out.new at result (log_text names.now table.now (form_of f) (steps_of q) (form_of g)) }
{
    let first = tell_names_line(out, at, names, table);
    let steps = tell_form(out, first, names, f);
    let last = tell_steps(out, steps, names, q);
    tell_form(out, last, names, g)
}
