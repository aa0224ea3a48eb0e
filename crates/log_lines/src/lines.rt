// The text of a log: forms and steps, each on a line.
ghost use Rattle.std.specs.Prelude.{◌+◌, ◌*◌, ◌≤◌, ◌++◌, length, take};
ghost use Rattle.specification.specs.Printing.{line_bytes, print_letters, print_rule, print_multiplier, print_step, print_steps, TextWritten};
ghost use Rattle.terms.specs.Abstraction.{term_of, form_of};
ghost use Rattle.record_writing.specs.Written.{Written};
ghost use Rattle.rules.specs.Steps.{step_of};
ghost use Rattle.logs.specs.Steps.{steps_of};
ghost use Rattle.symbols.specs.Printable.{Printed, TermPrintable, Printable};
ghost use Rattle.symbols.specs.Text.{print_line};
ghost use Rattle.log_lines.specs.Printed.{StepPrintable, StepsPrintable};

use logs::steps::Steps;
use printing::{print_line, print_single};
use rules::steps::{Step, rule_letters};
use symbols::letter;
use terms::types::{Form, Term};

// The rule's number.
fn print_rule(out: &mut [u8], at: usize, rule: u8) -> usize
    requires { (rule ≤ 5) × (at + 7 ≤ length out.old) }
    ensures { Written out.old out.new at result (print_rule rule) }
{
    out[at] = b'r';
    out[at + 1] = b'u';
    out[at + 2] = b'l';
    out[at + 3] = b'e';
    out[at + 4] = b' ';
    out[at + 5] = 48 + rule;
    out[at + 6] = b':';
    at + 7
}

// The first n letters.
fn print_letters(names: &[u8], out: &mut [u8], at: usize, letters: [u8; 6], n: usize) -> usize
    requires { (n ≤ 6) × Printed names.now (take n letters) × (at + 2 * n ≤ length out.old) }
    ensures { Written out.old out.new at result (print_letters names.now (take n letters)) }
{
    let mut next = at;
    for i in 0..n {
        out[next] = b' ';
        out[next + 1] = letter(names, letters[i]);
        next += 2;
    }
    next
}

// The term M, and the end of the line.
fn print_multiplier(names: &[u8], out: &mut [u8], at: usize, m: Term) -> usize
    requires { TermPrintable names.now m × (at + 36 ≤ length out.old) }
    ensures { Written out.old out.new at result (print_multiplier names.now (term_of m)) }
{
    out[at] = b',';
    out[at + 1] = b' ';
    out[at + 2] = b'M';
    out[at + 3] = b' ';
    out[at + 4] = b'=';
    out[at + 5] = b' ';
    let end = print_single(names, out, at + 6, m);
    out[end] = b'\n';
    end + 1
}

// The line of a step.
fn print_step(names: &[u8], out: &mut [u8], at: usize, s: Step) -> usize
    requires { StepPrintable names.now s × (at + 55 ≤ length out.old) }
    ensures { Written out.old out.new at result (print_step names.now (step_of s)) }
{
    let m = s.m;
    let letters = s.letters;
    let n = rule_letters(s.rule);
    let first = print_rule(out, at, s.rule);
    let behind = print_letters(names, out, first, letters, n);
    print_multiplier(names, out, behind, m)
}

// The lines of the steps.
pub fn print_steps(names: &[u8], out: &mut [u8], at: usize, q: Steps) -> usize
    requires { StepsPrintable names.now q × (at + 55 * q.count ≤ length out.old) }
    ensures { Written out.old out.new at result (print_steps names.now (steps_of q)) }
{
    let n = q.count;
    let mut next = at;
    for i in 0..n {
        let s = q.steps[i];
        next = print_step(names, out, next, s);
    }
    next
}

// The line of a form, the lines of the steps, and the line of the last form.
pub fn print_log(names: &[u8], out: &mut [u8], f: Form, q: Steps, g: Form) -> usize
    requires { Printable names.now f × StepsPrintable names.now q × Printable names.now g × (2 * line_bytes + 55 * q.count ≤ length out.old) }
    ensures { TextWritten out.old out.new result
        (print_line names.now (form_of f) ++ print_steps names.now (steps_of q) ++ print_line names.now (form_of g)) }
{
    let a = print_line(names, out, f);
    let b = print_steps(names, out, a, q);
    b + print_line(names, &mut out[b..], g)
}
