// The words `check` and `pack`: the checker's answer for a log as text, and its bytes.
#![tactic(auto)]

ghost use Rattle.std.specs.Prelude.{◌≡◌, length};
ghost use Rattle.specification.specs.Commands.{answer_text, check_input, pack_input};
ghost use Rattle.terms.specs.Abstraction.{form_of};
ghost use Rattle.terms.specs.Valid.{FormValid};
ghost use Rattle.telling.specs.Told.{Told};

use checker::check;
use log_texts::reading::read_log_text;
use logs::writing::write_log;
use refusals::tell_line;
use telling::{put, put_byte};
use terms::types::Form;
use verdicts::{by_number, tell_checked};

// The longest log: 770 bytes of a form, 1, 64 steps of 23 bytes, 770 bytes of a form.
const LOG_BYTES: usize = 3013;

// How many terms a form has.
fn count_terms(f: Form) -> usize
    requires { FormValid f }
    ensures { result ≡ length (form_of f).terms }
{
    f.count
}

// The answer to the word `check`.
pub fn check_text(s: &[u8], out: &mut [u8]) -> usize
    ensures { Told out.new result (answer_text (check_input s.now)) }
{
    let mut names = [0u8; 24];
    let mut table = [0u8; 24];
    let l = match read_log_text(s, &mut names, &mut table) {
        Ok(l) => l,
        Err(e) => return tell_line(s, e.why.number(), e.place, e.column, out),
    };
    let n = l.count;
    let f = l.first;
    let steps = l.steps;
    let g = l.last;
    let first = count_terms(f);
    let last = count_terms(g);
    let mut log = [0u8; LOG_BYTES];
    let m = write_log(&mut log, f, steps, g);
    let c = check(&table[..n], &log[..m]);
    tell_checked(out, first, last, by_number(c))
}

// The answer to the word `pack`.
pub fn pack_text(s: &[u8], out: &mut [u8]) -> usize
    ensures { Told out.new result (answer_text (pack_input s.now)) }
{
    let mut names = [0u8; 24];
    let mut table = [0u8; 24];
    let l = match read_log_text(s, &mut names, &mut table) {
        Ok(l) => l,
        Err(e) => return tell_line(s, e.why.number(), e.place, e.column, out),
    };
    let n = l.count;
    let f = l.first;
    let steps = l.steps;
    let g = l.last;
    let mut log = [0u8; LOG_BYTES];
    let m = write_log(&mut log, f, steps, g);
    let a = put_byte(out, 0, n as u8);
    let b = put(out, a, &table[..n]);
    put(out, b, &log[..m])
}
