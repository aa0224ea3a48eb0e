// The checker's answer in words.
#![tactic(auto)]

ghost use Rattle.std.specs.Prelude.{◌≡◌};
ghost use Rattle.specification.specs.Commands.{step_reason, count_text, checked_text};
ghost use Rattle.specification.specs.Logs.{refused_at, accepted};
ghost use Rattle.checker.specs.Answers.{checked_of};
ghost use Rattle.telling.specs.Told.{Told, Tells};
ghost use Rattle.verdicts.specs.Numbered.{numbered_of};

use checker::Accepted;
use logs::steps::RefusedAt;
use telling::{put, put_number};

// Why a log is refused at a step.
fn tell_step_reason(out: &mut [u8], at: usize, n: u8) -> usize
    ensures { Tells out.old out.new at result (step_reason n) }
{
    if n == 5 {
        return put(out, at, b"a letter that is not in the table");
    }
    if n == 6 {
        return put(out, at, b"kinds that do not fit");
    }
    if n == 8 {
        return put(
            out,
            at,
            b"more than 6 vector letters or 2 scalar letters in a term",
        );
    }
    if n == 9 {
        return put(out, at, b"a gathered coefficient beyond 2147483647");
    }
    if n == 10 {
        return put(out, at, b"more than 48 terms");
    }
    if n == 11 {
        return put(out, at, b"not in the one written shape");
    }
    if n == 13 {
        return put(out, at, b"the last form is not the one reached");
    }
    if n == 14 {
        return put(out, at, b"more than 64 steps");
    }
    put(out, at, b"a table that is none")
}

// So many of what a word names.
fn tell_count(out: &mut [u8], at: usize, n: usize, word: &[u8]) -> usize
    ensures { Tells out.old out.new at result (count_text n word.now) }
{
    let a = put_number(out, at, n as u64);
    let b = put(out, a, b" ");
    let c = put(out, b, word);
    if n == 1 {
        return c;
    }
    put(out, c, b"s")
}

// A step refused, told behind a text.
pub fn tell_step_refusal(out: &mut [u8], at: usize, n: u8, step: u8) -> usize
    ensures { Tells out.old out.new at result (checked_text 0 0 (refused_at n step)) }
{
    let a = put(out, at, b"refused ");
    let b = put_number(out, a, n as u64);
    let c = put(out, b, b" at step ");
    let d = put_number(out, c, step as u64);
    let e = put(out, d, b": ");
    let f = tell_step_reason(out, e, n);
    put(out, f, b"\n")
}

// A log refused at a step.
pub fn tell_refused(out: &mut [u8], n: u8, step: u8) -> usize
    ensures { Told out.new result (checked_text 0 0 (refused_at n step)) }
{
    tell_step_refusal(out, 0, n, step)
}

// A log accepted, with its steps and the terms of its ends.
fn tell_accepted(out: &mut [u8], first: usize, last: usize, steps: usize) -> usize
    ensures { Told out.new result (checked_text first last (accepted 0 0 steps)) }
{
    let a = put(out, 0, b"accepted, ");
    let b = tell_count(out, a, steps, b"step");
    let c = put(out, b, b", ");
    let d = tell_count(out, c, first, b"term");
    let e = put(out, d, b" to ");
    let f = put_number(out, e, last as u64);
    put(out, f, b"\n")
}

// The checker's answer with a refusal's number in place of its reason.
pub fn by_number(c: Result<Accepted, RefusedAt>) -> Result<Accepted, (u8, u8)>
    ensures { numbered_of result ≡ checked_of c }
{
    match c {
        Ok(a) => Ok(a),
        Err(e) => Err((e.why.number(), e.step)),
    }
}

// The checker's answer in words: accepted, or the number of a refusal, whatever it is, and its step.
pub fn tell_checked(
    out: &mut [u8],
    first: usize,
    last: usize,
    c: Result<Accepted, (u8, u8)>,
) -> usize
    ensures { Told out.new result (checked_text first last (numbered_of c)) }
{
    match c {
        Ok(a) => tell_accepted(out, first, last, a.steps),
        Err((n, step)) => tell_refused(out, n, step),
    }
}
