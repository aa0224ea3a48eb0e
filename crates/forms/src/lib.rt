// Form records: a form read at a position or whole, taken from its sender with its letters, and written into lent bytes.
#![tactic(auto)]

ghost use Rattle.std.specs.Prelude.{◌≡◌, [], ◌+◌, ◌*◌, ◌≤◌, length};
ghost use Rattle.specification.specs.Records.{part_fits, read_terms, read_form_at, read_form, take_form, take_both};
ghost use Rattle.terms.specs.Abstraction.{term_of, form_of, Counted, terms_of};
ghost use Rattle.terms.specs.Valid.{FormValid, Gives, Readable};
ghost use Rattle.forms.specs.Reading.{behind_last, read_behind, TermsTaken, FormRead, BothRead};
ghost use Rattle.forms.specs.Written.{FormWritten};
ghost use Rattle.records.specs.Reading.{TermRead};

use letters::test_terms;
use record_writing::write_term;
use records::read::{read_term, room};
use refusal::Refusal;
use terms::build::no_term;
use terms::order::compare;
use terms::shape::part_letters;
use terms::types::{Form, Term};

// Bytes that the record of any form fits into.
pub const FORM_BYTES: usize = 770;

// A form of a kind without terms.
fn no_terms(kind: u8) -> Form
    ensures { (terms_of result ≡ []) × Readable 0 result × (result.kind ≡ kind) × (result.count ≡ 0) × (length result.terms ≡ 48) }
{
    let t = no_term();
    let ts = [t; 48];
    Form {
        kind,
        count: 0,
        terms: ts,
    }
}

// A term is of a form's kind.
fn kind_fits(kind: u8, t: Term) -> bool
    ensures { result ≡ part_fits kind (term_of t) }
{
    if part_letters(t.part) == 0 {
        return kind == 0;
    }
    kind == 1
}

// A term follows the last of so many.
fn follows_last(n: usize, last: Term, t: Term) -> bool
    requires { Counted last × Counted t }
    ensures { result ≡ behind_last n (term_of last) (term_of t) }
{
    if n == 0 {
        return true;
    }
    compare(last, t).is_lt()
}

// The term at a position, of a form's kind and behind the last of so many; and the position behind it.
fn take_term(s: &[u8], at: usize, kind: u8, n: usize, last: Term) -> Result<(Term, usize), Refusal>
    requires { Counted last }
    ensures { TermRead (read_behind kind n (term_of last) s.now at) result }
{
    let (t, next) = read_term(s, at)?;
    if !kind_fits(kind, t) {
        return Err(Refusal::WrongShape);
    }
    if !follows_last(n, last, t) {
        return Err(Refusal::WrongShape);
    }
    Ok((t, next))
}

// So many terms of a kind from a position on, as a form; and the position behind them.
fn take_terms(s: &[u8], at: usize, kind: u8, n: usize) -> Result<(Form, usize), Refusal>
    requires { n ≤ 48 }
    ensures { TermsTaken (read_terms n kind [] s.now at) kind n result }
{
    let mut f = no_terms(kind);
    let mut last = no_term();
    let mut next = at;
    for i in 0..n {
        let (t, behind) = take_term(s, next, kind, i, last)?;
        f.terms[i] = t;
        f.count = i + 1;
        last = t;
        next = behind;
    }
    Ok((f, next))
}

// The form record at a position, and the position behind it.
pub fn read_form_at(s: &[u8], at: usize) -> Result<(Form, usize), Refusal>
    ensures { FormRead (read_form_at s.now at) result }
{
    if !room(s, at, 2) {
        return Err(Refusal::WrongShape);
    }
    let kind = s[at];
    let n = s[at + 1] as usize;
    if kind > 1 {
        return Err(Refusal::WrongShape);
    }
    if n > 48 {
        return Err(Refusal::WrongShape);
    }
    take_terms(s, at + 2, kind, n)
}

// The form whose record the bytes are, from the first to the last.
pub fn read_whole(s: &[u8]) -> Result<Form, Refusal>
    ensures { Gives (read_form s.now) result }
{
    let (f, end) = read_form_at(s, 0)?;
    if end != s.len() {
        return Err(Refusal::WrongShape);
    }
    Ok(f)
}

// The form whose record the bytes are, with letters of the table: its shape first, then its letters in byte order.
pub fn read_form(table: &[u8], s: &[u8]) -> Result<Form, Refusal>
    ensures { Gives (take_form table.now s.now) result }
{
    let f = read_whole(s)?;
    test_terms(table, f)?;
    Ok(f)
}

// The forms whose records the bytes are, both with letters of the table: first the shape of either, then the letters.
pub fn read_both(table: &[u8], s: &[u8], t: &[u8]) -> Result<(Form, Form), Refusal>
    ensures { BothRead (take_both table.now s.now t.now) result }
{
    let f = read_whole(s)?;
    let g = read_whole(t)?;
    test_terms(table, f)?;
    test_terms(table, g)?;
    Ok((f, g))
}

// The record of a form, at the start of the bytes lent.
pub fn write_form(out: &mut [u8], f: Form) -> usize
    requires { FormValid f × (2 + 16 * f.count ≤ length out.old) }
    ensures { FormWritten out.old out.new result (form_of f) }
{
    let n = f.count;
    out[0] = f.kind;
    out[1] = n as u8;
    let mut at: usize = 2;
    for i in 0..n {
        let t = f.terms[i];
        at = write_term(out, at, t);
    }
    at
}
