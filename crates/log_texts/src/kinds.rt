// The formula of a line: a form with its kind, and the one term M of a step.
ghost use Rattle.std.specs.Prelude.{◌≡◌, ◌≤◌, length, drop};
ghost use Rattle.specification.specs.Text.{text_form};
ghost use Rattle.specification.specs.LogTexts.{from, of_kind, kind_at, read_form_line, one_term};
ghost use Rattle.terms.specs.Abstraction.{form_of};
ghost use Rattle.terms.specs.Valid.{FormValid};
ghost use Rattle.formulas.specs.Readings.{Named};
ghost use Rattle.formula_call.specs.Texts.{TextGives};
ghost use Rattle.log_texts.specs.Formulas.{OneTerm, MultiplierRead};

use formula_call::form_of_text;
use lines::words::is_word_at;
use refusal::Refusal;
use terms::types::{Form, Term};
use texts::{Unread, past_blanks};

// The formula of a line from a position on.
fn formula_from(names: &[u8], table: &[u8], line: &[u8], at: usize) -> Result<Form, Unread>
    requires { Named names.now table.now × (at ≤ length line.now) }
    ensures { TextGives (from at (text_form names.now table.now (drop at line.now))) result }
{
    match form_of_text(names, table, &line[at..]) {
        Ok(f) => Ok(f),
        Err(e) => Err(Unread {
            why: e.why,
            column: at + e.column,
        }),
    }
}

// A form with the kind that is told: an empty form has this kind, another has to have it.
fn of_kind(kind: u8, at: usize, f: Form) -> Result<Form, Unread>
    requires { FormValid f × (kind ≤ 1) }
    ensures { TextGives (of_kind kind at (form_of f)) result }
{
    if f.count == 0 {
        let terms = f.terms;
        return Ok(Form {
            kind,
            count: 0,
            terms,
        });
    }
    if f.kind != kind {
        return Err(Unread {
            why: Refusal::WrongKind,
            column: at,
        });
    }
    Ok(f)
}

// The formula behind a word of a line.
fn kind_at(names: &[u8], table: &[u8], line: &[u8], kind: u8, at: usize) -> Result<Form, Unread>
    requires { Named names.now table.now × (at ≤ length line.now) × (kind ≤ 1) }
    ensures { TextGives (kind_at names.now table.now line.now kind at) result }
{
    let f = formula_from(names, table, line, at)?;
    of_kind(kind, at, f)
}

// `vector` or `scalar`, then a formula.
pub fn read_form_line(names: &[u8], table: &[u8], line: &[u8]) -> Result<Form, Unread>
    requires { Named names.now table.now }
    ensures { TextGives (read_form_line names.now table.now line.now) result }
{
    let at = past_blanks(line, 0);
    if is_word_at(b"vector", line, at) {
        let vectors = past_blanks(line, at + 6);
        return kind_at(names, table, line, 1, vectors);
    }
    if is_word_at(b"scalar", line, at) {
        let scalars = past_blanks(line, at + 6);
        return kind_at(names, table, line, 0, scalars);
    }
    Err(Unread {
        why: Refusal::Torn,
        column: at,
    })
}

// The one term of a form: refused where there are none or more.
fn one_term(at: usize, f: Form) -> Result<Term, Unread>
    requires { FormValid f }
    ensures { OneTerm (one_term at (form_of f)) result }
{
    if f.count != 1 {
        return Err(Unread {
            why: Refusal::WrongShape,
            column: at,
        });
    }
    Ok(f.terms[0])
}

// M from a position on.
pub fn read_multiplier(names: &[u8], table: &[u8], line: &[u8], at: usize) -> Result<Term, Unread>
    requires { Named names.now table.now × (at ≤ length line.now) }
    ensures { MultiplierRead names.now table.now line.now at result }
{
    let f = formula_from(names, table, line, at)?;
    one_term(at, f)
}
