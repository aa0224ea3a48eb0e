// The two sides of a line's first `=`: two forms of one kind.
#![tactic(auto)]

ghost use Rattle.std.specs.Prelude.{◌≡◌, ◌<◌, length};
ghost use Rattle.specification.specs.Lines.{line_of};
ghost use Rattle.specification.specs.Commands.{read_sides};
ghost use Rattle.terms.specs.Valid.{FormValid};
ghost use Rattle.lines.specs.Places.{place_of, Inside};
ghost use Rattle.formula_lines.specs.Tables.{GoodTable};
ghost use Rattle.sides.specs.Readings.{both_sides, SidesRead, Paired};

use formula_call::form_of_text;
use lines::places::{Place, line_end};
use refusal::Refusal;
use terms::types::Form;
use texts::{Unread, place_of};

// Two forms of one kind: an empty one takes the other's.
fn pair(at: usize, f: Form, g: Form) -> Result<(Form, Form), Unread>
    requires { FormValid f × FormValid g }
    ensures { Paired at f g result }
{
    if f.count == 0 {
        let terms = f.terms;
        let e = Form {
            kind: g.kind,
            count: 0,
            terms,
        };
        return Ok((e, g));
    }
    if g.count == 0 {
        let terms = g.terms;
        let e = Form {
            kind: f.kind,
            count: 0,
            terms,
        };
        return Ok((f, e));
    }
    if f.kind != g.kind {
        return Err(Unread {
            why: Refusal::WrongKind,
            column: at,
        });
    }
    Ok((f, g))
}

// The forms before and behind a sign.
fn both_sides(names: &[u8], table: &[u8], line: &[u8], at: usize) -> Result<(Form, Form), Unread>
    requires { GoodTable names.now table.now × (at < length line.now) }
    ensures { SidesRead table.now (both_sides names.now table.now line.now at) result }
{
    let f = form_of_text(names, table, &line[..at])?;
    let behind = at + 1;
    match form_of_text(names, table, &line[behind..]) {
        Ok(g) => pair(at, f, g),
        Err(e) => Err(Unread {
            why: e.why,
            column: behind + e.column,
        }),
    }
}

// The forms of the two sides of a line's first `=`, or a refusal with its column.
pub fn read_sides(names: &[u8], table: &[u8], line: &[u8]) -> Result<(Form, Form), Unread>
    requires { GoodTable names.now table.now }
    ensures { SidesRead table.now (read_sides names.now table.now line.now) result }
{
    let at = place_of(line, b'=');
    if at < line.len() {
        return both_sides(names, table, line, at);
    }
    Err(Unread {
        why: Refusal::Torn,
        column: line.len(),
    })
}

// The sides of the line at a place.
pub fn sides_at(names: &[u8], table: &[u8], s: &[u8], p: Place) -> Result<(Form, Form), Unread>
    requires { GoodTable names.now table.now × Inside s.now p }
    ensures { SidesRead table.now (read_sides names.now table.now (line_of (place_of s.now p))) result }
{
    let at = p.at;
    let end = line_end(s, at);
    read_sides(names, table, &s[at..end])
}
