// The word `value`: the value of a formula under the assignment of the line behind it.
#![tactic(auto)]

ghost use Rattle.std.specs.Prelude.{◌*◌, length, ◌≡◌};
ghost use Rattle.specification.specs.Text.{skip};
ghost use Rattle.specification.specs.Lines.{line_of};
ghost use Rattle.specification.specs.AssignmentTexts.{none_yet, read_assigned};
ghost use Rattle.specification.specs.Commands.{answer_text, value_input};
ghost use Rattle.lines.specs.Places.{place_of, Inside};
ghost use Rattle.formulas.specs.Readings.{Named};
ghost use Rattle.assignment_texts.specs.Assigned.{AssignedRead};
ghost use Rattle.formula_lines.specs.Tables.{GoodTable};
ghost use Rattle.telling.specs.Told.{Told};
ghost use Rattle.value_word.specs.Behind.{value_behind};

use assignment_texts::read_assigned;
use declarations::read_header;
use evaluation::values::form_value;
use formula_lines::form_at;
use lines::places::{Place, line_behind, line_end};
use refusal::Refusal;
use refusals::tell_line;
use telling::put_byte;
use texts::Unread;
use value_telling::tell_value;

// The assignment of the line at a place.
fn assigned_at(
    names: &[u8],
    table: &[u8],
    s: &[u8],
    p: Place,
    numbers: &mut [u8],
) -> Result<(), Unread>
    requires { Named names.now table.now × Inside s.now p × (length numbers.old ≡ 3 * length table.now) }
    ensures { AssignedRead (read_assigned (length (line_of (place_of s.now p))) names.now table.now (line_of (place_of s.now p)) (skip (line_of (place_of s.now p)) 0) (none_yet table.now)) result numbers.new }
{
    let at = p.at;
    let end = line_end(s, at);
    read_assigned(names, table, &s[at..end], numbers)
}

// The value of the formula at a place under the assignment behind it, which goes into the numbers lent.
fn value_behind(
    names: &[u8],
    table: &[u8],
    s: &[u8],
    p: Place,
    numbers: &mut [u8],
    out: &mut [u8],
) -> usize
    requires { GoodTable names.now table.now × Inside s.now p × (length numbers.old ≡ 3 * length table.now) }
    ensures { Told out.new result (answer_text (value_behind names.now table.now (place_of s.now p))) }
{
    let f = match form_at(names, table, s, p) {
        Ok(f) => f,
        Err(e) => return tell_line(s, e.why.number(), p, e.column, out),
    };
    let q = line_behind(s, p);
    match assigned_at(names, table, s, q, numbers) {
        Ok(()) => {}
        Err(e) => return tell_line(s, e.why.number(), q, e.column, out),
    }
    let end = line_behind(s, q);
    if end.at < s.len() {
        return tell_line(s, Refusal::Torn.number(), end, 0, out);
    }
    let v = form_value(numbers, f);
    let at = tell_value(out, 0, f.kind, v);
    put_byte(out, at, b'\n')
}

// The answer to the word.
pub fn value_text(s: &[u8], out: &mut [u8]) -> usize
    ensures { Told out.new result (answer_text (value_input s.now)) }
{
    let mut names = [0u8; 24];
    let mut table = [0u8; 24];
    let mut numbers = [0u8; 72];
    let h = match read_header(s, &mut names, &mut table) {
        Ok(h) => h,
        Err(e) => return tell_line(s, e.why.number(), e.place, e.column, out),
    };
    let p = h.place;
    let n = h.count;
    value_behind(&names[..n], &table[..n], s, p, &mut numbers[..3 * n], out)
}
