// The formula of a line of an input.
#![tactic(auto)]

ghost use Rattle.specification.specs.Text.{text_form};
ghost use Rattle.specification.specs.Lines.{line_of};
ghost use Rattle.lines.specs.Places.{place_of, Inside};
ghost use Rattle.formula_call.specs.Texts.{TextGives};
ghost use Rattle.formula_lines.specs.Tables.{GoodTable};

use formula_call::form_of_text;
use lines::places::{Place, line_end};
use terms::types::Form;
use texts::Unread;

// The form of the line at a place.
pub fn form_at(names: &[u8], table: &[u8], s: &[u8], p: Place) -> Result<Form, Unread>
    requires { GoodTable names.now table.now × Inside s.now p }
    ensures { TextGives (text_form names.now table.now (line_of (place_of s.now p))) result }
{
    let at = p.at;
    let end = line_end(s, at);
    form_of_text(names, table, &s[at..end])
}
