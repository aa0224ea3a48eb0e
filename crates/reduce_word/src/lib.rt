// The word `reduce`: the form of each formula line, or the first refusal, told into lent bytes.
#![tactic(auto)]

ghost use Rattle.std.specs.Prelude.{[], ◌∷◌, ◌++◌, length};
ghost use Rattle.specification.specs.Printing.{print_form};
ghost use Rattle.specification.specs.Commands.{answer_text, reduce_lines, reduce_input};
ghost use Rattle.terms.specs.Abstraction.{form_of};
ghost use Rattle.lines.specs.Places.{place_of, Inside};
ghost use Rattle.formula_lines.specs.Tables.{GoodTable};
ghost use Rattle.symbols.specs.Printable.{Printable};
ghost use Rattle.telling.specs.Told.{Told, Tells};
ghost use Rattle.reduce_word.specs.Told.{LinesTold};

use declarations::read_header;
use formula_lines::form_at;
use lines::places::{Place, UnreadLine, line_behind};
use printing::{LINE_BYTES, print_form};
use refusals::tell_line;
use telling::{put, put_byte};
use terms::types::Form;

// The text of a form and a newline.
fn tell_form(names: &[u8], out: &mut [u8], at: usize, f: Form) -> usize
    requires { Printable names.now f }
    ensures { Tells out.old out.new at result (print_form names.now (form_of f).terms ++ 10 ∷ []) }
{
    let mut line = [0u8; LINE_BYTES];
    let n = print_form(names, &mut line, f);
    let next = put(out, at, &line[..n]);
    put_byte(out, next, b'\n')
}

// The forms of all lines from a place on: the position behind what was told.
fn reduce_lines(
    names: &[u8],
    table: &[u8],
    s: &[u8],
    p: Place,
    out: &mut [u8],
) -> Result<usize, UnreadLine>
    requires { GoodTable names.now table.now × Inside s.now p }
    ensures { LinesTold s.now (reduce_lines (length s.now) names.now table.now (place_of s.now p) []) result out.new }
{
    let n = s.len();
    let mut q = p;
    let mut end: usize = 0;
    for _ in 0..n {
        if q.at >= n {
            return Ok(end);
        }
        match form_at(names, table, s, q) {
            Ok(f) => {
                end = tell_form(names, out, end, f);
                q = line_behind(s, q);
            }
            Err(e) => {
                return Err(UnreadLine {
                    why: e.why,
                    column: e.column,
                    place: q,
                });
            }
        }
    }
    Ok(end)
}

// The answer to the word: all forms, or the first refusal alone. A position beyond the end of the bytes lent says that there is no room for it.
pub fn reduce_text(s: &[u8], out: &mut [u8]) -> usize
    ensures { Told out.new result (answer_text (reduce_input s.now)) }
{
    let mut names = [0u8; 24];
    let mut table = [0u8; 24];
    let h = match read_header(s, &mut names, &mut table) {
        Ok(h) => h,
        Err(e) => return tell_line(s, e.why.number(), e.place, e.column, out),
    };
    let n = h.count;
    match reduce_lines(&names[..n], &table[..n], s, h.place, out) {
        Ok(end) => end,
        Err(e) => tell_line(s, e.why.number(), e.place, e.column, out),
    }
}
