// The word `decide`: whether the two sides of a line's `=` are equal under every assignment, or the first under which they differ and both values.
#![tactic(auto)]

ghost use Rattle.specification.specs.Commands.{DecideAnswer};
ghost use Rattle.telling.specs.Told.{AnswerTold};

use decision_telling::tell_decision;
use declarations::read_header;
use lines::places::line_behind;
use refusal::Refusal;
use refusals::tell_line;
use sides::sides_at;

// The answer to the word.
pub fn decide_text(s: &[u8], out: &mut [u8]) -> usize
    ensures { AnswerTold (DecideAnswer s.now) out.new result }
{
    let mut names = [0u8; 24];
    let mut table = [0u8; 24];
    let h = match read_header(s, &mut names, &mut table) {
        Ok(h) => h,
        Err(e) => return tell_line(s, e.why.number(), e.place, e.column, out),
    };
    let p = h.place;
    let n = h.count;
    let (f, g) = match sides_at(&names[..n], &table[..n], s, p) {
        Ok(both) => both,
        Err(e) => return tell_line(s, e.why.number(), p, e.column, out),
    };
    let q = line_behind(s, p);
    if q.at < s.len() {
        return tell_line(s, Refusal::Torn.number(), q, 0, out);
    }
    tell_decision(out, &names[..n], &table[..n], f, g)
}
