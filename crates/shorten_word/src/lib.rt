// The word `shorten`: the form of a formula, the steps that shorten it and the last form told as the text of a log, or the refusal.
#![tactic(auto)]

ghost use Rattle.specification.specs.Commands.{ShortenAnswer};
ghost use Rattle.telling.specs.Told.{AnswerTold};

use declarations::read_header;
use formula_lines::form_at;
use lines::places::line_behind;
use log_telling::tell_log;
use refusal::Refusal;
use refusals::tell_line;
use shortening::rounds::derive;

// The answer to the word.
pub fn shorten_text(s: &[u8], out: &mut [u8]) -> usize
    ensures { AnswerTold (ShortenAnswer s.now) out.new result }
{
    let mut names = [0u8; 24];
    let mut table = [0u8; 24];
    let h = match read_header(s, &mut names, &mut table) {
        Ok(h) => h,
        Err(e) => return tell_line(s, e.why.number(), e.place, e.column, out),
    };
    let p = h.place;
    let n = h.count;
    let f = match form_at(&names[..n], &table[..n], s, p) {
        Ok(f) => f,
        Err(e) => return tell_line(s, e.why.number(), p, e.column, out),
    };
    let q = line_behind(s, p);
    if q.at < s.len() {
        return tell_line(s, Refusal::Torn.number(), q, 0, out);
    }
    let d = derive(&table[..n], f);
    tell_log(out, 0, &names[..n], &table[..n], f, d.steps, d.last)
}
