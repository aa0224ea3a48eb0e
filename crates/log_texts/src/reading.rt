// A log as text: the lines one after the other, and the whole.
ghost use Rattle.std.specs.Prelude.{◌≡◌, [], ◌≤◌, length};
ghost use Rattle.specification.specs.Lines.{line_of};
ghost use Rattle.specification.specs.LogTexts.{is_step_line, read_step_lines};
ghost use Rattle.lines.specs.Places.{place_of, Inside};
ghost use Rattle.formulas.specs.Readings.{Named};
ghost use Rattle.log_texts.specs.Logs.{at_place, FormAt, StepAt, StepLinesRead, LinesRead, LogTextRead};

use crate::kinds::read_form_line;
use crate::steps::read_step_line;
use declarations::read_header;
use lines::places::{Place, UnreadLine, line_behind, line_end};
use lines::words::is_word_at;
use logs::steps::{Steps, no_steps};
use refusal::Refusal;
use rules::steps::Step;
use terms::types::Form;
use texts::{Unread, past_blanks};

// What the line at a place gives; a refusal gets the place.
fn at_place<T>(r: Result<T, Unread>, place: Place) -> Result<T, UnreadLine>
    ensures { result ≡ at_place r place }
{
    match r {
        Ok(x) => Ok(x),
        Err(e) => Err(UnreadLine {
            why: e.why,
            column: e.column,
            place,
        }),
    }
}

// The form of the line at a place.
fn form_at(s: &[u8], p: Place, names: &[u8], table: &[u8]) -> Result<Form, UnreadLine>
    requires { Inside s.now p × Named names.now table.now }
    ensures { FormAt s.now p names.now table.now result }
{
    let at = p.at;
    let end = line_end(s, at);
    at_place(read_form_line(names, table, &s[at..end]), p)
}

// The step of the line at a place.
fn step_at(s: &[u8], p: Place, names: &[u8], table: &[u8]) -> Result<Step, UnreadLine>
    requires { Inside s.now p × Named names.now table.now }
    ensures { StepAt s.now p names.now table.now result }
{
    let at = p.at;
    let end = line_end(s, at);
    at_place(read_step_line(names, table, &s[at..end]), p)
}

// Whether a line begins with the word `rule`.
pub fn is_step_line(line: &[u8]) -> bool
    ensures { result ≡ is_step_line line.now }
{
    let at = past_blanks(line, 0);
    is_word_at(b"rule", line, at)
}

// Whether the line at a place does.
fn stands_step(s: &[u8], p: Place) -> bool
    requires { Inside s.now p }
    ensures { result ≡ is_step_line (line_of (place_of s.now p)) }
{
    let at = p.at;
    let end = line_end(s, at);
    is_step_line(&s[at..end])
}

// Steps, and the place of the line behind them.
#[derive(Clone, Copy)]
pub struct StepLines {
    pub place: Place,
    pub steps: Steps,
}

// The lines of steps, at most 64: refused where one more is a step.
fn read_step_lines(s: &[u8], p: Place, names: &[u8], table: &[u8]) -> Result<StepLines, UnreadLine>
    requires { Inside s.now p × Named names.now table.now }
    ensures { StepLinesRead s.now (read_step_lines 64 names.now table.now (place_of s.now p) []) result }
{
    let mut steps = no_steps();
    let mut q = p;
    for i in 0..64 {
        if !stands_step(s, q) {
            return Ok(StepLines { place: q, steps });
        }
        let t = step_at(s, q, names, table)?;
        steps.steps[i] = t;
        steps.count = i + 1;
        q = line_behind(s, q);
    }
    if stands_step(s, q) {
        return Err(UnreadLine {
            why: Refusal::TooLong,
            column: 0,
            place: q,
        });
    }
    Ok(StepLines { place: q, steps })
}

// A log: the place behind it, how many names it declares, its forms and its steps.
#[derive(Clone, Copy)]
pub struct LogText {
    pub place: Place,
    pub count: usize,
    pub first: Form,
    pub steps: Steps,
    pub last: Form,
}

// The first form, the steps and the last form, from a place on, and nothing behind them.
fn read_log_lines(s: &[u8], p: Place, names: &[u8], table: &[u8]) -> Result<LogText, UnreadLine>
    requires { Inside s.now p × Named names.now table.now }
    ensures { LinesRead s.now names.now table.now (place_of s.now p) result }
{
    let first = form_at(s, p, names, table)?;
    let q = line_behind(s, p);
    let m = read_step_lines(s, q, names, table)?;
    let last = form_at(s, m.place, names, table)?;
    let end = line_behind(s, m.place);
    if end.at < s.len() {
        return Err(UnreadLine {
            why: Refusal::Torn,
            column: 0,
            place: end,
        });
    }
    Ok(LogText {
        place: end,
        count: names.len(),
        first,
        steps: m.steps,
        last,
    })
}

// A log as text: its names and the table of their kinds go in front of the bytes lent.
pub fn read_log_text(s: &[u8], names: &mut [u8], table: &mut [u8]) -> Result<LogText, UnreadLine>
    requires { (24 ≤ length names.old) × (24 ≤ length table.old) }
    ensures { LogTextRead s.now result names.new table.new }
{
    let h = read_header(s, names, table)?;
    let n = h.count;
    read_log_lines(s, h.place, &names[..n], &table[..n])
}
