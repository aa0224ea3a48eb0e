// The word `derivation`: names, a first form and the steps of a log that stays open, each line answered by itself, and the log at the end.
#![tactic(auto)]

ghost use Rattle.specification.specs.Commands.{derivation_input};
ghost use Rattle.telling.specs.Told.{Told};

use answering::{answer_line, start};
use ending::tell_end;
use lines::places::{Place, line_end, next_place};

pub mod answering;
pub mod ending;
pub mod reading;

// The answer to the word: what is told for all lines, and at the end.
pub fn derivation_text(s: &[u8], out: &mut [u8]) -> usize
    ensures { Told out.new result (derivation_input s.now) }
{
    let mut d = start();
    let mut p = Place { number: 1, at: 0 };
    let mut told: usize = 0;
    while p.at < s.len() {
        let at = p.at;
        let end = line_end(s, at);
        let r = answer_line(d, p.number, &s[at..end], out, told);
        d = r.derivation;
        told = r.end;
        p = next_place(s, p);
    }
    tell_end(d, p.number, out, told)
}
