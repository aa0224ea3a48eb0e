// What is told at the end of a derivation.
ghost use Rattle.specification.specs.Commands.{end_text};
ghost use Rattle.telling.specs.Told.{Tells};
ghost use Rattle.derivation_word.specs.Derivations.{derivation_of, DerivationValid};

use crate::reading::{Derivation, first_line};
use log_telling::tell_log;
use telling::put_byte;

// The log, closed with the form reached; where none is open, what is missing in the line k.
pub fn tell_end(d: Derivation, k: usize, out: &mut [u8], at: usize) -> usize
    requires { DerivationValid d }
    ensures { Tells out.old out.new at result (end_text k (derivation_of d)) }
{
    if !d.begun {
        let r = first_line(d, k, b"", out, at);
        return r.end;
    }
    let names = d.names;
    let state = d.state;
    let n = state.letters;
    let table = state.table;
    let first = d.first;
    let steps = d.steps;
    let last = state.form;
    let log = put_byte(out, at, b'\n');
    tell_log(out, log, &names[..n], &table[..n], first, steps, last)
}
