// How to use the program `kalzunbi`.
#![tactic(auto)]

ghost use Rattle.specification.specs.Commands.{usage};
ghost use Rattle.telling.specs.Told.{Told};

use telling::put;

// How to use it.
pub fn tell_usage(out: &mut [u8]) -> usize
    ensures { Told out.new result usage }
{
    let a = put(
        out,
        0,
        b"kalzunbi WORD [FILE]: vector algebra in letters, proved. The input is the file or standard input, at most 65536 bytes.\n",
    );
    let b = put(
        out,
        a,
        b"  reduce      names, then formulas, a line each: the form of each\n",
    );
    let c = put(
        out,
        b,
        b"  decide      names, then formula = formula: holds, or an assignment under which they differ\n",
    );
    let d = put(
        out,
        c,
        b"  value       names, a formula, a line like a = (1, 0, -2), m = 3: the formula's value\n",
    );
    let e = put(
        out,
        d,
        b"  shorten     names, then a formula: the log that shortens it, as text\n",
    );
    let f = put(
        out,
        e,
        b"  derivation  names, a form, then steps, each line answered with the form reached: the log, as text\n",
    );
    let g = put(
        out,
        f,
        b"  check       a log as text: accepted, or the refusal and its step\n",
    );
    let h = put(
        out,
        g,
        b"  pack        a log as text: the table's length byte, the table and the log's bytes\n",
    );
    let i = put(
        out,
        h,
        b"  unpack      the table's length byte, the table and the log's bytes: the log as text\n",
    );
    put(
        out,
        i,
        b"Names come first, as in 'vectors a b c' and 'scalars m n'. A refusal begins with the word refused.\n",
    )
}
