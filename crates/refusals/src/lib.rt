// A refusal in words: its number, line and column, why, the line, and a mark under the place.
#![tactic(auto)]

ghost use Rattle.std.specs.Prelude.{◌≤◌, ◌+◌, length};
ghost use Rattle.specification.specs.Lines.{line_of};
ghost use Rattle.specification.specs.Commands.{reason, refusal_text};
ghost use Rattle.lines.specs.Places.{place_of, Inside};
ghost use Rattle.telling.specs.Told.{Told, Tells};
ghost use Rattle.refusals.specs.Places.{place_text};

use lines::places::{Place, line_end};
use telling::{put, put_blanks, put_number};

// Why a line is refused.
fn tell_reason(out: &mut [u8], at: usize, n: u8) -> usize
    ensures { Tells out.old out.new at result (reason n) }
{
    if n == 1 {
        return put(out, at, b"no name, more than 24 names, or a name twice");
    }
    if n == 2 {
        return put(out, at, b"more output than there is room for");
    }
    if n == 3 {
        return put(out, at, b"too long or too deep");
    }
    if n == 4 {
        return put(out, at, b"torn");
    }
    if n == 5 {
        return put(out, at, b"a name that is not declared");
    }
    if n == 6 {
        return put(out, at, b"kinds that do not fit");
    }
    if n == 7 {
        return put(out, at, b"more than 48 pairs of terms");
    }
    if n == 8 {
        return put(
            out,
            at,
            b"more than 6 vector letters or 2 scalar letters in a term",
        );
    }
    if n == 9 {
        return put(out, at, b"a coefficient beyond 2147483647");
    }
    if n == 10 {
        return put(out, at, b"more than 48 terms");
    }
    if n == 11 {
        return put(out, at, b"not one term");
    }
    put(
        out,
        at,
        b"not an assignment of numbers from -6 to 6 to every name",
    )
}

// The first line of a refusal.
fn tell_place(out: &mut [u8], at: usize, n: u8, line: usize, column: usize) -> usize
    requires { column + 1 ≤ 18446744073709551615 }
    ensures { Tells out.old out.new at result (place_text n line column) }
{
    let a = put(out, at, b"refused ");
    let b = put_number(out, a, n as u64);
    let c = put(out, b, b" at line ");
    let d = put_number(out, c, line as u64);
    let e = put(out, d, b", column ");
    put_number(out, e, column as u64 + 1)
}

// A refusal in words.
pub fn tell_refusal(
    out: &mut [u8],
    at: usize,
    n: u8,
    line: usize,
    column: usize,
    text: &[u8],
) -> usize
    requires { column ≤ length text.now }
    ensures { Tells out.old out.new at result (refusal_text n line column text.now) }
{
    let a = tell_place(out, at, n, line, column);
    let b = put(out, a, b": ");
    let c = tell_reason(out, b, n);
    let d = put(out, c, b"\n");
    let e = put(out, d, text);
    let f = put(out, e, b"\n");
    let g = put_blanks(out, f, column);
    put(out, g, b"^\n")
}

// The refusal of the line at a place of an input, in front of the bytes lent.
pub fn tell_line(s: &[u8], n: u8, p: Place, column: usize, out: &mut [u8]) -> usize
    requires { Inside s.now p × (column ≤ length (line_of (place_of s.now p))) }
    ensures { Told out.new result (refusal_text n p.number column (line_of (place_of s.now p))) }
{
    let at = p.at;
    let end = line_end(s, at);
    tell_refusal(out, 0, n, p.number, column, &s[at..end])
}
