// The word `derivation` as it is typed: each line is answered as soon as it is read, and at the end stands the log.
ghost use Rattle.std.specs.Prelude.{◌≤◌, length};
ghost use Rattle.derivation_word.specs.Derivations.{DerivationValid};
ghost use Rattle.kalzunbi.specs.Progress.{InText};

use derivation_word::answering::{answer_line, start};
use derivation_word::ending::tell_end;
use derivation_word::reading::Derivation;
use lines::places::line_end;
use std::io::Read;

// Standard output, by its number.
pub const STDOUT: i32 = 1;

// How far an input is answered: what the lines up to a position leave, and the number of the line that begins there.
#[derive(Clone, Copy)]
pub struct Progress {
    pub derivation: Derivation,
    pub line: usize,
    pub at: usize,
}

// Writes a text that was told up to a position; one beyond the end says that there was no room for it.
fn write_told(out: &[u8], end: usize) {
    if end > out.len() {
        io::write_all(STDOUT, b"refused 2: more output than there is room for\n");
        return;
    }
    io::write_all(STDOUT, &out[..end]);
}

// Writes what is told for the line k.
fn answer_one(d: Derivation, k: usize, line: &[u8]) -> Derivation
    requires { DerivationValid d }
    ensures { DerivationValid result }
{
    let mut out = io::large_buffer();
    let r = answer_line(d, k, line, &mut out, 0);
    write_told(&out, r.end);
    r.derivation
}

// Writes what is told for each line that ends in what was read.
fn answer_whole(p: Progress, s: &[u8]) -> Progress
    requires { InText (length s.now) p }
    ensures { InText (length s.now) result }
{
    let n = s.len();
    let mut q = p;
    while q.at < n {
        let at = q.at;
        let end = line_end(s, at);
        if end >= n {
            return q;
        }
        let d = q.derivation;
        let next = answer_one(d, q.line, &s[at..end]);
        q = Progress {
            derivation: next,
            line: q.line + 1,
            at: end + 1,
        };
    }
    q
}

// Writes what is told at the end, which is the line k.
fn write_end(d: Derivation, k: usize)
    requires { DerivationValid d }
{
    let mut out = io::large_buffer();
    let end = tell_end(d, k, &mut out, 0);
    write_told(&out, end);
}

// Writes what is told for a last line without a newline, and at the end.
fn finish(p: Progress, s: &[u8])
    requires { InText (length s.now) p }
{
    let at = p.at;
    let k = p.line;
    let d = p.derivation;
    if at < s.len() {
        let last = answer_one(d, k, &s[at..]);
        write_end(last, k + 1);
        return;
    }
    write_end(d, k);
}

// Writes that an input is too long, or cannot be read.
pub fn refuse_input() {
    io::write_all(
        STDOUT,
        b"refused 3: more than 65536 bytes, or an input that cannot be read\n",
    );
}

// Reads into the bytes lent until they are full or the input ends, and answers what was read each time.
fn derive_into<R: Read>(source: &mut R, input: &mut [u8])
    requires { length input.old ≤ 65537 }
{
    let d = start();
    let mut p = Progress {
        derivation: d,
        line: 1,
        at: 0,
    };
    let mut n: usize = 0;
    while n < input.len() {
        let Ok(m) = source.read(&mut input[n..]) else {
            refuse_input();
            return;
        };
        if m == 0 {
            finish(p, &input[..n]);
            return;
        }
        n += m;
        p = answer_whole(p, &input[..n]);
    }
    refuse_input();
}

// Answers what a file or standard input holds, line by line.
pub fn derive<R: Read>(source: &mut R) {
    let mut input = [0u8; 65537];
    derive_into(source, &mut input);
}
