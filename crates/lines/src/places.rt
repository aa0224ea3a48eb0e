// Where a line begins, and where it ends; empty lines passed.
ghost use Rattle.std.specs.Prelude.{◌≡◌, ◌≤◌, ◌<◌, length};
ghost use Rattle.specification.specs.Lines.{line_of, next_line, is_empty_line, to_line};
ghost use Rattle.lines.specs.Places.{place_of, Inside, LineEnd, Reached};

use refusal::Refusal;

// A line's number, and the position at which it begins.
#[derive(Clone, Copy)]
pub struct Place {
    pub number: usize,
    pub at: usize,
}

// Why a line is not read, the column of that, and the place of the line.
#[derive(Clone, Copy)]
pub struct UnreadLine {
    pub why: Refusal,
    pub column: usize,
    pub place: Place,
}

// The position at which the line ends that begins at another.
pub fn line_end(s: &[u8], at: usize) -> usize
    requires { at ≤ length s.now }
    ensures { LineEnd s.now at result }
{
    for i in at..s.len() {
        if s[i] == b'\n' {
            return i;
        }
    }
    s.len()
}

// Whether a line has blanks alone.
pub fn is_empty_line(line: &[u8]) -> bool
    ensures { result ≡ is_empty_line line.now }
{
    for &b in line {
        if b != b' ' {
            return false;
        }
    }
    true
}

// The next line.
pub fn next_place(s: &[u8], p: Place) -> Place
    requires { Inside s.now p × (p.at < length s.now) }
    ensures { Reached s.now (next_line (place_of s.now p)) result }
{
    let n = s.len();
    let end = line_end(s, p.at);
    if end < n {
        return Place {
            number: p.number + 1,
            at: end + 1,
        };
    }
    Place {
        number: p.number + 1,
        at: n,
    }
}

// Whether an empty line stands at a place.
fn stands_empty(s: &[u8], p: Place) -> bool
    requires { Inside s.now p }
    ensures { result ≡ is_empty_line (line_of (place_of s.now p)) }
{
    let at = p.at;
    let end = line_end(s, at);
    is_empty_line(&s[at..end])
}

// The first line from here on that is not empty; the end where there is none.
pub fn to_line(s: &[u8], p: Place) -> Place
    requires { Inside s.now p }
    ensures { Reached s.now (to_line (place_of s.now p)) result }
{
    let n = s.len();
    let mut q = p;
    for _ in p.at..n {
        if q.at >= n {
            return q;
        }
        if !stands_empty(s, q) {
            return q;
        }
        q = next_place(s, q);
    }
    q
}

// The next line that is not empty.
pub fn line_behind(s: &[u8], p: Place) -> Place
    requires { Inside s.now p × (p.at < length s.now) }
    ensures { Reached s.now (to_line (next_line (place_of s.now p))) result }
{
    let q = next_place(s, p);
    to_line(s, q)
}
