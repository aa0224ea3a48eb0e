// Names declared in front of a text, in lent bytes: names in their order, and the table of their kinds.
#![tactic(auto)]

ghost use Rattle.std.specs.Prelude.{◌≡◌, ◌≤◌, length};
ghost use Rattle.specification.specs.Lines.{line_of, is_declaration, declared};
ghost use Rattle.lines.specs.Places.{place_of, Inside};
ghost use Rattle.declarations.specs.Names.{named_of, NameTurn, NamesRead, LineRead, SomeNames, HeaderRead};

use lines::places::{Place, UnreadLine, line_end, next_place, to_line};
use lines::words::is_word_at;
use refusal::Refusal;
use texts::{Unread, behind, byte_at, is_letter, past_blanks, place_of};

// How far the names of a line are read: the position of the next, the kind of further names, and how many there are.
#[derive(Clone, Copy)]
pub struct NameStep {
    pub at: usize,
    pub kind: u8,
    pub count: usize,
}

// What stands next: a word that says a kind, or a name, which is put behind those declared.
fn one_name(
    line: &[u8],
    p: NameStep,
    names: &mut [u8],
    table: &mut [u8],
) -> Result<NameStep, Unread>
    requires { (p.count ≤ 24) × (24 ≤ length names.old) × (24 ≤ length table.old) }
    ensures { NameTurn line.now p names.old table.old result names.new table.new }
{
    let NameStep { at, kind, count } = p;
    if at >= line.len() {
        return Ok(p);
    }
    if is_word_at(b"vectors", line, at) {
        let after = past_blanks(line, at + 7);
        return Ok(NameStep {
            at: after,
            kind: 1,
            count,
        });
    }
    if is_word_at(b"scalars", line, at) {
        let after = past_blanks(line, at + 7);
        return Ok(NameStep {
            at: after,
            kind: 0,
            count,
        });
    }
    let b = byte_at(line, at);
    if !is_letter(b) {
        return Err(Unread {
            why: Refusal::Torn,
            column: at,
        });
    }
    if !is_word_at(&[b], line, at) {
        return Err(Unread {
            why: Refusal::Torn,
            column: at,
        });
    }
    if count >= 24 {
        return Err(Unread {
            why: Refusal::BadTable,
            column: at,
        });
    }
    if place_of(&names[..count], b) < count {
        return Err(Unread {
            why: Refusal::BadTable,
            column: at,
        });
    }
    names[count] = b;
    table[count] = kind;
    let after = behind(line, at);
    Ok(NameStep {
        at: after,
        kind,
        count: count + 1,
    })
}

// The names of a line, put behind those declared: how many there are then.
pub fn declare(
    line: &[u8],
    names: &mut [u8],
    table: &mut [u8],
    count: usize,
) -> Result<usize, Unread>
    requires { (count ≤ 24) × (24 ≤ length names.old) × (24 ≤ length table.old) }
    ensures { NamesRead (declared line.now (named_of count names.old table.old)) result names.new table.new }
{
    let mut q = NameStep {
        at: past_blanks(line, 0),
        kind: 1,
        count,
    };
    for _ in 0..line.len() {
        q = one_name(line, q, names, table)?;
    }
    Ok(q.count)
}

// Whether a line declares names.
pub fn is_declaration(line: &[u8]) -> bool
    ensures { result ≡ is_declaration line.now }
{
    let at = past_blanks(line, 0);
    if is_word_at(b"vectors", line, at) {
        return true;
    }
    is_word_at(b"scalars", line, at)
}

// Whether the line at a place declares names.
fn declares(s: &[u8], p: Place) -> bool
    requires { Inside s.now p }
    ensures { result ≡ is_declaration (line_of (place_of s.now p)) }
{
    let at = p.at;
    let end = line_end(s, at);
    is_declaration(&s[at..end])
}

// The names of the line at a place.
fn declare_at(
    s: &[u8],
    p: Place,
    names: &mut [u8],
    table: &mut [u8],
    count: usize,
) -> Result<usize, UnreadLine>
    requires { Inside s.now p × (count ≤ 24) × (24 ≤ length names.old) × (24 ≤ length table.old) }
    ensures { LineRead s.now p (named_of count names.old table.old) result names.new table.new }
{
    let end = line_end(s, p.at);
    match declare(&s[p.at..end], names, table, count) {
        Ok(n) => Ok(n),
        Err(e) => Err(UnreadLine {
            why: e.why,
            column: e.column,
            place: p,
        }),
    }
}

// The names of a text: how many there are, and where the other lines begin.
#[derive(Clone, Copy)]
pub struct Header {
    pub count: usize,
    pub place: Place,
}

// Names are declared, or there are none at the place of the first other line.
fn some_names(count: usize, place: Place) -> Result<Header, UnreadLine>
    ensures { SomeNames count place result }
{
    if count == 0 {
        return Err(UnreadLine {
            why: Refusal::BadTable,
            column: 0,
            place,
        });
    }
    Ok(Header { count, place })
}

// The lines in front that declare names.
pub fn read_header(s: &[u8], names: &mut [u8], table: &mut [u8]) -> Result<Header, UnreadLine>
    requires { (24 ≤ length names.old) × (24 ≤ length table.old) }
    ensures { HeaderRead s.now result names.new table.new }
{
    let first = Place { number: 1, at: 0 };
    let mut p = to_line(s, first);
    let mut n = 0;
    for _ in 0..s.len() {
        if !declares(s, p) {
            return some_names(n, p);
        }
        n = declare_at(s, p, names, table, n)?;
        let q = next_place(s, p);
        p = to_line(s, q);
    }
    some_names(n, p)
}
