// The reader: a level at a time, each operand in rows of its own, parentheses with a depth less.
ghost use Rattle.std.specs.Prelude.{◌≡◌, ◌&&◌, ◌-◌, ◌≤◌, leb, length, Ok};
ghost use Rattle.specification.specs.Text.{is_digit, text_form};
ghost use Rattle.theory.specs.Text.OnTheWay.{most_of, way_atom, way_chain, way_level, way_nested};
ghost use Rattle.formulas.specs.Readings.{Read, Named, worked_at, WayGives, TextRead};

use crate::atoms::{closed, name_at, number_at, triple_at};
use crate::joining::{Reading, front, front_at, goes_on, join, most_of, operand_at};
use refusal::Refusal;
use rows::Worked;
use texts::{Unread, behind, byte_at, is_digit, is_letter, is_triple, past_blanks};

// Whether a number stands here and may.
fn is_number(number: bool, b: u8) -> bool
    ensures { result ≡ (number && is_digit b) }
{
    if !number {
        return false;
    }
    is_digit(b)
}

// A name, a number where one may stand, or parentheses, with so much depth left.
#[cycle(read_read_atom_read_chain)]
fn read_atom(
    names: &[u8],
    table: &[u8],
    s: &[u8],
    at: usize,
    depth: usize,
    number: bool,
    rows: &mut [[u32; 8]],
    coefs: &mut [i64],
) -> Result<Reading, Unread>
    requires { Named names.now table.now × (48 ≤ length rows.old) × (48 ≤ length coefs.old) }
    ensures { WayGives (way_atom names.now table.now s.now (way_nested names.now table.now s.now depth)
        number at) result rows.new coefs.new }
{
    let b = byte_at(s, at);
    if is_number(number, b) {
        return Ok(number_at(s, at, rows, coefs));
    }
    if is_letter(b) {
        let n = name_at(names, table, s, at, rows, coefs)?;
        return Ok(Reading {
            column: at,
            next: n.next,
            work: Ok(n.work),
        });
    }
    if b != b'(' {
        return Err(Unread {
            why: Refusal::Torn,
            column: at,
        });
    }
    if depth == 0 {
        return Err(Unread {
            why: Refusal::TooLong,
            column: at,
        });
    }
    let inner = behind(s, at);
    if is_triple(s, inner) {
        return triple_at(names, table, s, at, rows, coefs);
    }
    let r = read(names, table, s, inner, depth - 1, 4, true, rows, coefs);
    closed(s, r)
}

// Operators of a level behind what was read, at most so many, each with its operand in other rows.
#[cycle(read_read_atom_read_chain)]
fn read_chain(
    names: &[u8],
    table: &[u8],
    s: &[u8],
    depth: usize,
    level: u8,
    first: Reading,
    rows: &mut [[u32; 8]],
    coefs: &mut [i64],
) -> Result<Reading, Unread>
    requires { Named names.now table.now × (1 ≤ level) × (level ≤ 4) × Read first rows.old coefs.old × (48 ≤ length rows.old) × (48 ≤ length coefs.old) }
    ensures { WayGives (way_chain s.now level (most_of level (length s.now)) (way_level names.now table.now s.now
        (way_nested names.now table.now s.now depth) (level - 1) (leb 3 level)) (worked_at first.work first.column rows.old
        coefs.old) first.next) result rows.new coefs.new }
{
    let e = [0u32; 8];
    let mut right = [e; 48];
    let mut rights = [0i64; 48];
    let mut a = first;
    for _ in 0..most_of(level, s.len()) {
        let b = byte_at(s, a.next);
        if !goes_on(level, b) {
            return Ok(a);
        }
        let second = operand_at(level, s, a.next);
        let y = read(
            names,
            table,
            s,
            second,
            depth,
            level - 1,
            level >= 3,
            &mut right,
            &mut rights,
        )?;
        a = join(level, b, a, rows, coefs, y, &right, &mut rights);
    }
    Ok(a)
}

// What stands here at a level: an operand of the level below, behind a sign where one may stand, and the operators behind it.
#[cycle(read_read_atom_read_chain)]
fn read(
    names: &[u8],
    table: &[u8],
    s: &[u8],
    at: usize,
    depth: usize,
    level: u8,
    number: bool,
    rows: &mut [[u32; 8]],
    coefs: &mut [i64],
) -> Result<Reading, Unread>
    requires { Named names.now table.now × (level ≤ 4) × (48 ≤ length rows.old) × (48 ≤ length coefs.old) }
    ensures { WayGives (way_level names.now table.now s.now (way_nested names.now table.now s.now depth)
        level number at) result rows.new coefs.new }
{
    if level == 0 {
        return read_atom(names, table, s, at, depth, number, rows, coefs);
    }
    let start = front_at(level, s, at);
    let x = read(
        names,
        table,
        s,
        start,
        depth,
        level - 1,
        number,
        rows,
        coefs,
    )?;
    front(level, byte_at(s, at), x, rows, coefs);
    if !goes_on(level, byte_at(s, x.next)) {
        return Ok(x);
    }
    read_chain(names, table, s, depth, level, x, rows, coefs)
}

// Bytes that a line has at most.
pub const TEXT_BYTES: usize = 4096;

// The form of a text: nothing may be left behind the sum.
pub fn read_text(
    names: &[u8],
    table: &[u8],
    s: &[u8],
    rows: &mut [[u32; 8]],
    coefs: &mut [i64],
) -> Result<Worked, Unread>
    requires { Named names.now table.now × (48 ≤ length rows.old) × (48 ≤ length coefs.old) }
    ensures { TextRead (text_form names.now table.now s.now) result rows.new coefs.new }
{
    let n = s.len();
    if n > TEXT_BYTES {
        return Err(Unread {
            why: Refusal::TooLong,
            column: TEXT_BYTES,
        });
    }
    let start = past_blanks(s, 0);
    let r = read(names, table, s, start, 16, 4, true, rows, coefs)?;
    if r.next < n {
        return Err(Unread {
            why: Refusal::Torn,
            column: r.next,
        });
    }
    match r.work {
        Ok(w) => Ok(w),
        Err(why) => Err(Unread {
            why,
            column: r.column,
        }),
    }
}
