// Names, numbers and triples at a position, worked in lent rows, and the closing parenthesis behind what was read.
ghost use Rattle.std.specs.Prelude.{◌≡◌, true, ◌≤◌, ◌<◌, length, Ok};
ghost use Rattle.specification.specs.Text.{is_triple, next};
ghost use Rattle.theory.specs.Text.OnTheWay.{way_number, way_name, way_triple};
ghost use Rattle.formulas.specs.Readings.{Formed, WayGives, NameRead, TripleRead, ClosedAs};

use crate::joining::Reading;
use leaves::{constant, letter};
use letters::kind_of;
use operators::products::triple;
use refusal::Refusal;
use rows::Worked;
use texts::{Unread, behind, byte_at, past_blanks, place_of, read_digits};

// A name that was read: the form of its letter, and the position behind.
#[derive(Clone, Copy)]
pub struct Name {
    pub work: Worked,
    pub next: usize,
}

// A name: 5 where it is not declared.
pub fn name_at(
    names: &[u8],
    table: &[u8],
    s: &[u8],
    at: usize,
    rows: &mut [[u32; 8]],
    coefs: &mut [i64],
) -> Result<Name, Unread>
    requires { (length names.now ≤ length table.now) × (length table.now ≤ 24) × (at < length s.now) × (1 ≤ length rows.old) × (1 ≤ length coefs.old) }
    ensures { NameRead (way_name names.now table.now s.now at) result rows.new coefs.new }
{
    let n = place_of(names, byte_at(s, at));
    if n >= names.len() {
        return Err(Unread {
            why: Refusal::AbsentLetter,
            column: at,
        });
    }
    let k = kind_of(table, n);
    let work = letter(n as u8, k, rows, coefs);
    let next = behind(s, at);
    Ok(Name { work, next })
}

// A number: beyond 2147483647 working refuses it.
pub fn number_at(s: &[u8], at: usize, rows: &mut [[u32; 8]], coefs: &mut [i64]) -> Reading
    requires { (1 ≤ length rows.old) × (1 ≤ length coefs.old) }
    ensures { WayGives (way_number s.now at) (Ok result) rows.new coefs.new }
{
    let d = read_digits(s, at);
    let work = constant(d.value as i64, rows, coefs);
    let next = past_blanks(s, d.next);
    Reading {
        column: at,
        next,
        work,
    }
}

// The triple of three names that were read, and the closing parenthesis behind them passed.
fn triple_of(
    s: &[u8],
    at: usize,
    x: Name,
    rows: &mut [[u32; 8]],
    coefs: &mut [i64],
    y: Name,
    right: &[[u32; 8]],
    rights: &[i64],
    z: Name,
    third: &[[u32; 8]],
    thirds: &[i64],
) -> Reading
    requires { Formed x rows.old coefs.old × Formed y right.now rights.now × Formed z third.now thirds.now × (z.next < length s.now)
        × (48 ≤ length rows.old) × (48 ≤ length coefs.old) }
    ensures { TripleRead s.now at x rows.old coefs.old y right.now rights.now z third.now
        thirds.now result rows.new coefs.new }
{
    let u = x.work;
    let v = y.work;
    let w = z.work;
    let work = triple(
        u.kind, u.count, rows, coefs, v.kind, v.count, right, rights, w.kind, w.count, third,
        thirds,
    );
    let next = behind(s, z.next);
    Reading {
        column: at,
        next,
        work,
    }
}

// A triple, which stands here whole.
pub fn triple_at(
    names: &[u8],
    table: &[u8],
    s: &[u8],
    at: usize,
    rows: &mut [[u32; 8]],
    coefs: &mut [i64],
) -> Result<Reading, Unread>
    requires { (length names.now ≤ length table.now) × (length table.now ≤ 24) × (at < length s.now) × (is_triple s.now (next s.now at) ≡ true)
        × (48 ≤ length rows.old) × (48 ≤ length coefs.old) }
    ensures { WayGives (way_triple names.now table.now s.now at) result rows.new coefs.new }
{
    let first = behind(s, at);
    let x = name_at(names, table, s, first, rows, coefs)?;
    let e = [0u32; 8];
    let mut right = [e; 1];
    let mut rights = [0i64; 1];
    let y = name_at(names, table, s, x.next, &mut right, &mut rights)?;
    let mut third = [e; 1];
    let mut thirds = [0i64; 1];
    let z = name_at(names, table, s, y.next, &mut third, &mut thirds)?;
    Ok(triple_of(
        s, at, x, rows, coefs, y, &right, &rights, z, &third, &thirds,
    ))
}

// What was read, with a closing parenthesis behind it: 4 where something else stands.
pub fn closed(s: &[u8], r: Result<Reading, Unread>) -> Result<Reading, Unread>
    ensures { ClosedAs s.now r result }
{
    let inside = r?;
    if byte_at(s, inside.next) != b')' {
        return Err(Unread {
            why: Refusal::Torn,
            column: inside.next,
        });
    }
    let next = behind(s, inside.next);
    Ok(Reading { next, ..inside })
}
