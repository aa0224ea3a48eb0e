// Assignments as text, `a = (1, 0, -2), m = 3`, read into lent bytes: three signed bytes a letter.
#![tactic(auto)]

ghost use Rattle.std.specs.Prelude.{◌≡◌, ◌*◌, ◌≤◌, length};
ghost use Rattle.specification.specs.Text.{skip};
ghost use Rattle.specification.specs.AssignmentTexts.{none_yet, read_assigned};
ghost use Rattle.formulas.specs.Readings.{Named};
ghost use Rattle.assignment_texts.specs.Assigned.{NameRead, at_end, AssignedTurn, AssignedRead};

mod numbers;
mod placing;

use crate::numbers::read_value;
use crate::placing::{clear, put_three};
use evaluation::assignments::good_assignment;
use letters::kind_of;
use log_texts::naming::read_mark;
use refusal::Refusal;
use texts::{Unread, behind, byte_at, is_letter, past_blanks, place_of};

// A name that has no numbers yet: its letter, and the position behind it.
#[derive(Clone, Copy)]
pub struct Name {
    pub at: usize,
    pub letter: usize,
}

// The name that stands here.
fn read_name(names: &[u8], line: &[u8], at: usize, so: &[u8]) -> Result<Name, Unread>
    requires { length names.now ≤ 24 }
    ensures { NameRead names.now line.now at so.now result }
{
    let b = byte_at(line, at);
    if !is_letter(b) {
        return Err(Unread {
            why: Refusal::Torn,
            column: at,
        });
    }
    let n = place_of(names, b);
    if n >= names.len() {
        return Err(Unread {
            why: Refusal::AbsentLetter,
            column: at,
        });
    }
    if byte_at(so, 3 * n) != 127 {
        return Err(Unread {
            why: Refusal::WrongAssignment,
            column: at,
        });
    }
    let next = behind(line, at);
    Ok(Name {
        at: next,
        letter: n,
    })
}

// A name and its value, put at its letter: the position behind the value.
fn one_assigned(
    names: &[u8],
    table: &[u8],
    line: &[u8],
    at: usize,
    so: &mut [u8],
) -> Result<usize, Unread>
    requires { Named names.now table.now × (length so.old ≡ 3 * length table.now) }
    ensures { AssignedTurn names.now table.now line.now at so.old result so.new }
{
    let name = read_name(names, line, at, so)?;
    let equals = read_mark(b'=', line, name.at)?;
    let n = name.letter;
    let v = read_value(kind_of(table, n), line, equals)?;
    put_three(so, n, v.x, v.y, v.z);
    Ok(v.at)
}

// The end of the line: all letters have their numbers.
fn at_end(table: &[u8], at: usize, so: &[u8]) -> Result<(), Unread>
    requires { length table.now ≤ 24 }
    ensures { AssignedRead (at_end table.now at so.now) result so.now }
{
    if !good_assignment(table, so) {
        return Err(Unread {
            why: Refusal::WrongAssignment,
            column: at,
        });
    }
    Ok(())
}

// `a = (1, 0, -2), m = 3`: each name once, in any order. The numbers of all letters go into the bytes lent, three to a letter.
pub fn read_assigned(names: &[u8], table: &[u8], line: &[u8], so: &mut [u8]) -> Result<(), Unread>
    requires { Named names.now table.now × (length so.old ≡ 3 * length table.now) }
    ensures { AssignedRead (read_assigned (length line.now) names.now table.now line.now
        (skip line.now 0) (none_yet table.now)) result so.new }
{
    clear(so);
    let mut at = past_blanks(line, 0);
    for _ in 0..line.len() {
        let next = one_assigned(names, table, line, at, so)?;
        if next >= line.len() {
            return at_end(table, next, so);
        }
        at = read_mark(b',', line, next)?;
    }
    Err(Unread {
        why: Refusal::Torn,
        column: at,
    })
}
