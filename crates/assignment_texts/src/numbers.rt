// The numbers of a letter as text: `(1, 0, -2)` of a vector, `3` of a scalar.
ghost use Rattle.std.specs.Prelude.{◌≡◌, ◌&&◌, ◌-◌, ◌≤◌, leb, eqb, get_or};
ghost use Rattle.specification.specs.Results.{when◌then◌else◌};
ghost use Rattle.specification.specs.Text.{next};
ghost use Rattle.specification.specs.AssignmentTexts.{read_component, read_value};
ghost use Rattle.assignment_texts.specs.Numbers.{ComponentRead, LedRead, three_at, NumbersRead};

use log_texts::naming::read_mark;
use refusal::Refusal;
use texts::{Unread, behind, byte_at, is_digit};

// The position of a component's digit: behind a minus.
fn digit_at(line: &[u8], at: usize) -> usize
    ensures { result ≡ (when eqb (get_or line.now at 0) 45 then next line.now at else at) }
{
    if byte_at(line, at) == b'-' {
        return behind(line, at);
    }
    at
}

// The signed byte of a size: 0 behind a minus is 0.
fn signed_byte(minus: bool, size: u8) -> u8
    requires { size ≤ 6 }
    ensures { result ≡ (when minus && leb 1 size then 256 - size else size) }
{
    if !minus {
        return size;
    }
    if size < 1 {
        return size;
    }
    255 - size + 1
}

// A component as its signed byte, and the position behind it.
#[derive(Clone, Copy)]
pub struct Component {
    pub at: usize,
    pub byte: u8,
}

// A component from -6 to 6.
fn read_component(line: &[u8], at: usize) -> Result<Component, Unread>
    ensures { ComponentRead (read_component line.now at) result }
{
    let sign = byte_at(line, at);
    let first = digit_at(line, at);
    let b = byte_at(line, first);
    if !is_digit(b) {
        return Err(Unread {
            why: Refusal::Torn,
            column: first,
        });
    }
    if b > 54 {
        return Err(Unread {
            why: Refusal::WrongAssignment,
            column: first,
        });
    }
    if is_digit(byte_at(line, first + 1)) {
        return Err(Unread {
            why: Refusal::WrongAssignment,
            column: first,
        });
    }
    let byte = signed_byte(sign == b'-', b - 48);
    let next = behind(line, first);
    Ok(Component { at: next, byte })
}

// A component behind a byte that has to stand.
fn read_led(b: u8, line: &[u8], at: usize) -> Result<Component, Unread>
    requires { 1 ≤ b }
    ensures { LedRead b line.now at result }
{
    let first = read_mark(b, line, at)?;
    read_component(line, first)
}

// Three numbers as signed bytes, and the position behind them.
#[derive(Clone, Copy)]
pub struct Numbers {
    pub at: usize,
    pub x: u8,
    pub y: u8,
    pub z: u8,
}

// `(1, 0, -2)`.
fn read_three(line: &[u8], at: usize) -> Result<Numbers, Unread>
    ensures { NumbersRead (three_at line.now at) result }
{
    let x = read_led(b'(', line, at)?;
    let y = read_led(b',', line, x.at)?;
    let z = read_led(b',', line, y.at)?;
    let end = read_mark(b')', line, z.at)?;
    Ok(Numbers {
        at: end,
        x: x.byte,
        y: y.byte,
        z: z.byte,
    })
}

// The numbers of a letter of a kind: a scalar has one, and 0 twice.
pub fn read_value(kind: u8, line: &[u8], at: usize) -> Result<Numbers, Unread>
    ensures { NumbersRead (read_value kind line.now at) result }
{
    if kind != 0 {
        return read_three(line, at);
    }
    let x = read_component(line, at)?;
    Ok(Numbers {
        at: x.at,
        x: x.byte,
        y: 0,
        z: 0,
    })
}
