// What was read so far: operators of each level on two forms, a minus in front, leaves, a triple, the closing parenthesis.
ghost use Rattle.std.specs.Prelude.{◌≡◌, true, ◌≤◌, length, get_or};
ghost use Rattle.specification.specs.Text.{is_factor, is_sign, is_triple, next};
ghost use Rattle.theory.specs.Text.OnTheWay.{goes_on, most_of, operates, isFront, fronted, operand_at, front_at, way_number, way_closed, way_name, way_triple};
ghost use Rattle.rows.specs.Rows.{form_by, FormRun, RowsGive};
ghost use Rattle.formulas.specs.Readings.{Read, Joined, Fronted};

use operators::products::{dot, times, wedge};
use refusal::Refusal;
use rows::Worked;
use sums::adding::{difference, negate, sum};
use texts::{behind, byte_at, is_letter};

// What was read: what working gave with the column of its refusal, and the position behind.
#[derive(Clone, Copy)]
pub struct Reading {
    pub column: usize,
    pub next: usize,
    pub work: Result<Worked, Refusal>,
}

// Whether a product goes on with a byte.
fn is_factor(b: u8) -> bool
    ensures { result ≡ is_factor b }
{
    if b == b'*' {
        return true;
    }
    if is_letter(b) {
        return true;
    }
    b == b'('
}

// Whether a byte is a sign.
fn is_sign(b: u8) -> bool
    ensures { result ≡ is_sign b }
{
    if b == b'+' {
        return true;
    }
    b == b'-'
}

// Whether an operator of a level stands here.
pub fn goes_on(level: u8, b: u8) -> bool
    ensures { result ≡ goes_on level b }
{
    if level == 1 {
        return b == b'^';
    }
    if level == 2 {
        return b == b'.';
    }
    if level == 3 {
        return is_factor(b);
    }
    is_sign(b)
}

// How many operators of a level there are at most, in a text of so many bytes.
pub fn most_of(level: u8, n: usize) -> usize
    ensures { result ≡ most_of level n }
{
    if level <= 2 {
        return 1;
    }
    n
}

// Where the right operand of an operator begins.
pub fn operand_at(level: u8, s: &[u8], at: usize) -> usize
    requires { goes_on level (get_or s.now at 0) ≡ true }
    ensures { result ≡ operand_at s.now level at }
{
    if level != 3 {
        return behind(s, at);
    }
    if byte_at(s, at) != b'*' {
        return at;
    }
    behind(s, at)
}

// Where the first operand begins: behind a sign in front of a sum.
pub fn front_at(level: u8, s: &[u8], at: usize) -> usize
    ensures { result ≡ front_at s.now level at }
{
    if level != 4 {
        return at;
    }
    if !is_sign(byte_at(s, at)) {
        return at;
    }
    behind(s, at)
}

// A minus in front of a sum turns the signs of what was read.
pub fn front(level: u8, b: u8, a: Reading, rows: &[[u32; 8]], coefs: &mut [i64])
    requires { Read a rows.now coefs.old }
    ensures { Fronted level b a rows.now coefs.old coefs.new }
{
    if level != 4 {
        return;
    }
    if b != b'-' {
        return;
    }
    if let Ok(w) = a.work {
        negate(coefs, w.count);
    }
}

// The operator of a level on two forms.
fn operate(
    level: u8,
    b: u8,
    x: Worked,
    rows: &mut [[u32; 8]],
    coefs: &mut [i64],
    y: Worked,
    right: &[[u32; 8]],
    rights: &mut [i64],
) -> Result<Worked, Refusal>
    requires { FormRun x.kind x.count rows.old coefs.old × FormRun y.kind y.count right.now rights.old × (48 ≤ length rows.old)
        × (48 ≤ length coefs.old) }
    ensures { RowsGive (operates level b (form_by x.kind x.count rows.old coefs.old)
        (form_by y.kind y.count right.now rights.old)) result rows.new coefs.new }
{
    if level == 1 {
        return wedge(x.kind, x.count, rows, coefs, y.kind, y.count, right, rights);
    }
    if level == 2 {
        return dot(x.kind, x.count, rows, coefs, y.kind, y.count, right, rights);
    }
    if level == 3 {
        return times(x.kind, x.count, rows, coefs, y.kind, y.count, right, rights);
    }
    if b == b'-' {
        return difference(x.kind, x.count, rows, coefs, y.kind, y.count, right, rights);
    }
    sum(x.kind, x.count, rows, coefs, y.kind, y.count, right, rights)
}

// Two operands with an operator between them, which stands behind the left one: the left refusal, the right one, or the operator's.
pub fn join(
    level: u8,
    b: u8,
    x: Reading,
    rows: &mut [[u32; 8]],
    coefs: &mut [i64],
    y: Reading,
    right: &[[u32; 8]],
    rights: &mut [i64],
) -> Reading
    requires { Read x rows.old coefs.old × Read y right.now rights.old × (48 ≤ length rows.old) × (48 ≤ length coefs.old) }
    ensures { Joined level b x rows.old coefs.old y right.now rights.old result rows.new coefs.new }
{
    let Ok(v) = x.work else {
        return Reading { next: y.next, ..x };
    };
    let Ok(w) = y.work else {
        return y;
    };
    let work = operate(level, b, v, rows, coefs, w, right, rights);
    Reading {
        column: x.next,
        next: y.next,
        work,
    }
}
