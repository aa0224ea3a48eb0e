// Values and assignments in words.
#![tactic(auto)]

ghost use Rattle.std.specs.Prelude.{◌*◌, ◌^◌, ◌≤◌, length};
ghost use Rattle.specification.specs.Commands.{value_text, assignment_text};
ghost use Rattle.evaluation.specs.Vectors.{vec_of, Within};
ghost use Rattle.telling.specs.Told.{Tells};
ghost use Rattle.value_telling.specs.Entries.{entry_text};

use evaluation::assignments::vector_of;
use evaluation::vectors::Vector;
use telling::{put, put_byte, put_signed};

// Three numbers in parentheses.
fn tell_vector(out: &mut [u8], at: usize, v: Vector) -> usize
    requires { Within (48 * 2 ^ 57) (vec_of v) }
    ensures { Tells out.old out.new at result (value_text 1 (vec_of v)) }
{
    let a = put(out, at, b"(");
    let b = put_signed(out, a, v.x);
    let c = put(out, b, b", ");
    let d = put_signed(out, c, v.y);
    let e = put(out, d, b", ");
    let f = put_signed(out, e, v.z);
    put(out, f, b")")
}

// A value in words: a number, or three in parentheses.
pub fn tell_value(out: &mut [u8], at: usize, kind: u8, v: Vector) -> usize
    requires { Within (48 * 2 ^ 57) (vec_of v) }
    ensures { Tells out.old out.new at result (value_text kind (vec_of v)) }
{
    if kind == 0 {
        return put_signed(out, at, v.x);
    }
    tell_vector(out, at, v)
}

// A name and its value, and a comma where more follow.
fn tell_entry(out: &mut [u8], at: usize, name: u8, kind: u8, v: Vector, left: usize) -> usize
    requires { Within (48 * 2 ^ 57) (vec_of v) }
    ensures { Tells out.old out.new at result (entry_text name kind (vec_of v) left) }
{
    let a = put_byte(out, at, name);
    let b = put(out, a, b" = ");
    let c = tell_value(out, b, kind, v);
    if left == 0 {
        return c;
    }
    put(out, c, b", ")
}

// An assignment by names.
pub fn tell_assignment(out: &mut [u8], at: usize, names: &[u8], table: &[u8], s: &[u8]) -> usize
    requires { (length names.now ≤ length table.now) × (length names.now ≤ 24) }
    ensures { Tells out.old out.new at result (assignment_text names.now table.now s.now) }
{
    let n = names.len();
    let mut next = at;
    for i in 0..n {
        let v = vector_of(s, i as u8);
        next = tell_entry(out, next, names[i], table[i], v, n - i - 1);
    }
    next
}
