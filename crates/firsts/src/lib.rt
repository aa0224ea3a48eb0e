// Of several polynomials, looked at one after the other in the same lent bytes, the first numbers under which one of them is not 0.
#![tactic(auto)]

ghost use Rattle.std.specs.Prelude.{◌≡◌, ◌*◌, ◌≤◌, ◌<◌, length, take, drop};
ghost use Rattle.theory.specs.Values.Firsts.{Alike};
ghost use Rattle.polynomials.specs.Memory.{summands};
ghost use Rattle.elimination.specs.Elimination.{Eliminable};
ghost use Rattle.firsts.specs.Keeping.{IsBefore, Lowered, Kept};

use elimination::elimination::eliminate;

// Whether the first n numbers of s come before those of t.
fn is_before(s: &[u8], t: &[u8], n: usize) -> bool
    requires { (n ≤ length s.now) × (n ≤ length t.now) }
    ensures { IsBefore n s.now t.now result }
{
    for i in 0..n {
        if s[i] < t[i] {
            return true;
        }
        if t[i] < s[i] {
            return false;
        }
    }
    false
}

// Writes the first n numbers into the buffer.
fn put_numbers(buffer: &mut [u8], numbers: &[u8], n: usize)
    requires { (n ≤ length buffer.old) × (n ≤ length numbers.now) }
    ensures written { Alike n buffer.new numbers.now }
    ensures behind { drop n buffer.new ≡ drop n buffer.old }
{
    buffer[..n].copy_from_slice(&numbers[..n]);
}

// The first numbers of the polynomial in the work bytes, written over those in the buffer where they come before them.
fn lower(table: &[u8], work: &mut [u8], n: usize, buffer: &mut [u8])
    requires { Eliminable table.now n (summands work.old) buffer.old }
    ensures { Lowered table.now (take n (summands work.old)) buffer.old buffer.new }
{
    let mut numbers: [u8; 72] = [0; 72];
    eliminate(table, work, n, &mut numbers);
    let m = 3 * table.len();
    if is_before(&numbers, buffer, m) {
        put_numbers(buffer, &numbers, m);
    }
}

// One more polynomial, of n summands: whether one so far is not 0, and the first numbers of them all in the buffer. `found` is whether some stand there.
pub fn keep_first(table: &[u8], work: &mut [u8], n: usize, buffer: &mut [u8], found: bool) -> bool
    requires { 0 < n → Eliminable table.now n (summands work.old) buffer.old }
    ensures { Kept table.now (take n (summands work.old)) found buffer.old result buffer.new }
{
    if n == 0 {
        return found;
    }
    if found {
        lower(table, work, n, buffer);
    } else {
        eliminate(table, work, n, buffer);
    }
    true
}
