// The first numbers for the variables, one after the other from the lowest on, under which a polynomial in lent bytes is not 0.
ghost use Rattle.std.specs.Prelude.{◌≡◌, ℕ, ◌/◌, ◌≤◌, ◌<◌, length, get_or, take, drop};
ghost use Rattle.polynomials.specs.Memory.{summands};
ghost use Rattle.polynomials.specs.Passes.{Substitutable};
ghost use Rattle.elimination.specs.Elimination.{most_of, FirstNumber, Eliminable, Unchosen, Eliminated};

use letters::kind_of;
use polynomials::passes::{least, leaves, substitute};

// The largest number for a variable.
fn most(table: &[u8], x: usize) -> u64
    requires { x / 3 < length table.now }
    ensures { result ≡ most_of table.now x }
{
    if kind_of(table, x / 3) == 1 { 6 } else { 2 }
}

// The first number for the variable of a digit that leaves a summand; the last one needs no test.
fn first_number(work: &[u8], n: usize, d: u64, most: u64) -> u64
    requires { (n ≤ length (summands work.now)) × (most ≤ 6) × ((v : ℕ) → v ≤ most → Substitutable d v (take n (summands work.now))) }
    ensures { FirstNumber (take n (summands work.now)) d most result }
{
    for v in 0..most {
        if leaves(work, n, d, v) {
            return v;
        }
    }
    most
}

// Chooses for each variable of a polynomial that is not 0 the first number that leaves a summand, and writes it into the buffer.
fn choose(table: &[u8], work: &mut [u8], n: usize, buffer: &mut [u8])
    requires { Eliminable table.now n (summands work.old) buffer.old × Unchosen table.now buffer.old }
    ensures { Eliminated table.now (take n (summands work.old)) buffer.old buffer.new }
{
    let mut m = n;
    let mut d = least(work, n);
    while d != 0 {
        let x = (d - 1) as usize;
        let v = first_number(work, m, d, most(table, x));
        m = substitute(work, m, d, v);
        buffer[x] = v as u8;
        d = least(work, m);
    }
}

// Writes 0 into the first n bytes.
fn clear(buffer: &mut [u8], n: usize)
    requires { n ≤ length buffer.old }
    ensures zeros { (x : ℕ) → x < n → get_or buffer.new x 0 ≡ 0 }
    ensures behind { drop n buffer.new ≡ drop n buffer.old }
{
    buffer[..n].fill(0);
}

// Writes into the buffer the first numbers under which a polynomial that is not 0 is not 0; a variable that it does not have gets 0.
pub fn eliminate(table: &[u8], work: &mut [u8], n: usize, buffer: &mut [u8])
    requires { Eliminable table.now n (summands work.old) buffer.old }
    ensures { Eliminated table.now (take n (summands work.old)) buffer.old buffer.new }
{
    clear(buffer, 3 * table.len());
    choose(table, work, n, buffer);
}
