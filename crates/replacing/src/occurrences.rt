// Where a vector letter occurs: in a factor, in a vector part, and how many leading factors are without it.
ghost use Rattle.std.specs.Prelude.{◌≡◌, map, ℕ, ◌≤◌, ◌<◌, length, take};
ghost use Rattle.theory.specs.Elements.{All};
ghost use Rattle.theory.specs.Reduction.Standing.{has_letter, factor_has, leading_of};
ghost use Rattle.terms.specs.Numbers.{letters_of};
ghost use Rattle.terms.specs.Abstraction.{part_of};

use terms::factors::{Factor, letters_of};
use terms::types::Part;

// Whether a factor has a vector letter: a scalar letter is none.
pub fn factor_has(k: u32, letter: u8) -> bool
    requires { k < 16843008 }
    ensures { result ≡ factor_has letter (letters_of k) }
{
    let f = letters_of(k);
    match f {
        Factor::Scalar(_) => false,
        Factor::Dot(x, y) => x == letter || y == letter,
        Factor::Triple(x, y, z) => x == letter || y == letter || z == letter,
    }
}

// Whether a vector part has it.
pub fn part_has(p: Part, letter: u8) -> bool
    ensures { result ≡ has_letter letter (part_of p) }
{
    match p {
        Part::Nothing => false,
        Part::Letter(x) => x == letter,
        Part::Wedge(x, y) => x == letter || y == letter,
    }
}

// How many of n leading factors are without it.
pub fn leading(f: &[u32; 7], n: u8, letter: u8) -> usize
    requires { (n ≤ 7) × (length f.now ≡ 7) × All (λ (k : ℕ). k < 16843008) (take n f.now) }
    ensures { result ≡ leading_of letter (map letters_of (take n f.now)) }
{
    let m = n as usize;
    for i in 0..m {
        if factor_has(f[i], letter) {
            return i;
        }
    }
    m
}
