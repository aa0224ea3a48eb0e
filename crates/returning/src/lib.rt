// What the calls for C return: one signed number, at least 0 where something is given, minus the number of the refusal otherwise.
#![tactic(auto)]

ghost use Rattle.std.specs.Prelude.{◌≡◌, ◌≤◌, ◌<◌, ◌^◌, length};
ghost use Rattle.specification.specs.Results.{given, refused};
ghost use Rattle.specification.specs.Returns.{returned, returned_at, places_into};

use integers::neg;

// A refusal: minus its number.
pub fn refusal(n: u8) -> i64
    ensures { result ≡ returned (refused n) }
{
    neg(n as i64)
}

// A length that is returned.
pub fn written(n: usize) -> i64
    requires { n < 2 ^ 63 }
    ensures { result ≡ returned (given n) }
{
    n as i64
}

// A refusal of a log: minus the number times 256 and the step.
pub fn refusal_at(n: u8, k: u8) -> i64
    ensures { result ≡ returned_at n k }
{
    neg((n as usize * 256 + k as usize) as i64)
}

// Three places in front of the memory lent.
pub fn put_places(places: &mut [u64], a: usize, b: usize, n: usize)
    requires { 3 ≤ length places.old }
    ensures { places.new ≡ places_into a b n places.old }
{
    places[0] = a as u64;
    places[1] = b as u64;
    places[2] = n as u64;
}
