// Keys of monomials: a variable put in, the lowest variable taken out, powers.
ghost use Rattle.std.specs.Prelude.{◌≡◌, ◌^◌, ◌≤◌, ◌<◌, pos};
ghost use Rattle.polynomials.specs.Keys.{times_digit, rest, exponent, lowest};

// A key without the lowest variable, and how often it stood there.
#[derive(Clone, Copy)]
pub struct Cut {
    pub rest: u64,
    pub exponent: u64,
}

// A key with room for one more variable, times the variable of a digit; 0 is no variable.
pub fn times(key: u64, d: u64) -> u64
    requires { d < 256 }
    ensures { result ≡ times_digit d key }
{
    if d == 0 {
        return key;
    }
    let mut left = key / 256;
    let mut low: u64 = 0;
    let mut place: u64 = 1;
    for _i in 0..7usize {
        let a = left % 256;
        if d <= a {
            return low + place * (256 * left + d);
        }
        low += place * a;
        place *= 256;
        left /= 256;
    }
    low + place * d
}

// The variable of a digit cut off the end of a key.
pub fn cut_off(key: u64, d: u64) -> Cut
    requires { 1 ≤ d }
    ensures { (result.rest ≡ rest 8 d key) × (result.exponent ≡ exponent 8 d key) }
{
    let mut k = key;
    let mut place: u64 = 1;
    let mut e: u64 = 0;
    while k >= 256 {
        let a = k % 256;
        if a != 0 {
            if a != d {
                return Cut {
                    rest: place * k,
                    exponent: e,
                };
            }
            e += 1;
        }
        place *= 256;
        k /= 256;
    }
    if k == d {
        return Cut {
            rest: 0,
            exponent: e + 1,
        };
    }
    Cut {
        rest: place * k,
        exponent: e,
    }
}

// The lowest digit of a key that is not 0, or 0.
pub fn lowest_digit(key: u64) -> u64
    ensures { result ≡ lowest 8 key }
{
    let mut k = key;
    while k != 0 {
        if k % 256 != 0 {
            return k % 256;
        }
        k /= 256;
    }
    0
}

// A small number to a small power.
pub fn power(v: u64, e: u64) -> i64
    requires { (v ≤ 6) × (e ≤ 8) }
    ensures { result ≡ pos (v ^ e) }
{
    v.pow(e as u32) as i64
}
