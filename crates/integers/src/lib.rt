// Signed numbers of 64 bits: sums, products, tests, exact division, and the four bytes of a coefficient.
#![tactic(auto)]

ghost use Rattle.std.specs.Prelude.{◌≡◌, ◌+◌, ◌*◌, ◌≤◌, ◌<◌, ◌^◌, nat_abs, ◌+ℤ◌, ◌-ℤ◌, ◌*ℤ◌, neg_ℤ, length};
ghost use Rattle.std.specs.Int.Signed.{lt_z};
ghost use Rattle.specification.specs.Records.{from_bits32, to_bits32, four_bytes, four_bytes_at, is_one};
ghost use Rattle.specification.specs.Terms.{is_zero, coef_within};
ghost use Rattle.specification.specs.Logs.{same_coef};
ghost use Rattle.integers.specs.Arithmetic.{is_negative, Divided};
ghost use Rattle.integers.specs.Over.{over};

// The sum.
pub fn add(a: i64, b: i64) -> i64
    requires { nat_abs a + nat_abs b < 2 ^ 63 }
    ensures { result ≡ a +ℤ b }
{
    a + b
}

// The difference.
pub fn sub(a: i64, b: i64) -> i64
    requires { nat_abs a + nat_abs b < 2 ^ 63 }
    ensures { result ≡ a -ℤ b }
{
    a - b
}

// The product.
pub fn mul(a: i64, b: i64) -> i64
    requires { nat_abs a * nat_abs b < 2 ^ 63 }
    ensures { result ≡ a *ℤ b }
{
    a * b
}

// The negative.
pub fn neg(a: i64) -> i64
    requires { nat_abs a < 2 ^ 63 }
    ensures { result ≡ neg_ℤ a }
{
    -a
}

// The absolute value.
pub fn size(a: i64) -> u64
    requires { nat_abs a < 2 ^ 63 }
    ensures { result ≡ nat_abs a }
{
    if a < 0 { (0 - a) as u64 } else { a as u64 }
}

// Whether a number is 0.
pub fn is_zero(a: i64) -> bool
    ensures { result ≡ is_zero a }
{
    a == 0
}

// Whether a number is 1.
pub fn is_one(a: i64) -> bool
    ensures { result ≡ is_one a }
{
    a == 1
}

// Whether two numbers are equal.
pub fn equal(a: i64, b: i64) -> bool
    ensures { result ≡ same_coef a b }
{
    a == b
}

// Whether a number is below 0.
pub fn is_negative(a: i64) -> bool
    ensures { result ≡ is_negative a }
{
    a < 0
}

// Whether a number is below another.
pub fn less(a: i64, b: i64) -> bool
    ensures { result ≡ lt_z a b }
{
    a < b
}

// Whether a number is within ±2147483647, as a coefficient is.
pub fn within(a: i64) -> bool
    ensures { result ≡ coef_within a }
{
    if a < 0 {
        -2147483647 <= a
    } else {
        a <= 2147483647
    }
}

// Exact division: the quotient, where there is one.
pub fn divide(a: i64, b: i64) -> Option<i64>
    requires { nat_abs a < 2 ^ 63 }
    ensures { Divided a b result }
{
    if b == 0 {
        return None;
    }
    let value = a / b;
    let rest = a % b;
    if rest != 0 {
        return None;
    }
    Some(value)
}

// The number that four bytes spell, the most significant first.
fn join(a: u8, b: u8, c: u8, d: u8) -> u64
    ensures { (result ≡ ((a * 256 + b) * 256 + c) * 256 + d) × (result < 4294967296) }
{
    ((a as u64 * 256 + b as u64) * 256 + c as u64) * 256 + d as u64
}

// A number of 32 bits as a signed one.
fn from_bits(u: u64) -> i64
    requires { u < 4294967296 }
    ensures { result ≡ from_bits32 u }
{
    if u < 2147483648 {
        u as i64
    } else {
        u as i64 - 4294967296
    }
}

// The signed number that the four bytes at a position spell.
pub fn four_bytes_at(s: &[u8], at: usize) -> i64
    requires { at + 4 ≤ length s.now }
    ensures value { result ≡ four_bytes_at s.now at }
    ensures bound { nat_abs result ≤ 2147483648 }
{
    from_bits(join(s[at], s[at + 1], s[at + 2], s[at + 3]))
}

// A signed number as one of 32 bits.
fn to_bits(a: i64) -> u64
    requires { nat_abs a ≤ 2147483647 }
    ensures { result ≡ to_bits32 a }
{
    if a < 0 {
        (a + 4294967296) as u64
    } else {
        a as u64
    }
}

// Writes the four bytes of a number, the most significant first.
pub fn write_four_bytes(out: &mut [u8], at: usize, a: i64)
    requires { (nat_abs a ≤ 2147483647) × (at + 4 ≤ length out.old) }
    ensures { out.new ≡ over out.old at (four_bytes a) }
{
    let u = to_bits(a);
    out[at] = (u / 16777216 % 256) as u8;
    out[at + 1] = (u / 65536 % 256) as u8;
    out[at + 2] = (u / 256 % 256) as u8;
    out[at + 3] = (u % 256) as u8;
}
