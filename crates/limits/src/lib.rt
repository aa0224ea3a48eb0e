// The limits of a run of rows: 9, then 10.
#![tactic(auto)]

ghost use Rattle.std.specs.Prelude.{◌≡◌, ◌≤◌, length, take};
ghost use Rattle.specification.specs.Lists.{all};
ghost use Rattle.specification.specs.Terms.{coef_within};
ghost use Rattle.rows.specs.Rows.{Light};
ghost use Rattle.limits.specs.Limits.{RunTested};

use integers::{size, within};
use refusal::Refusal;

// A bound that is not within, and so says nothing.
pub const NO_BOUND: u64 = 2147483648;

// Whether each of n coefficients is within ±2147483647.
fn all_within(coefs: &[i64], n: usize) -> bool
    requires { n ≤ length coefs.now }
    ensures { result ≡ all coef_within (take n coefs.now) }
{
    for i in 0..n {
        if !within(coefs[i]) {
            return false;
        }
    }
    true
}

// The same; no look at them where a bound that holds is itself within.
fn all_below(coefs: &[i64], n: usize, bound: u64) -> bool
    requires { (n ≤ length coefs.now) × (bound ≤ 2147483647 → Light bound n coefs.now) }
    ensures { result ≡ all coef_within (take n coefs.now) }
{
    if bound <= 2147483647 {
        return true;
    }
    all_within(coefs, n)
}

// Each of n coefficients within ±2147483647, and not more than 48 of them. The bound holds where it is within; NO_BOUND says nothing.
pub fn test_limits(coefs: &[i64], n: usize, bound: u64) -> Result<(), Refusal>
    requires { (n ≤ length coefs.now) × (bound ≤ 2147483647 → Light bound n coefs.now) }
    ensures { RunTested n coefs.now result }
{
    let fine = all_below(coefs, n, bound);
    if !fine {
        return Err(Refusal::LargeCoefficient);
    }
    if n > 48 {
        return Err(Refusal::ManyTerms);
    }
    Ok(())
}

// The largest of n coefficients, signs left out.
pub fn largest(coefs: &[i64], n: usize) -> u64
    requires { (n ≤ length coefs.now) × Light 2147483647 n coefs.now }
    ensures { Light result n coefs.now × (result ≤ 2147483647) }
{
    let mut most: u64 = 0;
    for i in 0..n {
        let v = size(coefs[i]);
        if v > most {
            most = v;
        }
    }
    most
}
