// The order of terms: by vector part, then by the number of factors, then at the first factor that differs.
ghost use Rattle.std.specs.Prelude.{◌≡◌, ◌≤◌, length, take};
ghost use Rattle.specification.specs.Lists.{order, first_difference};
ghost use Rattle.specification.specs.Terms.{compare_terms};
ghost use Rattle.terms.specs.Abstraction.{term_of, ordering_of, Counted};

use crate::factors::part_number;
use crate::types::Term;
use std::cmp::Ordering;

// The first of n factors that differs decides.
fn compare_factors(f: &[u32; 7], g: &[u32; 7], n: u8) -> Ordering
    requires { (n ≤ 7) × (length f.now ≡ 7) × (length g.now ≡ 7) }
    ensures { ordering_of result ≡ first_difference order (take n f.now) (take n g.now) }
{
    let m = n as usize;
    for k in 0..m {
        if f[k] < g[k] {
            return Ordering::Less;
        }
        if g[k] < f[k] {
            return Ordering::Greater;
        }
    }
    Ordering::Equal
}

// Two terms.
pub fn compare(a: Term, b: Term) -> Ordering
    requires { Counted a × Counted b }
    ensures { ordering_of result ≡ compare_terms (term_of a) (term_of b) }
{
    let p = a.part;
    let q = b.part;
    let x = part_number(p);
    let y = part_number(q);
    if x < y {
        return Ordering::Less;
    }
    if y < x {
        return Ordering::Greater;
    }
    let n = a.factor_count;
    let m = b.factor_count;
    if n < m {
        return Ordering::Less;
    }
    if m < n {
        return Ordering::Greater;
    }
    compare_factors(&a.factors, &b.factors, n)
}
