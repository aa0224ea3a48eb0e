// Sums, differences and negations of forms in lent rows.
ghost use Rattle.std.specs.Prelude.{◌≡◌, map, ◌+◌, ◌≤◌, neg_ℤ, length, take};
ghost use Rattle.specification.specs.Reduction.{sum_forms, negate_form};
ghost use Rattle.rows.specs.Rows.{run_of, Run, Light, form_by, FormRun, RowsGive};
ghost use Rattle.rows.specs.Rows.{SomeForm};
ghost use Rattle.sums.specs.Results.{Brought};

use crate::results::close;
use gathering::bringing::bring;
use integers::neg;
use limits::{NO_BOUND, test_limits};
use refusal::Refusal;
use rows::{Worked, copy};

// Each of the m rows of a form brought in among n; how many there are then.
fn bring_rows(
    rows: &mut [[u32; 8]],
    coefs: &mut [i64],
    n: usize,
    right: &[[u32; 8]],
    rights: &[i64],
    m: usize,
) -> usize
    requires { Run n rows.old coefs.old × Light 2147483647 n coefs.old × SomeForm m right.now rights.now
        × (n + m ≤ length rows.old) × (n + m ≤ length coefs.old) }
    ensures { Brought m n rows.old coefs.old (run_of m right.now rights.now) result rows.new
        coefs.new }
{
    let mut count = n;
    for j in 0..m {
        let r = right[j];
        let c = rights[j];
        count = bring(rows, coefs, count, r, c);
    }
    count
}

// The sum of two forms of one kind where there is room for all their rows.
fn add_here(
    kind: u8,
    n: usize,
    rows: &mut [[u32; 8]],
    coefs: &mut [i64],
    m: usize,
    right: &[[u32; 8]],
    rights: &[i64],
) -> Result<Worked, Refusal>
    requires { FormRun kind n rows.old coefs.old × FormRun kind m right.now rights.now
        × (n + m ≤ length rows.old) × (n + m ≤ length coefs.old) }
    ensures { RowsGive (sum_forms (form_by kind n rows.old coefs.old) (form_by kind m right.now rights.now)) result
        rows.new coefs.new }
{
    let count = bring_rows(rows, coefs, n, right, rights, m);
    test_limits(coefs, count, NO_BOUND)?;
    Ok(Worked { kind, count })
}

// The sum of two forms of one kind, gathered apart.
fn add_apart(
    kind: u8,
    n: usize,
    rows: &mut [[u32; 8]],
    coefs: &mut [i64],
    m: usize,
    right: &[[u32; 8]],
    rights: &[i64],
) -> Result<Worked, Refusal>
    requires { FormRun kind n rows.old coefs.old × FormRun kind m right.now rights.now × (48 ≤ length rows.old) × (48 ≤ length coefs.old) }
    ensures { RowsGive (sum_forms (form_by kind n rows.old coefs.old) (form_by kind m right.now rights.now)) result
        rows.new coefs.new }
{
    let z = [0u32; 8];
    let mut more = [z; 96];
    let mut beside = [0i64; 96];
    copy(n, rows, coefs, &mut more, &mut beside);
    let count = bring_rows(&mut more, &mut beside, n, right, rights, m);
    close(kind, count, &more, &beside, rows, coefs)
}

// The sum of two forms, whose kinds have to agree.
pub fn sum(
    kind: u8,
    n: usize,
    rows: &mut [[u32; 8]],
    coefs: &mut [i64],
    other: u8,
    m: usize,
    right: &[[u32; 8]],
    rights: &[i64],
) -> Result<Worked, Refusal>
    requires { FormRun kind n rows.old coefs.old × FormRun other m right.now rights.now × (48 ≤ length rows.old) × (48 ≤ length coefs.old) }
    ensures { RowsGive (sum_forms (form_by kind n rows.old coefs.old) (form_by other m right.now rights.now)) result
        rows.new coefs.new }
{
    if kind != other {
        return Err(Refusal::WrongKind);
    }
    if n + m > 48 {
        return add_apart(kind, n, rows, coefs, m, right, rights);
    }
    add_here(kind, n, rows, coefs, m, right, rights)
}

// The signs of the first n coefficients turned.
pub fn negate(coefs: &mut [i64], n: usize)
    requires { (n ≤ length coefs.old) × Light 2147483647 n coefs.old }
    ensures { take n coefs.new ≡ map neg_ℤ (take n coefs.old) }
{
    for i in 0..n {
        let c = neg(coefs[i]);
        coefs[i] = c;
    }
}

// The difference of two forms: the right one is negated.
pub fn difference(
    kind: u8,
    n: usize,
    rows: &mut [[u32; 8]],
    coefs: &mut [i64],
    other: u8,
    m: usize,
    right: &[[u32; 8]],
    rights: &mut [i64],
) -> Result<Worked, Refusal>
    requires { FormRun kind n rows.old coefs.old × FormRun other m right.now rights.old × (48 ≤ length rows.old) × (48 ≤ length coefs.old) }
    ensures { RowsGive (sum_forms (form_by kind n rows.old coefs.old)
        (negate_form (form_by other m right.now rights.old))) result rows.new coefs.new }
{
    negate(rights, m);
    sum(kind, n, rows, coefs, other, m, right, rights)
}
