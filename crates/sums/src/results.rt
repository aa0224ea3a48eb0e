// Rows that the limits close to a form.
ghost use Rattle.std.specs.Prelude.{◌≡◌, ◌≤◌, length};
ghost use Rattle.specification.specs.Terms.{within};
ghost use Rattle.rows.specs.Rows.{run_of, RowsGive};
ghost use Rattle.sums.specs.Results.{GatheredRows};

use limits::{NO_BOUND, test_limits};
use refusal::Refusal;
use rows::{Worked, copy};

// What was gathered, as a form in the lent rows, where it is within the limits.
pub fn close(
    kind: u8,
    n: usize,
    from: &[[u32; 8]],
    froms: &[i64],
    rows: &mut [[u32; 8]],
    coefs: &mut [i64],
) -> Result<Worked, Refusal>
    requires { GatheredRows kind n from.now froms.now × (48 ≤ length rows.old) × (48 ≤ length coefs.old) }
    ensures { RowsGive (within kind (run_of n from.now froms.now)) result rows.new coefs.new }
{
    test_limits(froms, n, NO_BOUND)?;
    copy(n, from, froms, rows, coefs);
    Ok(Worked { kind, count: n })
}
