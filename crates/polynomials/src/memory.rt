// Summands in lent bytes: a key and a coefficient in eight bytes each, the lowest byte first.
ghost use Rattle.std.specs.Prelude.{◌≡◌, ◌+◌, ◌≤◌, ◌<◌, length, get_or, set};
ghost use Rattle.std.proofs.lemmas.List.Edits.{sets};
ghost use Rattle.polynomials.specs.Memory.{bytes_of, number_of, eight, summand, none, summands};

// Writes the eight bytes of a number.
fn put8(work: &mut [u8], at: usize, x: u64)
    requires { at + 8 ≤ length work.old }
    ensures { work.new ≡ sets work.old at (bytes_of 8 x) }
{
    work[at..at + 8].copy_from_slice(&x.to_le_bytes());
}

// The number that eight bytes are.
fn get8(work: &[u8], at: usize) -> u64
    requires { at + 8 ≤ length work.now }
    ensures { result ≡ number_of (eight work.now at) }
{
    u64::from_le_bytes([
        work[at],
        work[at + 1],
        work[at + 2],
        work[at + 3],
        work[at + 4],
        work[at + 5],
        work[at + 6],
        work[at + 7],
    ])
}

// Writes the summand number i; the others stand.
pub fn put(work: &mut [u8], i: usize, key: u64, coef: i64)
    requires { i < length (summands work.old) }
    ensures { summands work.new ≡ set (summands work.old) i (summand key coef) }
{
    let at = 16 * i;
    put8(work, at, key);
    put8(work, at + 8, coef.cast_unsigned());
}

// The key of the summand number i.
pub fn key_at(work: &[u8], i: usize) -> u64
    requires { i < length (summands work.now) }
    ensures { result ≡ (get_or (summands work.now) i none).key }
{
    get8(work, 16 * i)
}

// The coefficient of the summand number i.
pub fn coef_at(work: &[u8], i: usize) -> i64
    requires { i < length (summands work.now) }
    ensures { result ≡ (get_or (summands work.now) i none).coef }
{
    get8(work, 16 * i + 8).cast_signed()
}
