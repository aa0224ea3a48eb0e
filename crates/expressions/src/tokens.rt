// Tokens: their own bytes, their operands, and the tests at a tree: bytes missing (4), depth (3), unknown token (4), letter (5).
ghost use Rattle.std.specs.Prelude.{◌≡◌, ◌+◌, ◌≤◌, ◌<◌, ltb, length, get_or};
ghost use Rattle.specification.specs.Results.{require};
ghost use Rattle.specification.specs.Expressions.{token_bytes, test_bytes};
ghost use Rattle.refusal.specs.Tests.{test_of};
ghost use Rattle.expressions.specs.Trees.{operand_count, test_token, test_head};

use refusal::Refusal;

// How many bytes a token has of its own.
pub fn token_bytes(token: u8) -> usize
    ensures { (result ≡ token_bytes token) × (result ≤ 5) }
{
    match token {
        1 => 2,
        2 => 5,
        0 | 3..=255 => 1,
    }
}

// How many operands a token has; none where it is a leaf, or unknown.
pub fn operands(token: u8) -> u8
    ensures { result ≡ operand_count token }
{
    match token {
        5 => 1,
        3..=4 | 6..=8 => 2,
        9 => 3,
        0..=2 | 10..=255 => 0,
    }
}

// Whether the bytes of the token at a position are there.
fn test_bytes(s: &[u8], at: usize) -> Result<(), Refusal>
    ensures { test_of result ≡ test_bytes s.now at }
{
    let n = s.len();
    if at >= n {
        return Err(Refusal::Torn);
    }
    let k = token_bytes(s[at]);
    if n - at < k {
        return Err(Refusal::Torn);
    }
    Ok(())
}

// Whether a letter is in the table.
fn test_in_table(table: &[u8], n: u8) -> Result<(), Refusal>
    ensures { test_of result ≡ require (ltb n (length table.now)) 5 }
{
    if (n as usize) < table.len() {
        return Ok(());
    }
    Err(Refusal::AbsentLetter)
}

// Whether the token at a position is known, and its letter in the table.
fn test_token(table: &[u8], s: &[u8], at: usize) -> Result<(), Refusal>
    requires { at + token_bytes (get_or s.now at 0) ≤ length s.now }
    ensures { test_of result ≡ test_token table.now s.now at }
{
    let token = s[at];
    match token {
        1 => test_in_table(table, s[at + 1]),
        2..=9 => Ok(()),
        0 | 10..=255 => Err(Refusal::Torn),
    }
}

// The tests at a tree, in their order.
pub fn test_head(table: &[u8], s: &[u8], at: usize, depth: usize) -> Result<(), Refusal>
    ensures { test_of result ≡ test_head depth table.now s.now at }
{
    test_bytes(s, at)?;
    if depth == 0 {
        return Err(Refusal::TooLong);
    }
    test_token(table, s, at)
}
