// The promises at the calls (P2, P3, P6, P7 and K1): each function makes a call and promises of what came back what the definitions alone do not say.
// A call that kept its own contract only in words would be refused here.
#![tactic(auto)]

ghost use Rattle.std.specs.Prelude.{◌≡◌, ℕ, take};
ghost use Rattle.specification.specs.Results.{given};
ghost use Rattle.specification.specs.Promises.{KeepsValue, Inserts, rewrite_call, LogPromise, DecisionPromise};
ghost use Rattle.reduction.specs.Answers.{reduced_of};
ghost use Rattle.insertion.specs.Answers.{inserted_of};
ghost use Rattle.checker.specs.Answers.{checked_of};
ghost use Rattle.decision.specs.Answers.{decision_of};

use checker::{Accepted, check};
use decision::{Decision, decide};
use forms::{FORM_BYTES, read_form, write_form};
use insertion::insert;
use letters::check_table;
use logs::steps::RefusedAt;
use reduction::reduce;
use refusal::Refusal;

// P2: the bytes that reduction wrote are the record of a form with the expression's value under every assignment.
pub fn reduce_kept(table: &[u8], expression: &[u8], out: &mut [u8]) -> Result<usize, Refusal>
    ensures { (n : ℕ) → reduced_of result ≡ given n → KeepsValue table.now expression.now (take n out.new) }
{
    reduce(table, expression, out)
}

// K1: the bytes that insertion wrote are the record of a form with the old form's value where the letter has the inserted form's, under every assignment.
pub fn insert_replaces(
    table: &[u8],
    form: &[u8],
    letter: u8,
    inserted: &[u8],
    out: &mut [u8],
) -> Result<usize, Refusal>
    ensures { (n : ℕ) → inserted_of result ≡ given n → Inserts table.now form.now letter inserted.now (take n out.new) }
{
    insert(table, form, letter, inserted, out)
}

// P3: a form that is read is written as the bytes that were read.
pub fn rewrite(table: &[u8], form: &[u8], out: &mut [u8]) -> Result<usize, Refusal>
    ensures { (reduced_of result, out.new) ≡ rewrite_call table.now form.now out.old }
{
    check_table(table)?;
    if out.len() < FORM_BYTES {
        return Err(Refusal::NoRoom);
    }
    let f = read_form(table, form)?;
    Ok(write_form(out, f))
}

// P7: the ends of a log that the checker accepts have equal values; within the limits it accepts exactly where the form reached is the last.
pub fn check_promised(table: &[u8], log: &[u8]) -> Result<Accepted, RefusedAt>
    ensures { LogPromise log.now (checked_of result) }
{
    check(table, log)
}

// P6 and K2: the decision holds exactly where two forms are equal under every assignment; the assignment handed over tells them apart, and there is no other.
pub fn decide_promised(
    table: &[u8],
    first: &[u8],
    second: &[u8],
    buffer: &mut [u8],
    work: &mut [u8],
) -> Decision
    ensures { DecisionPromise table.now first.now second.now buffer.old work.old (decision_of result) buffer.new }
{
    decide(table, first, second, buffer, work)
}
