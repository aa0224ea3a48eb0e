// Insertion (K1): a vector form put in for a vector letter of a form, and the call that writes the record of what comes out.
#![tactic(auto)]

ghost use Rattle.std.specs.Prelude.{◌≡◌, eqb};
ghost use Rattle.specification.specs.Results.{require};
ghost use Rattle.specification.specs.Letters.{vector};
ghost use Rattle.specification.specs.Insertion.{with_inserted, insert_call};
ghost use Rattle.terms.specs.Valid.{Gives};
ghost use Rattle.refusal.specs.Tests.{test_of};
ghost use Rattle.insertion.specs.Answers.{inserted_of};
ghost use Rattle.insertion.specs.Tests.{test_replaced};

use form_trees::replace;
use forms::{FORM_BYTES, read_both, write_form};
use letters::{check_table, test_letter};
use refusal::Refusal;
use terms::types::Form;

// A vector form's kind.
fn test_vector(kind: u8) -> Result<(), Refusal>
    ensures { test_of result ≡ require (eqb kind vector) 6 }
{
    if kind != 1 {
        return Err(Refusal::WrongKind);
    }
    Ok(())
}

// A vector letter of the table, and a vector form's kind.
fn test_replaced(table: &[u8], letter: u8, kind: u8) -> Result<(), Refusal>
    ensures { test_of result ≡ test_replaced table.now letter kind }
{
    test_letter(table, 1, letter)?;
    test_vector(kind)
}

// The form that insertion gives: both forms' own tests, those of the letter and of the kind, then working's.
fn with_inserted(table: &[u8], form: &[u8], letter: u8, inserted: &[u8]) -> Result<Form, Refusal>
    ensures { Gives (with_inserted table.now form.now letter inserted.now) result }
{
    let (f, g) = read_both(table, form, inserted)?;
    test_replaced(table, letter, g.kind)?;
    replace(f, letter, g)
}

// The call: the table, the room, then contents; the record of the form is written into the bytes lent, and its length is the answer.
pub fn insert(
    table: &[u8],
    form: &[u8],
    letter: u8,
    inserted: &[u8],
    out: &mut [u8],
) -> Result<usize, Refusal>
    ensures { (inserted_of result, out.new) ≡ insert_call table.now form.now letter inserted.now out.old }
{
    check_table(table)?;
    if out.len() < FORM_BYTES {
        return Err(Refusal::NoRoom);
    }
    let f = with_inserted(table, form, letter, inserted)?;
    Ok(write_form(out, f))
}
