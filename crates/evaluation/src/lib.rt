// The value call: a form under an assignment of signed bytes, as three signed numbers.
#![tactic(auto)]

ghost use Rattle.std.specs.Prelude.{◌≡◌};
ghost use Rattle.specification.specs.Evaluation.{value_call};
ghost use Rattle.evaluation.specs.Answers.{valued_of};

pub mod assignments;
pub mod values;
pub mod vectors;

use crate::assignments::good_assignment;
use crate::values::form_value;
use crate::vectors::Vector;
use forms::read_form;
use letters::check_table;
use refusal::Refusal;

// The value of the form whose record the bytes are; refused with 1 for the table, 11, 5 or 6 for the form, 12 for the assignment.
pub fn value(table: &[u8], form: &[u8], assignment: &[u8]) -> Result<Vector, Refusal>
    ensures { valued_of result ≡ value_call table.now form.now assignment.now }
{
    check_table(table)?;
    let f = read_form(table, form)?;
    if !good_assignment(table, assignment) {
        return Err(Refusal::WrongAssignment);
    }
    Ok(form_value(assignment, f))
}
