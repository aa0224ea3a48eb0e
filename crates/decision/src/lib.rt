// The decision: whether two forms are equal under every assignment, or the first under which they differ.
#![tactic(auto)]

ghost use Rattle.specification.specs.Decision.{decide_tested, Decided};
ghost use Rattle.forms.specs.Reading.{BothRead};
ghost use Rattle.decision.specs.Settling.{Components, Decidable, DecidedSo};
ghost use Rattle.decision.specs.Answers.{decision_of};

use elimination::components::compare;
use firsts::keep_first;
use forms::read_both;
use letters::check_table;
use refusal::Refusal;
use terms::types::Form;

// Bytes of the buffer that the decision takes at least.
pub const BUFFER_BYTES: usize = 72;

// Work bytes that it takes at least: 3,456 monomials.
pub const WORK_BYTES: usize = 55296;

// What the decision says. An enum, since the customer's document asks for it: holds, differs, refused with its number.
#[derive(Clone, Copy)]
pub enum Decision {
    Holds,
    Differs,
    Refused(Refusal),
}

// How many components of two forms of a kind are compared: scalar forms have one, and vector forms may differ in any of three first.
pub fn components(kind: u8) -> u8
    ensures { Components kind result }
{
    if kind == 0 { 1 } else { 3 }
}

// The decision of two forms that passed every test: their m components are compared one after the other, and of the first numbers under which one differs the
// first stand in the buffer. (The number is passed on because a form of which a field is read here would be copied for each component.)
pub fn settle(table: &[u8], f: Form, g: Form, m: u8, buffer: &mut [u8], work: &mut [u8]) -> Decision
    requires { Decidable table.now f g buffer.old work.old × Components f.kind m }
    ensures { DecidedSo table.now f g buffer.old work.old (decision_of result) buffer.new work.new }
{
    let mut found = false;
    for i in 0..m {
        let n = compare(work, f, g, i);
        found = keep_first(table, work, n, buffer, found);
    }
    if found {
        return Decision::Differs;
    }
    Decision::Holds
}

// The two forms, if every test is passed: 1 for the table, 2 for short memory, 11 for either form, then 5 or 6 for letters, 6 for unlike kinds.
fn two_forms(
    table: &[u8],
    first: &[u8],
    second: &[u8],
    buffer: &[u8],
    work: &[u8],
) -> Result<(Form, Form), Refusal>
    ensures { BothRead (decide_tested table.now first.now second.now buffer.now work.now) result }
{
    check_table(table)?;
    if buffer.len() < BUFFER_BYTES {
        return Err(Refusal::NoRoom);
    }
    if work.len() < WORK_BYTES {
        return Err(Refusal::NoRoom);
    }
    let (f, g) = read_both(table, first, second)?;
    if f.kind != g.kind {
        return Err(Refusal::WrongKind);
    }
    Ok((f, g))
}

// Whether two forms are equal under every assignment, or the first under which they differ, in the buffer; or the refusal of the first test that fails.
pub fn decide(
    table: &[u8],
    first: &[u8],
    second: &[u8],
    buffer: &mut [u8],
    work: &mut [u8],
) -> Decision
    ensures { Decided table.now first.now second.now buffer.old work.old (decision_of result) buffer.new work.new }
{
    match two_forms(table, first, second, buffer, work) {
        Ok((f, g)) => settle(table, f, g, components(f.kind), buffer, work),
        Err(e) => Decision::Refused(e),
    }
}
