// Demand 3 as one function: a form is shortened, the checker is given the log, and the log's ends are decided.
#![tactic(auto)]

ghost use Rattle.specification.specs.Auditing.{Audited};
ghost use Rattle.audit.specs.Answers.{verdict_of};
ghost use Rattle.audit.specs.Auditing.{Said, LogAudited};

use checker::{check, first_form, last_form};
use decision::{BUFFER_BYTES, Decision, WORK_BYTES, decide};
use letters::check_table;
use refusal::Refusal;
use shortening::{Written, shorten};

// What the audit says: the log's length and its steps, where shortening, the checker and the decision agree; or refused with its number.
// That they do not agree never comes: the contract says so.
#[derive(Clone, Copy)]
pub enum Verdict {
    Agreed(Written),
    Refused(Refusal),
    Apart,
}

// Whether a decision holds.
fn says_holds(d: Decision) -> bool
    ensures { Said d result }
{
    match d {
        Decision::Holds => true,
        Decision::Differs => false,
        Decision::Refused(_) => false,
    }
}

// Whether the checker accepts a log with so many steps, and the decision of its first and last forms, as parts of the log, holds.
pub fn ends_hold(table: &[u8], log: &[u8], steps: usize, buffer: &mut [u8], work: &mut [u8]) -> bool
    ensures { LogAudited table.now log.now steps buffer.old work.old result buffer.new work.new }
{
    let Ok(a) = check(table, log) else {
        return false;
    };
    if a.steps != steps {
        return false;
    }
    let first = first_form(log, a.first_end);
    let last = last_form(log, a.last_start);
    says_holds(decide(table, first, last, buffer, work))
}

// A form shortened, its log checked, and the ends decided.
// Refused with 1 for the table, 2 for short memory, 11 for the form, then 5 or 6 for its letters; a refusal writes nothing.
pub fn audit(
    table: &[u8],
    form: &[u8],
    out: &mut [u8],
    buffer: &mut [u8],
    work: &mut [u8],
) -> Verdict
    ensures { Audited table.now form.now out.old buffer.old work.old (verdict_of result) out.new buffer.new work.new }
{
    if let Err(e) = check_table(table) {
        return Verdict::Refused(e);
    }
    if buffer.len() < BUFFER_BYTES {
        return Verdict::Refused(Refusal::NoRoom);
    }
    if work.len() < WORK_BYTES {
        return Verdict::Refused(Refusal::NoRoom);
    }
    match shorten(table, form, out) {
        Ok(w) => {
            if ends_hold(table, &out[..w.size], w.steps, buffer, work) {
                return Verdict::Agreed(w);
            }
            Verdict::Apart
        }
        Err(e) => Verdict::Refused(e),
    }
}
