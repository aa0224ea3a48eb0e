// The calls for C: each answers with one signed number, at least 0 where something is given, minus the number of the refusal otherwise.
#![tactic(auto)]

ghost use Rattle.std.specs.Prelude.{◌≡◌, ℕ, ◌≤◌, ◌<◌, ◌^◌, length};
ghost use Rattle.specification.specs.Results.{given};
ghost use Rattle.specification.specs.Returns.{returned, decision_returned, three_into, value_returned, reduce_returned, insert_returned};
ghost use Rattle.specification.specs.Returns.{check_returned, DecideReturned, ShortenReturned, AuditReturned, read_text_returned, print_returned};
ghost use Rattle.specification.specs.Returns.{open_returned, add_returned, look_returned, DecideOpenReturned, close_returned};
ghost use Rattle.evaluation.specs.Vectors.{vec_of};
ghost use Rattle.decision.specs.Answers.{decision_of};
ghost use Rattle.open_log.specs.Answers.{answered_of};

use audit::{Verdict, audit};
use checker::check;
use decision::{Decision, decide};
use evaluation::value;
use evaluation::vectors::Vector;
use formula_call::read_formula;
use insertion::insert;
use letters::check_table;
use named_printing::print_named;
use open_log::{add, close, decide_open, look, open};
use reduction::reduce;
use refusal::Refusal;
use returning::{put_places, refusal, refusal_at, written};
use shortening::shorten;

// Three numbers in front of the memory lent.
fn put(values: &mut [i64], v: Vector)
    requires { 3 ≤ length values.old }
    ensures { values.new ≡ three_into (vec_of v) values.old }
{
    let x = v.x;
    let y = v.y;
    let z = v.z;
    values[0] = x;
    values[1] = y;
    values[2] = z;
}

// What a decision returns.
fn verdict_of(d: Decision) -> i64
    ensures { result ≡ decision_returned (decision_of d) }
{
    match d {
        Decision::Holds => 0,
        Decision::Differs => 1,
        Decision::Refused(why) => refusal(why.number()),
    }
}

// What a call returns that gives a length.
fn returned_of(a: Result<usize, Refusal>) -> i64
    requires { (n : ℕ) → answered_of a ≡ given n → n < 2 ^ 63 }
    ensures { result ≡ returned (answered_of a) }
{
    match a {
        Ok(n) => written(n),
        Err(why) => refusal(why.number()),
    }
}

// The value of a form under an assignment, written into the first three of the numbers lent: 0, or minus 1, 2, 11, 5, 6 or 12.
pub fn kalzunbi_value(table: &[u8], form: &[u8], assignment: &[u8], values: &mut [i64]) -> i64
    ensures { (result, values.new) ≡ value_returned table.now form.now assignment.now values.old }
{
    match check_table(table) {
        Ok(()) => {}
        Err(why) => return refusal(why.number()),
    }
    if values.len() < 3 {
        return refusal(Refusal::NoRoom.number());
    }
    match value(table, form, assignment) {
        Ok(v) => {
            put(values, v);
            0
        }
        Err(why) => refusal(why.number()),
    }
}

// The form of an expression, its record written into the bytes lent: its length, or minus 1, 2, then 3, 4 or 5, then 6, 7, 8, 9 or 10.
pub fn kalzunbi_reduce(table: &[u8], expression: &[u8], out: &mut [u8]) -> i64
    ensures { (result, out.new) ≡ reduce_returned table.now expression.now out.old }
{
    returned_of(reduce(table, expression, out))
}

// A form with a vector form for one of its vector letters, the record written into the bytes lent: its length, or minus 1, 2, 11, then 5 or 6, then 7, 8, 9 or 10.
pub fn kalzunbi_insert(
    table: &[u8],
    form: &[u8],
    letter: u8,
    inserted: &[u8],
    out: &mut [u8],
) -> i64
    ensures { (result, out.new) ≡ insert_returned table.now form.now letter inserted.now out.old }
{
    returned_of(insert(table, form, letter, inserted, out))
}

// The answer for a log: 0 where it is accepted, with where the first form ends, where the last begins and the steps in the first three of the numbers lent; or minus (number · 256 + step).
pub fn kalzunbi_check(table: &[u8], log: &[u8], places: &mut [u64]) -> i64
    ensures { (result, places.new) ≡ check_returned table.now log.now places.old }
{
    match check_table(table) {
        Ok(()) => {}
        Err(why) => return refusal_at(why.number(), 0),
    }
    if places.len() < 3 {
        return refusal_at(Refusal::NoRoom.number(), 0);
    }
    match check(table, log) {
        Ok(a) => {
            put_places(places, a.first_end, a.last_start, a.steps);
            0
        }
        Err(e) => refusal_at(e.why.number(), e.step),
    }
}

// Whether two forms are equal under every assignment: 0, or 1 with the first assignment under which they differ in the buffer, or minus 1, 2, 11, 5 or 6.
pub fn kalzunbi_decide(
    table: &[u8],
    first: &[u8],
    second: &[u8],
    buffer: &mut [u8],
    work: &mut [u8],
) -> i64
    ensures { DecideReturned table.now first.now second.now buffer.old work.old result buffer.new work.new }
{
    let d = decide(table, first, second, buffer, work);
    verdict_of(d)
}

// The log of a form's shortening, written into the bytes lent, and the number of its steps into the first of the numbers lent: the log's length, or minus 1, 2, 11, 5 or 6.
pub fn kalzunbi_shorten(table: &[u8], form: &[u8], out: &mut [u8], steps: &mut [u64]) -> i64
    ensures { ShortenReturned table.now form.now out.old steps.old result out.new steps.new }
{
    match check_table(table) {
        Ok(()) => {}
        Err(why) => return refusal(why.number()),
    }
    if steps.len() < 1 {
        return refusal(Refusal::NoRoom.number());
    }
    match shorten(table, form, out) {
        Ok(w) => {
            steps[0] = w.steps as u64;
            written(w.size)
        }
        Err(why) => refusal(why.number()),
    }
}

// A form shortened, its log given to the checker and the log's ends decided: the log in the bytes lent, its steps in the first of the numbers lent.
// The log's length, or minus 1, 2, 11, 5 or 6. That the three do not agree never comes: the contract says so.
pub fn kalzunbi_audit(
    table: &[u8],
    form: &[u8],
    out: &mut [u8],
    buffer: &mut [u8],
    work: &mut [u8],
    steps: &mut [u64],
) -> i64
    ensures { AuditReturned table.now form.now out.old buffer.old work.old steps.old result out.new buffer.new work.new steps.new }
{
    match check_table(table) {
        Ok(()) => {}
        Err(why) => return refusal(why.number()),
    }
    if steps.len() < 1 {
        return refusal(Refusal::NoRoom.number());
    }
    let v = audit(table, form, out, buffer, work);
    match v {
        Verdict::Agreed(l) => {
            steps[0] = l.steps as u64;
            written(l.size)
        }
        Verdict::Refused(why) => refusal(why.number()),
        Verdict::Apart => 0,
    }
}

// The form of a text with names for the table's letters, its record written into the bytes lent: its length, or minus 1, 2, then 3, 4, 5, then 6 to 10.
// The column of a refused text is written into the first of the numbers lent.
pub fn kalzunbi_read_text(
    table: &[u8],
    names: &[u8],
    line: &[u8],
    out: &mut [u8],
    columns: &mut [u64],
) -> i64
    ensures { (result, out.new, columns.new) ≡ read_text_returned table.now names.now line.now out.old columns.old }
{
    returned_of(read_formula(table, names, line, out, columns))
}

// The text of a form with names for the table's letters, written into the bytes lent: its length, or minus 1, 2, 11, 5 or 6.
pub fn kalzunbi_print(table: &[u8], names: &[u8], form: &[u8], out: &mut [u8]) -> i64
    ensures { (result, out.new) ≡ print_returned table.now names.now form.now out.old }
{
    returned_of(print_named(table, names, form, out))
}

// A log opened with a table and a first form, its state written into the bytes lent: the state's length, or minus 1, 2, 11, 5 or 6.
pub fn kalzunbi_open(table: &[u8], form: &[u8], state: &mut [u8]) -> i64
    ensures { (result, state.new) ≡ open_returned table.now form.now state.old }
{
    returned_of(open(table, form, state))
}

// A step added to an open log, the next state written into the bytes lent: its length, or minus 11 for the state, 2, 14, 11 for the step, 5 or 6, then 6, 8, 9 or 10.
pub fn kalzunbi_add(state: &[u8], step: &[u8], next: &mut [u8]) -> i64
    ensures { (result, next.new) ≡ add_returned state.now step.now next.old }
{
    returned_of(add(state, step, next))
}

// The form that an open log has reached, its record written into the bytes lent: its length, or minus 11 or 2.
pub fn kalzunbi_look(state: &[u8], out: &mut [u8]) -> i64
    ensures { (result, out.new) ≡ look_returned state.now out.old }
{
    returned_of(look(state, out))
}

// Whether the form that an open log has reached and another are equal under every assignment: 0, or 1 with the first assignment under which they differ in the
// buffer, or minus 11 for the state, 2, 11 for the form, 5 or 6.
pub fn kalzunbi_decide_open(state: &[u8], form: &[u8], buffer: &mut [u8], work: &mut [u8]) -> i64
    ensures { DecideOpenReturned state.now form.now buffer.old work.old result buffer.new work.new }
{
    let d = decide_open(state, form, buffer, work);
    verdict_of(d)
}

// An open log closed with a last form: 0 where it is accepted, or minus 11 for the state, 11 for the form, 5, 6 or 13.
pub fn kalzunbi_close(state: &[u8], form: &[u8]) -> i64
    ensures { result ≡ close_returned state.now form.now }
{
    match close(state, form) {
        Ok(()) => 0,
        Err(why) => refusal(why.number()),
    }
}
