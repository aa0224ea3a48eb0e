// The calls for C as C sees them: each answers what the function of its name in `exports` answers, and promises the same.
#![tactic(auto)]

ghost use Rattle.std.specs.Prelude.{◌≡◌};
ghost use Rattle.specification.specs.Returns.{value_returned, reduce_returned, insert_returned, check_returned};
ghost use Rattle.specification.specs.Returns.{DecideReturned, ShortenReturned, AuditReturned, read_text_returned, print_returned};
ghost use Rattle.specification.specs.Returns.{open_returned, add_returned, look_returned, DecideOpenReturned, close_returned};

// The value of a form under an assignment, written into the first three of the numbers lent: 0, or minus 1, 2, 11, 5, 6 or 12.
#[unsafe(no_mangle)]
pub extern "C" fn kalzunbi_value(
    table: &[u8],
    form: &[u8],
    assignment: &[u8],
    values: &mut [i64],
) -> i64
    ensures { (result, values.new) ≡ value_returned table.now form.now assignment.now values.old }
{
    exports::kalzunbi_value(table, form, assignment, values)
}

// The form of an expression, its record written into the bytes lent: its length, or minus 1, 2, then 3, 4 or 5, then 6, 7, 8, 9 or 10.
#[unsafe(no_mangle)]
pub extern "C" fn kalzunbi_reduce(table: &[u8], expression: &[u8], out: &mut [u8]) -> i64
    ensures { (result, out.new) ≡ reduce_returned table.now expression.now out.old }
{
    exports::kalzunbi_reduce(table, expression, out)
}

// A form with a vector form for one of its vector letters, the record written into the bytes lent: its length, or minus 1, 2, 11, then 5 or 6, then 7, 8, 9 or 10.
#[unsafe(no_mangle)]
pub extern "C" fn kalzunbi_insert(
    table: &[u8],
    form: &[u8],
    letter: u8,
    inserted: &[u8],
    out: &mut [u8],
) -> i64
    ensures { (result, out.new) ≡ insert_returned table.now form.now letter inserted.now out.old }
{
    exports::kalzunbi_insert(table, form, letter, inserted, out)
}

// The answer for a log: 0 where it is accepted, with where the first form ends, where the last begins and the steps in the first three of the numbers lent; or minus (number · 256 + step).
#[unsafe(no_mangle)]
pub extern "C" fn kalzunbi_check(table: &[u8], log: &[u8], places: &mut [u64]) -> i64
    ensures { (result, places.new) ≡ check_returned table.now log.now places.old }
{
    exports::kalzunbi_check(table, log, places)
}

// Whether two forms are equal under every assignment: 0, or 1 with the first assignment under which they differ in the buffer, or minus 1, 2, 11, 5 or 6.
#[unsafe(no_mangle)]
pub extern "C" fn kalzunbi_decide(
    table: &[u8],
    first: &[u8],
    second: &[u8],
    buffer: &mut [u8],
    work: &mut [u8],
) -> i64
    ensures { DecideReturned table.now first.now second.now buffer.old work.old result buffer.new work.new }
{
    exports::kalzunbi_decide(table, first, second, buffer, work)
}

// The log of a form's shortening, written into the bytes lent, and the number of its steps into the first of the numbers lent: the log's length, or minus 1, 2, 11, 5 or 6.
#[unsafe(no_mangle)]
pub extern "C" fn kalzunbi_shorten(
    table: &[u8],
    form: &[u8],
    out: &mut [u8],
    steps: &mut [u64],
) -> i64
    ensures { ShortenReturned table.now form.now out.old steps.old result out.new steps.new }
{
    exports::kalzunbi_shorten(table, form, out, steps)
}

// A form shortened, its log given to the checker and the log's ends decided: the log in the bytes lent, its steps in the first of the numbers lent.
// The log's length, or minus 1, 2, 11, 5 or 6. That the three do not agree never comes: the contract says so.
#[unsafe(no_mangle)]
pub extern "C" fn kalzunbi_audit(
    table: &[u8],
    form: &[u8],
    out: &mut [u8],
    buffer: &mut [u8],
    work: &mut [u8],
    steps: &mut [u64],
) -> i64
    ensures { AuditReturned table.now form.now out.old buffer.old work.old steps.old result out.new buffer.new work.new steps.new }
{
    exports::kalzunbi_audit(table, form, out, buffer, work, steps)
}

// The form of a text with names for the table's letters, its record written into the bytes lent: its length, or minus 1, 2, then 3, 4, 5, then 6 to 10.
// The column of a refused text is written into the first of the numbers lent.
#[unsafe(no_mangle)]
pub extern "C" fn kalzunbi_read_text(
    table: &[u8],
    names: &[u8],
    line: &[u8],
    out: &mut [u8],
    columns: &mut [u64],
) -> i64
    ensures { (result, out.new, columns.new) ≡ read_text_returned table.now names.now line.now out.old columns.old }
{
    exports::kalzunbi_read_text(table, names, line, out, columns)
}

// The text of a form with names for the table's letters, written into the bytes lent: its length, or minus 1, 2, 11, 5 or 6.
#[unsafe(no_mangle)]
pub extern "C" fn kalzunbi_print(table: &[u8], names: &[u8], form: &[u8], out: &mut [u8]) -> i64
    ensures { (result, out.new) ≡ print_returned table.now names.now form.now out.old }
{
    exports::kalzunbi_print(table, names, form, out)
}

// A log opened with a table and a first form, its state written into the bytes lent: the state's length, or minus 1, 2, 11, 5 or 6.
#[unsafe(no_mangle)]
pub extern "C" fn kalzunbi_open(table: &[u8], form: &[u8], state: &mut [u8]) -> i64
    ensures { (result, state.new) ≡ open_returned table.now form.now state.old }
{
    exports::kalzunbi_open(table, form, state)
}

// A step added to an open log, the next state written into the bytes lent: its length, or minus 11 for the state, 2, 14, 11 for the step, 5 or 6, then 6, 8, 9 or 10.
#[unsafe(no_mangle)]
pub extern "C" fn kalzunbi_add(state: &[u8], step: &[u8], next: &mut [u8]) -> i64
    ensures { (result, next.new) ≡ add_returned state.now step.now next.old }
{
    exports::kalzunbi_add(state, step, next)
}

// The form that an open log has reached, its record written into the bytes lent: its length, or minus 11 or 2.
#[unsafe(no_mangle)]
pub extern "C" fn kalzunbi_look(state: &[u8], out: &mut [u8]) -> i64
    ensures { (result, out.new) ≡ look_returned state.now out.old }
{
    exports::kalzunbi_look(state, out)
}

// Whether the form that an open log has reached and another are equal under every assignment: 0, or 1 with the first assignment under which they differ in the
// buffer, or minus 11 for the state, 2, 11 for the form, 5 or 6.
#[unsafe(no_mangle)]
pub extern "C" fn kalzunbi_decide_open(
    state: &[u8],
    form: &[u8],
    buffer: &mut [u8],
    work: &mut [u8],
) -> i64
    ensures { DecideOpenReturned state.now form.now buffer.old work.old result buffer.new work.new }
{
    exports::kalzunbi_decide_open(state, form, buffer, work)
}

// An open log closed with a last form: 0 where it is accepted, or minus 11 for the state, 11 for the form, 5, 6 or 13.
#[unsafe(no_mangle)]
pub extern "C" fn kalzunbi_close(state: &[u8], form: &[u8]) -> i64
    ensures { result ≡ close_returned state.now form.now }
{
    exports::kalzunbi_close(state, form)
}
