// The state of an open log, read from any bytes and written.
ghost use Rattle.std.specs.Prelude.{◌≡◌, ◌≤◌, length, take};
ghost use Rattle.specification.specs.OpenLogs.{state_bytes, read_state};
ghost use Rattle.open_log.specs.States.{state_of, StateValid, StateReadAs, StateWritten};

use forms::{read_form, write_form};
use letters::check_table;
use logs::writing::write_letters;
use refusal::Refusal;
use terms::types::Form;

// Bytes that the state of any open log fits into.
pub const STATE_BYTES: usize = 796;

// The state of an open log: the table with its length, the number of steps taken, and the form reached.
#[derive(Clone, Copy)]
pub struct State {
    pub letters: usize,
    pub table: [u8; 24],
    pub count: u8,
    pub form: Form,
}

// The letters of a table in front of an array.
pub fn table_of(t: &[u8]) -> [u8; 24]
    requires { length t.now ≤ 24 }
    ensures { take (length t.now) result ≡ t.now }
{
    let mut table = [0u8; 24];
    table[..t.len()].copy_from_slice(t);
    table
}

// The state whose bytes these are: a bad table, a count above 64, a form out of shape or with letters that the table has not, bytes missing or left over are all 11.
pub fn read_state(s: &[u8]) -> Result<State, Refusal>
    ensures { StateReadAs (read_state s.now) result }
{
    let len = s.len();
    if len < 1 {
        return Err(Refusal::WrongShape);
    }
    let n = s[0] as usize;
    if len < n + 2 {
        return Err(Refusal::WrongShape);
    }
    let end = n + 1;
    let table = &s[1..end];
    if check_table(table).is_err() {
        return Err(Refusal::WrongShape);
    }
    let count = s[end];
    if count > 64 {
        return Err(Refusal::WrongShape);
    }
    let start = n + 2;
    let Ok(form) = read_form(table, &s[start..]) else {
        return Err(Refusal::WrongShape);
    };
    Ok(State {
        letters: n,
        table: table_of(table),
        count,
        form,
    })
}

// The bytes of a state: the table's length, the table, the count, the form's record.
pub fn write_state(out: &mut [u8], state: State) -> usize
    requires { StateValid state × (state_bytes ≤ length out.old) }
    ensures { StateWritten out.old out.new result (state_of state) }
{
    let n = state.letters;
    let table = state.table;
    let form = state.form;
    out[0] = n as u8;
    let a = write_letters(out, 1, &table[..n]);
    out[a] = state.count;
    let b = a + 1;
    b + write_form(&mut out[b..], form)
}
