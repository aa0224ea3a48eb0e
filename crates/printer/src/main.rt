// The printer: the length of a table, the table and an expression from standard input; the form in letters, or R and the number of the refusal, on a line to standard output.
#![tactic(auto)]

use printer_call::print;
use printing::LINE_BYTES;

// Reads one byte more than the longest input that is not refused for its length: with it the answer is the one for the whole input (`enough_read`).
fn main() {
    let mut input = [0u8; 538];
    let n = io::read_full(0, &mut input);
    let mut out = [0u8; LINE_BYTES];
    let Ok(m) = print(&input[..n], &mut out) else {
        return;
    };
    io::write_all(1, &out[..m]);
}
