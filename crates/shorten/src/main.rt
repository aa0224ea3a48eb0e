// Shorten: the length of a table, the table and an expression from standard input.
// To standard output the form, the steps that shorten it and the last form in letters, each on a line, or R and the number of the refusal.
#![tactic(auto)]

use shorten_call::{LINES_BYTES, print_shortening};

// Reads one byte more than the longest input that is not refused for its length: with it the answer is one for the whole input (`enough_read`).
fn main() {
    let mut input = [0u8; 538];
    let n = io::read_full(0, &mut input);
    let mut out = [0u8; LINES_BYTES];
    let Ok(m) = print_shortening(&input[..n], &mut out) else {
        return;
    };
    io::write_all(1, &out[..m]);
}
