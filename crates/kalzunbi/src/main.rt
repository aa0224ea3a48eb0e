// The program `kalzunbi`: a word as first argument, the input from the file that the second names or from standard input, the answer to standard output.
#![tactic(auto)]

ghost use Rattle.std.specs.Prelude.{◌≤◌, length};

use command::{command, is_command};
use lines::words::same_bytes;
use std::env::{Env, FillError};
use std::fs::File;
use std::io::Read;
use std::str;
use typing::{STDOUT, derive, refuse_input};

mod typing;

// Writes the answer.
fn answer(word: &[u8], s: &[u8]) {
    let mut out = io::large_buffer();
    let Ok(n) = command(word, s, &mut out) else {
        io::write_all(STDOUT, b"refused 2: more output than there is room for\n");
        return;
    };
    io::write_all(STDOUT, &out[..n]);
}

// Reads until the bytes lent are full, the input ends or a read fails, and gives how many bytes were read.
fn read_full<R: Read>(input: &mut R, buf: &mut [u8]) -> usize
    ensures { result ≤ length buf.new }
{
    let mut done: usize = 0;
    while done < buf.len() {
        let Ok(n) = input.read(&mut buf[done..]) else {
            return done;
        };
        if n == 0 {
            return done;
        }
        done += n;
    }
    done
}

// Whether an input that was read is at its end; one that is cut short must not be taken for a whole one.
fn is_at_end<R: Read>(input: &mut R) -> bool {
    let mut more = [0u8; 1];
    matches!(input.read(&mut more), Ok(0))
}

// Writes the answer to what a file or standard input holds; a derivation is answered while it is typed.
fn answer_input<R: Read>(word: &[u8], input: &mut R) {
    if same_bytes(word, b"derivation") {
        derive(input);
        return;
    }
    let mut all = io::large_buffer();
    let n = read_full(input, &mut all);
    if !is_at_end(input) {
        refuse_input();
        return;
    }
    answer(word, &all[..n]);
}

// The file of a name; what hinders is told on standard error.
fn opened(rt: &HostRuntime, path: &[u8]) -> Option<File> {
    let Ok(name) = str::from_utf8(path) else {
        if eprintln!(rt; "the file's name is not UTF-8").is_err() {
            return None;
        }
        return None;
    };
    match File::open(rt, name) {
        Ok(file) => Some(file),
        Err(error) => {
            if eprintln!(rt; "{name}: {error}").is_err() {
                return None;
            }
            None
        }
    }
}

// Writes the answer to what the file of a name holds.
fn answer_file(rt: &HostRuntime, word: &[u8], path: &[u8]) {
    let Some(mut file) = opened(rt, path) else {
        io::write_all(STDOUT, b"refused: the file cannot be opened\n");
        return;
    };
    answer_input(word, &mut file);
}

// A word that is missing, or longer than any, is the empty one: it is not known, and no input is read.
fn main(rt: HostRuntime) {
    let mut word = [0u8; 16];
    let n = rt.arg(1, &mut word).unwrap_or(0);
    if !is_command(&word[..n]) {
        answer(&word[..n], b"\n");
        return;
    }
    let mut path = io::buffer();
    match rt.arg(2, &mut path) {
        Ok(m) => answer_file(&rt, &word[..n], &path[..m]),
        Err(FillError::TooLong) => answer_file(&rt, &word[..n], b""),
        Err(FillError::NotPresent) => answer_input(&word[..n], &mut rt.stdin()),
    }
}
