// The answer to a word of the program `kalzunbi`, in lent bytes.
#![tactic(auto)]

ghost use Rattle.std.specs.Prelude.{◌≡◌, ◌≤◌, length};
ghost use Rattle.specification.specs.Records.{write_into};
ghost use Rattle.specification.specs.Commands.{is_command, Commanded, CommandAnswered};
ghost use Rattle.printer_call.specs.Answers.{length_of};
ghost use Rattle.telling.specs.Told.{AnswerTold};

use decide_word::decide_text;
use derivation_word::derivation_text;
use lines::words::same_bytes;
use log_words::{check_text, pack_text};
use reduce_word::reduce_text;
use refusal::Refusal;
use shorten_word::shorten_text;
use unpack_word::unpack_text;
use usage::tell_usage;
use value_word::value_text;

// Whether a word is known, so that the program reads no input for one that is not.
pub fn is_command(word: &[u8]) -> bool
    ensures { result ≡ is_command word.now }
{
    if same_bytes(word, b"reduce") {
        return true;
    }
    if same_bytes(word, b"decide") {
        return true;
    }
    if same_bytes(word, b"value") {
        return true;
    }
    if same_bytes(word, b"shorten") {
        return true;
    }
    if same_bytes(word, b"check") {
        return true;
    }
    if same_bytes(word, b"pack") {
        return true;
    }
    if same_bytes(word, b"unpack") {
        return true;
    }
    same_bytes(word, b"derivation")
}

// The answer told into bytes of our own: a position beyond their end says that there is no room for it.
fn answer(word: &[u8], s: &[u8], out: &mut [u8]) -> usize
    ensures { AnswerTold (Commanded word.now s.now) out.new result }
{
    if same_bytes(word, b"decide") {
        return decide_text(s, out);
    }
    if same_bytes(word, b"shorten") {
        return shorten_text(s, out);
    }
    if same_bytes(word, b"reduce") {
        return reduce_text(s, out);
    }
    if same_bytes(word, b"value") {
        return value_text(s, out);
    }
    if same_bytes(word, b"check") {
        return check_text(s, out);
    }
    if same_bytes(word, b"pack") {
        return pack_text(s, out);
    }
    if same_bytes(word, b"unpack") {
        return unpack_text(s, out);
    }
    if same_bytes(word, b"derivation") {
        return derivation_text(s, out);
    }
    tell_usage(out)
}

// A text written in front of the bytes lent.
fn copy_front(out: &mut [u8], text: &[u8])
    requires { length text.now ≤ length out.old }
    ensures { out.new ≡ write_into text.now out.old }
{
    out[..text.len()].copy_from_slice(text);
}

// The answer and its length. One that has more bytes than were lent, or more than 65,536, is refused, and nothing is written.
pub fn command(word: &[u8], s: &[u8], out: &mut [u8]) -> Result<usize, Refusal>
    ensures { CommandAnswered word.now s.now out.old (length_of result) out.new }
{
    let mut told = io::large_buffer();
    let n = answer(word, s, &mut told);
    if n > told.len() {
        return Err(Refusal::NoRoom);
    }
    if n > out.len() {
        return Err(Refusal::NoRoom);
    }
    copy_front(out, &told[..n]);
    Ok(n)
}
