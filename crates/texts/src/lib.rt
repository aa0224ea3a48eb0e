// The bytes of a text at a position, 0 behind it: blanks passed, letters and digits, the number of a name, numbers in decimal, three names in parentheses; names
// that fit a table.
#![tactic(auto)]

ghost use Rattle.std.specs.Prelude.{◌≡◌, ◌<◌, length, get_or};
ghost use Rattle.specification.specs.Lists.{all};
ghost use Rattle.specification.specs.Text.{is_letter, is_digit, skip, next, distinct, good_names, place_of, is_triple};
ghost use Rattle.texts.specs.Numbers.{capped, NumberRead};

use refusal::Refusal;

// Why a text is not read, and the column of that.
#[derive(Clone, Copy, Debug, PartialEq, Eq)]
pub struct Unread {
    pub why: Refusal,
    pub column: usize,
}

// The byte at a position, 0 behind the text.
pub fn byte_at(s: &[u8], at: usize) -> u8
    ensures { result ≡ get_or s.now at 0 }
{
    if at < s.len() {
        return s[at];
    }
    0
}

// Whether a byte is a letter.
pub fn is_letter(b: u8) -> bool
    ensures { result ≡ is_letter b }
{
    if b < 65 {
        return false;
    }
    if b <= 90 {
        return true;
    }
    if b < 97 {
        return false;
    }
    b <= 122
}

// Whether a byte is a digit.
pub fn is_digit(b: u8) -> bool
    ensures { result ≡ is_digit b }
{
    if b < 48 {
        return false;
    }
    b <= 57
}

// The first position from here on at which no blank stands.
pub fn past_blanks(s: &[u8], at: usize) -> usize
    ensures { result ≡ skip s.now at }
{
    for i in at..s.len() {
        if s[i] != 32 {
            return i;
        }
    }
    at.max(s.len())
}

// The position behind a token of one byte.
pub fn behind(s: &[u8], at: usize) -> usize
    requires { at < length s.now }
    ensures { result ≡ next s.now at }
{
    past_blanks(s, at + 1)
}

// The number of a name; how many there are where it is not declared.
pub fn place_of(names: &[u8], b: u8) -> usize
    ensures { result ≡ place_of names.now b }
{
    for i in 0..names.len() {
        if names[i] == b {
            return i;
        }
    }
    names.len()
}

// Whether all bytes are letters.
fn all_letters(names: &[u8]) -> bool
    ensures { result ≡ all is_letter names.now }
{
    for &b in names {
        if !is_letter(b) {
            return false;
        }
    }
    true
}

// Whether no name stands twice: none is found behind itself.
fn none_twice(names: &[u8]) -> bool
    ensures { result ≡ distinct names.now }
{
    for i in 0..names.len() {
        let rest = &names[i + 1..];
        if place_of(rest, names[i]) < rest.len() {
            return false;
        }
    }
    true
}

// Whether names fit a table: as many as it has letters, each a letter, none twice.
pub fn good_names(names: &[u8], table: &[u8]) -> bool
    ensures { result ≡ good_names names.now table.now }
{
    if names.len() != table.len() {
        return false;
    }
    if !all_letters(names) {
        return false;
    }
    none_twice(names)
}

// Whether three names and a closing parenthesis stand here.
pub fn is_triple(s: &[u8], at: usize) -> bool
    ensures { result ≡ is_triple s.now at }
{
    if !is_letter(byte_at(s, at)) {
        return false;
    }
    let second = behind(s, at);
    if !is_letter(byte_at(s, second)) {
        return false;
    }
    let third = behind(s, second);
    if !is_letter(byte_at(s, third)) {
        return false;
    }
    byte_at(s, behind(s, third)) == 41
}

// A number that no constant may have stands for all of them.
fn cap(n: u64) -> u64
    ensures { result ≡ capped n }
{
    if n <= 2147483647 {
        return n;
    }
    2147483648
}

// A number in decimal, capped, and the position behind it.
#[derive(Clone, Copy)]
pub struct Number {
    pub value: u64,
    pub next: usize,
}

// The number that begins here.
pub fn read_digits(s: &[u8], at: usize) -> Number
    ensures { NumberRead s.now at result }
{
    let mut n: u64 = 0;
    for i in at..s.len() {
        let b = s[i];
        if !is_digit(b) {
            return Number { value: n, next: i };
        }
        n = cap(n * 10 + (b - 48) as u64);
    }
    Number {
        value: n,
        next: at.max(s.len()),
    }
}
