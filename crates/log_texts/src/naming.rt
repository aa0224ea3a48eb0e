// A byte that has to stand, and the letters of a rule.
ghost use Rattle.std.specs.Prelude.{◌≡◌, ◌≤◌, length};
ghost use Rattle.specification.specs.LogTexts.{mark, read_letters_at};
ghost use Rattle.log_texts.specs.Letters.{MarkRead, FormulaAt, LetterRead, LettersRead};

use refusal::Refusal;
use texts::{Unread, behind, byte_at, is_letter, place_of};

// A byte that has to stand here: the position behind it.
pub fn read_mark(b: u8, line: &[u8], at: usize) -> Result<usize, Unread>
    requires { 1 ≤ b }
    ensures { MarkRead line.now (mark b line.now at) result }
{
    if byte_at(line, at) != b {
        return Err(Unread {
            why: Refusal::Torn,
            column: at,
        });
    }
    Ok(behind(line, at))
}

// `, M =`: the position of the formula behind it.
pub fn to_formula(line: &[u8], at: usize) -> Result<usize, Unread>
    ensures { FormulaAt line.now at result }
{
    let letter = read_mark(b',', line, at)?;
    let equals = read_mark(b'M', line, letter)?;
    read_mark(b'=', line, equals)
}

// The number of a name, and the position behind it.
#[derive(Clone, Copy)]
pub struct LetterStep {
    pub at: usize,
    pub letter: u8,
}

// The name that stands here.
fn one_letter(names: &[u8], line: &[u8], at: usize) -> Result<LetterStep, Unread>
    requires { length names.now ≤ 24 }
    ensures { LetterRead names.now line.now at result }
{
    let b = byte_at(line, at);
    if !is_letter(b) {
        return Err(Unread {
            why: Refusal::Torn,
            column: at,
        });
    }
    let n = place_of(names, b);
    if n >= names.len() {
        return Err(Unread {
            why: Refusal::AbsentLetter,
            column: at,
        });
    }
    let next = behind(line, at);
    Ok(LetterStep {
        at: next,
        letter: n as u8,
    })
}

// Letters, and the position behind them.
#[derive(Clone, Copy)]
pub struct Letters {
    pub at: usize,
    pub letters: [u8; 6],
}

// So many letters.
pub fn read_letters(names: &[u8], line: &[u8], at: usize, n: usize) -> Result<Letters, Unread>
    requires { (n ≤ 6) × (length names.now ≤ 24) }
    ensures { LettersRead (read_letters_at n names.now line.now at) n result }
{
    let mut letters = [0u8; 6];
    let mut next = at;
    for i in 0..n {
        let q = one_letter(names, line, next)?;
        letters[i] = q.letter;
        next = q.at;
    }
    Ok(Letters { at: next, letters })
}
