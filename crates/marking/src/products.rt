// The marks of a rule's rows times M by those of its letters, and the score of a row: what it does at least to the number of terms.
ghost use Rattle.std.specs.Prelude.{◌≡◌, true, ℕ, ◌≤◌, ◌<◌, length, get_or};
ghost use Rattle.marking.specs.Marks.{LettersMarked, places_mark, product_mark, Differing, RowStands, Scored};

use crate::marking::letter_mark;

// The marks of a rule's letters at their places, from 1.
pub fn letter_marks(letters: [u8; 6]) -> [u64; 8]
    ensures { LettersMarked letters result }
{
    let a = letter_mark(letters[0] as u32);
    let b = letter_mark(letters[1] as u32);
    let c = letter_mark(letters[2] as u32);
    let d = letter_mark(letters[3] as u32);
    let e = letter_mark(letters[4] as u32);
    let g = letter_mark(letters[5] as u32);
    [1, a, b, c, d, e, g, 1]
}

// The mark of the factor of three places, 0 where there is none.
fn places_mark(l: &[u64; 8], c: u64) -> u64
    requires { (c < 512) × (length l.now ≡ 8) × ((p : ℕ) → get_or l.now p 0 ≤ 250) }
    ensures { (result ≡ places_mark l.now c) × (result ≤ 15625000) }
{
    if c == 0 {
        return 0;
    }
    let x = (c / 64) as usize;
    let y = (c / 8 % 8) as usize;
    let z = (c % 8) as usize;
    l[x] * l[y] * l[z]
}

// The mark of a row times a term, by the marks of the term's factors and of its vector part.
pub fn product_mark(a: u64, b: u64, l: &[u64; 8], n: u64) -> usize
    requires small { (a ≤ 109375000) × (b ≤ 62500) }
    requires letters { (length l.now ≡ 8) × ((p : ℕ) → get_or l.now p 0 ≤ 250) }
    ensures { (result ≡ product_mark a b l.now n) × (result < 509) }
{
    let x = places_mark(l, n / 16777216 % 512);
    let y = places_mark(l, n / 32768 % 512);
    let z = places_mark(l, n / 64 % 512);
    let q = n % 64;
    let i = (q / 8) as usize;
    let j = (q % 8) as usize;
    let p = l[i] * l[j];
    ((a + (x + y + z) + 3 * (b * p)) % 509) as usize
}

// Whether the letters at three places surely differ, where there are three.
fn differ(l: &[u64; 8], c: u64) -> bool
    requires { (c < 512) × (length l.now ≡ 8) }
    ensures { result ≡ true → Differing l.now c }
{
    let z = (c % 8) as usize;
    if z == 0 {
        return true;
    }
    let x = (c / 64) as usize;
    let y = (c / 8 % 8) as usize;
    if l[x] == l[y] {
        return false;
    }
    if l[x] == l[z] {
        return false;
    }
    if l[y] == l[z] {
        return false;
    }
    true
}

// Whether a row surely does not vanish.
fn row_stands(l: &[u64; 8], n: u64) -> bool
    requires { length l.now ≡ 8 }
    ensures { result ≡ true → RowStands l.now n }
{
    if !differ(l, n / 16777216 % 512) {
        return false;
    }
    if !differ(l, n / 32768 % 512) {
        return false;
    }
    if !differ(l, n / 64 % 512) {
        return false;
    }
    let q = n % 64;
    let j = (q % 8) as usize;
    if j == 0 {
        return true;
    }
    let i = (q / 8) as usize;
    if l[i] == l[j] {
        return false;
    }
    true
}

// The score of a row of this mark, where no earlier row has it: 2 where it surely adds a term, 1 where it surely takes none away, 0 where it may take one away.
pub fn row_score(marks: &[u8; 512], v: u8, h: usize, l: &[u64; 8], n: u64) -> usize
    requires { (h < 509) × (length marks.now ≡ 512) × (length l.now ≡ 8) }
    ensures { Scored marks.now v h l.now n result }
{
    let w = marks[h];
    if w == 0 {
        if row_stands(l, n) {
            return 2;
        }
        return 1;
    }
    if v == 0 {
        return 0;
    }
    if w == v {
        return 0;
    }
    if w == 255 {
        return 0;
    }
    1
}
