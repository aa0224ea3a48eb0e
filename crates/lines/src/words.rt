// Words in a line.
ghost use Rattle.std.specs.Prelude.{◌≡◌, ◌≤◌, ◌+◌, length};
ghost use Rattle.specification.specs.Lines.{same_bytes, is_word_at};
ghost use Rattle.lines.specs.Words.{stands_at};

// Whether bytes stand at a position.
fn stands_at(word: &[u8], line: &[u8], at: usize) -> bool
    requires { at + length word.now ≤ length line.now }
    ensures { result ≡ stands_at word.now line.now at }
{
    for i in 0..word.len() {
        if line[at + i] != word[i] {
            return false;
        }
    }
    true
}

// Whether a word stands at a position, and a blank or nothing behind it.
pub fn is_word_at(word: &[u8], line: &[u8], at: usize) -> bool
    requires { 1 ≤ length word.now }
    ensures { result ≡ is_word_at word.now line.now at }
{
    let n = line.len();
    if at > n {
        return false;
    }
    let m = word.len();
    if n - at < m {
        return false;
    }
    if !stands_at(word, line, at) {
        return false;
    }
    let end = at + m;
    if end >= n {
        return true;
    }
    line[end] == b' '
}

// Whether two are the same bytes.
pub fn same_bytes(a: &[u8], b: &[u8]) -> bool
    ensures { result ≡ same_bytes a.now b.now }
{
    if a.len() != b.len() {
        return false;
    }
    stands_at(b, a, 0)
}
