// The data of terms and forms.

// A vector part: nothing, one letter, or a wedge of two.
#[derive(Clone, Copy)]
pub enum Part {
    Nothing,
    Letter(u8),
    Wedge(u8, u8),
}

// A term: a coefficient, the numbers of its factors with their count, and a vector part.
// A record can name 2 + 3 + 2 factors before its letters are counted; a term in shape has at most 5.
#[derive(Clone, Copy)]
pub struct Term {
    pub coef: i64,
    pub factors: [u32; 7],
    pub factor_count: u8,
    pub part: Part,
}

// A form: a kind (0 scalar, 1 vector) and 0 to 48 terms.
#[derive(Clone, Copy)]
pub struct Form {
    pub kind: u8,
    pub count: usize,
    pub terms: [Term; 48],
}
