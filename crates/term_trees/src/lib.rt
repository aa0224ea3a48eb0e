// The tree of a term worked in lent rows, another form in m rows standing for one letter: as it is without the letter, else multiplied from the left as
// coefficient, factors in record order, vector part.
#![tactic(auto)]

ghost use Rattle.std.specs.Prelude.{◌≡◌, true, false, ◌≤◌, drop};
ghost use Rattle.specification.specs.Reduction.{work_with};
ghost use Rattle.specification.specs.Insertion.{term_tree};
ghost use Rattle.theory.specs.Reduction.Standing.{has_letter, leading_of, front_of, times_each};
ghost use Rattle.theory.specs.Shape.Terms.{kind_of_part};
ghost use Rattle.terms.specs.Abstraction.{part_of, term_of, Counted};
ghost use Rattle.terms.specs.Valid.{TermValid};
ghost use Rattle.rows.specs.Rows.{form_by, FormRun, RowsGive};
ghost use Rattle.leaves.specs.Leaves.{TermAs};
ghost use Rattle.replacing.specs.Replacing.{leaf_by, Replaces};

use leaves::alone;
use refusal::Refusal;
use replacing::occurrences::{leading, part_has};
use replacing::working::{times_factor, times_part};
use rows::Worked;
use terms::shape::part_letters;
use terms::types::{Part, Term};

// What stands in the rows times the factors of a term from the k-th on, one after the other.
fn times_factors(
    x: Worked,
    t: Term,
    k: usize,
    replaced: u8,
    m: usize,
    right: &[[u32; 8]],
    rights: &[i64],
    rows: &mut [[u32; 8]],
    coefs: &mut [i64],
) -> Result<Worked, Refusal>
    requires { TermValid t × (k ≤ t.factor_count) × Replaces m right.now rights.now rows.old coefs.old
        × FormRun x.kind x.count rows.old coefs.old }
    ensures { RowsGive (times_each (leaf_by replaced m right.now rights.now)
        (form_by x.kind x.count rows.old coefs.old) (drop k (term_of t).factors)) result rows.new coefs.new }
{
    let n = t.factor_count as usize;
    let mut w = x;
    for i in k..n {
        w = times_factor(w, t.factors[i], replaced, m, right, rights, rows, coefs)?;
    }
    Ok(w)
}

// The first k factors of a term, with its coefficient.
fn front_of(t: Term, k: usize) -> Term
    requires { Counted t × (k ≤ t.factor_count) }
    ensures { TermAs (front_of k (term_of t)) result }
{
    let factors = t.factors;
    Term {
        coef: t.coef,
        factors,
        factor_count: k as u8,
        part: Part::Nothing,
    }
}

// A term whose first k factors are without the letter: those as they are, times the others, one after the other, and the vector part.
fn work_parts(
    t: Term,
    k: usize,
    replaced: u8,
    m: usize,
    right: &[[u32; 8]],
    rights: &[i64],
    rows: &mut [[u32; 8]],
    coefs: &mut [i64],
) -> Result<Worked, Refusal>
    requires { TermValid t × (k ≡ leading_of replaced (term_of t).factors) × Replaces m right.now rights.now rows.old coefs.old }
    ensures { RowsGive (work_with (leaf_by replaced m right.now rights.now) (term_tree (term_of t))) result
        rows.new coefs.new }
{
    let x = alone(0, front_of(t, k), rows, coefs);
    let y = times_factors(x, t, k, replaced, m, right, rights, rows, coefs)?;
    times_part(y, t.part, replaced, m, right, rights, rows, coefs)
}

// The kind that a vector part gives.
fn kind_of_part(p: Part) -> u8
    ensures { result ≡ kind_of_part (part_of p) }
{
    if part_letters(p) == 0 {
        return 0;
    }
    1
}

// Whether a term whose first k factors are without the letter has it nowhere.
fn is_without(t: Term, k: usize, replaced: u8) -> bool
    ensures { result ≡ true → (k ≡ t.factor_count) × (has_letter replaced (part_of t.part) ≡ false) }
{
    if k != t.factor_count as usize {
        return false;
    }
    !part_has(t.part, replaced)
}

// A term: as it is where it is without the letter.
pub fn work_term(
    t: Term,
    replaced: u8,
    m: usize,
    right: &[[u32; 8]],
    rights: &[i64],
    rows: &mut [[u32; 8]],
    coefs: &mut [i64],
) -> Result<Worked, Refusal>
    requires { TermValid t × Replaces m right.now rights.now rows.old coefs.old }
    ensures { RowsGive (work_with (leaf_by replaced m right.now rights.now) (term_tree (term_of t))) result
        rows.new coefs.new }
{
    let k = leading(&t.factors, t.factor_count, replaced);
    if is_without(t, k, replaced) {
        return Ok(alone(kind_of_part(t.part), t, rows, coefs));
    }
    work_parts(t, k, replaced, m, right, rights, rows, coefs)
}
