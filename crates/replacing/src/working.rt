// Letters, factors and vector parts worked in lent rows, another form in m rows standing for one letter, and what stands in the rows multiplied by them.
// A factor without the letter is taken as it is.
ghost use Rattle.std.specs.Prelude.{Ok, ◌≡◌, ◌≤◌, ◌<◌, T, length};
ghost use Rattle.specification.specs.Results.{Result, given};
ghost use Rattle.specification.specs.Terms as S;
ghost use Rattle.specification.specs.Terms.{factor_in_shape};
ghost use Rattle.specification.specs.Reduction.{dot_forms, wedge_forms, triple_forms, work_with};
ghost use Rattle.specification.specs.Insertion.{factor_tree};
ghost use Rattle.theory.specs.Reduction.Standing.{part_with, times_part_with};
ghost use Rattle.terms.specs.Numbers.{letters_of};
ghost use Rattle.terms.specs.Abstraction.{part_of};
ghost use Rattle.rows.specs.Rows.{form_by, FormRun, RowsGive};
ghost use Rattle.replacing.specs.Replacing.{leaf_by, Replaces, times_result, times_factor};

use crate::occurrences::factor_has;
use leaves::{alone, bare, only_factor};
use operators::products::{dot, times, triple, wedge};
use refusal::Refusal;
use rows::{Worked, copy};
use terms::factors::{Factor, letters_of};
use terms::shape::part_letters;
use terms::types::Part;

// ════ letters, factors and vector parts

// A vector letter: the form that stands for it, or the letter itself.
fn leaf(
    x: u8,
    replaced: u8,
    m: usize,
    right: &[[u32; 8]],
    rights: &[i64],
    rows: &mut [[u32; 8]],
    coefs: &mut [i64],
) -> Worked
    requires { Replaces m right.now rights.now rows.old coefs.old }
    ensures { RowsGive (given (leaf_by replaced m right.now rights.now x 1)) (Ok result) rows.new coefs.new }
{
    if x != replaced {
        return alone(1, bare(1, Part::Letter(x)), rows, coefs);
    }
    copy(m, right, rights, rows, coefs);
    Worked { kind: 1, count: m }
}

// The dot of two letters.
fn work_dot(
    x: u8,
    y: u8,
    replaced: u8,
    m: usize,
    right: &[[u32; 8]],
    rights: &[i64],
    rows: &mut [[u32; 8]],
    coefs: &mut [i64],
) -> Result<Worked, Refusal>
    requires { Replaces m right.now rights.now rows.old coefs.old }
    ensures { RowsGive (dot_forms (leaf_by replaced m right.now rights.now x 1)
        (leaf_by replaced m right.now rights.now y 1)) result rows.new coefs.new }
{
    let e = [0u32; 8];
    let mut second = [e; 48];
    let mut seconds = [0i64; 48];
    let a = leaf(x, replaced, m, right, rights, rows, coefs);
    let b = leaf(y, replaced, m, right, rights, &mut second, &mut seconds);
    dot(
        a.kind, a.count, rows, coefs, b.kind, b.count, &second, &seconds,
    )
}

// The wedge of two letters.
fn work_wedge(
    x: u8,
    y: u8,
    replaced: u8,
    m: usize,
    right: &[[u32; 8]],
    rights: &[i64],
    rows: &mut [[u32; 8]],
    coefs: &mut [i64],
) -> Result<Worked, Refusal>
    requires { Replaces m right.now rights.now rows.old coefs.old }
    ensures { RowsGive (wedge_forms (leaf_by replaced m right.now rights.now x 1)
        (leaf_by replaced m right.now rights.now y 1)) result rows.new coefs.new }
{
    let e = [0u32; 8];
    let mut second = [e; 48];
    let mut seconds = [0i64; 48];
    let a = leaf(x, replaced, m, right, rights, rows, coefs);
    let b = leaf(y, replaced, m, right, rights, &mut second, &mut seconds);
    wedge(
        a.kind, a.count, rows, coefs, b.kind, b.count, &second, &seconds,
    )
}

// The triple of three letters.
fn work_triple(
    x: u8,
    y: u8,
    z: u8,
    replaced: u8,
    m: usize,
    right: &[[u32; 8]],
    rights: &[i64],
    rows: &mut [[u32; 8]],
    coefs: &mut [i64],
) -> Result<Worked, Refusal>
    requires { Replaces m right.now rights.now rows.old coefs.old }
    ensures { RowsGive (triple_forms (leaf_by replaced m right.now rights.now x 1)
        (leaf_by replaced m right.now rights.now y 1) (leaf_by replaced m right.now rights.now z 1)) result
        rows.new coefs.new }
{
    let e = [0u32; 8];
    let mut second = [e; 48];
    let mut seconds = [0i64; 48];
    let mut third = [e; 48];
    let mut thirds = [0i64; 48];
    let a = leaf(x, replaced, m, right, rights, rows, coefs);
    let b = leaf(y, replaced, m, right, rights, &mut second, &mut seconds);
    let d = leaf(z, replaced, m, right, rights, &mut third, &mut thirds);
    triple(
        a.kind, a.count, rows, coefs, b.kind, b.count, &second, &seconds, d.kind, d.count, &third,
        &thirds,
    )
}

// A factor: as it is where it is without the letter.
fn work_factor(
    k: u32,
    replaced: u8,
    m: usize,
    right: &[[u32; 8]],
    rights: &[i64],
    rows: &mut [[u32; 8]],
    coefs: &mut [i64],
) -> Result<Worked, Refusal>
    requires { (k < 16843008) × T (factor_in_shape (letters_of k)) × Replaces m right.now rights.now rows.old coefs.old }
    ensures { RowsGive (work_with (leaf_by replaced m right.now rights.now) (factor_tree (letters_of k))) result
        rows.new coefs.new }
{
    if !factor_has(k, replaced) {
        return Ok(alone(0, only_factor(k), rows, coefs));
    }
    match letters_of(k) {
        Factor::Scalar(_) => Ok(alone(0, only_factor(k), rows, coefs)),
        Factor::Dot(x, y) => work_dot(x, y, replaced, m, right, rights, rows, coefs),
        Factor::Triple(x, y, z) => work_triple(x, y, z, replaced, m, right, rights, rows, coefs),
    }
}

// A vector part; the empty scalar form where there is none.
fn work_part(
    p: Part,
    replaced: u8,
    m: usize,
    right: &[[u32; 8]],
    rights: &[i64],
    rows: &mut [[u32; 8]],
    coefs: &mut [i64],
) -> Result<Worked, Refusal>
    requires { Replaces m right.now rights.now rows.old coefs.old }
    ensures { RowsGive (part_with (leaf_by replaced m right.now rights.now) (part_of p)) result rows.new coefs.new }
{
    match p {
        Part::Nothing => Ok(Worked { kind: 0, count: 0 }),
        Part::Letter(x) => Ok(leaf(x, replaced, m, right, rights, rows, coefs)),
        Part::Wedge(x, y) => work_wedge(x, y, replaced, m, right, rights, rows, coefs),
    }
}

// ════ products

// What stands in the rows times a factor.
pub fn times_factor(
    x: Worked,
    k: u32,
    replaced: u8,
    m: usize,
    right: &[[u32; 8]],
    rights: &[i64],
    rows: &mut [[u32; 8]],
    coefs: &mut [i64],
) -> Result<Worked, Refusal>
    requires { (k < 16843008) × T (factor_in_shape (letters_of k)) × Replaces m right.now rights.now rows.old coefs.old
        × FormRun x.kind x.count rows.old coefs.old }
    ensures { RowsGive (times_factor (leaf_by replaced m right.now rights.now)
        (form_by x.kind x.count rows.old coefs.old) (letters_of k)) result rows.new coefs.new }
{
    let e = [0u32; 8];
    let mut more = [e; 48];
    let mut beside = [0i64; 48];
    let y = work_factor(k, replaced, m, right, rights, &mut more, &mut beside)?;
    times(
        x.kind, x.count, rows, coefs, y.kind, y.count, &more, &beside,
    )
}

// What stands in the rows times a vector part, where there is one.
pub fn times_part(
    x: Worked,
    p: Part,
    replaced: u8,
    m: usize,
    right: &[[u32; 8]],
    rights: &[i64],
    rows: &mut [[u32; 8]],
    coefs: &mut [i64],
) -> Result<Worked, Refusal>
    requires { Replaces m right.now rights.now rows.old coefs.old × FormRun x.kind x.count rows.old coefs.old }
    ensures { RowsGive (times_part_with (leaf_by replaced m right.now rights.now)
        (form_by x.kind x.count rows.old coefs.old) (part_of p)) result rows.new coefs.new }
{
    if part_letters(p) == 0 {
        return Ok(x);
    }
    let e = [0u32; 8];
    let mut more = [e; 48];
    let mut beside = [0i64; 48];
    let y = work_part(p, replaced, m, right, rights, &mut more, &mut beside)?;
    times(
        x.kind, x.count, rows, coefs, y.kind, y.count, &more, &beside,
    )
}
