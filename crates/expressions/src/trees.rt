// Trees: read in prefix order, operands left to right, and worked on the way in lent rows. What reading refuses comes before what working refuses.
ghost use Rattle.std.specs.Prelude.{◌≡◌, List, ℕ, ◌≤◌, ◌<◌, true, length, get_or, Ok, IfOk};
ghost use Rattle.specification.specs.Expressions.{read_tree};
ghost use Rattle.rows.specs.Rows.{Light, form_by, FormRun, RowsGive};
ghost use Rattle.expressions.specs.Trees.{operand_count, binary, on_one, on_two, on_three, worked_of, Sound, LeafAt, read_leaf, ReadAs, LeafSecond, WithSecond, WithThird};

use crate::tokens::{operands, test_head};
use integers::four_bytes_at;
use leaves::{constant, letter};
use letters::kind_of;
use operators::products::{dot, times, triple, wedge};
use refusal::Refusal;
use rows::Worked;
use sums::adding::{difference, negate, sum};

// A tree that was read: the position behind it, and what working gave.
#[derive(Clone, Copy)]
pub struct Tree {
    pub next: usize,
    pub work: Result<Worked, Refusal>,
}

// The operator of a token with two operands, on two forms.
fn operate(
    token: u8,
    x: Worked,
    rows: &mut [[u32; 8]],
    coefs: &mut [i64],
    y: Worked,
    right: &[[u32; 8]],
    rights: &mut [i64],
) -> Result<Worked, Refusal>
    requires { FormRun x.kind x.count rows.old coefs.old × FormRun y.kind y.count right.now rights.old × (48 ≤ length rows.old)
        × (48 ≤ length coefs.old) }
    ensures { RowsGive (binary token (form_by x.kind x.count rows.old coefs.old)
        (form_by y.kind y.count right.now rights.old)) result rows.new coefs.new }
{
    match token {
        3 => sum(x.kind, x.count, rows, coefs, y.kind, y.count, right, rights),
        4 => difference(x.kind, x.count, rows, coefs, y.kind, y.count, right, rights),
        6 => times(x.kind, x.count, rows, coefs, y.kind, y.count, right, rights),
        7 => dot(x.kind, x.count, rows, coefs, y.kind, y.count, right, rights),
        8 => wedge(x.kind, x.count, rows, coefs, y.kind, y.count, right, rights),
        0..=2 | 5 | 9..=255 => Err(Refusal::Torn),
    }
}

// One operand: its refusal, or its form with the signs turned.
fn apply_one(x: Result<Worked, Refusal>, coefs: &mut [i64]) -> Result<Worked, Refusal>
    requires { IfOk x (λ w. (w.count ≤ length coefs.old) × Light 2147483647 w.count coefs.old) }
    ensures { (rows : List (List ℕ)) → Sound x rows coefs.old
        → RowsGive (on_one (worked_of x rows coefs.old)) result rows coefs.new }
{
    let w = x?;
    negate(coefs, w.count);
    Ok(w)
}

// Two operands: the left refusal, the right one, or the operator.
fn apply_two(
    token: u8,
    x: Result<Worked, Refusal>,
    rows: &mut [[u32; 8]],
    coefs: &mut [i64],
    y: Result<Worked, Refusal>,
    right: &[[u32; 8]],
    rights: &mut [i64],
) -> Result<Worked, Refusal>
    requires { Sound x rows.old coefs.old × Sound y right.now rights.old × (48 ≤ length rows.old) × (48 ≤ length coefs.old) }
    ensures { RowsGive (on_two token (worked_of x rows.old coefs.old) (worked_of y right.now rights.old)) result
        rows.new coefs.new }
{
    let f = x?;
    let g = y?;
    operate(token, f, rows, coefs, g, right, rights)
}

// Three operands: the first refusal, or their triple.
fn apply_three(
    x: Result<Worked, Refusal>,
    rows: &mut [[u32; 8]],
    coefs: &mut [i64],
    y: Result<Worked, Refusal>,
    right: &[[u32; 8]],
    rights: &[i64],
    z: Result<Worked, Refusal>,
    third: &[[u32; 8]],
    thirds: &[i64],
) -> Result<Worked, Refusal>
    requires { Sound x rows.old coefs.old × Sound y right.now rights.now × Sound z third.now thirds.now × (48 ≤ length rows.old)
        × (48 ≤ length coefs.old) }
    ensures { RowsGive (on_three (worked_of x rows.old coefs.old) (worked_of y right.now rights.now)
        (worked_of z third.now thirds.now)) result rows.new coefs.new }
{
    let f = x?;
    let g = y?;
    let h = z?;
    triple(
        f.kind, f.count, rows, coefs, g.kind, g.count, right, rights, h.kind, h.count, third,
        thirds,
    )
}

// A letter or a constant, whole with its bytes.
fn leaf(table: &[u8], s: &[u8], at: usize, rows: &mut [[u32; 8]], coefs: &mut [i64]) -> Tree
    requires { LeafAt table.now s.now at × (1 ≤ length rows.old) × (1 ≤ length coefs.old) }
    ensures { ReadAs (read_leaf table.now s.now at) (Ok result) rows.new coefs.new }
{
    let token = s[at];
    if token == 1 {
        let n = s[at + 1];
        let k = kind_of(table, n as usize);
        let w = letter(n, k, rows, coefs);
        return Tree {
            next: at + 2,
            work: Ok(w),
        };
    }
    let work = constant(four_bytes_at(s, at + 1), rows, coefs);
    Tree { next: at + 5, work }
}

// Whether a token has two operands and the second, at a position, is a leaf; bytes that are missing are refused as one.
fn ends_in_leaf(k: u8, s: &[u8], at: usize) -> bool
    ensures { result ≡ true → (k ≡ 2) × (operand_count (get_or s.now at 0) ≡ 0) }
{
    if k != 2 {
        return false;
    }
    if at >= s.len() {
        return true;
    }
    operands(s[at]) == 0
}

// The leaf at a position, with so much depth left.
fn read_leaf(
    table: &[u8],
    s: &[u8],
    at: usize,
    depth: usize,
    rows: &mut [[u32; 8]],
    coefs: &mut [i64],
) -> Result<Tree, Refusal>
    requires { (operand_count (get_or s.now at 0) ≡ 0) × (1 ≤ length rows.old) × (1 ≤ length coefs.old) }
    ensures { ReadAs (read_tree depth table.now s.now at) result rows.new coefs.new }
{
    test_head(table, s, at, depth)?;
    Ok(leaf(table, s, at, rows, coefs))
}

// The operator of a token with two operands of which the second is a leaf: it needs no more than one row of its own.
fn with_leaf(
    table: &[u8],
    s: &[u8],
    depth: usize,
    token: u8,
    a: Tree,
    rows: &mut [[u32; 8]],
    coefs: &mut [i64],
) -> Result<Tree, Refusal>
    requires { (operand_count (get_or s.now a.next 0) ≡ 0) × Sound a.work rows.old coefs.old × (48 ≤ length rows.old) × (48 ≤ length coefs.old) }
    ensures { LeafSecond depth table.now s.now token a rows.old coefs.old result rows.new coefs.new }
{
    let e = [0u32; 8];
    let mut right = [e; 1];
    let mut rights = [0i64; 1];
    let b = read_leaf(table, s, a.next, depth, &mut right, &mut rights)?;
    let work = apply_two(token, a.work, rows, coefs, b.work, &right, &mut rights);
    Ok(Tree { next: b.next, work })
}

// The tree at a position, with so much depth left: its own tests, then its operands, each a tree again; only the first one is worked in the lent rows.
#[cycle(read_tree_with_second_with_third)]
pub fn read_tree(
    table: &[u8],
    s: &[u8],
    at: usize,
    depth: usize,
    rows: &mut [[u32; 8]],
    coefs: &mut [i64],
) -> Result<Tree, Refusal>
    requires { (48 ≤ length rows.old) × (48 ≤ length coefs.old) }
    ensures { ReadAs (read_tree depth table.now s.now at) result rows.new coefs.new }
{
    test_head(table, s, at, depth)?;
    let token = s[at];
    let k = operands(token);
    if k == 0 {
        return Ok(leaf(table, s, at, rows, coefs));
    }
    let a = read_tree(table, s, at + 1, depth - 1, rows, coefs)?;
    if k == 1 {
        let work = apply_one(a.work, coefs);
        return Ok(Tree { next: a.next, work });
    }
    if ends_in_leaf(k, s, a.next) {
        return with_leaf(table, s, depth - 1, token, a, rows, coefs);
    }
    with_second(table, s, depth, token, k, a, rows, coefs)
}

// The operands behind the first of a tree that has two or three, in rows of their own, and the operator worked on all. They stand here, so that reading a leaf
// clears no rows.
#[cycle(read_tree_with_second_with_third)]
fn with_second(
    table: &[u8],
    s: &[u8],
    depth: usize,
    token: u8,
    k: u8,
    a: Tree,
    rows: &mut [[u32; 8]],
    coefs: &mut [i64],
) -> Result<Tree, Refusal>
    requires { (1 ≤ depth) × (1 < k) × Sound a.work rows.old coefs.old × (48 ≤ length rows.old) × (48 ≤ length coefs.old) }
    ensures { WithSecond depth table.now s.now token k a rows.old coefs.old result rows.new coefs.new }
{
    let e = [0u32; 8];
    let mut right = [e; 48];
    let mut rights = [0i64; 48];
    let b = read_tree(table, s, a.next, depth - 1, &mut right, &mut rights)?;
    if k == 2 {
        let work = apply_two(token, a.work, rows, coefs, b.work, &right, &mut rights);
        return Ok(Tree { next: b.next, work });
    }
    with_third(table, s, depth, a, rows, coefs, b, &right, &rights)
}

// The third operand of a tree of which two were read, and the operator worked on all.
#[cycle(read_tree_with_second_with_third)]
fn with_third(
    table: &[u8],
    s: &[u8],
    depth: usize,
    a: Tree,
    rows: &mut [[u32; 8]],
    coefs: &mut [i64],
    b: Tree,
    right: &[[u32; 8]],
    rights: &[i64],
) -> Result<Tree, Refusal>
    requires { (1 ≤ depth) × Sound a.work rows.old coefs.old × Sound b.work right.now rights.now × (48 ≤ length rows.old) × (48 ≤ length coefs.old) }
    ensures { WithThird depth table.now s.now a rows.old coefs.old b right.now rights.now result rows.new coefs.new }
{
    let e = [0u32; 8];
    let mut third = [e; 48];
    let mut thirds = [0i64; 48];
    let d = read_tree(table, s, b.next, depth - 1, &mut third, &mut thirds)?;
    let work = apply_three(
        a.work, rows, coefs, b.work, right, rights, d.work, &third, &thirds,
    );
    Ok(Tree { next: d.next, work })
}
