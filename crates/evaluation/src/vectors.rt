// Vectors of three signed numbers: sums, multiples, dots, wedges and triples.
ghost use Rattle.std.specs.Prelude.{◌≡◌, ◌*◌, ◌^◌, ◌≤◌, nat_abs, ◌-ℤ◌, ◌*ℤ◌};
ghost use Rattle.specification.specs.Values as S;
ghost use Rattle.specification.specs.Values.{◌+v◌, ◌•◌};
ghost use Rattle.evaluation.specs.Vectors.{vec_of, Within};

use integers::{add, mul, sub};

// Three components.
#[derive(Clone, Copy)]
pub struct Vector {
    pub x: i64,
    pub y: i64,
    pub z: i64,
}

// The sum.
pub fn plus(a: Vector, b: Vector) -> Vector
    requires { Within (2 ^ 57) (vec_of a) × Within (47 * 2 ^ 57) (vec_of b) }
    ensures { vec_of result ≡ vec_of a +v vec_of b }
{
    let x = add(a.x, b.x);
    let y = add(a.y, b.y);
    let z = add(a.z, b.z);
    Vector { x, y, z }
}

// A number times a vector.
pub fn times(k: i64, a: Vector) -> Vector
    requires { Within (2 ^ 57) (k • vec_of a) }
    ensures { vec_of result ≡ k • vec_of a }
{
    let x = mul(k, a.x);
    let y = mul(k, a.y);
    let z = mul(k, a.z);
    Vector { x, y, z }
}

// A dot.
pub fn dot(a: Vector, b: Vector) -> i64
    requires { Within 72 (vec_of a) × Within 6 (vec_of b) }
    ensures { result ≡ S.dot (vec_of a) (vec_of b) }
{
    let x = mul(a.x, b.x);
    let y = mul(a.y, b.y);
    let z = mul(a.z, b.z);
    add(add(x, y), z)
}

// A difference of two products.
fn cross(a: i64, b: i64, c: i64, d: i64) -> i64
    requires { (nat_abs a ≤ 6) × (nat_abs b ≤ 6) × (nat_abs c ≤ 6) × (nat_abs d ≤ 6) }
    ensures { result ≡ a *ℤ b -ℤ c *ℤ d }
{
    sub(mul(a, b), mul(c, d))
}

// A wedge.
pub fn wedge(a: Vector, b: Vector) -> Vector
    requires { Within 6 (vec_of a) × Within 6 (vec_of b) }
    ensures { vec_of result ≡ S.wedge (vec_of a) (vec_of b) }
{
    let x = cross(a.y, b.z, a.z, b.y);
    let y = cross(a.z, b.x, a.x, b.z);
    let z = cross(a.x, b.y, a.y, b.x);
    Vector { x, y, z }
}

// A triple.
pub fn triple(a: Vector, b: Vector, c: Vector) -> i64
    requires { Within 6 (vec_of a) × Within 6 (vec_of b) × Within 6 (vec_of c) }
    ensures { result ≡ S.triple (vec_of a) (vec_of b) (vec_of c) }
{
    dot(wedge(a, b), c)
}
