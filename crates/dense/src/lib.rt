// Vectors by value, for the engine: up to 48 elements, of which the first n count.
#![tactic(auto)]

ghost use Rattle.std.specs.Prelude.{◌≡◌, ◌≤◌, ◌*◌, length, take, replicate};
ghost use Rattle.std.specs.Fn.{FnOnceReturnsAtMut, FnOnceTakesAtMut};
ghost use Rattle.arith.specs.Float.{f0};
ghost use Rattle.sizes.specs.Sizes.{variables};
ghost use Rattle.vector.specs.Vector as Vector;
ghost use Rattle.matrix.specs.Matrix as Matrix;

// What `write` makes of zeros.
fn written<F: FnOnce(&mut [f64])>(write: F) -> [f64; sizes::VARIABLES]
    requires { FnOnceTakesAtMut F.FnOnce write (replicate variables f0) }
    ensures { FnOnceReturnsAtMut F.FnOnce write (replicate variables f0) tt result }
{
    let mut y = [0.0; sizes::VARIABLES];
    write(&mut y);
    y
}

pub fn div(a: &[f64], b: &[f64], n: usize) -> [f64; sizes::VARIABLES]
    requires { (n ≤ variables) × (n ≤ length a.now) × (n ≤ length b.now) }
    ensures { take n result ≡ Vector.div n a.now b.now }
{
    written(|y| vector::div(a, b, n, y))
}

pub fn add(a: &[f64], b: &[f64], n: usize) -> [f64; sizes::VARIABLES]
    requires { (n ≤ variables) × (n ≤ length a.now) × (n ≤ length b.now) }
    ensures { take n result ≡ Vector.add n a.now b.now }
{
    written(|y| vector::add(a, b, n, y))
}

pub fn sub(a: &[f64], b: &[f64], n: usize) -> [f64; sizes::VARIABLES]
    requires { (n ≤ variables) × (n ≤ length a.now) × (n ≤ length b.now) }
    ensures { take n result ≡ Vector.sub n a.now b.now }
{
    written(|y| vector::sub(a, b, n, y))
}

pub fn divided(a: &[f64], n: usize, by: f64) -> [f64; sizes::VARIABLES]
    requires { (n ≤ variables) × (n ≤ length a.now) }
    ensures { take n result ≡ Vector.divided n a.now by }
{
    written(|y| vector::divided(a, n, by, y))
}

// a x and aᵀ x, with a n by m.
pub fn mul_vec(a: &[f64], n: usize, m: usize, x: &[f64]) -> [f64; sizes::VARIABLES]
    requires { (n ≤ variables) × (n * m ≤ length a.now) × (m ≤ length x.now) }
    ensures { take n result ≡ Matrix.mul_vec n m a.now x.now }
{
    written(|y| matrix::mul_vec(a, n, m, x, y))
}

pub fn tr_mul_vec(a: &[f64], n: usize, m: usize, x: &[f64]) -> [f64; sizes::VARIABLES]
    requires { (m ≤ variables) × (n * m ≤ length a.now) × (n ≤ length x.now) }
    ensures { take m result ≡ Matrix.tr_mul_vec n m a.now x.now }
{
    written(|y| matrix::tr_mul_vec(a, n, m, x, y))
}
