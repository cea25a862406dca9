// eigen.rs, `rotate`: the Jacobi rotation, A ← JᵀAJ and V ← VJ, of n by n matrices.
#![tactic(auto)]

ghost use Rattle.std.specs.Prelude.{◌≡◌, ◌≤◌, ◌<◌, ◌*◌, length};
ghost use Rattle.folds.specs.Part.{two};
ghost use Rattle.rotation.specs.Rotation as Rotation;

use angle::Turn;

// The entries x at row i, column j and y at row k, column l become c x - s y and s x + c y.
fn turn_pair(a: &mut [f64], n: usize, i: usize, j: usize, k: usize, l: usize, t: Turn)
    requires { (n * n ≤ length a.old) × (i < n) × (j < n) × (k < n) × (l < n) }
    ensures { a.new ≡ Rotation.turn_pair n i j k l t a.old }
{
    let x = columns::get(&a[..], n, n, i, j);
    let y = columns::get(&a[..], n, n, k, l);
    columns::put(a, n, n, i, j, t.c * x - t.s * y);
    columns::put(a, n, n, k, l, t.s * x + t.c * y);
}

fn turn_columns(a: &mut [f64], n: usize, p: usize, q: usize, t: Turn)
    requires { (n * n ≤ length a.old) × (p < n) × (q < n) }
    ensures { a.new ≡ Rotation.turn_columns n p q t a.old }
{
    // By index: two rows or columns of one matrix are written together.
    for k in 0..n {
        turn_pair(a, n, k, p, k, q, t);
    }
}

fn turn_rows(a: &mut [f64], n: usize, p: usize, q: usize, t: Turn)
    requires { (n * n ≤ length a.old) × (p < n) × (q < n) }
    ensures { a.new ≡ Rotation.turn_rows n p q t a.old }
{
    // By index: two rows or columns of one matrix are written together.
    for k in 0..n {
        turn_pair(a, n, p, k, q, k, t);
    }
}

fn turned(a: &mut [f64], n: usize, p: usize, q: usize, t: Turn)
    requires { (n * n ≤ length a.old) × (p < n) × (q < n) }
    ensures { a.new ≡ Rotation.turned n p q t a.old }
{
    turn_columns(a, n, p, q, t);
    turn_rows(a, n, p, q, t);
    columns::put(a, n, n, p, q, 0.0);
    columns::put(a, n, n, q, p, 0.0);
}

// Applies the Jacobi rotation that zeroes a's entry p, q: A ← JᵀAJ and V ← VJ.
pub fn rotate(a: &mut [f64], v: &mut [f64], n: usize, p: usize, q: usize)
    requires { (n * n ≤ length a.old) × (n * n ≤ length v.old) × (p < n) × (q < n) }
    ensures { two a.new v.new ≡ Rotation.rotate n p q (two a.old v.old) }
{
    if columns::get(&a[..], n, n, p, q) == 0.0 {
        return;
    }
    let t = angle::angle(&a[..], n, p, q);
    turned(a, n, p, q, t);
    turn_columns(v, n, p, q, t);
}
