// The Cholesky factor of a matrix, in document 01's order of sums, and the test of its pivots. An n by n matrix is read in its lower triangle only.
#![tactic(auto)]

ghost use Rattle.std.specs.Prelude.{◌≡◌, ◌≤◌, ◌<◌, ◌*◌, length};
ghost use Rattle.folds.specs.Fold.{out};
ghost use Rattle.cholesky.specs.Cholesky as Cholesky;

// The pivot below which a factor counts as singular.
pub const PIVOT_FLOOR: f64 = 1.0 / 67_108_864.0;

// The sum of the first j terms of row i times row j.
fn rows_dot(a: &[f64], n: usize, i: usize, j: usize) -> f64
    requires { (n * n ≤ length a.now) × (i < n) × (j < n) }
    ensures { result ≡ Cholesky.rows_dot j a.now n i j }
{
    let mut s = 0.0;
    // By index: two rows of one matrix, whose entries lie a column apart.
    for t in 0..j {
        s = s + columns::get(a, n, n, i, t) * columns::get(a, n, n, j, t);
    }
    s
}

fn under_root(a: &[f64], n: usize, j: usize) -> f64
    requires { (n * n ≤ length a.now) × (j < n) }
    ensures { result ≡ Cholesky.under_root n j a.now }
{
    columns::get(a, n, n, j, j) - rows_dot(a, n, j, j)
}

fn factor_below(a: &mut [f64], n: usize, j: usize, r: f64)
    requires { (n * n ≤ length a.old) × (j < n) }
    ensures { a.new ≡ Cholesky.factor_below n j r a.old }
{
    columns::put(a, n, n, j, j, r);
    // By index: an entry is made of two rows, which no slice holds.
    for i in j + 1..n {
        let k = rows_dot(&a[..], n, i, j);
        let v = columns::get(&a[..], n, n, i, j);
        columns::put(a, n, n, i, j, (v - k) / r);
    }
}

fn factor_column(a: &mut [f64], n: usize, j: usize) -> bool
    requires { (n * n ≤ length a.old) × (j < n) }
    ensures { out result a.new ≡ Cholesky.factor_column n j a.old }
{
    let d = under_root(&a[..], n, j);
    if d > 0.0 {
        let r = root::sqrt(d);
        factor_below(a, n, j, r);
        return true;
    }
    false
}

// Cholesky::new: whether a has a factor, which takes its place.
pub fn cholesky(a: &mut [f64], n: usize) -> bool
    requires { n * n ≤ length a.old }
    ensures { out result a.new ≡ Cholesky.cholesky n a.old }
{
    // By the column's number: each is made of the columns before it.
    for j in 0..n {
        if !factor_column(a, n, j) {
            return false;
        }
    }
    true
}

pub fn positive_definite(l: &[f64], n: usize) -> bool
    requires { n * n ≤ length l.now }
    ensures { result ≡ Cholesky.positive_definite l.now n }
{
    // By index: the diagonal of a matrix, which no slice holds.
    for i in 0..n {
        let p = columns::get(l, n, n, i, i);
        if !(p * p >= PIVOT_FLOOR) {
            return false;
        }
    }
    true
}
