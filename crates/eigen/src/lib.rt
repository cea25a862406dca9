// eigen.rs: the symmetric eigendecomposition by the cyclic Jacobi method.
#![tactic(auto)]

ghost use Rattle.std.specs.Prelude.{◌≡◌, ◌≤◌, ◌<◌, ◌*◌, length};
ghost use Rattle.folds.specs.Fold.{out, over};
ghost use Rattle.folds.specs.Part.{two};
ghost use Rattle.matrix.specs.Matrix as Matrix;
ghost use Rattle.eigen.specs.Eigen as Eigen;
ghost use Rattle.eigen.specs.Products.{Finite};

// Sweeps allowed before giving up.
const MAX_SWEEPS: usize = 100;

fn sweep_row(a: &mut [f64], v: &mut [f64], n: usize, p: usize)
    requires { (n * n ≤ length a.old) × (n * n ≤ length v.old) × (p < n) }
    ensures { two a.new v.new ≡ Eigen.sweep_row n p (two a.old v.old) }
{
    // By index: p and q number rows and columns at once.
    for q in p + 1..n {
        rotation::rotate(a, v, n, p, q);
    }
}

fn sweep(a: &mut [f64], v: &mut [f64], n: usize)
    requires { (n * n ≤ length a.old) × (n * n ≤ length v.old) }
    ensures { two a.new v.new ≡ Eigen.sweep n (two a.old v.old) }
{
    // By index: p numbers a row and a column at once.
    for p in 0..n {
        sweep_row(a, v, n, p);
    }
}

fn off_row(a: &[f64], n: usize, p: usize, sum: f64) -> f64
    requires { (n * n ≤ length a.now) × (p < n) }
    ensures { result ≡ Eigen.off_row n a.now p sum }
{
    let mut s = sum;
    // By index: p and q number rows and columns at once.
    for q in p + 1..n {
        let apq = columns::get(a, n, n, p, q);
        s = s + apq * apq;
    }
    s
}

fn off_diagonal(a: &[f64], n: usize) -> f64
    requires { n * n ≤ length a.now }
    ensures { result ≡ Eigen.off_diagonal n a.now }
{
    let mut s = 0.0;
    // By index: p numbers a row and a column at once.
    for p in 0..n {
        s = off_row(a, n, p, s);
    }
    s
}

// Sweeps until the off-diagonal part is below rounding of the whole: false if it is NaN or the sweeps run out.
fn sweeps(a: &mut [f64], v: &mut [f64], n: usize, tolerance: f64) -> bool
    requires { (n * n ≤ length a.old) × (n * n ≤ length v.old) }
    ensures { out result (two a.new v.new) ≡ Eigen.sweeps n tolerance (two a.old v.old) }
{
    for _ in 0..MAX_SWEEPS {
        let off = off_diagonal(&a[..], n);
        if arith::is_nan(off) {
            return false;
        }
        if root::sqrt(2.0 * off) <= tolerance {
            return true;
        }
        sweep(a, v, n);
    }
    false
}

fn mean(r: &[f64], n: usize, i: usize, j: usize) -> f64
    requires { (n * n ≤ length r.now) × (i < n) × (j < n) }
    ensures { result ≡ Eigen.mean n r.now i j }
{
    (columns::get(r, n, n, i, j) + columns::get(r, n, n, j, i)) * 0.5
}

// a = (r + rᵀ) / 2.
fn symmetric(r: &[f64], n: usize, a: &mut [f64])
    requires { (n * n ≤ length r.now) × (n * n ≤ length a.old) }
    ensures { a.new ≡ over (Eigen.symmetric n r.now) a.old }
{
    columns::write_entries(a, n, n, |i, j, _| mean(r, n, i, j));
}

// a becomes what the sweeps start from, v the identity. r = VᵀAV over the scale: with V the identity and finite quotients
// these products are the quotients + 0.
fn start(a: &mut [f64], n: usize, scale: f64, r: &mut [f64], v: &mut [f64])
    requires { (length a.old ≡ n * n) × (length r.old ≡ n * n) × (length v.old ≡ n * n) × Finite n a.old scale }
    ensures { (a.new ≡ Eigen.start n a.old scale) × (v.new ≡ Matrix.identity n) }
{
    let count = a.len();
    vector::divide(a, count, scale);
    vector::add_scalar(&a[..], count, 0.0, r);
    matrix::identity(v, n);
    symmetric(&r[..], n, a);
}

fn eigenvalues(a: &[f64], n: usize, scale: f64, values: &mut [f64])
    requires { (n * n ≤ length a.now) × (n ≤ length values.old) }
    ensures { values.new ≡ over (Eigen.values n a.now scale) values.old }
{
    vector::write_each(values, n, |i, _| columns::get(a, n, n, i, i) * scale);
}

fn jacobi(
    a: &mut [f64],
    n: usize,
    scale: f64,
    r: &mut [f64],
    values: &mut [f64],
    vectors: &mut [f64],
) -> bool
    requires { (length a.old ≡ n * n) × (length r.old ≡ n * n) × (length values.old ≡ n) × (length vectors.old ≡ n * n) ×
        Finite n a.old scale }
    ensures { Eigen.given result values.new vectors.new ≡ Eigen.jacobi n a.old scale }
{
    start(a, n, scale, r, vectors);
    let tolerance = arith::EPSILON * reductions::norm(&a[..], a.len());
    if sweeps(a, vectors, n, tolerance) {
        eigenvalues(&a[..], n, scale, values);
        return true;
    }
    false
}

// `SymmetricEigen::new`: the eigenvalues and the eigenvectors of a, which is consumed; false if a has NaN or infinite
// entries or the sweeps run out.
pub fn symmetric_eigen(
    a: &mut [f64],
    n: usize,
    room: &mut [f64],
    values: &mut [f64],
    vectors: &mut [f64],
) -> bool
    requires { (length a.old ≡ n * n) × (length room.old ≡ n * n) × (length values.old ≡ n) × (length vectors.old ≡ n * n) }
    ensures { Eigen.given result values.new vectors.new ≡ Eigen.symmetric_eigen n a.old }
{
    let count = a.len();
    if !reductions::all_finite(&a[..], count) {
        return false;
    }
    let scale = reductions::amax(&a[..], count);
    if scale == 0.0 {
        vector::fill(values, n, 0.0);
        matrix::identity(vectors, n);
        return true;
    }
    jacobi(a, n, scale, room, values, vectors)
}

// `split`: the numbers of the eigenvalues above the cutoff, in order, and how many.
pub fn range(values: &[f64], n: usize, cutoff: f64, list: &mut [usize]) -> usize
    requires { (n ≤ length values.now) × (n ≤ length list.old) }
    ensures { (result ≡ length (Eigen.range n values.now cutoff)) ×
        (list.new ≡ over (Eigen.range n values.now cutoff) list.old) }
{
    let mut m = 0;
    for (k, value) in values[..n].iter().enumerate() {
        m = vector::push_if(*value > cutoff, k, m, list);
    }
    m
}

// And of the others.
pub fn null(values: &[f64], n: usize, cutoff: f64, list: &mut [usize]) -> usize
    requires { (n ≤ length values.now) × (n ≤ length list.old) }
    ensures { (result ≡ length (Eigen.null n values.now cutoff)) ×
        (list.new ≡ over (Eigen.null n values.now cutoff) list.old) }
{
    let mut m = 0;
    for (k, value) in values[..n].iter().enumerate() {
        m = vector::push_if(!(*value > cutoff), k, m, list);
    }
    m
}
