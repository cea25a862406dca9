// Triangular systems, in document 01's order of sums. An n by n matrix is read in its lower triangle only.
#![tactic(auto)]

ghost use Rattle.std.specs.Prelude.{◌≡◌, ◌≤◌, ◌<◌, ◌*◌, length};
ghost use Rattle.folds.specs.Fold.{out};
ghost use Rattle.triangular.specs.Triangular as Triangular;

// Whether no diagonal entry is 0.
fn regular(l: &[f64], n: usize) -> bool
    requires { n * n ≤ length l.now }
    ensures { result ≡ Triangular.regular l.now n }
{
    // By index: the diagonal of a matrix, which no slice holds.
    for i in 0..n {
        if columns::get(l, n, n, i, i) == 0.0 {
            return false;
        }
    }
    true
}

// The sum of the first k terms of row i times x.
pub fn known(l: &[f64], n: usize, i: usize, k: usize, x: &[f64]) -> f64
    requires { (n * n ≤ length l.now) × (i < n) × (k ≤ n) × (k ≤ length x.now) }
    ensures { result ≡ Triangular.known k l.now n i x.now }
{
    let mut s = 0.0;
    for (j, v) in x[..k].iter().enumerate() {
        s += columns::get(l, n, n, i, j) * v;
    }
    s
}

// The first k unknowns of l y = x, in place.
pub fn forward(l: &[f64], n: usize, k: usize, x: &mut [f64])
    requires { (n * n ≤ length l.now) × (k ≤ n) × (k ≤ length x.old) }
    ensures { x.new ≡ Triangular.forward k l.now n x.old }
{
    // By index: each unknown reads those before it.
    for i in 0..k {
        let s = known(l, n, i, i, &x[..]);
        x[i] = (x[i] - s) / columns::get(l, n, n, i, i);
    }
}

// Solves l y = x in place; false where a diagonal entry is 0.
pub fn solve_lower_triangular(l: &[f64], n: usize, x: &mut [f64]) -> bool
    requires { (n * n ≤ length l.now) × (n ≤ length x.old) }
    ensures { out result x.new ≡ Triangular.solve_lower l.now n x.old }
{
    if regular(l, n) {
        forward(l, n, n, x);
        return true;
    }
    false
}

fn solve_column(l: &[f64], n: usize, x: &mut [f64], m: usize, j: usize) -> bool
    requires { (n * n ≤ length l.now) × (n * m ≤ length x.old) × (j < m) }
    ensures { out result x.new ≡ Triangular.solve_column l.now n j x.old }
{
    let b = j * n;
    let e = b + n;
    solve_lower_triangular(l, n, &mut x[b..e])
}

// Solves l y = x in place for the m columns of x.
pub fn solve_lower_columns(l: &[f64], n: usize, x: &mut [f64], m: usize) -> bool
    requires { (n * n ≤ length l.now) × (n * m ≤ length x.old) }
    ensures { out result x.new ≡ Triangular.solve_lower_columns l.now n m x.old }
{
    // By the column's number: each is lent from one slice, to be written.
    for j in 0..m {
        if !solve_column(l, n, x, m, j) {
            return false;
        }
    }
    true
}

fn known_below(l: &[f64], n: usize, i: usize, x: &[f64]) -> f64
    requires { (n * n ≤ length l.now) × (i < n) × (n ≤ length x.now) }
    ensures { result ≡ Triangular.known_below n l.now n i x.now }
{
    let b = i + 1;
    let column = columns::column(l, n, n, i);
    reductions::dot(&column[b..n], &x[b..n], n - b)
}

fn unknown_back(l: &[f64], n: usize, i: usize, x: &mut [f64])
    requires { (n * n ≤ length l.now) × (i < n) × (n ≤ length x.old) }
    ensures { x.new ≡ Triangular.unknown_back l.now n i x.old }
{
    let s = known_below(l, n, i, &x[..]);
    x[i] = (x[i] - s) / columns::get(l, n, n, i, i);
}

fn backward(l: &[f64], n: usize, x: &mut [f64])
    requires { (n * n ≤ length l.now) × (n ≤ length x.old) }
    ensures { x.new ≡ Triangular.backward l.now n x.old }
{
    // By index: each unknown reads those after it.
    for i in (0..n).rev() {
        unknown_back(l, n, i, x);
    }
}

// Solves (l transposed) y = x in place; false where a diagonal entry is 0.
pub fn tr_solve_lower_triangular(l: &[f64], n: usize, x: &mut [f64]) -> bool
    requires { (n * n ≤ length l.now) × (n ≤ length x.old) }
    ensures { out result x.new ≡ Triangular.tr_solve_lower l.now n x.old }
{
    if regular(l, n) {
        backward(l, n, x);
        return true;
    }
    false
}

// Cholesky::solve: solves l (l transposed) y = x in place, for a factor l.
pub fn solve(l: &[f64], n: usize, x: &mut [f64])
    requires { (n * n ≤ length l.now) × (n ≤ length x.old) }
    ensures { x.new ≡ Triangular.solve l.now n x.old }
{
    forward(l, n, n, x);
    backward(l, n, x);
}
