// Matrices: slices of f64, column after column; n rows, m columns.
#![tactic(auto)]

ghost use Rattle.std.specs.Prelude.{◌≡◌, ◌≤◌, ◌<◌, ◌*◌, length};
ghost use Rattle.folds.specs.Fold.{over};
ghost use Rattle.arith.specs.Float.{fdiv, at};
ghost use Rattle.vector.specs.Vector.{Below};
ghost use Rattle.columns.specs.Columns as Columns;
ghost use Rattle.matrix.specs.Matrix as Matrix;

pub fn trace(a: &[f64], n: usize) -> f64
    requires { n * n ≤ length a.now }
    ensures { result ≡ Matrix.trace n a.now }
{
    let mut s = 0.0;
    // By index: the diagonal of a matrix, which no slice holds.
    for i in 0..n {
        s = s + columns::get(a, n, n, i, i);
    }
    s
}

// Row i of a times x.
fn row_dot(a: &[f64], n: usize, m: usize, i: usize, x: &[f64]) -> f64
    requires { (n * m ≤ length a.now) × (i < n) × (m ≤ length x.now) }
    ensures { result ≡ Matrix.row_dot n m a.now i x.now }
{
    let mut s = 0.0;
    for (j, v) in x[..m].iter().enumerate() {
        s += columns::get(a, n, m, i, j) * v;
    }
    s
}

// y = a x.
pub fn mul_vec(a: &[f64], n: usize, m: usize, x: &[f64], y: &mut [f64])
    requires { (n * m ≤ length a.now) × (m ≤ length x.now) × (n ≤ length y.old) }
    ensures { y.new ≡ over (Matrix.mul_vec n m a.now x.now) y.old }
{
    vector::write_each(y, n, |i, _| row_dot(a, n, m, i, x));
}

// Column j of a times x.
fn column_dot(a: &[f64], n: usize, m: usize, j: usize, x: &[f64]) -> f64
    requires { (n * m ≤ length a.now) × (j < m) × (n ≤ length x.now) }
    ensures { result ≡ Matrix.column_dot n a.now j x.now }
{
    reductions::dot(columns::column(a, n, m, j), x, n)
}

// y = aᵀ x.
pub fn tr_mul_vec(a: &[f64], n: usize, m: usize, x: &[f64], y: &mut [f64])
    requires { (n * m ≤ length a.now) × (n ≤ length x.now) × (m ≤ length y.old) }
    ensures { y.new ≡ over (Matrix.tr_mul_vec n m a.now x.now) y.old }
{
    vector::write_each(y, m, |j, _| column_dot(a, n, m, j, x));
}

// Row i of a (n by p) times column j of b (p by m).
fn cell_dot(a: &[f64], n: usize, p: usize, b: &[f64], m: usize, i: usize, j: usize) -> f64
    requires { (n * p ≤ length a.now) × (p * m ≤ length b.now) × (i < n) × (j < m) }
    ensures { result ≡ Matrix.cell_dot n p a.now b.now i j }
{
    row_dot(a, n, p, i, columns::column(b, p, m, j))
}

// c = a b, with a n by p and b p by m.
pub fn mul(a: &[f64], n: usize, p: usize, b: &[f64], m: usize, c: &mut [f64])
    requires { (n * p ≤ length a.now) × (p * m ≤ length b.now) × (n * m ≤ length c.old) }
    ensures { c.new ≡ over (Matrix.mul n p m a.now b.now) c.old }
{
    columns::write_entries(c, n, m, |i, j, _| cell_dot(a, n, p, b, m, i, j));
}

// Column i of a (n by p) times column j of b (n by m).
fn columns_dot(a: &[f64], n: usize, p: usize, b: &[f64], m: usize, i: usize, j: usize) -> f64
    requires { (n * p ≤ length a.now) × (n * m ≤ length b.now) × (i < p) × (j < m) }
    ensures { result ≡ Matrix.columns_dot n a.now b.now i j }
{
    reductions::dot(columns::column(a, n, p, i), columns::column(b, n, m, j), n)
}

// c = aᵀ b, with a n by p and b n by m.
pub fn tr_mul(a: &[f64], n: usize, p: usize, b: &[f64], m: usize, c: &mut [f64])
    requires { (n * p ≤ length a.now) × (n * m ≤ length b.now) × (p * m ≤ length c.old) }
    ensures { c.new ≡ over (Matrix.tr_mul n p m a.now b.now) c.old }
{
    columns::write_entries(c, p, m, |i, j, _| columns_dot(a, n, p, b, m, i, j));
}

// b = aᵀ, with a n by m.
pub fn transpose(a: &[f64], n: usize, m: usize, b: &mut [f64])
    requires { (n * m ≤ length a.now) × (m * n ≤ length b.old) }
    ensures { b.new ≡ over (Matrix.transpose n m a.now) b.old }
{
    columns::write_entries(b, m, n, |i, j, _| columns::get(a, n, m, j, i));
}

// 1 on the diagonal, 0 off it.
fn unit(i: usize, j: usize) -> f64
    ensures { result ≡ Matrix.unit i j }
{
    if i == j {
        return 1.0;
    }
    0.0
}

pub fn identity(a: &mut [f64], n: usize)
    requires { n * n ≤ length a.old }
    ensures { a.new ≡ over (Matrix.identity n) a.old }
{
    columns::write_entries(a, n, n, |i, j, _| unit(i, j));
}

// b = the k rows of a (n by m) that list names.
pub fn select_rows(a: &[f64], n: usize, m: usize, list: &[usize], k: usize, b: &mut [f64])
    requires { (n * m ≤ length a.now) × (k ≤ length list.now) × Below k list.now n × (k * m ≤ length b.old) }
    ensures { b.new ≡ over (Matrix.select_rows n m a.now k list.now) b.old }
{
    columns::write_entries(b, k, m, |i, j, _| columns::get(a, n, m, list[i], j));
}

// b = the k columns of a (n by m) that list names.
pub fn select_columns(a: &[f64], n: usize, m: usize, list: &[usize], k: usize, b: &mut [f64])
    requires { (n * m ≤ length a.now) × (k ≤ length list.now) × Below k list.now m × (n * k ≤ length b.old) }
    ensures { b.new ≡ over (Matrix.select_columns n a.now k list.now) b.old }
{
    columns::write_entries(b, n, k, |i, j, _| columns::get(a, n, m, i, list[j]));
}

// In place: each row of a (n by m) over its element of by.
pub fn divide_rows(a: &mut [f64], n: usize, m: usize, by: &[f64])
    requires { (n * m ≤ length a.old) × (n ≤ length by.now) }
    ensures { a.new ≡ over (Matrix.rows_divided n m a.old by.now) a.old }
{
    columns::write_entries(a, n, m, |i, _, v| v / by[i]);
}

// And each column.
pub fn divide_columns(a: &mut [f64], n: usize, m: usize, by: &[f64])
    requires { (n * m ≤ length a.old) × (m ≤ length by.now) }
    ensures { a.new ≡ over (Matrix.columns_divided n m a.old by.now) a.old }
{
    columns::write_entries(a, n, m, |_, j, v| v / by[j]);
}
