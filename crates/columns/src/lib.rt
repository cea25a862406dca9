// A matrix is a slice of f64, column after column; n rows, m columns. Its entries, its columns, and the largest of each column.
#![tactic(auto)]

ghost use Rattle.std.specs.Prelude.{◌≡◌, ℕ, ◌≤◌, ◌<◌, ◌*◌, length};
ghost use Rattle.folds.specs.Fold.{over};
ghost use Rattle.arith.specs.Float.{at};
ghost use Rattle.reductions.specs.Reductions.{amax};
ghost use Rattle.columns.specs.Columns as Columns;

// The entry at row i, column j.
pub fn get(a: &[f64], n: usize, m: usize, i: usize, j: usize) -> f64
    requires { (n * m ≤ length a.now) × (i < n) × (j < m) }
    ensures { result ≡ Columns.cell a.now n i j }
{
    a[i + j * n]
}

pub fn put(a: &mut [f64], n: usize, m: usize, i: usize, j: usize, v: f64)
    requires { (n * m ≤ length a.old) × (i < n) × (j < m) }
    ensures { a.new ≡ Columns.put a.old n i j v }
{
    a[i + j * n] = v;
}

// Column j, as a slice of n elements.
pub fn column(a: &[f64], n: usize, m: usize, j: usize) -> &[f64]
    requires { (n * m ≤ length a.now) × (j < m) }
    ensures { result.now ≡ Columns.column n a.now j }
{
    let b = j * n;
    let e = b + n;
    &a[b..e]
}

// The entry at row i, column j becomes f(i, j, itself), column after column.
pub fn write_entries<F: Fn(usize, usize, f64) -> f64>(a: &mut [f64], n: usize, m: usize, f: F)
    requires within { n * m ≤ length a.old }
    requires callable { (i j : ℕ) (v : _) → i < n → j < m → F.pre f i j v }
    ensures length { length a.new ≡ length a.old }
    ensures written { (i j : ℕ) → i < n → j < m → F.post f i j (Columns.cell a.old n i j) (Columns.cell a.new n i j) }
    ensures kept { (k : ℕ) → n * m ≤ k → at a.new k ≡ at a.old k }
{
    for j in 0..m {
        let b = j * n;
        let e = b + n;
        let entry = |i: usize, v: f64| -> f64
            requires { F.pre f i j v }
            ensures { F.post f i j v result }
        { f(i, j, v) };
        vector::write_each(&mut a[b..e], n, entry);
    }
}

fn column_amax(a: &[f64], n: usize, m: usize, j: usize) -> f64
    requires { (n * m ≤ length a.now) × (j < m) }
    ensures { result ≡ amax n (Columns.column n a.now j) }
{
    reductions::amax(column(a, n, m, j), n)
}

// y = the largest absolute value of each column of a (n by m).
pub fn columns_amax(a: &[f64], n: usize, m: usize, y: &mut [f64])
    requires { (n * m ≤ length a.now) × (m ≤ length y.old) }
    ensures { y.new ≡ over (Columns.columns_amax n m a.now) y.old }
{
    vector::write_each(y, m, |j, _| column_amax(a, n, m, j));
}
