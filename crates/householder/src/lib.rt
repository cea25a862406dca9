// Householder's reflections, as document 01, "The reference build", has them: `qr`, and `q_tr_mul` by what it leaves.
#![tactic(auto)]

ghost use Rattle.std.specs.Prelude.{◌≡◌, ◌≤◌, ◌<◌, ◌*◌, ◌+◌, ◌-◌, length};
ghost use Rattle.folds.specs.Fold.{out};
ghost use Rattle.folds.specs.Part.{two};
ghost use Rattle.reductions.specs.Reductions.{dot as dot_of};
ghost use Rattle.householder.specs.Householder as Householder;

// The rows of y that v has, reflected; w is v times v.
fn reflect(v: &[f64], w: f64, y: &mut [f64])
    requires { (length v.now ≤ length y.old) × (w ≡ dot_of (length v.now) v.now v.now) }
    ensures { y.new ≡ Householder.reflect v.now y.old }
{
    let h = v.len();
    let c = 2.0 * reductions::dot(v, &y[..], h) / w;
    vector::sub_scaled(y, h, v, c);
}

// The columns lo to m - 1 of a, in the rows from k on.
fn reflect_columns(v: &[f64], a: &mut [f64], n: usize, m: usize, k: usize, lo: usize)
    requires { (n * m ≤ length a.old) × (k + length v.now ≡ n) × (lo ≤ m) }
    ensures { a.new ≡ Householder.reflect_columns n k lo m v.now a.old }
{
    let w = reductions::dot(v, v, v.len());
    // By the column's number: each is lent from one slice, to be written.
    for j in lo..m {
        let b = k + j * n;
        let e = n + j * n;
        reflect(v, w, &mut a[b..e]);
    }
}

fn zero_column(x: &[f64], h: usize) -> bool
    requires { h ≤ length x.now }
    ensures { result ≡ Householder.zero_column h x.now }
{
    for v in &x[..h] {
        if *v != 0.0 {
            return false;
        }
    }
    true
}

fn opposite(x: f64, r: f64) -> f64
    ensures { result ≡ Householder.opposite x r }
{
    if x < 0.0 { r } else { -r }
}

// The column x of h entries becomes its reflection vector; a zero column is left, and the answer is false.
fn reflector(x: &mut [f64], h: usize) -> bool
    requires { (h ≤ length x.old) × (0 < h) }
    ensures { out result x.new ≡ Householder.reflector h x.old }
{
    if zero_column(&x[..], h) {
        return false;
    }
    let r = reductions::norm(&x[..], h);
    x[0] = x[0] - opposite(x[0], r);
    true
}

// The columns past k, reflected by the vector that stands in column k; v is room for it.
fn reflect_in(a: &mut [f64], n: usize, m: usize, k: usize, v: &mut [f64])
    requires { (n * m ≤ length a.old) × (k < n) × (k < m) × (k + length v.old ≡ n) }
    ensures { a.new ≡ Householder.reflect_rest n m k a.old }
{
    let b = k + k * n;
    let e = n + k * n;
    vector::copy(&a[b..e], n - k, v);
    reflect_columns(&v[..], a, n, m, k, k + 1);
}

fn reflect_rest(a: &mut [f64], n: usize, m: usize, k: usize)
    requires { (n * m ≤ length a.old) × (k < n) × (k < m) × (n ≤ 48) }
    ensures { a.new ≡ Householder.reflect_rest n m k a.old }
{
    let mut v = [0.0; 48];
    let h = n - k;
    reflect_in(a, n, m, k, &mut v[..h]);
}

// Column k becomes its reflection vector, and the columns past it are reflected; false for a zero column.
fn qr_column(a: &mut [f64], n: usize, m: usize, k: usize) -> bool
    requires { (n * m ≤ length a.old) × (k < n) × (k < m) × (n ≤ 48) }
    ensures { out result a.new ≡ Householder.qr_column n m k a.old }
{
    let b = k + k * n;
    let e = n + k * n;
    if reflector(&mut a[b..e], n - k) {
        reflect_rest(a, n, m, k);
        return true;
    }
    false
}

// The reflection vectors of a (n by m), each in its column from the diagonal down, and which columns made one.
pub fn qr(a: &mut [f64], n: usize, m: usize, made: &mut [bool])
    requires { (n * m ≤ length a.old) × (m ≤ n) × (n ≤ 48) × (m ≤ length made.old) }
    ensures { two a.new made.new ≡ Householder.qr n m (two a.old made.old) }
{
    // By the step's number: each reads what the steps before it wrote.
    for k in 0..m {
        made[k] = qr_column(a, n, m, k);
    }
}

fn q_tr_step(a: &[f64], n: usize, m: usize, made: &[bool], b: &mut [f64], p: usize, k: usize)
    requires { (n * m ≤ length a.now) × (k < m) × (m ≤ n) × (m ≤ length made.now) × (n * p ≤ length b.old) }
    ensures { b.new ≡ Householder.q_tr_step n a.now made.now p k b.old }
{
    if made[k] {
        let s = k + k * n;
        let e = n + k * n;
        reflect_columns(&a[s..e], b, n, p, k, 0);
    }
}

// The p columns of b, reflected by the m columns that `qr` left in a.
pub fn q_tr_mul(a: &[f64], n: usize, m: usize, made: &[bool], b: &mut [f64], p: usize)
    requires { (n * m ≤ length a.now) × (m ≤ n) × (m ≤ length made.now) × (n * p ≤ length b.old) }
    ensures { b.new ≡ Householder.q_tr_mul n m a.now made.now p b.old }
{
    // By the step's number: each reads what the steps before it wrote.
    for k in 0..m {
        q_tr_step(a, n, m, made, b, p, k);
    }
}
