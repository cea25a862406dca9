// Vectors: a slice, of which the first n elements count.
#![tactic(auto)]

ghost use Rattle.std.specs.Prelude.{◌≡◌, ℕ, ◌+◌, ◌≤◌, ◌<◌, length};
ghost use Rattle.folds.specs.Fold.{over};
ghost use Rattle.folds.specs.Chosen.{held, push_if};
ghost use Rattle.arith.specs.Float.{at};
ghost use Rattle.vector.specs.Vector as Vector;
ghost use Rattle.vector.specs.Vector.{Below};

// y[k] becomes f(k, y[k]), for each k below n. By index: of what is written through a zip's `iter_mut` the library says nothing.
pub fn write_each<F: Fn(usize, f64) -> f64>(y: &mut [f64], n: usize, f: F)
    requires within { n ≤ length y.old }
    requires callable { (k : ℕ) (v : _) → k < n → F.pre f k v }
    ensures length { length y.new ≡ length y.old }
    ensures written { (k : ℕ) → k < n → F.post f k (at y.old k) (at y.new k) }
    ensures kept { (k : ℕ) → n ≤ k → at y.new k ≡ at y.old k }
{
    for k in 0..n {
        y[k] = f(k, y[k]);
    }
}

// In place: a times and over a number.
pub fn scale(a: &mut [f64], n: usize, by: f64)
    requires { n ≤ length a.old }
    ensures { a.new ≡ over (Vector.scaled n a.old by) a.old }
{
    write_each(a, n, |_, v| v * by);
}

pub fn divide(a: &mut [f64], n: usize, by: f64)
    requires { n ≤ length a.old }
    ensures { a.new ≡ over (Vector.divided n a.old by) a.old }
{
    write_each(a, n, |_, v| v / by);
}

// y becomes y - x, y + x by and y - x by.
pub fn sub_from(y: &mut [f64], n: usize, x: &[f64])
    requires { (n ≤ length y.old) × (n ≤ length x.now) }
    ensures { y.new ≡ over (Vector.sub n y.old x.now) y.old }
{
    write_each(y, n, |k, v| v - x[k]);
}

pub fn add_scaled(y: &mut [f64], n: usize, x: &[f64], by: f64)
    requires { (n ≤ length y.old) × (n ≤ length x.now) }
    ensures { y.new ≡ over (Vector.add_scaled n y.old x.now by) y.old }
{
    write_each(y, n, |k, v| v + x[k] * by);
}

pub fn sub_scaled(y: &mut [f64], n: usize, x: &[f64], by: f64)
    requires { (n ≤ length y.old) × (n ≤ length x.now) }
    ensures { y.new ≡ over (Vector.sub_scaled n y.old x.now by) y.old }
{
    write_each(y, n, |k, v| v - x[k] * by);
}

// The rest write their result over the start of y.
pub fn scaled(a: &[f64], n: usize, by: f64, y: &mut [f64])
    requires { (n ≤ length a.now) × (n ≤ length y.old) }
    ensures { y.new ≡ over (Vector.scaled n a.now by) y.old }
{
    write_each(y, n, |k, _| a[k] * by);
}

pub fn divided(a: &[f64], n: usize, by: f64, y: &mut [f64])
    requires { (n ≤ length a.now) × (n ≤ length y.old) }
    ensures { y.new ≡ over (Vector.divided n a.now by) y.old }
{
    write_each(y, n, |k, _| a[k] / by);
}

pub fn add(a: &[f64], b: &[f64], n: usize, y: &mut [f64])
    requires { (n ≤ length a.now) × (n ≤ length b.now) × (n ≤ length y.old) }
    ensures { y.new ≡ over (Vector.add n a.now b.now) y.old }
{
    write_each(y, n, |k, _| a[k] + b[k]);
}

pub fn sub(a: &[f64], b: &[f64], n: usize, y: &mut [f64])
    requires { (n ≤ length a.now) × (n ≤ length b.now) × (n ≤ length y.old) }
    ensures { y.new ≡ over (Vector.sub n a.now b.now) y.old }
{
    write_each(y, n, |k, _| a[k] - b[k]);
}

pub fn mul(a: &[f64], b: &[f64], n: usize, y: &mut [f64])
    requires { (n ≤ length a.now) × (n ≤ length b.now) × (n ≤ length y.old) }
    ensures { y.new ≡ over (Vector.mul n a.now b.now) y.old }
{
    write_each(y, n, |k, _| a[k] * b[k]);
}

pub fn div(a: &[f64], b: &[f64], n: usize, y: &mut [f64])
    requires { (n ≤ length a.now) × (n ≤ length b.now) × (n ≤ length y.old) }
    ensures { y.new ≡ over (Vector.div n a.now b.now) y.old }
{
    write_each(y, n, |k, _| a[k] / b[k]);
}

pub fn add_scalar(a: &[f64], n: usize, v: f64, y: &mut [f64])
    requires { (n ≤ length a.now) × (n ≤ length y.old) }
    ensures { y.new ≡ over (Vector.add_scalar n a.now v) y.old }
{
    write_each(y, n, |k, _| a[k] + v);
}

pub fn copy(a: &[f64], n: usize, y: &mut [f64])
    requires { (n ≤ length a.now) × (n ≤ length y.old) }
    ensures { y.new ≡ over (Vector.copy n a.now) y.old }
{
    write_each(y, n, |k, _| a[k]);
}

pub fn fill(y: &mut [f64], n: usize, v: f64)
    requires { n ≤ length y.old }
    ensures { y.new ≡ over (Vector.filled n v) y.old }
{
    y[..n].fill(v);
}

// The elements of a (n of them) that the first k numbers of list name.
pub fn select(a: &[f64], n: usize, list: &[usize], k: usize, y: &mut [f64])
    requires { (n ≤ length a.now) × (k ≤ length list.now) × (k ≤ length y.old) × Below k list.now n }
    ensures { y.new ≡ over (Vector.select k a.now list.now) y.old }
{
    write_each(y, k, |i, _| a[list[i]]);
}

// k at place m of list if on, and the next free place.
pub fn push_if(on: bool, k: usize, m: usize, list: &mut [usize]) -> usize
    requires { m < length list.old }
    ensures list_after { held result list.new ≡ push_if on k (held m list.old) }
    ensures upper_bound { result ≤ m + 1 }
{
    if on {
        list[m] = k;
        return m + 1;
    }
    m
}
