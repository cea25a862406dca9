// A Cholesky factor as a variable leaves or joins, by document 01's rank-one step. That of k variables is the first k * k elements of its array.
#![tactic(auto)]

ghost use Rattle.std.specs.Prelude.{◌≡◌, ◌≤◌, ◌<◌, ◌*◌, ◌+◌, length};
ghost use Rattle.folds.specs.Fold.{over, span};
ghost use Rattle.sizes.specs.Sizes.{originals};
ghost use Rattle.update.specs.Update as Update;

// Where the i-th of the n that stay stood.
fn staying(p: usize, i: usize, n: usize) -> usize
    requires { i < n }
    ensures value { result ≡ Update.staying p i }
    ensures upper_bound { result ≤ n }
{
    if i < p {
        return i;
    }
    i + 1
}

fn closed_entry(old: &[f64], n: usize, p: usize, i: usize, j: usize) -> f64
    requires { ((n + 1) * (n + 1) ≤ length old.now) × (n < originals) × (i < n) × (j < n) }
    ensures { result ≡ Update.closed_entry n p old.now i j }
{
    let a = staying(p, i, n);
    let b = staying(p, j, n);
    columns::get(old, n + 1, n + 1, a, b)
}

fn close(old: &[f64], n: usize, p: usize, l: &mut [f64])
    requires { ((n + 1) * (n + 1) ≤ length old.now) × (n < originals) × (n * n ≤ length l.old) }
    ensures { l.new ≡ over (Update.closed n p old.now) l.old }
{
    columns::write_entries(l, n, n, |i, j, _| closed_entry(old, n, p, i, j));
}

fn removed_entry(l: &[f64], n: usize, p: usize, i: usize) -> f64
    requires { ((n + 1) * (n + 1) ≤ length l.now) × (n < originals) × (p ≤ n) × (i < n) }
    ensures { result ≡ Update.removed_entry n p l.now i }
{
    if i < p {
        return 0.0;
    }
    columns::get(l, n + 1, n + 1, i + 1, p)
}

fn removed(l: &[f64], n: usize, p: usize, v: &mut [f64])
    requires { ((n + 1) * (n + 1) ≤ length l.now) × (n < originals) × (p ≤ n) × (length v.old ≡ n) }
    ensures { v.new ≡ Update.removed n p l.now }
{
    vector::write_each(v, n, |i, _| removed_entry(l, n, p, i));
}

// v is room for the removed column.
fn leave(old: &[f64], n: usize, p: usize, l: &mut [f64], v: &mut [f64])
    requires { ((n + 1) * (n + 1) ≤ length old.now) × (n < originals) × (p ≤ n) × (n * n ≤ length l.old) × (length v.old ≡ n) }
    ensures { l.new ≡ Update.leave n p old.now l.old }
{
    removed(old, n, p, v);
    close(old, n, p, l);
    rank_one::rank_one(l, v, n, p, 1.0);
}

// The factor of k variables without variable p, in place. The factor as it was goes to room.
pub fn remove_column(l: &mut [f64], k: usize, p: usize, room: &mut [f64])
    requires { (p < k) × (k ≤ originals) × (k * k ≤ length l.old) × (k * k ≤ length room.old) }
    ensures { l.new ≡ Update.remove_column k p l.old }
{
    let mut v = [0.0; sizes::ORIGINALS];
    let n = k - 1;
    vector::copy(&l[..], k * k, room);
    leave(&room[..], n, p, l, &mut v[..n]);
}

fn join_diagonal(x: &mut [f64], p: usize)
    requires { p < length x.old }
    ensures { x.new ≡ Update.join_diagonal p x.old }
{
    let w = reductions::sum_squares(&x[..], p);
    x[p] = root::sqrt(x[p] - w);
}

fn join_below(l: &[f64], n: usize, p: usize, x: &mut [f64])
    requires { (n * n ≤ length l.now) × (n < originals) × (p ≤ n) × (n + 1 ≤ length x.old) }
    ensures { x.new ≡ span (p + 1) (n + 1) (Update.join_below n p l.now) x.old }
{
    // By index: each unknown reads those before it.
    for i in p + 1..n + 1 {
        let s = triangular::known(l, n, i - 1, p, &x[..]);
        x[i] = (x[i] - s) / x[p];
    }
}

fn joining(l: &[f64], n: usize, p: usize, x: &mut [f64])
    requires { (n * n ≤ length l.now) × (n < originals) × (p ≤ n) × (n + 1 ≤ length x.old) }
    ensures { x.new ≡ Update.joining n p l.now x.old }
{
    triangular::forward(l, n, p, x);
    join_diagonal(x, p);
    join_below(l, n, p, x);
}

// Where the i-th of n + 1, other than p, stood among n.
fn standing(p: usize, i: usize, n: usize) -> usize
    requires { (i ≤ n) × (p ≤ n) × (i ≡ p → ⊥) }
    ensures value { result ≡ Update.standing p i }
    ensures upper_bound { result < n }
{
    if p < i {
        return i - 1;
    }
    i
}

fn joined_entry(l: &[f64], n: usize, p: usize, x: &[f64], i: usize, j: usize) -> f64
    requires { (n * n ≤ length l.now) × (p ≤ n) × (i ≤ n) × (j ≤ n) × (n < length x.now) }
    ensures { result ≡ Update.joined_entry n p l.now x.now i j }
{
    if i == p {
        return x[j];
    }
    if j == p {
        return x[i];
    }
    let a = standing(p, i, n);
    let b = standing(p, j, n);
    columns::get(l, n, n, a, b)
}

fn joined(old: &[f64], n: usize, p: usize, x: &[f64], l: &mut [f64])
    requires { (n * n ≤ length old.now) × (n < originals) × (p ≤ n) × (n < length x.now) × ((n + 1) * (n + 1) ≤ length l.old) }
    ensures { l.new ≡ over (Update.joined n p old.now x.now) l.old }
{
    columns::write_entries(l, n + 1, n + 1, |i, j, _| joined_entry(old, n, p, x, i, j));
}

// x is room for the new row and column.
fn join(old: &[f64], n: usize, p: usize, q: &[f64], l: &mut [f64], x: &mut [f64])
    requires { (n * n ≤ length old.now) × (n < originals) × (p ≤ n) × (n < length q.now) ×
        ((n + 1) * (n + 1) ≤ length l.old) × (length x.old ≡ n + 1) }
    ensures { l.new ≡ Update.join n p q.now old.now l.old }
{
    vector::copy(q, n + 1, x);
    joining(old, n, p, x);
    joined(old, n, p, &x[..], l);
    rank_one::rank_one(l, x, n + 1, p + 1, -1.0);
}

// The factor of n variables with one more at place p, whose column of the matrix is q, in place. The factor as it was goes to room.
pub fn insert_column(l: &mut [f64], n: usize, p: usize, q: &[f64], room: &mut [f64])
    requires { (n < originals)
        × (p ≤ n)
        × (n < length q.now)
        × ((n + 1) * (n + 1) ≤ length l.old)
        × (n * n ≤ length room.old) }
    ensures { l.new ≡ Update.insert_column n p q.now l.old }
{
    let mut x = [0.0; sizes::ORIGINALS];
    let k = n + 1;
    vector::copy(&l[..], n * n, room);
    join(&room[..], n, p, q, l, &mut x[..k]);
}
