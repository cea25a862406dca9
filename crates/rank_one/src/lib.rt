// Document 01's rank-one step: a Cholesky factor changed by a vector and a sign, column by column. That of n variables is the first n * n elements of
// its array.
#![tactic(auto)]

ghost use Rattle.std.specs.Prelude.{◌≡◌, ◌≤◌, ◌<◌, ◌*◌, length};
ghost use Rattle.folds.specs.Part.{two};
ghost use Rattle.rank_one.specs.RankOne as RankOne;

// Row i below the diagonal of column j.
fn rank_row(l: &mut [f64], v: &mut [f64], n: usize, j: usize, s: f64, t: f64, c: f64, i: usize)
    requires { (n * n ≤ length l.old) × (n ≤ length v.old) × (i < n) × (j < n) }
    ensures { two l.new v.new ≡ RankOne.rank_row n j s t c i (two l.old v.old) }
{
    let x = (columns::get(&l[..], n, n, i, j) + s * t * v[i]) / c;
    columns::put(l, n, n, i, j, x);
    v[i] = c * v[i] - t * x;
}

fn rank_rows(l: &mut [f64], v: &mut [f64], n: usize, j: usize, s: f64, t: f64, c: f64)
    requires { (n * n ≤ length l.old) × (n ≤ length v.old) × (j < n) }
    ensures { two l.new v.new ≡ RankOne.rank_rows n j s t c (two l.old v.old) }
{
    // By index: an entry of a column of L and one of v are written together.
    for i in j + 1..n {
        rank_row(l, v, n, j, s, t, c, i);
    }
}

fn new_diagonal(l: &[f64], v: &[f64], n: usize, j: usize, s: f64) -> f64
    requires { (n * n ≤ length l.now) × (n ≤ length v.now) × (j < n) }
    ensures { result ≡ RankOne.new_diagonal n j s l.now v.now }
{
    let d = columns::get(l, n, n, j, j);
    root::sqrt(d * d + s * v[j] * v[j])
}

fn rank_column(l: &mut [f64], v: &mut [f64], n: usize, j: usize, s: f64)
    requires { (n * n ≤ length l.old) × (n ≤ length v.old) × (j < n) }
    ensures { two l.new v.new ≡ RankOne.rank_column n s j (two l.old v.old) }
{
    let d = columns::get(&l[..], n, n, j, j);
    let r = new_diagonal(&l[..], &v[..], n, j, s);
    let t = v[j] / d;
    columns::put(l, n, n, j, j, r);
    rank_rows(l, v, n, j, s, t, r / d);
}

// The rank-one step on the rows from p on; v is used up.
pub fn rank_one(l: &mut [f64], v: &mut [f64], n: usize, p: usize, s: f64)
    requires { (n * n ≤ length l.old) × (n ≤ length v.old) × (p ≤ n) }
    ensures { two l.new v.new ≡ RankOne.rank_one n p s (two l.old v.old) }
{
    // By the column's number: each reads v as the columns before it left it.
    for j in p..n {
        rank_column(l, v, n, j, s);
    }
}
