// Hooks for benchmarks and comparisons of the inner kernels. Each tests its slices; none is a call of the product.
#![tactic(auto)]

ghost use Rattle.std.specs.Prelude.{◌≡◌, true, ◌≤◌, ◌<◌, ◌*◌, eqb, length, take};
ghost use Rattle.folds.specs.Fold.{out, over};
ghost use Rattle.sizes.specs.Sizes as Sizes;
ghost use Rattle.arith.specs.Float.{sqrt};
ghost use Rattle.triangular.specs.Triangular.{regular};
ghost use Rattle.eigen.specs.Eigen.{given};
ghost use Rattle.scaled.specs.System.{system};
ghost use Rattle.factor_update.specs.Factor as Factor;
ghost use Rattle.range_space.specs.Factored.{solve_factored};
ghost use Rattle.probe.specs.Probe as Probe;
ghost use Rattle.probe.specs.Hooks as Hooks;

use scaled::System;

#[unsafe(no_mangle)]
pub extern "C" fn probe_sqrt(x: f64) -> f64
    ensures { result ≡ sqrt x }
{
    root::sqrt(x)
}

#[unsafe(no_mangle)]
pub extern "C" fn probe_dot(a: &[f64], b: &[f64]) -> f64
    ensures { result ≡ Probe.dot a.now b.now }
{
    if a.len() <= b.len() {
        return reductions::dot(a, b, a.len());
    }
    arith::nan()
}

// 1 where a is factored.
#[unsafe(no_mangle)]
pub extern "C" fn probe_cholesky(a: &mut [f64], n: usize) -> u32
    ensures { Probe.hook result a.new ≡ Probe.cholesky n a.old }
{
    if n > 48 {
        return 0;
    }
    if n * n > a.len() {
        return 0;
    }
    if cholesky::cholesky(a, n) {
        return 1;
    }
    0
}

fn shaped(n: usize, a: usize, room: usize, values: usize, vectors: usize) -> bool
    ensures { result ≡ Probe.shaped n a room values vectors }
{
    if n > 48 {
        return false;
    }
    let count = n * n;
    if a != count {
        return false;
    }
    if room != count {
        return false;
    }
    if values != n {
        return false;
    }
    if vectors != count {
        return false;
    }
    true
}

fn found(a: &mut [f64], n: usize, room: &mut [f64], values: &mut [f64], vectors: &mut [f64]) -> bool
    ensures { given result values.new vectors.new ≡
        Probe.eigen n a.old (length room.old) (length values.old) (length vectors.old) }
{
    if shaped(n, a.len(), room.len(), values.len(), vectors.len()) {
        return eigen::symmetric_eigen(a, n, room, values, vectors);
    }
    false
}

// 1 where there is a decomposition.
#[unsafe(no_mangle)]
pub extern "C" fn probe_eigen(
    a: &mut [f64],
    n: usize,
    room: &mut [f64],
    values: &mut [f64],
    vectors: &mut [f64],
) -> u32
    ensures { given (eqb result 1) values.new vectors.new ≡
        Probe.eigen n a.old (length room.old) (length values.old) (length vectors.old) }
{
    if found(a, n, room, values, vectors) {
        return 1;
    }
    0
}

// The variables below n but i, in rising order, at the start of list; how many there are.
fn all_but(n: usize, i: usize, list: &mut [usize]) -> usize
    requires { (n ≤ Sizes.originals) × (i < n) × (n ≤ length list.old) }
    ensures value { result ≡ length (Hooks.all_but n i) }
    ensures list_after { list.new ≡ over (Hooks.all_but n i) list.old }
{
    let mut s = [true; sizes::ORIGINALS];
    s[i] = false;
    variable_set::rising(s, n, list)
}

fn changed(
    q: &[f64],
    n: usize,
    joins: usize,
    leaves: usize,
    l: &mut [f64],
    room: &mut [f64],
) -> bool
    requires { (n ≤ Sizes.originals)
        × (joins < n)
        × (leaves < n)
        × (length q.now ≡ n * n)
        × (length l.old ≡ n * n)
        × (length room.old ≡ n * n) }
    ensures { out result l.new
        ≡ Factor.updated q.now n (Hooks.all_but n joins) l.old (Hooks.all_but n leaves) }
{
    let mut held = [0; sizes::ORIGINALS];
    let k = all_but(n, joins, &mut held);
    let mut indices = [0; sizes::ORIGINALS];
    let m = all_but(n, leaves, &mut indices);
    factor_update::updated(q, n, n, &held[..k], &indices[..m], l, room)
}

fn updated(
    q: &[f64],
    n: usize,
    joins: usize,
    leaves: usize,
    l: &mut [f64],
    room: &mut [f64],
) -> bool
    ensures { out result l.new ≡ Hooks.update n joins leaves q.now l.old (length room.old) }
{
    if n > sizes::ORIGINALS {
        return false;
    }
    if joins >= n {
        return false;
    }
    if leaves >= n {
        return false;
    }
    if shaped(n, q.len(), l.len(), n, room.len()) {
        return changed(q, n, joins, leaves, l, room);
    }
    false
}

// `updated`: the factor l of q's block on all n variables but `joins`, changed to all but `leaves`. 1 where there is one.
#[unsafe(no_mangle)]
pub extern "C" fn probe_update(
    q: &[f64],
    n: usize,
    joins: usize,
    leaves: usize,
    l: &mut [f64],
    room: &mut [f64],
) -> u32
    ensures { Probe.hook result l.new
        ≡ Hooks.update n joins leaves q.now l.old (length room.old) }
{
    if updated(q, n, joins, leaves, l, room) {
        return 1;
    }
    0
}

fn fresh(q: &[f64], n: usize, l: &mut [f64], room: &mut [f64]) -> bool
    ensures { out result l.new ≡ Hooks.fresh n q.now l.old (length room.old) }
{
    if n > sizes::ORIGINALS {
        return false;
    }
    if shaped(n, q.len(), l.len(), n, room.len()) {
        let mut indices = [0; sizes::ORIGINALS];
        let k = variable_set::rising([true; sizes::ORIGINALS], n, &mut indices);
        return factoring::fresh(q, n, &indices[..k], l, room);
    }
    false
}

// The factor of q's block on all n variables, computed afresh. 1 where there is one.
#[unsafe(no_mangle)]
pub extern "C" fn probe_fresh(q: &[f64], n: usize, l: &mut [f64], room: &mut [f64]) -> u32
    ensures { Probe.hook result l.new ≡ Hooks.fresh n q.now l.old (length room.old) }
{
    if fresh(q, n, l, room) {
        return 1;
    }
    0
}

fn matrices(n: usize, m: usize, l: usize, k: usize, e: usize, w: usize, g: usize) -> bool
    ensures { result ≡ Hooks.matrices n m l k e w g }
{
    if n > sizes::ORIGINALS {
        return false;
    }
    if m > sizes::COLUMNS {
        return false;
    }
    let square = n * n;
    let entries = n * m;
    if l != square {
        return false;
    }
    if k != square {
        return false;
    }
    if e != entries {
        return false;
    }
    if w != entries {
        return false;
    }
    if g != m * m {
        return false;
    }
    true
}

fn vectors(n: usize, m: usize, c: usize, b: usize, x: usize, multipliers: usize) -> bool
    ensures { result ≡ Hooks.vectors n m c b x multipliers }
{
    if c != n {
        return false;
    }
    if b != m {
        return false;
    }
    if x != n {
        return false;
    }
    if multipliers != m {
        return false;
    }
    true
}

// x and the multipliers, if they are found, where they are to stand.
fn given(
    found: bool,
    fx: [f64; sizes::VARIABLES],
    fm: [f64; sizes::COLUMNS],
    n: usize,
    m: usize,
    x: &mut [f64],
    multipliers: &mut [f64],
) -> bool
    requires { (n ≤ Sizes.originals)
        × (m ≤ Sizes.columns)
        × (length x.old ≡ n)
        × (length multipliers.old ≡ m) }
    ensures { Hooks.answered result x.new multipliers.new ≡ Hooks.answered found (take n fx) (take m fm) }
{
    if found {
        vector::copy(&fx[..n], n, x);
        vector::copy(&fm[..m], m, multipliers);
        return true;
    }
    false
}

fn solved(
    l: &[f64],
    k: &[f64],
    c: &[f64],
    e: &[f64],
    b: &[f64],
    n: usize,
    m: usize,
    noise: f64,
    w: &mut [f64],
    gram: &mut [f64],
    x: &mut [f64],
    multipliers: &mut [f64],
) -> bool
    requires { Hooks.Matrices n m (length l.now) (length k.now) (length e.now) (length w.old) (length gram.old)
        × Hooks.Vectors n m (length c.now) (length b.now) (length x.old) (length multipliers.old)
        × (regular l.now n ≡ true) }
    ensures { Hooks.answered result x.new multipliers.new
        ≡ solve_factored l.now (system n m k.now c.now e.now b.now) noise }
{
    let mut fx = [0.0; sizes::VARIABLES];
    let mut fm = [0.0; sizes::COLUMNS];
    let system = System { k, c, e, b, n, m };
    let found = range_space::solve_factored(l, &system, noise, w, gram, &mut fx, &mut fm);
    given(found, fx, fm, n, m, x, multipliers)
}

fn answer(
    l: &[f64],
    k: &[f64],
    c: &[f64],
    e: &[f64],
    b: &[f64],
    n: usize,
    m: usize,
    noise: f64,
    w: &mut [f64],
    gram: &mut [f64],
    x: &mut [f64],
    multipliers: &mut [f64],
) -> bool
    ensures { Hooks.answered result x.new multipliers.new
        ≡ Hooks.solve l.now (system n m k.now c.now e.now b.now) noise
        (length w.old) (length gram.old) (length x.old) (length multipliers.old) }
{
    if matrices(n, m, l.len(), k.len(), e.len(), w.len(), gram.len()) {
        if vectors(n, m, c.len(), b.len(), x.len(), multipliers.len()) {
            if cholesky::positive_definite(l, n) {
                return solved(l, k, c, e, b, n, m, noise, w, gram, x, multipliers);
            }
            return false;
        }
        return false;
    }
    false
}

// `solve_factored`. 1 where there is a solution.
#[unsafe(no_mangle)]
pub extern "C" fn probe_solve_factored(
    l: &[f64],
    k: &[f64],
    c: &[f64],
    e: &[f64],
    b: &[f64],
    n: usize,
    m: usize,
    noise: f64,
    w: &mut [f64],
    gram: &mut [f64],
    x: &mut [f64],
    multipliers: &mut [f64],
) -> u32
    ensures { Hooks.answered (eqb result 1) x.new multipliers.new
        ≡ Hooks.solve l.now (system n m k.now c.now e.now b.now) noise
        (length w.old) (length gram.old) (length x.old) (length multipliers.old) }
{
    if answer(l, k, c, e, b, n, m, noise, w, gram, x, multipliers) {
        return 1;
    }
    0
}
