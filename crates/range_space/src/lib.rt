// qp.rs, `solve_factored`: the KKT system of a positive definite K with the Cholesky factor l, by the range-space method.
// K is n by n, E is n by m, with up to 32 variables and 24 columns. No diagonal entry of l is 0, so every system of it is solved.
#![tactic(auto)]

ghost use Rattle.std.specs.Prelude.{◌≡◌, true, ◌≤◌, ◌<◌, ◌*◌, length, take};
ghost use Rattle.folds.specs.Fold.{out};
ghost use Rattle.sizes.specs.Sizes as Sizes;
ghost use Rattle.reductions.specs.Reductions.{norm};
ghost use Rattle.vector.specs.Vector as Vector;
ghost use Rattle.columns.specs.Columns as Columns;
ghost use Rattle.matrix.specs.Matrix as Matrix;
ghost use Rattle.triangular.specs.Triangular as Triangular;
ghost use Rattle.scaled.specs.Given.{system_of};
ghost use Rattle.range_space.specs.Room.{Ranged};
ghost use Rattle.range_space.specs.Factored as Definition;

use scaled::System;

// What the method has of a system: the factor l of K, W with its columns at unit length, their lengths, and the factor of WᵀW.
#[derive(Clone, Copy)]
struct RangeSpace<'a> {
    system: System<'a>,
    l: &'a [f64],
    w: &'a [f64],
    lengths: &'a [f64],
    gram: &'a [f64],
    ghost ranged: { Ranged system.n system.m l.now w.now lengths.now gram.now },
}

// W = L⁻¹E
fn whiten(l: &[f64], e: &[f64], n: usize, m: usize, w: &mut [f64])
    requires { (n ≤ Sizes.originals)
        × (m ≤ Sizes.columns)
        × (n * n ≤ length l.now)
        × (Triangular.regular l.now n ≡ true)
        × (n * m ≤ length e.now)
        × (length w.old ≡ n * m) }
    ensures { out true w.new ≡ Definition.whitened l.now n m e.now }
{
    vector::copy(e, n * m, w);
    triangular::solve_lower_columns(l, n, w, m);
}

fn column_norm(w: &[f64], n: usize, m: usize, j: usize) -> f64
    requires { (n * m ≤ length w.now) × (j < m) }
    ensures { result ≡ norm n (Columns.column n w.now j) }
{
    reductions::norm(columns::column(w, n, m, j), n)
}

// The length of each column of w.
fn lengths(w: &[f64], n: usize, m: usize) -> [f64; sizes::COLUMNS]
    requires { (m ≤ Sizes.columns) × (n * m ≤ length w.now) }
    ensures { take m result ≡ Definition.lengths n m w.now }
{
    let mut y = [0.0; sizes::COLUMNS];
    vector::write_each(&mut y, m, |j, _| column_norm(w, n, m, j));
    y
}

// The factor of WᵀW, if its pivots pass.
fn factor_gram(w: &[f64], n: usize, m: usize, g: &mut [f64]) -> bool
    requires { (n * m ≤ length w.now) × (length g.old ≡ m * m) }
    ensures { out result g.new ≡ Definition.gram n m w.now }
{
    matrix::tr_mul(w, n, m, w, m, g);
    factoring::definite(g, m)
}

// h = L⁻¹c, over the start of y
fn lower(l: &[f64], n: usize, c: &[f64], y: &mut [f64])
    requires { (n * n ≤ length l.now) × (Triangular.regular l.now n ≡ true) × (n ≤ length c.now) × (n ≤ length y.old) }
    ensures { out true (take n y.new) ≡ Triangular.solve_lower l.now n (Vector.copy n c.now) }
{
    vector::copy(c, n, y);
    triangular::solve_lower_triangular(l, n, &mut y[..n]);
}

// The multipliers times the lengths, over the start of y: the solution λ of WᵀWλ = Wᵀh − b over the lengths.
fn scaled_multipliers(
    w: &[f64],
    by: &[f64],
    g: &[f64],
    n: usize,
    m: usize,
    h: &[f64],
    b: &[f64],
    y: &mut [f64],
)
    requires { (m ≤ Sizes.columns)
        × (n * m ≤ length w.now)
        × (m ≤ length by.now)
        × (m * m ≤ length g.now)
        × (n ≤ length h.now)
        × (m ≤ length b.now)
        × (m ≤ length y.old) }
    ensures { take m y.new
        ≡ Triangular.solve g.now m
        (Vector.sub m (Matrix.tr_mul_vec n m w.now h.now) (Vector.div m b.now by.now)) }
{
    let mut bl = [0.0; sizes::COLUMNS];
    matrix::tr_mul_vec(w, n, m, h, y);
    vector::div(b, by, m, &mut bl);
    vector::sub_from(y, m, &bl[..m]);
    triangular::solve(g, m, &mut y[..m]);
}

// x = L⁻ᵀ(h − Wλ), over the start of y
fn upper(l: &[f64], w: &[f64], n: usize, m: usize, h: &[f64], scaled: &[f64], y: &mut [f64])
    requires { (n ≤ Sizes.originals)
        × (n * n ≤ length l.now)
        × (Triangular.regular l.now n ≡ true)
        × (n * m ≤ length w.now)
        × (n ≤ length h.now)
        × (m ≤ length scaled.now)
        × (n ≤ length y.old) }
    ensures { out true (take n y.new)
        ≡ Triangular.tr_solve_lower l.now n
        (Vector.sub n h.now (Matrix.mul_vec n m w.now scaled.now)) }
{
    let mut ws = [0.0; sizes::ORIGINALS];
    matrix::mul_vec(w, n, m, scaled, &mut ws);
    vector::sub(h, &ws[..n], n, y);
    triangular::tr_solve_lower_triangular(l, n, &mut y[..n]);
}

// The closure `solve`, its answer over the starts of x and multipliers.
fn solve(of: &RangeSpace, c: &[f64], b: &[f64], x: &mut [f64], multipliers: &mut [f64])
    requires { (of.now.system.n ≤ length c.now)
        × (of.now.system.m ≤ length b.now)
        × (of.now.system.n ≤ length x.old)
        × (of.now.system.m ≤ length multipliers.old) }
    ensures { Definition.some (take of.now.system.n x.new) (take of.now.system.m multipliers.new)
        ≡ Definition.solve_once of.now.l.now of.now.w.now of.now.lengths.now of.now.gram.now
        of.now.system.n of.now.system.m c.now b.now }
{
    let n = of.system.n;
    let m = of.system.m;
    let mut h = [0.0; sizes::ORIGINALS];
    let mut scaled = [0.0; sizes::COLUMNS];
    lower(of.l, n, c, &mut h);
    scaled_multipliers(of.w, of.lengths, of.gram, n, m, &h[..n], b, &mut scaled);
    upper(of.l, of.w, n, m, &h[..n], &scaled[..m], x);
    vector::div(&scaled[..m], of.lengths, m, multipliers);
}

// c − Kx − Eλ, over the start of y
fn left_of_c(system: &System, x: &[f64], multipliers: &[f64], y: &mut [f64])
    requires { (system.now.n ≤ length x.now) × (system.now.m ≤ length multipliers.now) × (system.now.n ≤ length y.old) }
    ensures { take system.now.n y.new
        ≡ Definition.left_of_c system.now.n system.now.m system.now.k.now system.now.c.now
        system.now.e.now x.now multipliers.now }
{
    let n = system.n;
    let m = system.m;
    let mut product = [0.0; sizes::ORIGINALS];
    matrix::mul_vec(system.k, n, n, x, &mut product);
    vector::sub(system.c, &product[..n], n, y);
    matrix::mul_vec(system.e, n, m, multipliers, &mut product);
    vector::sub_from(y, n, &product[..n]);
}

// b − Eᵀx, over the start of y
fn left_of_b(system: &System, x: &[f64], y: &mut [f64])
    requires { (system.now.n ≤ length x.now) × (system.now.m ≤ length y.old) }
    ensures { take system.now.m y.new
        ≡ Definition.left_of_b system.now.n system.now.m system.now.e.now system.now.b.now x.now }
{
    let n = system.n;
    let m = system.m;
    let mut ex = [0.0; sizes::COLUMNS];
    matrix::tr_mul_vec(system.e, n, m, x, &mut ex);
    vector::sub(system.b, &ex[..m], m, y);
}

// The first solution with what `solve` finds for what it leaves, over the starts of x and multipliers.
fn refine(of: &RangeSpace, x0: &[f64], multipliers0: &[f64], x: &mut [f64], multipliers: &mut [f64])
    requires { (of.now.system.n ≤ length x0.now)
        × (of.now.system.m ≤ length multipliers0.now)
        × (of.now.system.n ≤ length x.old)
        × (of.now.system.m ≤ length multipliers.old) }
    ensures { Definition.some (take of.now.system.n x.new) (take of.now.system.m multipliers.new)
        ≡ Definition.refine of.now.l.now of.now.w.now of.now.lengths.now of.now.gram.now
        (system_of of.now.system)
        (Definition.some x0.now multipliers0.now) }
{
    let n = of.system.n;
    let m = of.system.m;
    let mut dc = [0.0; sizes::ORIGINALS];
    let mut db = [0.0; sizes::COLUMNS];
    let mut dx = [0.0; sizes::ORIGINALS];
    let mut dm = [0.0; sizes::COLUMNS];
    left_of_c(&of.system, x0, multipliers0, &mut dc);
    left_of_b(&of.system, x0, &mut db);
    solve(of, &dc[..n], &db[..m], &mut dx, &mut dm);
    vector::add(x0, &dx[..n], n, x);
    vector::add(multipliers0, &dm[..m], m, multipliers);
}

// Whether x and the multipliers solve the system to within rounding.
fn judged(system: &System, noise: f64, x: &[f64], multipliers: &[f64]) -> bool
    requires { (system.now.n ≤ length x.now) × (system.now.m ≤ length multipliers.now) }
    ensures { Definition.found_of result x.now multipliers.now
        ≡ Definition.judged (system_of system.now) noise (Definition.some x.now multipliers.now) }
{
    let residual = scaled::kkt_residual(system, x, multipliers, noise);
    scaled::within_rounding(residual) == Some(true)
}

// Whether there is a solution, which then stands over the starts of x and multipliers.
fn solve_over(of: &RangeSpace, noise: f64, x: &mut [f64], multipliers: &mut [f64]) -> bool
    requires { (of.now.system.n ≤ length x.old) × (of.now.system.m ≤ length multipliers.old) }
    ensures { Definition.found_of result (take of.now.system.n x.new) (take of.now.system.m multipliers.new)
        ≡ Definition.judged (system_of of.now.system) noise
        (Definition.refined of.now.l.now of.now.w.now of.now.lengths.now of.now.gram.now
        (system_of of.now.system)) }
{
    let n = of.system.n;
    let m = of.system.m;
    let mut x0 = [0.0; sizes::ORIGINALS];
    let mut multipliers0 = [0.0; sizes::COLUMNS];
    solve(of, of.system.c, of.system.b, &mut x0, &mut multipliers0);
    refine(of, &x0[..n], &multipliers0[..m], x, multipliers);
    judged(&of.system, noise, &x[..n], &multipliers[..m])
}

// The solve with room for W and WᵀW, and no more.
fn solve_in(
    l: &[f64],
    system: &System,
    noise: f64,
    w: &mut [f64],
    g: &mut [f64],
    x: &mut [f64],
    multipliers: &mut [f64],
) -> bool
    requires { (system.now.n * system.now.n ≤ length l.now)
        × (Triangular.regular l.now system.now.n ≡ true)
        × (length w.old ≡ system.now.n * system.now.m)
        × (length g.old ≡ system.now.m * system.now.m)
        × (system.now.n ≤ length x.old)
        × (system.now.m ≤ length multipliers.old) }
    ensures { Definition.found_of result (take system.now.n x.new) (take system.now.m multipliers.new)
        ≡ Definition.solve_factored l.now (system_of system.now) noise }
{
    let n = system.n;
    let m = system.m;
    whiten(l, system.e, n, m, w);
    let by = lengths(&w[..], n, m);
    matrix::divide_columns(w, n, m, &by[..m]);
    if !factor_gram(&w[..], n, m, g) {
        return false;
    }
    let of = RangeSpace {
        system: *system,
        l,
        w: &w[..],
        lengths: &by[..m],
        gram: &g[..],
    };
    solve_over(&of, noise, x, multipliers)
}

// Whether there is a solution, which then stands over the starts of x and multipliers. W stands in w, and the factor of WᵀW in gram.
pub fn solve_factored(
    l: &[f64],
    system: &System,
    noise: f64,
    w: &mut [f64],
    gram: &mut [f64],
    x: &mut [f64],
    multipliers: &mut [f64],
) -> bool
    requires { (system.now.n * system.now.n ≤ length l.now)
        × (Triangular.regular l.now system.now.n ≡ true)
        × (system.now.n * system.now.m ≤ length w.old)
        × (system.now.m * system.now.m ≤ length gram.old)
        × (system.now.n ≤ length x.old)
        × (system.now.m ≤ length multipliers.old) }
    ensures { Definition.found_of result (take system.now.n x.new) (take system.now.m multipliers.new)
        ≡ Definition.solve_factored l.now (system_of system.now) noise }
{
    let entries = system.n * system.m;
    let square = system.m * system.m;
    solve_in(
        l,
        system,
        noise,
        &mut w[..entries],
        &mut gram[..square],
        x,
        multipliers,
    )
}
