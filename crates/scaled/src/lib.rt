// qp.rs: `kkt_residual`, `within_rounding` and `Scaled`. K is n by n, E is n by m, with up to 32 variables and 24 columns.
#![tactic(auto)]

ghost use Rattle.std.specs.Prelude.{◌≡◌, ◌≤◌, ◌<◌, ◌*◌, length, take};
ghost use Rattle.sizes.specs.Sizes as Sizes;
ghost use Rattle.folds.specs.Fold.{over};
ghost use Rattle.matrix.specs.Matrix.{columns_divided};
ghost use Rattle.scaled.specs.Given.{system_of};
ghost use Rattle.scaled.specs.Scaled as Definition;

pub mod system;

pub use system::System;

// How far x and the multipliers are from solving the system, and the size of the terms that is a difference of.
#[derive(Drop)]
pub struct Residual {
    pub residual: f64,
    pub size: f64,
}

// ‖Kx + Eλ − c‖
fn stationarity(system: &System, x: &[f64], multipliers: &[f64]) -> f64
    requires { (system.now.n ≤ length x.now) × (system.now.m ≤ length multipliers.now) }
    ensures { result
        ≡ Definition.stationarity system.now.n system.now.m system.now.k.now system.now.c.now
        system.now.e.now x.now multipliers.now }
{
    let n = system.n;
    let m = system.m;
    let mut kx = [0.0; sizes::ORIGINALS];
    let mut el = [0.0; sizes::ORIGINALS];
    let mut left = [0.0; sizes::ORIGINALS];
    matrix::mul_vec(system.k, n, n, x, &mut kx);
    matrix::mul_vec(system.e, n, m, multipliers, &mut el);
    vector::add(&kx[..n], &el[..n], n, &mut left);
    vector::sub_from(&mut left, n, system.c);
    reductions::scaled_norm(&left[..n], n)
}

// ‖Eᵀx − b‖
fn feasibility(system: &System, x: &[f64]) -> f64
    requires { system.now.n ≤ length x.now }
    ensures { result
        ≡ Definition.feasibility system.now.n system.now.m system.now.e.now system.now.b.now x.now }
{
    let n = system.n;
    let m = system.m;
    let mut left = [0.0; sizes::COLUMNS];
    matrix::tr_mul_vec(system.e, n, m, x, &mut left);
    vector::sub_from(&mut left, m, system.b);
    reductions::scaled_norm(&left[..m], m)
}

fn size(system: &System, x: &[f64], multipliers: &[f64], noise: f64) -> f64
    requires { (system.now.n ≤ length x.now) × (system.now.m ≤ length multipliers.now) }
    ensures { result ≡ Definition.size (system_of system.now) x.now multipliers.now noise }
{
    let n = system.n;
    let m = system.m;
    let x_norm = reductions::scaled_norm(x, n);
    let k_terms = reductions::scaled_norm(system.k, n * n) * x_norm;
    let e_terms = reductions::scaled_norm(system.e, n * m)
        * (x_norm + reductions::scaled_norm(multipliers, m));
    k_terms
        + e_terms
        + reductions::scaled_norm(system.c, n)
        + reductions::scaled_norm(system.b, m)
        + noise
}

pub fn kkt_residual(system: &System, x: &[f64], multipliers: &[f64], noise: f64) -> Residual
    requires { (system.now.n ≤ length x.now) × (system.now.m ≤ length multipliers.now) }
    ensures { result ≡ Definition.kkt_residual (system_of system.now) x.now multipliers.now noise }
{
    let residual = stationarity(system, x, multipliers) + feasibility(system, x);
    let size = size(system, x, multipliers, noise);
    Residual { residual, size }
}

// ∞ ≤ ∞ holds, so a check that overflows would pass.
pub fn within_rounding(r: Residual) -> Option<bool>
    ensures { result ≡ Definition.within_rounding r }
{
    if !arith::is_finite(r.residual) || !arith::is_finite(r.size) {
        return None;
    }
    Some(r.residual <= 1e-8 * r.size)
}

// K's scale, unless its average diagonal entry is negative or not finite. A zero K, as the free block of a linear objective is, keeps scale 1.
pub fn k_scale(k: &[f64], n: usize) -> Option<f64>
    requires { n * n ≤ length k.now }
    ensures { result ≡ Definition.k_scale n k.now }
{
    let average = matrix::trace(k, n) / std::num::nearest_usize_to_f64(n);
    if average == 0.0 {
        return Some(1.0);
    }
    if arith::is_finite(average) && average > 0.0 {
        return Some(average);
    }
    None
}

fn above_0_or_1(s: f64) -> f64
    ensures { result ≡ Definition.above0_or1 s }
{
    if s > 0.0 { s } else { 1.0 }
}

pub fn column_scales(e: &[f64], n: usize, m: usize) -> [f64; sizes::COLUMNS]
    requires { (m ≤ Sizes.columns) × (n * m ≤ length e.now) }
    ensures { take m result ≡ Definition.column_scales n m e.now }
{
    let mut y = [0.0; sizes::COLUMNS];
    columns::columns_amax(e, n, m, &mut y);
    vector::write_each(&mut y, m, |_, s| above_0_or_1(s));
    y
}

// E, each column over its scale, over the start of y.
pub fn scaled_e(e: &[f64], n: usize, m: usize, scales: &[f64], y: &mut [f64])
    requires { (n ≤ Sizes.variables)
        × (m ≤ Sizes.columns)
        × (n * m ≤ length e.now)
        × (m ≤ length scales.now)
        × (n * m ≤ length y.old) }
    ensures { y.new ≡ over (columns_divided n m e.now scales.now) y.old }
{
    vector::copy(e, n * m, y);
    matrix::divide_columns(y, n, m, scales);
}
