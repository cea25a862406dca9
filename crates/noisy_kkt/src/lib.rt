// qp.rs, `solve_noisy_kkt`. K is n by n, E is n by m, with up to 32 variables and 24 columns. The `&mut` slices are work memory.
#![tactic(auto)]

ghost use Rattle.std.specs.Prelude.{◌≡◌, ◌≤◌, ◌*◌, length};
ghost use Rattle.sizes.specs.Sizes as Sizes;
ghost use Rattle.scaled.specs.Given.{system_of};
ghost use Rattle.solution.specs.Solution.{solution_of};
ghost use Rattle.noisy_kkt.specs.NoisyKkt as Definition;

use scaled::System;
use solution::{KktError, Solution};

// `Scaled::new` with K's scale, the solve, and the multipliers scaled back.
fn solve_by_in(
    system: &System,
    noise: f64,
    scale: f64,
    ks: &mut [f64],
    es: &mut [f64],
    coefficients: &mut [f64],
    range: &mut [f64],
    null: &mut [f64],
) -> Result<Solution, KktError>
    requires { (system.now.n * system.now.n ≤ length ks.old)
        × (system.now.n * system.now.m ≤ length es.old)
        × (system.now.n * system.now.m ≤ length coefficients.old)
        × (system.now.n * system.now.m ≤ length range.old)
        × (system.now.n * system.now.n ≤ length null.old) }
    ensures { solution_of system.now.n system.now.m result
        ≡ Definition.solve_by (system_of system.now) noise scale }
{
    let n = system.n;
    let m = system.m;
    let columns = scaled::column_scales(system.e, n, m);
    let square = n * n;
    let entries = n * m;
    vector::divided(system.k, square, scale, ks);
    scaled::scaled_e(system.e, n, m, &columns[..m], es);
    let c = dense::divided(system.c, n, scale);
    let b = dense::div(system.b, &columns[..m], m);
    let problem = System {
        k: &ks[..square],
        c: &c[..n],
        e: &es[..entries],
        b: &b[..m],
        n,
        m,
    };
    let answer = scaled_kkt::solve_scaled(&problem, noise / scale, coefficients, range, null);
    solution::rescaled(answer, scale, &columns[..m], m)
}

// In work memory of SQUARE and TALL numbers.
fn solve_by_within<const SQUARE: usize, const TALL: usize>(
    system: &System,
    noise: f64,
    scale: f64,
) -> Result<Solution, KktError>
    requires { (system.now.n * system.now.n ≤ SQUARE)
        × (system.now.n * system.now.m ≤ TALL)
        × (SQUARE ≤ Sizes.originals * Sizes.originals)
        × (TALL ≤ Sizes.originals * Sizes.columns) }
    ensures { solution_of system.now.n system.now.m result
        ≡ Definition.solve_by (system_of system.now) noise scale }
{
    let mut ks = [0.0; SQUARE];
    let mut es = [0.0; TALL];
    let mut coefficients = [0.0; TALL];
    let mut range = [0.0; TALL];
    let mut null = [0.0; SQUARE];
    solve_by_in(
        system,
        noise,
        scale,
        &mut ks,
        &mut es,
        &mut coefficients,
        &mut range,
        &mut null,
    )
}

// In work memory of its size.
fn solve_by(system: &System, noise: f64, scale: f64) -> Result<Solution, KktError>
    ensures { solution_of system.now.n system.now.m result
        ≡ Definition.solve_by (system_of system.now) noise scale }
{
    if system.n <= sizes::FEW && system.m <= sizes::FEW {
        return solve_by_within::<{ sizes::SMALL }, { sizes::SMALL }>(system, noise, scale);
    }
    solve_by_within::<{ sizes::SQUARE }, { sizes::TALL }>(system, noise, scale)
}

fn finite(k: &[f64], c: &[f64], n: usize) -> bool
    requires { (n ≤ Sizes.originals) × (n * n ≤ length k.now) × (n ≤ length c.now) }
    ensures { result ≡ Definition.finite n k.now c.now }
{
    reductions::all_finite(k, n * n) && reductions::all_finite(c, n)
}

pub fn solve_noisy_kkt(system: &System, noise: f64) -> Result<Solution, KktError>
    ensures { solution_of system.now.n system.now.m result
        ≡ Definition.solve_noisy_kkt (system_of system.now) noise }
{
    if !finite(system.k, system.c, system.n) {
        return Err(KktError::NonFiniteCovariance);
    }
    let Some(scale) = scaled::k_scale(system.k, system.n) else {
        return Err(KktError::SingularCovariance);
    };
    solve_by(system, noise, scale)
}
