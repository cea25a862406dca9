// qp.rs: the answers of `solve_noisy_kkt` and `solve_kkt`, and what is done with them. K is n by n, E is n by m, up to 32 and 24.
#![tactic(auto)]

ghost use Rattle.std.specs.Prelude.{◌≡◌, ◌≤◌, ℕ, length, take};
ghost use Rattle.sizes.specs.Sizes as Sizes;
ghost use Rattle.scaled.specs.Given.{system_of};
ghost use Rattle.solution.specs.Solution as Definition;

use scaled::System;

// Why a solve gives no solution.
#[derive(Clone, Copy, Debug, PartialEq, Eq)]
pub enum KktError {
    NoOptimum,
    NonFiniteCovariance,
    SingularCovariance,
}

#[derive(Clone, Copy)]
pub struct Solution {
    pub x: [f64; sizes::VARIABLES],
    pub multipliers: [f64; sizes::COLUMNS],
}

// x and the multipliers if they solve the system to within rounding and x is finite.
pub fn judged(
    system: &System,
    x: [f64; sizes::VARIABLES],
    multipliers: [f64; sizes::COLUMNS],
    noise: f64,
) -> Result<Solution, KktError>
    ensures { Definition.solution_of system.now.n system.now.m result
        ≡ Definition.judged (system_of system.now) (take system.now.n x) (take system.now.m multipliers) noise }
{
    let n = system.n;
    let residual = scaled::kkt_residual(system, &x[..n], &multipliers[..system.m], noise);
    match scaled::within_rounding(residual) {
        None => return Err(KktError::SingularCovariance),
        Some(false) => return Err(KktError::NoOptimum),
        Some(true) => {}
    }
    if !reductions::all_finite(&x[..n], n) {
        return Err(KktError::SingularCovariance);
    }
    Ok(Solution { x, multipliers })
}

fn rescaled_multipliers(
    multipliers: &[f64],
    scale: f64,
    columns: &[f64],
    m: usize,
) -> [f64; sizes::COLUMNS]
    requires { (m ≤ Sizes.columns) × (m ≤ length multipliers.now) × (m ≤ length columns.now) }
    ensures { take m result ≡ Definition.rescaled_multipliers m multipliers.now scale columns.now }
{
    let mut y = [0.0; sizes::COLUMNS];
    vector::write_each(&mut y, m, |j, _| multipliers[j] * scale / columns[j]);
    y
}

// The multipliers of the system before K and the columns of E were scaled.
pub fn rescaled(
    answer: Result<Solution, KktError>,
    scale: f64,
    columns: &[f64],
    m: usize,
) -> Result<Solution, KktError>
    requires { (m ≤ Sizes.columns) × (m ≤ length columns.now) }
    ensures { (n : ℕ) → Definition.solution_of n m result
        ≡ Definition.rescaled m scale columns.now (Definition.solution_of n m answer) }
{
    let s = answer?;
    let x = s.x;
    let multipliers = s.multipliers;
    let multipliers = rescaled_multipliers(&multipliers[..m], scale, columns, m);
    Ok(Solution { x, multipliers })
}
