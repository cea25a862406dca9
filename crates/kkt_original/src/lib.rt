// qp.rs, `solve_kkt`: a solution in `Units`, back in the units of the caller.
#![tactic(auto)]

ghost use Rattle.std.specs.Prelude.{◌≡◌, ◌≤◌, ◌*◌, length, take};
ghost use Rattle.vector.specs.Vector as Vector;
ghost use Rattle.sizes.specs.Sizes as Sizes;
ghost use Rattle.solution.specs.Solution.{solution_of};
ghost use Rattle.kkt_original.specs.Original as Definition;

use solution::{KktError, Solution};

// `original_multipliers`
fn original_multipliers(multipliers: &[f64], columns: &[f64], m: usize) -> [f64; sizes::COLUMNS]
    requires { (m ≤ Sizes.columns) × (m ≤ length multipliers.now) × (m ≤ length columns.now) }
    ensures { take m result ≡ Vector.div m multipliers.now columns.now }
{
    let mut y = [0.0; sizes::COLUMNS];
    vector::div(multipliers, columns, m, &mut y);
    y
}

// A solution in `Units`, restored and checked against the constraints; an error passes.
pub fn original(
    s: Result<Solution, KktError>,
    e: &[f64],
    b: &[f64],
    scales: &[f64],
    columns: &[f64],
    n: usize,
    m: usize,
) -> Result<Solution, KktError>
    requires { (n ≤ Sizes.originals)
        × (m ≤ Sizes.columns)
        × (n * m ≤ length e.now)
        × (m ≤ length b.now)
        × (n ≤ length scales.now)
        × (m ≤ length columns.now) }
    ensures { solution_of n m result
        ≡ Definition.original n m e.now b.now scales.now columns.now (solution_of n m s) }
{
    let Solution { x, multipliers } = match s {
        Ok(s) => s,
        Err(error) => return Err(error),
    };
    let x = dense::div(&x[..n], scales, n);
    if !units::checked(&x[..n], e, b, columns, n, m) {
        return Err(KktError::SingularCovariance);
    }
    let multipliers = original_multipliers(&multipliers[..m], columns, m);
    Ok(Solution { x, multipliers })
}
