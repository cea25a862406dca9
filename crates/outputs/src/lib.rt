// What the engine's public calls leave for an answer: its number and, where it is an optimum, the caller's x and multipliers (with up to 32 variables
// and 24 columns), the passes made and the raise; whatever is not 0 leaves them as they were.
#![tactic(auto)]

ghost use Rattle.std.specs.Prelude.{◌≡◌, ◌≤◌, length, take};
ghost use Rattle.sizes.specs.Sizes as Sizes;
ghost use Rattle.solution.specs.Solution.{solution_of};
ghost use Rattle.minimum.specs.Minimized.{minimized_of};
ghost use Rattle.minimum.specs.Capped.{capped_of};
ghost use Rattle.outputs.specs.Kkt as Kkt;
ghost use Rattle.outputs.specs.Piecewise as Piecewise;
ghost use Rattle.outputs.specs.Capped as Capped;

use iterate::SolveError;
use minimum::{CappedMinimum, Minimum};
use solution::{KktError, Solution};

// x and the multipliers, in the caller's slices.
fn copy_out(
    optimum: [f64; sizes::VARIABLES],
    lambda: [f64; sizes::COLUMNS],
    n: usize,
    w: usize,
    x: &mut [f64],
    multipliers: &mut [f64],
)
    requires { (n ≤ Sizes.originals) × (w ≤ Sizes.columns) × (length x.old ≡ n) × (length multipliers.old ≡ w) }
    ensures { (x.new ≡ take n optimum) × (multipliers.new ≡ take w lambda) }
{
    vector::copy(&optimum[..n], n, x);
    vector::copy(&lambda[..w], w, multipliers);
}

// The number of an answer; x and the multipliers of a solution are written.
pub fn write_solution(
    answer: Result<Solution, KktError>,
    n: usize,
    m: usize,
    x: &mut [f64],
    multipliers: &mut [f64],
) -> u32
    requires { (n ≤ Sizes.originals) × (m ≤ Sizes.columns) × (length x.old ≡ n) × (length multipliers.old ≡ m) }
    ensures { Kkt.Written (Kkt.engine (solution_of n m answer)) result
        x.old x.new multipliers.old multipliers.new }
{
    match answer {
        Ok(s) => {
            copy_out(s.x, s.multipliers, n, m, x, multipliers);
            0
        }
        Err(KktError::NoOptimum) => 100,
        Err(KktError::NonFiniteCovariance) => 11,
        Err(KktError::SingularCovariance) => 12,
    }
}

// Document 01's number of an error.
pub fn error_number(error: SolveError) -> u32
    ensures { result ≡ Piecewise.error_number error }
{
    match error {
        SolveError::NonFiniteCovariance => 11,
        SolveError::SingularCovariance => 12,
        SolveError::Unbounded => 13,
        SolveError::NotConverged => 14,
    }
}

// 0 where there is an optimum, whose x, multipliers and passes are written, and else the error's number.
pub fn write_minimum(
    solved: Result<Minimum, SolveError>,
    n: usize,
    w: usize,
    x: &mut [f64],
    multipliers: &mut [f64],
    passes: &mut u64,
) -> u32
    requires { (n ≤ Sizes.originals) × (w ≤ Sizes.columns) × (length x.old ≡ n) × (length multipliers.old ≡ w) }
    ensures { Piecewise.Written (Piecewise.engine (minimized_of n w solved)) result
        x.old x.new multipliers.old multipliers.new passes.old passes.new }
{
    match solved {
        Ok(optimum) => {
            let optimal_x = optimum.x;
            let lambda = optimum.multipliers;
            copy_out(optimal_x, lambda, n, w, x, multipliers);
            *passes = optimum.passes as u64;
            0
        }
        Err(error) => error_number(error),
    }
}

// The same, with the raise.
pub fn write_capped(
    solved: Result<CappedMinimum, SolveError>,
    n: usize,
    w: usize,
    x: &mut [f64],
    multipliers: &mut [f64],
    passes: &mut u64,
    raise: &mut f64,
) -> u32
    requires { (n ≤ Sizes.originals) × (w ≤ Sizes.columns) × (length x.old ≡ n) × (length multipliers.old ≡ w) }
    ensures { Capped.Written (Capped.engine (capped_of n w solved)) result
        x.old x.new multipliers.old multipliers.new passes.old passes.new
        raise.old raise.new }
{
    match solved {
        Ok(optimum) => {
            let raised = optimum.raise;
            let number = write_minimum(Ok(optimum.minimum), n, w, x, multipliers, passes);
            *raise = raised;
            number
        }
        Err(error) => write_minimum(Err(error), n, w, x, multipliers, passes),
    }
}
