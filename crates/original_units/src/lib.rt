// qp.rs, `solve_piecewise` after the solve in `Units`: an answer, back in the units of the caller, where it meets the constraints and the rows.
// n originals, m equality columns and r rows; E is n by m, the rows' a is n by r.
#![tactic(auto)]

ghost use Rattle.std.specs.Prelude.{◌≡◌, ◌≤◌, ◌+◌, ◌*◌, length, take};
ghost use Rattle.sizes.specs.Sizes as Sizes;
ghost use Rattle.minimum.specs.Minimized.{minimized_of};
ghost use Rattle.original_units.specs.Original as Definition;
ghost use Rattle.original_units.specs.Holds.{Restores};

use iterate::SolveError;
use minimum::Minimum;

// Whether x meets the constraints and the rows.
fn feasible(
    x: &[f64],
    e: &[f64],
    b: &[f64],
    columns: &[f64],
    a: &[f64],
    row_lower: &[f64],
    row_upper: &[f64],
    n: usize,
    m: usize,
    r: usize,
) -> bool
    requires { (n ≤ Sizes.variables)
        × (n ≤ length x.now)
        × (n * m ≤ length e.now)
        × (m ≤ length b.now)
        × (m ≤ length columns.now)
        × (n * r ≤ length a.now)
        × (r ≤ length row_lower.now)
        × (r ≤ length row_upper.now) }
    ensures { result
        ≡ Definition.feasible n m r x.now e.now b.now columns.now a.now
        row_lower.now row_upper.now }
{
    if units::checked(x, e, b, columns, n, m) {
        return row_test::meets_rows(x, a, row_lower, row_upper, n, r);
    }
    false
}

// A point in `Units`, restored, with its multipliers, if it meets the constraints and the rows there.
fn restored(
    solved: Minimum,
    e: &[f64],
    b: &[f64],
    a: &[f64],
    row_lower: &[f64],
    row_upper: &[f64],
    scales: &[f64],
    columns: &[f64],
    n: usize,
    m: usize,
    r: usize,
) -> Result<Minimum, SolveError>
    requires { Restores n m r e.now b.now a.now row_lower.now row_upper.now scales.now columns.now }
    ensures { minimized_of n (m + r) result
        ≡ Definition.restored n m r e.now b.now a.now row_lower.now row_upper.now
        scales.now columns.now (take (n + r) solved.x) (take (m + r) solved.multipliers) solved.passes }
{
    let v = n + r;
    let w = m + r;
    let mut x = [0.0; sizes::VARIABLES];
    vector::div(&solved.x[..v], scales, n, &mut x);
    if feasible(&x[..n], e, b, columns, a, row_lower, row_upper, n, m, r) {
        let mut multipliers = [0.0; sizes::COLUMNS];
        vector::div(&solved.multipliers[..w], columns, w, &mut multipliers);
        return Ok(Minimum {
            x: x,
            multipliers: multipliers,
            passes: solved.passes,
        });
    }
    Err(SolveError::SingularCovariance)
}

// What is refused passes.
pub fn original(
    solved: Result<Minimum, SolveError>,
    e: &[f64],
    b: &[f64],
    a: &[f64],
    row_lower: &[f64],
    row_upper: &[f64],
    scales: &[f64],
    columns: &[f64],
    n: usize,
    m: usize,
    r: usize,
) -> Result<Minimum, SolveError>
    requires { Restores n m r e.now b.now a.now row_lower.now row_upper.now scales.now columns.now }
    ensures { minimized_of n (m + r) result
        ≡ Definition.original n m r e.now b.now a.now row_lower.now row_upper.now
        scales.now columns.now (minimized_of (n + r) (m + r) solved) }
{
    let optimum = solved?;
    restored(
        optimum, e, b, a, row_lower, row_upper, scales, columns, n, m, r,
    )
}
