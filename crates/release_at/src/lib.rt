// qp.rs, the release in `solve_piecewise_in_units`, at x: the gradient, what the constraints push back, and the scale that the rates are measured by.
#![tactic(auto)]

ghost use Rattle.std.specs.Prelude.{◌≡◌, ◌≤◌, ◌*◌, length};
ghost use Rattle.folds.specs.Fold.{over};
ghost use Rattle.sizes.specs.Sizes as Sizes;
ghost use Rattle.segments.specs.Segments.{AllCut, AllPlaced};
ghost use Rattle.release_at.specs.ReleaseAt as ReleaseAt;
ghost use Rattle.release_at.specs.ReleaseAt.{Shape};

use blocking::Board;
use iterate::{Counts, Magnitudes};
use releasing::Outcome;
use segments::Segments;

// gradient = q * &x - c
fn gradient_at(q: &[f64], c: &[f64], n: usize, x: &[f64], gradient: &mut [f64])
    requires { (n ≤ Sizes.variables)
        × (n * n ≤ length q.now)
        × (n ≤ length c.now)
        × (n ≤ length x.now)
        × (n ≤ length gradient.old) }
    ensures { gradient.new ≡ over (ReleaseAt.gradient n q.now c.now x.now) gradient.old }
{
    let mut qx = [0.0; sizes::VARIABLES];
    matrix::mul_vec(q, n, n, x, &mut qx);
    vector::sub(&qx[..n], c, n, gradient);
}

// The size of the terms that the multipliers are differences of. The magnitudes are q.amax() and c.amax().max(slope_amax).
fn scale(magnitudes: Magnitudes, x: &[f64], originals: usize, pushback: &[f64], n: usize) -> f64
    requires { (originals ≤ length x.now) × (n ≤ length pushback.now) }
    ensures { result
        ≡ ReleaseAt.scale magnitudes.q magnitudes.linear originals x.now n pushback.now }
{
    arith::max(
        magnitudes.q * reductions::amax(x, originals) + magnitudes.linear,
        reductions::amax(pushback, n),
    )
}

// Which held variable leaves the active set at x, if any.
pub fn release(
    board: Board,
    segments: [Segments; sizes::VARIABLES],
    fixed: &[bool],
    q: &[f64],
    c: &[f64],
    e: &[f64],
    counts: Counts,
    magnitudes: Magnitudes,
    multipliers: &[f64],
) -> Outcome
    requires { Shape counts.originals counts.n counts.m q.now c.now e.now
        × AllCut counts.n segments
        × AllPlaced counts.n segments board.state
        × (counts.n ≤ length fixed.now)
        × (counts.m ≤ length multipliers.now) }
    ensures { result
        ≡ ReleaseAt.release counts.originals counts.n counts.m q.now c.now e.now segments
        fixed.now magnitudes.q magnitudes.linear multipliers.now board }
{
    let originals = counts.originals;
    let n = counts.n;
    let m = counts.m;
    let x = board.x;
    let state = board.state;
    let refused = board.refused;
    let mut gradient = [0.0; sizes::VARIABLES];
    gradient_at(q, c, n, &x[..n], &mut gradient);
    let mut pushback = [0.0; sizes::VARIABLES];
    matrix::mul_vec(e, n, m, multipliers, &mut pushback);
    let scale = scale(magnitudes, &x[..n], originals, &pushback[..n], n);
    releasing::release(
        segments,
        state,
        fixed,
        &refused[..n],
        &gradient[..n],
        &pushback[..n],
        n,
        scale,
    )
}
