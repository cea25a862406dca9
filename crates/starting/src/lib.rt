// qp.rs, `solve_piecewise_in_units` before its passes: which variables are fixed, the largest values of the problem, and the first iterate: the start
// held to its range, with each variable's first state. Q is n by n.
#![tactic(auto)]

ghost use Rattle.std.specs.Prelude.{◌≡◌, false, ◌≤◌, ◌*◌, length, replicate};
ghost use Rattle.folds.specs.Fold.{over};
ghost use Rattle.sizes.specs.Sizes as Sizes;
ghost use Rattle.arith.specs.Float.{f0};
ghost use Rattle.arith.specs.Scalar.{max};
ghost use Rattle.reductions.specs.Reductions.{amax};
ghost use Rattle.segments.specs.Segments.{Cut, AllCut, AllPlaced};
ghost use Rattle.segments.specs.Start.{first};
ghost use Rattle.starting.specs.Starting as Starting;

use blocking::Board;
use iterate::{Iterate, Magnitudes};
use segments::{Segments, State};

// This one and the next two go by index: of what is written through a zip's `iter_mut` the library says nothing.
pub fn all_fixed(segments: [Segments; sizes::VARIABLES], n: usize) -> [bool; sizes::VARIABLES]
    requires { (n ≤ Sizes.variables) × AllCut n segments }
    ensures { result ≡ over (Starting.all_fixed n segments) (replicate Sizes.variables false) }
{
    let mut fixed = [false; sizes::VARIABLES];
    for i in 0..n {
        fixed[i] = segments[i].fixed();
    }
    fixed
}

pub fn all_held(
    segments: [Segments; sizes::VARIABLES],
    n: usize,
    start: &[f64],
) -> [f64; sizes::VARIABLES]
    requires { (n ≤ Sizes.variables) × (n ≤ length start.now) × AllCut n segments }
    ensures { result ≡ over (Starting.all_held n segments start.now) (replicate Sizes.variables f0) }
{
    let mut x = [0.0; sizes::VARIABLES];
    for i in 0..n {
        x[i] = segments[i].held(start[i]);
    }
    x
}

pub fn all_placed(
    segments: [Segments; sizes::VARIABLES],
    n: usize,
    x: &[f64],
) -> [State; sizes::VARIABLES]
    requires { (n ≤ Sizes.variables) × (n ≤ length x.now) × AllCut n segments }
    ensures value { result ≡ over (Starting.all_placed n segments x.now) (replicate Sizes.variables first) }
    ensures all_placed { AllPlaced n segments result }
{
    let mut state = [State::At(0); sizes::VARIABLES];
    for i in 0..n {
        state[i] = segments[i].place(x[i]);
    }
    state
}

fn slopes_amax(s: Segments, from: f64) -> f64
    requires { Cut s }
    ensures { result ≡ Starting.slopes_amax s from }
{
    let mut m = from;
    for slope in &s.slopes[..s.last()] {
        m = arith::max(m, arith::abs(*slope));
    }
    m
}

// The largest slope of all.
pub fn slope_amax(segments: [Segments; sizes::VARIABLES], n: usize) -> f64
    requires { (n ≤ Sizes.variables) × AllCut n segments }
    ensures { result ≡ Starting.slope_amax n segments }
{
    let mut m = 0.0;
    for s in &segments[..n] {
        m = slopes_amax(*s, m);
    }
    m
}

// The largest absolute values: of Q, and of c and the slopes.
pub fn magnitudes(
    q: &[f64],
    c: &[f64],
    segments: [Segments; sizes::VARIABLES],
    n: usize,
) -> Magnitudes
    requires { (n ≤ Sizes.variables) × (n * n ≤ length q.now) × (n ≤ length c.now) × AllCut n segments }
    ensures q_value { result.q ≡ amax (n * n) q.now }
    ensures linear_value { result.linear ≡ max (amax n c.now) (Starting.slope_amax n segments) }
{
    let c_amax = reductions::amax(c, n);
    let slopes = slope_amax(segments, n);
    Magnitudes {
        q: reductions::amax(q, n * n),
        linear: arith::max(c_amax, slopes),
    }
}

pub fn started(segments: [Segments; sizes::VARIABLES], n: usize, start: &[f64]) -> Iterate
    requires { (n ≤ Sizes.variables) × (n ≤ length start.now) × AllCut n segments }
    ensures { result ≡ Starting.started n segments start.now }
{
    let x = all_held(segments, n, start);
    let state = all_placed(segments, n, &x[..n]);
    let board = Board {
        x,
        state,
        refused: [false; sizes::VARIABLES],
    };
    Iterate {
        board,
        released: None,
        freed: false,
        freed_at: [0.0; sizes::VARIABLES],
    }
}
