// qp.rs: how far a step goes: `ratio_test` along a direction, and the full step's own rule towards a target.
#![tactic(auto)]

ghost use Rattle.std.specs.Prelude.{◌≡◌, ◌≤◌, length};
ghost use Rattle.folds.specs.Best.{better};
ghost use Rattle.step_length.specs.StepLength as StepLength;
ghost use Rattle.step_length.specs.StepLength.{shorter, Entries};

const ROUNDING: f64 = 1e-12;

// Which end of its segment a variable reaches.
#[derive(Drop)]
pub enum Side {
    Lower,
    Upper,
}

// Of two steps, each with the entry that reaches an end there and which end: the smaller, and the first where they are equal.
fn min_by(
    best: Option<(f64, usize, Side)>,
    other: Option<(f64, usize, Side)>,
) -> Option<(f64, usize, Side)>
    ensures { result ≡ better shorter best other }
{
    let Some((t, _, _)) = other else {
        return best;
    };
    let Some((u, _, _)) = best else {
        return other;
    };
    if arith::total_less(t, u) {
        return other;
    }
    best
}

fn moves_down(d: f64, lower: f64, tolerance: f64) -> bool
    ensures { result ≡ StepLength.moves_down d lower tolerance }
{
    d < -tolerance && arith::is_finite(lower)
}

fn moves_up(d: f64, upper: f64, tolerance: f64) -> bool
    ensures { result ≡ StepLength.moves_up d upper tolerance }
{
    d > tolerance && arith::is_finite(upper)
}

// The end that entry k reaches, moving from x along d.
fn end_reached(
    x: f64,
    d: f64,
    lower: f64,
    upper: f64,
    tolerance: f64,
    k: usize,
) -> Option<(f64, usize, Side)>
    ensures { result ≡ StepLength.end_reached x d lower upper tolerance k }
{
    if moves_down(d, lower, tolerance) {
        return Some(((x - lower) / -d, k, Side::Lower));
    }
    if moves_up(d, upper, tolerance) {
        return Some(((upper - x) / d, k, Side::Upper));
    }
    None
}

// The largest step along d that keeps the first n entries between their ends. By index, as in the source: a zip of four slices is no plainer.
pub fn ratio_test(
    x: &[f64],
    d: &[f64],
    lower: &[f64],
    upper: &[f64],
    n: usize,
) -> Option<(f64, usize, Side)>
    requires { Entries n x.now d.now lower.now upper.now }
    ensures { result ≡ StepLength.ratio_test n x.now d.now lower.now upper.now }
{
    let tolerance = ROUNDING * reductions::amax(d, n);
    let mut best = None;
    for k in 0..n {
        let end = end_reached(x[k], d[k], lower[k], upper[k], tolerance, k);
        best = min_by(best, end);
    }
    best
}

// The full step's tolerance: of the target's first `solved` entries and the first `originals` of x, no slack among either.
pub fn step_tolerance(target: &[f64], solved: usize, x: &[f64], originals: usize) -> f64
    requires { (solved ≤ length target.now) × (originals ≤ length x.now) }
    ensures { result ≡ StepLength.step_tolerance solved target.now originals x.now }
{
    ROUNDING
        * arith::max(
            reductions::amax(target, solved),
            reductions::amax(x, originals),
        )
}

// The end that entry k passes on the way from x to its target.
fn end_passed(
    x: f64,
    target: f64,
    lower: f64,
    upper: f64,
    tolerance: f64,
    k: usize,
) -> Option<(f64, usize, Side)>
    ensures { result ≡ StepLength.end_passed x target lower upper tolerance k }
{
    if target < lower - tolerance {
        return Some(((x - lower) / (x - target), k, Side::Lower));
    }
    if target > upper + tolerance {
        return Some(((upper - x) / (target - x), k, Side::Upper));
    }
    None
}

// The first end that the first n entries pass on the way to the target, by index too.
pub fn first_passed(
    x: &[f64],
    target: &[f64],
    lower: &[f64],
    upper: &[f64],
    n: usize,
    tolerance: f64,
) -> Option<(f64, usize, Side)>
    requires { Entries n x.now target.now lower.now upper.now }
    ensures { result
        ≡ StepLength.first_passed n x.now target.now lower.now upper.now tolerance }
{
    let mut best = None;
    for k in 0..n {
        let end = end_passed(x[k], target[k], lower[k], upper[k], tolerance, k);
        best = min_by(best, end);
    }
    best
}
