// qp.rs, in `solve_piecewise_in_units`: the free variables' moves, along a step and to a target, and whether x is where it was.
#![tactic(auto)]

ghost use Rattle.std.specs.Prelude.{◌≡◌, ◌≤◌, length};
ghost use Rattle.folds.specs.Fold.{out};
ghost use Rattle.vector.specs.Vector.{Below};
ghost use Rattle.stepping.specs.Stepping as Stepping;

// Moves the variables `indices` from x_free by `step` along the direction, each held between its ends.
pub fn move_along(
    x: &mut [f64],
    indices: &[usize],
    x_free: &[f64],
    direction: &[f64],
    step: f64,
    lower: &[f64],
    upper: &[f64],
)
    requires { Below (length indices.now) indices.now (length x.old)
        × (length indices.now ≤ length x_free.now)
        × (length indices.now ≤ length direction.now)
        × (length indices.now ≤ length lower.now)
        × (length indices.now ≤ length upper.now) }
    ensures { x.new
        ≡ Stepping.move_along indices.now x_free.now direction.now step lower.now upper.now
        x.old }
{
    for (k, i) in indices.iter().enumerate() {
        x[*i] = arith::clamp(x_free[k] + step * direction[k], lower[k], upper[k]);
    }
}

// Puts the variables `indices` at their target, each held between its ends; whether one of them moved by more than the tolerance.
pub fn settle(
    x: &mut [f64],
    indices: &[usize],
    target: &[f64],
    lower: &[f64],
    upper: &[f64],
    tolerance: f64,
) -> bool
    requires { Below (length indices.now) indices.now (length x.old)
        × (length indices.now ≤ length target.now)
        × (length indices.now ≤ length lower.now)
        × (length indices.now ≤ length upper.now) }
    ensures { out result x.new
        ≡ Stepping.settle indices.now target.now lower.now upper.now tolerance x.old }
{
    let mut moved = false;
    for (k, i) in indices.iter().enumerate() {
        let next = arith::clamp(target[k], lower[k], upper[k]);
        moved |= arith::abs(next - x[*i]) > tolerance;
        x[*i] = next;
    }
    moved
}

// Whether the first n entries are equal: a NaN differs from itself, and -0 equals +0.
pub fn same_point(a: &[f64], b: &[f64], n: usize) -> bool
    requires { (n ≤ length a.now) × (n ≤ length b.now) }
    ensures { result ≡ Stepping.same_point n a.now b.now }
{
    a[..n] == b[..n]
}
