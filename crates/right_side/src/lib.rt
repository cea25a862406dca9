// qp.rs, a pass of `solve_piecewise_in_units`: the right side of the free problem, which is solved for the step from x: the linear term, the gradient
// and what each constraint lacks.
#![tactic(auto)]

ghost use Rattle.std.specs.Prelude.{◌≡◌, ◌≤◌, ◌*◌, length, take};
ghost use Rattle.sizes.specs.Sizes as Sizes;
ghost use Rattle.vector.specs.Vector.{Below};
ghost use Rattle.right_side.specs.RightSide as RightSide;

// c.select_rows(solved) - slope, over the start of y
pub fn linear(c: &[f64], n: usize, solved: &[usize], slope: &[f64], y: &mut [f64])
    requires { (n ≤ length c.now)
        × (length solved.now ≤ Sizes.originals)
        × Below (length solved.now) solved.now n
        × (length solved.now ≤ length slope.now)
        × (length solved.now ≤ length y.old) }
    ensures { take (length solved.now) y.new
        ≡ RightSide.linear c.now solved.now slope.now }
{
    let k = solved.len();
    let mut cs = [0.0; sizes::ORIGINALS];
    vector::select(c, n, solved, k, &mut cs);
    vector::sub(&cs[..k], slope, k, y);
}

// c - q_rows * x, with k rows of n entries, over the start of y
pub fn gradient(q_rows: &[f64], c: &[f64], k: usize, n: usize, x: &[f64], y: &mut [f64])
    requires { (k ≤ Sizes.originals)
        × (k * n ≤ length q_rows.now)
        × (k ≤ length c.now)
        × (n ≤ length x.now)
        × (k ≤ length y.old) }
    ensures { take k y.new ≡ RightSide.gradient k n q_rows.now c.now x.now }
{
    let mut qx = [0.0; sizes::ORIGINALS];
    matrix::mul_vec(q_rows, k, n, x, &mut qx);
    vector::sub(c, &qx[..k], k, y);
}

// b - e.transpose() * x, over the start of y
pub fn residuals_at(e: &[f64], b: &[f64], n: usize, m: usize, x: &[f64], y: &mut [f64])
    requires { (m ≤ Sizes.columns)
        × (n * m ≤ length e.now)
        × (m ≤ length b.now)
        × (n ≤ length x.now)
        × (m ≤ length y.old) }
    ensures { take m y.new ≡ RightSide.residuals n m e.now b.now x.now }
{
    let mut ex = [0.0; sizes::COLUMNS];
    matrix::tr_mul_vec(e, n, m, x, &mut ex);
    vector::sub(b, &ex[..m], m, y);
}
