// qp.rs, `solve_piecewise` and `solve_bounded`, the public calls.
#![tactic(auto)]

ghost use Rattle.quadratic.specs.Quadratic.{quadratic};
ghost use Rattle.piecewise.specs.Piecewise.{bounded, Answered};

// Minimizes ½xᵀQx − cᵀx + Σᵢ κᵢ|xᵢ − aᵢ| subject to Eᵀx = b, to the bounds and to the rows' limits, from start; at are the kinks' a, slopes their κ.
pub fn solve_piecewise(
    q: &[f64],
    c: &[f64],
    e: &[f64],
    b: &[f64],
    lower: &[f64],
    upper: &[f64],
    a: &[f64],
    row_lower: &[f64],
    row_upper: &[f64],
    at: &[f64],
    slopes: &[f64],
    start: &[f64],
    n: usize,
    m: usize,
    r: usize,
    x: &mut [f64],
    multipliers: &mut [f64],
    passes: &mut u64,
) -> u32
    ensures { Answered (quadratic n m r q.now c.now e.now b.now lower.now
        upper.now a.now row_lower.now row_upper.now at.now slopes.now
        start.now) result
        x.old x.new multipliers.old multipliers.new passes.old passes.new }
{
    if quadratic::shaped(
        q,
        c,
        e,
        b,
        lower,
        upper,
        a,
        row_lower,
        row_upper,
        at,
        slopes,
        start,
        n,
        m,
        r,
        x.len(),
        multipliers.len(),
    ) {
        if quadratic::blank(lower, upper, row_lower, row_upper, n, r) {
            return 10;
        }
        let solved = slack_solve::solve_shaped(
            q, c, e, b, lower, upper, a, row_lower, row_upper, at, slopes, start, n, m, r,
        );
        return outputs::write_minimum(solved, n, m + r, x, multipliers, passes);
    }
    9
}

// The same without kinks.
pub fn solve_bounded(
    q: &[f64],
    c: &[f64],
    e: &[f64],
    b: &[f64],
    lower: &[f64],
    upper: &[f64],
    a: &[f64],
    row_lower: &[f64],
    row_upper: &[f64],
    start: &[f64],
    n: usize,
    m: usize,
    r: usize,
    x: &mut [f64],
    multipliers: &mut [f64],
    passes: &mut u64,
) -> u32
    ensures { Answered (bounded n m r q.now c.now e.now b.now lower.now
        upper.now a.now row_lower.now row_upper.now start.now) result
        x.old x.new multipliers.old multipliers.new passes.old passes.new }
{
    if n > sizes::ORIGINALS {
        return 9;
    }
    let kinks = [0.0; sizes::ORIGINALS];
    let flat = [0.0; sizes::ORIGINALS];
    solve_piecewise(
        q,
        c,
        e,
        b,
        lower,
        upper,
        a,
        row_lower,
        row_upper,
        &kinks[..n],
        &flat[..n],
        start,
        n,
        m,
        r,
        x,
        multipliers,
        passes,
    )
}
