// qp.rs, `solve_piecewise` past its tests: the slacks, `Units`, the engine in work memory of its size, and back in the units of the caller.
#![tactic(auto)]

ghost use Rattle.std.specs.Prelude.{◌≡◌, ◌≤◌, ◌+◌, ◌*◌, length};
ghost use Rattle.sizes.specs.Sizes as Sizes;
ghost use Rattle.minimum.specs.Minimized.{minimized_of};
ghost use Rattle.quadratic.specs.Quadratic.{quadratic};
ghost use Rattle.quadratic.specs.Holds.{Holds};
ghost use Rattle.slack_solve.specs.SlackSolve as Definition;

use iterate::SolveError;
use minimum::Minimum;

// The entries of a matrix of work memory, which has a row for each variable with the slacks and as many columns, or a column for each column of E
// with the slacks; and of either in a small problem.
const ALL_SQUARE: usize = sizes::VARIABLES * sizes::VARIABLES;

const ALL_TALL: usize = sizes::VARIABLES * sizes::COLUMNS;

const SMALL_ALL: usize = (sizes::FEW + sizes::FEW) * (sizes::FEW + sizes::FEW);

// The solve of Q and E with the slacks, which are given in units, with their scales.
fn solve_scaled(
    uq: &[f64],
    ue: &[f64],
    c: &[f64],
    b: &[f64],
    lower: &[f64],
    upper: &[f64],
    a: &[f64],
    row_lower: &[f64],
    row_upper: &[f64],
    at: &[f64],
    slopes: &[f64],
    start: &[f64],
    scales: &[f64],
    columns: &[f64],
    n: usize,
    m: usize,
    r: usize,
) -> Result<Minimum, SolveError>
    requires { Holds n m r c.now b.now lower.now upper.now a.now row_lower.now row_upper.now at.now slopes.now
        start.now
        × ((n + r) * (n + r) ≤ length uq.now)
        × ((n + r) * (m + r) ≤ length ue.now)
        × (n + r ≤ length scales.now)
        × (m + r ≤ length columns.now) }
    ensures { minimized_of (n + r) (m + r) result
        ≡ Definition.solve_scaled n m r uq.now ue.now c.now b.now lower.now upper.now
        a.now row_lower.now row_upper.now at.now slopes.now start.now
        scales.now columns.now }
{
    let v = n + r;
    let w = m + r;
    // c and b with the slacks, whose entries are 0.
    let mut c_all = [0.0; sizes::VARIABLES];
    vector::copy(c, n, &mut c_all);
    let mut b_all = [0.0; sizes::COLUMNS];
    vector::copy(b, m, &mut b_all);
    let mut uc = [0.0; sizes::VARIABLES];
    vector::div(&c_all[..v], scales, v, &mut uc);
    let mut ub = [0.0; sizes::COLUMNS];
    vector::div(&b_all[..w], columns, w, &mut ub);
    let segments = slacks::all_segments(
        lower, upper, at, slopes, row_lower, row_upper, scales, n, r,
    );
    let first = slacks::slacks_start(start, a, scales, n, r);
    in_units::engine_sized(uq, &uc[..v], ue, &ub[..w], segments, &first[..v], n, m, r)
}

// The solve of Q and E with the slacks, in `Units`, and back; they are brought to units in place.
fn solve_with_slacks(
    q_all: &mut [f64],
    e_all: &mut [f64],
    c: &[f64],
    e: &[f64],
    b: &[f64],
    lower: &[f64],
    upper: &[f64],
    a: &[f64],
    row_lower: &[f64],
    row_upper: &[f64],
    at: &[f64],
    slopes: &[f64],
    start: &[f64],
    n: usize,
    m: usize,
    r: usize,
) -> Result<Minimum, SolveError>
    requires { Holds n m r c.now b.now lower.now upper.now a.now row_lower.now row_upper.now at.now slopes.now
        start.now
        × (n * m ≤ length e.now)
        × (length q_all.old ≡ (n + r) * (n + r))
        × (length e_all.old ≡ (n + r) * (m + r)) }
    ensures { minimized_of n (m + r) result
        ≡ Definition.solve_with_slacks n m r q_all.old e_all.old c.now e.now b.now
        lower.now upper.now a.now row_lower.now row_upper.now at.now
        slopes.now start.now }
{
    let v = n + r;
    let w = m + r;
    let scales = slack_scales::scales_with_slacks(&q_all[..], a, n, r);
    let columns = units::column_scales(&e_all[..], v, w);
    units::units_k(q_all, v, &scales[..v]);
    units::units_e(e_all, v, w, &scales[..v], &columns[..w]);
    let solved = solve_scaled(
        &q_all[..],
        &e_all[..],
        c,
        b,
        lower,
        upper,
        a,
        row_lower,
        row_upper,
        at,
        slopes,
        start,
        &scales[..v],
        &columns[..w],
        n,
        m,
        r,
    );
    original_units::original(
        solved,
        e,
        b,
        a,
        row_lower,
        row_upper,
        &scales[..v],
        &columns[..w],
        n,
        m,
        r,
    )
}

// The problem with the slacks; q_all and e_all are work memory.
fn solve_in(
    q: &[f64],
    c: &[f64],
    e: &[f64],
    b: &[f64],
    lower: &[f64],
    upper: &[f64],
    a: &[f64],
    row_lower: &[f64],
    row_upper: &[f64],
    at: &[f64],
    slopes: &[f64],
    start: &[f64],
    n: usize,
    m: usize,
    r: usize,
    q_all: &mut [f64],
    e_all: &mut [f64],
) -> Result<Minimum, SolveError>
    requires { Holds n m r c.now b.now lower.now upper.now a.now row_lower.now row_upper.now at.now slopes.now
        start.now
        × (n * n ≤ length q.now)
        × (n * m ≤ length e.now)
        × ((n + r) * (n + r) ≤ length q_all.old)
        × ((n + r) * (m + r) ≤ length e_all.old) }
    ensures { minimized_of n (m + r) result
        ≡ Definition.solve (quadratic n m r q.now c.now e.now b.now lower.now
        upper.now a.now row_lower.now row_upper.now at.now slopes.now
        start.now) }
{
    let v = n + r;
    let square = v * v;
    let entries = v * (m + r);
    slacks::with_slacks_q(q, n, r, q_all);
    slacks::with_slacks_e(e, a, n, m, r, e_all);
    solve_with_slacks(
        &mut q_all[..square],
        &mut e_all[..entries],
        c,
        e,
        b,
        lower,
        upper,
        a,
        row_lower,
        row_upper,
        at,
        slopes,
        start,
        n,
        m,
        r,
    )
}

// In work memory of SQUARE and TALL numbers.
fn solve_within<const SQUARE: usize, const TALL: usize>(
    q: &[f64],
    c: &[f64],
    e: &[f64],
    b: &[f64],
    lower: &[f64],
    upper: &[f64],
    a: &[f64],
    row_lower: &[f64],
    row_upper: &[f64],
    at: &[f64],
    slopes: &[f64],
    start: &[f64],
    n: usize,
    m: usize,
    r: usize,
) -> Result<Minimum, SolveError>
    requires { Holds n m r c.now b.now lower.now upper.now a.now row_lower.now row_upper.now at.now slopes.now
        start.now
        × (n * n ≤ length q.now)
        × (n * m ≤ length e.now)
        × ((n + r) * (n + r) ≤ SQUARE)
        × ((n + r) * (m + r) ≤ TALL)
        × (SQUARE ≤ Sizes.variables * Sizes.variables)
        × (TALL ≤ Sizes.variables * Sizes.columns) }
    ensures { minimized_of n (m + r) result
        ≡ Definition.solve (quadratic n m r q.now c.now e.now b.now lower.now
        upper.now a.now row_lower.now row_upper.now at.now slopes.now
        start.now) }
{
    let mut q_all = [0.0; SQUARE];
    let mut e_all = [0.0; TALL];
    solve_in(
        q, c, e, b, lower, upper, a, row_lower, row_upper, at, slopes, start, n, m, r, &mut q_all,
        &mut e_all,
    )
}

// The solve in work memory of its size.
pub fn solve_shaped(
    q: &[f64],
    c: &[f64],
    e: &[f64],
    b: &[f64],
    lower: &[f64],
    upper: &[f64],
    a: &[f64],
    row_lower: &[f64],
    row_upper: &[f64],
    at: &[f64],
    slopes: &[f64],
    start: &[f64],
    n: usize,
    m: usize,
    r: usize,
) -> Result<Minimum, SolveError>
    requires { Holds n m r c.now b.now lower.now upper.now a.now row_lower.now row_upper.now at.now slopes.now
        start.now
        × (n * n ≤ length q.now)
        × (n * m ≤ length e.now) }
    ensures { minimized_of n (m + r) result
        ≡ Definition.solve (quadratic n m r q.now c.now e.now b.now lower.now
        upper.now a.now row_lower.now row_upper.now at.now slopes.now
        start.now) }
{
    if n <= sizes::FEW && r <= sizes::FEW {
        return solve_within::<{ SMALL_ALL }, { SMALL_ALL }>(
            q, c, e, b, lower, upper, a, row_lower, row_upper, at, slopes, start, n, m, r,
        );
    }
    solve_within::<{ ALL_SQUARE }, { ALL_TALL }>(
        q, c, e, b, lower, upper, a, row_lower, row_upper, at, slopes, start, n, m, r,
    )
}
