// qp.rs: what `solve_piecewise` does before the solve in units: `with_slacks`, the segments, the start.
// n originals, m equality columns and r rows; Q is n by n, E is n by m, the rows' a is n by r.
#![tactic(auto)]

ghost use Rattle.std.specs.Prelude.{◌≡◌, ◌+◌, ◌*◌, ◌<◌, ◌≤◌, length, take};
ghost use Rattle.folds.specs.Fold.{over};
ghost use Rattle.sizes.specs.Sizes as Sizes;
ghost use Rattle.columns.specs.Columns as Columns;
ghost use Rattle.segments.specs.Segments.{Cut, AllCut};
ghost use Rattle.slacks.specs.Slacks as Slacks;

use segments::Segments;

// Q's entry at row i, column j; 0 for a slack.
fn q_entry(q: &[f64], n: usize, i: usize, j: usize) -> f64
    requires { n * n ≤ length q.now }
    ensures { result ≡ Slacks.entry_q n q.now i j }
{
    if i < n {
        if j < n {
            return columns::get(q, n, n, i, j);
        }
    }
    0.0
}

fn q_column(q: &[f64], n: usize, variables: usize, j: usize, all: &mut [f64])
    requires { (n * n ≤ length q.now) × (variables * variables ≤ length all.old) × (j < variables) }
    ensures { all.new
        ≡ Columns.put_column variables variables j (λ i. Slacks.entry_q n q.now i j) all.old }
{
    for i in 0..variables {
        let v = q_entry(q, n, i, j);
        columns::put(all, variables, variables, i, j, v);
    }
}

// Q with the slacks' zeros, over the start of `all`.
pub fn with_slacks_q(q: &[f64], n: usize, r: usize, all: &mut [f64])
    requires { (n ≤ Sizes.originals)
        × (r ≤ Sizes.rows)
        × (n * n ≤ length q.now)
        × ((n + r) * (n + r) ≤ length all.old) }
    ensures { all.new ≡ over (Slacks.with_slacks_q n r q.now) all.old }
{
    let variables = n + r;
    for j in 0..variables {
        q_column(q, n, variables, j, all);
    }
}

// The entry of E with the slacks: E, the rows beside it, and -1 where a slack meets its row's column.
fn e_entry(e: &[f64], a: &[f64], n: usize, m: usize, r: usize, i: usize, j: usize) -> f64
    requires { (n ≤ Sizes.originals)
        × (m ≤ Sizes.equalities)
        × (r ≤ Sizes.rows)
        × (n * m ≤ length e.now)
        × (n * r ≤ length a.now)
        × (i < n + r)
        × (j < m + r) }
    ensures { result ≡ Slacks.entry_e n m e.now a.now i j }
{
    if i < n {
        if j < m {
            return columns::get(e, n, m, i, j);
        }
        return columns::get(a, n, r, i, j - m);
    }
    if i - n + m == j {
        return -1.0;
    }
    0.0
}

fn e_column(e: &[f64], a: &[f64], n: usize, m: usize, r: usize, j: usize, all: &mut [f64])
    requires { (n ≤ Sizes.originals)
        × (m ≤ Sizes.equalities)
        × (r ≤ Sizes.rows)
        × (n * m ≤ length e.now)
        × (n * r ≤ length a.now)
        × ((n + r) * (m + r) ≤ length all.old)
        × (j < m + r) }
    ensures { all.new
        ≡ Columns.put_column (n + r) (n + r) j (λ i. Slacks.entry_e n m e.now a.now i j) all.old }
{
    let variables = n + r;
    let columns = m + r;
    for i in 0..variables {
        let v = e_entry(e, a, n, m, r, i, j);
        columns::put(all, variables, columns, i, j, v);
    }
}

// E with the slacks, over the start of `all`.
pub fn with_slacks_e(e: &[f64], a: &[f64], n: usize, m: usize, r: usize, all: &mut [f64])
    requires { (n ≤ Sizes.originals)
        × (m ≤ Sizes.equalities)
        × (r ≤ Sizes.rows)
        × (n * m ≤ length e.now)
        × (n * r ≤ length a.now)
        × ((n + r) * (m + r) ≤ length all.old) }
    ensures { all.new
        ≡ over (Slacks.with_slacks_e n m r e.now a.now) all.old }
{
    let columns = m + r;
    for j in 0..columns {
        e_column(e, a, n, m, r, j, all);
    }
}

// Variable i's range and kink, in units.
fn variable_segments(
    lower: &[f64],
    upper: &[f64],
    at: &[f64],
    slopes: &[f64],
    scales: &[f64],
    i: usize,
) -> Segments
    requires { (i < length lower.now)
        × (i < length upper.now)
        × (i < length at.now)
        × (i < length slopes.now)
        × (i < length scales.now) }
    ensures value { result
        ≡ Slacks.variable_segments lower.now upper.now at.now slopes.now scales.now i }
    ensures cut { Cut result }
{
    let scale = scales[i];
    Segments::new(
        lower[i] * scale,
        upper[i] * scale,
        at[i] * scale,
        slopes[i] / scale,
    )
}

// Slack j's range, its row's limits, in units.
fn slack_segments(
    row_lower: &[f64],
    row_upper: &[f64],
    scales: &[f64],
    n: usize,
    j: usize,
) -> Segments
    requires { (n ≤ Sizes.originals)
        × (j < length row_lower.now)
        × (j < length row_upper.now)
        × (n + j < length scales.now) }
    ensures value { result ≡ Slacks.slack_segments n row_lower.now row_upper.now scales.now j }
    ensures cut { Cut result }
{
    let scale = scales[n + j];
    Segments::new(row_lower[j] * scale, row_upper[j] * scale, 0.0, 0.0)
}

fn one_segments(
    lower: &[f64],
    upper: &[f64],
    at: &[f64],
    slopes: &[f64],
    row_lower: &[f64],
    row_upper: &[f64],
    scales: &[f64],
    n: usize,
    i: usize,
) -> Segments
    requires { (n ≤ Sizes.originals)
        × (n ≤ length lower.now)
        × (n ≤ length upper.now)
        × (n ≤ length at.now)
        × (n ≤ length slopes.now)
        × (i < n + length row_lower.now)
        × (i < n + length row_upper.now)
        × (i < length scales.now) }
    ensures value { result
        ≡ Slacks.one_segments n lower.now upper.now at.now slopes.now
        row_lower.now row_upper.now scales.now i }
    ensures cut { Cut result }
{
    if i < n {
        return variable_segments(lower, upper, at, slopes, scales, i);
    }
    slack_segments(row_lower, row_upper, scales, n, i - n)
}

// What stands past the slacks' is never read.
pub fn all_segments(
    lower: &[f64],
    upper: &[f64],
    at: &[f64],
    slopes: &[f64],
    row_lower: &[f64],
    row_upper: &[f64],
    scales: &[f64],
    n: usize,
    r: usize,
) -> [Segments; sizes::VARIABLES]
    requires { Slacks.RangesFit n r lower.now upper.now at.now slopes.now row_lower.now row_upper.now scales.now }
    ensures value { result
        ≡ Slacks.segments_array n r lower.now upper.now at.now slopes.now
        row_lower.now row_upper.now scales.now }
    ensures all_cut { AllCut (n + r) result }
{
    let mut all = [Segments {
        points: [0.0, 0.0, 0.0],
        slopes: [0.0, 0.0],
        count: 2,
    }; sizes::VARIABLES];
    let variables = n + r;
    for i in 0..variables {
        all[i] = one_segments(lower, upper, at, slopes, row_lower, row_upper, scales, n, i);
    }
    all
}

// The start with its rows' sums for the slacks.
fn start_with_slacks(start: &[f64], a: &[f64], n: usize, r: usize) -> [f64; sizes::VARIABLES]
    requires { (n ≤ Sizes.originals) × (r ≤ Sizes.rows) × (n ≤ length start.now) × (n * r ≤ length a.now) }
    ensures { take (n + r) result ≡ Slacks.start_with_slacks n r start.now a.now }
{
    let mut all = [0.0; sizes::VARIABLES];
    vector::copy(start, n, &mut all);
    matrix::tr_mul_vec(a, n, r, start, &mut all[n..]);
    all
}

// The same in units.
pub fn slacks_start(
    start: &[f64],
    a: &[f64],
    scales: &[f64],
    n: usize,
    r: usize,
) -> [f64; sizes::VARIABLES]
    requires { (n ≤ Sizes.originals)
        × (r ≤ Sizes.rows)
        × (n ≤ length start.now)
        × (n * r ≤ length a.now)
        × (n + r ≤ length scales.now) }
    ensures { take (n + r) result ≡ Slacks.slacks_start n r start.now a.now scales.now }
{
    let all = start_with_slacks(start, a, n, r);
    let mut u = [0.0; sizes::VARIABLES];
    vector::mul(&all, scales, n + r, &mut u);
    u
}
