// qp.rs, a pass of `solve_piecewise_in_units`: the problem in the free variables. Q is n by n, E is n by m; the variables from `originals` on are
// slacks, each with one of the last columns of E.
#![tactic(auto)]

ghost use Rattle.std.specs.Prelude.{◌≡◌, ◌≤◌, ◌*◌, length, take};
ghost use Rattle.vector.specs.Vector.{Below};
ghost use Rattle.matrix.specs.Matrix.{select_rows};
ghost use Rattle.slack_rows.specs.SlackRows.{Rows, Solved};
ghost use Rattle.iterate.specs.Problem.{Shaped, first_slack_column, problem};
ghost use Rattle.free_problem.specs.FreeProblem as Definition;

use iterate::Counts;

// The problem in the free variables, but for its Q and E: the `columns` columns kept, the linear term, the gradient, what each constraint lacks, and,
// of the kept ones, the right side, with its noise. Of each array the leading part counts.
#[derive(Clone, Copy)]
pub struct Free {
    pub kept: [usize; sizes::COLUMNS],
    pub columns: usize,
    pub c: [f64; sizes::ORIGINALS],
    pub gradient: [f64; sizes::ORIGINALS],
    pub residuals: [f64; sizes::COLUMNS],
    pub residual: [f64; sizes::COLUMNS],
    pub noise: f64,
}

// The block of a (n by m) on the rows `rows` and the columns `columns`, over the start of y; the rows stand in room.
fn submatrix(
    a: &[f64],
    n: usize,
    m: usize,
    rows: &[usize],
    columns: &[usize],
    room: &mut [f64],
    y: &mut [f64],
)
    requires { (n * m ≤ length a.now)
        × Below (length rows.now) rows.now n
        × Below (length columns.now) columns.now m
        × (length rows.now * m ≤ length room.old)
        × (length rows.now * length columns.now ≤ length y.old) }
    ensures room_after { take (length rows.now * m) room.new
        ≡ select_rows n m a.now (length rows.now) rows.now }
    ensures y_after { take (length rows.now * length columns.now) y.new
        ≡ Definition.submatrix n m a.now rows.now columns.now }
{
    let k = rows.len();
    let entries = k * m;
    matrix::select_rows(a, n, m, rows, k, room);
    matrix::select_columns(&room[..entries], k, m, columns, columns.len(), y);
}

// The free problem, its Q and E over the starts of q_free and e_free; Q's rows stand in room.
pub fn gather(
    q: &[f64],
    c: &[f64],
    e: &[f64],
    b: &[f64],
    counts: Counts,
    x: &[f64],
    solved: &[usize],
    slacks: &[usize],
    slope: &[f64],
    room: &mut [f64],
    q_free: &mut [f64],
    e_free: &mut [f64],
) -> Free
    requires { Shaped counts.originals counts.n counts.m q.now c.now e.now b.now
        × (counts.n ≤ length x.now)
        × Solved counts.n counts.m e.now solved.now
        × Rows counts.n counts.m counts.originals (first_slack_column counts.originals counts.n counts.m) slacks.now
        × (length solved.now ≤ counts.originals)
        × (length solved.now ≤ length slope.now)
        × (counts.originals * counts.n ≤ length room.old)
        × (counts.originals * counts.m ≤ length room.old)
        × (counts.originals * counts.originals ≤ length q_free.old)
        × (counts.originals * counts.m ≤ length e_free.old) }
    ensures e_free_after { Definition.gathered_of (length solved.now) counts.m result q_free.new e_free.new
        ≡ Definition.gather (problem counts.originals counts.n counts.m q.now c.now e.now b.now)
        x.now solved.now slacks.now slope.now }
    ensures lists { Definition.Lists (length solved.now) counts.m result }
{
    let originals = counts.originals;
    let n = counts.n;
    let m = counts.m;
    let k = solved.len();
    let first = m - (n - originals);
    let rows = k * n;
    let mut kept = [0; sizes::COLUMNS];
    let mut c_free = [0.0; sizes::ORIGINALS];
    let mut gradient_free = [0.0; sizes::ORIGINALS];
    let mut residuals = [0.0; sizes::COLUMNS];
    let mut residual = [0.0; sizes::COLUMNS];
    let columns = slack_rows::kept_columns(e, n, m, solved, slacks, originals, first, &mut kept);
    submatrix(e, n, m, solved, &kept[..columns], room, e_free);
    submatrix(q, n, n, solved, solved, room, q_free);
    right_side::linear(c, n, solved, slope, &mut c_free);
    right_side::gradient(&room[..rows], &c_free[..k], k, n, x, &mut gradient_free);
    right_side::residuals_at(e, b, n, m, x, &mut residuals);
    vector::select(&residuals[..m], m, &kept[..columns], columns, &mut residual);
    let noise = slack_rows::step_noise(&room[..rows], k, n, x, originals, &c_free[..k]);
    Free {
        kept,
        columns,
        c: c_free,
        gradient: gradient_free,
        residuals,
        residual,
        noise,
    }
}
