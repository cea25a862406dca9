// qp.rs: `kept_columns`, `with_slack_steps`, `step_noise`, and the multipliers of all columns. E is n by m. The variables from `originals` on are
// the slacks; the row of slack i is E's column first + i - originals.
#![tactic(auto)]

ghost use Rattle.std.specs.Prelude.{◌≡◌, ◌≤◌, ◌<◌, ◌+◌, ◌*◌, length};
ghost use Rattle.folds.specs.Fold.{over};
ghost use Rattle.sizes.specs.Sizes as Sizes;
ghost use Rattle.vector.specs.Vector.{Below};
ghost use Rattle.slack_rows.specs.SlackRows as SlackRows;
ghost use Rattle.slack_rows.specs.SlackRows.{Slacks, Row, Rows, Solved};

fn slack_column(i: usize, originals: usize, first: usize) -> usize
    requires { (originals ≤ i) × (i < Sizes.variables) × (first ≤ Sizes.columns) }
    ensures { result ≡ SlackRows.slack_column i originals first }
{
    first + i - originals
}

// Whether column j is the row of one of the slacks.
fn any_slack_column(slacks: &[usize], originals: usize, first: usize, j: usize) -> bool
    requires { Slacks originals slacks.now × (first ≤ Sizes.columns) }
    ensures { result ≡ SlackRows.any_slack_column slacks.now originals first j }
{
    for i in slacks {
        if slack_column(*i, originals, first) == j {
            return true;
        }
    }
    false
}

// Whether column j has an entry on one of the variables `solved`.
fn any_entry(e: &[f64], n: usize, m: usize, solved: &[usize], j: usize) -> bool
    requires { Solved n m e.now solved.now × (j < m) }
    ensures { result ≡ SlackRows.any_entry e.now n solved.now j }
{
    for i in solved {
        if columns::get(e, n, m, *i, j) != 0.0 {
            return true;
        }
    }
    false
}

fn keeps(
    e: &[f64],
    n: usize,
    m: usize,
    solved: &[usize],
    slacks: &[usize],
    originals: usize,
    first: usize,
    j: usize,
) -> bool
    requires { Solved n m e.now solved.now × Rows n m originals first slacks.now × (j < m) }
    ensures { result ≡ SlackRows.keeps e.now n solved.now slacks.now originals first j }
{
    if j < first {
        return true;
    }
    if any_slack_column(slacks, originals, first, j) {
        return false;
    }
    any_entry(e, n, m, solved, j)
}

// The columns that a solve keeps, over the start of `kept`, and how many they are.
pub fn kept_columns(
    e: &[f64],
    n: usize,
    m: usize,
    solved: &[usize],
    slacks: &[usize],
    originals: usize,
    first: usize,
    kept: &mut [usize],
) -> usize
    requires { Solved n m e.now solved.now × Rows n m originals first slacks.now × (m ≤ length kept.old) }
    ensures value { result ≡ length (SlackRows.kept_columns e.now n m solved.now slacks.now originals first) }
    ensures kept_after { kept.new
        ≡ over (SlackRows.kept_columns e.now n m solved.now slacks.now originals first) kept.old }
{
    let mut count = 0;
    // By the column's number, which is what is kept.
    for j in 0..m {
        let on = keeps(e, n, m, solved, slacks, originals, first, j);
        count = vector::push_if(on, j, count, kept);
    }
    count
}

// The multipliers of all columns: those of the columns kept, and 0 for the others.
pub fn all_multipliers(multipliers: &[f64], kept: &[usize]) -> [f64; sizes::COLUMNS]
    requires { (length kept.now ≤ length multipliers.now) × Below (length kept.now) kept.now Sizes.columns }
    ensures { result ≡ SlackRows.all_multipliers Sizes.columns kept.now multipliers.now }
{
    let mut all = [0.0; sizes::COLUMNS];
    for (k, j) in kept.iter().enumerate() {
        all[*j] = multipliers[k];
    }
    all
}

// What the variables' step adds to the row in column j.
fn others(e: &[f64], n: usize, m: usize, solved: &[usize], step: &[f64], j: usize) -> f64
    requires { Solved n m e.now solved.now × (length solved.now ≤ length step.now) × (j < m) }
    ensures { result ≡ SlackRows.others e.now n solved.now step.now j }
{
    let mut sum = 0.0;
    for (i, d) in solved.iter().zip(step) {
        sum += columns::get(e, n, m, *i, j) * d;
    }
    sum
}

// The move of slack i.
fn slack_move(
    e: &[f64],
    n: usize,
    m: usize,
    solved: &[usize],
    step: &[f64],
    residuals: &[f64],
    originals: usize,
    first: usize,
    i: usize,
) -> f64
    requires { Solved n m e.now solved.now
        × (length solved.now ≤ length step.now)
        × (m ≤ length residuals.now)
        × (n ≤ Sizes.variables)
        × (first ≤ Sizes.columns)
        × Row n m originals first i }
    ensures { result
        ≡ SlackRows.slack_move e.now n solved.now step.now residuals.now originals first i }
{
    let j = slack_column(i, originals, first);
    (residuals[j] - others(e, n, m, solved, step, j)) / columns::get(e, n, m, i, j)
}

// Entry k of the step: a variable's, and after them a slack's.
fn step_entry(
    e: &[f64],
    n: usize,
    m: usize,
    solved: &[usize],
    slacks: &[usize],
    step: &[f64],
    residuals: &[f64],
    originals: usize,
    first: usize,
    k: usize,
) -> f64
    requires { Solved n m e.now solved.now
        × Rows n m originals first slacks.now
        × (length solved.now ≤ length step.now)
        × (m ≤ length residuals.now)
        × (k < length solved.now + length slacks.now) }
    ensures { result
        ≡ SlackRows.step_entry e.now n solved.now slacks.now step.now residuals.now
        originals first k }
{
    let count = solved.len();
    if k < count {
        return step[k];
    }
    let i = slacks[k - count];
    slack_move(e, n, m, solved, step, residuals, originals, first, i)
}

// The step on the variables `solved`, with the slacks' after it, over the start of `all`. For a direction, `residuals` is zeros.
pub fn with_slack_steps(
    e: &[f64],
    n: usize,
    m: usize,
    solved: &[usize],
    slacks: &[usize],
    step: &[f64],
    residuals: &[f64],
    originals: usize,
    first: usize,
    all: &mut [f64],
)
    requires { Solved n m e.now solved.now
        × Rows n m originals first slacks.now
        × (length solved.now ≤ length step.now)
        × (m ≤ length residuals.now)
        × (length solved.now + length slacks.now ≤ length all.old) }
    ensures { all.new
        ≡ over
        (SlackRows.with_slack_steps e.now n solved.now slacks.now step.now residuals.now
        originals first)
        all.old }
{
    vector::write_each(all, solved.len() + slacks.len(), |k, _| {
        step_entry(
            e, n, m, solved, slacks, step, residuals, originals, first, k,
        )
    });
}

// The size of the terms that a step's right side is a difference of: q has `count` rows and n columns.
pub fn step_noise(q: &[f64], count: usize, n: usize, x: &[f64], originals: usize, c: &[f64]) -> f64
    requires { (count ≤ Sizes.variables)
        × (n ≤ Sizes.variables)
        × (count * n ≤ length q.now)
        × (originals ≤ length x.now)
        × (count ≤ length c.now) }
    ensures { result ≡ SlackRows.step_noise q.now count n x.now originals c.now }
{
    reductions::amax(q, count * n) * reductions::amax(x, originals) + reductions::amax(c, count)
}
