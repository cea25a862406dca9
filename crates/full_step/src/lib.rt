// qp.rs, the step of a pass of `solve_piecewise_in_units`: toward the minimum on the free variables, or along a direction of zero curvature, until
// a variable reaches an end of its segment. `indices` are the free variables.
#![tactic(auto)]

ghost use Rattle.std.specs.Prelude.{◌≡◌, ◌≤◌, ◌+◌, ◌-◌, length, take};
ghost use Rattle.folds.specs.Fold.{over};
ghost use Rattle.sizes.specs.Sizes as Sizes;
ghost use Rattle.segments.specs.Segments.{AllCut, AllPlaced};
ghost use Rattle.free_list.specs.FreeList.{Ends, Listed, free_indices};
ghost use Rattle.step_length.specs.StepLength.{Entries};
ghost use Rattle.slack_rows.specs.SlackRows.{Rows, Solved, with_slack_steps};
ghost use Rattle.iterate.specs.Problem.{first_slack_column};
ghost use Rattle.iterate.specs.Iterate.{passed_of, Gives, Leaves, Consistent};
ghost use Rattle.blocked_step.specs.BlockedStep.{Keeps};
ghost use Rattle.release_at.specs.ReleaseAt.{Shape};
ghost use Rattle.full_step.specs.FullStep as FullStep;

use iterate::{Counts, Ending, Iterate, Magnitudes, Passed, SolveError};
use segments::Segments;

// The step on the variables `solved`, with the slacks' after it, over the start of `all`.
pub fn slack_steps(
    e: &[f64],
    counts: Counts,
    solved: &[usize],
    slacks: &[usize],
    step: &[f64],
    residuals: &[f64],
    all: &mut [f64],
)
    requires { (counts.originals ≤ counts.n)
        × (counts.n - counts.originals ≤ counts.m)
        × Solved counts.n counts.m e.now solved.now
        × Rows counts.n counts.m counts.originals (first_slack_column counts.originals counts.n counts.m) slacks.now
        × (length solved.now ≤ length step.now)
        × (counts.m ≤ length residuals.now)
        × (length solved.now + length slacks.now ≤ length all.old) }
    ensures { all.new
        ≡ over
        (with_slack_steps e.now counts.n solved.now slacks.now step.now residuals.now
        counts.originals (first_slack_column counts.originals counts.n counts.m))
        all.old }
{
    let originals = counts.originals;
    let n = counts.n;
    let m = counts.m;
    let first = m - (n - originals);
    slack_rows::with_slack_steps(
        e, n, m, solved, slacks, step, residuals, originals, first, all,
    );
}

// Toward the target: to where the first free variable passes an end of its segment, or the whole step.
fn stepped(
    iterate: Iterate,
    segments: [Segments; sizes::VARIABLES],
    fixed: &[bool],
    q: &[f64],
    c: &[f64],
    e: &[f64],
    counts: Counts,
    magnitudes: Magnitudes,
    indices: &[usize],
    tolerance: f64,
    x_free: &[f64],
    target: &[f64],
    lower: &[f64],
    upper: &[f64],
    multipliers: [f64; sizes::COLUMNS],
) -> Passed
    requires { Shape counts.originals counts.n counts.m q.now c.now e.now
        × AllCut counts.n segments
        × Consistent counts.n segments iterate
        × (counts.n ≤ length fixed.now)
        × (indices.now ≡ free_indices counts.n iterate.board.state)
        × Entries (length indices.now) x_free.now target.now lower.now upper.now }
    ensures result_value { passed_of counts.n counts.m result
        ≡ FullStep.stepped counts.originals counts.n counts.m q.now c.now e.now segments
        fixed.now magnitudes.q magnitudes.linear indices.now tolerance x_free.now target.now
        lower.now upper.now (take counts.m multipliers) iterate }
    ensures consistent { Consistent counts.n segments result.iterate }
{
    let count = indices.len();
    let hit = step_length::first_passed(x_free, target, lower, upper, count, tolerance);
    let Some((step, k, side)) = hit else {
        let board = iterate.board;
        let next = advance::settled(board, indices, target, lower, upper, tolerance);
        return advance::decided(
            iterate,
            next,
            segments,
            fixed,
            q,
            c,
            e,
            counts,
            magnitudes,
            multipliers,
        );
    };
    let mut direction = [0.0; sizes::VARIABLES];
    vector::sub(target, x_free, count, &mut direction);
    blocked_step::blocked_pass(
        iterate,
        segments,
        indices,
        x_free,
        &direction[..count],
        lower,
        upper,
        step,
        k,
        side,
    )
}

// Along a direction, to where the first free variable reaches an end of its segment.
fn ray_step(
    iterate: Iterate,
    segments: [Segments; sizes::VARIABLES],
    indices: &[usize],
    x_free: &[f64],
    direction: &[f64],
    lower: &[f64],
    upper: &[f64],
) -> Passed
    requires { Listed indices.now segments iterate.board.state
        × Entries (length indices.now) x_free.now direction.now lower.now upper.now }
    ensures leaves { Leaves result
        (FullStep.ray_step segments indices.now x_free.now direction.now lower.now
        upper.now iterate) }
    ensures keeps { Keeps indices.now segments iterate result }
{
    let hit = step_length::ratio_test(x_free, direction, lower, upper, indices.len());
    let Some((step, k, side)) = hit else {
        return iterate::ended(Ending::Failed(SolveError::Unbounded), iterate);
    };
    blocked_step::blocked_pass(
        iterate, segments, indices, x_free, direction, lower, upper, step, k, side,
    )
}

// The full step; `solved` of the free variables are no slacks.
pub fn toward(
    iterate: Iterate,
    segments: [Segments; sizes::VARIABLES],
    fixed: &[bool],
    q: &[f64],
    c: &[f64],
    e: &[f64],
    counts: Counts,
    magnitudes: Magnitudes,
    indices: &[usize],
    solved: usize,
    step: &[f64],
    lower: &[f64],
    upper: &[f64],
    multipliers: [f64; sizes::COLUMNS],
) -> Passed
    requires { Shape counts.originals counts.n counts.m q.now c.now e.now
        × AllCut counts.n segments
        × Consistent counts.n segments iterate
        × (counts.n ≤ length fixed.now)
        × (indices.now ≡ free_indices counts.n iterate.board.state)
        × (solved ≤ length indices.now)
        × (length indices.now ≤ length step.now)
        × Ends counts.n segments iterate.board.state lower.now upper.now }
    ensures result_value { passed_of counts.n counts.m result
        ≡ FullStep.toward counts.originals counts.n counts.m q.now c.now e.now segments
        fixed.now magnitudes.q magnitudes.linear solved step.now (take counts.m multipliers) iterate }
    ensures consistent { Consistent counts.n segments result.iterate }
{
    let n = counts.n;
    let board = iterate.board;
    let count = indices.len();
    let x = board.x;
    let mut x_free = [0.0; sizes::VARIABLES];
    vector::select(&x[..n], n, indices, count, &mut x_free);
    let mut target = [0.0; sizes::VARIABLES];
    vector::add(&x_free[..count], step, count, &mut target);
    let tolerance = step_length::step_tolerance(
        &target[..count],
        solved,
        &x[..n],
        counts.originals,
    );
    stepped(
        iterate,
        segments,
        fixed,
        q,
        c,
        e,
        counts,
        magnitudes,
        indices,
        tolerance,
        &x_free[..count],
        &target[..count],
        lower,
        upper,
        multipliers,
    )
}

// Along a direction of zero curvature.
pub fn along(
    iterate: Iterate,
    segments: [Segments; sizes::VARIABLES],
    n: usize,
    indices: &[usize],
    direction: &[f64],
    lower: &[f64],
    upper: &[f64],
) -> Passed
    requires { (n ≤ Sizes.variables)
        × AllCut n segments
        × AllPlaced n segments iterate.board.state
        × (indices.now ≡ free_indices n iterate.board.state)
        × (length indices.now ≤ length direction.now)
        × Ends n segments iterate.board.state lower.now upper.now }
    ensures gives { Gives n result (FullStep.along n segments direction.now iterate) }
    ensures consistent { Consistent n segments result.iterate }
{
    let board = iterate.board;
    let count = indices.len();
    let x = board.x;
    let mut x_free = [0.0; sizes::VARIABLES];
    vector::select(&x[..n], n, indices, count, &mut x_free);
    ray_step(
        iterate,
        segments,
        indices,
        &x_free[..count],
        direction,
        lower,
        upper,
    )
}
