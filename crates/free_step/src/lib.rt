// qp.rs, what follows the solve of a pass of `solve_piecewise_in_units`: the step to the minimum on the free variables, or, where they have none,
// along a direction of zero curvature. The free variables `indices` are `solved`, those below `originals`, and, after them, `slacks`.
#![tactic(auto)]

ghost use Rattle.std.specs.Prelude.{◌≡◌, ◌≤◌, ◌*◌, length, take};
ghost use Rattle.solution.specs.Solution.{answer};
ghost use Rattle.segments.specs.Segments.{AllCut};
ghost use Rattle.free_list.specs.FreeList.{Ends};
ghost use Rattle.iterate.specs.Iterate.{passed_of, Consistent};
ghost use Rattle.free_problem.specs.FreeProblem.{gathered_of, Lists};
ghost use Rattle.release_at.specs.ReleaseAt.{Shape};
ghost use Rattle.full_step.specs.FullStep.{Split};
ghost use Rattle.free_step.specs.FreeStep as FreeStep;

use free_problem::Free;
use iterate::{Counts, Ending, Iterate, Magnitudes, Passed, SolveError};
use segments::Segments;
use solution::KktError;

// To the minimum on the free variables, which the solve gave as a step from x.
fn to_minimum(
    delta: &[f64],
    multipliers: &[f64],
    iterate: Iterate,
    segments: [Segments; sizes::VARIABLES],
    fixed: &[bool],
    q: &[f64],
    c: &[f64],
    e: &[f64],
    counts: Counts,
    magnitudes: Magnitudes,
    indices: &[usize],
    solved: &[usize],
    slacks: &[usize],
    free: Free,
    lower: &[f64],
    upper: &[f64],
) -> Passed
    requires { Shape counts.originals counts.n counts.m q.now c.now e.now
        × AllCut counts.n segments
        × Consistent counts.n segments iterate
        × (counts.n ≤ length fixed.now)
        × Split counts.originals counts.n counts.m e.now iterate.board.state indices.now solved.now slacks.now
        × Lists (length solved.now) counts.m free
        × (length delta.now ≡ length solved.now)
        × (length multipliers.now ≡ free.columns)
        × Ends counts.n segments iterate.board.state lower.now upper.now }
    ensures result_value { passed_of counts.n counts.m result
        ≡ FreeStep.to_minimum counts.originals counts.n counts.m q.now c.now e.now segments
        fixed.now magnitudes.q magnitudes.linear solved.now slacks.now
        (take free.columns free.kept) (take counts.m free.residuals) delta.now multipliers.now iterate }
    ensures consistent { Consistent counts.n segments result.iterate }
{
    let k = solved.len();
    let m = counts.m;
    let count = indices.len();
    let columns = free.columns;
    let kept = free.kept;
    let residuals = free.residuals;
    let all = slack_rows::all_multipliers(multipliers, &kept[..columns]);
    let mut step = [0.0; sizes::VARIABLES];
    full_step::slack_steps(e, counts, solved, slacks, delta, &residuals[..m], &mut step);
    full_step::toward(
        iterate,
        segments,
        fixed,
        q,
        c,
        e,
        counts,
        magnitudes,
        indices,
        k,
        &step[..count],
        lower,
        upper,
        all,
    )
}

fn all_zero(a: &[f64], n: usize) -> bool
    requires { n ≤ length a.now }
    ensures { result ≡ FreeStep.all_zero n a.now }
{
    a[..n].iter().all(|v| *v == 0.0)
}

// No minimum on the free variables: along a direction that lowers the objective for ever. Q and E are those of the variables `solved`.
fn descend(
    iterate: Iterate,
    segments: [Segments; sizes::VARIABLES],
    e: &[f64],
    counts: Counts,
    indices: &[usize],
    solved: &[usize],
    slacks: &[usize],
    free: Free,
    q_free: &[f64],
    e_free: &[f64],
    lower: &[f64],
    upper: &[f64],
) -> Passed
    requires { AllCut counts.n segments
        × Consistent counts.n segments iterate
        × Split counts.originals counts.n counts.m e.now iterate.board.state indices.now solved.now slacks.now
        × Lists (length solved.now) counts.m free
        × (length solved.now * length solved.now ≤ length q_free.now)
        × (length solved.now * free.columns ≤ length e_free.now)
        × Ends counts.n segments iterate.board.state lower.now upper.now }
    ensures result_value { passed_of counts.n counts.m result
        ≡ FreeStep.descend counts.originals counts.n counts.m e.now segments solved.now slacks.now
        (gathered_of (length solved.now) counts.m free q_free.now e_free.now) iterate }
    ensures consistent { Consistent counts.n segments result.iterate }
{
    let k = solved.len();
    let columns = free.columns;
    let c = free.c;
    let gradient = free.gradient;
    let square = k * k;
    let entries = k * columns;
    if all_zero(&c[..k], k) {
        return iterate::ended(Ending::Failed(SolveError::SingularCovariance), iterate);
    }
    let ray = ray::descent_ray(
        &q_free[..square],
        &gradient[..k],
        &e_free[..entries],
        k,
        columns,
    );
    ray_step::on_ray(
        iterate, segments, e, counts, indices, solved, slacks, ray, lower, upper,
    )
}

// The step that the solve on the free variables gave, by its verdict.
pub fn step(
    verdict: Result<(), KktError>,
    delta: &[f64],
    multipliers: &[f64],
    iterate: Iterate,
    segments: [Segments; sizes::VARIABLES],
    fixed: &[bool],
    q: &[f64],
    c: &[f64],
    e: &[f64],
    counts: Counts,
    magnitudes: Magnitudes,
    indices: &[usize],
    solved: &[usize],
    slacks: &[usize],
    free: Free,
    q_free: &[f64],
    e_free: &[f64],
    lower: &[f64],
    upper: &[f64],
) -> Passed
    requires { Shape counts.originals counts.n counts.m q.now c.now e.now
        × AllCut counts.n segments
        × Consistent counts.n segments iterate
        × (counts.n ≤ length fixed.now)
        × Split counts.originals counts.n counts.m e.now iterate.board.state indices.now solved.now slacks.now
        × Lists (length solved.now) counts.m free
        × (length delta.now ≡ length solved.now)
        × (length multipliers.now ≡ free.columns)
        × (length solved.now * length solved.now ≤ length q_free.now)
        × (length solved.now * free.columns ≤ length e_free.now)
        × Ends counts.n segments iterate.board.state lower.now upper.now }
    ensures result_value { passed_of counts.n counts.m result
        ≡ FreeStep.step counts.originals counts.n counts.m q.now c.now e.now segments
        fixed.now magnitudes.q magnitudes.linear solved.now slacks.now
        (gathered_of (length solved.now) counts.m free q_free.now e_free.now) iterate
        (answer verdict delta.now multipliers.now) }
    ensures consistent { Consistent counts.n segments result.iterate }
{
    match verdict {
        Ok(()) => to_minimum(
            delta,
            multipliers,
            iterate,
            segments,
            fixed,
            q,
            c,
            e,
            counts,
            magnitudes,
            indices,
            solved,
            slacks,
            free,
            lower,
            upper,
        ),
        Err(KktError::NoOptimum) => descend(
            iterate, segments, e, counts, indices, solved, slacks, free, q_free, e_free, lower,
            upper,
        ),
        Err(KktError::NonFiniteCovariance) => {
            iterate::ended(Ending::Failed(SolveError::NonFiniteCovariance), iterate)
        }
        Err(KktError::SingularCovariance) => iterate::ended(
            Ending::Failed(SolveError::SingularCovariance),
            iterate,
        ),
    }
}
