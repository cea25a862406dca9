// qp.rs, in a pass of `solve_piecewise_in_units`: the step along a direction of zero curvature, if there is one. The free variables `indices` are
// `solved`, those below `originals`, and, after them, `slacks`.
#![tactic(auto)]

ghost use Rattle.std.specs.Prelude.{◌≡◌, length};
ghost use Rattle.segments.specs.Segments.{AllCut};
ghost use Rattle.free_list.specs.FreeList.{Ends};
ghost use Rattle.scaled_ray.specs.ScaledRay.{ray_of};
ghost use Rattle.iterate.specs.Iterate.{passed_of, Consistent};
ghost use Rattle.full_step.specs.FullStep.{Split};
ghost use Rattle.ray_step.specs.RayStep as RayStep;

use iterate::{Counts, Ending, Iterate, Passed, SolveError};
use segments::Segments;

// Along the ray of the variables `solved`, with residuals of 0 for the slacks' rows.
pub fn on_ray(
    iterate: Iterate,
    segments: [Segments; sizes::VARIABLES],
    e: &[f64],
    counts: Counts,
    indices: &[usize],
    solved: &[usize],
    slacks: &[usize],
    ray: Option<[f64; sizes::VARIABLES]>,
    lower: &[f64],
    upper: &[f64],
) -> Passed
    requires { AllCut counts.n segments
        × Consistent counts.n segments iterate
        × Split counts.originals counts.n counts.m e.now iterate.board.state indices.now solved.now slacks.now
        × Ends counts.n segments iterate.board.state lower.now upper.now }
    ensures result_value { passed_of counts.n counts.m result
        ≡ RayStep.on_ray counts.originals counts.n counts.m e.now segments solved.now slacks.now iterate
        (ray_of (length solved.now) ray) }
    ensures consistent { Consistent counts.n segments result.iterate }
{
    let Some(direction) = ray else {
        return iterate::ended(Ending::Failed(SolveError::SingularCovariance), iterate);
    };
    let k = solved.len();
    let n = counts.n;
    let m = counts.m;
    let count = indices.len();
    let none = [0.0; sizes::COLUMNS];
    let mut step = [0.0; sizes::VARIABLES];
    full_step::slack_steps(
        e,
        counts,
        solved,
        slacks,
        &direction[..k],
        &none[..m],
        &mut step,
    );
    full_step::along(iterate, segments, n, indices, &step[..count], lower, upper)
}
