// qp.rs, `solve_piecewise_in_units`: the passes of the primal active-set method on a problem in `Units`, counted. Q is n by n, E is n by m; the
// variables from `originals` on are slacks, each with one of the last columns of E.
#![tactic(auto)]

ghost use Rattle.std.specs.Prelude.{◌≡◌, ◌≤◌, ◌*◌, length};
ghost use Rattle.segments.specs.Segments.{AllCut};
ghost use Rattle.iterate.specs.Problem.{problem, Shaped, Room};
ghost use Rattle.iterate.specs.Iterate.{Consistent};
ghost use Rattle.minimum.specs.Minimized.{minimized_of};
ghost use Rattle.active.specs.Active as Definition;

use factoring::Factoring;
use iterate::{Counts, Iterate, Magnitudes, SolveError};
use minimum::Minimum;
use segments::Segments;

// The passes from `iterate` on, until one of them ends or the budget is spent. The slices from room on are work memory, but l, which holds the
// kept factor.
pub fn passes(
    iterate: Iterate,
    segments: [Segments; sizes::VARIABLES],
    fixed: &[bool],
    q: &[f64],
    c: &[f64],
    e: &[f64],
    b: &[f64],
    counts: Counts,
    magnitudes: Magnitudes,
    room: &mut [f64],
    q_free: &mut [f64],
    e_free: &mut [f64],
    gram: &mut [f64],
    l: &mut [f64],
) -> Result<Minimum, SolveError>
    requires { Shaped counts.originals counts.n counts.m q.now c.now e.now b.now
        × AllCut counts.n segments
        × Consistent counts.n segments iterate
        × (length fixed.now ≡ counts.n)
        × Room counts.originals counts.n counts.m room.old q_free.old e_free.old gram.old
        × (counts.originals * counts.originals ≤ length l.old) }
    ensures { minimized_of counts.n counts.m result
        ≡ Definition.passes (problem counts.originals counts.n counts.m q.now c.now e.now b.now)
        segments fixed.now magnitudes.q magnitudes.linear iterate l.old }
{
    let mut at = iterate;
    let mut factoring = Factoring::new();
    for made in 0..minimum::budget(counts) {
        let step = pass::pass(
            at, factoring, segments, fixed, q, c, e, b, counts, magnitudes, room, q_free, e_free,
            gram, l,
        );
        let passed = step.passed;
        if let Some(answer) = minimum::answered(&passed, made) {
            return answer;
        }
        at = passed.iterate;
        factoring = step.factoring;
    }
    Err(SolveError::NotConverged)
}
