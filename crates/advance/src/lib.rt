// qp.rs, the end of a pass of `solve_piecewise_in_units` that no variable blocks: the whole step is made, and a held variable is released.
#![tactic(auto)]

ghost use Rattle.std.specs.Prelude.{◌≡◌, ◌≤◌, ◌<◌, length, take};
ghost use Rattle.sizes.specs.Sizes as Sizes;
ghost use Rattle.vector.specs.Vector.{Below};
ghost use Rattle.segments.specs.Segments.{AllCut, AllPlaced};
ghost use Rattle.iterate.specs.Iterate.{passed_of, Consistent};
ghost use Rattle.release_at.specs.ReleaseAt as ReleaseAt;
ghost use Rattle.release_at.specs.ReleaseAt.{Shape};
ghost use Rattle.advance.specs.Advance as Advance;

use blocking::Board;
use iterate::{Counts, Ending, Iterate, Magnitudes, Passed, SolveError};
use releasing::Outcome;
use segments::{Segments, State};

// The whole step; the refusals are cleared where x moved.
pub fn settled(
    board: Board,
    indices: &[usize],
    target: &[f64],
    lower: &[f64],
    upper: &[f64],
    tolerance: f64,
) -> Board
    requires { Below (length indices.now) indices.now Sizes.variables
        × (length indices.now ≤ length target.now)
        × (length indices.now ≤ length lower.now)
        × (length indices.now ≤ length upper.now) }
    ensures { result
        ≡ Advance.settled indices.now target.now lower.now upper.now tolerance board }
{
    let mut next = board;
    let moved = stepping::settle(&mut next.x, indices, target, lower, upper, tolerance);
    if moved {
        next.refused = [false; sizes::VARIABLES];
    }
    next
}

fn entered(board: Board, i: usize, segment: usize) -> Board
    requires { i < Sizes.variables }
    ensures { result ≡ Advance.entered i segment board }
{
    let mut next = board;
    next.state[i] = State::Free(segment);
    next
}

// After the whole step: a variable leaves the active set, or the point is the answer, or no progress can be made.
pub fn decided(
    iterate: Iterate,
    board: Board,
    segments: [Segments; sizes::VARIABLES],
    fixed: &[bool],
    q: &[f64],
    c: &[f64],
    e: &[f64],
    counts: Counts,
    magnitudes: Magnitudes,
    multipliers: [f64; sizes::COLUMNS],
) -> Passed
    requires { Shape counts.originals counts.n counts.m q.now c.now e.now
        × AllCut counts.n segments
        × AllPlaced counts.n segments board.state
        × Consistent counts.n segments iterate
        × (counts.n ≤ length fixed.now) }
    ensures result_value { passed_of counts.n counts.m result
        ≡ Advance.decided counts.n iterate board (take counts.m multipliers)
        (ReleaseAt.release counts.originals counts.n counts.m q.now c.now e.now segments
        fixed.now magnitudes.q magnitudes.linear (take counts.m multipliers) board) }
    ensures consistent { Consistent counts.n segments result.iterate }
{
    let m = counts.m;
    let released = iterate.released;
    let outcome = release_at::release(
        board,
        segments,
        fixed,
        q,
        c,
        e,
        counts,
        magnitudes,
        &multipliers[..m],
    );
    match outcome {
        Outcome::Enter(i, segment) => {
            let next = entered(board, i, segment);
            iterate::ended(Ending::More, iterate::with_board(iterate, next, Some(i)))
        }
        Outcome::Answer => iterate::ended(
            Ending::Optimal(multipliers),
            iterate::with_board(iterate, board, released),
        ),
        Outcome::NotConverged => iterate::ended(Ending::Failed(SolveError::NotConverged), iterate),
    }
}
