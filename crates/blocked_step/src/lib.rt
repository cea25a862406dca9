// qp.rs, the blocked step of a pass of `solve_piecewise_in_units`: to where a free variable reaches an end of its segment, at which it is held.
#![tactic(auto)]

ghost use Rattle.std.specs.Prelude.{◌≡◌, ◌<◌, length};
ghost use Rattle.free_list.specs.FreeList.{Listed};
ghost use Rattle.step_length.specs.StepLength.{Entries};
ghost use Rattle.iterate.specs.Iterate.{Leaves};
ghost use Rattle.blocked_step.specs.BlockedStep as BlockedStep;

use blocking::Board;
use iterate::{Ending, Iterate, Passed};
use segments::Segments;
use step_length::Side;

// Toward a target or along a ray, to where entry k of the free variables reaches an end of its segment, which is held there.
fn move_and_block(
    board: Board,
    segments: [Segments; sizes::VARIABLES],
    indices: &[usize],
    x_free: &[f64],
    direction: &[f64],
    lower: &[f64],
    upper: &[f64],
    step: f64,
    k: usize,
    side: Side,
    released: Option<usize>,
) -> Board
    requires { Listed indices.now segments board.state
        × Entries (length indices.now) x_free.now direction.now lower.now upper.now
        × (k < length indices.now) }
    ensures { result
        ≡ BlockedStep.move_and_block segments indices.now x_free.now direction.now lower.now
        upper.now step k side released board }
{
    let mut moved = board;
    stepping::move_along(&mut moved.x, indices, x_free, direction, step, lower, upper);
    let i = indices[k];
    lent_segments::block(moved, i, side, &segments, step, released)
}

// The same, with what the pass before released forgotten.
pub fn blocked_pass(
    iterate: Iterate,
    segments: [Segments; sizes::VARIABLES],
    indices: &[usize],
    x_free: &[f64],
    direction: &[f64],
    lower: &[f64],
    upper: &[f64],
    step: f64,
    k: usize,
    side: Side,
) -> Passed
    requires { Listed indices.now segments iterate.board.state
        × Entries (length indices.now) x_free.now direction.now lower.now upper.now
        × (k < length indices.now) }
    ensures leaves { Leaves result
        (BlockedStep.blocked_pass iterate
        (BlockedStep.move_and_block segments indices.now x_free.now direction.now lower.now
        upper.now step k side iterate.released iterate.board)) }
    ensures keeps { BlockedStep.Keeps indices.now segments iterate result }
{
    let board = iterate.board;
    let released = iterate.released;
    let next = move_and_block(
        board, segments, indices, x_free, direction, lower, upper, step, k, side, released,
    );
    iterate::ended(Ending::More, iterate::with_board(iterate, next, None))
}
