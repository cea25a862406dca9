// qp.rs, `block`: a variable that reached an end of its segment is held there, and which variables are refused.
#![tactic(auto)]

ghost use Rattle.std.specs.Prelude.{◌≡◌, ◌<◌};
ghost use Rattle.sizes.specs.Sizes as Sizes;
ghost use Rattle.segments.specs.Segments.{Cut, IsFree, Placed, state_at};
ghost use Rattle.blocking.specs.Blocking as Blocking;
ghost use Rattle.blocking.specs.Blocking.{Blocked};

use segments::{Segments, State};
use step_length::Side;

// What a block changes: the point, each variable's state, and which variables are refused.
#[derive(Clone, Copy)]
pub struct Board {
    pub x: [f64; sizes::VARIABLES],
    pub state: [State; sizes::VARIABLES],
    pub refused: [bool; sizes::VARIABLES],
}

fn end_point(j: usize, side: Side) -> usize
    requires { j < 2 }
    ensures { result ≡ Blocking.end_point j side }
{
    match side {
        Side::Lower => j,
        Side::Upper => j + 1,
    }
}

// A step above 0 clears every refusal; else a variable that was just released is refused.
fn refusals(
    refused: [bool; sizes::VARIABLES],
    i: usize,
    step: f64,
    released: Option<usize>,
) -> [bool; sizes::VARIABLES]
    requires { i < Sizes.variables }
    ensures { result ≡ Blocking.refusals i step released refused }
{
    if step > 0.0 {
        return [false; sizes::VARIABLES];
    }
    if released == Some(i) {
        let mut marked = refused;
        marked[i] = true;
        return marked;
    }
    refused
}

// Variable i, with segments s, is held at the `side` end of the one that it is free in.
pub fn block(
    board: Board,
    i: usize,
    side: Side,
    s: Segments,
    step: f64,
    released: Option<usize>,
) -> Board
    requires { (i < Sizes.variables) × Cut s × IsFree (state_at board.state i) × Placed s (state_at board.state i) }
    ensures { Blocked i side s step released board result }
{
    let point = end_point(segments::segment_of(board.state[i]), side);
    let refused = board.refused;
    let mut next = board;
    next.x[i] = s.point(point);
    next.state[i] = State::At(point);
    let marked = refusals(refused, i, step, released);
    next.refused = marked;
    next
}
