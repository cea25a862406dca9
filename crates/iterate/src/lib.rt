// qp.rs, `solve_piecewise_in_units`: what a pass changes, and what it ends in.
#![tactic(auto)]

ghost use Rattle.std.specs.Prelude.{◌≡◌};
ghost use Rattle.iterate.specs.Iterate as Definition;

use blocking::Board;

// The variables, of which those from `originals` on are slacks, and the columns of E.
#[derive(Clone, Copy)]
pub struct Counts {
    pub originals: usize,
    pub n: usize,
    pub m: usize,
}

// The largest absolute values: of Q, and of c and the slopes.
#[derive(Clone, Copy)]
pub struct Magnitudes {
    pub q: f64,
    pub linear: f64,
}

// The point with its active set, the variable that the pass before released, and where every variable was last freed at once.
#[derive(Drop)]
pub struct Iterate {
    pub board: Board,
    pub released: Option<usize>,
    pub freed: bool,
    pub freed_at: [f64; sizes::VARIABLES],
}

// Another point with its active set.
pub fn with_board(iterate: Iterate, board: Board, released: Option<usize>) -> Iterate
    ensures { result ≡ Definition.with_board iterate board released }
{
    let freed_at = iterate.freed_at;
    Iterate {
        board: board,
        released: released,
        freed: iterate.freed,
        freed_at: freed_at,
    }
}

// qp.rs, `CutupError`: why there is no optimum.
#[derive(Clone, Copy, PartialEq, Eq, Debug)]
pub enum SolveError {
    NonFiniteCovariance,
    SingularCovariance,
    Unbounded,
    NotConverged,
}

// Whether there is another pass, an optimum with its multipliers, or an error.
#[derive(Clone, Copy)]
pub enum Ending {
    More,
    Optimal([f64; sizes::COLUMNS]),
    Failed(SolveError),
}

// How a pass ended, and where the next one starts or the last one stands.
#[derive(Drop)]
pub struct Passed {
    pub ending: Ending,
    pub iterate: Iterate,
}

pub fn ended(ending: Ending, iterate: Iterate) -> Passed
    ensures { (result.ending ≡ ending) × (result.iterate ≡ iterate) }
{
    Passed {
        ending: ending,
        iterate: iterate,
    }
}
