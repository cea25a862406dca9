// qp.rs: what the engine's solves answer where there is an optimum, and when the passes of `solve_piecewise_in_units` end.
#![tactic(auto)]

ghost use Rattle.std.specs.Prelude.{◌≡◌, ◌<◌, ◌≤◌, MatchOption};
ghost use Rattle.sizes.specs.Sizes as Sizes;
ghost use Rattle.iterate.specs.declared.Ending.TheVariants.{More};
ghost use Rattle.minimum.specs.Counted as Definition;

use iterate::{Counts, Ending, Passed, SolveError};

// x, the multipliers and the number of passes made.
#[derive(Drop)]
pub struct Minimum {
    pub x: [f64; sizes::VARIABLES],
    pub multipliers: [f64; sizes::COLUMNS],
    pub passes: usize,
}

// What `solve_turnover_capped` answers: the accepted solve's minimum, and the raise of every slope there.
#[derive(Drop)]
pub struct CappedMinimum {
    pub minimum: Minimum,
    pub raise: f64,
}

// The answer of the last pass, where so many were made before it; None where the passes go on.
pub fn answered(passed: &Passed, made: usize) -> Option<Result<Minimum, SolveError>>
    requires { made < Definition.budget Sizes.variables }
    ensures { MatchOption result (passed.now.ending ≡ More) (Definition.Ends passed.now made) }
{
    match passed.ending {
        Ending::More => None,
        Ending::Optimal(multipliers) => Some(Ok(Minimum {
            x: passed.iterate.board.x,
            multipliers,
            passes: made + 1,
        })),
        Ending::Failed(error) => Some(Err(error)),
    }
}

// How many passes are made at most.
pub fn budget(counts: Counts) -> usize
    requires { counts.n ≤ Sizes.variables }
    ensures { result ≡ Definition.budget counts.n }
{
    100 + 20 * counts.n
}
