// qp.rs, `search_multiplier`: what the search makes of one solve's answer, in the doubling and in the cuts, and the answer of the bracket that it
// ends in. at are the kinks' points.
#![tactic(auto)]

ghost use Rattle.std.specs.Prelude.{◌≡◌, ℕ, ◌≤◌, length};
ghost use Rattle.sizes.specs.Sizes as Sizes;
ghost use Rattle.minimum.specs.Minimized.{minimized_of};
ghost use Rattle.minimum.specs.Capped.{capped_of};
ghost use Rattle.bracket.specs.Bracket.{bracket_of};
ghost use Rattle.search_step.specs.Step.{Gives, stepped_of, ended_of};
ghost use Rattle.search_step.specs.Step as Definition;

use bracket::Bracket;
use iterate::SolveError;
use minimum::{CappedMinimum, Minimum};

const MAX: f64 = 1.7976931348623157e308;

// Where a step of the search leads: to the next bracket, or to the one whose best solution is the answer.
#[derive(Drop)]
pub enum Stepped {
    More(Bracket),
    Found(Bracket),
}

// ---- the doubling
// `high` is past the limit: on to twice it.
fn double_on(bracket: Bracket) -> Result<Stepped, SolveError>
    ensures { Gives result bracket Definition.double_on }
{
    if bracket.high > MAX / 2.0 {
        return Err(SolveError::NotConverged);
    }
    Ok(Stepped::More(bracket.double()))
}

// What the solve at `high` answered. An objective with no minimum runs off past any limit; any other error is the arithmetic breaking down.
pub fn double_by(
    bracket: Bracket,
    solved: Result<Minimum, SolveError>,
    at: &[f64],
    limit: f64,
    n: usize,
) -> Result<Stepped, SolveError>
    requires { (n ≤ Sizes.originals) × (n ≤ length at.now) }
    ensures { (w : ℕ) → stepped_of n w result
        ≡ Definition.double_by n at.now limit (bracket_of n w bracket) (minimized_of n w solved) }
{
    match solved {
        Ok(optimum) => {
            let x = optimum.x;
            let multipliers = optimum.multipliers;
            let value = turnover::turnover(&x[..n], at, n);
            if turnover::within(value, limit, &x[..n], n) {
                return Ok(Stepped::Found(bracket.accept(
                    bracket.high,
                    value,
                    x,
                    multipliers,
                    optimum.passes,
                )));
            }
            let past = bracket.exceed(bracket.high, value);
            double_on(past.warmed(x))
        }
        Err(error) => match error {
            SolveError::Unbounded => double_on(bracket.exceed(bracket.high, arith::infinity())),
            _ => Err(SolveError::NotConverged),
        },
    }
}

// ---- the cuts
// What the solve at the middle answered.
pub fn cut_by(
    bracket: Bracket,
    solved: Result<Minimum, SolveError>,
    at: &[f64],
    limit: f64,
    n: usize,
) -> Result<Stepped, SolveError>
    requires { (n ≤ Sizes.originals) × (n ≤ length at.now) }
    ensures { (w : ℕ) → stepped_of n w result
        ≡ Definition.cut_by n at.now limit (bracket_of n w bracket) (minimized_of n w solved) }
{
    match solved {
        Ok(optimum) => {
            let x = optimum.x;
            let multipliers = optimum.multipliers;
            let value = turnover::turnover(&x[..n], at, n);
            if turnover::within(value, limit, &x[..n], n) {
                return Ok(Stepped::More(bracket.accept(
                    bracket.middle,
                    value,
                    x,
                    multipliers,
                    optimum.passes,
                )));
            }
            Ok(Stepped::More(bracket.exceed(bracket.middle, value)))
        }
        Err(error) => match error {
            SolveError::Unbounded => {
                Ok(Stepped::More(bracket.exceed(bracket.middle, arith::infinity())))
            }
            _ => Err(error),
        },
    }
}

// ---- the answer
// The best solution of the bracket that the search ends in, accepted at `high`.
pub fn accepted(found: Result<Bracket, SolveError>) -> Result<CappedMinimum, SolveError>
    ensures { (n w : ℕ) → capped_of n w result ≡ Definition.accepted (ended_of n w found) }
{
    let bracket = found?;
    let x = bracket.best;
    let multipliers = bracket.multipliers;
    let minimum = Minimum {
        x: x,
        multipliers: multipliers,
        passes: bracket.passes,
    };
    Ok(CappedMinimum {
        minimum: minimum,
        raise: bracket.high,
    })
}
