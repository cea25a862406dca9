// qp.rs: which held variable leaves the active set, at an equality-constrained optimum. Of up to 48 variables and slacks.
#![tactic(auto)]

ghost use Rattle.std.specs.Prelude.{◌≡◌, ◌≤◌, length};
ghost use Rattle.folds.specs.Best.{better};
ghost use Rattle.sizes.specs.Sizes as Sizes;
ghost use Rattle.segments.specs.Segments.{Cut, Placed, AllCut, AllPlaced, last as last_of};
ghost use Rattle.releasing.specs.Release as Rule;
ghost use Rattle.releasing.specs.Release.{at_least};

use segments::{Segments, State};

// The rate at which the objective falls as a held variable moves into a segment next to it, and that segment; a rate counts above `least`.
fn counted(rate: f64, segment: usize, least: f64) -> Option<(f64, usize)>
    ensures { result ≡ Rule.counted rate segment least }
{
    if rate > least {
        return Some((rate, segment));
    }
    None
}

// Up into segment p.
fn up(s: Segments, p: usize, nu: f64, least: f64) -> Option<(f64, usize)>
    requires { Cut s × (p ≤ last_of s) }
    ensures { result ≡ Rule.up s p nu least }
{
    if p < s.last() {
        return counted(-(nu + s.slope(p)), p, least);
    }
    None
}

// Down into segment p - 1.
fn down(s: Segments, p: usize, nu: f64, least: f64) -> Option<(f64, usize)>
    requires { Cut s × (p ≤ last_of s) }
    ensures { result ≡ Rule.down s p nu least }
{
    if p > 0 {
        let segment = p - 1;
        return counted(nu + s.slope(segment), segment, least);
    }
    None
}

// Up before down.
fn held_descent(s: Segments, p: usize, nu: f64, least: f64) -> Option<(f64, usize)>
    requires { Cut s × (p ≤ last_of s) }
    ensures { result ≡ Rule.held_descent s p nu least }
{
    up(s, p, nu, least).or(down(s, p, nu, least))
}

// Of one that is neither fixed nor free.
fn wrong_one(fixed: bool, state: State, s: Segments, nu: f64, least: f64) -> Option<(f64, usize)>
    requires { Cut s × Placed s state }
    ensures { result ≡ Rule.wrong_one fixed state s nu least }
{
    if fixed {
        return None;
    }
    match state {
        State::At(p) => held_descent(s, p, nu, least),
        State::Free(_) => None,
    }
}

// Of two rates, each with its variable and the segment: the larger, and the last where they are equal.
fn max_by(
    best: Option<(f64, usize, usize)>,
    other: Option<(f64, usize, usize)>,
) -> Option<(f64, usize, usize)>
    ensures { result ≡ better at_least best other }
{
    let Some((rate, _, _)) = other else {
        return best;
    };
    let Some((largest, _, _)) = best else {
        return other;
    };
    if arith::total_less(rate, largest) {
        return best;
    }
    other
}

// What variable i offers, unless it is refused.
fn offered(refused: bool, wrong: Option<(f64, usize)>, i: usize) -> Option<(f64, usize, usize)>
    ensures { result ≡ Rule.offered refused wrong i }
{
    if refused {
        return None;
    }
    let (rate, segment) = wrong?;
    Some((rate, i, segment))
}

// Of those that would lower the objective: the one that enters, and whether there is one, refused or not.
#[derive(Drop)]
pub struct Wrong {
    pub entering: Option<(f64, usize, usize)>,
    pub any: bool,
}

// Of the first n, in one loop, by index, as in the source: a zip of six slices is no plainer.
fn wrong_ones(
    segments: [Segments; sizes::VARIABLES],
    state: [State; sizes::VARIABLES],
    fixed: &[bool],
    refused: &[bool],
    gradient: &[f64],
    pushback: &[f64],
    n: usize,
    least: f64,
) -> Wrong
    requires { (n ≤ Sizes.variables)
        × (n ≤ length fixed.now)
        × (n ≤ length refused.now)
        × (n ≤ length gradient.now)
        × (n ≤ length pushback.now)
        × AllCut n segments
        × AllPlaced n segments state }
    ensures { (result.entering
        ≡ Rule.entering n segments state fixed.now refused.now gradient.now pushback.now least)
        × (result.any ≡ Rule.any_wrong n segments state fixed.now gradient.now pushback.now least) }
{
    let mut best = None;
    let mut any = false;
    for i in 0..n {
        let nu = gradient[i] + pushback[i];
        let wrong = wrong_one(fixed[i], state[i], segments[i], nu, least);
        best = max_by(best, offered(refused[i], wrong, i));
        any |= wrong.is_some();
    }
    Wrong {
        entering: best,
        any,
    }
}

// What follows: a variable enters, free in a segment; the point is the answer; or it is not, and no progress can be made.
#[derive(Drop)]
pub enum Outcome {
    Enter(usize, usize),
    Answer,
    NotConverged,
}

pub fn release(
    segments: [Segments; sizes::VARIABLES],
    state: [State; sizes::VARIABLES],
    fixed: &[bool],
    refused: &[bool],
    gradient: &[f64],
    pushback: &[f64],
    n: usize,
    scale: f64,
) -> Outcome
    requires { (n ≤ Sizes.variables)
        × (n ≤ length fixed.now)
        × (n ≤ length refused.now)
        × (n ≤ length gradient.now)
        × (n ≤ length pushback.now)
        × AllCut n segments
        × AllPlaced n segments state }
    ensures { result
        ≡ Rule.release n segments state fixed.now refused.now gradient.now pushback.now scale }
{
    let least = 1e-9 * scale;
    let wrong = wrong_ones(
        segments, state, fixed, refused, gradient, pushback, n, least,
    );
    let Some((_, i, segment)) = wrong.entering else {
        if wrong.any {
            return Outcome::NotConverged;
        }
        return Outcome::Answer;
    };
    Outcome::Enter(i, segment)
}
