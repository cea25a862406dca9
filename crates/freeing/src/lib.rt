// qp.rs, a pass of `solve_piecewise_in_units` where no original is free: every variable is freed at once, unless that was done before at the same
// point.
#![tactic(auto)]

ghost use Rattle.std.specs.Prelude.{◌≡◌, ◌≤◌, length};
ghost use Rattle.sizes.specs.Sizes as Sizes;
ghost use Rattle.segments.specs.Segments.{AllCut, AllPlaced};
ghost use Rattle.iterate.specs.Iterate.{Consistent};
ghost use Rattle.freeing.specs.Freeing as Freeing;

use iterate::{Ending, Iterate, Passed, SolveError};
use segments::Segments;

// Whether no original is free: solved.is_empty().
pub fn none_free(solved: &[usize]) -> bool
    ensures { result ≡ Freeing.none_free solved.now }
{
    solved.len() == 0
}

fn all_true(a: &[bool], n: usize) -> bool
    requires { n ≤ length a.now }
    ensures { result ≡ Freeing.all_true n a.now }
{
    a[..n].iter().all(|x| *x)
}

// freed_at.as_ref() == Some(&x)
fn freed_here(freed: bool, freed_at: &[f64], x: &[f64], n: usize) -> bool
    requires { (n ≤ length freed_at.now) × (n ≤ length x.now) }
    ensures { result ≡ Freeing.freed_here n freed freed_at.now x.now }
{
    if freed {
        return stepping::same_point(freed_at, x, n);
    }
    false
}

// Every variable that isn't fixed is freed, here.
fn free_everything(
    iterate: Iterate,
    segments: [Segments; sizes::VARIABLES],
    fixed: &[bool],
    n: usize,
) -> Iterate
    requires { (n ≤ Sizes.variables)
        × (n ≤ length fixed.now)
        × AllCut n segments
        × AllPlaced n segments iterate.board.state }
    ensures { result ≡ Freeing.free_everything n segments fixed.now iterate }
{
    let mut board = iterate.board;
    let x = board.x;
    let state = board.state;
    let freed = segments::free_all(state, segments, fixed, n);
    board.state = freed;
    let released = iterate.released;
    Iterate {
        board: board,
        released: released,
        freed: true,
        freed_at: x,
    }
}

// With no free original every variable is freed at once, unless that was done before at the same point.
pub fn without_free(
    iterate: Iterate,
    segments: [Segments; sizes::VARIABLES],
    fixed: &[bool],
    n: usize,
    originals: usize,
) -> Passed
    requires { (originals ≤ n)
        × (n ≤ Sizes.variables)
        × (n ≤ length fixed.now)
        × AllCut n segments
        × Consistent n segments iterate }
    ensures without_free { Freeing.WithoutFree originals n segments fixed.now iterate result }
    ensures consistent { Consistent n segments result.iterate }
{
    if all_true(fixed, originals) {
        return iterate::ended(Ending::Optimal([0.0; sizes::COLUMNS]), iterate);
    }
    let board = iterate.board;
    let x = board.x;
    let freed_at = iterate.freed_at;
    if freed_here(iterate.freed, &freed_at[..n], &x[..n], n) {
        return iterate::ended(Ending::Failed(SolveError::NotConverged), iterate);
    }
    iterate::ended(Ending::More, free_everything(iterate, segments, fixed, n))
}
