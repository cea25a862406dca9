// qp.rs, `search_multiplier`: the doubling, until `high` is within the limit, and the cuts of the bracket. Neither loop counts: each ends because
// fewer floats are left. Q is n by n, E is n by m, the rows' a is n by r; at are the kinks' points, slopes their slopes.
#![tactic(auto)]

ghost use Rattle.std.specs.Prelude.{◌≡◌, ◌+◌, take};
ghost use Rattle.minimum.specs.Minimized.{minimized_of};
ghost use Rattle.bracket.specs.Bracket.{bracket_of};
ghost use Rattle.bracket.specs.Ends.{Rising};
ghost use Rattle.multiplier.specs.Ready.{Ready};
ghost use Rattle.search_step.specs.Step.{stepped_of, ended_of};
ghost use Rattle.multiplier.specs.Search.{problem};
ghost use Rattle.multiplier.specs.Search as Definition;

use bracket::Bracket;
use iterate::SolveError;
use minimum::Minimum;
use search_step::Stepped;

// The optimum with every slope raised by `extra`, from a warm start.
pub fn solve_raised(
    q: &[f64],
    c: &[f64],
    e: &[f64],
    b: &[f64],
    lower: &[f64],
    upper: &[f64],
    a: &[f64],
    row_lower: &[f64],
    row_upper: &[f64],
    at: &[f64],
    slopes: &[f64],
    extra: f64,
    warm: [f64; sizes::VARIABLES],
    n: usize,
    m: usize,
    r: usize,
) -> Result<Minimum, SolveError>
    requires { Ready n m r q.now c.now e.now b.now lower.now upper.now a.now row_lower.now
        row_upper.now at.now slopes.now }
    ensures { minimized_of n (m + r) result
        ≡ Definition.solve (problem n m r q.now c.now e.now b.now lower.now
        upper.now a.now row_lower.now row_upper.now at.now slopes.now)
        extra (take n warm) }
{
    let mut raised = [0.0; sizes::ORIGINALS];
    vector::add_scalar(slopes, n, extra, &mut raised);
    slack_solve::solve_shaped(
        q,
        c,
        e,
        b,
        lower,
        upper,
        a,
        row_lower,
        row_upper,
        at,
        &raised[..n],
        &warm[..n],
        n,
        m,
        r,
    )
}

// ---- the doubling
fn double_step(
    bracket: Bracket,
    q: &[f64],
    c: &[f64],
    e: &[f64],
    b: &[f64],
    lower: &[f64],
    upper: &[f64],
    a: &[f64],
    row_lower: &[f64],
    row_upper: &[f64],
    at: &[f64],
    slopes: &[f64],
    limit: f64,
    n: usize,
    m: usize,
    r: usize,
) -> Result<Stepped, SolveError>
    requires { Ready n m r q.now c.now e.now b.now lower.now upper.now a.now row_lower.now
        row_upper.now at.now slopes.now }
    ensures { stepped_of n (m + r) result
        ≡ Definition.double_step (problem n m r q.now c.now e.now b.now lower.now
        upper.now a.now row_lower.now row_upper.now at.now slopes.now)
        limit (bracket_of n (m + r) bracket) }
{
    let warm = bracket.warm;
    let solved = solve_raised(
        q,
        c,
        e,
        b,
        lower,
        upper,
        a,
        row_lower,
        row_upper,
        at,
        slopes,
        bracket.high,
        warm,
        n,
        m,
        r,
    );
    search_step::double_by(bracket, solved, at, limit, n)
}

// Doubles until `high` is within the limit.
fn reach(
    bracket: Bracket,
    q: &[f64],
    c: &[f64],
    e: &[f64],
    b: &[f64],
    lower: &[f64],
    upper: &[f64],
    a: &[f64],
    row_lower: &[f64],
    row_upper: &[f64],
    at: &[f64],
    slopes: &[f64],
    limit: f64,
    n: usize,
    m: usize,
    r: usize,
) -> Result<Bracket, SolveError>
    requires { Ready n m r q.now c.now e.now b.now lower.now upper.now a.now row_lower.now
        row_upper.now at.now slopes.now
        × Rising bracket }
    ensures { ended_of n (m + r) result
        ≡ Definition.reached (problem n m r q.now c.now e.now b.now lower.now
        upper.now a.now row_lower.now row_upper.now at.now slopes.now)
        limit (bracket_of n (m + r) bracket) }
{
    let mut t = bracket;
    loop {
        let step = double_step(
            t, q, c, e, b, lower, upper, a, row_lower, row_upper, at, slopes, limit, n, m, r,
        )?;
        match step {
            Stepped::More(next) => t = next,
            Stepped::Found(found) => return Ok(found),
        }
    }
}

// ---- the cuts
fn cut_at(
    bracket: Bracket,
    q: &[f64],
    c: &[f64],
    e: &[f64],
    b: &[f64],
    lower: &[f64],
    upper: &[f64],
    a: &[f64],
    row_lower: &[f64],
    row_upper: &[f64],
    at: &[f64],
    slopes: &[f64],
    limit: f64,
    n: usize,
    m: usize,
    r: usize,
) -> Result<Stepped, SolveError>
    requires { Ready n m r q.now c.now e.now b.now lower.now upper.now a.now row_lower.now
        row_upper.now at.now slopes.now }
    ensures { stepped_of n (m + r) result
        ≡ Definition.cut_at (problem n m r q.now c.now e.now b.now lower.now
        upper.now a.now row_lower.now row_upper.now at.now slopes.now)
        limit (bracket_of n (m + r) bracket) }
{
    let best = bracket.best;
    let solved = solve_raised(
        q,
        c,
        e,
        b,
        lower,
        upper,
        a,
        row_lower,
        row_upper,
        at,
        slopes,
        bracket.middle,
        best,
        n,
        m,
        r,
    );
    search_step::cut_by(bracket, solved, at, limit, n)
}

fn cut_step(
    bracket: Bracket,
    q: &[f64],
    c: &[f64],
    e: &[f64],
    b: &[f64],
    lower: &[f64],
    upper: &[f64],
    a: &[f64],
    row_lower: &[f64],
    row_upper: &[f64],
    at: &[f64],
    slopes: &[f64],
    limit: f64,
    n: usize,
    m: usize,
    r: usize,
) -> Result<Stepped, SolveError>
    requires { Ready n m r q.now c.now e.now b.now lower.now upper.now a.now row_lower.now
        row_upper.now at.now slopes.now }
    ensures { stepped_of n (m + r) result
        ≡ Definition.cut_step (problem n m r q.now c.now e.now b.now lower.now
        upper.now a.now row_lower.now row_upper.now at.now slopes.now)
        limit (bracket_of n (m + r) bracket) }
{
    let best = bracket.best;
    if turnover::reaches(bracket.high_value, limit, &best[..n], n) {
        return Ok(Stepped::Found(bracket));
    }
    let next = bracket.cut(limit);
    if next.closed() {
        return Ok(Stepped::Found(bracket));
    }
    cut_at(
        next, q, c, e, b, lower, upper, a, row_lower, row_upper, at, slopes, limit, n, m, r,
    )
}

// Cuts until the best solution reaches the limit, or no float lies between the ends.
fn narrow(
    bracket: Bracket,
    q: &[f64],
    c: &[f64],
    e: &[f64],
    b: &[f64],
    lower: &[f64],
    upper: &[f64],
    a: &[f64],
    row_lower: &[f64],
    row_upper: &[f64],
    at: &[f64],
    slopes: &[f64],
    limit: f64,
    n: usize,
    m: usize,
    r: usize,
) -> Result<Bracket, SolveError>
    requires { Ready n m r q.now c.now e.now b.now lower.now upper.now a.now row_lower.now
        row_upper.now at.now slopes.now
        × Rising bracket }
    ensures { ended_of n (m + r) result
        ≡ Definition.narrowed (problem n m r q.now c.now e.now b.now lower.now
        upper.now a.now row_lower.now row_upper.now at.now slopes.now)
        limit (bracket_of n (m + r) bracket) }
{
    let mut t = bracket;
    loop {
        let step = cut_step(
            t, q, c, e, b, lower, upper, a, row_lower, row_upper, at, slopes, limit, n, m, r,
        )?;
        match step {
            Stepped::More(next) => t = next,
            Stepped::Found(found) => return Ok(found),
        }
    }
}

// ---- the search
pub fn reach_and_narrow(
    bracket: Bracket,
    q: &[f64],
    c: &[f64],
    e: &[f64],
    b: &[f64],
    lower: &[f64],
    upper: &[f64],
    a: &[f64],
    row_lower: &[f64],
    row_upper: &[f64],
    at: &[f64],
    slopes: &[f64],
    limit: f64,
    n: usize,
    m: usize,
    r: usize,
) -> Result<Bracket, SolveError>
    requires { Ready n m r q.now c.now e.now b.now lower.now upper.now a.now row_lower.now
        row_upper.now at.now slopes.now
        × Rising bracket }
    ensures { ended_of n (m + r) result
        ≡ Definition.reach_and_narrow (problem n m r q.now c.now e.now b.now lower.now
        upper.now a.now row_lower.now row_upper.now at.now slopes.now)
        limit (bracket_of n (m + r) bracket) }
{
    let found = reach(
        bracket, q, c, e, b, lower, upper, a, row_lower, row_upper, at, slopes, limit, n, m, r,
    )?;
    narrow(
        found, q, c, e, b, lower, upper, a, row_lower, row_upper, at, slopes, limit, n, m, r,
    )
}
