// qp.rs, `solve_piecewise_in_units`: the passes from the start, and the work memory that they are lent. Q is n by n, E is n by m; the variables from
// `originals` on are slacks, each with one of the last columns of E.
#![tactic(auto)]

ghost use Rattle.std.specs.Prelude.{◌≡◌, ◌≤◌, ◌+◌, ◌*◌, length};
ghost use Rattle.sizes.specs.Sizes as Sizes;
ghost use Rattle.arith.specs.Float.{f0};
ghost use Rattle.vector.specs.Vector.{filled};
ghost use Rattle.segments.specs.Segments.{AllCut};
ghost use Rattle.iterate.specs.Problem.{problem, Shaped, Room};
ghost use Rattle.minimum.specs.Minimized.{minimized_of};
ghost use Rattle.in_units.specs.InUnits as Definition;

use iterate::{Counts, SolveError};
use minimum::Minimum;
use segments::Segments;

// The entries of a matrix of work memory, which has a row for each original and a column for each variable with the slacks (ROWS), and of one with a
// row and a column for each column of E with the slacks (GRAM).
const ROWS: usize = sizes::ORIGINALS * sizes::VARIABLES;

const GRAM: usize = sizes::COLUMNS * sizes::COLUMNS;

// The same of a small problem, of 16 variables and 16 columns.
const SMALL_ROWS: usize = sizes::FEW * (sizes::FEW + sizes::FEW);

const SMALL_GRAM: usize = (sizes::FEW + sizes::FEW) * (sizes::FEW + sizes::FEW);

fn solve_piecewise_in_units(
    q: &[f64],
    c: &[f64],
    e: &[f64],
    b: &[f64],
    counts: Counts,
    segments: [Segments; sizes::VARIABLES],
    start: &[f64],
    room: &mut [f64],
    q_free: &mut [f64],
    e_free: &mut [f64],
    gram: &mut [f64],
    l: &mut [f64],
) -> Result<Minimum, SolveError>
    requires { Shaped counts.originals counts.n counts.m q.now c.now e.now b.now
        × AllCut counts.n segments
        × (counts.n ≤ length start.now)
        × Room counts.originals counts.n counts.m room.old q_free.old e_free.old gram.old
        × (l.old ≡ filled (counts.originals * counts.originals) f0) }
    ensures { minimized_of counts.n counts.m result
        ≡ Definition.solve_piecewise_in_units
        (problem counts.originals counts.n counts.m q.now c.now e.now b.now)
        segments start.now }
{
    let n = counts.n;
    let fixed = starting::all_fixed(segments, n);
    let magnitudes = starting::magnitudes(q, c, segments, n);
    let iterate = starting::started(segments, n, start);
    active::passes(
        iterate,
        segments,
        &fixed[..n],
        q,
        c,
        e,
        b,
        counts,
        magnitudes,
        room,
        q_free,
        e_free,
        gram,
        l,
    )
}

// `solve_piecewise_in_units` in work memory of ROWS, SQUARE, TALL and GRAM numbers.
fn engine_within<const ROWS: usize, const SQUARE: usize, const TALL: usize, const GRAM: usize>(
    q: &[f64],
    c: &[f64],
    e: &[f64],
    b: &[f64],
    segments: [Segments; sizes::VARIABLES],
    start: &[f64],
    n: usize,
    m: usize,
    r: usize,
) -> Result<Minimum, SolveError>
    requires { Shaped n (n + r) (m + r) q.now c.now e.now b.now
        × AllCut (n + r) segments
        × (n + r ≤ length start.now)
        × (n * (n + r) ≤ ROWS)
        × (n * (m + r) ≤ ROWS)
        × (n * n ≤ SQUARE)
        × (n * (m + r) ≤ TALL)
        × ((m + r) * (m + r) ≤ GRAM)
        × (ROWS ≤ Sizes.originals * Sizes.variables)
        × (SQUARE ≤ Sizes.originals * Sizes.originals)
        × (TALL ≤ Sizes.originals * Sizes.columns)
        × (GRAM ≤ Sizes.columns * Sizes.columns) }
    ensures { minimized_of (n + r) (m + r) result
        ≡ Definition.solve_piecewise_in_units (problem n (n + r) (m + r) q.now c.now e.now b.now) segments
        start.now }
{
    let mut room = [0.0; ROWS];
    let mut q_free = [0.0; SQUARE];
    let mut e_free = [0.0; TALL];
    let mut gram = [0.0; GRAM];
    let mut l = [0.0; SQUARE];
    let square = n * n;
    let counts = Counts {
        originals: n,
        n: n + r,
        m: m + r,
    };
    solve_piecewise_in_units(
        q,
        c,
        e,
        b,
        counts,
        segments,
        start,
        &mut room,
        &mut q_free,
        &mut e_free,
        &mut gram,
        &mut l[..square],
    )
}

// The same in work memory of its size: what a call clears would otherwise cost more than a small solve.
pub fn engine_sized(
    q: &[f64],
    c: &[f64],
    e: &[f64],
    b: &[f64],
    segments: [Segments; sizes::VARIABLES],
    start: &[f64],
    n: usize,
    m: usize,
    r: usize,
) -> Result<Minimum, SolveError>
    requires { Shaped n (n + r) (m + r) q.now c.now e.now b.now
        × AllCut (n + r) segments
        × (n + r ≤ length start.now)
        × (m ≤ Sizes.equalities)
        × (r ≤ Sizes.rows) }
    ensures { minimized_of (n + r) (m + r) result
        ≡ Definition.solve_piecewise_in_units (problem n (n + r) (m + r) q.now c.now e.now b.now) segments
        start.now }
{
    if n <= sizes::FEW && r <= sizes::FEW {
        return engine_within::<{ SMALL_ROWS }, { sizes::SMALL }, { SMALL_ROWS }, { SMALL_GRAM }>(
            q, c, e, b, segments, start, n, m, r,
        );
    }
    engine_within::<{ ROWS }, { sizes::SQUARE }, { sizes::TALL }, { GRAM }>(
        q, c, e, b, segments, start, n, m, r,
    )
}
