// qp.rs, a pass of `solve_piecewise_in_units`: it lists the free variables, gathers the problem in them, solves that and steps. Q is n by n, E is
// n by m; the variables from `originals` on are slacks, each with one of the last columns of E. `indices` are the free variables, `solved` those of
// them below `originals`, `slacks` the others. The slices from room on are work memory, but l, which holds the kept factor.
#![tactic(auto)]

ghost use Rattle.std.specs.Prelude.{◌≡◌, ◌≤◌, ◌*◌, length};
ghost use Rattle.variable_set.specs.Rising.{Rising};
ghost use Rattle.factoring.specs.Kept.{kept_of, Good};
ghost use Rattle.segments.specs.Segments.{AllCut};
ghost use Rattle.iterate.specs.Problem.{problem, Shaped, Room};
ghost use Rattle.iterate.specs.Iterate.{Consistent};
ghost use Rattle.full_step.specs.FullStep.{Split};
ghost use Rattle.pass.specs.State.{made_of, state};
ghost use Rattle.pass.specs.Pass as Definition;

use factoring::Factoring;
use iterate::{Counts, Iterate, Magnitudes, Passed};
use segments::Segments;

// A pass, and what it leaves of the kept factor, beside the factor itself.
#[derive(Drop)]
pub struct Made {
    pub passed: Passed,
    pub factoring: Factoring,
}

// With free originals: the problem in the free variables is gathered, solved, and the step made.
fn free_pass(
    iterate: Iterate,
    factoring: Factoring,
    segments: [Segments; sizes::VARIABLES],
    fixed: &[bool],
    q: &[f64],
    c: &[f64],
    e: &[f64],
    b: &[f64],
    counts: Counts,
    magnitudes: Magnitudes,
    indices: &[usize],
    solved: &[usize],
    slacks: &[usize],
    room: &mut [f64],
    q_free: &mut [f64],
    e_free: &mut [f64],
    gram: &mut [f64],
    l: &mut [f64],
) -> Made
    requires { Shaped counts.originals counts.n counts.m q.now c.now e.now b.now
        × AllCut counts.n segments
        × Consistent counts.n segments iterate
        × (counts.n ≤ length fixed.now)
        × Split counts.originals counts.n counts.m e.now iterate.board.state indices.now solved.now slacks.now
        × Rising counts.originals solved.now
        × Room counts.originals counts.n counts.m room.old q_free.old e_free.old gram.old
        × Good counts.originals factoring l.old
        × (counts.originals * counts.originals ≤ length l.old) }
    ensures l_after { made_of counts.n counts.m result l.new
        ≡ Definition.free_pass
        (problem counts.originals counts.n counts.m q.now c.now e.now b.now)
        segments fixed.now magnitudes.q magnitudes.linear solved.now slacks.now iterate (kept_of factoring)
        l.old }
    ensures consistent { Consistent counts.n segments result.passed.iterate × Good counts.originals result.factoring l.new }
{
    let n = counts.n;
    let k = solved.len();
    let count = indices.len();
    let board = iterate.board;
    let x = board.x;
    let state = board.state;
    let mut lower = [0.0; sizes::VARIABLES];
    let mut upper = [0.0; sizes::VARIABLES];
    let mut slope = [0.0; sizes::VARIABLES];
    free_list::ends_and_slopes(segments, state, indices, &mut lower, &mut upper, &mut slope);
    let free = free_problem::gather(
        q,
        c,
        e,
        b,
        counts,
        &x[..n],
        solved,
        slacks,
        &slope[..k],
        room,
        q_free,
        e_free,
    );
    let columns = free.columns;
    let mut delta = [0.0; sizes::ORIGINALS];
    let mut multipliers = [0.0; sizes::COLUMNS];
    let s = free_solve::solve_free(
        factoring,
        q,
        counts,
        solved,
        free,
        &q_free[..],
        &e_free[..],
        room,
        gram,
        l,
        &mut delta,
        &mut multipliers,
    );
    let verdict = s.verdict;
    let left = s.factoring;
    let passed = free_step::step(
        verdict,
        &delta[..k],
        &multipliers[..columns],
        iterate,
        segments,
        fixed,
        q,
        c,
        e,
        counts,
        magnitudes,
        indices,
        solved,
        slacks,
        free,
        &q_free[..],
        &e_free[..],
        &lower[..count],
        &upper[..count],
    );
    Made {
        passed: passed,
        factoring: left,
    }
}

pub fn pass(
    iterate: Iterate,
    factoring: Factoring,
    segments: [Segments; sizes::VARIABLES],
    fixed: &[bool],
    q: &[f64],
    c: &[f64],
    e: &[f64],
    b: &[f64],
    counts: Counts,
    magnitudes: Magnitudes,
    room: &mut [f64],
    q_free: &mut [f64],
    e_free: &mut [f64],
    gram: &mut [f64],
    l: &mut [f64],
) -> Made
    requires { Shaped counts.originals counts.n counts.m q.now c.now e.now b.now
        × AllCut counts.n segments
        × Consistent counts.n segments iterate
        × (length fixed.now ≡ counts.n)
        × Room counts.originals counts.n counts.m room.old q_free.old e_free.old gram.old
        × Good counts.originals factoring l.old
        × (counts.originals * counts.originals ≤ length l.old) }
    ensures l_after { made_of counts.n counts.m result l.new
        ≡ Definition.pass (problem counts.originals counts.n counts.m q.now c.now e.now b.now)
        segments fixed.now magnitudes.q magnitudes.linear (state iterate (kept_of factoring) l.old) }
    ensures consistent { Consistent counts.n segments result.passed.iterate × Good counts.originals result.factoring l.new }
{
    let board = iterate.board;
    let state = board.state;
    let mut indices = [0; sizes::VARIABLES];
    let count = free_list::free_indices(state, counts.n, &mut indices);
    let indices = &indices[..count];
    let solved = free_list::split_slacks(indices, counts.originals);
    let k = solved.len();
    if freeing::none_free(solved) {
        let passed = freeing::without_free(iterate, segments, fixed, counts.n, counts.originals);
        return Made {
            passed: passed,
            factoring: factoring,
        };
    }
    free_pass(
        iterate,
        factoring,
        segments,
        fixed,
        q,
        c,
        e,
        b,
        counts,
        magnitudes,
        indices,
        solved,
        &indices[k..],
        room,
        q_free,
        e_free,
        gram,
        l,
    )
}
