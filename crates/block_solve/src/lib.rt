// A block, handed to the engine. The definition is specs/Solve.antt; what the engine gets of a block, crates `block_cost`,
// `word_numbers` and `block_rows`.
#![tactic(auto)]

ghost use Rattle.std.specs.Prelude.{◌≡◌};
ghost use Rattle.block.specs.Ranges.{Ranged};
ghost use Rattle.format.specs.Structs.{Sound, block_of};
ghost use Rattle.quadratic.specs.Quadratic.{quadratic};
ghost use Rattle.block_solve.specs.Solve.{quadratic_of, Solves, Matrices, Words};

use format::Block;

// The entries of Q, of the anchors' columns and of the spans'.
const SQUARE: usize = format::MAX_WORDS * format::MAX_WORDS;

const ANCHOR_ENTRIES: usize = format::MAX_WORDS * format::MAX_ANCHORS;

const SPAN_ENTRIES: usize = format::MAX_WORDS * format::MAX_SPANS;

const MULTIPLIERS: usize = format::MAX_ANCHORS + format::MAX_SPANS;

// The engine's number, and where that is 0, its weights, its multipliers (anchors, spans), its passes and the accepted raise.
#[derive(Drop)]
pub struct Solved {
    pub number: u32,
    pub x: [f64; format::MAX_WORDS],
    pub multipliers: [f64; MULTIPLIERS],
    pub passes: u64,
    pub raise: f64,
}

// The engine's answer to the block's problem.
fn engine(
    block: Block,
    q: &[f64],
    c: &[f64],
    e: &[f64],
    b: &[f64],
    lower: &[f64],
    upper: &[f64],
    a: &[f64],
    row_lower: &[f64],
    row_upper: &[f64],
    at: &[f64],
    slopes: &[f64],
    start: &[f64],
) -> Solved
    requires sound { Sound block }
    requires start_value { quadratic block.words block.anchors block.spans q.now c.now e.now b.now lower.now upper.now a.now
        row_lower.now row_upper.now at.now slopes.now start.now ≡ quadratic_of (block_of block) }
    ensures { Solves block result }
{
    let n = block.words;
    let m = block.anchors;
    let r = block.spans;
    let w = m + r;
    let mut x = [0.0; format::MAX_WORDS];
    let mut multipliers = [0.0; MULTIPLIERS];
    let mut passes = 0u64;
    let mut raise = 0.0;
    let number = cap::solve_turnover_capped(
        q,
        c,
        e,
        b,
        lower,
        upper,
        a,
        row_lower,
        row_upper,
        at,
        slopes,
        start,
        word_numbers::cap(block),
        n,
        m,
        r,
        &mut x[..n],
        &mut multipliers[..w],
        &mut passes,
        &mut raise,
    );
    Solved {
        number: number,
        x: x,
        multipliers: multipliers,
        passes: passes,
        raise: raise,
    }
}

// With the lists of the anchors and spans.
fn solve_rows(
    block: Block,
    q: &[f64],
    c: &[f64],
    e: &[f64],
    lower: &[f64],
    upper: &[f64],
    a: &[f64],
    at: &[f64],
    slopes: &[f64],
    start: &[f64],
) -> Solved
    requires sound { Sound block }
    requires ranged { Ranged (block_of block) }
    requires matrices { Matrices (block_of block) q.now e.now a.now }
    requires words { Words (block_of block) c.now lower.now upper.now at.now slopes.now start.now }
    ensures { Solves block result }
{
    let m = block.anchors;
    let r = block.spans;
    let mut b = [0.0; format::MAX_ANCHORS];
    let mut row_lower = [0.0; format::MAX_SPANS];
    let mut row_upper = [0.0; format::MAX_SPANS];
    block_rows::anchor_values(block, &mut b[..m]);
    block_rows::span_lowers(block, &mut row_lower[..r]);
    block_rows::span_uppers(block, &mut row_upper[..r]);
    engine(
        block,
        q,
        c,
        e,
        &b[..m],
        lower,
        upper,
        a,
        &row_lower[..r],
        &row_upper[..r],
        at,
        slopes,
        start,
    )
}

// With the lists of the words.
fn solve_words(block: Block, q: &[f64], e: &[f64], a: &[f64]) -> Solved
    requires sound { Sound block }
    requires ranged { Ranged (block_of block) }
    requires matrices { Matrices (block_of block) q.now e.now a.now }
    ensures { Solves block result }
{
    let n = block.words;
    let mut c = [0.0; format::MAX_WORDS];
    let mut lower = [0.0; format::MAX_WORDS];
    let mut upper = [0.0; format::MAX_WORDS];
    let mut at = [0.0; format::MAX_WORDS];
    let mut slopes = [0.0; format::MAX_WORDS];
    let mut start = [0.0; format::MAX_WORDS];
    block_cost::linear(block, &mut c[..n]);
    word_numbers::lowers(block, &mut lower[..n]);
    word_numbers::uppers(block, &mut upper[..n]);
    word_numbers::keys(block, &mut at[..n]);
    word_numbers::slopes(block, &mut slopes[..n]);
    word_numbers::starts(block, &mut start[..n]);
    solve_rows(
        block,
        q,
        &c[..n],
        e,
        &lower[..n],
        &upper[..n],
        a,
        &at[..n],
        &slopes[..n],
        &start[..n],
    )
}

// What the engine answers to a block.
pub fn solve(block: Block) -> Solved
    requires sound { Sound block }
    requires ranged { Ranged (block_of block) }
    ensures { Solves block result }
{
    let n = block.words;
    let square = n * n;
    let anchors = n * block.anchors;
    let spans = n * block.spans;
    let mut q = [0.0; SQUARE];
    let mut e = [0.0; ANCHOR_ENTRIES];
    let mut a = [0.0; SPAN_ENTRIES];
    block_cost::hessian(block, &mut q[..square]);
    block_rows::anchor_columns(block, &mut e[..anchors]);
    block_rows::span_columns(block, &mut a[..spans]);
    solve_words(block, &q[..square], &e[..anchors], &a[..spans])
}
