// What is written of an engine's answer, as it is held. The definition is specs/Placed.antt.
#![tactic(auto)]

ghost use Rattle.std.specs.Prelude.{◌≡◌, ◌+◌, take, IfOk};
ghost use Rattle.block.specs.Ranges.{Ranged};
ghost use Rattle.format.specs.Structs.{Sound, block_of};
ghost use Rattle.gap.specs.Input.{PlanAndPrices};
ghost use Rattle.answer.specs.Back.{Sized};
ghost use Rattle.placement.specs.Placed.{answer_for};
ghost use Rattle.placement.specs.Held.{answer_in, Holds, Left, Leaves};
ghost use Rattle.placement.specs.Code.{written_of};

use format::{Block, Refusal};

// How many multipliers a block's problem has at most, anchors and spans, and how many prices: the cap's too.
const MULTIPLIERS: usize = format::MAX_ANCHORS + format::MAX_SPANS;

const PRICES: usize = MULTIPLIERS + 1;

// A block and what its answer file says. The times are the first `block.words`, the prices the first `block.anchors + block.spans + 1`.
#[derive(Drop)]
pub struct Placement {
    pub block: Block,
    pub times: [i32; format::MAX_WORDS],
    pub prices: [i64; PRICES],
    pub gap: i64,
    pub passes: u64,
}

// The plan and its prices, with their gap.
fn with_gap(
    b: Block,
    times: [i32; format::MAX_WORDS],
    prices: [i64; PRICES],
    passes: u64,
) -> Placement
    requires sound { Sound b }
    requires ranged { Ranged (block_of b) }
    requires plan_and_prices { PlanAndPrices (block_of b) (take b.words times) (take (b.anchors + b.spans + 1) prices) }
    ensures answer { answer_in result ≡ answer_for (block_of b) (take b.words times) (take (b.anchors + b.spans + 1) prices) passes }
    ensures of_block { result.block ≡ b }
{
    let n = b.words;
    let k = b.anchors + b.spans + 1;
    let gap = gap::gap_of(b, &times[..n], &prices[..k]);
    Placement {
        block: b,
        times,
        prices,
        gap,
        passes,
    }
}

// What is written of the engine's answer: 14 where a weight isn't finite or the written times break a bound.
pub fn written(
    b: Block,
    x: [f64; format::MAX_WORDS],
    multipliers: [f64; MULTIPLIERS],
    raise: f64,
    passes: u64,
) -> Result<Placement, Refusal>
    requires sound { Sound b }
    requires ranged { Ranged (block_of b) }
    ensures { Holds (written_of b x multipliers passes raise) b result }
{
    let n = b.words;
    let m = b.anchors + b.spans;
    let Some(times) = rounding::times_of(&x[..n]) else {
        return Err(Refusal::NotConverged);
    };
    if !bounds::bounded(b, &times[..n]) {
        return Err(Refusal::NotConverged);
    }
    let prices = rounding::prices_of(&multipliers[..m], raise);
    Ok(with_gap(b, times, prices, passes))
}

// Writes the answer file to the front of the slice, whose other bytes are kept: the file's length, or a refusal that writes nothing.
fn write_answer(p: Placement, out: &mut [u8]) -> Result<usize, Refusal>
    requires sound { Sound p.block }
    requires sized { Sized (answer_in p) }
    ensures { Left p out.old result out.new }
{
    let n = p.block.words;
    let k = p.block.anchors + p.block.spans + 1;
    if answer::write(out, &p.times[..n], &p.prices[..k], p.gap, p.passes) != 0 {
        return Err(Refusal::ShortSlice);
    }
    Ok(answer::file_size(n, k))
}

// The same of what was placed: a refusal is handed on, and writes nothing.
pub fn write(placed: Result<Placement, Refusal>, out: &mut [u8]) -> Result<usize, Refusal>
    requires { IfOk placed (λ p. Sound p.block × Sized (answer_in p)) }
    ensures { Leaves placed out.old result out.new }
{
    let p = placed?;
    write_answer(p, out)
}
