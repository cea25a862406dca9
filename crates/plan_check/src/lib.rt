// The check of anyone's plan and prices. Document 01: "block, 9, times (0 to 262,144) and prices 5, 15". The definition is specs/Check.antt.
#![tactic(auto)]

ghost use Rattle.std.specs.Prelude.{◌≡◌, ◌+◌, ◌≤◌, ◌<◌, length};
ghost use Rattle.format.specs.Read.{number};
ghost use Rattle.format.specs.Structs.{Sound, block_of};
ghost use Rattle.plan_check.specs.Check.{between, times_in, prices_in, count_refusal, time_refusal, price_refusal, refusal_of};
ghost use Rattle.plan_check.specs.Promise.{Checks};

use format::{Block, Refusal};

const MAX_TIME: i64 = format::MAX_TIME as i64;

const MAX_PRICE: i64 = 4294967296;

fn between(lower: i64, upper: i64, z: i64) -> bool
    ensures { result ≡ between lower upper z }
{
    (lower..=upper).contains(&z)
}

fn times_in(times: &[i32]) -> bool
    ensures { result ≡ times_in times.now }
{
    times.iter().all(|t| between(0, MAX_TIME, i64::from(*t)))
}

// The first n prices, those of the anchors and spans.
fn prices_in(prices: &[i64], n: usize) -> bool
    requires { n ≤ length prices.now }
    ensures { result ≡ prices_in n prices.now }
{
    prices[..n]
        .iter()
        .all(|p| between(-MAX_PRICE, MAX_PRICE, *p))
}

// As many times and prices as the block has.
fn check_counts(b: Block, times: &[i32], prices: &[i64]) -> Result<(), Refusal>
    requires { Sound b }
    ensures { number result ≡ count_refusal b.words (b.anchors + b.spans) times.now prices.now }
{
    if times.len() != b.words {
        return Err(Refusal::WrongShape);
    }
    if prices.len() != b.anchors + b.spans + 1 {
        return Err(Refusal::WrongShape);
    }
    Ok(())
}

fn check_times(times: &[i32]) -> Result<(), Refusal>
    ensures { number result ≡ time_refusal times.now }
{
    if !times_in(times) {
        return Err(Refusal::OutOfRange);
    }
    Ok(())
}

// n prices of anchors and spans, then the cap's.
fn check_prices(prices: &[i64], n: usize) -> Result<(), Refusal>
    requires { n < length prices.now }
    ensures { number result ≡ price_refusal n prices.now }
{
    if !prices_in(prices, n) {
        return Err(Refusal::OutOfRange);
    }
    let c = prices[n];
    if !between(0, MAX_PRICE, c) {
        return Err(Refusal::OutOfRange);
    }
    Ok(())
}

// The times and prices for a block.
fn check_plan(b: Block, times: &[i32], prices: &[i64]) -> Result<(), Refusal>
    requires { Sound b }
    ensures { number result ≡ refusal_of (block_of b) times.now prices.now }
{
    check_counts(b, times, prices)?;
    check_times(times)?;
    check_prices(prices, b.anchors + b.spans)
}

// The gap of a plan and prices (anchors, spans, cap) for a block file, or a refusal.
pub fn check(block: &[u8], times: &[i32], prices: &[i64]) -> Result<i64, Refusal>
    ensures { Checks block.now times.now prices.now result }
{
    let b = reader::read(block)?;
    check_plan(b, times, prices)?;
    Ok(gap::gap_of(b, times, prices))
}
