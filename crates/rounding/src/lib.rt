// What the service writes of the engine's numbers: times and prices. The definitions are specs/Rounding.antt.
#![tactic(auto)]

ghost use Rattle.std.specs.Prelude.{◌≡◌, ◌+◌, ◌≤◌, length};
ghost use Rattle.block.specs.Ranges.{max_words, max_anchors, max_spans};
ghost use Rattle.rounding.specs.Rounding.{held, price_of, cap_price_of};
ghost use Rattle.rounding.specs.Lists.{time, TimesOf, PricesOf};

use nearest::nearest;

const MAX_TIME: i64 = 262144;

const MAX_PRICE: i64 = 4294967296;

// How many words, and how many anchors, spans and caps.
const WORDS: usize = 32;

const PRICES: usize = 25;

// The nearest whole sample, where it is in range.
fn time_of(x: f64) -> Option<i32>
    ensures { result ≡ time x }
{
    let n = nearest(x)?;
    if n < 0 {
        return None;
    }
    if MAX_TIME < n {
        return None;
    }
    Some(n as i32)
}

// Held within ±4,294,967,296.
fn held(n: i64) -> i64
    ensures { result ≡ held n }
{
    n.clamp(-MAX_PRICE, MAX_PRICE)
}

// A price: to the nearest whole number, held in its range; 0 for what is not finite.
fn price_of(x: f64) -> i64
    ensures { result ≡ price_of x }
{
    if !arith::is_finite(x) {
        return 0;
    }
    match nearest(x) {
        Some(n) => held(n),
        None if x < 0.0 => -MAX_PRICE,
        None => MAX_PRICE,
    }
}

// The cap's price, from 0.
fn cap_price_of(x: f64) -> i64
    ensures { result ≡ cap_price_of x }
{
    price_of(x).max(0)
}

// The written times of the engine's weights, as many as there are weights, where each is in range.
pub fn times_of(x: &[f64]) -> Option<[i32; WORDS]>
    requires { length x.now ≤ max_words }
    ensures { TimesOf x.now result }
{
    let mut times = [0; WORDS];
    for (i, w) in x.iter().enumerate() {
        times[i] = time_of(*w)?;
    }
    Some(times)
}

// The written prices of the multipliers and of the accepted raise: anchors, spans, cap.
pub fn prices_of(multipliers: &[f64], raise: f64) -> [i64; PRICES]
    requires { length multipliers.now ≤ max_anchors + max_spans }
    ensures { PricesOf multipliers.now raise result }
{
    let mut prices = [0; PRICES];
    for (k, m) in multipliers.iter().enumerate() {
        prices[k] = price_of(*m);
    }
    prices[multipliers.len()] = cap_price_of(raise);
    prices
}
