// The gap of a plan and prices, in signed 64 bits. The definitions are `block`'s.
#![tactic(auto)]

ghost use Rattle.std.specs.Prelude.{◌≡◌, ◌≤◌, length, ◌*ℤ◌};
ghost use Rattle.ints.specs.Bound.{◌≼◌};
ghost use Rattle.ints.specs.Diff.{maxℤ};
ghost use Rattle.block.specs.Gap.{coef_of, slope_of, g, anchor_part, span_part, line, candidates, least, word_gap, word_gaps, values, ends, gap};
ghost use Rattle.block.specs.Ranges.{max_words, Short, RangedWord, RangedTempo, Ranged, Timed};
ghost use Rattle.format.specs.Structs.{Filled, Sound, list_of, word_of, tempo_of, block_of};
ghost use Rattle.exact.specs.Planned.{Planned};
ghost use Rattle.gap.specs.Prices.{anchor_prices, span_prices, prices_with, prices_from};
ghost use Rattle.gap.specs.Input.{PriceList, GapInput, PlanAndPrices};
ghost use Rattle.gap.specs.Words.{Within, Each, Added};

use exact::{bend, coef_of, move_of, slope_of, time_at};
use format::{Block, Pairs, Span, Tempo, Word};

// A number for each word. A call's result gets into one by way of `next`: laid there at once, it isn't covered.
type PerWord = [i64; format::MAX_WORDS];

// h × t + (slope + cap price) × |t - key|
fn line(w: Word, h: i64, cap: u64, t: i64) -> i64
    requires ranged_word { RangedWord (word_of w) }
    requires h { (h ≼ 5497558138880) × (cap ≤ 4294967296) × (t ≼ 262144) }
    ensures { result ≡ line (word_of w) h cap t }
{
    h * t + ((w.slope as i64) + (cap as i64)) * move_of(w, t)
}

// The least of the line over lower, upper and a key inside.
fn least(w: Word, h: i64, cap: u64) -> i64
    requires ranged_word { RangedWord (word_of w) }
    requires h { (h ≼ 5497558138880) × (cap ≤ 4294967296) }
    ensures { result ≡ least (line (word_of w) h cap) (candidates (word_of w)) }
{
    let low = line(w, h, cap, w.lower as i64);
    let ends = low.min(line(w, h, cap, w.upper as i64));
    if w.lower <= w.key {
        if w.key <= w.upper {
            return ends.min(line(w, h, cap, w.key as i64));
        }
    }
    ends
}

// Tempo t's part of each word's half slope, added to the word's sum. The index is the word's number, which `slope_of` takes.
fn add_slopes(start: PerWord, t: Tempo, times: &[i32]) -> PerWord
    requires filled { Filled t.list }
    requires ranged_tempo { RangedTempo (length times.now) (tempo_of t) }
    requires timed { Timed (length times.now) times.now }
    requires times_len_bound { (length times.now ≤ max_words) × Within (length times.now) start 2199023255552 }
    ensures { Added (length times.now) start (slope_of (tempo_of t) times.now) result }
{
    let mut sums = start;
    for i in 0..times.len() {
        sums[i] += slope_of(t, times, i);
    }
    sums
}

// Half the slope of the square part at each word.
fn half_slopes(b: Block, times: &[i32]) -> PerWord
    requires { Planned b times.now }
    ensures { Each b.words (g (block_of b) times.now) result }
{
    let mut sums = [0; format::MAX_WORDS];
    for t in b.tempos() {
        let next = add_slopes(sums, *t, times);
        sums = next;
    }
    sums
}

// Price × coefficient in the price's list, added to the sum of each of the n words, whose number `coef_of` takes.
fn add_price(start: PerWord, p: i64, l: Pairs, n: usize) -> PerWord
    requires filled { Filled l }
    requires short { Short (list_of l) }
    requires p { (p ≼ 4294967296) × (n ≤ max_words) × Within n start 5497558138880 }
    ensures { Added n start (λ i. p *ℤ coef_of i (list_of l)) result }
{
    let mut sums = start;
    for i in 0..n {
        sums[i] += p * coef_of(i, l);
    }
    sums
}

// Each anchor's price × coefficient, added to each word's sum.
fn add_anchors(start: PerWord, b: Block, prices: &[i64]) -> PerWord
    requires price_list { PriceList b prices.now }
    requires within { Within b.words start 2199023255552 }
    ensures { Added b.words start (anchor_part (block_of b) (anchor_prices (block_of b) prices.now)) result }
{
    let mut sums = start;
    for (k, a) in b.anchors().iter().enumerate() {
        let next = add_price(sums, prices[k], a.list, b.words);
        sums = next;
    }
    sums
}

// The same for each span: its price stands after the anchors'. Spans are another type, with a bound of their own: one function for both is no plainer.
fn add_spans(start: PerWord, b: Block, prices: &[i64]) -> PerWord
    requires price_list { PriceList b prices.now }
    requires within { Within b.words start 3298534883328 }
    ensures { Added b.words start (span_part (block_of b) (span_prices (block_of b) prices.now)) result }
{
    let mut sums = start;
    for (k, s) in b.spans().iter().enumerate() {
        let next = add_price(sums, prices[b.anchors + k], s.list, b.words);
        sums = next;
    }
    sums
}

// g × time + slope × |time - key| - the least
fn word_gap(w: Word, g: i64, h: i64, cap: u64, x: i64) -> i64
    requires ranged_word { RangedWord (word_of w) }
    requires g { (g ≼ 2199023255552) × (h ≼ 5497558138880) × (cap ≤ 4294967296) × (x ≼ 262144) }
    ensures { result ≡ word_gap (word_of w) g h cap x }
{
    g * x + bend(w, x) - least(w, h, cap)
}

// The words' parts, added up. Half slopes and h's are made for all words at once: no call for one word takes the block.
fn word_gaps(b: Block, times: &[i32], prices: &[i64], cap: u64) -> i64
    requires { GapInput b times.now prices.now cap }
    ensures { result ≡ word_gaps (block_of b) times.now (prices_with (block_of b) prices.now cap) }
{
    let g = half_slopes(b, times);
    let h = add_spans(add_anchors(g, b, prices), b, prices);
    let mut sum = 0;
    for (i, w) in b.words().iter().enumerate() {
        sum += word_gap(*w, g[i], h[i], cap, time_at(times, i));
    }
    sum
}

// Each anchor price × value, added up.
fn values(b: Block, prices: &[i64]) -> i64
    requires { PriceList b prices.now }
    ensures { result ≡ values (block_of b) (anchor_prices (block_of b) prices.now) }
{
    let mut sum = 0;
    for (a, p) in b.anchors().iter().zip(prices) {
        sum += *p * a.value;
    }
    sum
}

// The larger of price × lower and price × upper.
fn end_of(p: i64, s: Span) -> i64
    requires { (p ≼ 4294967296) × (s.lower ≼ 8388608) × (s.upper ≼ 8388608) }
    ensures { result ≡ maxℤ (p *ℤ s.lower) (p *ℤ s.upper) }
{
    (p * s.lower).max(p * s.upper)
}

// The same for each span, added up.
fn ends(b: Block, prices: &[i64]) -> i64
    requires { PriceList b prices.now }
    ensures { result ≡ ends (block_of b) (span_prices (block_of b) prices.now) }
{
    let mut sum = 0;
    for (k, s) in b.spans().iter().enumerate() {
        sum += end_of(prices[b.anchors + k], *s);
    }
    sum
}

// The gap of the plan `times`, the prices of the anchors and spans, and the cap's.
fn gap(b: Block, times: &[i32], prices: &[i64], cap: u64) -> i64
    requires { GapInput b times.now prices.now cap }
    ensures { result ≡ gap (block_of b) times.now (prices_with (block_of b) prices.now cap) }
{
    let c = (cap as i64) * (b.cap as i64);
    2 * word_gaps(b, times, prices, cap) + 2 * values(b, prices) + 2 * ends(b, prices) + 2 * c
}

// The gap of a plan and prices in one list: anchors, spans, cap.
pub fn gap_of(b: Block, times: &[i32], prices: &[i64]) -> i64
    requires sound { Sound b }
    requires ranged { Ranged (block_of b) }
    requires plan_and_prices { PlanAndPrices (block_of b) times.now prices.now }
    ensures { result ≡ gap (block_of b) times.now (prices_from (block_of b) prices.now) }
{
    let n = b.anchors + b.spans;
    let cap = prices[n] as u64;
    gap(b, times, prices, cap)
}
