// How far a plan misses a block's anchors and spans, and the test of a written plan against its bounds. The definitions are `block`'s.
#![tactic(auto)]

ghost use Rattle.std.specs.Prelude.{◌≡◌, length};
ghost use Rattle.ints.specs.Bound.{◌≼◌};
ghost use Rattle.block.specs.Keeps.{anchor_miss, outside, span_miss, window_kept, coef_sizes, miss_bounded};
ghost use Rattle.block.specs.Keeps.{windows_kept, moves_bounded, anchors_bounded, spans_bounded, bounded};
ghost use Rattle.block.specs.Ranges.{Short, RangedAnchor, RangedSpan, RangedWord, Timed};
ghost use Rattle.format.specs.Structs.{Filled, word_of, list_of, anchor_of, span_of, block_of};
ghost use Rattle.exact.specs.Planned.{Planned};

use exact::{abs, list_sum, moves};
use format::{Anchor, Block, Pair, Pairs, Span, Word};

// An anchor's miss is |sum - value|.
pub fn anchor_miss(a: Anchor, times: &[i32]) -> i64
    requires filled { Filled a.list }
    requires ranged_anchor { RangedAnchor (length times.now) (anchor_of a) }
    requires timed { Timed (length times.now) times.now }
    ensures { result ≡ anchor_miss (anchor_of a) times.now }
{
    abs(list_sum(a.list, times) - a.value)
}

// How far s lies outside lower to upper, 0 within.
fn outside(lower: i64, upper: i64, s: i64) -> i64
    requires { (lower ≼ 8388608) × (upper ≼ 8388608) × (s ≼ 8388608) }
    ensures { result ≡ outside lower upper s }
{
    if s < lower {
        return lower - s;
    }
    if upper < s {
        return s - upper;
    }
    0
}

// A span's miss is how far the sum lies outside lower to upper.
pub fn span_miss(s: Span, times: &[i32]) -> i64
    requires filled { Filled s.list }
    requires ranged_span { RangedSpan (length times.now) (span_of s) }
    requires timed { Timed (length times.now) times.now }
    ensures { result ≡ span_miss (span_of s) times.now }
{
    outside(s.lower, s.upper, list_sum(s.list, times))
}

// The sum of a list's coefficients' sizes.
fn coef_sizes(l: Pairs) -> i64
    requires filled { Filled l }
    requires short { Short (list_of l) }
    ensures { result ≡ coef_sizes (list_of l) }
{
    let mut sum = 0;
    for p in l.pairs() {
        sum += abs(p.coef);
    }
    sum
}

// 2 × the miss is at most the sum of the coefficients' sizes.
fn miss_bounded(miss: i64, l: Pairs) -> bool
    requires miss { miss ≼ 16777216 }
    requires filled { Filled l }
    requires short { Short (list_of l) }
    ensures { result ≡ miss_bounded miss (list_of l) }
{
    2 * miss <= coef_sizes(l)
}

// The time is from lower to upper.
fn window_kept(w: Word, t: i64) -> bool
    requires ranged_word { RangedWord (word_of w) }
    requires t { t ≼ 262144 }
    ensures { result ≡ window_kept (word_of w) t }
{
    if w.lower as i64 <= t {
        return t <= w.upper as i64;
    }
    false
}

fn windows_kept(b: Block, times: &[i32]) -> bool
    requires { Planned b times.now }
    ensures { result ≡ windows_kept (block_of b) times.now }
{
    for (w, t) in b.words().iter().zip(times) {
        if !window_kept(*w, i64::from(*t)) {
            return false;
        }
    }
    true
}

// 2 × (moves - cap) is at most the number of words.
fn moves_bounded(b: Block, times: &[i32]) -> bool
    requires { Planned b times.now }
    ensures { result ≡ moves_bounded (block_of b) times.now }
{
    let m = moves(b, times);
    2 * (m - (b.cap as i64)) <= b.words as i64
}

fn anchors_bounded(b: Block, times: &[i32]) -> bool
    requires { Planned b times.now }
    ensures { result ≡ anchors_bounded (block_of b) times.now }
{
    for a in b.anchors() {
        if !miss_bounded(anchor_miss(*a, times), a.list) {
            return false;
        }
    }
    true
}

// As for the anchors; another type with another miss: one function for both is no plainer.
fn spans_bounded(b: Block, times: &[i32]) -> bool
    requires { Planned b times.now }
    ensures { result ≡ spans_bounded (block_of b) times.now }
{
    for s in b.spans() {
        if !miss_bounded(span_miss(*s, times), s.list) {
            return false;
        }
    }
    true
}

// The bounds on a written plan: every window kept; 2 × (moves - cap) at most the number of words; 2 × each miss at most the sum of its
// coefficients' sizes.
pub fn bounded(b: Block, times: &[i32]) -> bool
    requires { Planned b times.now }
    ensures { result ≡ bounded (block_of b) times.now }
{
    if !windows_kept(b, times) {
        return false;
    }
    if !moves_bounded(b, times) {
        return false;
    }
    if !anchors_bounded(b, times) {
        return false;
    }
    spans_bounded(b, times)
}
