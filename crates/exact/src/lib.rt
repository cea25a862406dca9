// A plan's sums, moves and cost in whole numbers: signed 64 bits hold each number on the way. The definitions are `block`'s.
// A plan is the caller's slice of i32s, as the check is handed it and as the answer file has it: one time for each word.
#![tactic(auto)]

ghost use Rattle.std.specs.Prelude.{◌≡◌, ◌<◌, length};
ghost use Rattle.ints.specs.Sum.{delta};
ghost use Rattle.ints.specs.Bound.{◌≼◌};
ghost use Rattle.block.specs.Plan.{time, abs, sum_of, move, moves, bend, off, square_of, squares, bends, cost};
ghost use Rattle.block.specs.Gap.{coef_of, slope_of};
ghost use Rattle.block.specs.Ranges.{Short, RangedList, RangedWord, RangedTempo, Timed};
ghost use Rattle.format.specs.Structs.{Filled, word_of, list_of, tempo_of, block_of};
ghost use Rattle.exact.specs.Planned.{Planned};

use format::{Block, Pair, Pairs, Tempo, Word};

// The time of word i.
pub fn time_at(times: &[i32], i: usize) -> i64
    requires { i < length times.now }
    ensures { result ≡ time times.now i }
{
    i64::from(times[i])
}

// |z|
pub fn abs(z: i64) -> i64
    requires { z ≼ 9223372036854775807 }
    ensures { result ≡ abs z }
{
    z.abs()
}

// A list's sum is coefficients times times.
pub fn list_sum(l: Pairs, times: &[i32]) -> i64
    requires filled { Filled l }
    requires ranged_list { RangedList (length times.now) (list_of l) }
    requires timed { Timed (length times.now) times.now }
    ensures { result ≡ sum_of (list_of l) times.now }
{
    let mut sum = 0;
    for p in l.pairs() {
        sum += p.coef * time_at(times, p.word as usize);
    }
    sum
}

// A pair's coefficient where its word is i, else 0.
fn coef_at(i: usize, p: Pair) -> i64
    requires { p.coef ≼ 8 }
    ensures { result ≡ delta p.word i p.coef }
{
    if p.word as usize == i { p.coef } else { 0 }
}

// The coefficient of word i in a list, 0 where the list has it not.
pub fn coef_of(i: usize, l: Pairs) -> i64
    requires filled { Filled l }
    requires short { Short (list_of l) }
    ensures { result ≡ coef_of i (list_of l) }
{
    let mut sum = 0;
    for p in l.pairs() {
        sum += coef_at(i, *p);
    }
    sum
}

// A word's move is |time - key|.
pub fn move_of(w: Word, t: i64) -> i64
    requires ranged_word { RangedWord (word_of w) }
    requires t { t ≼ 262144 }
    ensures { result ≡ move (word_of w) t }
{
    abs(t - (w.key as i64))
}

// slope × |time - key|
pub fn bend(w: Word, t: i64) -> i64
    requires ranged_word { RangedWord (word_of w) }
    requires t { t ≼ 262144 }
    ensures { result ≡ bend (word_of w) t }
{
    (w.slope as i64) * move_of(w, t)
}

// sum - target
fn off(t: Tempo, times: &[i32]) -> i64
    requires filled { Filled t.list }
    requires ranged_tempo { RangedTempo (length times.now) (tempo_of t) }
    requires timed { Timed (length times.now) times.now }
    ensures { result ≡ off (tempo_of t) times.now }
{
    list_sum(t.list, times) - t.target
}

// weight × (sum - target)²
pub fn square_of(t: Tempo, times: &[i32]) -> i64
    requires filled { Filled t.list }
    requires ranged_tempo { RangedTempo (length times.now) (tempo_of t) }
    requires timed { Timed (length times.now) times.now }
    ensures { result ≡ square_of (tempo_of t) times.now }
{
    let o = off(t, times);
    (t.weight as i64) * (o * o)
}

// weight × (sum - target) × coefficient of word i
pub fn slope_of(t: Tempo, times: &[i32], i: usize) -> i64
    requires filled { Filled t.list }
    requires ranged_tempo { RangedTempo (length times.now) (tempo_of t) }
    requires timed { Timed (length times.now) times.now }
    ensures { result ≡ slope_of (tempo_of t) times.now i }
{
    (t.weight as i64) * off(t, times) * coef_of(i, t.list)
}

// All moves added up.
pub fn moves(b: Block, times: &[i32]) -> i64
    requires { Planned b times.now }
    ensures { result ≡ moves (block_of b) times.now }
{
    let mut sum = 0;
    for (w, t) in b.words().iter().zip(times) {
        sum += move_of(*w, i64::from(*t));
    }
    sum
}

// The words' part of the cost, halved. A loop beside `moves`: another bound keeps this sum in 64 bits.
fn bends(b: Block, times: &[i32]) -> i64
    requires { Planned b times.now }
    ensures { result ≡ bends (block_of b) times.now }
{
    let mut sum = 0;
    for (w, t) in b.words().iter().zip(times) {
        sum += bend(*w, i64::from(*t));
    }
    sum
}

// The tempo terms' part of the cost.
fn squares(b: Block, times: &[i32]) -> i64
    requires { Planned b times.now }
    ensures { result ≡ squares (block_of b) times.now }
{
    let mut sum = 0;
    for t in b.tempos() {
        sum += square_of(*t, times);
    }
    sum
}

// A plan's cost: each weight × (sum - target)², plus 2 × slope × |time - key|.
pub fn cost(b: Block, times: &[i32]) -> i64
    requires { Planned b times.now }
    ensures { result ≡ cost (block_of b) times.now }
{
    squares(b, times) + 2 * bends(b, times)
}
