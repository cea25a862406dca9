// The body of each field: its verdict, and what it holds. The definitions are format's specs/Read.antt.
#![tactic(auto)]

ghost use Rattle.std.specs.Prelude.{◌≡◌, ◌≤◌};
ghost use Rattle.block.specs.Ranges.{max_pairs};
ghost use Rattle.format.specs.Read as Read;
ghost use Rattle.format.specs.Structs.{word_of, pair_of, list_of, tempo_of, anchor_of, span_of, Filled};

use format::{Anchor, Pair, Pairs, Refusal, Span, Tempo, Word};

// The word number of pair i is above that of the pair before it.
pub fn rises(b: &[u8], p: usize, i: usize) -> bool
    requires { (p ≤ 8) × (i ≤ max_pairs) }
    ensures { result ≡ Read.rises b.now p i }
{
    if i == 0 {
        return true;
    }
    numbers::byte_at(b, p + 2 * i - 1) < numbers::byte_at(b, p + 2 * i + 1)
}

pub fn pair_verdict(b: &[u8], p: usize, words: u64, i: usize) -> Result<(), Refusal>
    requires { (p ≤ 8) × (i ≤ max_pairs) }
    ensures { result ≡ Read.pair_verdict b.now p words i }
{
    if words <= numbers::byte_at(b, p + 2 * i + 1) {
        return Err(Refusal::BadList);
    }
    if !rises(b, p, i) {
        return Err(Refusal::BadList);
    }
    let k = p + 2 * i + 2;
    if !numbers::i8_size_up_to(format::MAX_COEF, b, k) {
        return Err(Refusal::OutOfRange);
    }
    if numbers::i8_is_zero(b, k) {
        return Err(Refusal::OutOfRange);
    }
    Ok(())
}

pub fn list_verdict(b: &[u8], p: usize, words: u64, count: usize) -> Result<(), Refusal>
    requires { (p ≤ 8) × (count ≤ max_pairs) }
    ensures { result ≡ Read.list_verdict b.now p words count }
{
    if numbers::byte_at(b, p) != count as u64 {
        return Err(Refusal::BadList);
    }
    // By index: the pairs are bytes of the body, not a slice of pairs.
    for i in 0..count {
        pair_verdict(b, p, words, i)?;
    }
    Ok(())
}

pub fn pair_from(b: &[u8], p: usize, i: usize) -> Pair
    requires { (p ≤ 8) × (i ≤ max_pairs) }
    ensures { pair_of result ≡ Read.pair_from b.now p i }
{
    let word = numbers::byte_at(b, p + 2 * i + 1);
    let coef = numbers::i8_at(b, p + 2 * i + 2);
    Pair { word, coef }
}

pub fn list_from(b: &[u8], p: usize, count: usize) -> Pairs
    requires { (p ≤ 8) × (count ≤ max_pairs) }
    ensures { (list_of result ≡ Read.list_from b.now p count) × Filled result }
{
    let p0 = pair_from(b, p, 0);
    let p1 = pair_from(b, p, 1);
    let p2 = pair_from(b, p, 2);
    let p3 = pair_from(b, p, 3);
    Pairs {
        count,
        pair: [p0, p1, p2, p3],
    }
}

pub fn word_verdict(b: &[u8]) -> Result<(), Refusal>
    ensures { result ≡ Read.word_verdict b.now }
{
    let lower = numbers::u32_at(b, 0);
    if format::MAX_TIME < lower {
        return Err(Refusal::OutOfRange);
    }
    let upper = numbers::u32_at(b, 4);
    if format::MAX_TIME < upper {
        return Err(Refusal::OutOfRange);
    }
    if format::MAX_TIME < numbers::u32_at(b, 8) {
        return Err(Refusal::OutOfRange);
    }
    if format::MAX_TIME < numbers::u32_at(b, 12) {
        return Err(Refusal::OutOfRange);
    }
    if format::MAX_SLOPE < numbers::u32_at(b, 16) {
        return Err(Refusal::OutOfRange);
    }
    if upper < lower {
        return Err(Refusal::CrossedBounds);
    }
    Ok(())
}

pub fn word_from(b: &[u8]) -> Word
    ensures { word_of result ≡ Read.word_from b.now }
{
    let lower = numbers::u32_at(b, 0);
    let upper = numbers::u32_at(b, 4);
    let key = numbers::u32_at(b, 8);
    let start = numbers::u32_at(b, 12);
    let slope = numbers::u32_at(b, 16);
    Word {
        lower,
        upper,
        key,
        start,
        slope,
    }
}

pub fn tempo_verdict(b: &[u8], words: u64, count: usize) -> Result<(), Refusal>
    requires { count ≤ max_pairs }
    ensures { result ≡ Read.tempo_verdict b.now words count }
{
    let weight = numbers::u16_at(b, 0);
    if weight < 1 {
        return Err(Refusal::OutOfRange);
    }
    if format::MAX_WEIGHT < weight {
        return Err(Refusal::OutOfRange);
    }
    if !numbers::i32_size_up_to(format::MAX_SUM, b, 2) {
        return Err(Refusal::OutOfRange);
    }
    list_verdict(b, 6, words, count)
}

pub fn tempo_from(b: &[u8], count: usize) -> Tempo
    requires { count ≤ max_pairs }
    ensures { (tempo_of result ≡ Read.tempo_from b.now count) × Filled result.list }
{
    let weight = numbers::u16_at(b, 0);
    let target = numbers::i32_at(b, 2);
    let list = list_from(b, 6, count);
    Tempo {
        weight,
        target,
        list,
    }
}

pub fn anchor_verdict(b: &[u8], words: u64, count: usize) -> Result<(), Refusal>
    requires { count ≤ max_pairs }
    ensures { result ≡ Read.anchor_verdict b.now words count }
{
    if !numbers::i32_size_up_to(format::MAX_SUM, b, 0) {
        return Err(Refusal::OutOfRange);
    }
    list_verdict(b, 4, words, count)
}

pub fn anchor_from(b: &[u8], count: usize) -> Anchor
    requires { count ≤ max_pairs }
    ensures { (anchor_of result ≡ Read.anchor_from b.now count) × Filled result.list }
{
    let value = numbers::i32_at(b, 0);
    let list = list_from(b, 4, count);
    Anchor { value, list }
}

pub fn span_verdict(b: &[u8], words: u64, count: usize) -> Result<(), Refusal>
    requires { count ≤ max_pairs }
    ensures { result ≡ Read.span_verdict b.now words count }
{
    if !numbers::i32_size_up_to(format::MAX_SUM, b, 0) {
        return Err(Refusal::OutOfRange);
    }
    if !numbers::i32_size_up_to(format::MAX_SUM, b, 4) {
        return Err(Refusal::OutOfRange);
    }
    list_verdict(b, 8, words, count)?;
    if !numbers::i32_le(b, 0, 4) {
        return Err(Refusal::CrossedBounds);
    }
    Ok(())
}

pub fn span_from(b: &[u8], count: usize) -> Span
    requires { count ≤ max_pairs }
    ensures { (span_of result ≡ Read.span_from b.now count) × Filled result.list }
{
    let lower = numbers::i32_at(b, 0);
    let upper = numbers::i32_at(b, 4);
    let list = list_from(b, 8, count);
    Span { lower, upper, list }
}

pub fn cap_verdict(b: &[u8]) -> Result<(), Refusal>
    ensures { result ≡ Read.cap_verdict b.now }
{
    if format::MAX_SUM < numbers::u32_at(b, 0) {
        return Err(Refusal::OutOfRange);
    }
    Ok(())
}
