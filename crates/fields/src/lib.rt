// A field's verdict: its header's, then its body's. The definitions are format's specs/Read.antt.
#![tactic(auto)]

ghost use Rattle.std.specs.Prelude.{◌≡◌, ◌≤◌};
ghost use Rattle.block.specs.Ranges.{max_pairs};
ghost use Rattle.format.specs.Read as Read;

use format::{Counts, Refusal};

// The count of the list in a body of n bytes, `fixed` of which stand before its pairs; 0 where none fits.
pub fn pairs_in(fixed: u64, n: u64) -> usize
    requires { fixed ≤ 9 }
    ensures { (result ≡ Read.pairs_in fixed n) × (result ≤ max_pairs) }
{
    if n == fixed + 2 {
        return 1;
    }
    if n == fixed + 4 {
        return 2;
    }
    if n == fixed + 6 {
        return 3;
    }
    if n == fixed + 8 {
        return 4;
    }
    0
}

// The count of a field of tag t and length n, 1 for a tag without a list; 0 where the tag has no such length.
pub fn count(t: u64, n: u64) -> usize
    ensures { (result ≡ Read.count t n) × (result ≤ max_pairs) }
{
    match t {
        format::WORD => usize::from(n == 20),
        format::TEMPO => pairs_in(7, n),
        format::ANCHOR => pairs_in(5, n),
        format::SPAN => pairs_in(9, n),
        _ => usize::from(n == 4),
    }
}

// The count of the field that r begins with.
pub fn count_of(r: &[u8]) -> usize
    ensures { (result ≡ Read.count_of r.now) × (result ≤ max_pairs) }
{
    count(numbers::byte_at(r, 0), numbers::u16_at(r, 1))
}

pub fn has_room(t: u64, so: Counts) -> bool
    ensures { result ≡ Read.has_room t so }
{
    match t {
        format::WORD => so.words < format::MAX_WORDS,
        format::TEMPO => so.tempos < format::MAX_TEMPOS,
        format::ANCHOR => so.anchors < format::MAX_ANCHORS,
        format::SPAN => so.spans < format::MAX_SPANS,
        _ => true,
    }
}

// The verdict on the header of the field that r begins with. A tag stays a number: it is put in order with the one before, 0 before the first.
pub fn head_verdict(r: &[u8], last: u64, so: Counts) -> Result<(), Refusal>
    ensures { result ≡ Read.head_verdict r.now last so }
{
    if r.len() < 3 {
        return Err(Refusal::BadLength);
    }
    let t = numbers::byte_at(r, 0);
    if t < 1 {
        return Err(Refusal::UnknownTag);
    }
    if format::CAP < t {
        return Err(Refusal::UnknownTag);
    }
    if format::CAP <= last {
        return Err(Refusal::OutOfOrder);
    }
    if t < last {
        return Err(Refusal::OutOfOrder);
    }
    if !has_room(t, so) {
        return Err(Refusal::TooMany);
    }
    if count_of(r) < 1 {
        return Err(Refusal::BadLength);
    }
    if ((r.len() - 3) as u64) < numbers::u16_at(r, 1) {
        return Err(Refusal::BadLength);
    }
    Ok(())
}

pub fn body_verdict(t: u64, b: &[u8], words: u64, n: usize) -> Result<(), Refusal>
    requires { n ≤ max_pairs }
    ensures { result ≡ Read.body_verdict t b.now words n }
{
    match t {
        format::WORD => bodies::word_verdict(b),
        format::TEMPO => bodies::tempo_verdict(b, words, n),
        format::ANCHOR => bodies::anchor_verdict(b, words, n),
        format::SPAN => bodies::span_verdict(b, words, n),
        _ => bodies::cap_verdict(b),
    }
}

// The verdict on the field that r begins with.
pub fn field_verdict(r: &[u8], last: u64, so: Counts) -> Result<(), Refusal>
    ensures { result ≡ Read.field_verdict r.now last so }
{
    head_verdict(r, last, so)?;
    let t = numbers::byte_at(r, 0);
    let k = count_of(r);
    let words = so.words as u64;
    let e = 3 + (numbers::u16_at(r, 1) as usize);
    body_verdict(t, &r[3..e], words, k)
}
