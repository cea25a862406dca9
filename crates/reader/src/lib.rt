// Reads a block file. The definition is `read` of format's specs/Read.antt.
#![tactic(auto)]

ghost use Rattle.std.specs.Prelude.{◌≡◌, IfOk};
ghost use Rattle.format.specs.Read as Read;
ghost use Rattle.format.specs.Structs.{block_of, read_of, Sound};
ghost use Rattle.block.specs.Ranges.{Ranged};

use format::{Anchor, Block, Counts, Pair, Pairs, Refusal, Span, Tempo, Word};

fn empty() -> Block
    ensures { (block_of result ≡ Read.empty) × Sound result }
{
    let no_word = Word {
        lower: 0,
        upper: 0,
        key: 0,
        start: 0,
        slope: 0,
    };
    let no_pair = Pair { word: 0, coef: 0 };
    let pair = [no_pair; format::MAX_PAIRS];
    let list = Pairs {
        count: 0,
        pair: pair,
    };
    let no_tempo = Tempo {
        weight: 0,
        target: 0,
        list: list,
    };
    let no_anchor = Anchor {
        value: 0,
        list: list,
    };
    let no_span = Span {
        lower: 0,
        upper: 0,
        list: list,
    };
    let word = [no_word; format::MAX_WORDS];
    let tempo = [no_tempo; format::MAX_TEMPOS];
    let anchor = [no_anchor; format::MAX_ANCHORS];
    let span = [no_span; format::MAX_SPANS];
    Block {
        words: 0,
        word: word,
        tempos: 0,
        tempo: tempo,
        anchors: 0,
        anchor: anchor,
        spans: 0,
        span: span,
        cap: 0,
    }
}

fn end_verdict(last: u64, words: usize) -> Result<(), Refusal>
    ensures { result ≡ Read.end_verdict last words }
{
    if words < 1 {
        return Err(Refusal::OutOfOrder);
    }
    if last != format::CAP {
        return Err(Refusal::OutOfOrder);
    }
    Ok(())
}

// Reads the block file s.
pub fn read(s: &[u8]) -> Result<Block, Refusal>
    ensures result_value { read_of result ≡ Read.read s.now }
    ensures sound { IfOk result (λ b. Sound b) }
    ensures ranged { IfOk result (λ b. Ranged (block_of b)) }
{
    let mut block = empty();
    let mut last = 0;
    let mut at = 0;
    // A `while`: where a field ends is known only when it is read.
    while at < s.len() {
        let r = &s[at..];
        let so = Counts {
            words: block.words,
            tempos: block.tempos,
            anchors: block.anchors,
            spans: block.spans,
        };
        fields::field_verdict(r, last, so)?;
        last = numbers::byte_at(r, 0);
        let n = fields::count_of(r);
        let e = 3 + (numbers::u16_at(r, 1) as usize);
        let b = &r[3..e];
        at += e;
        match last {
            format::WORD => {
                block.word[block.words] = bodies::word_from(b);
                block.words += 1;
            }
            format::TEMPO => {
                block.tempo[block.tempos] = bodies::tempo_from(b, n);
                block.tempos += 1;
            }
            format::ANCHOR => {
                block.anchor[block.anchors] = bodies::anchor_from(b, n);
                block.anchors += 1;
            }
            format::SPAN => {
                block.span[block.spans] = bodies::span_from(b, n);
                block.spans += 1;
            }
            _ => block.cap = numbers::u32_at(b, 0),
        }
    }
    end_verdict(last, block.words)?;
    Ok(block)
}
