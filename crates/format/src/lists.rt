// A block's lists as slices. An array keeps its count beside it: fixed memory, no heap.

ghost use Rattle.std.specs.Prelude.{◌≡◌, ◌≤◌, take};
ghost use Rattle.block.specs.Ranges.{max_words, max_tempos, max_anchors, max_spans, max_pairs};

use crate::{Anchor, Block, Pair, Pairs, Span, Tempo, Word};

impl Pairs {
    pub fn pairs(&self) -> &[Pair]
        requires { self.now.count ≤ max_pairs }
        ensures { result.now ≡ take self.now.count self.now.pair }
    {
        &self.pair[..self.count]
    }
}

impl Block {
    pub fn words(&self) -> &[Word]
        requires { self.now.words ≤ max_words }
        ensures { result.now ≡ take self.now.words self.now.word }
    {
        &self.word[..self.words]
    }

    pub fn tempos(&self) -> &[Tempo]
        requires { self.now.tempos ≤ max_tempos }
        ensures { result.now ≡ take self.now.tempos self.now.tempo }
    {
        &self.tempo[..self.tempos]
    }

    pub fn anchors(&self) -> &[Anchor]
        requires { self.now.anchors ≤ max_anchors }
        ensures { result.now ≡ take self.now.anchors self.now.anchor }
    {
        &self.anchor[..self.anchors]
    }

    pub fn spans(&self) -> &[Span]
        requires { self.now.spans ≤ max_spans }
        ensures { result.now ≡ take self.now.spans self.now.span }
    {
        &self.span[..self.spans]
    }
}
