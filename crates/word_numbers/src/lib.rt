// The numbers of a block's words that the engine gets, a list for each, and the cap, as floats. The definitions are specs/Words.antt.
#![tactic(auto)]

ghost use Rattle.std.specs.Prelude.{◌≡◌, ℕ, length};
ghost use Rattle.std.specs.Fn.{FnReturnsAt};
ghost use Rattle.block.specs.Block as Spec;
ghost use Rattle.format.specs.Structs.{Sound, block_of};
ghost use Rattle.word_numbers.specs.Numbers.{Gives};
ghost use Rattle.word_numbers.specs.Words as Words;

use format::{Block, Word};

// A number of each word.
fn each_word<F: Fn(&Word) -> u64>(b: Block, number: F, y: &mut [f64])
    requires sound { Sound b }
    requires y_len { length y.old ≡ b.words }
    requires callable { F.IsAlwaysCallable number }
    ensures { (f : Spec.Word → ℕ) → Gives (FnReturnsAt F.Fn number) f → y.new ≡ Words.each_word f (block_of b) }
{
    for (i, w) in b.words().iter().enumerate() {
        y[i] = std::num::nearest_u64_to_f64(number(w));
    }
}

pub fn keys(b: Block, y: &mut [f64])
    requires sound { Sound b }
    requires y_len { length y.old ≡ b.words }
    ensures { y.new ≡ Words.keys (block_of b) }
{
    each_word(b, |w| w.key, y);
}

pub fn slopes(b: Block, y: &mut [f64])
    requires sound { Sound b }
    requires y_len { length y.old ≡ b.words }
    ensures { y.new ≡ Words.slopes (block_of b) }
{
    each_word(b, |w| w.slope, y);
}

pub fn lowers(b: Block, y: &mut [f64])
    requires sound { Sound b }
    requires y_len { length y.old ≡ b.words }
    ensures { y.new ≡ Words.lowers (block_of b) }
{
    each_word(b, |w| w.lower, y);
}

pub fn uppers(b: Block, y: &mut [f64])
    requires sound { Sound b }
    requires y_len { length y.old ≡ b.words }
    ensures { y.new ≡ Words.uppers (block_of b) }
{
    each_word(b, |w| w.upper, y);
}

pub fn starts(b: Block, y: &mut [f64])
    requires sound { Sound b }
    requires y_len { length y.old ≡ b.words }
    ensures { y.new ≡ Words.starts (block_of b) }
{
    each_word(b, |w| w.start, y);
}

pub fn cap(b: Block) -> f64
    ensures { result ≡ Words.cap (block_of b) }
{
    std::num::nearest_u64_to_f64(b.cap)
}
