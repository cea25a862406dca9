// How the reader of the block file holds a block, what is refused, and how much of a file tells the answer. The file's definition is specs/Read.antt.
#![tactic(auto)]

ghost use Rattle.std.specs.Prelude.{◌≡◌, List, ℕ, ◌≤◌, length, take};
ghost use Rattle.format.specs.Read.{number_of, read};
ghost use Rattle.format.specs.Numbered.{Numbered};

mod lists;

// The tags of the fields.
pub const WORD: u64 = 1;

pub const TEMPO: u64 = 2;

pub const ANCHOR: u64 = 3;

pub const SPAN: u64 = 4;

pub const CAP: u64 = 5;

// How many fields of a tag a block has at most, and how many pairs a list.
pub const MAX_WORDS: usize = 32;

pub const MAX_TEMPOS: usize = 64;

pub const MAX_ANCHORS: usize = 8;

pub const MAX_SPANS: usize = 16;

pub const MAX_PAIRS: usize = 4;

// The largest numbers: a time in samples, a slope, a weight, a coefficient's size, and the size of a target, value, span end or cap.
pub const MAX_TIME: u64 = 262144;

pub const MAX_SLOPE: u64 = 65535;

pub const MAX_WEIGHT: u64 = 64;

pub const MAX_COEF: u64 = 8;

pub const MAX_SUM: u64 = 8388608;

// Document 01's refusals, in the order of their numbers from 1 on.
#[derive(Clone, Copy, PartialEq, Eq, Debug)]
pub enum Refusal {
    BadLength,
    UnknownTag,
    OutOfOrder,
    TooMany,
    OutOfRange,
    CrossedBounds,
    BadList,
    ShortSlice,
    WrongShape,
    NanBound,
    NonFiniteCovariance,
    SingularCovariance,
    Unbounded,
    NotConverged,
    GapOverflow,
}

// What C and the listing know a refusal by.
impl From<Refusal> for u32 {
    ghost from_gives = { λ r n. n ≡ number_of r };

    fn from(r: Refusal) -> u32 {
        match r {
            Refusal::BadLength => 1,
            Refusal::UnknownTag => 2,
            Refusal::OutOfOrder => 3,
            Refusal::TooMany => 4,
            Refusal::OutOfRange => 5,
            Refusal::CrossedBounds => 6,
            Refusal::BadList => 7,
            Refusal::ShortSlice => 8,
            Refusal::WrongShape => 9,
            Refusal::NanBound => 10,
            Refusal::NonFiniteCovariance => 11,
            Refusal::SingularCovariance => 12,
            Refusal::Unbounded => 13,
            Refusal::NotConverged => 14,
            Refusal::GapOverflow => 15,
        }
    }
}

// A number that no refusal has.
#[derive(Clone, Copy, PartialEq, Eq, Debug)]
pub struct NoRefusal(pub u32);

impl TryFrom<u32> for Refusal {
    type Error = NoRefusal;

    ghost try_from_gives = { Numbered };

    fn try_from(n: u32) -> Result<Refusal, NoRefusal> {
        match n {
            1 => Ok(Refusal::BadLength),
            2 => Ok(Refusal::UnknownTag),
            3 => Ok(Refusal::OutOfOrder),
            4 => Ok(Refusal::TooMany),
            5 => Ok(Refusal::OutOfRange),
            6 => Ok(Refusal::CrossedBounds),
            7 => Ok(Refusal::BadList),
            8 => Ok(Refusal::ShortSlice),
            9 => Ok(Refusal::WrongShape),
            10 => Ok(Refusal::NanBound),
            11 => Ok(Refusal::NonFiniteCovariance),
            12 => Ok(Refusal::SingularCovariance),
            13 => Ok(Refusal::Unbounded),
            14 => Ok(Refusal::NotConverged),
            15 => Ok(Refusal::GapOverflow),
            _ => Err(NoRefusal(n)),
        }
    }
}

#[derive(Clone, Copy)]
pub struct Word {
    pub lower: u64,
    pub upper: u64,
    pub key: u64,
    pub start: u64,
    pub slope: u64,
}

#[derive(Clone, Copy)]
pub struct Pair {
    pub word: u64,
    pub coef: i64,
}

// The list is the first `count` pairs.
#[derive(Clone, Copy)]
pub struct Pairs {
    pub count: usize,
    pub pair: [Pair; MAX_PAIRS],
}

#[derive(Clone, Copy)]
pub struct Tempo {
    pub weight: u64,
    pub target: i64,
    pub list: Pairs,
}

#[derive(Clone, Copy)]
pub struct Anchor {
    pub value: i64,
    pub list: Pairs,
}

#[derive(Clone, Copy)]
pub struct Span {
    pub lower: i64,
    pub upper: i64,
    pub list: Pairs,
}

// The block's words are the first `words` of `word`, and so on.
#[derive(Clone, Copy)]
pub struct Block {
    pub words: usize,
    pub word: [Word; MAX_WORDS],
    pub tempos: usize,
    pub tempo: [Tempo; MAX_TEMPOS],
    pub anchors: usize,
    pub anchor: [Anchor; MAX_ANCHORS],
    pub spans: usize,
    pub span: [Span; MAX_SPANS],
    pub cap: u64,
}

// How many fields of each tag with a limit there are so far.
#[derive(Clone, Copy)]
pub struct Counts {
    pub words: usize,
    pub tempos: usize,
    pub anchors: usize,
    pub spans: usize,
}

// What is kept of a file: the longest block and a header after it, since no byte past them changes the reading.
pub const KEPT: usize = 2346;

// Where n bytes of a file are kept, all or the first, as many as there is room for: the bytes that are read as that file is.
pub fn kept(bytes: &[u8; KEPT], n: usize) -> &[u8]
    requires { n ≤ length bytes.now }
    ensures { (file : List ℕ) → take (length bytes.now) file ≡ take n bytes.now → read result.now ≡ read file }
{
    let all = &bytes[..];
    &all[..n]
}
