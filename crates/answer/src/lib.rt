// The answer file's writer. The file is specs/File.antt; that what is written is read back, specs/Back.antt.
#![tactic(auto)]

ghost use Rattle.std.specs.Prelude.{◌≡◌, ℕ, ◌++◌, ◌+◌, ◌*◌, ◌≤◌, ◌<◌, leb, length};
ghost use Rattle.block.specs.Ranges.{max_words, max_anchors, max_spans};
ghost use Rattle.answer.specs.File.{answer_of, bytes, code, each, field, file_size, Written};
ghost use Rattle.answer.specs.Pasted.{pasted};

// The tags, and the length of a field's header.
const TIMES: u64 = 17;

const PRICES: u64 = 18;

const GAP: u64 = 19;

const PASSES: u64 = 20;

const HEADER: usize = 3;

// The k low bytes of n, low byte first, at `at`.
fn put(out: &mut [u8], at: usize, n: u64, k: usize)
    requires { at + k ≤ length out.old }
    ensures { out.new ≡ pasted at (bytes k n) out.old }
{
    let mut m = n;
    for b in out[at..at + k].iter_mut() {
        *b = (m % 256) as u8;
        m /= 256;
    }
}

// A signed number, in two's complement.
trait Coded {
    ghost code: { Self → ℕ };

    fn code(&self) -> u64
        ensures { result ≡ code self.now };
}

// A time: 32 bits of it.
impl Coded for i32 {
    ghost code = { code 2147483648 };

    fn code(&self) -> u64 {
        u64::from(self.cast_unsigned())
    }
}

// A price or gap: 64 bits of it.
impl Coded for i64 {
    ghost code = { code 9223372036854775808 };

    fn code(&self) -> u64 {
        self.cast_unsigned()
    }
}

// A field's tag and the length of its body.
fn put_header(out: &mut [u8], at: usize, tag: u64, len: u64)
    requires { at + 3 ≤ length out.old }
    ensures { out.new ≡ pasted at (bytes 1 tag ++ bytes 2 len) out.old }
{
    put(out, at, tag, 1);
    put(out, at + 1, len, 2);
}

// The numbers of a list, k bytes each.
fn put_each<T: Coded>(out: &mut [u8], at: usize, numbers: &[T], k: usize)
    requires { at + k * length numbers.now ≤ length out.old }
    ensures { out.new ≡ pasted at (each (λ x. bytes k (T.code x)) numbers.now) out.old }
{
    for (i, x) in numbers.iter().enumerate() {
        put(out, at + k * i, x.code(), k);
    }
}

// A field of them.
fn numbers_field<T: Coded>(out: &mut [u8], at: usize, tag: u64, numbers: &[T], k: usize)
    requires { at + 3 + k * length numbers.now ≤ length out.old }
    ensures { out.new ≡ pasted at (field tag (each (λ x. bytes k (T.code x)) numbers.now)) out.old }
{
    let n = k * numbers.len();
    put_header(out, at, tag, n as u64);
    put_each(out, at + HEADER, numbers, k);
}

// A field of one number of k bytes.
fn number_field(out: &mut [u8], at: usize, tag: u64, n: u64, k: usize)
    requires { at + 3 + k ≤ length out.old }
    ensures { out.new ≡ pasted at (field tag (bytes k n)) out.old }
{
    put_header(out, at, tag, k as u64);
    put(out, at + HEADER, n, k);
}

// The length of the answer file of so many times and prices.
pub fn file_size(times: usize, prices: usize) -> usize
    requires { (times ≤ 32) × (prices ≤ 25) }
    ensures { result ≡ file_size times prices }
{
    22 + 4 * times + 8 * prices
}

// Whether a slice of so many bytes has room for it.
pub fn has_room(times: usize, prices: usize, room: usize) -> bool
    requires { (times ≤ 32) × (prices ≤ 25) }
    ensures { result ≡ leb (file_size times prices) room }
{
    file_size(times, prices) <= room
}

// Writes the answer file to the front of `out`, whose other bytes are kept; 8 where it is too small, and then all are. Field 20 has two bytes.
pub fn write(out: &mut [u8], times: &[i32], prices: &[i64], gap: i64, passes: u64) -> u32
    requires { (length times.now ≤ max_words) × (length prices.now ≤ max_anchors + max_spans + 1) × (passes < 65536) }
    ensures { Written (answer_of times.now prices.now gap passes) out.old result out.new }
{
    let t = times.len();
    let p = prices.len();
    if !has_room(t, p, out.len()) {
        return 8;
    }
    let at = 3 + 4 * t;
    let end = at + 3 + 8 * p;
    numbers_field(out, 0, TIMES, times, 4);
    numbers_field(out, at, PRICES, prices, 8);
    number_field(out, end, GAP, gap.code(), 8);
    number_field(out, end + 11, PASSES, passes, 2);
    0
}
