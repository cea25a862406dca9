// Reads the records of the fixed lists of cases (docs/CASES.md) and compares floats with them.
#![tactic(auto)]

ghost use Rattle.std.specs.Prelude.{◌≡◌, ◌+◌, ◌*◌, ◌%◌, ◌^◌, ◌≤◌, ◌↔◌, IsTrue, IfSome, length, drop, slice_index, ◌++◌, ◌≢◌, true, false, not};
ghost use Rattle.std.specs.Float.Ieee.{binary64, is_nan, to_bits};
ghost use Rattle.std.specs.Io.{ReadsAtMost};

use std::io;
use std::io::Read;

// What a code says: a float, or how many times more the last one comes.
enum Code {
    Float(f64),
    Again(u8),
}

// The rest of a record. Past its end every byte is 0.
#[derive(Drop)]
pub struct Record<'a> {
    pub rest: &'a [u8],
}

impl<'a> Record<'a> {
    pub fn is_at_end(&self) -> bool {
        self.rest.is_empty()
    }

    pub fn byte(&mut self) -> u8
        ensures value { result ≡ slice_index self.old.rest.now 0 }
        ensures rest { self.new.rest.now ≡ drop 1 self.old.rest.now }
    {
        match self.rest.split_first() {
            Some((first, rest)) => {
                self.rest = rest;
                *first
            }
            None => 0,
        }
    }

    // Numbers have their low byte first.
    pub fn u16(&mut self) -> u16
        ensures value { result ≡ slice_index self.old.rest.now 0 + 256 * slice_index self.old.rest.now 1 }
        ensures rest { self.new.rest.now ≡ drop 2 self.old.rest.now }
    {
        u16::from_le_bytes([self.byte(), self.byte()])
    }

    fn i16(&mut self) -> i16 {
        i16::from_le_bytes([self.byte(), self.byte()])
    }

    fn bytes<const N: usize>(&mut self) -> [u8; N]
        requires { N ≤ 8 }
    {
        let mut bytes = [0; N];
        for b in &mut bytes {
            *b = self.byte();
        }
        bytes
    }

    pub fn u32(&mut self) -> u32 {
        u32::from_le_bytes(self.bytes())
    }

    pub fn u64(&mut self) -> u64 {
        u64::from_le_bytes(self.bytes())
    }

    pub fn i32(&mut self) -> i32 {
        i32::from_le_bytes(self.bytes())
    }

    pub fn i64(&mut self) -> i64 {
        i64::from_le_bytes(self.bytes())
    }

    fn code(&mut self) -> Code {
        match self.byte() {
            t @ 0..=250 => Code::Float(f64::from(t) - 125.0),
            251 => Code::Float(f64::from(self.i16()) / 256.0),
            252 => Code::Again(self.byte()),
            253 => Code::Float(-0.0),
            254 => Code::Float(f64::NAN),
            255 => Code::Float(float_of(self.u64())),
        }
    }

    pub fn float(&mut self) -> f64 {
        match self.code() {
            Code::Float(x) => x,
            Code::Again(_) => 0.0,
        }
    }

    // The slice that comes next, in y: no more of its floats than y has room for.
    pub fn slice<'b>(&mut self, y: &'b mut [f64]) -> &'b mut [f64]
        ensures { length result.now ≤ length y.old }
    {
        let n = usize::from(self.u16()).min(y.len());
        let floats = &mut y[..n];
        let mut last = 0.0;
        let mut again = 0;
        for x in floats.iter_mut() {
            if again > 0 {
                again -= 1;
            } else {
                match self.code() {
                    Code::Float(float) => last = float,
                    Code::Again(times) => again = times.saturating_sub(1),
                }
            }
            *x = last;
        }
        floats
    }

    // A 16-bit count and as many bytes, where the record has them.
    pub fn block(&mut self) -> Option<&'a [u8]>
        ensures { IfSome result (λ block. block.now ++ self.new.rest.now ≡ drop 2 self.old.rest.now) }
    {
        if self.rest.len() < 2 {
            return None;
        }
        let n = usize::from(self.u16());
        let (block, rest) = self.rest.split_at_checked(n)?;
        self.rest = rest;
        Some(block)
    }

    // How many floats of x and the multipliers are not those of the two slices that come next.
    pub fn compare_slices(&mut self, x: &[f64], multipliers: &[f64]) -> usize {
        let mut room = [0.0; 255];
        let differ = differing(x, self.slice(&mut room));
        differ.wrapping_add(differing(multipliers, self.slice(&mut room)))
    }

    // How many floats are not those of the answer, with which the record ends.
    pub fn compare_answer(&mut self, x: &[f64], multipliers: &[f64]) -> usize {
        self.compare_slices(x, multipliers)
            .wrapping_add(usize::from(!self.is_at_end()))
    }

    // How many floats a refusal has written; the record ends with the outcome.
    pub fn compare_refusal(&self, x: &[f64], multipliers: &[f64]) -> usize {
        written(x)
            .wrapping_add(written(multipliers))
            .wrapping_add(usize::from(!self.is_at_end()))
    }
}

// Whether the bits differ; any two NaNs are equal.
pub fn differs(a: f64, b: f64) -> bool
    ensures nan { is_nan a ≡ true → result ≡ not (is_nan b) }
    ensures bits { is_nan a ≡ false → is_nan b ≡ false → (IsTrue result ↔ to_bits binary64 a ≢ to_bits binary64 b) }
{
    if a.is_nan() || b.is_nan() {
        a.is_nan() != b.is_nan()
    } else {
        a.to_bits() != b.to_bits()
    }
}

// How many floats differ; 1 where there are more of the one than of the other.
pub fn differing(a: &[f64], b: &[f64]) -> usize {
    if a.len() != b.len() {
        return 1;
    }
    a.iter().zip(b).filter(|(x, y)| differs(**x, **y)).count()
}

// Whether a has the entries of an n by m matrix.
pub fn is_matrix(a: &[f64], n: usize, m: usize) -> bool
    ensures { IsTrue result ↔ length a.now ≡ n * m }
{
    n.checked_mul(m) == Some(a.len())
}

// How many floats of c are not those of the lower triangle of l, which is n by n, column after column.
pub fn lower_differing(l: &[f64], n: usize, c: &[f64]) -> usize {
    let mut differ: usize = 0;
    let mut columns = l;
    let mut rest = c;
    for j in 0..n {
        let Some((column, others)) = columns.split_at_checked(n) else {
            return 1;
        };
        let Some((lower, after)) = rest.split_at_checked(n - j) else {
            return 1;
        };
        differ = differ.wrapping_add(differing(&column[j..], lower));
        columns = others;
        rest = after;
    }
    if rest.is_empty() { differ } else { 1 }
}

// What x and the multipliers hold before a call, and after a refusal.
pub const BEFORE: f64 = 8191.0625;

// How many floats are not as they were before the call.
fn written(x: &[f64]) -> usize {
    x.iter().filter(|y| differs(**y, BEFORE)).count()
}

// Reads until buf is full or the input ends: how many bytes it put at the start of buf.
pub fn read_full<R: Read>(input: &mut R, buf: &mut [u8]) -> io::Result<usize>
    ensures { ReadsAtMost result buf.new }
{
    let mut done = 0;
    while done < buf.len() {
        let n = input.read(&mut buf[done..])?;
        if n == 0 {
            break;
        }
        done += n;
    }
    Ok(done)
}

// The next record of the input, which goes to the start of body; none where the input or body ends before it does.
pub fn next_record<'a, R: Read>(
    input: &mut R,
    body: &'a mut [u8],
) -> io::Result<Option<Record<'a>>> {
    let mut head = [0u8; 2];
    if read_full(input, &mut head)? < head.len() {
        return Ok(None);
    }
    let n = usize::from(u16::from_le_bytes(head));
    if n > body.len() || read_full(input, &mut body[..n])? < n {
        return Ok(None);
    }
    Ok(Some(Record { rest: &body[..n] }))
}

// The float of a pattern; every NaN's pattern is NaN's.
fn float_of(b: u64) -> f64 {
    if b % 0x8000_0000_0000_0000 > 0x7ff0_0000_0000_0000 {
        return f64::NAN;
    }
    f64::from_bits(b)
}

// n more, modulo 2 ^ 64.
pub fn add(total: &mut u64, n: u64)
    ensures { total.new ≡ (total.old + n) % 2 ^ 64 }
{
    *total = total.wrapping_add(n);
}

// What a program counts of the records.
pub trait Count {
    fn count(&mut self, record: Record);
}

// The next records of the input are counted, each of at most N bytes.
pub fn count_records<const N: usize, R: Read, C: Count>(
    input: &mut R,
    counted: &mut C,
) -> io::Result<()>
    requires { N ≤ 65535 }
{
    let mut body = [0u8; N];
    for _ in 0..1_000_000 {
        let Some(record) = next_record(input, &mut body)? else {
            break;
        };
        counted.count(record);
    }
    Ok(())
}
