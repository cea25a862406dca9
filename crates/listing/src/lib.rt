// What the program `places` prints, as bytes. The definition is specs/Listing.antt. The bytes go into the caller's slice: no heap, so no String.
#![tactic(auto)]

ghost use Rattle.std.specs.Prelude.{length, ◌≤◌};
ghost use Rattle.format.specs.Structs.{block_of};
ghost use Rattle.exact.specs.Planned.{Planned};
ghost use Rattle.listing.specs.Listing.{decimal, integer, word_line, word_lines, moves_line, gap_line, count_line, plan, refused};
ghost use Rattle.listing.specs.Appended.{Room, Appended, Listed};
ghost use Rattle.listing.specs.Longest.{longest};

use exact::{moves, time_at};
use format::Block;

// The bytes of a text, from `at` on, and where they end.
fn put_text(out: &mut [u8], at: usize, text: &[u8]) -> usize
    requires { Room at text.now out.old }
    ensures { Appended at text.now out.old result out.new }
{
    let end = at + text.len();
    out[at..end].copy_from_slice(text);
    end
}

// The decimal digits of n.
fn put_decimal(out: &mut [u8], at: usize, n: u64) -> usize
    requires { Room at (decimal n) out.old }
    ensures { Appended at (decimal n) out.old result out.new }
{
    if n < 10 {
        out[at] = (48 + n) as u8;
        return at + 1;
    }
    let end = put_decimal(out, at, n / 10);
    out[end] = (48 + n % 10) as u8;
    end + 1
}

// With `-` in front where z is below 0.
fn put_integer(out: &mut [u8], at: usize, z: i64) -> usize
    requires { Room at (integer z) out.old }
    ensures { Appended at (integer z) out.old result out.new }
{
    if z < 0 {
        out[at] = b'-';
        return put_decimal(out, at + 1, z.unsigned_abs());
    }
    put_decimal(out, at, z.unsigned_abs())
}

// Word number, key time, written time.
fn put_word(out: &mut [u8], at: usize, number: usize, key: u64, time: i64) -> usize
    requires { Room at (word_line number key time) out.old }
    ensures { Appended at (word_line number key time) out.old result out.new }
{
    let mut end = put_decimal(out, at, number as u64);
    end = put_text(out, end, b" ");
    end = put_decimal(out, end, key);
    end = put_text(out, end, b" ");
    end = put_integer(out, end, time);
    put_text(out, end, b"\n")
}

// A line for each word.
fn put_words(out: &mut [u8], at: usize, b: Block, times: &[i32]) -> usize
    requires planned { Planned b times.now }
    requires room { Room at (word_lines b.words (block_of b) times.now) out.old }
    ensures { Appended at (word_lines b.words (block_of b) times.now) out.old result out.new }
{
    let mut end = at;
    for (i, w) in b.words().iter().enumerate() {
        end = put_word(out, end, i, w.key, time_at(times, i));
    }
    end
}

// Exact moves and cap.
fn put_moves(out: &mut [u8], at: usize, m: i64, cap: u64) -> usize
    requires { Room at (moves_line m cap) out.old }
    ensures { Appended at (moves_line m cap) out.old result out.new }
{
    let mut end = put_text(out, at, b"moves ");
    end = put_integer(out, end, m);
    end = put_text(out, end, b" cap ");
    end = put_decimal(out, end, cap);
    put_text(out, end, b"\n")
}

// The gap.
fn put_gap(out: &mut [u8], at: usize, gap: i64) -> usize
    requires { Room at (gap_line gap) out.old }
    ensures { Appended at (gap_line gap) out.old result out.new }
{
    let mut end = put_text(out, at, b"gap ");
    end = put_integer(out, end, gap);
    put_text(out, end, b"\n")
}

// A word and a number.
fn put_count(out: &mut [u8], at: usize, name: &[u8], n: u64) -> usize
    requires { Room at (count_line name.now n) out.old }
    ensures { Appended at (count_line name.now n) out.old result out.new }
{
    let mut end = put_text(out, at, name);
    end = put_decimal(out, end, n);
    put_text(out, end, b"\n")
}

// The listing of a plan with its gap and passes, to the front of `out`, and its length.
pub fn plan(b: Block, times: &[i32], gap: i64, passes: u64, out: &mut [u8]) -> usize
    requires planned { Planned b times.now }
    requires longest_in_bounds { longest ≤ length out.old }
    ensures { Listed (plan (block_of b) times.now gap passes) out.old result out.new }
{
    let mut end = put_text(out, 0, b"word key audio\n");
    end = put_words(out, end, b, times);
    end = put_moves(out, end, moves(b, times), b.cap);
    end = put_gap(out, end, gap);
    put_count(out, end, b"rounds ", passes)
}

// The line of a refusal, to the front of `out`, and its length.
pub fn refused(number: u32, out: &mut [u8]) -> usize
    requires { longest ≤ length out.old }
    ensures { Listed (refused number) out.old result out.new }
{
    put_count(out, 0, b"refused ", number as u64)
}
