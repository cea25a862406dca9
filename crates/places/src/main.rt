// Reads a block from standard input and prints the listing of its plan, or its refusal. The listing is specs/Places.antt.
#![tactic(auto)]

ghost use Rattle.std.specs.Prelude.{◌≡◌, List, ℕ, ◌≤◌, length, take};
ghost use Rattle.listing.specs.Appended.{Listed};
ghost use Rattle.listing.specs.Longest.{longest};
ghost use Rattle.places.specs.Places.{listing};

use std::io;
use std::io::{Read, Write};

// The longest listing.
const LISTING: usize = 672;

// The listing of a block file, to the front of `out`, and its length.
fn listing_of(block: &[u8], out: &mut [u8]) -> usize
    requires { longest ≤ length out.old }
    ensures { Listed (listing block.now) out.old result out.new }
{
    let room = answer::file_size(
        format::MAX_WORDS,
        format::MAX_ANCHORS + format::MAX_SPANS + 1,
    );
    placement_listing::listing_of(service::placed(block, room), out)
}

// The listing of whatever file it is of which `kept` holds n bytes: all, or the first, as many as there is room for.
fn listing_of_kept(kept: [u8; format::KEPT], n: usize, out: &mut [u8]) -> usize
    requires { (n ≤ length kept) × (longest ≤ length out.old) }
    ensures by_index { (file : List ℕ) → take (length kept) file ≡ take n kept
        → Listed (listing file) out.old result out.new }
    ensures upper_bound { result ≤ length out.new }
{
    listing_of(format::kept(&kept, n), out)
}

// Reads on to the end of the input.
fn skip_rest<R: Read>(input: &mut R) -> io::Result<()> {
    let mut past = [0u8; 65536];
    for _ in 0..u64::MAX {
        if input.read(&mut past)? == 0 {
            break;
        }
    }
    Ok(())
}

fn main(rt: HostRuntime) -> io::Result<()> {
    let mut input = rt.reader();
    let mut kept = [0u8; format::KEPT];
    let n = replay::read_full(&mut input, &mut kept)?;
    skip_rest(&mut input)?;
    let mut text = [0u8; LISTING];
    let k = listing_of_kept(kept, n, &mut text);
    io::writer(&rt).write_all(&text[..k])
}
