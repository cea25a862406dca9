// Places the stored blocks of standard input again, in the format of docs/CASES.md, 'Blocks', and compares every byte with the reference.
#![tactic(auto)]

use replay::{Count, Record};
use std::{fmt, io};

// What the slice holds before a call, and more bytes than any answer has.
const BEFORE: u8 = 165;

const ROOM: usize = 4096;

// How many bytes are not BEFORE.
fn changed(slice: &[u8]) -> usize {
    slice.iter().filter(|b| **b != BEFORE).count()
}

// How many bytes are not those that come next.
fn differing(record: &mut Record, bytes: &[u8]) -> u64 {
    let mut differ = 0;
    for b in bytes {
        replay::add(&mut differ, u64::from(*b != record.byte()));
    }
    differ
}

// How much of an answer, whose length and bytes come next, is not in the slice, where one of `written` bytes was given.
fn answer_differing(record: &mut Record, slice: &[u8], written: Option<usize>) -> u64 {
    let n = usize::from(record.u16());
    match slice.split_at_checked(n) {
        None => 1,
        Some((front, rest)) => u64::from(written != Some(n))
            .wrapping_add(differing(record, front))
            .wrapping_add(changed(rest) as u64),
    }
}

// A call, and how much of what it leaves differs from the record, which goes on with the outcome.
fn place_differing(record: &mut Record, block: &[u8], outcome: u8, slice: &mut [u8]) -> u64 {
    let placed = service::place(block, slice);
    let (number, written) = match placed {
        Ok(n) => (0, Some(n)),
        Err(refusal) => (u32::from(refusal), None),
    };
    let differ = u64::from(number != u32::from(outcome));
    if outcome == 0 {
        differ.wrapping_add(answer_differing(record, slice, written))
    } else {
        differ
            .wrapping_add(changed(slice) as u64)
            .wrapping_add(u64::from(written.is_some()))
    }
}

// A record that ends before its block does differs, and is counted as placed.
#[derive(Clone, Copy, Default)]
struct Tally {
    blocks: u64,
    placed: u64,
    differences: u64,
}

impl Count for Tally {
    fn count(&mut self, mut record: Record) {
        replay::add(&mut self.blocks, 1);
        let Some(block) = record.block() else {
            replay::add(&mut self.placed, 1);
            replay::add(&mut self.differences, 1);
            return;
        };
        let mut room = [BEFORE; ROOM];
        let n = usize::from(record.u16());
        let outcome = record.byte();
        let differ = match room.get_mut(..n) {
            Some(slice) => place_differing(&mut record, block, outcome, slice),
            None => 1,
        };
        replay::add(&mut self.placed, u64::from(outcome == 0));
        replay::add(&mut self.differences, differ);
    }
}

impl fmt::Display for Tally {
    fn fmt<W: fmt::Write>(&self, f: &mut fmt::Formatter<W>) -> fmt::Result {
        writeln!(f, "blocks {}", self.blocks)?;
        writeln!(f, "placed {}", self.placed)?;
        write!(f, "differences {}", self.differences)
    }
}

fn main(rt: HostRuntime) -> io::Result<()> {
    let mut tally = Tally::default();
    replay::count_records::<16000, _, _>(&mut rt.reader(), &mut tally)?;
    println!(rt; "{tally}")
}
