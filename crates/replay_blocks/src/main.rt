// Reads and checks the stored blocks of standard input again, in the format of docs/CASES.md, 'Blocks', and compares with the reference.
#![tactic(auto)]

use replay::{Count, Record};
use std::{fmt, io};

// A count byte and as many numbers, at the start of room.
fn list<'b, T: Drop, F: Fn(&mut Record) -> T>(
    record: &mut Record,
    room: &'b mut [T; 255],
    next: F,
) -> &'b [T]
    requires { F.IsAlwaysCallable next }
{
    let n = usize::from(record.byte());
    let numbers = &mut room[..n];
    for x in numbers.iter_mut() {
        *x = next(record);
    }
    numbers
}

// Whether a check of the block comes out otherwise: a gap, or a refusal's number.
fn check_differs(record: &mut Record, block: &[u8]) -> bool {
    let mut times = [0; 255];
    let mut prices = [0; 255];
    let times = list(record, &mut times, |r: &mut Record| r.i32());
    let prices = list(record, &mut prices, |r: &mut Record| r.i64());
    let checked = plan_check::check(block, times, prices);
    match record.byte() {
        0 => checked != Ok(record.i64()),
        number => !checked.is_err_and(|refusal| u32::from(refusal) == u32::from(number)),
    }
}

// The number of the reader's refusal, or 0.
fn outcome(block: &[u8]) -> u32 {
    match reader::read(block) {
        Ok(_) => 0,
        Err(refusal) => u32::from(refusal),
    }
}

// A record that ends before its block does differs, and is counted as accepted.
#[derive(Clone, Copy, Default)]
struct Tally {
    blocks: u64,
    accepted: u64,
    checks: u64,
    differences: u64,
}

impl Count for Tally {
    fn count(&mut self, mut record: Record) {
        replay::add(&mut self.blocks, 1);
        let Some(block) = record.block() else {
            replay::add(&mut self.accepted, 1);
            replay::add(&mut self.differences, 1);
            return;
        };
        let expected = record.byte();
        replay::add(&mut self.accepted, u64::from(expected == 0));
        self.count_checks(&mut record, block);
        replay::add(
            &mut self.differences,
            u64::from(outcome(block) != u32::from(expected)),
        );
    }
}

impl Tally {
    fn count_checks(&mut self, record: &mut Record, block: &[u8]) {
        let n = record.byte();
        replay::add(&mut self.checks, u64::from(n));
        for _ in 0..n {
            replay::add(
                &mut self.differences,
                u64::from(check_differs(record, block)),
            );
        }
    }
}

impl fmt::Display for Tally {
    fn fmt<W: fmt::Write>(&self, f: &mut fmt::Formatter<W>) -> fmt::Result {
        writeln!(f, "blocks {}", self.blocks)?;
        writeln!(f, "accepted {}", self.accepted)?;
        writeln!(f, "checks {}", self.checks)?;
        write!(f, "differences {}", self.differences)
    }
}

fn main(rt: HostRuntime) -> io::Result<()> {
    let mut tally = Tally::default();
    replay::count_records::<16000, _, _>(&mut rt.reader(), &mut tally)?;
    println!(rt; "{tally}")
}
