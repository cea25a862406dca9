// Runs `solve_kkt` on the cases of standard input again, in the format of docs/CASES.md, 'Engine calls', and compares its
// number and every bit with the reference.
#![tactic(auto)]

use replay::{BEFORE, Count, Record};
use std::{fmt, io};

// No slice of a record has more floats.
const LONGEST: usize = 1152;

// A record's outcome, and how many floats differ.
#[derive(Clone, Copy)]
struct Replayed {
    outcome: u8,
    differ: usize,
}

fn run(mut record: Record) -> Replayed {
    let mut k = [0.0; LONGEST];
    let mut c = [0.0; LONGEST];
    let mut e = [0.0; LONGEST];
    let mut b = [0.0; LONGEST];
    let mut x = [BEFORE; 255];
    let mut multipliers = [BEFORE; 255];
    let other_call = record.byte() != 0;
    let n = usize::from(record.byte());
    let m = usize::from(record.byte());
    record.byte();
    let k = record.slice(&mut k);
    let c = record.slice(&mut c);
    let e = record.slice(&mut e);
    let b = record.slice(&mut b);
    let outcome = record.byte();
    let x = &mut x[..n];
    let multipliers = &mut multipliers[..m];
    let number = kkt::solve_kkt(k, c, e, b, n, m, x, multipliers);
    let differ = if number != u32::from(outcome) {
        1
    } else if outcome == 0 {
        record.compare_answer(x, multipliers)
    } else {
        record.compare_refusal(x, multipliers)
    };
    Replayed {
        outcome,
        differ: differ.wrapping_add(usize::from(other_call)),
    }
}

// How the cases came out.
#[derive(Clone, Copy, Default)]
struct Tally {
    solved: u64,
    wrong_shape: u64,
    not_finite: u64,
    singular: u64,
    no_optimum: u64,
    records: u64,
    differences: u64,
}

impl Count for Tally {
    // An outcome that the call doesn't have is a difference.
    fn count(&mut self, record: Record) {
        let replayed = run(record);
        replay::add(&mut self.records, 1);
        replay::add(&mut self.differences, replayed.differ as u64);
        let outcomes = match replayed.outcome {
            0 => &mut self.solved,
            9 => &mut self.wrong_shape,
            11 => &mut self.not_finite,
            12 => &mut self.singular,
            100 => &mut self.no_optimum,
            _ => &mut self.differences,
        };
        replay::add(outcomes, 1);
    }
}

impl fmt::Display for Tally {
    fn fmt<W: fmt::Write>(&self, f: &mut fmt::Formatter<W>) -> fmt::Result {
        writeln!(f, "solved {}", self.solved)?;
        writeln!(f, "wrong shape {}", self.wrong_shape)?;
        writeln!(f, "not finite {}", self.not_finite)?;
        writeln!(f, "singular {}", self.singular)?;
        writeln!(f, "no optimum {}", self.no_optimum)?;
        writeln!(f, "records {}", self.records)?;
        write!(f, "differences {}", self.differences)
    }
}

fn main(rt: HostRuntime) -> io::Result<()> {
    let mut tally = Tally::default();
    replay::count_records::<16000, _, _>(&mut rt.reader(), &mut tally)?;
    println!(rt; "{tally}")
}
