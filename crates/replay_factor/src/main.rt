// Runs `Factoring` and `solve_factored` on the cases of standard input again, in the format of docs/CASES.md, 'The factor', and compares sets and
// every bit with the reference.
#![tactic(auto)]

ghost use Rattle.std.specs.Prelude.{◌*◌, ◌≤◌, length};
ghost use Rattle.sizes.specs.Sizes as Sizes;
ghost use Rattle.factor_update.specs.Block.{Block};
ghost use Rattle.factoring.specs.Kept as Kept;

use factoring::Factoring;
use replay::{Count, Record, is_matrix};
use scaled::System;
use sizes::ORIGINALS;
use std::{fmt, io};

// How the cases came out: updates that gave a factor and that gave nothing, systems that have a solution and that have none.
#[derive(Clone, Copy, Default)]
struct Tally {
    factors: u64,
    nothing: u64,
    solutions: u64,
    unsolved: u64,
    records: u64,
    differences: u64,
}

// Q's block of a sequence of updates.
#[derive(Clone, Copy)]
struct Matrix<'a> {
    q: &'a [f64],
    n: usize,
    originals: usize,
    ghost block: { Block n originals q.now × (n ≤ Sizes.variables) },
}

// A set from its bits.
fn marks(bits: u32) -> [bool; ORIGINALS] {
    let mut set = [false; ORIGINALS];
    let mut rest = bits;
    for mark in &mut set {
        *mark = rest % 2 == 1;
        rest /= 2;
    }
    set
}

// Whether the last singular set is not that of these bits, which are 0 where there is none.
fn singular_differs(f: Factoring, bits: u32) -> bool {
    if f.failed {
        f.singular != marks(bits)
    } else {
        bits != 0
    }
}

// How many floats of the kept factor l, of the block on the set of these bits, are not those of c.
fn factor_differing(f: Factoring, l: &[f64], bits: u32, c: &[f64]) -> usize {
    let held = f.held;
    if !f.factored || held != marks(bits) {
        return 1;
    }
    replay::lower_differing(l, held.iter().filter(|mark| **mark).count(), c)
}

impl Tally {
    fn differ(&mut self, n: usize) {
        replay::add(&mut self.differences, n as u64);
    }

    // After an update to the set of these bits; the record goes on with what it should have given.
    fn count_update(&mut self, record: &mut Record, bits: u32, f: Factoring, l: &[f64]) {
        self.differ(usize::from(singular_differs(f, record.u32())));
        if record.byte() == 0 {
            let mut c = [0.0; 1024];
            let c = record.slice(&mut c);
            replay::add(&mut self.factors, 1);
            self.differ(factor_differing(f, l, bits, c));
        } else {
            replay::add(&mut self.nothing, 1);
            self.differ(usize::from(f.factored));
        }
    }

    // The kept factor stands in l.
    fn count_step(
        &mut self,
        record: &mut Record,
        matrix: &Matrix,
        kept: Factoring,
        l: &mut [f64],
    ) -> Factoring
        requires { Kept.Good matrix.now.originals kept l.old
            × (matrix.now.originals * matrix.now.originals ≤ length l.old) }
        ensures { Kept.Good matrix.now.originals result l.new }
    {
        if record.byte() != 0 {
            return kept.reset();
        }
        let bits = record.u32();
        let mut list = [0; ORIGINALS];
        let mut room = [0.0; 1536];
        let originals = matrix.originals;
        let k = variable_set::rising(marks(bits), originals, &mut list);
        let f = kept.update(matrix.q, matrix.n, originals, &list[..k], l, &mut room);
        self.count_update(record, bits, f, l);
        f
    }

    fn count_steps(&mut self, mut record: Record, matrix: &Matrix, steps: u8) {
        let mut l = [0.0; 1024];
        let mut kept = Factoring::new();
        for _ in 0..steps {
            kept = self.count_step(&mut record, matrix, kept, &mut l);
        }
        self.differ(usize::from(!record.is_at_end()));
    }

    fn count_sequence(&mut self, mut record: Record) {
        let n = usize::from(record.byte());
        let originals = usize::from(record.byte());
        let steps = record.byte();
        let mut q = [0.0; 2304];
        let q = record.slice(&mut q);
        if n > sizes::VARIABLES || originals > ORIGINALS || originals > n || !is_matrix(q, n, n) {
            self.differ(1);
        } else {
            self.count_steps(record, &Matrix { q, n, originals }, steps);
        }
    }

    // The record goes on with what the solve should have given.
    fn count_solution(&mut self, mut record: Record, found: bool, x: &[f64], multipliers: &[f64]) {
        if record.byte() == 0 {
            replay::add(&mut self.solutions, 1);
            self.differ(if found {
                record.compare_answer(x, multipliers)
            } else {
                1
            });
        } else {
            replay::add(&mut self.unsolved, 1);
            self.differ(usize::from(found));
            self.differ(usize::from(!record.is_at_end()));
        }
    }

    fn count_solve(&mut self, record: Record, l: &[f64], system: &System, noise: f64)
        requires { system.now.n * system.now.n ≤ length l.now }
    {
        let (n, m) = (system.n, system.m);
        if !cholesky::positive_definite(l, n) {
            self.differ(1);
            return;
        }
        let mut w = [0.0; 768];
        let mut gram = [0.0; 576];
        let mut x = [0.0; ORIGINALS];
        let mut multipliers = [0.0; sizes::COLUMNS];
        let found = range_space::solve_factored(
            l,
            system,
            noise,
            &mut w,
            &mut gram,
            &mut x,
            &mut multipliers,
        );
        self.count_solution(record, found, &x[..n], &multipliers[..m]);
    }

    // A system whose counts don't go with its slices differs.
    fn count_system(&mut self, mut record: Record) {
        let mut l = [0.0; 1024];
        let mut k = [0.0; 1024];
        let mut c = [0.0; 255];
        let mut e = [0.0; 1024];
        let mut b = [0.0; 255];
        let mut noise = [0.0];
        let n = usize::from(record.byte());
        let m = usize::from(record.byte());
        record.byte();
        let l = record.slice(&mut l);
        let k = record.slice(&mut k);
        let c = record.slice(&mut c);
        let e = record.slice(&mut e);
        let b = record.slice(&mut b);
        record.slice(&mut noise);
        let [noise] = noise;
        if n > ORIGINALS
            || m > sizes::COLUMNS
            || !is_matrix(l, n, n)
            || !is_matrix(k, n, n)
            || n != c.len()
            || !is_matrix(e, n, m)
            || m != b.len()
        {
            self.differ(1);
            return;
        }
        let system = System { k, c, e, b, n, m };
        self.count_solve(record, l, &system, noise);
    }
}

impl Count for Tally {
    fn count(&mut self, mut record: Record) {
        replay::add(&mut self.records, 1);
        if record.byte() == 0 {
            self.count_sequence(record);
        } else {
            self.count_system(record);
        }
    }
}

impl fmt::Display for Tally {
    fn fmt<W: fmt::Write>(&self, f: &mut fmt::Formatter<W>) -> fmt::Result {
        writeln!(f, "factors {}", self.factors)?;
        writeln!(f, "no factor {}", self.nothing)?;
        writeln!(f, "solutions {}", self.solutions)?;
        writeln!(f, "no solution {}", self.unsolved)?;
        writeln!(f, "records {}", self.records)?;
        write!(f, "differences {}", self.differences)
    }
}

fn main(rt: HostRuntime) -> io::Result<()> {
    let mut tally = Tally::default();
    replay::count_records::<24000, _, _>(&mut rt.reader(), &mut tally)?;
    println!(rt; "{tally}")
}
