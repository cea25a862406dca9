// Runs `solve_bounded`, `solve_piecewise` and `solve_turnover_capped` on the cases of standard input again, in the format of docs/CASES.md,
// 'Engine calls', and compares number, passes and every bit with the reference.
#![tactic(auto)]

ghost use Rattle.std.specs.Prelude.{◌≤◌};

use replay::{BEFORE, Count, Record};
use std::{fmt, io};

// What the passes are before a call, and after a refusal.
const PASSES: u64 = 123_456_789;

// No slice of a record has more floats.
const LONGEST: usize = 1152;

#[derive(Clone, Copy, PartialEq, Eq)]
enum Call {
    Bounded,
    Piecewise,
    Capped,
}

// The call byte is that of no call.
#[derive(Clone, Copy)]
struct UnknownCall;

impl TryFrom<u8> for Call {
    type Error = UnknownCall;

    fn try_from(byte: u8) -> Result<Call, UnknownCall> {
        match byte {
            1 => Ok(Call::Bounded),
            2 => Ok(Call::Piecewise),
            3 => Ok(Call::Capped),
            _ => Err(UnknownCall),
        }
    }
}

// What a record says of its case. A bounded call has no kinks and slopes, and only a capped call has a cap.
#[derive(Drop)]
struct Problem<'a> {
    n: usize,
    m: usize,
    r: usize,
    q: &'a [f64],
    c: &'a [f64],
    e: &'a [f64],
    b: &'a [f64],
    lower: &'a [f64],
    upper: &'a [f64],
    a: &'a [f64],
    row_lower: &'a [f64],
    row_upper: &'a [f64],
    at: &'a [f64],
    slopes: &'a [f64],
    start: &'a [f64],
    cap: f64,
    ghost counts: { (n ≤ 255) × (m ≤ 255) × (r ≤ 255) },
}

// What a call writes.
#[derive(Drop)]
struct Answer<'a> {
    x: &'a mut [f64],
    multipliers: &'a mut [f64],
    passes: u64,
    raise: f64,
}

fn solve_bounded(p: &Problem, answer: &mut Answer) -> u32 {
    piecewise::solve_bounded(
        p.q,
        p.c,
        p.e,
        p.b,
        p.lower,
        p.upper,
        p.a,
        p.row_lower,
        p.row_upper,
        p.start,
        p.n,
        p.m,
        p.r,
        answer.x,
        answer.multipliers,
        &mut answer.passes,
    )
}

fn solve_piecewise(p: &Problem, answer: &mut Answer) -> u32 {
    piecewise::solve_piecewise(
        p.q,
        p.c,
        p.e,
        p.b,
        p.lower,
        p.upper,
        p.a,
        p.row_lower,
        p.row_upper,
        p.at,
        p.slopes,
        p.start,
        p.n,
        p.m,
        p.r,
        answer.x,
        answer.multipliers,
        &mut answer.passes,
    )
}

fn solve_turnover_capped(p: &Problem, answer: &mut Answer) -> u32 {
    cap::solve_turnover_capped(
        p.q,
        p.c,
        p.e,
        p.b,
        p.lower,
        p.upper,
        p.a,
        p.row_lower,
        p.row_upper,
        p.at,
        p.slopes,
        p.start,
        p.cap,
        p.n,
        p.m,
        p.r,
        answer.x,
        answer.multipliers,
        &mut answer.passes,
        &mut answer.raise,
    )
}

impl Call {
    fn solve(self, problem: &Problem, answer: &mut Answer) -> u32 {
        match self {
            Call::Bounded => solve_bounded(problem, answer),
            Call::Piecewise => solve_piecewise(problem, answer),
            Call::Capped => solve_turnover_capped(problem, answer),
        }
    }

    // The kinks or the slopes, where the call has some.
    fn kinks<'b>(self, record: &mut Record, y: &'b mut [f64]) -> &'b [f64] {
        match self {
            Call::Bounded => &[],
            _ => record.slice(y),
        }
    }

    // The cap or the raise; where the call has none, what the raise is before a call.
    fn number(self, record: &mut Record) -> f64 {
        match self {
            Call::Capped => record.float(),
            _ => BEFORE,
        }
    }

    // How much of what the call wrote is not in the rest of the record.
    fn compare_solved(self, mut record: Record, answer: &Answer) -> usize {
        let differ = record.compare_slices(answer.x, answer.multipliers);
        let passes = u64::from(record.u32());
        let raise = self.number(&mut record);
        differ
            .wrapping_add(usize::from(passes != answer.passes))
            .wrapping_add(usize::from(replay::differs(raise, answer.raise)))
            .wrapping_add(usize::from(!record.is_at_end()))
    }
}

// How much a refusal has written; the record ends with the outcome.
fn compare_refused(record: &Record, answer: &Answer) -> usize {
    record
        .compare_refusal(answer.x, answer.multipliers)
        .wrapping_add(usize::from(answer.passes != PASSES))
        .wrapping_add(usize::from(replay::differs(answer.raise, BEFORE)))
}

// A record's outcome, and how many numbers differ.
#[derive(Clone, Copy)]
struct Replayed {
    outcome: u8,
    differ: usize,
}

// Calls, and compares with what the record ends with.
fn compare(mut record: Record, call: Call, problem: &Problem) -> Replayed {
    let mut x = [BEFORE; 255];
    let mut multipliers = [BEFORE; 510];
    let outcome = record.byte();
    let mut answer = Answer {
        x: &mut x[..problem.n],
        multipliers: &mut multipliers[..problem.m + problem.r],
        passes: PASSES,
        raise: BEFORE,
    };
    let number = call.solve(problem, &mut answer);
    let differ = if number != u32::from(outcome) {
        1
    } else if outcome == 0 {
        call.compare_solved(record, &answer)
    } else {
        compare_refused(&record, &answer)
    };
    Replayed { outcome, differ }
}

fn run(mut record: Record, call: Call) -> Replayed {
    let mut q = [0.0; LONGEST];
    let mut c = [0.0; LONGEST];
    let mut e = [0.0; LONGEST];
    let mut b = [0.0; LONGEST];
    let mut lower = [0.0; LONGEST];
    let mut upper = [0.0; LONGEST];
    let mut a = [0.0; LONGEST];
    let mut row_lower = [0.0; LONGEST];
    let mut row_upper = [0.0; LONGEST];
    let mut at = [0.0; LONGEST];
    let mut slopes = [0.0; LONGEST];
    let mut start = [0.0; LONGEST];
    let problem = Problem {
        n: usize::from(record.byte()),
        m: usize::from(record.byte()),
        r: usize::from(record.byte()),
        q: record.slice(&mut q),
        c: record.slice(&mut c),
        e: record.slice(&mut e),
        b: record.slice(&mut b),
        lower: record.slice(&mut lower),
        upper: record.slice(&mut upper),
        a: record.slice(&mut a),
        row_lower: record.slice(&mut row_lower),
        row_upper: record.slice(&mut row_upper),
        at: call.kinks(&mut record, &mut at),
        slopes: call.kinks(&mut record, &mut slopes),
        start: record.slice(&mut start),
        cap: call.number(&mut record),
    };
    compare(record, call, &problem)
}

// How the cases of a call came out. An outcome that the calls don't have is counted nowhere; its case differs.
#[derive(Clone, Copy, Default)]
struct Tally {
    cases: u64,
    differing: u64,
    solved: u64,
    wrong_shape: u64,
    blank_bound: u64,
    not_finite: u64,
    singular: u64,
    unbounded: u64,
    not_converged: u64,
}

impl Tally {
    fn count(&mut self, replayed: Replayed) {
        replay::add(&mut self.cases, 1);
        replay::add(&mut self.differing, u64::from(replayed.differ > 0));
        match replayed.outcome {
            0 => replay::add(&mut self.solved, 1),
            9 => replay::add(&mut self.wrong_shape, 1),
            10 => replay::add(&mut self.blank_bound, 1),
            11 => replay::add(&mut self.not_finite, 1),
            12 => replay::add(&mut self.singular, 1),
            13 => replay::add(&mut self.unbounded, 1),
            14 => replay::add(&mut self.not_converged, 1),
            _ => {}
        }
    }
}

impl fmt::Display for Tally {
    fn fmt<W: fmt::Write>(&self, f: &mut fmt::Formatter<W>) -> fmt::Result {
        writeln!(f, "{}", self.cases)?;
        writeln!(f, "solved {}", self.solved)?;
        writeln!(f, "wrong shape {}", self.wrong_shape)?;
        writeln!(f, "blank bound {}", self.blank_bound)?;
        writeln!(f, "not finite {}", self.not_finite)?;
        writeln!(f, "singular {}", self.singular)?;
        writeln!(f, "unbounded {}", self.unbounded)?;
        writeln!(f, "not converged {}", self.not_converged)?;
        write!(f, "differing {}", self.differing)
    }
}

// The tallies of the three calls, and how many records are of no call of these, which differ.
#[derive(Clone, Copy, Default)]
struct Tallies {
    bounded: Tally,
    piecewise: Tally,
    capped: Tally,
    unknown: u64,
}

impl Count for Tallies {
    fn count(&mut self, mut record: Record) {
        match Call::try_from(record.byte()) {
            Ok(call) => self.of(call).count(run(record, call)),
            Err(UnknownCall) => replay::add(&mut self.unknown, 1),
        }
    }
}

impl Tallies {
    fn of(&mut self, call: Call) -> &mut Tally {
        match call {
            Call::Bounded => &mut self.bounded,
            Call::Piecewise => &mut self.piecewise,
            Call::Capped => &mut self.capped,
        }
    }
}

fn main(rt: HostRuntime) -> io::Result<()> {
    let mut tallies = Tallies::default();
    replay::count_records::<16000, _, _>(&mut rt.reader(), &mut tallies)?;
    println!(rt; "bounded {}", tallies.bounded)?;
    println!(rt; "piecewise {}", tallies.piecewise)?;
    println!(rt; "capped {}", tallies.capped)?;
    println!(rt; "unknown call {}", tallies.unknown)?;
    println!(rt; "differing {}", tallies.unknown)
}
