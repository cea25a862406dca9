// Runs the kernels on the cases of standard input again, in the format of docs/CASES.md, 'Kernels', and compares every bit
// with the reference. A case whose counts fit no kernel differs.
#![tactic(auto)]

ghost use Rattle.std.specs.Prelude.{ℕ, ◌*◌, ◌≤◌, length};

use replay::{Count, Record, differing, is_matrix, lower_differing};
use std::{fmt, io};

// No slice of a record has more floats.
const LONGEST: usize = 1152;

// The counts of a case: a and b go in, c and d should come out.
#[derive(Drop)]
struct Case<'a> {
    n: usize,
    m: usize,
    k: usize,
    a: &'a mut [f64],
    b: &'a mut [f64],
    c: &'a [f64],
    d: &'a [f64],
    ghost counts: { n ≤ 48 },
}

// A kernel gives how many floats of its answer differ, or none where it has no answer.
const UNFIT: Option<usize> = Some(1);

fn number(y: f64, c: &[f64]) -> Option<usize> {
    Some(differing(&[y], c))
}

// The transposed system for the k columns of b, one after the other.
fn tr_solve_columns(l: &[f64], n: usize, b: &mut [f64], k: usize) -> bool
    requires { n * n ≤ length l.now }
{
    let mut rest = b;
    for _ in 0..k {
        let Some((column, after)) = rest.split_at_mut_checked(n) else {
            return false;
        };
        if !triangular::tr_solve_lower_triangular(l, n, column) {
            return false;
        }
        rest = after;
    }
    true
}

// The array that begins with a.
fn array(a: &[f64]) -> [f64; 1024]
    requires { length a.now ≤ 1024 }
{
    let mut l = [0.0; 1024];
    l[..a.len()].copy_from_slice(a);
    l
}

impl Case<'_> {
    fn root(&self) -> Option<usize> {
        match &*self.a {
            [x] => number(root::sqrt(*x), self.c),
            _ => UNFIT,
        }
    }

    fn dot(&self) -> Option<usize> {
        if self.a.len() != self.n || self.b.len() != self.n {
            return UNFIT;
        }
        number(reductions::dot(self.a, self.b, self.n), self.c)
    }

    // A number of the vector a.
    fn size<F: Fn(&[f64], usize) -> f64>(&self, size: F) -> Option<usize>
        requires { (a : _) (n : ℕ) → n ≤ length a.now → F.pre size a n }
    {
        if self.a.len() != self.n {
            return UNFIT;
        }
        number(size(self.a, self.n), self.c)
    }

    fn cholesky(&mut self) -> Option<usize> {
        if !is_matrix(self.a, self.n, self.n) {
            return UNFIT;
        }
        cholesky::cholesky(self.a, self.n).then(|| lower_differing(self.a, self.n, self.c))
    }

    fn positive_definite(&self) -> Option<usize> {
        if !is_matrix(self.a, self.n, self.n) || !self.c.is_empty() {
            return UNFIT;
        }
        cholesky::positive_definite(self.a, self.n).then_some(0)
    }

    fn forward(&mut self) -> Option<usize> {
        if !is_matrix(self.a, self.n, self.n) || !is_matrix(self.b, self.n, self.m) {
            return UNFIT;
        }
        triangular::solve_lower_columns(self.a, self.n, self.b, self.m).then(|| differing(
            self.b, self.c,
        ))
    }

    fn transposed(&mut self) -> Option<usize> {
        if !is_matrix(self.a, self.n, self.n) || !is_matrix(self.b, self.n, self.m) {
            return UNFIT;
        }
        tr_solve_columns(self.a, self.n, self.b, self.m).then(|| differing(self.b, self.c))
    }

    fn remove(&self) -> Option<usize> {
        let (n, p) = (self.n, self.m);
        if n > 32 || p >= n || !is_matrix(self.a, n, n) {
            return UNFIT;
        }
        let mut l = array(self.a);
        let mut room = [0.0; 1024];
        update::remove_column(&mut l, n, p, &mut room);
        Some(lower_differing(&l, n - 1, self.c))
    }

    fn insert(&self) -> Option<usize> {
        let (n, p) = (self.n, self.m);
        if n >= 32 || p > n || !is_matrix(self.a, n, n) || self.b.len() != n + 1 {
            return UNFIT;
        }
        let mut l = array(self.a);
        let mut room = [0.0; 1024];
        update::insert_column(&mut l, n, p, self.b, &mut room);
        Some(lower_differing(&l, n + 1, self.c))
    }

    fn qr(&mut self) -> Option<usize> {
        let (n, m, k) = (self.n, self.m, self.k);
        let (a, b) = (&mut *self.a, &mut *self.b);
        if m > n || !is_matrix(a, n, m) || !is_matrix(b, n, k) {
            return UNFIT;
        }
        let mut made = [false; 48];
        householder::qr(a, n, m, &mut made);
        householder::q_tr_mul(a, n, m, &made, b, k);
        Some(differing(a, self.c).wrapping_add(differing(b, self.d)))
    }

    fn rotate(&mut self) -> Option<usize> {
        let (n, p, q) = (self.n, self.m, self.k);
        let (a, b) = (&mut *self.a, &mut *self.b);
        if p >= n || q >= n || !is_matrix(a, n, n) || !is_matrix(b, n, n) {
            return UNFIT;
        }
        rotation::rotate(a, b, n, p, q);
        Some(differing(a, self.c).wrapping_add(differing(b, self.d)))
    }

    fn eigen(&mut self) -> Option<usize> {
        let n = self.n;
        let a = &mut *self.a;
        let count = a.len();
        if n > 32 || count > 1024 || !is_matrix(a, n, n) {
            return UNFIT;
        }
        let mut room = [0.0; 1024];
        let mut values = [0.0; 32];
        let mut vectors = [0.0; 1024];
        let values = &mut values[..n];
        let vectors = &mut vectors[..count];
        if !eigen::symmetric_eigen(a, n, &mut room[..count], values, vectors) {
            return None;
        }
        Some(differing(values, self.c).wrapping_add(differing(vectors, self.d)))
    }

    // The kernel of a kind; those below 11 have one slice out at most.
    fn run(&mut self, kind: u8) -> Option<usize> {
        match kind {
            11 => self.qr(),
            12 => self.rotate(),
            13 => self.eigen(),
            _ if !self.d.is_empty() => UNFIT,
            0 => self.root(),
            1 => self.dot(),
            2 => self.size(reductions::norm),
            3 => self.size(reductions::scaled_norm),
            4 => self.size(reductions::amax),
            5 => self.cholesky(),
            6 => self.positive_definite(),
            7 => self.forward(),
            8 => self.transposed(),
            9 => self.remove(),
            10 => self.insert(),
            _ => UNFIT,
        }
    }
}

// A record's kind and outcome, and how many floats differ.
#[derive(Clone, Copy)]
struct Replayed {
    kind: u8,
    outcome: u8,
    differ: usize,
}

fn run(mut record: Record) -> Replayed {
    let mut a = [0.0; LONGEST];
    let mut b = [0.0; LONGEST];
    let mut c = [0.0; LONGEST];
    let mut d = [0.0; LONGEST];
    let kind = record.byte();
    let n = usize::from(record.byte());
    let m = usize::from(record.byte());
    let k = usize::from(record.byte());
    let a = record.slice(&mut a);
    let b = record.slice(&mut b);
    let outcome = record.byte();
    let c = record.slice(&mut c);
    let d = record.slice(&mut d);
    let differ = if n > 48 || m > 48 || k > 48 {
        1
    } else {
        let mut case = Case {
            n,
            m,
            k,
            a,
            b,
            c,
            d,
        };
        match case.run(kind) {
            Some(differ) if outcome == 0 => differ,
            Some(_) => 1,
            None => usize::from(outcome == 0),
        }
    };
    Replayed {
        kind,
        outcome,
        differ: differ.wrapping_add(usize::from(!record.is_at_end())),
    }
}

const KINDS: [&str; 14] = [
    "root",
    "dot",
    "norm",
    "scaled norm",
    "amax",
    "cholesky",
    "positive definite",
    "forward",
    "transposed",
    "remove",
    "insert",
    "qr",
    "rotate",
    "eigen",
];

// How the cases came out, and how many are of each kind.
#[derive(Clone, Copy, Default)]
struct Tally {
    kinds: [u64; 14],
    records: u64,
    answers: u64,
    nothing: u64,
    differences: u64,
}

impl Count for Tally {
    // An outcome that is neither an answer nor nothing is a difference.
    fn count(&mut self, record: Record) {
        let replayed = run(record);
        replay::add(&mut self.records, 1);
        replay::add(&mut self.differences, replayed.differ as u64);
        if let Some(count) = self.kinds.get_mut(usize::from(replayed.kind)) {
            replay::add(count, 1);
        }
        match replayed.outcome {
            0 => replay::add(&mut self.answers, 1),
            1 => replay::add(&mut self.nothing, 1),
            _ => replay::add(&mut self.differences, 1),
        }
    }
}

impl fmt::Display for Tally {
    fn fmt<W: fmt::Write>(&self, f: &mut fmt::Formatter<W>) -> fmt::Result {
        for (name, count) in KINDS.iter().zip(&self.kinds) {
            writeln!(f, "{name} {count}")?;
        }
        writeln!(f, "records {}", self.records)?;
        writeln!(f, "answers {}", self.answers)?;
        writeln!(f, "nothing {}", self.nothing)?;
        write!(f, "differences {}", self.differences)
    }
}

fn main(rt: HostRuntime) -> io::Result<()> {
    let mut tally = Tally::default();
    replay::count_records::<16000, _, _>(&mut rt.reader(), &mut tally)?;
    println!(rt; "{tally}")
}
