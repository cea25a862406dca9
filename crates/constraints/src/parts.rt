// qp.rs, the fields of `Constraints`: E = YT. Z, which completes Y, is no part of what solves with them, so it is lent beside.
#![tactic(auto)]

ghost use Rattle.constraints.specs.Room.{Held};

// E is n by m, p is min(n, m); Y is n by rank, and T is p by m, of which the first `rank` rows count.
#[derive(Clone, Copy)]
pub struct Constraints<'a> {
    pub range: &'a [f64],
    pub coefficients: &'a [f64],
    pub pivots: &'a [usize],
    pub rank: usize,
    pub n: usize,
    pub m: usize,
    pub ghost held: { Held n m rank range.now coefficients.now pivots.now },
}
