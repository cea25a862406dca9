// qp.rs, `solve_kkt`, the public call. K is n by n, E is n by m, with up to 32 variables and 8 columns.
#![tactic(auto)]

ghost use Rattle.std.specs.Prelude.{◌≡◌, ◌≤◌, ◌*◌, length};
ghost use Rattle.sizes.specs.Sizes as Sizes;
ghost use Rattle.scaled.specs.System.{system};
ghost use Rattle.scaled.specs.Given.{system_of};
ghost use Rattle.solution.specs.Solution.{solution_of};
ghost use Rattle.kkt.specs.Kkt.{Answered};
ghost use Rattle.kkt.specs.Kkt as Definition;

use scaled::System;
use solution::{KktError, Solution};

// The solve in `Units`, and back; uk and ue are work memory.
fn solve_in(system: &System, uk: &mut [f64], ue: &mut [f64]) -> Result<Solution, KktError>
    requires { (system.now.n * system.now.n ≤ length uk.old) × (system.now.n * system.now.m ≤ length ue.old) }
    ensures { solution_of system.now.n system.now.m result ≡ Definition.solve_units (system_of system.now) }
{
    let n = system.n;
    let m = system.m;
    let scales = units::diagonal_scales(system.k, n);
    let columns = units::column_scales(system.e, n, m);
    let square = n * n;
    let entries = n * m;
    vector::copy(system.k, square, uk);
    vector::copy(system.e, entries, ue);
    units::units_k(uk, n, &scales[..n]);
    units::units_e(ue, n, m, &scales[..n], &columns[..m]);
    let uc = dense::div(system.c, &scales[..n], n);
    let ub = dense::div(system.b, &columns[..m], m);
    let in_units = System {
        k: &uk[..square],
        c: &uc[..n],
        e: &ue[..entries],
        b: &ub[..m],
        n,
        m,
    };
    let s = noisy_kkt::solve_noisy_kkt(&in_units, 0.0);
    kkt_original::original(s, system.e, system.b, &scales[..n], &columns[..m], n, m)
}

// In work memory of SQUARE and TALL numbers.
fn solve_within<const SQUARE: usize, const TALL: usize>(
    system: &System,
) -> Result<Solution, KktError>
    requires { (system.now.n * system.now.n ≤ SQUARE)
        × (system.now.n * system.now.m ≤ TALL)
        × (SQUARE ≤ Sizes.originals * Sizes.originals)
        × (TALL ≤ Sizes.originals * Sizes.columns) }
    ensures { solution_of system.now.n system.now.m result ≡ Definition.solve_units (system_of system.now) }
{
    let mut uk = [0.0; SQUARE];
    let mut ue = [0.0; TALL];
    solve_in(system, &mut uk, &mut ue)
}

// In work memory of its size.
fn solve_shaped(system: &System) -> Result<Solution, KktError>
    requires { system.now.m ≤ Sizes.equalities }
    ensures { solution_of system.now.n system.now.m result ≡ Definition.solve_units (system_of system.now) }
{
    if system.n <= sizes::FEW {
        return solve_within::<{ sizes::SMALL }, { sizes::SMALL }>(system);
    }
    solve_within::<{ sizes::SQUARE }, { sizes::TALL }>(system)
}

// Whether each slice has the length that the counts give it.
fn shaped(
    n: usize,
    m: usize,
    k: usize,
    c: usize,
    e: usize,
    b: usize,
    x: usize,
    multipliers: usize,
) -> bool
    ensures { result ≡ Definition.shaped n m k c e b x multipliers }
{
    // A test at a time: the proof of one chain of && didn't close.
    if n > sizes::ORIGINALS {
        return false;
    }
    if m > sizes::EQUALITIES {
        return false;
    }
    if k != n * n {
        return false;
    }
    if c != n {
        return false;
    }
    if e != n * m {
        return false;
    }
    if b != m {
        return false;
    }
    if x != n {
        return false;
    }
    multipliers == m
}

// Minimizes ½xᵀKx − cᵀx subject to Eᵀx = b.
pub fn solve_kkt(
    k: &[f64],
    c: &[f64],
    e: &[f64],
    b: &[f64],
    n: usize,
    m: usize,
    x: &mut [f64],
    multipliers: &mut [f64],
) -> u32
    ensures { Answered (system n m k.now c.now e.now b.now) result
        x.old x.new multipliers.old multipliers.new }
{
    if !shaped(
        n,
        m,
        k.len(),
        c.len(),
        e.len(),
        b.len(),
        x.len(),
        multipliers.len(),
    ) {
        return 9;
    }
    let system = System { k, c, e, b, n, m };
    outputs::write_solution(solve_shaped(&system), n, m, x, multipliers)
}
