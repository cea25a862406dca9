// qp.rs, a pass of `solve_piecewise_in_units`: the step on the free variables, from the factor kept across iterations where Q is positive definite
// on them, and otherwise, or if that misses, from the eigendecomposition. K is n by n, E is n by m.
#![tactic(auto)]

ghost use Rattle.std.specs.Prelude.{◌≡◌, Bool, List, ℕ, ◌≤◌, ◌*◌, length, take};
ghost use Rattle.scaled.specs.Given.{system_of};
ghost use Rattle.factoring.specs.Kept.{factor, option_of, kept_of, Good, Updatable};
ghost use Rattle.range_space.specs.Factored.{found_of};
ghost use Rattle.solution.specs.Solution.{answer};
ghost use Rattle.noisy_kkt.specs.NoisyKkt.{solve_noisy_kkt};
ghost use Rattle.free_problem.specs.FreeProblem.{gathered_of, Lists};
ghost use Rattle.free_solve.specs.Regular.{Regular};
ghost use Rattle.free_solve.specs.FreeSolve as Definition;

use factoring::Factoring;
use free_problem::Free;
use iterate::Counts;
use scaled::System;
use solution::KktError;

// Whether there is a step, or why there is none, and the factoring that is left. The step stands over the start of the lent x, and its multipliers
// over that of the lent multipliers.
#[derive(Drop)]
pub struct Solved {
    pub verdict: Result<(), KktError>,
    pub factoring: Factoring,
}

// .and_then(|cholesky| solve_factored(cholesky, problem, noise)), whatever the variables of the factor.
fn from_factor(
    factored: bool,
    l: &[f64],
    system: &System,
    noise: f64,
    w: &mut [f64],
    gram: &mut [f64],
    x: &mut [f64],
    multipliers: &mut [f64],
) -> bool
    requires { Regular system.now.n factored l.now
        × (system.now.n * system.now.m ≤ length w.old)
        × (system.now.m * system.now.m ≤ length gram.old)
        × (system.now.n ≤ length x.old)
        × (system.now.m ≤ length multipliers.old) }
    ensures { (held : List Bool) → found_of result (take system.now.n x.new) (take system.now.m multipliers.new)
        ≡ Definition.from_factor (option_of factored held) l.now (system_of system.now) noise }
{
    factored && range_space::solve_factored(l, system, noise, w, gram, x, multipliers)
}

// The solve by the eigendecomposition, its solution over the starts of x and multipliers.
fn noisy(
    system: &System,
    noise: f64,
    x: &mut [f64],
    multipliers: &mut [f64],
) -> Result<(), KktError>
    requires { (system.now.n ≤ length x.old) × (system.now.m ≤ length multipliers.old) }
    ensures { answer result (take system.now.n x.new) (take system.now.m multipliers.new)
        ≡ solve_noisy_kkt (system_of system.now) noise }
{
    let n = system.n;
    let m = system.m;
    let answer = noisy_kkt::solve_noisy_kkt(system, noise);
    // What a solve that missed has left there goes.
    if answer.is_err() {
        x[..n].fill(0.0);
        multipliers[..m].fill(0.0);
    }
    let solution = answer?;
    let x_noisy = solution.x;
    let multipliers_noisy = solution.multipliers;
    vector::copy(&x_noisy[..n], n, x);
    vector::copy(&multipliers_noisy[..m], m, multipliers);
    Ok(())
}

// The solve with the factor that `update` leaves; w and gram are work memory.
fn solve_updated(
    factoring: Factoring,
    l: &[f64],
    system: &System,
    noise: f64,
    w: &mut [f64],
    gram: &mut [f64],
    x: &mut [f64],
    multipliers: &mut [f64],
) -> Solved
    requires { Regular system.now.n factoring.factored l.now
        × (system.now.n * system.now.m ≤ length w.old)
        × (system.now.m * system.now.m ≤ length gram.old)
        × (system.now.n ≤ length x.old)
        × (system.now.m ≤ length multipliers.old) }
    ensures l_after { Definition.solution_of result (take system.now.n x.new) (take system.now.m multipliers.new) l.now
        ≡ Definition.solve_updated (factor (kept_of factoring) l.now) (system_of system.now) noise }
    ensures by_index { (o : ℕ) → Good o factoring l.now → Good o result.factoring l.now }
{
    let found = from_factor(
        factoring.factored,
        l,
        system,
        noise,
        w,
        gram,
        x,
        multipliers,
    );
    if found {
        return Solved {
            verdict: Ok(()),
            factoring,
        };
    }
    let verdict = noisy(system, noise, x, multipliers);
    let dropped = lent_factoring::dropped(factoring);
    Solved {
        verdict,
        factoring: dropped,
    }
}

// The solve for the variables `solved`. Q is the whole problem's; room, which Q's rows go to, and gram are work memory; l holds the kept factor.
pub fn solve_free(
    factoring: Factoring,
    q: &[f64],
    counts: Counts,
    solved: &[usize],
    free: Free,
    q_free: &[f64],
    e_free: &[f64],
    room: &mut [f64],
    gram: &mut [f64],
    l: &mut [f64],
    x: &mut [f64],
    multipliers: &mut [f64],
) -> Solved
    requires { Updatable counts.n counts.originals q.now solved.now factoring l.old room.old
        × Lists (length solved.now) counts.m free
        × (length solved.now * length solved.now ≤ length q_free.now)
        × (length solved.now * free.columns ≤ length e_free.now)
        × (length solved.now * free.columns ≤ length room.old)
        × (free.columns * free.columns ≤ length gram.old)
        × (length solved.now ≤ length x.old)
        × (free.columns ≤ length multipliers.old) }
    ensures l_after { Definition.solution_of result (take (length solved.now) x.new) (take free.columns multipliers.new)
        l.new
        ≡ Definition.solve_free q.now counts.n solved.now
        (gathered_of (length solved.now) counts.m free q_free.now e_free.now) (kept_of factoring)
        l.old }
    ensures good { Good counts.originals result.factoring l.new }
{
    let k = solved.len();
    let m = free.columns;
    let gradient = free.gradient;
    let residual = free.residual;
    let square = k * k;
    let entries = k * m;
    let updated = lent_factoring::updated(
        factoring,
        q,
        counts.n,
        counts.originals,
        solved,
        l,
        room,
    );
    let problem = System {
        k: &q_free[..square],
        c: &gradient[..k],
        e: &e_free[..entries],
        b: &residual[..m],
        n: k,
        m,
    };
    solve_updated(updated, l, &problem, free.noise, room, gram, x, multipliers)
}
