// The public calls: every one that C or Rust may make, under its C name. include/places.h says what each means. A slice is a pointer and a
// count. A result of 0 is success, 100 an answer without values, any other a number of document 01's refusal table; whatever is not 0 writes
// nothing.
#![tactic(auto)]

ghost use Rattle.std.specs.Prelude.{◌≡◌};
ghost use Rattle.std.specs.Float.{binary64};
ghost use Rattle.kkt.specs.Kkt as Kkt;
ghost use Rattle.scaled.specs.System.{system};
ghost use Rattle.piecewise.specs.Piecewise as Piecewise;
ghost use Rattle.piecewise.specs.Piecewise.{bounded};
ghost use Rattle.quadratic.specs.Quadratic.{quadratic};
ghost use Rattle.cap.specs.Capped as Capped;
ghost use Rattle.root.specs.Root.{root};
ghost use Rattle.plan_check.specs.Promise.{Answered};
ghost use Rattle.service.specs.Promise as Service;

// The answer file of a block file, at the front of `answer`, and its length in `written`.
#[unsafe(no_mangle)]
pub extern "C" fn places_place(block: &[u8], answer: &mut [u8], written: &mut u64) -> u32
    ensures { Service.Answered block.now answer.old written.old result answer.new
        written.new }
{
    match service::place(block, answer) {
        Ok(n) => {
            *written = n as u64;
            0
        }
        Err(r) => u32::from(r),
    }
}

// The gap of anyone's plan (a time for each word) and prices (anchors, spans, cap).
#[unsafe(no_mangle)]
pub extern "C" fn places_check(block: &[u8], times: &[i32], prices: &[i64], gap: &mut i64) -> u32
    ensures { Answered block.now times.now prices.now gap.old result gap.new }
{
    match plan_check::check(block, times, prices) {
        Ok(z) => {
            *gap = z;
            0
        }
        Err(refusal) => u32::from(refusal),
    }
}

// IEEE 754's square root.
#[unsafe(no_mangle)]
pub extern "C" fn places_sqrt(x: f64) -> f64
    ensures { result ≡ root binary64 x }
{
    root::sqrt(x)
}

// Minimizes ½xᵀKx − cᵀx subject to Eᵀx = b.
#[unsafe(no_mangle)]
pub extern "C" fn places_solve_kkt(
    k: &[f64],
    c: &[f64],
    e: &[f64],
    b: &[f64],
    n: usize,
    m: usize,
    x: &mut [f64],
    multipliers: &mut [f64],
) -> u32
    ensures { Kkt.Answered (system n m k.now c.now e.now b.now) result
        x.old x.new multipliers.old multipliers.new }
{
    kkt::solve_kkt(k, c, e, b, n, m, x, multipliers)
}

// Minimizes ½xᵀQx − cᵀx subject to Eᵀx = b, to the bounds and to the rows' limits, from start.
#[unsafe(no_mangle)]
pub extern "C" fn places_solve_bounded(
    q: &[f64],
    c: &[f64],
    e: &[f64],
    b: &[f64],
    lower: &[f64],
    upper: &[f64],
    a: &[f64],
    row_lower: &[f64],
    row_upper: &[f64],
    start: &[f64],
    n: usize,
    m: usize,
    r: usize,
    x: &mut [f64],
    multipliers: &mut [f64],
    passes: &mut u64,
) -> u32
    ensures { Piecewise.Answered (bounded n m r q.now c.now e.now b.now lower.now
        upper.now a.now row_lower.now row_upper.now start.now) result
        x.old x.new multipliers.old multipliers.new passes.old passes.new }
{
    piecewise::solve_bounded(
        q,
        c,
        e,
        b,
        lower,
        upper,
        a,
        row_lower,
        row_upper,
        start,
        n,
        m,
        r,
        x,
        multipliers,
        passes,
    )
}

// The same with a cost of slopesᵢ|xᵢ − atᵢ| for each variable.
#[unsafe(no_mangle)]
pub extern "C" fn places_solve_piecewise(
    q: &[f64],
    c: &[f64],
    e: &[f64],
    b: &[f64],
    lower: &[f64],
    upper: &[f64],
    a: &[f64],
    row_lower: &[f64],
    row_upper: &[f64],
    at: &[f64],
    slopes: &[f64],
    start: &[f64],
    n: usize,
    m: usize,
    r: usize,
    x: &mut [f64],
    multipliers: &mut [f64],
    passes: &mut u64,
) -> u32
    ensures { Piecewise.Answered (quadratic n m r q.now c.now e.now b.now lower.now
        upper.now a.now row_lower.now row_upper.now at.now slopes.now
        start.now) result
        x.old x.new multipliers.old multipliers.new passes.old passes.new }
{
    piecewise::solve_piecewise(
        q,
        c,
        e,
        b,
        lower,
        upper,
        a,
        row_lower,
        row_upper,
        at,
        slopes,
        start,
        n,
        m,
        r,
        x,
        multipliers,
        passes,
    )
}

// The same with Σᵢ|xᵢ − atᵢ| at most `cap`, by a raise of every slope.
#[unsafe(no_mangle)]
pub extern "C" fn places_solve_turnover_capped(
    q: &[f64],
    c: &[f64],
    e: &[f64],
    b: &[f64],
    lower: &[f64],
    upper: &[f64],
    a: &[f64],
    row_lower: &[f64],
    row_upper: &[f64],
    at: &[f64],
    slopes: &[f64],
    start: &[f64],
    cap: f64,
    n: usize,
    m: usize,
    r: usize,
    x: &mut [f64],
    multipliers: &mut [f64],
    passes: &mut u64,
    raise: &mut f64,
) -> u32
    ensures { Capped.Answered (quadratic n m r q.now c.now e.now b.now lower.now
        upper.now a.now row_lower.now row_upper.now at.now slopes.now
        start.now) cap result
        x.old x.new multipliers.old multipliers.new passes.old passes.new
        raise.old raise.new }
{
    cap::solve_turnover_capped(
        q,
        c,
        e,
        b,
        lower,
        upper,
        a,
        row_lower,
        row_upper,
        at,
        slopes,
        start,
        cap,
        n,
        m,
        r,
        x,
        multipliers,
        passes,
        raise,
    )
}
