// qp.rs, the tuple `(k, c, e, b)` of Kx + Eλ = c, Eᵀx = b.
#![tactic(auto)]

ghost use Rattle.scaled.specs.System.{Sized};

// K is n by n, c has n elements, E is n by m, b has m.
#[derive(Clone, Copy)]
pub struct System<'a> {
    pub k: &'a [f64],
    pub c: &'a [f64],
    pub e: &'a [f64],
    pub b: &'a [f64],
    pub n: usize,
    pub m: usize,
    pub ghost sized: { Sized n m k.now c.now e.now b.now },
}
