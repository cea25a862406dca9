// The terms of a block's cost that the engine gets: Q and c, as floats. The definitions are specs/Cost.antt; Q is stored column after column.
#![tactic(auto)]

ghost use Rattle.std.specs.Prelude.{◌≡◌, ◌*◌, ◌<◌, ◌≤◌, length};
ghost use Rattle.block.specs.Ranges.{Ranged, RangedList, RangedTempo};
ghost use Rattle.format.specs.Structs.{Filled, Sound, list_of, tempo_of, block_of};
ghost use Rattle.block_cost.specs.Cost as Cost;

use block_floats::whole;
use format::{Block, Pairs, Tempo};
use vector::fill;

// a[k] += v
fn plus_at(a: &mut [f64], k: usize, v: f64)
    requires { k < length a.old }
    ensures { a.new ≡ Cost.plus_at a.old k v }
{
    a[k] += v;
}

// Row i of a tempo's products: w is weight × the coefficient of word i.
fn add_row(l: Pairs, n: usize, i: usize, w: f64, q: &mut [f64])
    requires filled { Filled l }
    requires ranged_list { RangedList n (list_of l) }
    requires i_lt_n { (i < n) × (n ≤ 32) × (length q.old ≡ n * n) }
    ensures { q.new ≡ Cost.add_row n (list_of l) i w q.old }
{
    for p in l.pairs() {
        let j = p.word as usize;
        plus_at(q, i + j * n, w * whole(p.coef));
    }
}

// A tempo's products.
fn add_products(t: Tempo, n: usize, q: &mut [f64])
    requires filled { Filled t.list }
    requires ranged_tempo { RangedTempo n (tempo_of t) }
    requires n_bound { (n ≤ 32) × (length q.old ≡ n * n) }
    ensures { q.new ≡ Cost.add_products n (tempo_of t) q.old }
{
    let weight = std::num::nearest_u64_to_f64(t.weight);
    for p in t.list.pairs() {
        let i = p.word as usize;
        add_row(t.list, n, i, weight * whole(p.coef), q);
    }
}

// Q adds weight × coefficient products.
pub fn hessian(b: Block, q: &mut [f64])
    requires sound { Sound b }
    requires ranged { Ranged (block_of b) }
    requires q_len { length q.old ≡ b.words * b.words }
    ensures { q.new ≡ Cost.hessian (block_of b) }
{
    let n = b.words;
    fill(q, n * n, 0.0);
    for t in b.tempos() {
        add_products(*t, n, q);
    }
}

// What a tempo adds to c.
fn add_targets(t: Tempo, c: &mut [f64])
    requires filled { Filled t.list }
    requires ranged_tempo { RangedTempo (length c.old) (tempo_of t) }
    ensures { c.new ≡ Cost.add_targets (tempo_of t) c.old }
{
    let weight = std::num::nearest_u64_to_f64(t.weight);
    let target = whole(t.target);
    let w = weight * target;
    for p in t.list.pairs() {
        plus_at(c, p.word as usize, w * whole(p.coef));
    }
}

// c adds weight × target × coefficient.
pub fn linear(b: Block, c: &mut [f64])
    requires sound { Sound b }
    requires ranged { Ranged (block_of b) }
    requires c_len { length c.old ≡ b.words }
    ensures { c.new ≡ Cost.linear (block_of b) }
{
    fill(c, b.words, 0.0);
    for t in b.tempos() {
        add_targets(*t, c);
    }
}
