// qp.rs, `Factoring`, by value: the factor of Q's block on the free variables, kept from one iteration to the next.
// Q is n by n; only its first `originals` variables are listed, in rising order. The factor itself is lent, as l, and stands over its start.
#![tactic(auto)]

ghost use Rattle.std.specs.Prelude.{◌≡◌, true, ◌≤◌, ◌*◌, length};
ghost use Rattle.folds.specs.Fold.{out};
ghost use Rattle.sizes.specs.Sizes as Sizes;
ghost use Rattle.vector.specs.Vector.{Below};
ghost use Rattle.variable_set.specs.Rising.{Rising};
ghost use Rattle.leaving.specs.Room.{Room};
ghost use Rattle.factor_update.specs.Block.{Block};
ghost use Rattle.factoring.specs.Kept.{factor, kept_of};
ghost use Rattle.factoring.specs.Kept as Kept;

// A set of variables is a mark for each.
#[derive(Clone, Copy)]
pub struct Factoring {
    // Whether there is a factor, and the variables of its block.
    pub factored: bool,
    pub held: [bool; sizes::ORIGINALS],
    // Whether a block was singular, or nearly so, and the variables of the last.
    pub failed: bool,
    pub singular: [bool; sizes::ORIGINALS],
}

// s.iter().all(|i| indices.binary_search(i).is_ok())
fn contains_all(indices: &[usize], s: &[usize]) -> bool
    requires { Below (length indices.now) indices.now Sizes.originals × Below (length s.now) s.now Sizes.originals }
    ensures { result ≡ Kept.contains_all indices.now s.now }
{
    let listed = variable_set::marks(indices);
    for i in s {
        if !listed[*i] {
            return false;
        }
    }
    true
}

// Whether the block on `indices` contains the last singular one.
fn contains_singular(failed: bool, singular: [bool; sizes::ORIGINALS], indices: &[usize]) -> bool
    requires { Below (length indices.now) indices.now Sizes.originals }
    ensures { result ≡ Kept.contains_singular indices.now (Kept.option_of failed singular) }
{
    if failed {
        let mut list = [0; sizes::ORIGINALS];
        let k = variable_set::rising(singular, sizes::ORIGINALS, &mut list);
        return contains_all(indices, &list[..k]);
    }
    false
}

// Cholesky::new(a).filter(positive_definite), in place.
pub fn definite(a: &mut [f64], k: usize) -> bool
    requires { k * k ≤ length a.old }
    ensures { out result a.new ≡ Kept.definite k a.old }
{
    if cholesky::cholesky(a, k) {
        return cholesky::positive_definite(&a[..], k);
    }
    false
}

// The factor of q's block on `indices` over the start of l; the block's rows go to room.
pub fn fresh(q: &[f64], n: usize, indices: &[usize], l: &mut [f64], room: &mut [f64]) -> bool
    requires { (n * n ≤ length q.now)
        × Below (length indices.now) indices.now n
        × (length indices.now * length indices.now ≤ length l.old)
        × (length indices.now * n ≤ length room.old) }
    ensures { out result l.new ≡ Kept.fresh q.now n indices.now l.old }
{
    let k = indices.len();
    let rows = k * n;
    matrix::select_rows(q, n, n, indices, k, room);
    matrix::select_columns(&room[..rows], k, n, indices, k, l);
    definite(l, k)
}

// Whether there is a last factor l, of the block on `held`, that could be updated.
fn last_updated(
    factored: bool,
    held: [bool; sizes::ORIGINALS],
    q: &[f64],
    n: usize,
    originals: usize,
    indices: &[usize],
    l: &mut [f64],
    room: &mut [f64],
) -> bool
    requires { Block n originals q.now
        × Room originals l.old room.old
        × (factored ≡ true → Rising originals (Kept.list_of held))
        × Rising originals indices.now }
    ensures { out result l.new
        ≡ Kept.last_updated q.now n indices.now (Kept.option_of factored held) l.old }
{
    if factored {
        let mut list = [0; sizes::ORIGINALS];
        let k = variable_set::rising(held, sizes::ORIGINALS, &mut list);
        return factor_update::updated(q, n, originals, &list[..k], indices, l, room);
    }
    false
}

impl Factoring {
    pub fn new() -> Self
        ensures { kept_of result ≡ Kept.new }
    {
        Factoring {
            factored: false,
            held: [false; sizes::ORIGINALS],
            failed: false,
            singular: [false; sizes::ORIGINALS],
        }
    }

    // Drops the factor.
    pub fn reset(self) -> Self
        ensures { kept_of result ≡ Kept.reset (kept_of self) }
    {
        let mut f = self;
        f.factored = false;
        f
    }

    fn with_factor(self, indices: &[usize]) -> Self
        requires { Rising Sizes.originals indices.now }
        ensures { kept_of result ≡ Kept.with_factor indices.now (kept_of self) }
    {
        let held = variable_set::marks(indices);
        let mut f = self;
        f.factored = true;
        f.held = held;
        f
    }

    fn with_singular(self, indices: &[usize]) -> Self
        requires { Rising Sizes.originals indices.now }
        ensures { kept_of result ≡ Kept.with_singular indices.now (kept_of self) }
    {
        let singular = variable_set::marks(indices);
        let mut f = self;
        f.factored = false;
        f.failed = true;
        f.singular = singular;
        f
    }

    // The factor of the block computed afresh, unless the block contains the last singular one.
    fn afresh(self, q: &[f64], n: usize, indices: &[usize], l: &mut [f64], room: &mut [f64]) -> Self
        requires { (n * n ≤ length q.now)
            × Rising Sizes.originals indices.now
            × Below (length indices.now) indices.now n
            × (length indices.now * length indices.now ≤ length l.old)
            × (length indices.now * n ≤ length room.old) }
        ensures { factor (kept_of result) l.new
            ≡ Kept.afresh q.now n indices.now (kept_of self) l.old }
    {
        let singular = self.singular;
        if contains_singular(self.failed, singular, indices) {
            return self.reset();
        }
        if fresh(q, n, indices, l, room) {
            return self.with_factor(indices);
        }
        self.with_singular(indices)
    }

    // The factor of q's block on `indices`: updated from the last one where that can be done, and otherwise computed afresh.
    // `factored` says afterwards whether there is one.
    pub fn update(
        self,
        q: &[f64],
        n: usize,
        originals: usize,
        indices: &[usize],
        l: &mut [f64],
        room: &mut [f64],
    ) -> Self
        requires { Kept.Updatable n originals q.now indices.now self l.old room.old }
        ensures l_after { factor (kept_of result) l.new
            ≡ Kept.update q.now n indices.now (kept_of self) l.old }
        ensures good { Kept.Good originals result l.new }
    {
        let held = self.held;
        if last_updated(self.factored, held, q, n, originals, indices, l, room) {
            return self.with_factor(indices);
        }
        self.afresh(q, n, indices, l, room)
    }
}
