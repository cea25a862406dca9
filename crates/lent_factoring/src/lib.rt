// The kept factor, lent by mutable reference and changed there (document 01); each call is proved equal to the by-value one of `factoring`.
#![tactic(auto)]

ghost use Rattle.std.specs.Prelude.{◌≡◌};
ghost use Rattle.factoring.specs.Kept.{factor, kept_of};
ghost use Rattle.factoring.specs.Kept as Kept;

use factoring::Factoring;

// Drops the factor.
pub fn reset(f: &mut Factoring)
    ensures { kept_of f.new ≡ Kept.reset (kept_of f.old) }
{
    *f = (*f).reset();
}

pub fn update(
    f: &mut Factoring,
    q: &[f64],
    n: usize,
    originals: usize,
    indices: &[usize],
    l: &mut [f64],
    room: &mut [f64],
)
    requires { Kept.Updatable n originals q.now indices.now f.old l.old room.old }
    ensures l_after { factor (kept_of f.new) l.new
        ≡ Kept.update q.now n indices.now (kept_of f.old) l.old }
    ensures good { Kept.Good originals f.new l.new }
{
    *f = (*f).update(q, n, originals, indices, l, room);
}

// The same for a caller that holds the record by value: these contracts name no reference to it.
pub fn dropped(f: Factoring) -> Factoring
    ensures { kept_of result ≡ Kept.reset (kept_of f) }
{
    let mut kept = f;
    reset(&mut kept);
    kept
}

pub fn updated(
    f: Factoring,
    q: &[f64],
    n: usize,
    originals: usize,
    indices: &[usize],
    l: &mut [f64],
    room: &mut [f64],
) -> Factoring
    requires { Kept.Updatable n originals q.now indices.now f l.old room.old }
    ensures l_after { factor (kept_of result) l.new ≡ Kept.update q.now n indices.now (kept_of f) l.old }
    ensures good { Kept.Good originals result l.new }
{
    let mut next = f;
    update(&mut next, q, n, originals, indices, l, room);
    next
}
