// qp.rs, `updated`: a Cholesky factor of Q's block on the held variables, changed to the block on the listed ones, in place.
// Q is n by n; only its first `originals` variables are held or listed, in rising order. While the held set changes it is a mark for each of them.
#![tactic(auto)]

ghost use Rattle.std.specs.Prelude.{◌≡◌, true, false, ◌≤◌, ◌<◌, length, MatchOption};
ghost use Rattle.folds.specs.Fold.{out, over};
ghost use Rattle.folds.specs.Marks as Marks;
ghost use Rattle.variable_set.specs.Rising.{Rising};
ghost use Rattle.leaving.specs.Room.{Room};
ghost use Rattle.leaving.specs.Held.{held};
ghost use Rattle.factor_update.specs.Factor as Factor;
ghost use Rattle.factor_update.specs.Held as Held;
ghost use Rattle.factor_update.specs.Block.{Block};

// Column i of q on the marked variables, at the start of y.
fn column_on(
    q: &[f64],
    n: usize,
    originals: usize,
    s: [bool; sizes::ORIGINALS],
    i: usize,
    y: &mut [f64],
)
    requires { Block n originals q.now × (i < originals) × (originals ≤ length y.old) }
    ensures { y.new ≡ over (Factor.column_on q.now n (Marks.rising originals s) i) y.old }
{
    let mut list = [0; sizes::ORIGINALS];
    let k = variable_set::rising(s, originals, &mut list);
    vector::select(columns::column(q, n, n, i), n, &list[..k], k, y);
}

// With variable i.
fn joined(
    s: [bool; sizes::ORIGINALS],
    l: &mut [f64],
    q: &[f64],
    n: usize,
    originals: usize,
    i: usize,
    room: &mut [f64],
) -> [bool; sizes::ORIGINALS]
    requires { Block n originals q.now
        × Room originals l.old room.old
        × (i < originals)
        × (Marks.marked s i ≡ false) }
    ensures { held result l.new ≡ Held.joined q.now n originals i (held s l.old) }
{
    let k = variable_set::place(s, originals);
    let p = variable_set::place(s, i);
    let mut next = s;
    next[i] = true;
    let mut y = [0.0; sizes::ORIGINALS];
    column_on(q, n, originals, next, i, &mut y);
    let m = k + 1;
    update::insert_column(l, k, p, &y[..m], room);
    next
}

// With variable i, where it is wanted; None where a pivot then fails.
fn join_one(
    s: [bool; sizes::ORIGINALS],
    l: &mut [f64],
    q: &[f64],
    n: usize,
    originals: usize,
    wanted: [bool; sizes::ORIGINALS],
    i: usize,
    room: &mut [f64],
) -> Option<[bool; sizes::ORIGINALS]>
    requires { Block n originals q.now × Room originals l.old room.old × (i < originals) }
    ensures { MatchOption result
        ((m : _) × (out false (held m l.new) ≡ Held.join_one q.now n originals wanted i (held s l.old)))
        (λ m. out true (held m l.new) ≡ Held.join_one q.now n originals wanted i (held s l.old)) }
{
    if wanted[i] {
        if s[i] {
            return Some(s);
        }
        let next = joined(s, l, q, n, originals, i, room);
        let k = variable_set::place(next, originals);
        if cholesky::positive_definite(&l[..], k) {
            return Some(next);
        }
        return None;
    }
    Some(s)
}

// Each wanted variable that is not held joins, the first first, until a pivot fails.
fn joins(
    start: [bool; sizes::ORIGINALS],
    l: &mut [f64],
    q: &[f64],
    n: usize,
    originals: usize,
    wanted: [bool; sizes::ORIGINALS],
    room: &mut [f64],
) -> bool
    requires { Block n originals q.now × Room originals l.old room.old }
    ensures { out result l.new
        ≡ Held.factor_of (Held.joins q.now n originals wanted (held start l.old)) }
{
    let mut s = start;
    // By the variable's number, which is asked for in the sets of before and after.
    for i in 0..originals {
        match join_one(s, l, q, n, originals, wanted, i, room) {
            Some(next) => s = next,
            None => return false,
        }
    }
    true
}

// The factor l of q's block on `held`, changed to the block on `indices`; false for none.
pub fn updated(
    q: &[f64],
    n: usize,
    originals: usize,
    held: &[usize],
    indices: &[usize],
    l: &mut [f64],
    room: &mut [f64],
) -> bool
    requires { Block n originals q.now
        × Room originals l.old room.old
        × Rising originals held.now
        × Rising originals indices.now }
    ensures { out result l.new
        ≡ Factor.updated q.now n held.now l.old indices.now }
{
    let from = variable_set::marks(held);
    if variable_set::afresh(variable_set::joining(from, indices), indices.len()) {
        return false;
    }
    let wanted = variable_set::marks(indices);
    let stayed = leaving::leaving(from, l, originals, wanted, room);
    joins(stayed, l, q, n, originals, wanted, room)
}
