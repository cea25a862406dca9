// qp.rs, `updated`, its first loop: the variables of a Cholesky factor that are no longer listed leave it, in place.
// Only the first `originals` variables are held or listed. While the held set changes it is a mark for each of them.
#![tactic(auto)]

ghost use Rattle.std.specs.Prelude.{◌≡◌, true, ◌<◌};
ghost use Rattle.folds.specs.Marks as Marks;
ghost use Rattle.leaving.specs.Held as Held;
ghost use Rattle.leaving.specs.Room.{Room};

// Without variable i.
fn left(
    s: [bool; sizes::ORIGINALS],
    l: &mut [f64],
    originals: usize,
    i: usize,
    room: &mut [f64],
) -> [bool; sizes::ORIGINALS]
    requires { Room originals l.old room.old × (i < originals) × (Marks.marked s i ≡ true) }
    ensures { Held.held result l.new ≡ Held.left originals i (Held.held s l.old) }
{
    let k = variable_set::place(s, originals);
    let p = variable_set::place(s, i);
    update::remove_column(l, k, p, room);
    let mut next = s;
    next[i] = false;
    next
}

fn leave_one(
    s: [bool; sizes::ORIGINALS],
    l: &mut [f64],
    originals: usize,
    wanted: [bool; sizes::ORIGINALS],
    i: usize,
    room: &mut [f64],
) -> [bool; sizes::ORIGINALS]
    requires { Room originals l.old room.old × (i < originals) }
    ensures { Held.held result l.new ≡ Held.leave_one originals wanted i (Held.held s l.old) }
{
    if s[i] {
        if wanted[i] {
            return s;
        }
        return left(s, l, originals, i, room);
    }
    s
}

// Each held variable that is not wanted leaves, the last first.
pub fn leaving(
    start: [bool; sizes::ORIGINALS],
    l: &mut [f64],
    originals: usize,
    wanted: [bool; sizes::ORIGINALS],
    room: &mut [f64],
) -> [bool; sizes::ORIGINALS]
    requires { Room originals l.old room.old }
    ensures { Held.held result l.new ≡ Held.leaving originals wanted (Held.held start l.old) }
{
    let mut s = start;
    // By the variable's number, which is asked for in both sets.
    for i in (0..originals).rev() {
        let next = leave_one(s, l, originals, wanted, i, room);
        s = next;
    }
    s
}
