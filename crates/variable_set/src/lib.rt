// Sets of the first `originals` variables: as a mark for each, and as a list in rising order.
// qp.rs, `updated`: how many of the listed variables join those of a factor, and whether that many are better factored afresh.
#![tactic(auto)]

ghost use Rattle.std.specs.Prelude.{◌≡◌, ◌≤◌, ◌<◌, ◌+◌, length};
ghost use Rattle.folds.specs.Fold.{over};
ghost use Rattle.folds.specs.Marks as Marks;
ghost use Rattle.sizes.specs.Sizes as Sizes;
ghost use Rattle.vector.specs.Vector.{Below};
ghost use Rattle.variable_set.specs.Joining as Joining;
ghost use Rattle.variable_set.specs.Marked as Marked;

// A list as marks.
pub fn marks(list: &[usize]) -> [bool; sizes::ORIGINALS]
    requires { Below (length list.now) list.now Sizes.originals }
    ensures { result ≡ Marks.marks Sizes.originals list.now }
{
    let mut s = [false; sizes::ORIGINALS];
    for i in list {
        s[*i] = true;
    }
    s
}

// The marked below n, in rising order, at the start of list; how many there are.
pub fn rising(s: [bool; sizes::ORIGINALS], n: usize, list: &mut [usize]) -> usize
    requires { (n ≤ Sizes.originals) × (n ≤ length list.old) }
    ensures value { result ≡ length (Marks.rising n s) }
    ensures list_after { list.new ≡ over (Marks.rising n s) list.old }
{
    let mut m = 0;
    for (i, on) in s[..n].iter().enumerate() {
        m = vector::push_if(*on, i, m, list);
    }
    m
}

// How many are marked below i: the place of i among them.
pub fn place(s: [bool; sizes::ORIGINALS], i: usize) -> usize
    requires { i ≤ Sizes.originals }
    ensures { result ≡ Marks.place s i }
{
    let mut list = [0; sizes::ORIGINALS];
    rising(s, i, &mut list)
}

fn count_if_new(held: [bool; sizes::ORIGINALS], i: usize, m: usize) -> usize
    requires { (i < Sizes.originals) × (m < Sizes.originals) }
    ensures value { result ≡ Marked.count_if_new held i m }
    ensures upper_bound { result ≤ m + 1 }
{
    if held[i] {
        return m;
    }
    m + 1
}

// How many of the listed are not held.
pub fn joining(held: [bool; sizes::ORIGINALS], indices: &[usize]) -> usize
    requires { (length indices.now ≤ Sizes.originals) × Below (length indices.now) indices.now Sizes.originals }
    ensures value { result ≡ Marked.joining held indices.now }
    ensures upper_bound { result ≤ length indices.now }
{
    let mut m = 0;
    for i in indices {
        m = count_if_new(held, *i, m);
    }
    m
}

// Whether so many joining, of so many listed, are better factored afresh.
pub fn afresh(joining: usize, listed: usize) -> bool
    requires { joining ≤ Sizes.originals }
    ensures { result ≡ Joining.afresh joining listed }
{
    6 * joining > listed
}
