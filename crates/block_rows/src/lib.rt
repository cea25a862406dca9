// The rows of a block that the engine gets, its anchors and spans with their values and ends, as floats. The definitions are specs/Rows.antt;
// matrices are stored column after column.
#![tactic(auto)]

ghost use Rattle.std.specs.Prelude.{◌≡◌, ◌+◌, ◌*◌, ◌≤◌, length, ℤ};
ghost use Rattle.std.specs.Fn.{FnReturnsAt};
ghost use Rattle.folds.specs.Part.{with_part};
ghost use Rattle.block.specs.Block as Spec;
ghost use Rattle.block.specs.Ranges.{Ranged, RangedList};
ghost use Rattle.format.specs.Structs.{Filled, Sound, list_of, block_of};
ghost use Rattle.block_rows.specs.Ends.{Gives, GivesSmall};
ghost use Rattle.block_rows.specs.Rows as Rows;

use block_floats::whole;
use format::{Block, Pairs, Span};
use vector::fill;

// A list's coefficients, 0 for a word that is not in it.
fn column(l: Pairs, y: &mut [f64])
    requires filled { Filled l }
    requires ranged_list { RangedList (length y.old) (list_of l) }
    ensures { y.new ≡ Rows.column (length y.old) (list_of l) }
{
    fill(y, y.len(), 0.0);
    for p in l.pairs() {
        y[p.word as usize] = whole(p.coef);
    }
}

// Column k of a matrix of n rows.
fn put_column(l: Pairs, n: usize, k: usize, a: &mut [f64])
    requires filled { Filled l }
    requires ranged_list { RangedList n (list_of l) }
    requires n_in_bounds { n + k * n ≤ length a.old }
    ensures { a.new ≡ with_part (k * n) (n + k * n) a.old (Rows.column n (list_of l)) }
{
    let start = k * n;
    let end = n + start;
    column(l, &mut a[start..end]);
}

// A column for each anchor.
pub fn anchor_columns(b: Block, e: &mut [f64])
    requires sound { Sound b }
    requires ranged { Ranged (block_of b) }
    requires e_len { length e.old ≡ b.words * b.anchors }
    ensures { e.new ≡ Rows.anchor_columns (block_of b) }
{
    for (k, a) in b.anchors().iter().enumerate() {
        put_column(a.list, b.words, k, e);
    }
}

pub fn anchor_values(b: Block, y: &mut [f64])
    requires sound { Sound b }
    requires ranged { Ranged (block_of b) }
    requires y_len { length y.old ≡ b.anchors }
    ensures { y.new ≡ Rows.anchor_values (block_of b) }
{
    for (k, a) in b.anchors().iter().enumerate() {
        y[k] = whole(a.value);
    }
}

// A column for each span: its row of A, transposed. Another type than the anchors: one function for both is no plainer.
pub fn span_columns(b: Block, a: &mut [f64])
    requires sound { Sound b }
    requires ranged { Ranged (block_of b) }
    requires a_len { length a.old ≡ b.words * b.spans }
    ensures { a.new ≡ Rows.span_columns (block_of b) }
{
    for (k, s) in b.spans().iter().enumerate() {
        put_column(s.list, b.words, k, a);
    }
}

// An end of each span.
fn each_span<F: Fn(&Span) -> i64>(b: Block, end: F, y: &mut [f64])
    requires sound { Sound b }
    requires ranged { Ranged (block_of b) }
    requires y_len { length y.old ≡ b.spans }
    requires callable { F.IsAlwaysCallable end }
    requires small { GivesSmall b.words (FnReturnsAt F.Fn end) }
    ensures { (f : Spec.Span → ℤ) → Gives (FnReturnsAt F.Fn end) f → y.new ≡ Rows.each_span f (block_of b) }
{
    for (k, s) in b.spans().iter().enumerate() {
        y[k] = whole(end(s));
    }
}

pub fn span_lowers(b: Block, y: &mut [f64])
    requires sound { Sound b }
    requires ranged { Ranged (block_of b) }
    requires y_len { length y.old ≡ b.spans }
    ensures { y.new ≡ Rows.span_lowers (block_of b) }
{
    each_span(b, |s| s.lower, y);
}

pub fn span_uppers(b: Block, y: &mut [f64])
    requires sound { Sound b }
    requires ranged { Ranged (block_of b) }
    requires y_len { length y.old ≡ b.spans }
    ensures { y.new ≡ Rows.span_uppers (block_of b) }
{
    each_span(b, |s| s.upper, y);
}
