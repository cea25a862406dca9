// qp.rs: the free variables of a pass: their list, its split into variables and slacks, and the ends and slopes of their segments.
#![tactic(auto)]

ghost use Rattle.std.specs.Prelude.{◌≡◌, ◌≤◌, length, take};
ghost use Rattle.folds.specs.Fold.{over};
ghost use Rattle.folds.specs.Position.{partition_point};
ghost use Rattle.sizes.specs.Sizes as Sizes;
ghost use Rattle.free_list.specs.FreeList as FreeList;
ghost use Rattle.free_list.specs.FreeList.{Listed};

use segments::{Segments, State};

// The variables, the leading part of `indices`; the slacks are the rest.
pub fn split_slacks<'a>(indices: &'a [usize], originals: usize) -> &'a [usize]
    ensures { result.now ≡ take (partition_point originals indices.now) indices.now }
{
    match indices.iter().position(|i| *i >= originals) {
        Some(count) => &indices[..count],
        None => indices,
    }
}

fn is_free(state: State) -> bool
    ensures { result ≡ FreeList.is_free state }
{
    matches!(state, State::Free(_))
}

// The free ones of the first n, over the start of `indices`, and how many they are.
pub fn free_indices(state: [State; sizes::VARIABLES], n: usize, indices: &mut [usize]) -> usize
    requires { (n ≤ Sizes.variables) × (n ≤ length indices.old) }
    ensures { (result ≡ length (FreeList.free_indices n state))
        × (indices.new ≡ over (FreeList.free_indices n state) indices.old) }
{
    let mut count = 0;
    for (i, state) in state[..n].iter().enumerate() {
        count = vector::push_if(is_free(*state), i, count, indices);
    }
    count
}

// Each listed variable's segment: its ends, and the slope on it.
pub fn ends_and_slopes(
    segments: [Segments; sizes::VARIABLES],
    state: [State; sizes::VARIABLES],
    indices: &[usize],
    lower: &mut [f64],
    upper: &mut [f64],
    slope: &mut [f64],
)
    requires { Listed indices.now segments state
        × (length indices.now ≤ length lower.old)
        × (length indices.now ≤ length upper.old)
        × (length indices.now ≤ length slope.old) }
    ensures { (lower.new
        ≡ over (FreeList.lower_ends (length indices.now) indices.now segments state) lower.old)
        × (upper.new
        ≡ over (FreeList.upper_ends (length indices.now) indices.now segments state) upper.old)
        × (slope.new
        ≡ over (FreeList.slopes (length indices.now) indices.now segments state) slope.old) }
{
    lent_segments::ends_and_slopes(&segments, state, indices, lower, upper, slope);
}
