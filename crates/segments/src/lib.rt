// qp.rs: `Segments`, `State`, a variable's start in `solve_piecewise_in_units`, and the freeing of all, up to 48 variables and slacks.
#![tactic(auto)]

ghost use Rattle.std.specs.Prelude.{◌≡◌, ◌≤◌, ◌<◌, length, take};
ghost use Rattle.sizes.specs.Sizes as Sizes;
ghost use Rattle.arith.specs.Float.{at as element_at};
ghost use Rattle.segments.specs.Segments as Definition;
ghost use Rattle.segments.specs.Segments.{Cut, AllCut, IsFree, Placed, AllPlaced};
ghost use Rattle.segments.specs.Start as Start;
ghost use Rattle.segments.specs.Freeing as Freeing;

// One variable's range, cut at its kink when that lies strictly inside: `count` points, and a slope for each segment between two of them.
// What stands past them is never read: without a heap, arrays of three and two, and a count.
#[derive(Clone, Copy)]
pub struct Segments {
    pub points: [f64; 3],
    pub slopes: [f64; 2],
    pub count: usize,
}

// Where a variable is: held at one of its segments' end points, or free inside a segment.
#[derive(Clone, Copy)]
pub enum State {
    At(usize),
    Free(usize),
}

// The segment that a free variable is in. No other is asked: the source's two `unreachable!`.
pub fn segment_of(state: State) -> usize
    requires { IsFree state }
    ensures { state ≡ State.Free result }
{
    match state {
        State::Free(j) => j,
        State::At(p) => p,
    }
}

fn cuts(lower: f64, upper: f64, at: f64, slope: f64) -> bool
    ensures { result ≡ Definition.cuts lower upper at slope }
{
    slope > 0.0 && lower < at && at < upper
}

// The slope of a range that its kink doesn't cut.
fn side(lower: f64, at: f64, slope: f64) -> f64
    ensures { result ≡ Definition.side lower at slope }
{
    if slope > 0.0 {
        if at <= lower {
            return slope;
        }
        return -slope;
    }
    0.0
}

impl Segments {
    pub fn new(lower: f64, upper: f64, at: f64, slope: f64) -> Segments
        ensures value { result ≡ Definition.new lower upper at slope }
        ensures cut { Cut result }
    {
        if cuts(lower, upper, at, slope) {
            return Segments {
                points: [lower, at, upper],
                slopes: [-slope, slope],
                count: 3,
            };
        }
        let s = side(lower, at, slope);
        Segments {
            points: [lower, upper, 0.0],
            slopes: [s, 0.0],
            count: 2,
        }
    }

    pub fn last(self) -> usize
        requires { Cut self }
        ensures { result ≡ Definition.last self }
    {
        self.count - 1
    }

    pub fn point(self, p: usize) -> f64
        requires { Cut self × (p ≤ Definition.last self) }
        ensures { result ≡ element_at self.points p }
    {
        self.points[p]
    }

    pub fn slope(self, j: usize) -> f64
        requires { Cut self × (j < Definition.last self) }
        ensures { result ≡ element_at self.slopes j }
    {
        self.slopes[j]
    }

    // A lower bound at or above the upper.
    pub fn fixed(self) -> bool
        requires { Cut self }
        ensures { result ≡ Start.fixed self }
    {
        self.point(0) >= self.point(self.last())
    }

    // `start`, held to the range.
    pub fn held(self, start: f64) -> f64
        requires { Cut self }
        ensures { result ≡ Start.held self start }
    {
        if self.fixed() {
            return self.point(0);
        }
        arith::clamp(start, self.point(0), self.point(self.last()))
    }

    // The points that count.
    fn points(&self) -> &[f64]
        requires { Cut self.now }
        ensures { result.now ≡ take self.now.count self.now.points }
    {
        &self.points[..self.count]
    }

    // The last point below x, or 0.
    fn below(self, x: f64) -> usize
        requires { Cut self }
        ensures { result ≡ Start.below self x }
    {
        self.points().iter().rposition(|p| *p < x).unwrap_or(0)
    }

    // The first point equal to x, or else the segment x is in.
    fn inside(self, x: f64) -> State
        requires { Cut self }
        ensures { result ≡ Start.inside self x }
    {
        match self.points().iter().position(|p| *p == x) {
            Some(p) => State::At(p),
            None => State::Free(self.below(x)),
        }
    }

    // Where a variable at x starts.
    pub fn place(self, x: f64) -> State
        requires { Cut self }
        ensures value { result ≡ Start.place self x }
        ensures placed { Placed self result }
    {
        if self.fixed() {
            return State::At(0);
        }
        if x <= self.point(0) {
            return State::At(0);
        }
        if x >= self.point(self.last()) {
            return State::At(self.last());
        }
        self.inside(x)
    }
}

// A held variable goes into the segment above its point, or the last one.
fn freed(state: State, s: Segments) -> State
    requires { Cut s }
    ensures { result ≡ Freeing.freed state s }
{
    match state {
        State::At(p) => State::Free(p.min(s.last() - 1)),
        State::Free(j) => State::Free(j),
    }
}

fn free_one(fixed: bool, state: State, s: Segments) -> State
    requires { Cut s }
    ensures { result ≡ Freeing.free_one fixed state s }
{
    if fixed {
        return state;
    }
    freed(state, s)
}

// Every one of the first n that isn't fixed is freed at once. By index: of what is written through a zip's `iter_mut` the library says nothing.
pub fn free_all(
    state: [State; sizes::VARIABLES],
    segments: [Segments; sizes::VARIABLES],
    fixed: &[bool],
    n: usize,
) -> [State; sizes::VARIABLES]
    requires { (n ≤ Sizes.variables) × (n ≤ length fixed.now) × AllCut n segments × AllPlaced n segments state }
    ensures value { result ≡ Freeing.free_all n segments fixed.now state }
    ensures all_placed { AllPlaced n segments result }
{
    let mut next = state;
    for i in 0..n {
        next[i] = free_one(fixed[i], next[i], segments[i]);
    }
    next
}
