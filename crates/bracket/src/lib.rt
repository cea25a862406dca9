// qp.rs, `search_multiplier`'s bracket: a value whose steps take it and hand it back.
#![tactic(auto)]

ghost use Rattle.std.specs.Prelude.{◌≡◌};
ghost use Rattle.sizes.specs.Sizes as Sizes;
ghost use Rattle.bracket.specs.Bracket as Definition;

// The multiplier lies from `low` to `high`, with the values there; `middle` is where the next solve between them stands. In the doubling `high` is
// still to be solved at, from `warm`; then the best solution, with its multipliers and passes, is the one at `high`.
#[derive(Clone, Copy)]
pub struct Bracket {
    pub low: f64,
    pub low_value: f64,
    pub middle: f64,
    pub high: f64,
    pub high_value: f64,
    pub best: [f64; sizes::VARIABLES],
    pub multipliers: [f64; sizes::COLUMNS],
    pub passes: usize,
    pub warm: [f64; sizes::VARIABLES],
    pub even: bool,
}

impl Bracket {
    // From 0, with the value there, up to the first multiplier.
    pub fn new(low_value: f64, warm: [f64; sizes::VARIABLES], first: f64) -> Bracket
        ensures { result ≡ Definition.new Sizes.columns low_value warm first }
    {
        Bracket {
            low: 0.0,
            low_value: low_value,
            middle: 0.0,
            high: first,
            high_value: 0.0,
            best: warm,
            multipliers: [0.0; sizes::COLUMNS],
            passes: 0,
            warm: warm,
            even: true,
        }
    }

    // Past the limit at a multiplier.
    pub fn exceed(self, at: f64, value: f64) -> Bracket
        ensures { result ≡ Definition.exceed at value self }
    {
        let mut b = self;
        b.low = at;
        b.low_value = value;
        b
    }

    // Within the limit at a multiplier, by a solution.
    pub fn accept(
        self,
        at: f64,
        value: f64,
        x: [f64; sizes::VARIABLES],
        multipliers: [f64; sizes::COLUMNS],
        passes: usize,
    ) -> Bracket
        ensures { result ≡ Definition.accept at value x multipliers passes self }
    {
        let mut b = self;
        b.high = at;
        b.high_value = value;
        b.best = x;
        b.multipliers = multipliers;
        b.passes = passes;
        b
    }

    // The next solve of the doubling starts from x.
    pub fn warmed(self, x: [f64; sizes::VARIABLES]) -> Bracket
        ensures { result ≡ Definition.warmed x self }
    {
        let mut b = self;
        b.warm = x;
        b
    }

    pub fn double(self) -> Bracket
        ensures { result ≡ Definition.double self }
    {
        let mut b = self;
        b.high = b.high * 2.0;
        b
    }

    // The middle where the line through the values at both ends meets the limit. It may be a NaN.
    pub fn secant(self, limit: f64) -> Bracket
        ensures { result ≡ Definition.secant limit self }
    {
        let mut b = self;
        b.middle = b.low + (b.low_value - limit) / (b.low_value - b.high_value) * (b.high - b.low);
        b.even = !b.even;
        b
    }

    pub fn halve(self) -> Bracket
        ensures { result ≡ Definition.halve self }
    {
        let mut b = self;
        b.middle = b.low + (b.high - b.low) / 2.0;
        b.even = !b.even;
        b
    }

    // Whether the middle lies between the ends. A NaN does not.
    pub fn inside(self) -> bool
        ensures { result ≡ Definition.inside self }
    {
        if self.middle > self.low {
            return self.middle < self.high;
        }
        false
    }

    // The secant at every other step, if it lies between the ends, and else the half.
    pub fn cut(self, limit: f64) -> Bracket
        ensures { result ≡ Definition.cut limit self }
    {
        if self.even {
            let s = self.secant(limit);
            if s.inside() {
                return s;
            }
            return self.halve();
        }
        self.halve()
    }

    // Whether no float lies between the ends where the middle is.
    pub fn closed(self) -> bool
        ensures { result ≡ Definition.closed self }
    {
        if self.middle <= self.low {
            return true;
        }
        self.middle >= self.high
    }
}
