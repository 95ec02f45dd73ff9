// What the chips of the bench share. Most of it is meaning (specs/) and laws (proofs/); the code is the forecast and the bits of a byte.
#![tactic(auto)]

ghost use Rattle.std.specs.Prelude.{◌≡◌, if◌then◌else◌};
ghost use Rattle.clocks.specs.Forecasts.{number_of, sooner_of};
ghost use Rattle.clocks.specs.Bits.{bit as bit_of, with_set, with_clear, gone as gone_of, merge as merge_of, shares as shares_of};

// When a flag is set or a line asserted: so many clocks from now, or never. No Option, since README's examples and what `snippets` prints
// have these names.
#[derive(Clone, Copy, Debug, PartialEq, Eq, PartialOrd, Ord)]
pub enum Forecast {
    In(u32),
    Never,
}

impl Forecast {
    // The number for never.
    pub const NEVER: u32 = 4294967295;

    pub fn number(self) -> u32
        ensures { result ≡ number_of self }
    {
        match self {
            Forecast::Never => Forecast::NEVER,
            Forecast::In(clocks) => clocks,
        }
    }

    // The forecast where the gate is open, else never.
    pub fn gated(self, through: bool) -> Forecast
        ensures { result ≡ (if through then self else Forecast.Never) }
    {
        choose(through, self, Forecast::Never)
    }

    // By cases, since `min` of the derived order takes a third more instructions.
    pub fn sooner(self, other: Forecast) -> Forecast
        ensures { result ≡ sooner_of self other }
    {
        match (self, other) {
            (Forecast::In(x), Forecast::In(y)) => Forecast::In(x.min(y)),
            (Forecast::Never, _) => other,
            _ => self,
        }
    }
}

// The first where the test holds, else the second.
pub fn choose<T: Copy>(test: bool, x: T, y: T) -> T
    ensures { result ≡ (if test then x else y) }
{
    if test { x } else { y }
}

// Bit k of x; a byte has none above 7.
pub fn bit(k: u8, x: u8) -> bool
    ensures { result ≡ bit_of k x }
{
    if k < 8 { (x >> k) % 2 == 1 } else { false }
}

// The bits of x where the mask is 1, those of y where it is 0.
pub fn merge(mask: u8, x: u8, y: u8) -> u8
    ensures { result ≡ merge_of mask x y }
{
    (x & mask) | (y & !mask)
}

// x with the bits of the mask set, or cleared, as a bit of a register says.
pub fn with_mask(mask: u8, on: bool, x: u8) -> u8
    ensures { result ≡ (if on then with_set mask x else with_clear mask x) }
{
    if on { x | mask } else { x & !mask }
}

// The bits that are set before and clear after.
pub fn gone(before: u8, after: u8) -> u8
    ensures { result ≡ gone_of before after }
{
    before & !after
}

// Whether some bit is set in both bytes.
pub fn shares(x: u8, y: u8) -> bool
    ensures { result ≡ shares_of 8 x y }
{
    x & y != 0
}
