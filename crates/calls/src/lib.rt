// The calls of the chips, with their operands, and why a call is refused: what a session line asks for, and what a chip answers.
#![tactic(auto)]

ghost use Rattle.std.specs.Prelude.{◌≡◌};
ghost use Rattle.calls.specs.Refusals.{number_of};

// Why a call is refused, by document 01's numbers. A chip never answers NoFrame: that is for a line of a session that is no call.
#[derive(Clone, Copy, Debug, PartialEq, Eq)]
pub enum Refusal {
    IllFormed = 1,
    NoFrame = 2,
    NoRegister = 3,
    LeftOut = 4,
    NoLevel = 5,
    TooLong = 6,
}

impl Refusal {
    pub fn number(self) -> u8
        ensures { result ≡ number_of self }
    {
        self as u8
    }
}

// A call of the 6522. Operands differ from chip to chip, so the calls of each are an enum of their own.
#[derive(Clone, Copy)]
pub enum Call22 {
    Reset,
    Write(u8, u8),
    Read(u8),
    Pins(u8, u8, u8),
    Run(u32),
    Forecast,
}

// A call of the 6525.
#[derive(Clone, Copy)]
pub enum Call25 {
    Reset,
    Write(u8, u8),
    Read(u8),
    Pins(u8, u8, u8),
    Run(u32),
}

// A call of the 6532.
#[derive(Clone, Copy)]
pub enum Call32 {
    Reset,
    Write(u8, u8),
    Read(u8),
    Pins(u8, u8),
    Run(u32),
    Forecast,
}

// A call of the 6545; a run has a mark that says whether its turns are asked for.
#[derive(Clone, Copy)]
pub enum Call45 {
    Reset,
    Write(u8, u8),
    Read(u8),
    Pins(u8),
    Run(u32, bool),
}
