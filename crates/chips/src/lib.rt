// What every chip of the bench has in common: as meaning (specs/) and laws (proofs/), and two answers that hold another.
#![tactic(auto)]

use clocks::Forecast;

// What a read gives back: `cleared` has the flags that it found set and left clear, in the bits that the chip shows them in.
#[derive(Clone, Copy)]
pub struct Reading<A> {
    pub cleared: u8,
    pub answer: A,
}

// What a forecast gives back.
#[derive(Clone, Copy)]
pub struct Outlook<A> {
    pub forecast: Forecast,
    pub answer: A,
}
