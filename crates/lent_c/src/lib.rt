// The two functions of `lent` for callers in C, as include/lent.h declares them.
#![tactic(auto)]

ghost use Rattle.std.specs.Prelude.{◌≡◌};
ghost use Rattle.lent.specs.Lent.{number_in, outcome, clock_pair, run_pair};

use calls::Refusal;
use timers::Timers;

// What C is told: a refusal's number, or 0.
fn number(answer: Result<(), Refusal>) -> u8
    ensures { result ≡ number_in answer }
{
    match answer {
        Ok(()) => 0,
        Err(refusal) => refusal.number(),
    }
}

// One clock.
#[unsafe(no_mangle)]
pub extern "C" fn clock_pair(p: &mut Timers) -> u8
    ensures { outcome result p.new ≡ clock_pair p.old }
{
    number(lent::clock_pair(p))
}

// n clocks, in a number of steps that does not grow with n.
#[unsafe(no_mangle)]
pub extern "C" fn run_pair(p: &mut Timers, n: u32) -> u8
    ensures { outcome result p.new ≡ run_pair n p.old }
{
    number(lent::run_pair(p, n))
}
