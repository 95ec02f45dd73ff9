// The 6522's timer pair in its owner's memory: a call borrows it, clocks a copy, and stores that.
#![tactic(auto)]

ghost use Rattle.std.specs.Prelude.{◌≡◌, MatchBool};
ghost use Rattle.timers.specs.Pair.{well_formed};
ghost use Rattle.lent.specs.Lent.{number_in, refusal_of, outcome, clock_pair, run_pair};

use calls::Refusal;
use timers::Timers;

fn well_formed(p: Timers) -> bool
    ensures { result ≡ well_formed p }
{
    !p.t1.mark | (p.t1.counter == 65535)
}

fn checked(p: Timers) -> Result<(), Refusal>
    ensures { number_in result ≡ refusal_of p }
{
    if well_formed(p) {
        Ok(())
    } else {
        Err(Refusal::IllFormed)
    }
}

// A step by value, of a well-formed pair; any other stays as it is.
fn stepped<F: FnOnce(Timers) -> Timers>(p: &mut Timers, step: F) -> Result<(), Refusal>
    requires { F.pre step p.old }
    ensures number { number_in result ≡ refusal_of p.old }
    ensures left { MatchBool (well_formed p.old) (F.post step p.old p.new) (p.new ≡ p.old) }
{
    checked(*p)?;
    *p = step(*p);
    Ok(())
}

// One clock.
pub fn clock_pair(p: &mut Timers) -> Result<(), Refusal>
    ensures { outcome (number_in result) p.new ≡ clock_pair p.old }
{
    stepped(p, Timers::clock)
}

// n clocks, in a number of steps that does not grow with n.
pub fn run_pair(p: &mut Timers, n: u32) -> Result<(), Refusal>
    ensures { outcome (number_in result) p.new ≡ run_pair n p.old }
{
    stepped(p, |pair| pair.run(n))
}
