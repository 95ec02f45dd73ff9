// README's four examples, line by line as they stand there. The program writes what their comments say of the answers;
// tests/readme holds both against README.md.
#![tactic(auto)]

use std::io;
use std::io::Print;

fn interval(rt: &impl Print) -> io::Result<()> {
    let riot = riot6532::Riot::power_up();
    let answer = riot.write(0x9D, 52); // load the timer: 52, divided by 8, interrupt enabled
    let ahead = answer.riot.forecast(); // ahead.forecast is Forecast::In(417)
    let later = answer.riot.run(417); // later.irq is true
    println!(rt; "ahead.forecast is Forecast::{:?}", ahead.forecast)?;
    println!(rt; "later.irq is {}", later.irq)
}

fn one_shot(rt: &impl Print) -> io::Result<()> {
    let via = via6522::Via::power_up();
    let enabled = via.write(14, 0xC0); // IER: T1 may interrupt
    let latched = enabled.via.write(4, 3); // T1's low latch
    let loaded = latched.via.write(5, 0); // its high latch: T1 is loaded with 3, and armed
    let ahead = loaded.via.forecast(); // ahead.forecast is Forecast::In(4)
    let later = loaded.via.run(4); // later.irq is true
    let read = later.via.read(4); // read.cleared is 0x40: the read cleared T1's flag
    let shown = read.answer; // shown.data is 0xFF, shown.irq is false
    println!(rt; "ahead.forecast is Forecast::{:?}", ahead.forecast)?;
    println!(rt; "later.irq is {}", later.irq)?;
    println!(rt; "read.cleared is 0x{:02X}", read.cleared)?;
    println!(rt; "shown.data is 0x{:02X}", shown.data)?;
    println!(rt; "shown.irq is {}", shown.irq)
}

fn sender(rt: &impl Print) -> io::Result<()> {
    let via = via6522::Via::power_up();
    let outward = via.write(11, 0x18); // ACR: shift mode 6, out by the clock
    let written = outward.via.write(10, 0xA5); // SR: eight shifts to come, two clocks each
    let begun = written.via.run(2);
    let serial = begun.via.sr; // serial.output is true: CB2 has bit 7
    let done = written.via.run(16);
    let read = done.via.read(10); // read.cleared is 0x04: the eighth shift had set IFR2
    let shown = read.answer; // shown.data is 0xA5: the byte has come round
    println!(rt; "serial.output is {}", serial.output)?;
    println!(rt; "read.cleared is 0x{:02X}", read.cleared)?;
    println!(rt; "shown.data is 0x{:02X}", shown.data)
}

fn served(rt: &impl Print) -> io::Result<()> {
    let tpi = tpi6525::Tpi::power_up();
    let masked = tpi.write(5, 0x1F); // the mask: all five inputs are let through
    let ready = masked.tpi.write(6, 0x03); // CR: interrupt mode, with priority
    let fallen = ready.tpi.pins(0xFF, 0xFF, 0xFD); // I1 falls: fallen.irq is true
    let read = fallen.tpi.read(7); // AIR: read.data is 0x02, read.irq is false: I1 is in service
    let lower = read.tpi.pins(0xFF, 0xFF, 0xFC); // I0 falls, and has to wait: lower.irq is false
    let ended = lower.tpi.write(7, 0); // I1's service ends: ended.irq is true
    println!(rt; "fallen.irq is {}", fallen.irq)?;
    println!(rt; "read.data is 0x{:02X}", read.data)?;
    println!(rt; "read.irq is {}", read.irq)?;
    println!(rt; "lower.irq is {}", lower.irq)?;
    println!(rt; "ended.irq is {}", ended.irq)
}

fn main(rt: HostRuntime) -> io::Result<()> {
    interval(&rt)?;
    one_shot(&rt)?;
    sender(&rt)?;
    served(&rt)
}
