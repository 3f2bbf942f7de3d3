// One way of a line, by document 01, "Sending" and "Receiving": the sending half at one end and the receiving half at the other. specs/ says
// what a tick of it does, how many bring a character, which ticks only count and how far a frame can be followed at once; proofs/ that what is done at once is what as many
// ticks do. The calls themselves are `way`'s. No code stands here, so that a wrong definition is refused without proving the calls again.
#![tactic(auto)]

use line_rules::Format;
use link_rules::{ReceiverHalf, SenderHalf};

// What stays while nothing but ticks is done: whether a frame or a break may start, whether break is on, whether transmit is enabled, whether
// receive is on, and the formats in which frames begin at both ends.
#[derive(Clone, Copy)]
pub struct Ends {
    pub ready: bool,
    pub broken: bool,
    pub enabled: bool,
    pub live: bool,
    pub send: Format,
    pub hear: Format,
}

// The flags of what arrives: bytes, as the device that C lends has them.
#[derive(Clone, Copy)]
pub struct Faults {
    pub framing: u8,
    pub overrun: u8,
    pub parity: u8,
}

// What ticks move: the two halves, the empty-mark of the end that sends and the flags of the end that receives.
// (`empty` is a byte for the reason of `Faults`: the device that C lends has one.)
#[derive(Clone, Copy)]
pub struct Way {
    pub sender: SenderHalf,
    pub receiver: ReceiverHalf,
    pub empty: u8,
    pub faults: Faults,
}
