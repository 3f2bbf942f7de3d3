// The two double-buffered halves that every chip has, by document 01, "Sending" and "Receiving". specs/ says what a tick of each does, proofs/
// what that comes to; the calls themselves are `link`'s. No code stands here, so that a wrong definition is refused without proving the
// calls again.
#![tactic(auto)]

use line_rules::{Arrival, Format, Receiver, RxC, TxC};

// A frame under way: its character, the format that it began with, and the place of its next tick. All 0: none.
#[repr(C)]
#[derive(Clone, Copy, Default, PartialEq, Eq)]
pub struct Frame {
    pub character: u8,
    pub format: Format,
    pub place: u16,
}

// (The marks are bytes, as C lends any in a device: include/*.h.)
// The sending half: the frame under way, the character that waits (where `full` is 1), and the guard that a break left; the transmit tally after
// the first tick of its last frame, and the tally itself (P4).
#[repr(C)]
#[derive(Clone, Copy, Default, PartialEq, Eq)]
pub struct SenderHalf {
    pub frame: Frame,
    pub holding: u8,
    pub full: u8,
    pub guard: u8,
    pub start: TxC,
    pub tally: TxC,
}

// The receiving half: the receiver, the format of the character under way, and the character last held, unread or not, with its stamp, which is
// the receive tally after its stop sample's tick; and the tally itself (P4).
#[repr(C)]
#[derive(Clone, Copy, Default, PartialEq, Eq)]
pub struct ReceiverHalf {
    pub state: Receiver,
    pub format: Format,
    pub holding: u8,
    pub unread: u8,
    pub stamp: RxC,
    pub tally: RxC,
}

// What a transmit tick tells, beside the half that it moves: the level sent; whether it was a frame's first; whether it ended a frame with
// nothing waiting.
#[derive(Clone, Copy)]
pub struct SentTick {
    pub level: bool,
    pub began: bool,
    pub drained: bool,
}

// What a receive tick tells, beside the half that it moves: what it brings, and whether that found the holding register unread.
#[derive(Clone, Copy)]
pub struct HeardTick {
    pub heard: Option<Arrival>,
    pub overrun: bool,
}
