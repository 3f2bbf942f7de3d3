// The C archive of `board`: each export is the call of that name there, with its contract again, since C knows it by this name.
// include/interfacer3.h is C's view.
#![tactic(auto)]

ghost use Rattle.std.specs.Prelude.{◌≡◌, ◌*◌, false, length};
ghost use Rattle.board_rules.specs.Ports.{In, Out, Reset, Pins, Transmit, Receive, Outputs, Interrupts};
ghost use Rattle.board_rules.specs.Runs.{answer, board_after, room_after};
ghost use Rattle.board_walks.specs.Plans.{plan_in, plan_out, plan_named, plan_interrupts, plan_reset};
ghost use Rattle.board_walks.specs.Planned.{Planned, AboutOne, OneOrAll, status_shown, lines_shown};

use board_rules::Board;
use ins2651_rules::Device;

// Reads a port: 0 to 3 are the selected channel's registers, 4 and 5 the interrupt status.
#[unsafe(no_mangle)]
pub extern "C" fn interfacer3_in(board: &mut Board, room: &mut [Device], port: u8) -> u16
    ensures answer { result ≡ answer board.old room.old (In port) }
    ensures board { board.new ≡ board_after board.old room.old (In port) }
    ensures room { room.new ≡ room_after board.old room.old (In port) }
    ensures plan { OneOrAll (plan_in board.old (length room.old) port) result board.new room.old room.new }
    ensures all { (plan_in board.old (length room.old) port).ends ≡ false → (plan_in board.old (length room.old) port).single ≡ false → result ≡ status_shown room.old port }
{
    board::interfacer3_in(board, room, port)
}

// Writes a port: 0 to 3 are the selected channel's registers, 4 and 5 the masks, 7 the select.
#[unsafe(no_mangle)]
pub extern "C" fn interfacer3_out(
    board: &mut Board,
    room: &mut [Device],
    port: u8,
    value: u8,
) -> u16
    ensures answer { result ≡ answer board.old room.old (Out port value) }
    ensures board { board.new ≡ board_after board.old room.old (Out port value) }
    ensures room { room.new ≡ room_after board.old room.old (Out port value) }
    ensures plan { AboutOne (plan_out board.old (length room.old) port value) result board.new room.old room.new }
{
    board::interfacer3_out(board, room, port, value)
}

// Resets every channel and the board, but for its number.
#[unsafe(no_mangle)]
pub extern "C" fn interfacer3_reset(board: &mut Board, room: &mut [Device]) -> u16
    ensures answer { result ≡ answer board.old room.old Reset }
    ensures board { board.new ≡ board_after board.old room.old Reset }
    ensures room { room.new ≡ room_after board.old room.old Reset }
    ensures plan { Planned (plan_reset board.old (length room.old)) (plan_reset board.old (length room.old)).answer result board.new room.old room.new }
{
    board::interfacer3_reset(board, room)
}

// Sets the three modem inputs of a channel.
#[unsafe(no_mangle)]
pub extern "C" fn interfacer3_pins(
    board: &mut Board,
    room: &mut [Device],
    channel: u8,
    dsr: u8,
    dcd: u8,
    cts: u8,
) -> u16
    ensures answer { result ≡ answer board.old room.old (Pins channel dsr dcd cts) }
    ensures board { board.new ≡ board_after board.old room.old (Pins channel dsr dcd cts) }
    ensures room { room.new ≡ room_after board.old room.old (Pins channel dsr dcd cts) }
    ensures plan { AboutOne (plan_named board.old (length room.old) channel) result board.new room.old room.new }
{
    board::interfacer3_pins(board, room, channel, dsr, dcd, cts)
}

// A transmit tick of a channel; answers the level that it sends.
#[unsafe(no_mangle)]
pub extern "C" fn interfacer3_transmit(board: &mut Board, room: &mut [Device], channel: u8) -> u16
    ensures answer { result ≡ answer board.old room.old (Transmit channel) }
    ensures board { board.new ≡ board_after board.old room.old (Transmit channel) }
    ensures room { room.new ≡ room_after board.old room.old (Transmit channel) }
    ensures plan { AboutOne (plan_named board.old (length room.old) channel) result board.new room.old room.new }
{
    board::interfacer3_transmit(board, room, channel)
}

// A receive tick of a channel with its line at a level.
#[unsafe(no_mangle)]
pub extern "C" fn interfacer3_receive(
    board: &mut Board,
    room: &mut [Device],
    channel: u8,
    level: u8,
) -> u16
    ensures answer { result ≡ answer board.old room.old (Receive channel level) }
    ensures board { board.new ≡ board_after board.old room.old (Receive channel level) }
    ensures room { room.new ≡ room_after board.old room.old (Receive channel level) }
    ensures plan { AboutOne (plan_named board.old (length room.old) channel) result board.new room.old room.new }
{
    board::interfacer3_receive(board, room, channel, level)
}

// The levels of the outputs of a channel, as the bits of one number.
#[unsafe(no_mangle)]
pub extern "C" fn interfacer3_outputs(board: &mut Board, room: &mut [Device], channel: u8) -> u16
    ensures answer { result ≡ answer board.old room.old (Outputs channel) }
    ensures board { board.new ≡ board_after board.old room.old (Outputs channel) }
    ensures room { room.new ≡ room_after board.old room.old (Outputs channel) }
    ensures plan { AboutOne (plan_named board.old (length room.old) channel) result board.new room.old room.new }
{
    board::interfacer3_outputs(board, room, channel)
}

// The interrupt lines, a 1 where one is asserted: 65536 times the refusal, 256 times the receive byte and the transmit byte.
#[unsafe(no_mangle)]
pub extern "C" fn interfacer3_interrupts(board: &mut Board, room: &mut [Device]) -> u32
    ensures answer { result ≡ answer board.old room.old Interrupts }
    ensures board { board.new ≡ board_after board.old room.old Interrupts }
    ensures room { room.new ≡ room_after board.old room.old Interrupts }
    ensures plan { Planned (plan_interrupts board.old (length room.old)) ((plan_interrupts board.old (length room.old)).answer * 256) result board.new room.old room.new }
    ensures all { (plan_interrupts board.old (length room.old)).ends ≡ false → result ≡ lines_shown board.old room.old }
{
    board::interfacer3_interrupts(board, room)
}
