// The eight-channel board lent to a C host, with the room of its channels: a call is refused, or it lends the channel that it is about to the
// chip's own call, where it stands. include/interfacer3.h is C's view.
// Whatever bytes the host lends, and however many channels, the call is what `board_rules` says of them.
#![tactic(auto)]

ghost use Rattle.std.specs.Prelude.{◌≡◌, ◌*◌, false, length};
ghost use Rattle.board_rules.specs.Interrupts.{transmit_status, receive_status};
ghost use Rattle.board_rules.specs.Ports;
ghost use Rattle.board_rules.specs.Ports.{In, Out, Reset, Pins, Transmit, Receive, Outputs, Interrupts};
ghost use Rattle.board_rules.specs.Runs.{answer, board_after, room_after};
ghost use Rattle.board_walks.specs.Plans.{plan_in, plan_out, plan_named, plan_interrupts, plan_reset};
ghost use Rattle.board_walks.specs.Planned.{Planned, AboutOne, OneOrAll, status_shown, lines_shown};
ghost use Rattle.board.specs.Answers;
ghost use Rattle.board.specs.Answers.{OnChannel};

use board_rules::Board;
use ins2651_rules::Device;

// == refusals ==

// Why the board refuses a call: the room has other than eight channels, the port or the channel is not there, or another board is selected.
#[derive(Clone, Copy, Debug, PartialEq, Eq)]
enum Refusal {
    Channels,
    Absent,
    Elsewhere,
}

impl From<Refusal> for u16 {
    ghost from_gives = { λ refusal n. n ≡ Answers.number refusal };

    fn from(refusal: Refusal) -> u16 {
        match refusal {
            Refusal::Channels => 10,
            Refusal::Absent => 8,
            Refusal::Elsewhere => 9,
        }
    }
}

// In the order in which they are asked for.
fn check(channels: usize, absent: bool, elsewhere: bool) -> Result<(), Refusal>
    ensures { Answers.refusal_of result ≡ Ports.refusal channels absent elsewhere }
{
    if channels != 8 {
        return Err(Refusal::Channels);
    }
    if absent {
        return Err(Refusal::Absent);
    }
    if elsewhere {
        return Err(Refusal::Elsewhere);
    }
    Ok(())
}

// What C is told: 256 times the refusal, or the answer.
fn answered(said: Result<u16, Refusal>) -> u16
    ensures { result ≡ Answers.answered said }
{
    said.unwrap_or_else(|refusal| u16::from(refusal) * 256)
}

// == the select ==

fn selected(board: &Board) -> bool
    ensures { result ≡ Ports.selected board.now }
{
    board.select / 8 % 4 == board.number
}

fn channel_of(board: &Board) -> usize
    ensures { result ≡ Ports.channel_of board.now }
{
    usize::from(board.select % 8)
}

// == the interrupt status ==

// A 1 for each channel that awaits a character to send, and for each that holds one; channel 0's is the lowest bit.
#[derive(Clone, Copy, Default)]
struct Status {
    transmit: u16,
    receive: u16,
}

fn poll(room: &mut [Device]) -> Status
    requires { length room.old ≡ 8 }
    ensures transmit { result.transmit ≡ transmit_status room.old }
    ensures receive { result.receive ≡ receive_status room.old }
    ensures room { room.new ≡ room.old }
{
    let mut status = Status::default();
    let mut weight = 1; // it doubles from channel to channel, and is no index
    for device in room.iter_mut() {
        let shown = host::ins2651_peek(device);
        status.transmit += shown % 2 * weight;
        status.receive += shown / 2 % 2 * weight;
        weight *= 2;
    }
    status
}

// == the calls. Board and room stay two parameters: C lends them apart, and a struct of both would be made anew in each call ==

// Ports 0 to 3 are the selected channel's.
#[tactic(auto, unfolding(board_rules::specs::Runs::answer, board_rules::specs::Runs::said, board_rules::specs::Runs::board_after, board_rules::specs::Runs::room_after))]
fn read_port(board: &Board, room: &mut [Device], port: u8) -> Result<u16, Refusal>
    ensures answer { Answers.answered result ≡ answer board.now room.old (In port) }
    ensures room { room.new ≡ room_after board.now room.old (In port) }
{
    check(room.len(), port > 5, !selected(board))?;
    Ok(match port {
        4 => poll(room).transmit,
        5 => poll(room).receive,
        _ => host::ins2651_read(&mut room[channel_of(board)], port),
    })
}

// Every board takes a write to port 7, whatever is selected.
#[tactic(auto, using(crate::proofs::Fits::write_fits), unfolding(board_rules::specs::Runs::answer, board_rules::specs::Runs::said, board_rules::specs::Runs::board_after, board_rules::specs::Runs::room_after))]
fn write_port(board: &mut Board, room: &mut [Device], port: u8, value: u8) -> Result<u16, Refusal>
    ensures answer { Answers.answered result ≡ answer board.old room.old (Out port value) }
    ensures board { board.new ≡ board_after board.old room.old (Out port value) }
    ensures room { room.new ≡ room_after board.old room.old (Out port value) }
{
    check(
        room.len(),
        port == 6 || port > 7,
        port < 6 && !selected(board),
    )?;
    match port {
        4 => board.transmit_mask = value,
        5 => board.receive_mask = value,
        7 => board.select = value % 32,
        _ => return Ok(host::ins2651_write(&mut room[channel_of(board)], port, value) * 256),
    }
    Ok(0)
}

// The number stays, and every interrupt is inhibited.
#[tactic(auto, unfolding(board_rules::specs::Runs::answer, board_rules::specs::Runs::said, board_rules::specs::Runs::board_after, board_rules::specs::Runs::room_after))]
fn reset_all(board: &mut Board, room: &mut [Device]) -> Result<u16, Refusal>
    ensures answer { Answers.answered result ≡ answer board.old room.old Reset }
    ensures board { board.new ≡ board_after board.old room.old Reset }
    ensures room { room.new ≡ room_after board.old room.old Reset }
{
    check(room.len(), false, false)?;
    room.fill(ins2651::reset());
    board.select = 0;
    board.transmit_mask = 0;
    board.receive_mask = 0;
    Ok(0)
}

// A call of the chip on the channel of that number, whatever is selected.
fn on_channel<F: FnOnce(&mut Device) -> u16>(
    room: &mut [Device],
    channel: u8,
    call: F,
) -> Result<u16, Refusal>
    requires { F.IsAlwaysCallable call }
    ensures { OnChannel F.FnOnce call room.old channel result room.new }
{
    check(room.len(), channel > 7, false)?;
    Ok(call(&mut room[usize::from(channel)]))
}

// Both bytes of the interrupt lines, whatever is selected.
#[tactic(auto, unfolding(board_rules::specs::Runs::answer, board_rules::specs::Runs::said, board_rules::specs::Runs::board_after, board_rules::specs::Runs::room_after))]
fn read_lines(board: &Board, room: &mut [Device]) -> Result<u32, Refusal>
    ensures answer { Answers.answered_wide result ≡ answer board.now room.old Interrupts }
    ensures room { room.new ≡ room_after board.now room.old Interrupts }
{
    check(room.len(), false, false)?;
    let status = poll(room);
    let transmit = status.transmit & u16::from(board.transmit_mask);
    let receive = status.receive & u16::from(board.receive_mask);
    Ok(u32::from(transmit) + u32::from(receive) * 256)
}

// == what C calls, on a lent board and a lent room. C is told one number (include/interfacer3.h), so that a Result ends here ==

// Reads a port: 0 to 3 are the selected channel's registers, 4 and 5 the interrupt status.
#[tactic(auto, unfolding(board_rules::specs::Runs::answer, board_rules::specs::Runs::said, board_rules::specs::Runs::board_after, board_rules::specs::Runs::room_after))]
pub fn interfacer3_in(board: &mut Board, room: &mut [Device], port: u8) -> u16
    ensures answer { result ≡ answer board.old room.old (In port) }
    ensures board { board.new ≡ board_after board.old room.old (In port) }
    ensures room { room.new ≡ room_after board.old room.old (In port) }
    ensures plan { OneOrAll (plan_in board.old (length room.old) port) result board.new room.old room.new }
    ensures all { (plan_in board.old (length room.old) port).ends ≡ false → (plan_in board.old (length room.old) port).single ≡ false → result ≡ status_shown room.old port }
{
    answered(read_port(board, room, port))
}

// Writes a port: 0 to 3 are the selected channel's registers, 4 and 5 the masks, 7 the select.
pub fn interfacer3_out(board: &mut Board, room: &mut [Device], port: u8, value: u8) -> u16
    ensures answer { result ≡ answer board.old room.old (Out port value) }
    ensures board { board.new ≡ board_after board.old room.old (Out port value) }
    ensures room { room.new ≡ room_after board.old room.old (Out port value) }
    ensures plan { AboutOne (plan_out board.old (length room.old) port value) result board.new room.old room.new }
{
    answered(write_port(board, room, port, value))
}

// Resets every channel and the board, but for its number.
pub fn interfacer3_reset(board: &mut Board, room: &mut [Device]) -> u16
    ensures answer { result ≡ answer board.old room.old Reset }
    ensures board { board.new ≡ board_after board.old room.old Reset }
    ensures room { room.new ≡ room_after board.old room.old Reset }
    ensures plan { Planned (plan_reset board.old (length room.old)) (plan_reset board.old (length room.old)).answer result board.new room.old room.new }
{
    answered(reset_all(board, room))
}

// Sets the three modem inputs of a channel.
#[tactic(auto, using(crate::proofs::Fits::pins_fit), unfolding(board_rules::specs::Runs::answer, board_rules::specs::Runs::said, board_rules::specs::Runs::board_after, board_rules::specs::Runs::room_after))]
pub fn interfacer3_pins(
    board: &mut Board,
    room: &mut [Device],
    channel: u8,
    dsr: u8,
    dcd: u8,
    cts: u8,
) -> u16
    ensures answer { result ≡ answer board.old room.old (Pins channel dsr dcd cts) }
    ensures board { board.new ≡ board_after board.old room.old (Pins channel dsr dcd cts) }
    ensures room { room.new ≡ room_after board.old room.old (Pins channel dsr dcd cts) }
    ensures plan { AboutOne (plan_named board.old (length room.old) channel) result board.new room.old room.new }
{
    answered(on_channel(room, channel, |device| {
        host::ins2651_pins(device, dsr, dcd, cts) * 256
    }))
}

// A transmit tick of a channel; answers the level that it sends.
#[tactic(auto, unfolding(board_rules::specs::Runs::answer, board_rules::specs::Runs::said, board_rules::specs::Runs::board_after, board_rules::specs::Runs::room_after))]
pub fn interfacer3_transmit(board: &mut Board, room: &mut [Device], channel: u8) -> u16
    ensures answer { result ≡ answer board.old room.old (Transmit channel) }
    ensures board { board.new ≡ board_after board.old room.old (Transmit channel) }
    ensures room { room.new ≡ room_after board.old room.old (Transmit channel) }
    ensures plan { AboutOne (plan_named board.old (length room.old) channel) result board.new room.old room.new }
{
    answered(on_channel(room, channel, host::ins2651_transmit))
}

// A receive tick of a channel with its line at a level.
#[tactic(auto, using(crate::proofs::Fits::receive_fits), unfolding(board_rules::specs::Runs::answer, board_rules::specs::Runs::said, board_rules::specs::Runs::board_after, board_rules::specs::Runs::room_after))]
pub fn interfacer3_receive(board: &mut Board, room: &mut [Device], channel: u8, level: u8) -> u16
    ensures answer { result ≡ answer board.old room.old (Receive channel level) }
    ensures board { board.new ≡ board_after board.old room.old (Receive channel level) }
    ensures room { room.new ≡ room_after board.old room.old (Receive channel level) }
    ensures plan { AboutOne (plan_named board.old (length room.old) channel) result board.new room.old room.new }
{
    answered(on_channel(room, channel, |device| {
        host::ins2651_receive(device, level) * 256
    }))
}

// The levels of the outputs of a channel, as the bits of one number.
#[tactic(auto, unfolding(board_rules::specs::Runs::answer, board_rules::specs::Runs::said, board_rules::specs::Runs::board_after, board_rules::specs::Runs::room_after))]
pub fn interfacer3_outputs(board: &mut Board, room: &mut [Device], channel: u8) -> u16
    ensures answer { result ≡ answer board.old room.old (Outputs channel) }
    ensures board { board.new ≡ board_after board.old room.old (Outputs channel) }
    ensures room { room.new ≡ room_after board.old room.old (Outputs channel) }
    ensures plan { AboutOne (plan_named board.old (length room.old) channel) result board.new room.old room.new }
{
    answered(on_channel(room, channel, host::ins2651_outputs))
}

// The interrupt lines, a 1 where one is asserted: 65536 times the refusal, 256 times the receive byte and the transmit byte.
#[tactic(auto, using(board_walks::proofs::Planned::lines_by_all), unfolding(board_rules::specs::Runs::answer, board_rules::specs::Runs::said, board_rules::specs::Runs::board_after, board_rules::specs::Runs::room_after))]
pub fn interfacer3_interrupts(board: &mut Board, room: &mut [Device]) -> u32
    ensures answer { result ≡ answer board.old room.old Interrupts }
    ensures board { board.new ≡ board_after board.old room.old Interrupts }
    ensures room { room.new ≡ room_after board.old room.old Interrupts }
    ensures plan { Planned (plan_interrupts board.old (length room.old)) ((plan_interrupts board.old (length room.old)).answer * 256) result board.new room.old room.new }
    ensures all { (plan_interrupts board.old (length room.old)).ends ≡ false → result ≡ lines_shown board.old room.old }
{
    // of 32 bits: made one with `answered`, the other seven calls would cast their answers up and down again
    read_lines(board, room).unwrap_or_else(|refusal| u32::from(u16::from(refusal)) * 65536)
}
