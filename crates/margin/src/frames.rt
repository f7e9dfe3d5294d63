//! What the program tells of a frame.
use carrier::{Frame, LONGEST_FRAME};
use frame::Packet;
use frame::read::read_packet;
use frame::write::write_data;
use message::Message;
use refusal::Refusal;
use std::io;

// A frame fault: its number and words, and where in the frame it lies.
fn tell_fault(rt: &HostRuntime, refusal: Refusal) -> io::Result<()> {
    println!(rt; "refused {refusal}")?;
    if let Some(layer) = refusal.layer() {
        println!(rt; "layer {layer}")?;
    }
    if let Some(message) = refusal.message() {
        println!(rt; "message {message}")?;
    }
    if let Some(position) = refusal.position() {
        println!(rt; "position {position}")?;
    }
    Ok(())
}

/// What a frame says, or why it is refused.
pub(crate) fn explain(rt: &HostRuntime, bytes: &[u8]) -> io::Result<()> {
    match read_packet(bytes) {
        Err(refusal) => tell_fault(rt, refusal),
        Ok(Packet::Acknowledgement { acknowledgement }) => {
            println!(rt; "acknowledgement alone")?;
            println!(rt; "expects {acknowledgement}")
        }
        Ok(
            Packet::Data {
                number,
                acknowledgement,
                message,
            },
        ) => {
            println!(rt; "message {number}")?;
            println!(rt; "expects {acknowledgement}")?;
            println!(rt; "says {message}")
        }
    }
}

/// The frame in which a message would be sent as the first of an agreement.
pub(crate) fn first_frame(message: &Message) -> Result<Frame, Refusal> {
    let mut buffer = [0; LONGEST_FRAME];
    let length = write_data(&mut buffer, 1, 1, message)?;
    Frame::try_from(&buffer[..length])
}
