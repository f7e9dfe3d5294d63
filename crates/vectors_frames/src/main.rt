//! Cases of another program, one to a line, through stdin and stdout. `read HEX` tells what the
//! frame says, or number, layer, message and position of its refusal. `write` takes a buffer's
//! length and every field that a message can have, `acknowledge` a length and an acknowledgement;
//! both tell the answer and what the buffer, all EE before, then holds.
#![tactic(auto)]

use frame::{Frame, Packet, read_frame, read_packet, write_acknowledgement, write_data};
use message::Message;
use refusal::Refusal;
use std::alloc::{AllocError, Global};
use std::io::{BufRead, BufReader};
use words::OrDash;

/// What stands in a buffer before anything is written into it.
const UNTOUCHED: u8 = 0xEE;

/// The numbers of a line, in the order of their columns.
#[derive(Clone, Copy)]
struct Columns {
    room: usize,
    acknowledgement: u64,
    number: u64,
    kind: u8,
    day: u32,
    exposure: i64,
    amount: u64,
    lot: u8,
    class: u8,
    face: u64,
    old: u8,
}

fn digit(c: u8) -> u8 {
    match c {
        b'0'..=b'9' => c - b'0',
        b'a'..=b'f' => c - b'a' + 10,
        _ => 0,
    }
}

// The bytes that hexadecimal digits write, two to a byte.
// No `hex::decode`: what is no digit counts as 0, and a last digit alone is passed over.
fn bytes_of(heap: Global, digits: &str) -> Result<Vec<u8>, AllocError> {
    let mut bytes = Vec::new(heap);
    let mut high: Option<u8> = None;
    for c in digits.bytes() {
        match high {
            None => high = Some(digit(c)),
            Some(h) => {
                bytes.push(h.wrapping_mul(16).wrapping_add(digit(c)))?;
                high = None;
            }
        }
    }
    Ok(bytes)
}

// A part at a time, since a buffer may be long and its digits take twice its memory.
fn print_hex(rt: &HostRuntime, bytes: &[u8]) -> anyhow::Result<()> {
    for part in bytes.chunks(64) {
        print!(rt; "{}", hex::encode(rt.alloc(), part)?)?;
    }
    Ok(())
}

fn print_refusal(rt: &HostRuntime, refusal: &Refusal) -> anyhow::Result<()> {
    print!(rt;
        "refused {} {} {} {}",
        refusal.number(),
        OrDash(refusal.layer()),
        OrDash(refusal.message()),
        OrDash(refusal.position())
    )?;
    Ok(())
}

fn print_frame(rt: &HostRuntime, bytes: &[u8]) -> anyhow::Result<()> {
    match read_frame(bytes) {
        Err(refusal) => print_refusal(rt, &refusal)?,
        Ok(Frame::Acknowledgement { acknowledgement }) => print!(rt;
            "acknowledgement {acknowledgement}"
        )?,
        Ok(
            Frame::Data {
                number,
                acknowledgement,
                body,
            },
        ) => {
            print!(rt; "data {number} {acknowledgement} ")?;
            print_hex(rt, body)?;
        }
    }
    Ok(())
}

fn print_packet(rt: &HostRuntime, bytes: &[u8]) -> anyhow::Result<()> {
    match read_packet(bytes) {
        Err(refusal) => print_refusal(rt, &refusal)?,
        Ok(Packet::Acknowledgement { acknowledgement }) => print!(rt;
            "acknowledgement {acknowledgement}"
        )?,
        Ok(
            Packet::Data {
                number,
                acknowledgement,
                message,
            },
        ) => print!(rt; "data {number} {acknowledgement} {message:?}")?,
    }
    Ok(())
}

fn print_written(
    rt: &HostRuntime,
    answer: &Result<usize, Refusal>,
    buffer: &[u8],
) -> anyhow::Result<()> {
    match answer {
        Ok(len) => print!(rt; "wrote {len}")?,
        Err(refusal) => print_refusal(rt, refusal)?,
    }
    print!(rt; " ")?;
    print_hex(rt, buffer)
}

// The message of a kind's number, and of every field that a message can have, as the outside program writes it.
fn message_of(c: &Columns) -> Option<Message> {
    let Columns {
        day,
        exposure,
        amount,
        lot,
        class,
        face,
        old,
        ..
    } = *c;
    match c.kind {
        1 => Some(Message::Quiet { day, exposure }),
        2 => Some(Message::Call {
            day,
            exposure,
            amount,
        }),
        3 => Some(Message::Offer {
            day,
            exposure,
            amount,
        }),
        4 => Some(Message::Agree { day }),
        5 => Some(Message::Dispute { day, amount }),
        6 => Some(Message::Resolve {
            day,
            exposure,
            amount,
        }),
        7 => Some(Message::Delivery {
            day,
            lot,
            class,
            face,
        }),
        8 => Some(Message::Substitute {
            lot,
            class,
            face,
            old,
        }),
        9 => Some(Message::Ask { day, lot }),
        10 => Some(Message::Return { lot }),
        11 => Some(Message::Decline { lot }),
        12 => Some(Message::Satisfied { day }),
        14 => Some(Message::Release { day }),
        _ => None,
    }
}

// The next column; 0 stands for one that is not there.
fn column<'a, I: Iterator<Item = &'a str>>(columns: &mut I) -> &'a str
    requires { I.can_next columns.old }
{
    columns.next().unwrap_or("0")
}

// Columns stand one space apart, behind the command; those past the last are passed over.
fn columns_of(line: &str) -> anyhow::Result<Columns> {
    let mut columns = line.split(' ').skip(1);
    Ok(Columns {
        room: column(&mut columns).parse()?,
        acknowledgement: column(&mut columns).parse()?,
        number: column(&mut columns).parse()?,
        kind: column(&mut columns).parse()?,
        day: column(&mut columns).parse()?,
        exposure: column(&mut columns).parse()?,
        amount: column(&mut columns).parse()?,
        lot: column(&mut columns).parse()?,
        class: column(&mut columns).parse()?,
        face: column(&mut columns).parse()?,
        old: column(&mut columns).parse()?,
    })
}

fn read(rt: &HostRuntime, digits: &str) -> anyhow::Result<()> {
    let bytes = bytes_of(rt.alloc(), digits)?;
    print_frame(rt, bytes.as_slice())?;
    print!(rt; " | ")?;
    print_packet(rt, bytes.as_slice())
}

fn write(rt: &HostRuntime, c: &Columns, buffer: &mut [u8]) -> anyhow::Result<()> {
    // A line whose kind is no message's is answered by nothing.
    let Some(message) = message_of(c) else {
        return Ok(());
    };
    let written = write_data(buffer, c.number, c.acknowledgement, &message);
    print_written(rt, &written, buffer)
}

fn acknowledge(rt: &HostRuntime, c: &Columns, buffer: &mut [u8]) -> anyhow::Result<()> {
    let written = write_acknowledgement(buffer, c.acknowledgement);
    print_written(rt, &written, buffer)
}

fn answer(rt: &HostRuntime, line: &str) -> anyhow::Result<()> {
    if let Some(digits) = line.strip_prefix("read ") {
        read(rt, digits)?;
    } else {
        let c = columns_of(line)?;
        let mut buffer = vec![in rt.alloc(); UNTOUCHED; c.room]?;
        if line.starts_with("write ") {
            write(rt, &c, buffer.as_mut_slice())?;
        } else {
            acknowledge(rt, &c, buffer.as_mut_slice())?;
        }
    }
    println!(rt; "")?;
    Ok(())
}

fn main(rt: HostRuntime) -> anyhow::Result<()> {
    for line in BufReader::new(rt.alloc(), rt.stdin())?.lines(rt.alloc()) {
        let line = line?;
        answer(&rt, line.as_str())?;
    }
    Ok(())
}
