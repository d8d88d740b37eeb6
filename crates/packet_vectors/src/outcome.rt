// A vector is read, or values are written, and one line says what came of it.
use crate::print::PacketLine;
use protocol::{Header, PACKET_LIMIT, Packet, Refusal, Span};
use std::io;

// What a buffer holds before a packet is written to it.
pub(crate) const FILL: u8 = 0xEE;

// The longest buffer here: it has room for more than a packet may have.
pub(crate) const LARGE: usize = 8200;

fn refused(rt: &impl Print, refusal: Refusal) -> io::Result<()> {
    print!(rt; " refused {}", refusal.number())
}

fn answer(rt: &impl Print, name: &[u8], read: Result<Packet, Refusal>) -> io::Result<()> {
    rt.write_all(name)?;
    match read {
        Err(refusal) => refused(rt, refusal),
        Ok(packet) => rt.print(PacketLine(packet)),
    }
}

// The bytes of a span, or none if it leaves the packet: the reader's spans never do.
fn part(bytes: &[u8], span: Span) -> &[u8] {
    match bytes.get(span.at..) {
        Some(rest) => match rest.get(..span.size) {
            Some(part) => part,
            None => &bytes[..0],
        },
        None => &bytes[..0],
    }
}

// Prints each byte from `from` on that is not as it was, up to where one of the two ends: its place, and
// both values. Answers whether there is none.
fn unchanged(rt: &impl Print, was: &[u8], is: &[u8], from: usize) -> io::Result<bool> {
    let mut none = true;
    for (i, (a, b)) in was.iter().zip(is).enumerate().skip(from) {
        if a != b {
            none = false;
            print!(rt; " {i}:{a:02x}>{b:02x}")?;
        }
    }
    Ok(none)
}

// Says that the bytes of the buffer from `from` on still are FILL, or which are not.
fn kept(rt: &impl Print, out: &[u8], from: usize, words: &[u8]) -> io::Result<()> {
    let filled = [FILL; LARGE];
    print!(rt; ",")?;
    if unchanged(rt, &filled, out, from)? {
        rt.write_all(words)?;
    }
    println!(rt; "")
}

fn write_refused(rt: &impl Print, refusal: Refusal, out: &[u8]) -> io::Result<()> {
    print!(rt; " write")?;
    refused(rt, refusal)?;
    kept(rt, out, 0, b" buffer kept")
}

fn written(rt: &impl Print, n: usize, bytes: &[u8], out: &[u8]) -> io::Result<()> {
    print!(rt; " written {n}")?;
    if unchanged(rt, bytes, out, 0)? {
        print!(rt; " same")?;
    }
    kept(rt, out, n, b" rest kept")
}

// Writes the values to a buffer full of FILL and compares it with the bytes that are expected.
pub(crate) fn write(
    rt: &impl Print,
    name: &[u8],
    header: Header,
    raw: &[u8],
    data: &[u8],
    bytes: &[u8],
    out: &mut [u8],
) -> io::Result<()> {
    rt.write_all(name)?;
    match packet::write(header, raw, data, out) {
        Err(refusal) => write_refused(rt, refusal, out),
        Ok(n) => written(rt, n, bytes, out),
    }
}

// Writes the values that were read from the bytes.
fn write_back(rt: &impl Print, name: &[u8], bytes: &[u8], packet: Packet) -> io::Result<()> {
    let mut out = [FILL; 128];
    write(
        rt,
        name,
        packet.header,
        part(bytes, packet.raw_address),
        part(bytes, packet.data),
        bytes,
        &mut out,
    )
}

fn served(rt: &impl Print, bytes: &[u8]) -> io::Result<()> {
    print!(rt; ", served")?;
    if let Err(refusal) = packet::read_served(bytes, PACKET_LIMIT) {
        refused(rt, refusal)?;
    }
    Ok(())
}

// A packet that is read, by the engine's reader too unless it is a CTS, and written back.
pub(crate) fn good(rt: &impl Print, name: &[u8], bytes: &[u8]) -> io::Result<()> {
    let read = packet::read(bytes);
    answer(rt, name, read)?;
    served(rt, bytes)?;
    println!(rt; "")?;
    if let Ok(packet) = read {
        write_back(rt, name, bytes, packet)?;
    }
    Ok(())
}

// A packet that is only read, by either reader.
pub(crate) fn read(rt: &impl Print, name: &[u8], read: Result<Packet, Refusal>) -> io::Result<()> {
    answer(rt, name, read)?;
    println!(rt; "")
}
