// A line of standard input, as the call that it asks for.
use crate::drive;
use crate::line::{self, Name, PacketBytes};
use peer::{LocalCall, Receive};

// The lengths of arena, map and reply buffer that a call is lent.
#[derive(Clone, Copy)]
pub(crate) struct LentLengths {
    pub arena: usize,
    pub map: usize,
    pub reply: usize,
}

// What a line asks for.
#[derive(Clone, Copy)]
pub(crate) enum Command<'a> {
    Bad,
    Title(&'a [u8]),
    SetUp { n: usize, area: usize, limit: usize },
    Local { peer: usize, call: LocalCall },
    Packet { peer: usize, bytes: PacketBytes },
    Lend(LentLengths),
    Limit(usize),
    Show,
}

// A post's kind is 0, plain, or 1, tagged.
fn post(text: &[u8]) -> Option<Command<'_>> {
    let [peer, kind, tag, ignore, start, capacity] = line::numbers::<6>(text)?;
    if 1 < kind {
        return None;
    }
    let receive = Receive {
        tagged: kind == 1,
        tag,
        ignore,
        start: start as usize,
        capacity: capacity as usize,
    };
    Some(Command::Local {
        peer: peer as usize,
        call: LocalCall::Post(receive),
    })
}

// No more is lent than there is.
fn lend(text: &[u8]) -> Option<Command<'_>> {
    let [arena, map, reply] = line::numbers::<3>(text)?;
    let lent = LentLengths {
        arena: arena as usize,
        map: map as usize,
        reply: reply as usize,
    };
    if drive::ARENA < lent.arena || drive::MAP < lent.map || drive::REPLY < lent.reply {
        return None;
    }
    Some(Command::Lend(lent))
}

fn set_up(text: &[u8]) -> Option<Command<'_>> {
    let [n, area, limit] = line::numbers::<3>(text)?;
    Some(Command::SetUp {
        n: n as usize,
        area: area as usize,
        limit: limit as usize,
    })
}

// A call of a peer's slot: the two numbers.
fn peer_and_slot(text: &[u8]) -> Option<(usize, usize)> {
    let [peer, slot] = line::numbers::<2>(text)?;
    Some((peer as usize, slot as usize))
}

fn cancel(text: &[u8]) -> Option<Command<'_>> {
    let (peer, slot) = peer_and_slot(text)?;
    let call = LocalCall::Cancel(slot);
    Some(Command::Local { peer, call })
}

fn report(text: &[u8]) -> Option<Command<'_>> {
    let (peer, slot) = peer_and_slot(text)?;
    let call = LocalCall::Report(slot);
    Some(Command::Local { peer, call })
}

fn limit(text: &[u8]) -> Option<Command<'_>> {
    let [limit] = line::numbers::<1>(text)?;
    Some(Command::Limit(limit as usize))
}

fn show(text: &[u8]) -> Option<Command<'_>> {
    let [] = line::numbers::<0>(text)?;
    Some(Command::Show)
}

// A packet's peer, and its bytes behind that.
fn packet(text: &[u8]) -> Option<Command<'_>> {
    let words = text.strip_prefix(b" ")?;
    let (word, digits) = words.split_at(line::word_length(words));
    let peer = line::number(word)? as usize;
    let bytes = line::packet_bytes(digits)?;
    Some(Command::Packet { peer, bytes })
}

// What a line of a name asks for, by what stands behind the name.
fn named(name: Name, text: &[u8]) -> Option<Command<'_>> {
    match name {
        Name::Title => Some(Command::Title(text)),
        Name::SetUp => set_up(text),
        Name::Post => post(text),
        Name::Packet => packet(text),
        Name::Cancel => cancel(text),
        Name::Report => report(text),
        Name::Lend => lend(text),
        Name::Limit => limit(text),
        Name::Show => show(text),
    }
}

// What a line asks for: nothing if it is a comment or blank.
pub(crate) fn read(text: &[u8]) -> Option<Command<'_>> {
    if text.is_empty() || text.starts_with(b"#") {
        return None;
    }
    let (word, rest) = text.split_at(line::word_length(text));
    let command = match line::name_of(word) {
        Some(name) => named(name, rest),
        None => None,
    };
    Some(command.unwrap_or(Command::Bad))
}
