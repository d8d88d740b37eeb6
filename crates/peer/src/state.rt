// The steps of a slot and of a peer: each takes the state by value and hands the changed state back.
ghost use Rattle.std.specs.Prelude.{◌≡◌, ◌<◌};
ghost use Rattle.peer.specs.State.{fresh_peer, slot_count, is_free, overlap};
ghost use Rattle.peer.specs.Effects.{with_phase, advance};

use crate::types::{Answer, Peer, Phase, Receive, Slot, SlotStep, Step};
use protocol::Refusal;

impl Receive {
    // Whether two ranges share a byte; an empty range shares none. No sum is made, so none wraps.
    pub fn overlaps(self, other: Receive) -> bool
        ensures { result ≡ overlap self other }
    {
        if self.capacity == 0 {
            return false;
        }
        if other.capacity == 0 {
            return false;
        }
        if self.start < other.start {
            other.start - self.start < self.capacity
        } else {
            self.start - other.start < other.capacity
        }
    }
}

impl Slot {
    // Whether the slot can take a receive.
    pub fn is_free(self) -> bool
        ensures { result ≡ is_free self.phase }
    {
        matches!(self.phase, Phase::Free)
    }
}

impl Peer {
    // The slots of a peer.
    pub const SLOTS: usize = 8;

    // The longest area, in bytes.
    pub const AREA_LIMIT: usize = 8192;

    // The bytes of a CTS, which a reply buffer has room for.
    pub const CTS_LENGTH: usize = 24;

    // What a packet's limit has beside the data that a grant counts.
    pub const HEADER_ALLOWANCE: usize = 32;

    // A peer that nothing was posted for, and that has sent nothing.
    pub fn fresh() -> Peer
        ensures { result ≡ fresh_peer }
    {
        Peer {
            next: 0,
            slots: [Slot { phase: Phase::Free }; Peer::SLOTS],
        }
    }

    // The peer with another use of a slot.
    pub fn with_phase(self, i: usize, phase: Phase) -> Peer
        requires { i < slot_count }
        ensures { result ≡ with_phase self i phase }
    {
        let mut peer = self;
        peer.slots[i] = Slot { phase };
        peer
    }

    // The peer with the next id moved on by one, round at 2^32.
    pub fn advanced(self) -> Peer
        ensures { result ≡ advance self }
    {
        let mut peer = self;
        peer.next = self.next.wrapping_add(1);
        peer
    }

    // The peer with a slot as a call left it, and the call's answer.
    pub fn stepped(self, i: usize, step: SlotStep) -> Step
        requires { i < slot_count }
        ensures { result ≡ record { peer = with_phase self i step.phase; answer = step.answer } }
    {
        Step {
            peer: self.with_phase(i, step.phase),
            answer: step.answer,
        }
    }

    // The peer as it is, and a refusal.
    pub fn refused(self, refusal: Refusal) -> Step
        ensures { result ≡ record { peer = self; answer = Answer.Refused refusal } }
    {
        Step {
            peer: self,
            answer: Answer::Refused(refusal),
        }
    }
}
