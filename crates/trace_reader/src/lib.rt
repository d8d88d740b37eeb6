// A trace reader: the bytes of a trace, and a place in them. What is read there is read by `trace`.
#![tactic(auto)]

ghost use Rattle.std.specs.Prelude.{◌≡◌};
ghost use Rattle.trace.specs.Entries.{set_up_at, entry_at};

use peer::Request;
use trace::SetUp;

#[derive(Clone, Copy)]
pub struct Reader<'a> {
    pub trace: &'a [u8],
    pub place: usize,
}

impl<'a> Reader<'a> {
    // A reader at a place of a trace.
    pub fn at(trace: &'a [u8], place: usize) -> Reader<'a>
        ensures { (result.trace ≡ trace.entry) × (result.place ≡ place) }
    {
        Reader { trace, place }
    }

    // The set-up numbers at the reader's place.
    pub fn set_up(&self) -> Option<(SetUp, usize)>
        ensures { result ≡ set_up_at self.now.trace.now self.now.place }
    {
        trace::set_up_at(self.trace, self.place)
    }

    // The entry at the reader's place.
    pub fn entry(&self) -> Option<(Request, usize)>
        ensures { result ≡ entry_at self.now.trace.now self.now.place }
    {
        trace::entry_at(self.trace, self.place)
    }

    // The reader at another place of its trace.
    pub fn moved(self, place: usize) -> Reader<'a>
        ensures { (result.trace ≡ self.entry.trace) × (result.place ≡ place) }
    {
        Reader {
            trace: self.trace,
            place,
        }
    }
}

// The first three numbers of a trace, by a reader at its start.
pub fn read_set_up(trace: &[u8]) -> Option<(SetUp, usize)>
    ensures { result ≡ set_up_at trace.now 0 }
{
    Reader::at(trace, 0).set_up()
}

// The entry at a place of a trace, by a reader that is moved there.
pub fn read_entry(trace: &[u8], place: usize) -> Option<(Request, usize)>
    ensures { result ≡ entry_at trace.now place }
{
    Reader::at(trace, 0).moved(place).entry()
}
