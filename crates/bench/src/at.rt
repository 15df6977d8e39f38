// Where a machine stands beside its memories.
ghost use Rattle.std.specs.Prelude.{◌≡◌, ◌^◌, ◌≤◌, ◌<◌};

use ring::book;
use ring::book::Book;

// The program address; the used words of the journal, whether it is a ring, and the place of its oldest kept word; the groups of the image that may
// be written, bit g for group g; and whether a sound list is in VDP RAM, else it is in GROM. A call takes it and hands the next one back.
// Ring and source are flags, as C and README have them. The fields stand by their size, so that few bytes lie between them.
#[derive(Clone, Copy)]
pub struct At {
    pub used: usize,
    pub place: usize,
    pub pc: u16,
    pub writable: u8,
    pub ring: bool,
    pub source: bool,
}

impl At {
    ghost use Rattle.bench.specs.Meaning.{book_at, count_at, first_at, rests};

    // The journal's book, where no step is being made.
    pub fn book(self) -> Book
        ensures { result ≡ book_at self }
    {
        Book {
            used: self.used,
            older: self.used,
            place: self.place,
            ring: self.ring,
        }
    }

    // How many of the journal's words a step that begins here counts: its own in a ring, all in a plain journal.
    pub(crate) fn count(self) -> usize
        ensures { result ≡ count_at self }
    {
        if self.ring { 0 } else { self.used }
    }

    // Where its first word goes in a ring of n words.
    pub(crate) fn first(self, n: usize) -> Option<usize>
        requires { (self.used ≤ n) × (n < 2 ^ 61) }
        ensures { result ≡ first_at n self }
    {
        if self.ring {
            Some(book::further(n, self.place, self.used))
        } else {
            None
        }
    }

    // Where a machine rests.
    pub(crate) fn rest(pc: u16, b: Book, writable: u8, source: bool) -> At
        ensures { result ≡ rests pc b writable source }
    {
        At {
            pc,
            used: b.used,
            ring: b.ring,
            place: b.place,
            writable,
            source,
        }
    }
}
