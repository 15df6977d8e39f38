// The journal's book, and what is done to the journal by it: a word read, laid, wiped, and the oldest steps dropped.
ghost use Rattle.std.specs.Prelude.{◌≡◌, true, ◌+◌, ◌%◌, ◌^◌, ◌≤◌, ◌<◌, length, get_or, take};
ghost use Rattle.rules.specs.Journal.{turned, zero_top, forget, until_mark};
ghost use Rattle.ring.specs.Meaning.{slot_of, Becomes, Closes, Lays};

// How many words are used, how many of them are of steps before the one that is being made, the place of the oldest, and whether whole oldest steps are
// dropped.
#[derive(Clone, Copy)]
pub struct Book {
    pub used: usize,
    pub older: usize,
    pub place: usize,
    pub ring: bool,
}

// A place among n words. A division takes longer than a store, so none is made below twice n.
fn within(n: usize, place: usize) -> usize
    requires { 0 < n }
    ensures { (result ≡ place % n) × (result < n) }
{
    if place < n {
        return place;
    }
    let past = place - n;
    if past < n {
        return past;
    }
    place % n
}

// The place after it.
fn after(n: usize, at: usize) -> usize
    requires { at < n }
    ensures { result ≡ (at + 1) % n }
{
    let next = at + 1;
    if next < n {
        return next;
    }
    0
}

// Where the i-th word stands.
fn slot(n: usize, ring: bool, place: usize, i: usize) -> usize
    requires { i < n }
    ensures { (result ≡ slot_of ring place n i) × (result < n) }
{
    if !ring {
        return i;
    }
    let start = within(n, place);
    let ahead = n - start;
    if i < ahead {
        return start + i;
    }
    i - ahead
}

// The i-th word, from the oldest on.
pub fn word_at(journal: &[u32], b: Book, i: usize) -> u32
    requires { i < length journal.now }
    ensures { result ≡ get_or (turned b.ring b.place journal.now) i 0 }
{
    let at = slot(journal.len(), b.ring, b.place, i);
    journal[at]
}

// The i-th word set to 0, and those below it used.
pub fn wipe(journal: &mut [u32], b: Book, i: usize) -> Book
    requires { i < length journal.old }
    ensures { Becomes (zero_top i) journal b result }
{
    let at = slot(journal.len(), b.ring, b.place, i);
    journal[at] = 0;
    Book { used: i, ..b }
}

// The oldest word dropped.
fn forget_one(journal: &mut [u32], b: Book) -> Book
    requires { (0 < length journal.old) × (b.ring ≡ true) × (0 < b.used) × (0 < b.older) }
    ensures { Becomes (forget 1) journal b result }
{
    let n = journal.len();
    let at = b.place % n;
    journal[at] = 0;
    Book {
        used: b.used - 1,
        older: b.older - 1,
        place: after(n, at),
        ..b
    }
}

// Of the first words those before the next mark dropped.
fn forget_unmarked(journal: &mut [u32], b: Book, most: usize) -> Book
    requires { (most ≤ length journal.old) × (b.ring ≡ true) × (most ≤ b.used) × (most ≤ b.older) }
    ensures { Becomes (λ m. forget (until_mark (take most m.journal)) m) journal b result }
{
    let mut c = b;
    for _ in 0..most {
        let w = word_at(journal, c, 0);
        if number::words::is_mark(w) {
            return c;
        }
        c = forget_one(journal, c);
    }
    c
}

// The place so many words on from another, round the end.
pub fn further(n: usize, place: usize, words: usize) -> usize
    requires { (words ≤ n) × (n < 2 ^ 61) }
    ensures { result ≡ (place + words) % n }
{
    if n == 0 {
        return place;
    }
    (place % n + words) % n
}

// The book at the end of a step that began with `b`, by its own words in a ring, and by all in a plain journal. Where words were laid over older ones, the rest
// of the step that these were of is dropped too.
pub fn close(journal: &mut [u32], b: Book, words: usize) -> Book
    requires { (b.used ≤ length journal.old) × (words ≤ length journal.old) }
    ensures { Closes journal b words result }
{
    if !b.ring {
        return Book {
            used: words,
            older: b.used,
            ..b
        };
    }
    let n = journal.len();
    let free = n - b.used;
    if words <= free {
        return Book {
            used: b.used + words,
            older: b.used,
            ..b
        };
    }
    let older = n - words;
    let kept = Book {
        used: n,
        older,
        place: further(n, b.place, words - free),
        ..b
    };
    forget_unmarked(journal, kept, older)
}

// A word laid where so many are used; in a ring, where so many are the step's own, from its first word on. Any place is below 2^61, so that the sum fits.
pub fn lay(journal: &mut [u32], first: Option<usize>, used: usize, w: u32)
    requires { used < length journal.old }
    ensures { Lays w journal first used }
{
    let Some(first) = first else {
        journal[used] = w;
        return;
    };
    let at = within(journal.len(), first % 2305843009213693952 + used);
    journal[at] = w;
}
