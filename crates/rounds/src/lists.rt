// Lists of numbers, read without a requirement: past the end stands 0, and a list has no more than its own elements.
//   SPACE, KEY_AT, ROOM         what is lent, and where the key starts in it; a buffer
//   MARK, marked                the number that a buffer has throughout; such a buffer
//   number_at, round_at         a number; a round, which takes two of them
//   front, rest                 the first n; those from a place on
//   copy_to                     writes a list
//   Lent                        a random list and a key that are lent to calls
//   all_bytes, copy_bytes       numbers that are bytes; writes them as such
//   all_are                     a list with one number throughout
//   holds_just, marked_behind   a list, and one number throughout behind it
ghost use Rattle.std.specs.Prelude.{◌≡◌, ℕ, ◌+◌, ◌-◌, ◌<◌, ◌≤◌, ◌↔◌, leb, ◌++◌, [], length, take, drop, replicate, if◌then◌else◌, nat_le, slice_index, IsTrue};
ghost use Rattle.std.proofs.lemmas.List.Edits.{sets};
ghost use Rattle.scheme.specs.Drawn.{byte};
ghost use Rattle.rounds.specs.Lists.{lent_length, list_of, key_of, mark, round_of};

use plan::{BLOCKS, FIRSTS, MOST_PLACES, MOST_SETS};

// Room for what is lent: a random list, and behind it a key. No line has more numbers.
pub const SPACE: usize = KEY_AT + ROOM;

// Past every random list.
pub const KEY_AT: usize = FIRSTS + MOST_SETS * MOST_PLACES;

// Room for a key or a message.
pub const ROOM: usize = MOST_PLACES + MOST_SETS * BLOCKS;

// A buffer that is lent to a call has it throughout.
pub const MARK: u16 = 7;

pub fn marked<const N: usize>() -> [u16; N]
    ensures { result ≡ replicate N mark }
{
    [MARK; N]
}

pub fn number_at(s: &[u16], i: usize) -> u32
    ensures { (result ≡ slice_index s.now i) × (result ≤ 65535) }
{
    s.get(i).map_or(0, |x| u32::from(*x))
}

// A round's low sixteen bits come first.
const HIGH: u32 = 65536;

#[tactic(auto, unfolding(crate::specs::Lists::round_of))]
pub fn round_at(s: &[u16], i: usize) -> u32
    ensures { result ≡ round_of s.now i }
{
    let low_first = rest(s, i);
    number_at(low_first, 0) + HIGH * number_at(low_first, 1)
}

pub fn front(s: &[u16], n: usize) -> &[u16]
    ensures { result.now ≡ take n s.now }
{
    &s[..n.min(s.len())]
}

pub fn rest(s: &[u16], from: usize) -> &[u16]
    ensures { result.now ≡ drop from s.now }
{
    &s[from.min(s.len())..]
}

// Writes s into out from `at` on, and answers whether it fits.
pub fn copy_to(s: &[u16], out: &mut [u16], at: usize) -> bool
    ensures fits { result ≡ nat_le (at + length s.now) (length out.old) }
    ensures left { out.new
        ≡ (if leb (at + length s.now) (length out.old) then sets out.old at s.now else out.old) }
{
    if out.len() < at || out.len() - at < s.len() {
        return false;
    }
    out[at..at + s.len()].copy_from_slice(s);
    true
}

// A random list and a key that are lent to calls, the key behind the longest list; how many elements they have.
#[derive(Drop)]
pub struct Lent {
    pub numbers: [u16; SPACE],
    pub list: usize,
    pub key: usize,
}

impl Lent {
    // Nothing yet.
    pub fn new() -> Lent
        ensures nothing { (list_of result ≡ []) × (key_of result ≡ []) }
        ensures space { result.numbers ≡ replicate lent_length 0 }
    {
        Lent {
            numbers: [0; SPACE],
            list: 0,
            key: 0,
        }
    }

    // Nothing any more.
    pub fn clear(&mut self)
        ensures { (list_of self.new ≡ []) × (key_of self.new ≡ []) }
    {
        self.list = 0;
        self.key = 0;
    }

    pub fn list(&self) -> &[u16]
        ensures { result.now ≡ list_of self.now }
    {
        front(&self.numbers, self.list)
    }

    pub fn key(&self) -> &[u16]
        ensures { result.now ≡ key_of self.now }
    {
        front(rest(&self.numbers, KEY_AT), self.key)
    }

    // Lends another list, and answers whether it fits.
    pub fn lend_list(&mut self, list: &[u16]) -> bool
        ensures { IsTrue result → list_of self.new ≡ list.now }
    {
        self.list = list.len();
        copy_to(list, &mut self.numbers, 0) && list.len() <= KEY_AT
    }

    // The same of a key.
    pub fn lend_key(&mut self, key: &[u16]) -> bool
        ensures { IsTrue result → key_of self.new ≡ key.now }
    {
        self.key = key.len();
        copy_to(key, &mut self.numbers, KEY_AT)
    }
}

// A byte is a number below this.
const BYTE: u16 = 256;

pub fn all_bytes(s: &[u16]) -> bool
    ensures { IsTrue result ↔ ((j : ℕ) → j < length s.now → slice_index s.now j < byte) }
{
    s.iter().all(|x| *x < BYTE)
}

// Writes s, whose numbers are bytes, into out, and answers whether it fits.
pub fn copy_bytes(s: &[u16], out: &mut [u8]) -> bool
    requires { (j : ℕ) → j < length s.now → slice_index s.now j < byte }
    ensures fits { result ≡ nat_le (length s.now) (length out.old) }
    ensures left { out.new
        ≡ (if leb (length s.now) (length out.old) then sets out.old 0 s.now else out.old) }
{
    if out.len() < s.len() {
        return false;
    }
    // by index, since a zip of out would leave to its loans what it holds
    for (i, x) in s.iter().enumerate() {
        out[i] = *x as u8;
    }
    true
}

pub fn all_are(s: &[u16], x: u16) -> bool
    ensures { IsTrue result ↔ (s.now ≡ replicate (length s.now) x) }
{
    s.iter().all(|y| *y == x)
}

// Whether s is the wanted list, then x throughout.
pub fn holds_just(s: &[u16], wanted: &[u16], x: u16) -> bool
    ensures { IsTrue result
        ↔ (s.now ≡ wanted.now ++ replicate (length s.now - length wanted.now) x) }
{
    match s.strip_prefix(wanted) {
        Some(behind) => all_are(behind, x),
        None => false,
    }
}

// Whether a buffer is the wanted list, then the mark throughout.
pub fn marked_behind(s: &[u16], wanted: &[u16]) -> bool
    ensures { IsTrue result
        ↔ (s.now ≡ wanted.now ++ replicate (length s.now - length wanted.now) mark) }
{
    holds_just(s, wanted, MARK)
}
