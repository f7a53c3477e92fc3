// Leaves of document 01: segment b-tree leaf nodes of height 0. All numbers are varints:
//
//     0 (height)
//     first word:               length   bytes    list length   posting list
//     each later word: prefix   length   suffix   list length   posting list
//
// The prefix is the number of bytes shared with the word before, the longest such; the last list ends at the leaf's end.
#![tactic(auto)]

ghost use Rattle.std.specs.Prelude.{◌≡◌, ◌↔◌, ◌+◌, ◌≤◌, length, take};
ghost use Rattle.std.proofs.Math.Seq.{paste};
ghost use Rattle.leaf.specs.Leaf.{SoundFront, is_before};
ghost use Rattle.leaf.specs.Reading.{list_at, suffix_at, head_at, joins_of, with_suffix, front_of, walk_of};
ghost use Rattle.leaf.specs.Answers.{check_numbers, CheckIs, check_leaf};

use doclist::ListCheck;
use varint::Varint;

// The first word stands after the height.
pub const FIRST_WORD: usize = 1;

// What stands at a word's place: the word shares `prefix` bytes with the one before; its suffix is `size` bytes from `from`; its
// posting list goes from `list` up to `next`, where the next word begins.
#[derive(Drop)]
pub struct Head {
    pub prefix: usize,
    pub from: usize,
    pub size: usize,
    pub list: usize,
    pub next: usize,
}

// The sound front of a leaf: how many words are sound, and where they end; both 0 where none is. No Option: the definition `SoundFront` speaks of
// both numbers, which its field for no sound word gives as 0.
#[derive(Drop)]
pub struct Sound {
    pub words: usize,
    pub end: usize,
}

// What checking one leaf answers. An own enum: document 01 gives each case its numbers (`check_numbers`).
#[derive(Clone, Copy)]
pub enum LeafCheck {
    Accepted,
    Shape,
    Broken,
}

impl LeafCheck {
    // Its number: 0, 1 or 3.
    pub fn number(self) -> u32
        ensures { result ≡ (check_numbers self).number }
    {
        match self {
            LeafCheck::Accepted => 0,
            LeafCheck::Shape => 1,
            LeafCheck::Broken => 3,
        }
    }

    // The number beside it.
    pub fn second(self) -> usize
        ensures { result ≡ (check_numbers self).second }
    {
        match self {
            LeafCheck::Accepted | LeafCheck::Shape | LeafCheck::Broken => 0,
        }
    }
}

// The list's length, at `to`, and the list.
fn list_at(s: &[u8], prefix: usize, from: usize, size: usize, to: usize) -> Option<Head>
    ensures { result ≡ list_at s.now prefix from size to }
{
    let Varint::Value {
        value: bytes,
        next: list,
    } = varint::read(s, to)
    else {
        return None;
    };
    let left = (s.len() - list) as u64;
    if left < bytes {
        return None;
    }
    Some(Head {
        prefix,
        from,
        size,
        list,
        next: list + (bytes as usize),
    })
}

// The suffix's length, at `at`, and the suffix.
fn suffix_at(s: &[u8], prefix: usize, at: usize) -> Option<Head>
    ensures { result ≡ suffix_at s.now prefix at }
{
    let Varint::Value { value, next: from } = varint::read(s, at) else {
        return None;
    };
    if value == 0 {
        return None;
    }
    if (common::MAX_WORD as u64) < value {
        return None;
    }
    let size = value as usize;
    if common::MAX_WORD - size < prefix {
        return None;
    }
    if s.len() - from < size {
        return None;
    }
    list_at(s, prefix, from, size, from + size)
}

// The word that begins at a place.
pub fn head_at(s: &[u8], at: usize) -> Option<Head>
    ensures { result ≡ head_at s.now at }
{
    if at == FIRST_WORD {
        return suffix_at(s, 0, at);
    }
    let Varint::Value { value, next } = varint::read(s, at) else {
        return None;
    };
    if (common::MAX_WORD as u64) < value {
        return None;
    }
    suffix_at(s, value as usize, next)
}

// Whether a word that shares exactly `p` bytes with the first `len` of `word`, and goes on with `b`, comes after it.
fn joins(word: &[u8; 64], len: usize, p: usize, b: u8) -> bool
    requires { (len ≤ 64) × (length word.now ≡ 64) }
    ensures { result ≡ joins_of (take len word.now) p b }
{
    if p < len {
        return word[p] < b;
    }
    p == len
}

// Whether a word comes before another by byte comparison; a proper prefix comes first. Byte by byte and not by `<`, with which a writer took up to 1.8
// of its time.
pub fn is_before(a: &[u8], b: &[u8]) -> bool
    ensures { result ≡ is_before a.now b.now }
{
    for i in 0..a.len() {
        if b.len() <= i {
            return false;
        }
        if a[i] < b[i] {
            return true;
        }
        if b[i] < a[i] {
            return false;
        }
    }
    a.len() < b.len()
}

// Puts a suffix after the first `p` bytes of a word's room. Where it does not fit, the room stays as it is.
pub fn put_suffix(word: &mut [u8], p: usize, suffix: &[u8])
    ensures { word.new ≡ with_suffix word.old p suffix.now }
{
    if word.len() < suffix.len() {
        return;
    }
    if word.len() - suffix.len() < p {
        return;
    }
    let end = p + suffix.len();
    word[p..end].copy_from_slice(suffix);
}

// The sound front, where the walk ended: with no sound word it is empty.
fn front(found: Sound) -> Sound
    ensures { result ≡ front_of found }
{
    if found.words == 0 {
        return Sound { words: 0, end: 0 };
    }
    found
}

// The sound front of a leaf: its words up to the first that breaks a rule.
pub fn walk(s: &[u8], columns: u64) -> Sound
    ensures reader { result ≡ walk_of columns s.now }
    ensures content { SoundFront columns s.now result.words result.end }
{
    let Varint::Value {
        value: height,
        next: first,
    } = varint::read(s, 0)
    else {
        return Sound { words: 0, end: 0 };
    };
    if height != 0 {
        return Sound { words: 0, end: 0 };
    }
    let mut word = [0u8; 64];
    let mut len: usize = 0;
    let mut words: usize = 0;
    let mut i = first;
    while i < s.len() {
        let Some(head) = head_at(s, i) else {
            return front(Sound { words, end: i });
        };
        if !joins(&word, len, head.prefix, s[head.from]) {
            return front(Sound { words, end: i });
        }
        let ListCheck::Accepted = doclist::check(&s[head.list..head.next], columns) else {
            return front(Sound { words, end: i });
        };
        let to = head.from + head.size;
        put_suffix(&mut word, head.prefix, &s[head.from..to]);
        len = head.prefix + head.size;
        words += 1;
        i = head.next;
    }
    front(Sound { words, end: i })
}

// Checks one leaf.
pub fn check(leaf: &[u8], columns: u32) -> LeafCheck
    ensures reader { result ≡ check_leaf columns leaf.now }
    ensures exact { (a : LeafCheck) → (result ≡ a) ↔ CheckIs columns leaf.now a }
{
    if columns == 0 {
        return LeafCheck::Shape;
    }
    if (common::MAX_COLUMNS as u32) < columns {
        return LeafCheck::Shape;
    }
    if common::MAX_INDEX_BYTES < leaf.len() {
        return LeafCheck::Shape;
    }
    let sound = walk(leaf, columns as u64);
    if sound.words == 0 {
        return LeafCheck::Broken;
    }
    if sound.end == leaf.len() {
        return LeafCheck::Accepted;
    }
    LeafCheck::Broken
}
