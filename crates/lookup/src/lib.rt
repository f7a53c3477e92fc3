// Lookups of document 01: the posting list of a word in one leaf, and the entry that decides in two.
#![tactic(auto)]

ghost use Rattle.std.specs.Prelude.{◌≡◌, ◌↔◌, List, true, ℕ, ◌≤◌, ◌<◌, length};
ghost use Rattle.leaf.specs.Leaf.{Term, LeafIs};
ghost use Rattle.lookup.specs.Order.{OrderIs, SharedMost, StandsIs};
ghost use Rattle.lookup.specs.Words.{WordFound, WordIs, word_numbers, word_read, WordGiven};
ghost use Rattle.lookup.specs.Entries.{EntryFound, BothLeaves, Decides, DecidingShape, DecidingIs, deciding_numbers, EntryGiven};

use doclist::EntryAt;
use leaf::LeafCheck;
use std::cmp::Ordering;
use varint::Varint;

// Document 01's numbers of the answers.
const ACCEPTED: u32 = 0;

const SHAPE: u32 = 1;

const BROKEN: u32 = 3;

// ---- one leaf

// The stored numbers outside posting lists: the height; of the first word its size and that of its list; of a later word its prefix
// too.
const HEIGHT_NUMBERS: u64 = 1;

const FIRST_NUMBERS: u64 = 2;

const LATER_NUMBERS: u64 = 3;

// How a word stands to the one sought. Not std's `Ordering`, since `Less` carries what the two share.
#[derive(Drop)]
enum Order {
    // It comes before, and shares so many bytes with it from the start.
    Less(usize),
    Equal,
    Greater,
}

// What looking a word up in one leaf answers. An own enum: document 01 gives each case its numbers (`word_numbers`).
#[derive(Clone, Copy)]
pub enum WordAnswer {
    // The word's posting list is `size` bytes from `start`; `read` numbers were read outside posting lists.
    Found {
        start: usize,
        size: usize,
        read: u64,
    },
    // The leaf does not have the word.
    Nothing {
        read: u64,
    },
    // The column count, the leaf's size or the word's length is not allowed.
    Shape,
    // The leaf breaks a rule.
    Broken,
}

// How two byte strings stand to each other.
fn compare(v: &[u8], w: &[u8]) -> Order
    ensures { OrderIs v.now w.now result }
{
    for i in 0..v.len().min(w.len()) {
        match v[i].cmp(&w[i]) {
            Ordering::Less => return Order::Less(i),
            Ordering::Equal => {}
            Ordering::Greater => return Order::Greater,
        }
    }
    match v.len().cmp(&w.len()) {
        Ordering::Less => Order::Less(v.len()),
        Ordering::Equal => Order::Equal,
        Ordering::Greater => Order::Greater,
    }
}

// How the next word of a leaf stands to `word`: it shares `prefix` bytes with the word before it and goes on with
// `suffix`; the word before comes before `word` and shares `same` bytes with it.
fn stands(word: &[u8], same: usize, prefix: usize, suffix: &[u8]) -> Order
    requires { same ≤ length word.now }
    ensures most { SharedMost (length word.now) result }
    ensures order { StandsIs word.now same prefix suffix.now result }
{
    if prefix < same {
        return Order::Greater;
    }
    if same < prefix {
        return Order::Less(same);
    }
    match compare(suffix, &word[same..]) {
        Order::Less(n) => Order::Less(same + n),
        Order::Equal => Order::Equal,
        Order::Greater => Order::Greater,
    }
}

// Finds the posting list of a word in a leaf that was checked: up to the first word that does not come before it.
fn seek(leaf: &[u8], word: &[u8]) -> WordAnswer
    requires { 0 < length word.now }
    ensures { (columns : ℕ) (ts : List Term) → LeafIs columns leaf.now ts → WordFound ts word.now result }
{
    let Varint::Value { next: first, .. } = varint::read(leaf, 0) else {
        return WordAnswer::Nothing { read: 0 };
    };
    let mut read: u64 = HEIGHT_NUMBERS;
    let mut numbers: u64 = FIRST_NUMBERS;
    let mut same: usize = 0;
    let mut i = first;
    while i < leaf.len() {
        let Some(head) = leaf::head_at(leaf, i) else {
            return WordAnswer::Nothing { read };
        };
        read += numbers;
        numbers = LATER_NUMBERS;
        let to = head.from + head.size;
        match stands(word, same, head.prefix, &leaf[head.from..to]) {
            Order::Less(n) => {
                same = n;
            }
            Order::Equal => {
                return WordAnswer::Found {
                    start: head.list,
                    size: head.next - head.list,
                    read,
                };
            }
            Order::Greater => {
                return WordAnswer::Nothing { read };
            }
        }
        i = head.next;
    }
    WordAnswer::Nothing { read }
}

// The posting list of a word in one leaf.
pub fn find_list(leaf: &[u8], columns: u32, word: &[u8]) -> WordAnswer
    ensures { (a : WordAnswer) → (result ≡ a) ↔ WordIs columns leaf.now word.now a }
{
    if word.len() == 0 {
        return WordAnswer::Shape;
    }
    if common::MAX_WORD < word.len() {
        return WordAnswer::Shape;
    }
    match leaf::check(leaf, columns) {
        LeafCheck::Accepted => seek(leaf, word),
        LeafCheck::Shape => WordAnswer::Shape,
        LeafCheck::Broken => WordAnswer::Broken,
    }
}

// The number of an answer.
pub fn word_number(answer: WordAnswer) -> u32
    ensures { result ≡ (word_numbers answer).number }
{
    match answer {
        WordAnswer::Found { .. } | WordAnswer::Nothing { .. } => ACCEPTED,
        WordAnswer::Shape => SHAPE,
        WordAnswer::Broken => BROKEN,
    }
}

// The second number: the bytes of the part.
pub fn word_second(answer: WordAnswer) -> u64
    ensures { result ≡ (word_numbers answer).second }
{
    match answer {
        WordAnswer::Found { size, .. } => size as u64,
        WordAnswer::Nothing { .. } | WordAnswer::Shape | WordAnswer::Broken => 0,
    }
}

// How many stored numbers were read outside posting lists.
pub fn word_read(answer: WordAnswer) -> u64
    ensures { result ≡ word_read answer }
{
    match answer {
        WordAnswer::Found { read, .. } | WordAnswer::Nothing { read } => read,
        WordAnswer::Shape | WordAnswer::Broken => 0,
    }
}

// The posting list of a word in one leaf, as a part of it; the empty part where there is none. `number` and `second` get
// the answer's two numbers, `read` the numbers read.
pub fn lookup<'a>(
    leaf: &'a [u8],
    columns: u32,
    word: &[u8],
    number: &mut u32,
    second: &mut u64,
    read: &mut u64,
) -> &'a [u8]
    ensures { WordGiven columns leaf.now word.now result.now number.new second.new read.new }
{
    let answer = find_list(leaf, columns, word);
    *number = word_number(answer);
    *second = word_second(answer);
    *read = word_read(answer);
    match answer {
        WordAnswer::Found { start, size, .. } => {
            let end = start + size;
            &leaf[start..end]
        }
        _ => &leaf[0..0],
    }
}

// ---- two leaves

// What looking for the entry that decides answers. An own enum: document 01 gives each case its numbers (`deciding_numbers`).
#[derive(Clone, Copy)]
pub enum EntryAnswer {
    // The newer leaf decides: the entry is `size` bytes from `start` in it.
    Newer { start: usize, size: usize },
    // The older leaf decides.
    Older { start: usize, size: usize },
    // Neither leaf has an entry for the word and the docid.
    Nothing,
    // The column count, the leaves' size together or the word's length is not allowed.
    Shape,
    NewerBroken,
    OlderBroken,
}

// Where the entry of a docid for a word stands in a leaf that was checked; the docid comes as its key.
fn entry_in(leaf: &[u8], columns: u64, word: &[u8], docid: u64) -> EntryAt
    requires { (0 < length word.now) × ((ts : List Term) × LeafIs columns leaf.now ts) }
    ensures { (ts : List Term) → LeafIs columns leaf.now ts → EntryFound ts word.now docid result }
{
    let WordAnswer::Found { start, size, .. } = seek(leaf, word) else {
        return EntryAt::Absent;
    };
    let end = start + size;
    let EntryAt::At {
        start: first,
        end: last,
    } = doclist::find(&leaf[start..end], columns, docid)
    else {
        return EntryAt::Absent;
    };
    EntryAt::At {
        start: start + first,
        end: start + last,
    }
}

// The entry that decides in two leaves that were checked: the newer leaf's, a deletion too, or else the older's.
fn decide(newer: &[u8], older: &[u8], columns: u64, word: &[u8], docid: u64) -> EntryAnswer
    requires { (0 < length word.now) × ((ts : List Term) × LeafIs columns newer.now ts) × ((us : List Term) × LeafIs columns older.now us) }
    ensures { (ts us : List Term) → BothLeaves columns newer.now older.now ts us → Decides ts us word.now docid result }
{
    if let EntryAt::At { start, end } = entry_in(newer, columns, word, docid) {
        return EntryAnswer::Newer {
            start,
            size: end - start,
        };
    }
    let EntryAt::At { start, end } = entry_in(older, columns, word, docid) else {
        return EntryAnswer::Nothing;
    };
    EntryAnswer::Older {
        start,
        size: end - start,
    }
}

// Whether number 1 is not due to a lookup in two leaves.
fn entry_shape(newer: &[u8], older: &[u8], columns: u32, word: &[u8]) -> bool
    ensures { (result ≡ true) ↔ DecidingShape columns newer.now older.now word.now }
{
    if columns == 0 {
        return false;
    }
    if (common::MAX_COLUMNS as u32) < columns {
        return false;
    }
    if common::MAX_INDEX_BYTES < newer.len() {
        return false;
    }
    if common::MAX_INDEX_BYTES - newer.len() < older.len() {
        return false;
    }
    if word.len() == 0 {
        return false;
    }
    if common::MAX_WORD < word.len() {
        return false;
    }
    true
}

// The entry that decides in two leaves, the newer and the older.
pub fn find_entry(newer: &[u8], older: &[u8], columns: u32, word: &[u8], docid: i64) -> EntryAnswer
    ensures { (a : EntryAnswer) → (result ≡ a) ↔ DecidingIs columns newer.now older.now word.now docid a }
{
    if !entry_shape(newer, older, columns, word) {
        return EntryAnswer::Shape;
    }
    let LeafCheck::Accepted = leaf::check(newer, columns) else {
        return EntryAnswer::NewerBroken;
    };
    let LeafCheck::Accepted = leaf::check(older, columns) else {
        return EntryAnswer::OlderBroken;
    };
    decide(
        newer,
        older,
        columns as u64,
        word,
        doclist::keys::key_of(docid),
    )
}

// The number of an answer.
pub fn entry_number(answer: EntryAnswer) -> u32
    ensures { result ≡ (deciding_numbers answer).number }
{
    match answer {
        EntryAnswer::Newer { .. } | EntryAnswer::Older { .. } | EntryAnswer::Nothing => ACCEPTED,
        EntryAnswer::Shape => SHAPE,
        EntryAnswer::NewerBroken | EntryAnswer::OlderBroken => BROKEN,
    }
}

// The second number: the bytes of the part, or the broken leaf, the newer 0 and the older 1.
pub fn entry_second(answer: EntryAnswer) -> u64
    ensures { result ≡ (deciding_numbers answer).second }
{
    match answer {
        EntryAnswer::Newer { size, .. } | EntryAnswer::Older { size, .. } => size as u64,
        EntryAnswer::Nothing | EntryAnswer::Shape | EntryAnswer::NewerBroken => 0,
        EntryAnswer::OlderBroken => 1,
    }
}

// The entry that decides in two leaves, as a part of whichever holds it; the empty part where there is none. `number` and
// `second` get the answer's two numbers.
pub fn deciding<'a>(
    newer: &'a [u8],
    older: &'a [u8],
    columns: u32,
    word: &[u8],
    docid: i64,
    number: &mut u32,
    second: &mut u64,
) -> &'a [u8]
    ensures { EntryGiven columns newer.now older.now word.now docid result.now number.new second.new }
{
    let answer = find_entry(newer, older, columns, word, docid);
    *number = entry_number(answer);
    *second = entry_second(answer);
    match answer {
        EntryAnswer::Newer { start, size } => {
            let end = start + size;
            &newer[start..end]
        }
        EntryAnswer::Older { start, size } => {
            let end = start + size;
            &older[start..end]
        }
        _ => &newer[0..0],
    }
}
