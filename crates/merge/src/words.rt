// The words of all leaves, merged: each is taken, from the least on, with its lists from all leaves that have it, and stored with the
// merge of these lists, unless that is empty:
//
//     prefix   length   suffix   list length   posting list
//
// The first word's prefix is the leaf's height: both are the number 0. A list is counted first, for its length, and then written in the same
// way. Most words stand in one leaf only: a leaf goes on alone as long as its words come before those of the others.
ghost use Rattle.std.specs.Prelude.{◌≤◌, ◌<◌, ◌≡◌, true, length};
ghost use Rattle.common.specs.Bounds.{max_word, max_index_bytes};
ghost use Rattle.postings.specs.Lists.{ListPut};
ghost use Rattle.opening.specs.Matching.{TextIs};
ghost use Rattle.merge.specs.Words.{every_word};
ghost use Rattle.merge.specs.Terms.{TermPut, TermAt, StoredFrame, WordAdded, WordTaken, Steps, LoneSteps, Runs, Rounds, TermsPut};

use common::{MAX_INDEX_BYTES, MAX_LEAVES};
use opening::{Front, Lead, Leaves, Text, WordLists};

// A compiled query has so many bytes and words.
const QUERY_BYTES: usize = 512;

const QUERY_WORDS: usize = 16;

// No index has so many words: a word takes at least six bytes.
const MAX_STEPS: usize = 65537;

// What is merged: leaves that are lent together with their ends, and their order by age, by the query that every word matches. Deletions are
// kept or dropped.
#[derive(Clone, Copy)]
struct Lent<'a> {
    keep: bool,
    text: &'a [u8],
    stops: &'a [u16],
    marks: &'a [u8],
    leaves: Leaves<'a>,
}

// The cursors of one word's lists, newest leaf first.
#[derive(Clone, Copy)]
struct Lists {
    docids: [u64; MAX_LEAVES],
    bodies: [u16; MAX_LEAVES],
    lasts: [u16; MAX_LEAVES],
    masks: [u16; MAX_LEAVES],
    follows: [u8; MAX_LEAVES],
    n: usize,
}

// A word that was taken, with what is left after it, and its lists.
#[derive(Drop)]
struct Taken {
    next: WordLists,
    lists: Lists,
}

// What is stored.
#[derive(Clone, Copy)]
struct Stored {
    // The last word that was stored is the first `size` bytes.
    word: [u8; 64],
    size: usize,
    // Where the next word goes.
    at: usize,
    // Whether a word may be left, and the size is not too large yet.
    more: bool,
}

// How far the merge is: what is left of the leaves, and what is stored.
#[derive(Drop)]
struct Stepped {
    fronts: [Front; MAX_LEAVES],
    stored: Stored,
}

// The same where one leaf goes on alone. Two types, here and below, and no generic one: the definitions `Steps` and `Rounds` speak of the fronts of
// all leaves, `LoneSteps` and `Runs` of the lead of one.
#[derive(Drop)]
struct LoneStep {
    lead: Lead,
    stored: Stored,
}

// Where one leaf went on alone, and how many steps are left.
#[derive(Drop)]
struct Run {
    lead: Lead,
    stored: Stored,
    left: usize,
}

// How far the merge is, and how many steps are left.
#[derive(Drop)]
struct Round {
    fronts: [Front; MAX_LEAVES],
    stored: Stored,
    left: usize,
}

// Puts the merge of a word's lists at the front of the room, if it is to be written and fits. How many bytes it takes.
fn put_list(out: &mut [u8], write: bool, lent: Lent<'_>, lists: Lists) -> usize
    ensures { ListPut write lent.entry.keep lent.entry.leaves.bytes.now lists.docids lists.bodies lists.lasts lists.masks lists.follows lists.n out.old out.new result }
{
    postings::put_list(
        out,
        write,
        lent.keep,
        lent.leaves.bytes,
        lists.docids,
        lists.bodies,
        lists.lasts,
        lists.masks,
        lists.follows,
        lists.n,
    )
}

// Puts a word after the word `before`, with the merge of its lists, at the front of the room, if it fits. How many bytes it takes: 0 where
// the merge has no entry.
fn put_term(out: &mut [u8], lent: Lent<'_>, before: &[u8], word: &[u8], lists: Lists) -> usize
    requires { length word.now ≤ max_word }
    ensures { TermPut lent.entry.keep lent.entry.leaves.bytes.now before.now word.now lists out.old out.new result }
{
    let list = put_list(out, false, lent, lists);
    if list == 0 {
        return 0;
    }
    let size = storing::word_size(before, word) + varint::size(list as u64) + list;
    if out.len() < size {
        return size;
    }
    let mut at = storing::put_word(out, before, word);
    at += storing::put_number(&mut out[at..], list as u64);
    put_list(&mut out[at..], true, lent, lists);
    size
}

// The same at the place `at` of the room. Nothing fits at its end.
fn put_term_at(
    out: &mut [u8],
    at: usize,
    lent: Lent<'_>,
    before: &[u8],
    word: &[u8],
    lists: Lists,
) -> usize
    requires { length word.now ≤ max_word }
    ensures { TermAt lent.entry.keep lent.entry.leaves.bytes.now before.now word.now lists at out.old out.new result }
{
    let from = at.min(out.len());
    put_term(&mut out[from..], lent, before, word, lists)
}

// Adds a word with its lists to what is stored.
fn add_word(
    out: &mut [u8],
    lent: Lent<'_>,
    stored: Stored,
    word: [u8; 64],
    size: usize,
    lists: Lists,
) -> Stored
    requires { (stored.size ≤ max_word) × (stored.at ≤ max_index_bytes) × (size ≤ max_word) }
    ensures { WordAdded lent.entry.keep lent.entry.leaves.bytes.now stored word size lists out.old out.new result }
{
    let before = &stored.word[..stored.size];
    let more = put_term_at(out, stored.at, lent, before, &word[..size], lists);
    if more == 0 {
        return Stored {
            more: true,
            ..stored
        };
    }
    let end = stored.at + more;
    Stored {
        word,
        size,
        at: end,
        more: end <= MAX_INDEX_BYTES,
    }
}

// Takes the next word from all leaves that have it.
fn take(lent: Lent<'_>, fronts: [Front; MAX_LEAVES]) -> Taken
    ensures { WordTaken lent.entry.text.now lent.entry.stops.now lent.entry.marks.now lent.entry.leaves.bytes.now lent.entry.leaves.ends.now lent.entry.leaves.order.now fronts result }
{
    let mut docids = [0u64; MAX_LEAVES];
    let mut bodies = [0u16; MAX_LEAVES];
    let mut lasts = [0u16; MAX_LEAVES];
    let mut masks = [0u16; MAX_LEAVES];
    let mut follows = [0u8; MAX_LEAVES];
    let every = Text {
        bytes: lent.text,
        stops: lent.stops,
        marks: lent.marks,
        count: 1,
    };
    let next = opening::next_word(
        every,
        lent.leaves,
        fronts,
        &mut docids,
        &mut bodies,
        &mut lasts,
        &mut masks,
        &mut follows,
    );
    let lists = Lists {
        docids,
        bodies,
        lasts,
        masks,
        follows,
        n: next.n,
    };
    Taken { next, lists }
}

// Takes the next word and adds it.
fn step(out: &mut [u8], lent: Lent<'_>, fronts: [Front; MAX_LEAVES], stored: Stored) -> Stepped
    requires { (stored.size ≤ max_word) × (stored.at ≤ max_index_bytes) }
    ensures { Steps lent.entry.keep lent.entry.text.now lent.entry.stops.now lent.entry.marks.now lent.entry.leaves.bytes.now lent.entry.leaves.ends.now lent.entry.leaves.order.now fronts stored out.old out.new result }
{
    let taken = take(lent, fronts);
    let next = taken.next;
    let word = next.word;
    let rest = next.fronts;
    if next.n == 0 {
        return Stepped {
            fronts: rest,
            stored: Stored {
                more: false,
                ..stored
            },
        };
    }
    let lists = taken.lists;
    let added = add_word(out, lent, stored, word, next.size, lists);
    Stepped {
        fronts: rest,
        stored: added,
    }
}

// Takes the next word of the leaf that leads and adds it, if no other leaf has it or one before it.
fn lone_step(out: &mut [u8], lent: Lent<'_>, lead: Lead, stored: Stored) -> Option<LoneStep>
    requires { (stored.size ≤ max_word) × (stored.at ≤ max_index_bytes) }
    ensures { LoneSteps lent.entry.keep lent.entry.text.now lent.entry.stops.now lent.entry.marks.now lent.entry.leaves.bytes.now lent.entry.leaves.ends.now lent.entry.leaves.order.now lead stored out.old out.new result }
{
    let mut docids = [0u64; MAX_LEAVES];
    let mut bodies = [0u16; MAX_LEAVES];
    let mut lasts = [0u16; MAX_LEAVES];
    let mut masks = [0u16; MAX_LEAVES];
    let mut follows = [0u8; MAX_LEAVES];
    let every = Text {
        bytes: lent.text,
        stops: lent.stops,
        marks: lent.marks,
        count: 1,
    };
    let lone = opening::take_alone(
        every,
        lent.leaves,
        lead,
        &mut docids,
        &mut bodies,
        &mut lasts,
        &mut masks,
        &mut follows,
    )?;
    let lists = Lists {
        docids,
        bodies,
        lasts,
        masks,
        follows,
        n: 1,
    };
    let word = lone.word;
    let rest = lone.lead;
    let added = add_word(out, lent, stored, word, lone.size, lists);
    Some(LoneStep {
        lead: rest,
        stored: added,
    })
}

// Adds the words of the leaf that leads, up to the first that another leaf may have or come before.
fn go_alone(out: &mut [u8], lent: Lent<'_>, first: Lead, from: Stored, most: usize) -> Run
    requires { StoredFrame from }
    ensures { Runs lent.entry.keep lent.entry.text.now lent.entry.stops.now lent.entry.marks.now lent.entry.leaves.bytes.now lent.entry.leaves.ends.now lent.entry.leaves.order.now first from most out.old out.new result }
{
    let mut lead = first;
    let mut stored = from;
    let mut left = most;
    // How many steps are left is answered too: no loop over a range.
    while stored.more && 0 < left {
        let Some(taken) = lone_step(out, lent, lead, stored) else {
            break;
        };
        lead = taken.lead;
        stored = taken.stored;
        left -= 1;
    }
    Run { lead, stored, left }
}

// Adds the words that the next leaf has alone; where there is none, the next word of all leaves.
fn go_on(
    out: &mut [u8],
    lent: Lent<'_>,
    fronts: [Front; MAX_LEAVES],
    stored: Stored,
    left: usize,
) -> Round
    requires { StoredFrame stored × (stored.more ≡ true) × (0 < left) }
    ensures { Rounds lent.entry.keep lent.entry.text.now lent.entry.stops.now lent.entry.marks.now lent.entry.leaves.bytes.now lent.entry.leaves.ends.now lent.entry.leaves.order.now fronts stored left out.old out.new result }
{
    let lead = opening::lead_of(fronts, lent.leaves.order.len(), lent.leaves.bytes.len());
    let ran = go_alone(out, lent, lead, stored, left);
    let passed = ran.lead;
    let held = ran.stored;
    let rest = opening::with_lead(fronts, passed);
    if ran.left < left {
        return Round {
            fronts: rest,
            stored: held,
            left: ran.left,
        };
    }
    if !held.more {
        return Round {
            fronts: rest,
            stored: held,
            left: 0,
        };
    }
    let next = step(out, lent, rest, held);
    let fronts = next.fronts;
    let stored = next.stored;
    Round {
        fronts,
        stored,
        left: ran.left - 1,
    }
}

// Merges the leaves by the query that every word matches.
fn put_words(out: &mut [u8], lent: Lent<'_>) -> usize
    ensures { TextIs lent.entry.text.now lent.entry.stops.now lent.entry.marks.now 1 every_word → TermsPut lent.entry.keep lent.entry.leaves.bytes.now lent.entry.leaves.ends.now lent.entry.leaves.order.now out.old out.new result }
{
    let every = Text {
        bytes: lent.text,
        stops: lent.stops,
        marks: lent.marks,
        count: 1,
    };
    let mut fronts = opening::begin(every, lent.leaves);
    let mut stored = Stored {
        word: [0u8; 64],
        size: 0,
        at: 0,
        more: true,
    };
    let mut left = MAX_STEPS;
    while stored.more && 0 < left {
        let next = go_on(out, lent, fronts, stored, left);
        fronts = next.fronts;
        stored = next.stored;
        left = next.left;
    }
    stored.at
}

// Merges the leaves: how many bytes the leaf takes, and, if it fits, the leaf over the front of the room. The full merge drops deletions. The
// query is one empty word with a star.
pub(crate) fn put_terms(
    out: &mut [u8],
    keep: bool,
    leaves: &[u8],
    ends: &[u32],
    order: &[u8],
) -> usize
    ensures { TermsPut keep leaves.now ends.now order.now out.old out.new result }
{
    let text = [0u8; QUERY_BYTES];
    let stops = [0u16; QUERY_WORDS];
    let mut marks = [0u8; QUERY_WORDS];
    marks[0] = 1;
    let lent = Lent {
        keep,
        text: &text,
        stops: &stops,
        marks: &marks,
        leaves: Leaves {
            bytes: leaves,
            ends,
            order,
        },
    };
    put_words(out, lent)
}
