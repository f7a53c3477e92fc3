// The merge of the posting lists of one word, newest first. Cursors over the lists stand on the first entry that is left of each. Of those on
// the least docid the newest decides, and its list gives all entries up to the next docid of another list at once: each follows the one
// that is stored before it, so that its bytes stay as they are. Only the first is stored with a new difference:
//
//     difference   body: for each column [1, column] position + 2, ..   0   difference   body   ..
#![tactic(auto)]

ghost use Rattle.std.specs.Prelude.{ℕ, ◌+◌, ◌≤◌, ◌<◌, ◌≡◌, List, ◌++◌, length};
ghost use Rattle.common.specs.Bounds.{max_leaves, max_index_bytes};
ghost use Rattle.common.specs.Bytes.{part, span, over};
ghost use Rattle.varint.specs.Varint.{encode};
ghost use Rattle.doclist.specs.Docid.{difference};
ghost use Rattle.doclist.specs.Doclist.{Entry};
ghost use Rattle.row.specs.Row.{body_bytes};
ghost use Rattle.cursors.specs.Groups.{last_key};
ghost use Rattle.cursors.specs.Arrays.{is_open, StandsOn, ListAt};
ghost use Rattle.postings.specs.Lists.{is_dropped, over_cursor, FirstOf, Stretched, StretchInside, Turned, TurnInside, BytesPut, EntriesStored, ListPut};

use common::{MAX_INDEX_BYTES, MAX_LEAVES};
use doclist::keys::{MAX_KEY, ZERO_KEY};
use varint::Varint;

// The body of a cursor that has no entry left; it stands on the last docid then. A number and no Option: the cursors lend their bodies in an
// array of numbers.
const NO_BODY: u16 = 0;

// Where a cursor stands. A twin of the type in `cursors`, whose `entry_after` asks nothing of the list and promises nothing of where the next body lies;
// the one here asks that the list lies in the leaves, and `entry_at` promises that the next body lies in the list.
#[derive(Clone, Copy)]
struct Place {
    docid: u64,
    body: u16,
}

// Where a cursor stands that has no entry left.
const NOWHERE: Place = Place {
    docid: MAX_KEY,
    body: NO_BODY,
};

// The cursor to go on with: the newest on the least docid; and the least docid of the others, the last docid where there is no other.
#[derive(Clone, Copy)]
struct First {
    at: usize,
    docid: u64,
    rest: u64,
}

// Entries of one list, one after the other: where their bytes end, the docid of the last, and where the cursor stands after them.
#[derive(Drop)]
struct Stretch {
    end: usize,
    last: u64,
    next: Place,
}

// What a cursor gives: where the bytes begin, from the body of the first entry on, and how many there are, 0 for no entry; the docid up to
// which all is done; where the cursor stands then. No Option: `last` and `next` are told for no entry too.
#[derive(Clone, Copy)]
struct Turn {
    start: usize,
    size: usize,
    last: u64,
    next: Place,
}

// What is stored: how many bytes, and the docid of the last entry, that of docid 0 before the first.
#[derive(Drop)]
struct Stored {
    size: usize,
    last: u64,
}

// The place of the closing 0 of the body that begins at `from`, in a list whose last byte is at `to`. `first_zero` of `cursors` answers
// None where there is no 0; the answer here is `to` then, so that it is always a place of the list.
fn close_at(leaves: &[u8], from: usize, to: usize) -> usize
    requires { (from ≤ to) × (to < length leaves.now) }
    ensures { result ≡ from + span is_open (part leaves.now from to) }
{
    for i in from..to {
        if leaves[i] == 0 {
            return i;
        }
    }
    to
}

// The entry whose number stands at `at`, after the entry for `docid`, in a list whose last byte is at `last`.
fn entry_at(leaves: &[u8], docid: u64, at: usize, last: u16) -> Place
    ensures content { (e : Entry) (rest : List Entry) (body : ℕ) → StandsOn leaves.now e rest docid body last → at ≡ body + length (body_bytes e.columns) → ListAt leaves.now rest result.docid result.body last }
    ensures onward { (docid < last_key → docid < result.docid) × (docid ≤ result.docid) × (result.body ≤ last) × (result.docid < last_key → at < result.body) }
{
    let to = last as usize;
    if to < at {
        return NOWHERE;
    }
    let Varint::Value { value, next } = varint::read(leaves, at) else {
        return NOWHERE;
    };
    if value == 0 {
        return NOWHERE;
    }
    if MAX_KEY - docid < value {
        return NOWHERE;
    }
    if to < next {
        return NOWHERE;
    }
    Place {
        docid: docid + value,
        body: next as u16,
    }
}

// Where the cursor stands after the entry whose body is at `body`.
fn entry_after(leaves: &[u8], docid: u64, body: u16, last: u16) -> Place
    requires { (body ≤ last) × (last < length leaves.now) }
    ensures content { (e : Entry) (rest : List Entry) → StandsOn leaves.now e rest docid body last → ListAt leaves.now rest result.docid result.body last }
    ensures onward { docid < last_key → docid < result.docid }
{
    let close = close_at(leaves, body as usize, last as usize);
    entry_at(leaves, docid, close + 1, last)
}

// Whether an entry is dropped, by the first byte of its body: the full merge drops deletions, whose body is the byte 0.
fn is_dropped(keep: bool, first: u8) -> bool
    ensures { result ≡ is_dropped keep first }
{
    !keep && first == 0
}

// The entry for `docid`, and those after it that are before `rest` and kept, up to the first that is not.
fn stretch_from(keep: bool, leaves: &[u8], docid: u64, body: u16, last: u16, rest: u64) -> Stretch
    requires { (body ≤ last) × (last < length leaves.now) }
    ensures content { (e : Entry) (es : List Entry) → StandsOn leaves.now e es docid body last → Stretched keep leaves.now rest e es last result }
    ensures place { StretchInside docid body last result }
{
    let to = last as usize;
    let mut at = docid;
    let mut close = close_at(leaves, body as usize, to);
    let mut next = entry_at(leaves, docid, close + 1, last);
    while next.docid < rest {
        let start = next.body as usize;
        if is_dropped(keep, leaves[start]) {
            break;
        }
        at = next.docid;
        close = close_at(leaves, start, to);
        next = entry_at(leaves, at, close + 1, last);
    }
    Stretch {
        end: close + 1,
        last: at,
        next,
    }
}

// No entry.
fn passed_over(last: u64, next: Place) -> Turn
    ensures { result ≡ record { start = 0; size = 0; last = last; next = next } }
{
    Turn {
        start: 0,
        size: 0,
        last,
        next,
    }
}

// What the cursor on `docid` gives, where all docids before `from` are done and no other cursor stands before `rest`. An entry for a docid that
// is done is hidden by a newer one.
fn turn_of(
    keep: bool,
    leaves: &[u8],
    from: u64,
    docid: u64,
    body: u16,
    last: u16,
    rest: u64,
) -> Turn
    ensures content { (e : Entry) (es : List Entry) → StandsOn leaves.now e es docid body last → Turned keep leaves.now from rest docid e es body last result }
    ensures place { TurnInside leaves.now docid result }
{
    let start = body as usize;
    let to = last as usize;
    if to < start {
        return passed_over(docid, NOWHERE);
    }
    if leaves.len() <= to {
        return passed_over(docid, NOWHERE);
    }
    if docid < from {
        return passed_over(from - 1, entry_after(leaves, docid, body, last));
    }
    if is_dropped(keep, leaves[start]) {
        return passed_over(docid, entry_after(leaves, docid, body, last));
    }
    let all = stretch_from(keep, leaves, docid, body, last, rest);
    let next = all.next;
    Turn {
        start,
        size: all.end - start,
        last: all.last,
        next,
    }
}

// Puts an entry's number, and its body with what follows it, at the front of the room.
fn put_entries(out: &mut [u8], number: u64, bytes: &[u8])
    requires { length (encode number ++ bytes.now) ≤ length out.old }
    ensures { out.new ≡ over (encode number ++ bytes.now) out.old }
{
    let at = storing::put_number(out, number);
    storing::put_bytes(&mut out[at..], bytes);
}

// Puts entries at the place `at`, if they are to be written and fit. Where they end.
fn add_entries(
    out: &mut [u8],
    write: bool,
    at: usize,
    before: u64,
    docid: u64,
    bytes: &[u8],
) -> usize
    requires { (at ≤ max_index_bytes) × (length bytes.now ≤ max_index_bytes) }
    ensures { BytesPut write out.old out.new at (encode (difference before docid) ++ bytes.now) result }
{
    let number = docid.wrapping_sub(before);
    let end = at + varint::size(number) + bytes.len();
    if !write {
        return end;
    }
    if out.len() < end {
        return end;
    }
    put_entries(&mut out[at..], number, bytes);
    end
}

// Stores what a cursor on `docid` gave after what is stored already. Above the largest size nothing is added any more.
fn store(
    out: &mut [u8],
    write: bool,
    stored: Stored,
    docid: u64,
    leaves: &[u8],
    turn: Turn,
) -> Stored
    requires { TurnInside leaves.now docid turn }
    ensures { EntriesStored write out.old out.new leaves.now docid turn stored result }
{
    if turn.size == 0 {
        return stored;
    }
    if MAX_INDEX_BYTES < stored.size {
        return Stored {
            size: stored.size,
            last: turn.last,
        };
    }
    let start = turn.start;
    let end = start + turn.size;
    let size = add_entries(
        out,
        write,
        stored.size,
        stored.last,
        docid,
        &leaves[start..end],
    );
    Stored {
        size,
        last: turn.last,
    }
}

// Over one more cursor.
fn over_cursor(first: Option<First>, i: usize, docid: u64, body: u16) -> Option<First>
    ensures { result ≡ over_cursor first i docid body }
{
    if body == NO_BODY {
        return first;
    }
    let Some(first) = first else {
        return Some(First {
            at: i,
            docid,
            rest: MAX_KEY,
        });
    };
    if docid < first.docid {
        return Some(First {
            at: i,
            docid,
            rest: first.docid,
        });
    }
    Some(First {
        at: first.at,
        docid: first.docid,
        rest: first.rest.min(docid),
    })
}

// The cursor to go on with of the first `n`.
fn first_of(docids: &[u64], bodies: &[u16], n: usize) -> Option<First>
    requires { (n ≤ max_leaves) × (n ≤ length docids.now) × (n ≤ length bodies.now) }
    ensures { FirstOf docids.now bodies.now n result }
{
    let mut first = None;
    for i in 0..n {
        first = over_cursor(first, i, docids[i], bodies[i]);
    }
    first
}

// Merges the lists of the cursors, newest first: how many bytes the merge takes, and, if `write` is on and it fits, the
// merge over the front of the room. The full merge drops deletions.
pub fn put_list(
    out: &mut [u8],
    write: bool,
    keep: bool,
    leaves: &[u8],
    docids: [u64; MAX_LEAVES],
    bodies: [u16; MAX_LEAVES],
    lasts: [u16; MAX_LEAVES],
    masks: [u16; MAX_LEAVES],
    follows: [u8; MAX_LEAVES],
    n: usize,
) -> usize
    ensures { ListPut write keep leaves.now docids bodies lasts masks follows n out.old out.new result }
{
    if MAX_LEAVES < n {
        return 0;
    }
    let mut at = docids;
    let mut places = bodies;
    let mut from: u64 = 0;
    let mut stored = Stored {
        size: 0,
        last: ZERO_KEY,
    };
    loop {
        let Some(first) = first_of(&at, &places, n) else {
            return stored.size;
        };
        let i = first.at;
        let docid = at[i];
        let turn = turn_of(keep, leaves, from, docid, places[i], lasts[i], first.rest);
        stored = store(out, write, stored, docid, leaves, turn);
        if docid == MAX_KEY {
            return stored.size;
        }
        at[i] = turn.next.docid;
        places[i] = turn.next.body;
        from = turn.last + 1;
    }
}
