// Whether a NEAR chain of a compiled query holds in one row. The chain is evaluated from the left, word by word: the
// candidates of a word are its positions, numbered as the row's walk finds them, and a bit for each says whether the chain so
// far can end there. A word is held against the marked positions of the word before, so many at a time as there are keys;
// these are in order, so that a row with many positions does not take the square of their number.
#![tactic(auto)]

ghost use Rattle.std.specs.Prelude.{◌≡◌, ◌↔◌, true, List, ◌+◌, ◌≤◌, ◌<◌, length};
ghost use Rattle.row.specs.Row.{Hit};
ghost use Rattle.row.specs.Walk.{WholeRow, candidates};
ghost use Rattle.doclist.specs.Doclist.{position_limit};
ghost use Rattle.chain.specs.Chains.{RowFits, bit_words, mark_words, run_end, chain_end, DecidesChain, ChainLengths, NotEvaluated, RoomsKept};
ghost use Rattle.chain.specs.Keys.{Ordered, Bound, SomeKey, Inserts};
ghost use Rattle.chain.specs.Reaching.{is_marked, old_of, word_with, put_at, distance_at, SomeAllowed, Bounded, ReachedBy, InWindow, Pushes, source_of, Marks, Steps, window_of, operand_start};
ghost use Rattle.chain.specs.Going.{Continues};

// How a word is tied to the one before: 1, the next word of its phrase; 2 and 3, the first after a NEAR without and with a number. A word that begins an
// operand of AND, OR or NOT has 0.
use lexer::{CONTINUES, NEARS, NEARS_WITHIN};
use row::Row;

// A row has at most as many positions as the leaves have bytes.
const MAX_CANDIDATES: usize = 65536;

// The number of words that hold a bit for each candidate.
const BIT_WORDS: usize = 1024;

// The number of words of the rooms: the bits, and after them the keys.
pub const MARK_WORDS: usize = 2048;

// The bits of a word.
const WORD_BITS: usize = 64;

// The answer where the arrays are too short.
const TOO_SHORT: bool = false;

// The distance of a NEAR with no number.
const BARE_DISTANCE: u64 = 3;

// More than any position.
const COLUMN_SIZE: u64 = 0x1_0000_0000;

// The words of a query: how each is tied to the one before, the distance at NEAR, and the columns that it may stand in.
// The ties are numbers, not an enum: `holds` promises (`otherwise`, `frame`) and `chain_end` computes for every byte.
#[derive(Clone, Copy)]
pub struct Words<'a> {
    pub ties: &'a [u8],
    pub distances: &'a [u16],
    pub columns: &'a [u16],
}

// Where a word may stand beside the one before it in its chain: at `position`, where that one stands at a `place` with
// position <= place + back, place < position + ahead and place != position + apart.
#[derive(Clone, Copy)]
struct Window {
    // The number of the word before.
    word: usize,
    back: u64,
    ahead: u64,
    // After NEAR, both operands would end at that place: two occurrences that end alike are not near.
    apart: u64,
}

// Whether candidate `j` is marked.
fn is_marked(marks: &[u64], j: usize) -> bool
    ensures { result ≡ is_marked marks.now j }
{
    let at = j / WORD_BITS;
    if marks.len() <= at {
        return false;
    }
    (marks[at] >> (j % WORD_BITS)) % 2 == 1
}

// Whether candidate `j` is marked, in marks that are not fresh.
fn was_marked(fresh: bool, marks: &[u64], j: usize) -> bool
    ensures { result ≡ old_of fresh marks.now j }
{
    if fresh {
        return false;
    }
    is_marked(marks, j)
}

// A word with bit `k` set or not.
fn with_bit(word: u64, k: usize, set: bool) -> u64
    requires { k < 64 }
    ensures { result ≡ word_with word k set }
{
    if ((word >> k) % 2 == 1) == set {
        return word;
    }
    word ^ (1u64 << k)
}

// Marks candidate `j` or not.
fn put_mark(marks: &mut [u64], j: usize, reached: bool)
    ensures { marks.new ≡ put_at marks.old j reached }
{
    let at = j / WORD_BITS;
    if marks.len() <= at {
        return;
    }
    marks[at] = with_bit(marks[at], j % WORD_BITS, reached);
}

// The first word after the word `from` that is not tied to the one before by a number from 1 to `most`.
fn run_end(ties: &[u8], from: usize, most: u8) -> usize
    ensures { result ≡ run_end most ties.now from }
{
    if ties.len() <= from {
        return from;
    }
    let ends = |tie: &u8| *tie < CONTINUES || most < *tie;
    match ties[from + 1..].iter().position(ends) {
        Some(words) => from + 1 + words,
        None => ties.len(),
    }
}

// The first word after a chain that begins with the word `from`.
pub fn chain_end(ties: &[u8], from: usize) -> usize
    ensures { result ≡ chain_end ties.now from }
{
    run_end(ties, from, NEARS_WITHIN)
}

// The distance at the NEAR before a word.
fn distance(words: &Words, at: usize) -> u64
    requires { (at < length words.now.ties.now) × (at < length words.now.distances.now) }
    ensures { (result ≡ distance_at words.now.ties.now words.now.distances.now at) × (result < 65536) }
{
    if words.ties[at] == NEARS {
        return BARE_DISTANCE;
    }
    words.distances[at] as u64
}

// Whether the query's word number `i` stands in one of the columns.
fn stands_in(row: &Row, i: usize, columns: u16) -> bool
    ensures { (hits : List Hit) → WholeRow row.now.leaves.now row.now.starts.now row.now.masks.now hits → (result ≡ true) ↔ SomeAllowed (candidates i hits) columns }
{
    let mut found = row.first(i);
    while let Some(place) = found {
        if row::contains(columns, place.column as usize) {
            return true;
        }
        found = row.advance(i, place);
    }
    false
}

// Whether one of the keys lies from `low` on, below `limit`.
fn some_key(keys: &[u64], low: u64, limit: u64) -> bool
    ensures { Ordered keys.now (length keys.now) → (result ≡ true) ↔ SomeKey keys.now (length keys.now) low limit }
{
    let count = keys.len();
    if count == 0 {
        return false;
    }
    if keys[count - 1] < low {
        return false;
    }
    if limit <= keys[0] {
        return false;
    }
    let at = keys.partition_point(|key| *key < low);
    if count <= at {
        return false;
    }
    keys[at] < limit
}

// Puts a key to its place among the others.
fn insert(keys: &mut [u64], count: usize, key: u64)
    requires { count < length keys.old }
    ensures { Ordered keys.old count → Inserts keys.old keys.new count key }
{
    // In one pass from the end: keys mostly come in order.
    for at in (0..count).rev() {
        if keys[at] <= key {
            keys[at + 1] = key;
            return;
        }
        keys[at + 1] = keys[at];
    }
    keys[0] = key;
}

// Adds the key of a position, if it is wanted and its column is allowed. How many keys there are then.
// The keys are the first of a lent room: the box has no memory that grows.
fn push(
    keys: &mut [u64],
    count: usize,
    wanted: bool,
    columns: u16,
    column: u64,
    position: u64,
) -> usize
    requires { (position < position_limit) × (count < length keys.old) }
    ensures { (result ≤ length keys.old) × (Ordered keys.old count → Pushes keys.old count wanted columns column position keys.new result) }
{
    if !wanted {
        return count;
    }
    if !row::contains(columns, column as usize) {
        return count;
    }
    insert(keys, count, column * COLUMN_SIZE + position);
    count + 1
}

// Whether one of the keys lies in the window at a position.
fn in_window(tie: Window, keys: &[u64], column: u64, position: u64) -> bool
    requires { (column < 16) × (position < position_limit) × Bounded tie }
    ensures { Ordered keys.now (length keys.now) → (result ≡ true) ↔ InWindow tie keys.now (length keys.now) column position }
{
    let base = column * COLUMN_SIZE;
    let low = position.saturating_sub(tie.back);
    let limit = COLUMN_SIZE.min(position + tie.ahead);
    let apart = limit.min(position + tie.apart);
    // Most windows have no key: the place that is left out is asked for only where there is one.
    if !some_key(keys, base + low, base + limit) {
        return false;
    }
    if some_key(keys, base + low, base + apart) {
        return true;
    }
    some_key(keys, base + apart + 1, base + limit)
}

// Whether a candidate was reached before, or is by one of the keys.
fn is_reached(
    old: bool,
    columns: u16,
    tie: Window,
    keys: &[u64],
    column: u64,
    position: u64,
) -> bool
    requires { (position < position_limit) × Bounded tie }
    ensures { Ordered keys.now (length keys.now) → (result ≡ true) ↔ ReachedBy old columns tie keys.now (length keys.now) column position }
{
    if old {
        return true;
    }
    if !row::contains(columns, column as usize) {
        return false;
    }
    in_window(tie, keys, column, position)
}

// Marks the candidates of the word `i` that are reached by one of the keys. Marks that are not fresh stay. Whether there are
// any.
fn mark(
    row: &Row,
    i: usize,
    columns: u16,
    tie: Window,
    keys: &[u64],
    fresh: bool,
    marks: &mut [u64],
) -> bool
    requires { Bounded tie }
    ensures { (hits : List Hit) → RowFits row.now.leaves.now row.now.starts.now row.now.masks.now hits → mark_words ≤ length marks.old → Ordered keys.now (length keys.now) → Marks hits i columns tie keys.now (length keys.now) fresh marks.old marks.new result }
{
    let mut some = false;
    let mut found = row.first(i);
    for j in 0..MAX_CANDIDATES {
        let Some(place) = found else {
            return some;
        };
        let old = was_marked(fresh, marks, j);
        let reached = is_reached(old, columns, tie, keys, place.column, place.position);
        put_mark(marks, j, reached);
        some = some || reached;
        found = row.advance(i, place);
    }
    some
}

// Whether the chain so far can end at a candidate: of the first word, in its columns `origin`; of another, where it is marked.
fn is_source(origin: Option<u16>, before: &[u64], j: usize, column: u64) -> bool
    ensures { result ≡ source_of origin before.now j column }
{
    match origin {
        Some(set) => row::contains(set, column as usize),
        None => is_marked(before, j),
    }
}

// Marks the candidates of the word `i`, in the columns of `set`, that are reached from the word before it; if that is the first of
// the chain, from its candidates in the columns of `origin`. The keys lie after the marks of the word before. Whether any are
// reached.
fn step(
    row: &Row,
    i: usize,
    set: u16,
    tie: Window,
    origin: Option<u16>,
    before: &mut [u64],
    marks: &mut [u64],
) -> bool
    requires { Bounded tie × (bit_words < length before.old) }
    ensures { (hits : List Hit) → RowFits row.now.leaves.now row.now.starts.now row.now.masks.now hits → mark_words ≤ length marks.old → Steps hits i set tie (source_of origin before.old) marks.new result }
{
    let mut fresh = true;
    let mut len: usize = 0;
    let mut found = row.first(tie.word);
    for j in 0..MAX_CANDIDATES {
        let Some(place) = found else {
            break;
        };
        let keys = &before[BIT_WORDS..];
        if keys.len() <= len {
            mark(row, i, set, tie, &keys[..len], fresh, marks);
            fresh = false;
            len = 0;
        }
        let wanted = is_source(origin, before, j, place.column);
        len = push(
            &mut before[BIT_WORDS..],
            len,
            wanted,
            set,
            place.column,
            place.position,
        );
        found = row.advance(tie.word, place);
    }
    // No row has more candidates.
    if found.is_some() {
        return false;
    }
    let keys = &before[BIT_WORDS..];
    mark(row, i, set, tie, &keys[..len], fresh, marks)
}

// Where the word `end` may stand beside the word before it, whose operand begins with the word `from`.
fn window_at(words: &Words, from: usize, end: usize) -> Window
    requires { (from < end) × (end < length words.now.ties.now) × (length words.now.ties.now ≤ length words.now.distances.now) }
    ensures { (result ≡ window_of words.now.ties.now words.now.distances.now from end) × Bounded result }
{
    if words.ties[end] == CONTINUES {
        return Window {
            word: end - 1,
            back: 1,
            ahead: 0,
            apart: 0,
        };
    }
    let n = distance(words, end);
    let next = run_end(words.ties, end, CONTINUES);
    Window {
        word: end - 1,
        back: 1 + n,
        ahead: (next - from) as u64 + n,
        apart: (next - end - 1) as u64,
    }
}

// The first word of the operand that the word `end` belongs to; that of the word before is `from`.
fn operand_start(ties: &[u8], from: usize, end: usize) -> usize
    requires { end < length ties.now }
    ensures { result ≡ operand_start ties.now from end }
{
    if CONTINUES < ties[end] {
        return end;
    }
    from
}

// Whether the words of a chain from the word `end` on can be reached. The chain so far can end at the marked candidates of the
// word before, or at all of its columns if that is the first; its operand begins with the word `from`. The two rooms change
// places from word to word, so they are two parameters.
fn links(
    words: &Words,
    from: usize,
    end: usize,
    first: bool,
    row: &Row,
    before: &mut [u64],
    marks: &mut [u64],
) -> bool
    requires { (from < end) × (end ≤ length words.now.ties.now) × (length words.now.ties.now ≤ length words.now.distances.now) × (length words.now.ties.now ≤ length words.now.columns.now) × (bit_words < length before.old) × (bit_words < length marks.old) }
    ensures { Continues words.now.ties.now words.now.distances.now words.now.columns.now from end first row.now.leaves.now row.now.starts.now row.now.masks.now before.old marks.old result }
{
    let ties = words.ties;
    let columns = words.columns;
    if ties.len() <= end {
        return true;
    }
    if ties[end] < CONTINUES {
        return true;
    }
    let tie = window_at(words, from, end);
    let origin = if first { Some(columns[from]) } else { None };
    if !step(row, end, columns[end], tie, origin, before, marks) {
        return false;
    }
    let start = operand_start(ties, from, end);
    links(words, start, end + 1, false, row, marks, before)
}

// Whether a chain of several words that begins with the word `from` holds.
fn several(words: &Words, from: usize, row: &Row, marks: &mut [u64], spare: &mut [u64]) -> bool
    requires { ChainLengths words.now.ties.now words.now.distances.now words.now.columns.now from marks.old spare.old × (from + 1 < chain_end words.now.ties.now from) }
    ensures content { DecidesChain words.now.ties.now words.now.distances.now words.now.columns.now from row.now.leaves.now row.now.starts.now row.now.masks.now marks.old spare.old result }
    ensures frame { RoomsKept marks.old marks.new spare.old spare.new }
{
    let end = MARK_WORDS;
    links(
        words,
        from,
        from + 1,
        true,
        row,
        &mut marks[..end],
        &mut spare[..end],
    )
}

// Whether the chain that begins with the word `from` holds in a row. `marks` and `spare` are room to work in, of `MARK_WORDS`
// words each.
pub fn holds(words: &Words, from: usize, row: &Row, marks: &mut [u64], spare: &mut [u64]) -> bool
    ensures content { DecidesChain words.now.ties.now words.now.distances.now words.now.columns.now from row.now.leaves.now row.now.starts.now row.now.masks.now marks.old spare.old result }
    ensures single { chain_end words.now.ties.now from ≡ from + 1 → (marks.new ≡ marks.old) × (spare.new ≡ spare.old) }
    ensures otherwise { (ChainLengths words.now.ties.now words.now.distances.now words.now.columns.now from marks.old spare.old → ⊥) → NotEvaluated marks.old marks.new spare.old spare.new result }
    ensures frame { RoomsKept marks.old marks.new spare.old spare.new }
{
    if words.ties.len() <= from {
        return TOO_SHORT;
    }
    if words.distances.len() < words.ties.len() {
        return TOO_SHORT;
    }
    if words.columns.len() < words.ties.len() {
        return TOO_SHORT;
    }
    if marks.len() < MARK_WORDS {
        return TOO_SHORT;
    }
    if spare.len() < MARK_WORDS {
        return TOO_SHORT;
    }
    if chain_end(words.ties, from) == from + 1 {
        return stands_in(row, from, words.columns[from]);
    }
    several(words, from, row, marks, spare)
}
