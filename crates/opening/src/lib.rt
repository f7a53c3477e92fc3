// The start of a search: one pass over all leaves makes a cursor for each index word that some word of the query matches,
// in each leaf that has it. The leaves' words rise, so the pass goes by words: of the leaves' next words that match, the
// least is taken, from all leaves that have it. The leaves are gone through by `order`, their numbers, newest first.
#![tactic(auto)]

ghost use Rattle.std.specs.Prelude.{◌≡◌, ◌↔◌, true, List, [], ◌++◌, ℕ, ◌+◌, ◌*◌, ◌^◌, ◌≤◌, ◌<◌, length, drop, ltb};
ghost use Rattle.common.specs.Pick.{pick};
ghost use Rattle.common.specs.Bounds.{max_index_bytes, max_leaves};
ghost use Rattle.directory.specs.Order.{in_order};
ghost use Rattle.offsets.specs.Cut.{Cuts, cut, start_of};
ghost use Rattle.doclist.specs.Doclist.{Entry, WellFormed, encode_list};
ghost use Rattle.leaf.specs.Leaf.{Term, AreLeaves};
ghost use Rattle.leaf.specs.Rest.{RestIs};
ghost use Rattle.lexer.specs.Token.{Node};
ghost use Rattle.cursors.specs.Arrays.{Cursor};
ghost use Rattle.opening.specs.Matching.{matches_of, mask_of, NodeAt, TextIs};
ghost use Rattle.opening.specs.Fronts.{front_word, skip_to, FrontHas, FrontIs, is_earlier, has_word, front_at, Placed, LeastIs, head_lists, FrontsAre, Able, HasPlace, with_cursor, HoldAll, WordTaken, all_skipped};
ghost use Rattle.opening.specs.Opening.{Arrays, arrays, OpenFrame, Opens};
ghost use Rattle.opening.specs.Walking.{Begins, TakesWord, with_lead, LeadOf, Alone, TakesAlone};

use varint::Varint;

// What marks a cursor: it is the first of its group, or it follows others. Numbers and no enum: they go into arrays that are lent, and the definitions
// read any number above 0 as `FOLLOWS`.
const LEADS: u8 = 0;

const FOLLOWS: u8 = 1;

// The answer where the leaves can't be opened.
const NO_CURSORS: usize = 0;

// The first word of a leaf stands after the height.
const FIRST_WORD: usize = 1;

// The words of a query: `count` parts of these bytes, which end at `stops`; where a mark is not 0, a `*` stands after the word.
#[derive(Clone, Copy)]
pub struct Text<'a> {
    pub bytes: &'a [u8],
    pub stops: &'a [u16],
    pub marks: &'a [u8],
    pub count: usize,
}

// The leaves of an index: their bytes, where each ends, and their numbers in the order in which they are gone through.
#[derive(Clone, Copy)]
pub struct Leaves<'a> {
    pub bytes: &'a [u8],
    pub ends: &'a [u32],
    pub order: &'a [u8],
}

// The first word that matches of those of a leaf that are not taken yet. No `Option<Front>` where there is none: it would be larger than a front, and
// fronts are copied for each word.
#[derive(Clone, Copy)]
pub struct Front {
    // The word is the first `size` bytes.
    word: [u8; 64],
    size: usize,
    // The query words that match it; 0 where no such word is left.
    mask: u16,
    // The first entry of its posting list, in all leaves, by its docid's key, and the list's last byte.
    docid: u64,
    body: u16,
    last: u16,
    // Where the next word begins in the leaf.
    next: usize,
}

// How far the pass is: the fronts of the leaves, newest first, and how many cursors there are.
#[derive(Drop)]
struct Opening {
    fronts: [Front; 8],
    n: usize,
}

// A word of the leaves, and how many of them have it: 0 where no word is left. Its lists are in the arrays. Not an Option: the caller goes
// on with `fronts` in either case.
#[derive(Drop)]
pub struct WordLists {
    // What is left after it.
    pub fronts: [Front; 8],
    pub n: usize,
    // The word is the first `size` bytes.
    pub word: [u8; 64],
    pub size: usize,
}

// The leaf with the least next word, by its number among those that are gone through, and its front; and the rival, the front with the
// least word of the others. Not an Option where no front has a word: then neither of these has, and `take_alone` refuses the lead as it does
// any other that has no word alone.
#[derive(Clone, Copy)]
pub struct Lead {
    at: usize,
    front: Front,
    rival: Front,
}

// A word that one leaf alone has. Its list is in the arrays.
#[derive(Drop)]
pub struct Lone {
    // What is left after it.
    pub lead: Lead,
    // The word is the first `size` bytes.
    pub word: [u8; 64],
    pub size: usize,
}

// Whether a word of the query, with a `*` after it if `star` is not 0, matches an index word.
fn is_match(bytes: &[u8], star: u8, word: &[u8]) -> bool
    ensures { result ≡ matches_of (record { bytes = bytes.entry.now; star = ltb 0 star }) word.now }
{
    if star != 0 {
        word.starts_with(bytes)
    } else {
        bytes == word
    }
}

// Where the query's word number `i` begins.
fn start_of(ends: &[u16], i: usize) -> usize
    requires { i < length ends.now }
    ensures { result ≡ start_of ends.now i }
{
    if i == 0 { 0 } else { usize::from(ends[i - 1]) }
}

// The bytes of the query's word number `i`.
fn word_at<'a>(text: &'a [u8], ends: &[u16], i: usize) -> &'a [u8]
    requires { i < length ends.now }
    ensures { (marks : List ℕ) (count : ℕ) (nodes : List Node) (n : Node) → TextIs text.now ends.now marks count nodes → NodeAt nodes i n → result.now ≡ n.word.bytes }
{
    let from = start_of(ends, i);
    let to = usize::from(ends[i]);
    text.get(from..to).unwrap_or(&[])
}

// A set of query words that are numbered from 1 on, with word number 0 before them.
fn with_word(mask: u16, matched: bool) -> u16
    requires { mask < 2 ^ 15 }
    ensures { result ≡ pick matched 1 0 + 2 * mask }
{
    u16::from(matched) + 2 * mask
}

// The set of query words that match an index word.
fn mask_of(text: Text, word: &[u8]) -> u16
    ensures { (nodes : List Node) → TextIs text.entry.bytes.now text.entry.stops.now text.entry.marks.now text.entry.count nodes → result ≡ mask_of nodes word.now }
{
    if lexer::MAX_WORDS < text.count
        || text.stops.len() < text.count
        || text.marks.len() < text.count
    {
        return 0;
    }
    let mut mask = 0;
    for i in (0..text.count).rev() {
        let bytes = word_at(text.bytes, text.stops, i);
        mask = with_word(mask, is_match(bytes, text.marks[i], word));
    }
    mask
}

// The front of a leaf that has no word left, or of which no word was read yet.
fn no_front() -> Front
    ensures { (result.mask ≡ 0) × (result.size ≡ 0) × (result.next ≡ 1) }
{
    Front {
        word: [0u8; 64],
        size: 0,
        mask: 0,
        docid: 0,
        body: 0,
        last: 0,
        next: FIRST_WORD,
    }
}

// The front at a word whose posting list goes from `list` up to `next`, in a leaf that begins at `base`.
fn front_at(
    leaf: &[u8],
    base: usize,
    word: [u8; 64],
    size: usize,
    mask: u16,
    list: usize,
    next: usize,
) -> Front
    requires { (base + length leaf.now ≤ 65536) × (next ≤ length leaf.now) × (size ≤ 64) }
    ensures { Placed (base + length leaf.now) result × ((entries : List Entry) (tail : List ℕ) (columns : ℕ) → WellFormed columns entries → drop list leaf.now ≡ encode_list entries ++ tail → next ≡ list + length (encode_list entries) → FrontHas leaf.now base word size mask next entries result) }
{
    // A first docid is seldom below 128.
    let Varint::Value { value, next: body } = varint::read_long(leaf, list) else {
        return no_front();
    };
    if next <= body {
        return no_front();
    }
    Front {
        word,
        size,
        mask,
        docid: doclist::keys::key_of_bits(value),
        body: (base + body) as u16,
        last: (base + next - 1) as u16,
        next,
    }
}

// Moves a front on, to the leaf's next word that some word of the query matches.
fn seek(text: Text, leaf: &[u8], base: usize, front: Front) -> Front
    requires { base + length leaf.now ≤ 65536 }
    ensures { Placed (base + length leaf.now) result × ((nodes : List Node) (columns : ℕ) (ts : List Term) → TextIs text.entry.bytes.now text.entry.stops.now text.entry.marks.now text.entry.count nodes → RestIs columns leaf.now front.next (front_word front) ts [] → FrontIs nodes columns leaf.now base result (skip_to nodes ts)) }
{
    let mut word = front.word;
    let mut at = front.next;
    while at < leaf.len() {
        let Some(head) = leaf::head_at(leaf, at) else {
            return no_front();
        };
        let to = head.from + head.size;
        leaf::put_suffix(&mut word, head.prefix, &leaf[head.from..to]);
        let n = head.prefix + head.size;
        let mask = mask_of(text, &word[0..n]);
        if mask != 0 {
            return front_at(leaf, base, word, n, mask, head.list, head.next);
        }
        at = head.next;
    }
    no_front()
}

// Whether a front has a word, and it comes before that of another, if that has one.
fn is_earlier(front: Front, other: Front) -> bool
    requires { (front.size ≤ 64) × (other.size ≤ 64) }
    ensures { result ≡ is_earlier front other }
{
    front.mask != 0
        && (other.mask == 0
            || leaf::is_before(&front.word[..front.size], &other.word[..other.size]))
}

// Whether a front has a word, and it is that of another.
fn has_word(front: Front, other: Front) -> bool
    requires { (front.size ≤ 64) × (other.size ≤ 64) }
    ensures { result ≡ has_word front other }
{
    front.mask != 0 && front.word[..front.size] == other.word[..other.size]
}

// The number of the front whose word is the least of the first `m`, if one of them has a word.
fn least(fronts: [Front; 8], m: usize) -> Option<usize>
    requires { (m ≤ 8) × ((j : ℕ) → j < m → (front_at fronts j).size ≤ 64) }
    ensures { LeastIs fronts m result }
{
    let mut best = None;
    let mut front = no_front();
    for j in 0..m {
        let other = fronts[j];
        if is_earlier(other, front) {
            best = Some(j);
            front = other;
        }
    }
    best
}

// Writes a front's cursor at the place `n` of the arrays.
fn push(
    front: Front,
    follow: u8,
    docids: &mut [u64],
    bodies: &mut [u16],
    lasts: &mut [u16],
    masks: &mut [u16],
    follows: &mut [u8],
    n: usize,
)
    requires { HasPlace (arrays docids.old bodies.old lasts.old masks.old follows.old) n }
    ensures { arrays docids.new bodies.new lasts.new masks.new follows.new ≡ with_cursor (arrays docids.old bodies.old lasts.old masks.old follows.old) n front follow }
{
    docids[n] = front.docid;
    bodies[n] = front.body;
    lasts[n] = front.last;
    masks[n] = front.mask;
    follows[n] = follow;
}

// Where the leaf number `i` begins. After the last one it is where all end, and 0 for any number after that. A twin of `start_of`: the
// leaves' ends are 32-bit numbers (document 01), the words' 16-bit ones, of which only these are a `usize` by `From`.
fn leaf_start(ends: &[u32], i: usize) -> usize
    ensures { result ≡ start_of ends.now i }
{
    if i == 0 || ends.len() < i {
        0
    } else {
        ends[i - 1] as usize
    }
}

// The fronts of all leaves, newest first, before a word is taken.
fn fronts_of(text: Text, leaves: Leaves) -> [Front; 8]
    requires { Cuts leaves.bytes.now leaves.ends.now × (length leaves.order.now ≤ 8) × (length leaves.bytes.now ≤ 65536) }
    ensures { ((j : ℕ) → j < length leaves.entry.order.now → Placed (length leaves.entry.bytes.now) (front_at result j)) × ((nodes : List Node) (columns : ℕ) (terms : List (List Term)) → TextIs text.entry.bytes.now text.entry.stops.now text.entry.marks.now text.entry.count nodes → AreLeaves columns (in_order [] (cut leaves.entry.bytes.now leaves.entry.ends.now) leaves.entry.order.now) terms → FrontsAre nodes columns leaves.entry.bytes.now leaves.entry.ends.now leaves.entry.order.now result (all_skipped nodes terms)) }
{
    let none = no_front();
    let mut fronts = [none; 8];
    for (j, number) in leaves.order.iter().enumerate() {
        let i = usize::from(*number);
        let leaf = offsets::part(leaves.bytes, leaves.ends, i);
        fronts[j] = seek(text, leaf, leaf_start(leaves.ends, i), none);
    }
    fronts
}

// Takes the word of `front` from all fronts that have it: writes their cursors from the place `from` on, and moves them
// on. Stops where the arrays are full.
fn take_word(
    text: Text,
    leaves: Leaves,
    given: [Front; 8],
    front: Front,
    docids: &mut [u64],
    bodies: &mut [u16],
    lasts: &mut [u16],
    masks: &mut [u16],
    follows: &mut [u8],
    from: usize,
) -> Opening
    requires { Able leaves.bytes.now leaves.ends.now leaves.order.now given (arrays docids.old bodies.old lasts.old masks.old follows.old) from × (front.size ≤ 64) }
    ensures able { Able leaves.entry.bytes.now leaves.entry.ends.now leaves.entry.order.now result.fronts (arrays docids.old bodies.old lasts.old masks.old follows.old) result.n × (from ≤ result.n) }
    ensures content { (nodes : List Node) (columns : ℕ) (left : List (List Term)) (cs : List Cursor) → TextIs text.entry.bytes.now text.entry.stops.now text.entry.marks.now text.entry.count nodes → FrontsAre nodes columns leaves.entry.bytes.now leaves.entry.ends.now leaves.entry.order.now given left → HoldAll leaves.entry.bytes.now (arrays docids.old bodies.old lasts.old masks.old follows.old) from cs → from + length (head_lists (front_word front) left) ≤ length docids.old → WordTaken nodes columns (front_word front) leaves.entry.bytes.now leaves.entry.ends.now leaves.entry.order.now (arrays docids.new bodies.new lasts.new masks.new follows.new) left cs result }
    ensures frame { (first : Arrays) → length first.docids ≡ length docids.old → OpenFrame leaves.entry.bytes.now first (arrays docids.old bodies.old lasts.old masks.old follows.old) from → OpenFrame leaves.entry.bytes.now first (arrays docids.new bodies.new lasts.new masks.new follows.new) result.n }
{
    let mut fronts = given;
    let mut n = from;
    let mut follow = LEADS;
    for (j, number) in leaves.order.iter().enumerate() {
        let other = fronts[j];
        if !has_word(other, front) {
            continue;
        }
        if docids.len() <= n {
            return Opening { fronts, n };
        }
        push(other, follow, docids, bodies, lasts, masks, follows, n);
        let i = usize::from(*number);
        let leaf = offsets::part(leaves.bytes, leaves.ends, i);
        fronts[j] = seek(text, leaf, leaf_start(leaves.ends, i), other);
        follow = FOLLOWS;
        n += 1;
    }
    Opening { fronts, n }
}

// Whether the leaves can be opened: they are cut, have at most 65,536 bytes, and at most 8 are gone through; and whether the
// arrays are as long as the first.
fn is_able(leaves: Leaves, a: usize, b: usize, c: usize, d: usize, e: usize) -> bool
    ensures { (result ≡ true) ↔ (Cuts leaves.entry.bytes.now leaves.entry.ends.now × (length leaves.entry.order.now ≤ max_leaves) × (length leaves.entry.bytes.now ≤ max_index_bytes) × (a ≤ b) × (a ≤ c) × (a ≤ d) × (a ≤ e)) }
{
    leaves.order.len() <= common::MAX_LEAVES
        && leaves.bytes.len() <= common::MAX_INDEX_BYTES
        && a <= b
        && a <= c
        && a <= d
        && a <= e
        && offsets::is_cut(leaves.bytes, leaves.ends)
}

// Whether a front's word fits, and its list, if it has one, lies in the leaves.
fn is_placed(front: Front, size: usize) -> bool
    ensures { (result ≡ true) ↔ Placed size front }
{
    front.size <= common::MAX_WORD
        && (front.mask == 0 || (front.body <= front.last && usize::from(front.last) < size))
}

// Whether all of the first `m` fronts do.
fn are_placed(fronts: [Front; 8], m: usize, size: usize) -> bool
    requires { m ≤ 8 }
    ensures { (result ≡ true) ↔ ((j : ℕ) → j < m → Placed size (front_at fronts j)) }
{
    fronts[..m].iter().all(|front| is_placed(*front, size))
}

// What is left of the leaves before a word is taken: all words that some word of the query matches. Leaves that can't be gone
// through have none.
pub fn begin(text: Text, leaves: Leaves) -> [Front; 8]
    ensures { Begins text.entry.bytes.now text.entry.stops.now text.entry.marks.now text.entry.count leaves.entry.bytes.now leaves.entry.ends.now leaves.entry.order.now result }
{
    if !is_able(leaves, 0, 0, 0, 0, 0) {
        let none = no_front();
        return [none; 8];
    }
    fronts_of(text, leaves)
}

// Takes the least word that is left: the first entries of its lists go to the arrays, newest leaf first.
pub fn next_word(
    text: Text,
    leaves: Leaves,
    fronts: [Front; 8],
    docids: &mut [u64],
    bodies: &mut [u16],
    lasts: &mut [u16],
    masks: &mut [u16],
    follows: &mut [u8],
) -> WordLists
    ensures { TakesWord text.entry.bytes.now text.entry.stops.now text.entry.marks.now text.entry.count leaves.entry.bytes.now leaves.entry.ends.now leaves.entry.order.now fronts (arrays docids.old bodies.old lasts.old masks.old follows.old) (arrays docids.new bodies.new lasts.new masks.new follows.new) result }
{
    let none = WordLists {
        fronts,
        n: 0,
        word: [0u8; 64],
        size: 0,
    };
    if !is_able(
        leaves,
        docids.len(),
        bodies.len(),
        lasts.len(),
        masks.len(),
        follows.len(),
    ) {
        return none;
    }
    if !are_placed(fronts, leaves.order.len(), leaves.bytes.len()) {
        return none;
    }
    let Some(best) = least(fronts, leaves.order.len()) else {
        return none;
    };
    let front = fronts[best];
    let taken = take_word(
        text, leaves, fronts, front, docids, bodies, lasts, masks, follows, 0,
    );
    let left = taken.fronts;
    let word = front.word;
    WordLists {
        fronts: left,
        n: taken.n,
        word,
        size: front.size,
    }
}

// The leaf to go on with, where the next word may be its alone. Without a leaf the front has no word.
pub fn lead_of(fronts: [Front; 8], m: usize, size: usize) -> Lead
    ensures { LeadOf fronts m size result }
{
    let none = no_front();
    let nobody = Lead {
        at: common::MAX_LEAVES,
        front: none,
        rival: none,
    };
    if common::MAX_LEAVES < m || !are_placed(fronts, m, size) {
        return nobody;
    }
    let Some(at) = least(fronts, m) else {
        return nobody;
    };
    let front = fronts[at];
    let mut others = fronts;
    others[at] = none;
    let rival = match least(others, m) {
        Some(second) => others[second],
        None => none,
    };
    Lead { at, front, rival }
}

// The fronts of all leaves, where one went on alone.
pub fn with_lead(fronts: [Front; 8], lead: Lead) -> [Front; 8]
    ensures { result ≡ with_lead fronts lead }
{
    let mut all = fronts;
    if lead.at < common::MAX_LEAVES {
        all[lead.at] = lead.front;
    }
    all
}

// Whether the lead has a word before the rival's, in leaves that can be opened, and the arrays, of so many places, have one for it.
fn is_alone(leaves: Leaves, lead: Lead, a: usize, b: usize, c: usize, d: usize, e: usize) -> bool
    ensures { (result ≡ true) ↔ Alone leaves.entry.bytes.now leaves.entry.ends.now leaves.entry.order.now lead a b c d e }
{
    0 < a
        && lead.at < leaves.order.len()
        && is_placed(lead.front, leaves.bytes.len())
        && is_placed(lead.rival, leaves.bytes.len())
        && is_earlier(lead.front, lead.rival)
        && is_able(leaves, a, b, c, d, e)
}

// Takes the lead's word, if it comes before the rival's: no other leaf has it then.
pub fn take_alone(
    text: Text,
    leaves: Leaves,
    lead: Lead,
    docids: &mut [u64],
    bodies: &mut [u16],
    lasts: &mut [u16],
    masks: &mut [u16],
    follows: &mut [u8],
) -> Option<Lone>
    ensures { TakesAlone text.entry.bytes.now text.entry.stops.now text.entry.marks.now text.entry.count leaves.entry.bytes.now leaves.entry.ends.now leaves.entry.order.now lead (arrays docids.old bodies.old lasts.old masks.old follows.old) (arrays docids.new bodies.new lasts.new masks.new follows.new) result }
{
    if !is_alone(
        leaves,
        lead,
        docids.len(),
        bodies.len(),
        lasts.len(),
        masks.len(),
        follows.len(),
    ) {
        return None;
    }
    let at = lead.at;
    let front = lead.front;
    let rival = lead.rival;
    push(front, LEADS, docids, bodies, lasts, masks, follows, 0);
    let i = leaves.order[at] as usize;
    let leaf = offsets::part(leaves.bytes, leaves.ends, i);
    let next = seek(text, leaf, leaf_start(leaves.ends, i), front);
    let word = front.word;
    Some(Lone {
        lead: Lead {
            at,
            front: next,
            rival,
        },
        word,
        size: front.size,
    })
}

// Makes the cursors of a search, and answers how many: for each index word that some word of the query matches, one in
// each leaf that has it, newest first. A word takes at least 6 bytes of a leaf, so there are few enough for the arrays if
// these have a place for every 6 bytes.
pub fn open(
    text: Text,
    leaves: Leaves,
    docids: &mut [u64],
    bodies: &mut [u16],
    lasts: &mut [u16],
    masks: &mut [u16],
    follows: &mut [u8],
) -> usize
    ensures { Opens text.entry.bytes.now text.entry.stops.now text.entry.marks.now text.entry.count leaves.entry.bytes.now leaves.entry.ends.now leaves.entry.order.now (arrays docids.old bodies.old lasts.old masks.old follows.old) (arrays docids.new bodies.new lasts.new masks.new follows.new) result }
{
    if !is_able(
        leaves,
        docids.len(),
        bodies.len(),
        lasts.len(),
        masks.len(),
        follows.len(),
    ) {
        return NO_CURSORS;
    }
    let mut fronts = fronts_of(text, leaves);
    let mut n: usize = 0;
    while let Some(best) = least(fronts, leaves.order.len()) {
        let front = fronts[best];
        let taken = take_word(
            text, leaves, fronts, front, docids, bodies, lasts, masks, follows, n,
        );
        if taken.n <= n {
            return n;
        }
        fronts = taken.fronts;
        n = taken.n;
    }
    n
}
