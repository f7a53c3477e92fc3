// Cursors over posting lists: one for each list of an index word that the query asks for. A search goes from the least
// docid to the next; at each, the entries on it make a row, and their cursors move on. The cursors stand in blocks, and the
// least docid of each block is kept, so that a block without the docid is passed over. An entry's body is what stands
// after its docid number; all numbers are varints, and in a body only the closing one has a byte 0:
//
//     docid (later its difference)   body: for each column [1, column] position + 2, ..   0
#![tactic(auto)]

ghost use Rattle.std.specs.Prelude.{◌≡◌, ◌↔◌, true, false, List, ℕ, ◌+◌, ◌*◌, ◌^◌, ◌≤◌, ◌<◌, ◌==◌, min, length, take, position, ltb};
ghost use Rattle.common.specs.Pick.{pick, both};
ghost use Rattle.common.specs.Bytes.{part};
ghost use Rattle.doclist.specs.Doclist.{Entry};
ghost use Rattle.cursors.specs.Groups.{Group, without_before, last_key, NextIs};
ghost use Rattle.common.specs.Frame.{KeptFrom};
ghost use Rattle.common.specs.Bounds.{max_index_bytes};
ghost use Rattle.cursors.specs.Arrays.{StandsOn, ListAt, StandsFor, CursorsAre, least_of, next_of, block_size, blocks_of, MinimaAre};
ghost use Rattle.cursors.specs.Frames.{Advances, other_than, RowFrame, next_from, Passes};
ghost use Rattle.cursors.specs.Scanning.{begun, joined, over_other, over_hit, taken_of, Fits, BlockTaken, Scanned};
ghost use Rattle.cursors.specs.declared.Scan.{Scan};

use doclist::keys::MAX_KEY;
use varint::Varint;

// The body of a cursor that has no entry left; it stands on the last docid then. Not an Option: the arrays that are lent hold numbers.
const NO_BODY: u16 = 0;

// The cursors stand in blocks of so many.
const BLOCK: usize = 16;

// What taking a row gives: how many hits it has; how many cursors stood on its docid, hidden ones too, and the last of them;
// the least docid of the others, the last docid if there are none; the docid to go on with, none if that is the last, where
// there may be no entry.
#[derive(Clone, Copy)]
pub struct Taken {
    pub hits: usize,
    pub taken: usize,
    pub last: usize,
    pub rest: u64,
    pub next: Option<u64>,
}

// A scan for the row at a docid, as far as it has come: how many hits there are; whether the last cursor hides the next of
// its group; how many cursors stood on the docid, and the last of them; the least docid of the others, and of those where
// they moved to.
#[derive(Clone, Copy)]
struct Scan {
    hits: usize,
    hidden: bool,
    taken: usize,
    last: usize,
    rest: u64,
    moved: u64,
}

// Where a cursor stands.
#[derive(Drop)]
struct Place {
    docid: u64,
    body: u16,
}

// Where the first byte 0 stands.
fn first_zero(s: &[u8]) -> Option<usize>
    ensures { result ≡ position (λ b. b == 0) s.now }
{
    s.iter().position(|b| *b == 0)
}

// Where the cursor stands after the entry whose body is at `body`, in a list whose last byte is at `last`.
fn entry_after(leaves: &[u8], docid: u64, body: u16, last: u16) -> Place
    ensures content { (e : Entry) (rest : List Entry) → length leaves.now ≤ max_index_bytes → StandsOn leaves.now e rest docid body last → ListAt leaves.now rest result.docid result.body last }
    ensures onward { (docid < last_key → docid < result.docid) × (docid ≤ result.docid) }
{
    let from = usize::from(body);
    let to = usize::from(last);
    let end = Place {
        docid: MAX_KEY,
        body: NO_BODY,
    };
    let Some(entry) = leaves.get(from..to) else {
        return end;
    };
    let Some(size) = first_zero(entry) else {
        return end;
    };
    let Varint::Value { value, next } = varint::read(leaves, from + size + 1) else {
        return end;
    };
    if value == 0 {
        return end;
    }
    let Some(docid) = docid.checked_add(value) else {
        return end;
    };
    let Ok(body) = u16::try_from(next) else {
        return end;
    };
    Place { docid, body }
}

// The docid to go on with, if this is the least of all cursors.
fn next_of(docid: u64) -> Option<u64>
    ensures { result ≡ next_of docid }
{
    if docid == MAX_KEY { None } else { Some(docid) }
}

fn least_of(docids: &[u64]) -> u64
    ensures { result ≡ least_of docids.now }
{
    docids
        .iter()
        .fold(MAX_KEY, |least, docid| least.min(*docid))
}

// The least docid of the first `n` cursors.
pub fn least(docids: &[u64], n: usize) -> Option<u64>
    ensures reader { result ≡ next_of (least_of (take n docids.now)) }
    ensures content { (leaves bodies lasts masks follows : List ℕ) (groups : List Group) → CursorsAre leaves docids.now bodies lasts masks follows n groups → NextIs groups result }
{
    let end = n.min(docids.len());
    next_of(least_of(&docids[..end]))
}

// Whether a cursor on a docid is hidden: an earlier one of its group stands on it too.
fn is_hidden(hidden: bool, follows: u8) -> bool
    ensures { result ≡ both hidden (ltb 0 follows) }
{
    hidden && 0 < follows
}

// How many hits there are after one more that may be hidden.
fn hits_after(hits: usize, hidden: bool) -> usize
    requires { hits < 2 ^ 63 }
    ensures { result ≡ pick hidden hits (hits + 1) }
{
    hits + usize::from(!hidden)
}

impl Scan {
    // Over one more cursor, or a block, that does not stand on the docid.
    fn over_other(self, hidden: bool, docid: u64) -> Scan
        ensures { result ≡ over_other self hidden docid }
    {
        Scan {
            hidden,
            rest: self.rest.min(docid),
            ..self
        }
    }

    // Over the cursor `i`, which stood on the docid and moved to another.
    fn over_hit(self, covered: bool, i: usize, docid: u64) -> Scan
        requires { (self.hits < 2 ^ 63) × (self.taken < 2 ^ 63) }
        ensures { result ≡ over_hit self covered i docid }
    {
        Scan {
            hits: hits_after(self.hits, covered),
            hidden: true,
            taken: self.taken + 1,
            last: i,
            moved: self.moved.min(docid),
            ..self
        }
    }

    // The scan where a block begins: its docids are met anew.
    fn begin_block(self) -> Scan
        ensures { result ≡ begun self }
    {
        Scan {
            rest: MAX_KEY,
            moved: MAX_KEY,
            ..self
        }
    }

    // The scan before a block and the one over it.
    fn join(self, block: Scan) -> Scan
        ensures { result ≡ joined self block }
    {
        Scan {
            rest: self.rest.min(block.rest),
            moved: self.moved.min(block.moved),
            ..block
        }
    }

    // What the whole scan gives.
    fn end_scan(self, next: Option<u64>) -> Taken
        ensures { result ≡ taken_of self next }
    {
        Taken {
            hits: self.hits,
            taken: self.taken,
            last: self.last,
            rest: self.rest,
            next,
        }
    }
}

// Whether a cursor has no entry for the docid: it stands on another, or it has none left.
fn is_elsewhere(at: u64, body: u16, docid: u64) -> bool
    ensures { (result ≡ false) ↔ StandsFor docid at body }
{
    at != docid || (docid == MAX_KEY && body == NO_BODY)
}

// Takes what the cursors from `from` up to `to` give to the row at a docid; those on it move on.
fn take_block(
    docid: u64,
    leaves: &[u8],
    docids: &mut [u64],
    bodies: &mut [u16],
    lasts: &[u16],
    masks: &[u16],
    follows: &[u8],
    from: usize,
    to: usize,
    starts: &mut [u16],
    matched: &mut [u16],
    before: Scan,
) -> Scan
    requires { Fits from to docids.old bodies.old lasts.now masks.now follows.now starts.old matched.old × (before.hits ≤ from) × (before.taken ≤ from) }
    ensures block { BlockTaken docids.old docids.new from to result × (result.rest ≡ least_of (other_than docid (part docids.old from to))) }
    ensures row { (n : ℕ) (groups : List Group) (earlier : Scan) → to ≤ n → Scanned leaves.now docids.old bodies.old lasts.now masks.now follows.now n starts.old matched.old docid groups (joined earlier (begun before)) from → Scanned leaves.now docids.new bodies.new lasts.now masks.now follows.now n starts.new matched.new docid groups (joined earlier result) to }
    ensures frame { (docids₀ bodies₀ starts₀ matched₀ : List ℕ) → RowFrame docid from docids₀ docids.old bodies₀ bodies.old starts₀ starts.old matched₀ matched.old before.hits before.taken before.last → RowFrame docid to docids₀ docids.new bodies₀ bodies.new starts₀ starts.new matched₀ matched.new result.hits result.taken result.last }
{
    let mut scan = before.begin_block();
    for i in from..to {
        let at = docids[i];
        let body = bodies[i];
        let covered = is_hidden(scan.hidden, follows[i]);
        if is_elsewhere(at, body, docid) {
            scan = scan.over_other(covered, at);
            continue;
        }
        let hits = scan.hits;
        starts[hits] = body;
        matched[hits] = masks[i];
        let place = entry_after(leaves, docid, body, lasts[i]);
        docids[i] = place.docid;
        bodies[i] = place.body;
        scan = scan.over_hit(covered, i, place.docid);
    }
    scan
}

// Where the block ends that begins at `from`.
fn block_end(from: usize, n: usize) -> usize
    requires { from ≤ n }
    ensures { result ≡ min n (from + block_size) }
{
    from + BLOCK.min(n - from)
}

// How many blocks `n` cursors are in.
fn blocks_of(n: usize) -> usize
    ensures { result ≡ blocks_of n }
{
    n.div_ceil(BLOCK)
}

// The least docid of each block.
pub fn minima(docids: &[u64], n: usize, mins: &mut [u64])
    ensures content { n ≤ length docids.now → n ≤ block_size * length mins.old → MinimaAre docids.now n mins.new }
    ensures otherwise { ((n ≤ length docids.now) × (n ≤ block_size * length mins.old) → ⊥) → mins.new ≡ mins.old }
    ensures frame { KeptFrom (blocks_of n) mins.old mins.new }
{
    let blocks = blocks_of(n);
    if docids.len() < n || mins.len() < blocks {
        return;
    }
    for b in 0..blocks {
        let start = b * BLOCK;
        mins[b] = least_of(&docids[start..block_end(start, n)]);
    }
}

// Whether the arrays of cursors that move have room for `n`.
fn can_move(n: usize, docids: usize, bodies: usize, lasts: usize, mins: usize) -> bool
    ensures { (result ≡ true) ↔ ((n ≤ docids) × (n ≤ bodies) × (n ≤ lasts) × (n ≤ block_size * mins)) }
{
    n <= docids && n <= bodies && n <= lasts && blocks_of(n) <= mins
}

// Whether the other arrays that a row is taken with have room for `n` cursors.
fn has_room(n: usize, masks: usize, follows: usize, starts: usize, matched: usize) -> bool
    ensures { (result ≡ true) ↔ ((n ≤ masks) × (n ≤ follows) × (n ≤ starts) × (n ≤ matched)) }
{
    n <= masks && n <= follows && n <= starts && n <= matched
}

// Whether a block with this least docid gives nothing to the row at `docid` and hides nothing in it.
fn gives_nothing(hidden: bool, least: u64, docid: u64) -> bool
    ensures { (result ≡ true) → ((hidden ≡ false) × (least ≡ docid → ⊥)) }
{
    !hidden && least != docid
}

// Takes the row at a docid before which no cursor stands: puts where the bodies of its hits begin into `starts`, and which
// query words each matches into `matched`; then every cursor on the docid stands on its next entry.
pub fn advance(
    docid: u64,
    leaves: &[u8],
    docids: &mut [u64],
    bodies: &mut [u16],
    lasts: &[u16],
    masks: &[u16],
    follows: &[u8],
    n: usize,
    mins: &mut [u64],
    starts: &mut [u16],
    matched: &mut [u16],
) -> Taken
    ensures { Advances docid n leaves.now lasts.now masks.now follows.now (record { docids = docids.entry.now; bodies = bodies.old; mins = mins.old }) (record { docids = docids.exit.now; bodies = bodies.new; mins = mins.new }) (record { starts = starts.entry.now; matched = matched.old }) (record { starts = starts.exit.now; matched = matched.new }) result }
{
    let mut scan = Scan {
        hits: 0,
        hidden: false,
        taken: 0,
        last: 0,
        rest: MAX_KEY,
        moved: MAX_KEY,
    };
    let none = scan.end_scan(None);
    if !can_move(n, docids.len(), bodies.len(), lasts.len(), mins.len()) {
        return none;
    }
    if !has_room(n, masks.len(), follows.len(), starts.len(), matched.len()) {
        return none;
    }
    for b in 0..blocks_of(n) {
        let from = b * BLOCK;
        let to = block_end(from, n);
        let least = mins[b];
        if gives_nothing(scan.hidden, least, docid) {
            scan = scan.over_other(false, least);
            continue;
        }
        let block = take_block(
            docid, leaves, docids, bodies, lasts, masks, follows, from, to, starts, matched, scan,
        );
        mins[b] = block.rest.min(block.moved);
        scan = scan.join(block);
    }
    scan.end_scan(next_of(scan.rest.min(scan.moved)))
}

// Where the cursor stands after all entries before `rest`.
fn place_from(leaves: &[u8], docid: u64, body: u16, last: u16, rest: u64) -> Place
    ensures content { (left : List Entry) → length leaves.now ≤ max_index_bytes → ListAt leaves.now left docid body last → ListAt leaves.now (without_before rest left) result.docid result.body last }
    ensures reached { rest ≤ result.docid }
    ensures stays { rest ≤ docid → (result.docid ≡ docid) × (result.body ≡ body) }
{
    let mut place = Place { docid, body };
    while place.docid < rest {
        place = entry_after(leaves, place.docid, place.body, last);
    }
    place
}

// The least docid of all blocks, none of which is before `rest`. Mostly it is `rest`, which is found sooner.
fn least_block(mins: &[u64], n: usize, rest: u64) -> Option<u64>
    requires { n ≤ block_size * length mins.now }
    ensures reader { result ≡ next_from rest (take (blocks_of n) mins.now) }
    ensures content { (docids : List ℕ) → n ≤ length docids → MinimaAre docids n mins.now → rest ≤ least_of (take n docids) → result ≡ next_of (least_of (take n docids)) }
{
    let blocks = &mins[..blocks_of(n)];
    if blocks.contains(&rest) {
        return next_of(rest);
    }
    next_of(least_of(blocks))
}

// Moves the cursor `i`, the only one that stands before `rest`, past all entries before it.
pub fn pass(
    i: usize,
    rest: u64,
    leaves: &[u8],
    docids: &mut [u64],
    bodies: &mut [u16],
    lasts: &[u16],
    n: usize,
    mins: &mut [u64],
) -> Option<u64>
    ensures { Passes i rest n leaves.now lasts.now (record { docids = docids.entry.now; bodies = bodies.old; mins = mins.old }) (record { docids = docids.exit.now; bodies = bodies.new; mins = mins.new }) result }
{
    if n <= i || !can_move(n, docids.len(), bodies.len(), lasts.len(), mins.len()) {
        return None;
    }
    let place = place_from(leaves, docids[i], bodies[i], lasts[i], rest);
    docids[i] = place.docid;
    bodies[i] = place.body;
    let b = i / BLOCK;
    let from = b * BLOCK;
    let to = block_end(from, n);
    mins[b] = least_of(&docids[from..to]);
    least_block(mins, n, rest)
}
