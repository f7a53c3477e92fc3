// A run of a compiled query over the leaves of an index: from docid to docid, the entries on each make a row, and the
// docids of the rows that satisfy the query go to the result room.
#![tactic(auto)]

ghost use Rattle.std.specs.Prelude.{◌≡◌, true, List, ℕ, ◌+◌, ◌<◌, length, set};
ghost use Rattle.std.specs.Int.Bits.{bit_and};
ghost use Rattle.common.specs.Pick.{pick};
ghost use Rattle.common.specs.Rooms.{zeros};
ghost use Rattle.doclist.specs.Docid.{docid_of};
ghost use Rattle.meaning.specs.Satisfies.{Live};
ghost use Rattle.query.specs.Tree.{Tree};
ghost use Rattle.row.specs.Row.{Hit, RowIs};
ghost use Rattle.cursors.specs.Groups.{Group, last_key, NextIs};
ghost use Rattle.cursors.specs.Arrays.{CursorsAre, MinimaAre};
ghost use Rattle.evaluate.specs.Needs.{Needed};
ghost use Rattle.engine.specs.Run.{Ran};
ghost use Rattle.engine.specs.Rows.{Lacking, RowDecided, OneCursor, WentOn, Ready, RowEvaluated, RowsListed};

use cursors::Taken;
use doclist::keys::MAX_KEY;
use opening::{Leaves, Text};

// A word takes at least 6 of the leaves' 65,536 bytes, so there are no more cursors than this.
const MAX_CURSORS: usize = 10922;

// They stand in blocks of 16.
const MAX_BLOCKS: usize = 683;

// No docid is noted after so many; there are fewer entries in the leaves.
const MAX_COUNT: usize = 0xffff_ffff_ffff_ffff;

// The docid goes to the place, where the room has that place.
fn put_docid(room: &mut [i64], at: usize, docid: u64)
    ensures { room.new ≡ set room.old at (docid_of docid) }
{
    if at < room.len() {
        room[at] = doclist::keys::docid_of(docid);
    }
}

// Notes the docid if its row satisfies the query. How many are noted then.
fn note(room: &mut [i64], count: usize, docid: u64, holds: bool) -> usize
    requires { count < last_key }
    ensures { (result ≡ pick holds (count + 1) count) × (room.new ≡ pick holds (set room.old count (docid_of docid)) room.old) }
{
    if holds {
        put_docid(room, count, docid);
        count + 1
    } else {
        count
    }
}

// Whether a set of words lacks one that is needed.
fn lacks(set: u16, needed: u16) -> bool
    ensures { result ≡ true → bit_and set needed ≡ needed → ⊥ }
{
    set & needed != needed
}

// Whether a row of one hit lacks a word that is needed.
fn hit_lacks(matched: &[u16], hits: usize, needed: u16) -> bool
    ensures { result ≡ true → (leaves starts : List ℕ) (row : List Hit) → RowIs leaves starts matched.now row → hits ≡ length row → Lacking needed row }
{
    hits == 1 && !matched.is_empty() && lacks(matched[0], needed)
}

// Whether a row satisfies the query, where `needed` are the words that the query needs. A row of one hit that lacks such a
// word is not evaluated.
fn row_holds(
    query: query::Query,
    needed: u16,
    leaves: &[u8],
    starts: &[u16],
    matched: &[u16],
    hits: usize,
    marks: &mut [u64],
    spare: &mut [u64],
) -> bool
    requires { Needed query.ops.codes query.ops.len query.words.count needed }
    ensures { RowDecided query leaves.now starts.now matched.now hits marks.old spare.old result }
{
    if hit_lacks(matched, hits, needed) {
        return false;
    }
    // Copies of these small arrays: lent where they lie, they made a call copy the whole query, which took a tenth longer.
    let words = query.words;
    let ties = words.ties;
    let distances = words.distances;
    let columns = words.columns;
    let ops = query.ops;
    let codes = ops.codes;
    let tied = chain::Words {
        ties: &ties,
        distances: &distances,
        columns: &columns,
    };
    let row = row::Row {
        leaves,
        starts,
        masks: matched,
    };
    evaluate::holds(
        &tied,
        words.count,
        &codes,
        ops.len,
        &row,
        hits,
        marks,
        spare,
    )
}

// Where to go on after a row. If just one cursor stood on it, and its word does not match all that are needed, no row
// before the other cursors satisfies the query: the cursor passes over its own up to them.
fn go_on(
    row: Taken,
    needed: u16,
    leaves: &[u8],
    docids: &mut [u64],
    bodies: &mut [u16],
    lasts: &[u16],
    masks: &[u16],
    n: usize,
    mins: &mut [u64],
) -> Option<u64>
    ensures { (follows : List ℕ) (groups : List Group) → CursorsAre leaves.now docids.old bodies.old lasts.now masks.now follows n groups → MinimaAre docids.old n mins.old → NextIs groups row.next → OneCursor docids.old n row → WentOn leaves.now docids.new bodies.new lasts.now masks.now follows n mins.new needed groups result }
{
    let next = row.next;
    let last = row.last;
    if row.taken != 1 || masks.len() <= last || !lacks(masks[last], needed) {
        return next;
    }
    cursors::pass(last, row.rest, leaves, docids, bodies, lasts, n, mins)
}

// What a row comes to: whether it satisfies the query, and where to go on.
#[derive(Drop)]
struct Evaluated {
    holds: bool,
    next: Option<u64>,
}

// Takes the row at a docid before which no cursor stands, and judges it. `needed` are the words that the query needs.
fn take_row(
    query: query::Query,
    needed: u16,
    docid: u64,
    leaves: &[u8],
    docids: &mut [u64],
    bodies: &mut [u16],
    lasts: &[u16],
    masks: &[u16],
    follows: &[u8],
    n: usize,
    mins: &mut [u64],
    starts: &mut [u16],
    matched: &mut [u16],
    marks: &mut [u64],
    spare: &mut [u64],
) -> Evaluated
    requires { Needed query.ops.codes query.ops.len query.words.count needed }
    ensures { (tree : Tree) (live : Live) (groups : List Group) → Ready query leaves.now docids.old bodies.old lasts.now masks.now follows.now n mins.old docid starts.old matched.old marks.old spare.old tree live groups → RowEvaluated leaves.now docids.new bodies.new lasts.now masks.now follows.now n mins.new docid tree live groups result }
{
    let row = cursors::advance(
        docid, leaves, docids, bodies, lasts, masks, follows, n, mins, starts, matched,
    );
    let next = go_on(row, needed, leaves, docids, bodies, lasts, masks, n, mins);
    let holds = row_holds(
        query, needed, leaves, starts, matched, row.hits, marks, spare,
    );
    Evaluated { holds, next }
}

// Goes through all rows, from the least docid on; the last docid has a row, if only an empty one. The docids of those that satisfy the query go to the room, which is all
// zeros. How many they are.
fn rows(
    query: query::Query,
    leaves: &[u8],
    docids: &mut [u64],
    bodies: &mut [u16],
    lasts: &[u16],
    masks: &[u16],
    follows: &[u8],
    n: usize,
    room: &mut [i64],
) -> usize
    requires { room.old ≡ zeros (length room.old) }
    ensures { RowsListed query leaves.now docids.old bodies.old lasts.now masks.now follows.now n (length room.old) result room.new }
{
    let mut starts = [0u16; MAX_CURSORS];
    let mut matched = [0u16; MAX_CURSORS];
    let mut marks = [0u64; chain::MARK_WORDS];
    let mut spare = [0u64; chain::MARK_WORDS];
    let mut mins = [0u64; MAX_BLOCKS];
    let words = query.words;
    let ops = query.ops;
    let codes = ops.codes;
    let needed = evaluate::needs(&codes, ops.len, words.count);
    cursors::minima(docids, n, &mut mins);
    let mut next = cursors::least(docids, n);
    let mut from: u64 = 0;
    let mut count: usize = 0;
    loop {
        let docid = next.unwrap_or(MAX_KEY);
        if docid < from || count == MAX_COUNT {
            return count;
        }
        let row = take_row(
            query,
            needed,
            docid,
            leaves,
            docids,
            bodies,
            lasts,
            masks,
            follows,
            n,
            &mut mins,
            &mut starts,
            &mut matched,
            &mut marks,
            &mut spare,
        );
        count = note(room, count, docid, row.holds);
        if docid == MAX_KEY {
            return count;
        }
        from = docid + 1;
        next = row.next;
    }
}

// Runs a compiled query over leaves that come in any order; `order` has their numbers, newest first. The docids that satisfy
// it, rising, go to the room as far as they fit, and zeros after them. How many they are.
pub fn run(
    query: query::Query,
    leaves: &[u8],
    ends: &[u32],
    order: &[u8],
    room: &mut [i64],
) -> usize
    ensures { Ran query leaves.now ends.now order.now (length room.old) result room.new }
{
    common::clear(room);
    let mut docids = [0u64; MAX_CURSORS];
    let mut bodies = [0u16; MAX_CURSORS];
    let mut lasts = [0u16; MAX_CURSORS];
    let mut masks = [0u16; MAX_CURSORS];
    let mut follows = [0u8; MAX_CURSORS];
    let words = query.words;
    let text = words.text;
    let stops = words.ends;
    let marks = words.marks;
    let asked = Text {
        bytes: &text,
        stops: &stops,
        marks: &marks,
        count: words.count,
    };
    let lent = Leaves {
        bytes: leaves,
        ends,
        order,
    };
    let n = opening::open(
        asked,
        lent,
        &mut docids,
        &mut bodies,
        &mut lasts,
        &mut masks,
        &mut follows,
    );
    rows(
        query,
        leaves,
        &mut docids,
        &mut bodies,
        &lasts,
        &masks,
        &follows,
        n,
        room,
    )
}
