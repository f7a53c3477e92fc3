// The search of document 01: all docids that satisfy a query over the leaves of an index.
#![tactic(auto)]

ghost use Rattle.std.specs.Prelude.{◌≡◌, ◌↔◌, true, List, ℕ, ◌≤◌, length, IsSome, IfSome};
ghost use Rattle.common.specs.Rooms.{zeros};
ghost use Rattle.offsets.specs.Cut.{cut};
ghost use Rattle.directory.specs.Order.{OrderPlaced};
ghost use Rattle.leaf.specs.Leaf.{IsLeaf};
ghost use Rattle.search.specs.Search.{numbers_of, ShapeRight, Searched};
ghost use Rattle.search.specs.Checking.{Checkable, SoundLeaves};

use leaf::LeafCheck;

// What a search answers. An own enum: the numbers of the answers are said of its cases (document 01).
#[derive(Clone, Copy)]
pub enum Answer {
    // The docids are in the room: how many.
    Found(usize),
    // Ends, names or the leaves' number or size are broken.
    Shape,
    // The query is not in the language.
    Query,
    // The first leaf that breaks a rule.
    Leaf(usize),
    // The room is too small: how many docids there are.
    Room(usize),
}

impl Answer {
    // Its number, from 0 to 4.
    pub fn number(self) -> u32
        ensures { result ≡ (numbers_of self).number }
    {
        match self {
            Answer::Found(_) => 0,
            Answer::Shape => 1,
            Answer::Query => 2,
            Answer::Leaf(_) => 3,
            Answer::Room(_) => 4,
        }
    }

    // The number beside it.
    pub fn second(self) -> usize
        ensures { result ≡ (numbers_of self).second }
    {
        match self {
            Answer::Shape | Answer::Query => 0,
            Answer::Found(n) | Answer::Leaf(n) | Answer::Room(n) => n,
        }
    }
}

// The order of the leaves by age, which is refused where number 1 is due.
fn order_of(
    names: &[u8],
    name_ends: &[u32],
    leaves: &[u8],
    leaf_ends: &[u32],
    levels: &[u32],
    indexes: &[u32],
) -> Option<[u8; 8]>
    ensures shape { (query : List ℕ) → IsSome result ↔ ShapeRight (record { names = names.entry.now; name_ends = name_ends.now; leaves = leaves.now; leaf_ends = leaf_ends.now; levels = levels.now; indexes = indexes.now; query = query }) }
    ensures order { IfSome result (OrderPlaced levels.now indexes.now) }
{
    if !offsets::are_names(names, name_ends) {
        return None;
    }
    if !offsets::is_cut(leaves, leaf_ends) {
        return None;
    }
    if common::MAX_INDEX_BYTES < leaves.len() {
        return None;
    }
    directory::newest_first(levels, indexes, leaf_ends.len())
}

// Whether a leaf keeps every rule.
fn is_leaf(leaf: &[u8], columns: u32) -> bool
    ensures { Checkable columns leaf.now → (result ≡ true) ↔ IsLeaf columns leaf.now }
{
    matches!(leaf::check(leaf, columns), LeafCheck::Accepted)
}

// How many leaves keep every rule, in the order lent, up to the first that breaks one.
pub fn sound_leaves(leaves: &[u8], ends: &[u32], columns: u32) -> usize
    ensures few { result ≤ length ends.now }
    ensures sound { Checkable columns leaves.now → SoundLeaves columns (cut leaves.now ends.now) result }
{
    for i in 0..ends.len() {
        if !is_leaf(offsets::part(leaves, ends, i), columns) {
            return i;
        }
    }
    ends.len()
}

// Clears the room, and refuses with the answer.
fn refused(room: &mut [i64], answer: Answer) -> Answer
    ensures { (result ≡ answer) × (room.new ≡ zeros (length room.old)) }
{
    room.fill(0);
    answer
}

// Lists all docids that satisfy the query, over leaves that come in any order, each with its level and index: the docids go
// to the room, and zeros after them. A refusal leaves zeros.
pub fn search(
    names: &[u8],
    name_ends: &[u32],
    leaves: &[u8],
    leaf_ends: &[u32],
    levels: &[u32],
    indexes: &[u32],
    query: &[u8],
    room: &mut [i64],
) -> Answer
    ensures { Searched (record { names = names.entry.now; name_ends = name_ends.now; leaves = leaves.now; leaf_ends = leaf_ends.now; levels = levels.now; indexes = indexes.now; query = query.now }) (length room.old) result room.new }
{
    let Some(places) = order_of(names, name_ends, leaves, leaf_ends, levels, indexes) else {
        return refused(room, Answer::Shape);
    };
    let Some(compiled) = query::read(names, name_ends, query) else {
        return refused(room, Answer::Query);
    };
    let count = leaf_ends.len();
    let sound = sound_leaves(leaves, leaf_ends, name_ends.len() as u32);
    if sound < count {
        return refused(room, Answer::Leaf(sound));
    }
    let found = engine::run(compiled, leaves, leaf_ends, &places[0..count], room);
    if room.len() < found {
        return refused(room, Answer::Room(found));
    }
    Answer::Found(found)
}
