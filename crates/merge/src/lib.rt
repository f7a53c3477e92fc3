// The merge of leaves into one, of document 02: for each word and docid the entry that decides. The full merge (section 4) is of all
// leaves of an index and drops deletions; the keeping merge (section 6) is of neighbours and keeps them.
#![tactic(auto)]

mod words;

ghost use Rattle.std.specs.Prelude.{◌≡◌, ◌↔◌, true, false, ◌<◌, length, replicate, IsSome, IfSome};
ghost use Rattle.directory.specs.Order.{OrderPlaced};
ghost use Rattle.merge.specs.Merge.{numbers_of, pair_of, ShapeRight, MergesTo, pair_answer};

// What a merge answers. An own enum: the numbers of the answers are said of its cases (document 01).
#[derive(Clone, Copy)]
pub enum Answer {
    // The leaf stands in the room: how many bytes it took, and the level and the index of the newest leaf lent. All are 0 where
    // nothing is left.
    Written { size: usize, level: u32, index: u32 },
    // The columns, ends, levels or indexes, the leaves' number or size, or the size of the merge is wrong.
    Shape,
    // The first leaf that breaks a rule, in the order lent.
    Leaf(usize),
    // The room is too small: how many bytes are needed.
    Room(usize),
}

impl Answer {
    // Its number: 0, 1, 3 or 4.
    pub fn number(self) -> u32
        ensures { result ≡ (numbers_of self).number }
    {
        match self {
            Answer::Written { .. } => 0,
            Answer::Shape => 1,
            Answer::Leaf(_) => 3,
            Answer::Room(_) => 4,
        }
    }

    // The number beside it.
    pub fn second(self) -> usize
        ensures { result ≡ (numbers_of self).second }
    {
        match self {
            Answer::Written { size, .. } => size,
            Answer::Shape => 0,
            Answer::Leaf(n) | Answer::Room(n) => n,
        }
    }

    // The level of the leaf that was written; 0 where it is refused.
    pub fn level(self) -> u32
        ensures { result ≡ (pair_of self).level }
    {
        match self {
            Answer::Written { level, .. } => level,
            _ => 0,
        }
    }

    // Its index; 0 where it is refused.
    pub fn index(self) -> u32
        ensures { result ≡ (pair_of self).index }
    {
        match self {
            Answer::Written { index, .. } => index,
            _ => 0,
        }
    }
}

// The order of the leaves by age, which is refused where number 1 is due before a leaf is read.
fn order_of(
    columns: u32,
    leaves: &[u8],
    ends: &[u32],
    levels: &[u32],
    indexes: &[u32],
) -> Option<[u8; 8]>
    ensures shape { IsSome result ↔ ShapeRight (record { columns = columns; leaves = leaves.now; leaf_ends = ends.now; levels = levels.now; indexes = indexes.now }) }
    ensures order { IfSome result (OrderPlaced levels.now indexes.now) }
{
    if columns == 0 {
        return None;
    }
    if (common::MAX_COLUMNS as u32) < columns {
        return None;
    }
    if ends.len() == 0 {
        return None;
    }
    if common::MAX_INDEX_BYTES < leaves.len() {
        return None;
    }
    if !offsets::is_cut(leaves, ends) {
        return None;
    }
    directory::newest_first(levels, indexes, ends.len())
}

// The answer for a leaf of `size` bytes, where the leaf number `newest` is the newest.
fn written(size: usize, levels: &[u32], indexes: &[u32], newest: usize) -> Answer
    requires { (newest < length levels.now) × (newest < length indexes.now) }
    ensures { result ≡ pair_answer size levels.now indexes.now newest }
{
    if size == 0 {
        return Answer::Written {
            size,
            level: 0,
            index: 0,
        };
    }
    Answer::Written {
        size,
        level: levels[newest],
        index: indexes[newest],
    }
}

// Merges the leaves: the leaf goes to the room, and zeros after it. A refusal leaves zeros.
fn merge_with(
    keep: bool,
    columns: u32,
    leaves: &[u8],
    ends: &[u32],
    levels: &[u32],
    indexes: &[u32],
    room: &mut [u8],
) -> Answer
    ensures { MergesTo keep (record { columns = columns; leaves = leaves.now; leaf_ends = ends.now; levels = levels.now; indexes = indexes.now }) (length room.old) result room.new }
{
    storing::clear(room);
    let Some(places) = order_of(columns, leaves, ends, levels, indexes) else {
        return Answer::Shape;
    };
    let count = ends.len();
    let sound = search::sound_leaves(leaves, ends, columns);
    if sound < count {
        return Answer::Leaf(sound);
    }
    let need = words::put_terms(room, keep, leaves, ends, &places[0..count]);
    if common::MAX_INDEX_BYTES < need {
        storing::clear(room);
        return Answer::Shape;
    }
    if room.len() < need {
        storing::clear(room);
        return Answer::Room(need);
    }
    written(need, levels, indexes, places[0] as usize)
}

// The full merge of all leaves of an index.
pub fn merge(
    columns: u32,
    leaves: &[u8],
    ends: &[u32],
    levels: &[u32],
    indexes: &[u32],
    room: &mut [u8],
) -> Answer
    ensures { MergesTo false (record { columns = columns; leaves = leaves.now; leaf_ends = ends.now; levels = levels.now; indexes = indexes.now }) (length room.old) result room.new }
{
    merge_with(false, columns, leaves, ends, levels, indexes, room)
}

// The keeping merge: what its deletions hide in older leaves stays hidden.
pub fn merge_keeping(
    columns: u32,
    leaves: &[u8],
    ends: &[u32],
    levels: &[u32],
    indexes: &[u32],
    room: &mut [u8],
) -> Answer
    ensures { MergesTo true (record { columns = columns; leaves = leaves.now; leaf_ends = ends.now; levels = levels.now; indexes = indexes.now }) (length room.old) result room.new }
{
    merge_with(true, columns, leaves, ends, levels, indexes, room)
}
