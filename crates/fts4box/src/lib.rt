// The counting box for C and Rust: see include/fts4box.h. A slice is passed as a pointer and a length. Each call returns the
// number of its answer and stores the second one.
#![tactic(auto)]

ghost use Rattle.std.specs.Prelude.{◌≡◌, length, true, false};
ghost use Rattle.common.specs.Refusals.{numbers};
ghost use Rattle.doclist.specs.Docid.{key_of};
ghost use Rattle.verdict.specs.Sheet.{RunRight, row_count};
ghost use Rattle.merge.specs.Merge as merges;
ghost use Rattle.fts4box.specs.Calls.{Checked, LookedUp, Decided, Written, Found, Merged, Judged, answer_start, entry_start, entry_leaf, signed, sheet_second, passed_of, failed_of, silenced_of, none_of, RunCounted};

use doclist::keys;
use lookup::{EntryAnswer, WordAnswer};
use verdict::Sheet;

// Checks one leaf.
#[unsafe(no_mangle)]
pub extern "C" fn fts4_check(leaf: &[u8], columns: u32, second: &mut u64) -> u32
    ensures { Checked columns leaf.now result second.new }
{
    let checked = leaf::check(leaf, columns);
    *second = checked.second() as u64;
    checked.number()
}

fn word_start(answer: WordAnswer) -> u64
    ensures { result ≡ answer_start answer }
{
    match answer {
        WordAnswer::Found { start, .. } => start as u64,
        _ => 0,
    }
}

// Looks a word up in one leaf.
#[unsafe(no_mangle)]
pub extern "C" fn fts4_lookup(
    leaf: &[u8],
    columns: u32,
    word: &[u8],
    second: &mut u64,
    start: &mut u64,
    read: &mut u64,
) -> u32
    ensures { LookedUp columns leaf.now word.now result second.new start.new read.new }
{
    let answer = lookup::find_list(leaf, columns, word);
    *second = lookup::word_second(answer);
    *start = word_start(answer);
    *read = lookup::word_read(answer);
    lookup::word_number(answer)
}

fn entry_start(answer: EntryAnswer) -> u64
    ensures { result ≡ entry_start answer }
{
    match answer {
        EntryAnswer::Newer { start, .. } | EntryAnswer::Older { start, .. } => start as u64,
        _ => 0,
    }
}

fn entry_leaf(answer: EntryAnswer) -> u32
    ensures { result ≡ entry_leaf answer }
{
    match answer {
        EntryAnswer::Older { .. } => 1,
        _ => 0,
    }
}

// Looks for the entry that decides for a word and a docid in two leaves.
#[unsafe(no_mangle)]
pub extern "C" fn fts4_deciding(
    newer: &[u8],
    older: &[u8],
    columns: u32,
    word: &[u8],
    docid: i64,
    second: &mut u64,
    leaf: &mut u32,
    start: &mut u64,
) -> u32
    ensures { Decided columns newer.now older.now word.now docid result second.new leaf.new start.new }
{
    let answer = lookup::find_entry(newer, older, columns, word, docid);
    *second = lookup::entry_second(answer);
    *leaf = entry_leaf(answer);
    *start = entry_start(answer);
    lookup::entry_number(answer)
}

// Writes the leaf for one document.
#[unsafe(no_mangle)]
pub extern "C" fn fts4_write(
    docid: i64,
    texts: &[u8],
    ends: &[u32],
    room: &mut [u8],
    second: &mut u64,
) -> u32
    ensures { Written docid texts.now ends.now room.old room.new result second.new }
{
    let written = writer::write(docid, texts, ends, room);
    *second = written.second() as u64;
    written.number()
}

// Lists all docids that satisfy a query.
#[unsafe(no_mangle)]
pub extern "C" fn fts4_search(
    names: &[u8],
    name_ends: &[u32],
    leaves: &[u8],
    leaf_ends: &[u32],
    levels: &[u32],
    indexes: &[u32],
    query: &[u8],
    room: &mut [i64],
    second: &mut u64,
) -> u32
    ensures { Found (record { names = names.entry.now; name_ends = name_ends.now; leaves = leaves.now; leaf_ends = leaf_ends.now; levels = levels.now; indexes = indexes.now; query = query.now }) (length room.old) room.new result second.new }
{
    let answer = search::search(
        names, name_ends, leaves, leaf_ends, levels, indexes, query, room,
    );
    *second = answer.second() as u64;
    answer.number()
}

// Stores what a merge answered, and returns its number.
fn store_merge(merged: merge::Answer, second: &mut u64, level: &mut u32, index: &mut u32) -> u32
    ensures numbers_are { numbers result second.new ≡ merges.numbers_of merged }
    ensures pair_is { record { level = level.new; index = index.new } ≡ merges.pair_of merged }
{
    *second = merged.second() as u64;
    *level = merged.level();
    *index = merged.index();
    merged.number()
}

// The full merge of all leaves of an index.
#[unsafe(no_mangle)]
pub extern "C" fn fts4_merge(
    columns: u32,
    leaves: &[u8],
    leaf_ends: &[u32],
    levels: &[u32],
    indexes: &[u32],
    room: &mut [u8],
    second: &mut u64,
    level: &mut u32,
    index: &mut u32,
) -> u32
    ensures { Merged false (record { columns = columns; leaves = leaves.now; leaf_ends = leaf_ends.now; levels = levels.now; indexes = indexes.now }) (length room.old) room.new result second.new level.new index.new }
{
    let answer = merge::merge(columns, leaves, leaf_ends, levels, indexes, room);
    store_merge(answer, second, level, index)
}

// The merge of neighbours that keeps deletions.
#[unsafe(no_mangle)]
pub extern "C" fn fts4_merge_keeping(
    columns: u32,
    leaves: &[u8],
    leaf_ends: &[u32],
    levels: &[u32],
    indexes: &[u32],
    room: &mut [u8],
    second: &mut u64,
    level: &mut u32,
    index: &mut u32,
) -> u32
    ensures { Merged true (record { columns = columns; leaves = leaves.now; leaf_ends = leaf_ends.now; levels = levels.now; indexes = indexes.now }) (length room.old) room.new result second.new level.new index.new }
{
    let answer = merge::merge_keeping(columns, leaves, leaf_ends, levels, indexes, room);
    store_merge(answer, second, level, index)
}

// The signed number of the same 64 bits.
fn signed_of(n: u64) -> i64
    ensures { result ≡ signed n }
{
    keys::docid_of(keys::key_of_bits(n))
}

// How many rows a run has.
fn row_count(first: i64, last: i64) -> u64
    requires { RunRight (key_of first) (key_of last) }
    ensures { result ≡ row_count (key_of first) (key_of last) }
{
    keys::key_of(last) - keys::key_of(first) + 1
}

fn sheet_second(sheet: Sheet, first: i64, last: i64) -> i64
    requires { RunCounted first last sheet }
    ensures { result ≡ sheet_second sheet }
{
    match sheet {
        Sheet::Counted { .. } => signed_of(row_count(first, last)),
        Sheet::Shape => signed_of(0),
        Sheet::Query => signed_of(0),
        Sheet::Leaf(i) => signed_of(i as u64),
        Sheet::Room(n) => signed_of(n as u64),
        Sheet::Twice(docid) => docid,
    }
}

// The four counts of a sheet, which are 0 where it is refused.
#[derive(Clone, Copy)]
struct Counts {
    passed: u64,
    failed: u64,
    silenced: u64,
    none: u64,
}

fn counts_of(sheet: Sheet) -> Counts
    ensures { result ≡ record { passed = passed_of sheet; failed = failed_of sheet; silenced = silenced_of sheet; none = none_of sheet } }
{
    match sheet {
        Sheet::Counted {
            passed,
            failed,
            silent,
            none,
        } => Counts {
            passed: passed as u64,
            failed: failed as u64,
            silenced: silent as u64,
            none: none as u64,
        },
        _ => Counts {
            passed: 0,
            failed: 0,
            silenced: 0,
            none: 0,
        },
    }
}

// The verdict sheet of a run.
#[unsafe(no_mangle)]
pub extern "C" fn fts4_verdict(
    first: i64,
    last: i64,
    names: &[u8],
    name_ends: &[u32],
    leaves: &[u8],
    leaf_ends: &[u32],
    levels: &[u32],
    indexes: &[u32],
    pass_query: &[u8],
    fail_query: &[u8],
    silent_query: &[u8],
    pass_room: &mut [i64],
    fail_room: &mut [i64],
    silent_room: &mut [i64],
    second: &mut i64,
    passed: &mut u64,
    failed: &mut u64,
    silenced: &mut u64,
    none: &mut u64,
) -> u32
    ensures { Judged (record { first = first; last = last; names = names.now; name_ends = name_ends.now; leaves = leaves.now; leaf_ends = leaf_ends.now; levels = levels.now; indexes = indexes.now; pass = pass_query.now; fail = fail_query.now; silent = silent_query.now }) (length pass_room.old) (length fail_room.old) (length silent_room.old) pass_room.new fail_room.new silent_room.new result second.new passed.new failed.new silenced.new none.new }
{
    let sheet = verdict::verdict(
        first,
        last,
        names,
        name_ends,
        leaves,
        leaf_ends,
        levels,
        indexes,
        pass_query,
        fail_query,
        silent_query,
        pass_room,
        fail_room,
        silent_room,
    );
    *second = sheet_second(sheet, first, last);
    let counts = counts_of(sheet);
    *passed = counts.passed;
    *failed = counts.failed;
    *silenced = counts.silenced;
    *none = counts.none;
    sheet.number()
}
