// The verdict sheet of document 02, section 13: the rows of a run counted by three queries, for pass, fail and silent.
#![tactic(auto)]

ghost use Rattle.std.specs.Prelude.{◌≡◌, ◌↔◌, true, List, map, ℕ, ◌+◌, ◌≤◌, length};
ghost use Rattle.common.specs.Bytes.{within};
ghost use Rattle.common.specs.Rooms.{zeros};
ghost use Rattle.doclist.specs.Docid.{key_of};
ghost use Rattle.verdict.specs.Sheet.{Verdicts, RunRight, numbers_of, is_counted, Sheeted};
ghost use Rattle.verdict.specs.Counting.{Shown, AllShown, count_in, SharedIs, earlier_of, TwiceIs, Judged, refusal_of, FoundIn, SheetOf};

use doclist::keys;
use search::Answer;

// The most rows of a run.
const MAX_ROWS: u64 = 4096;

// What a sheet answers. An own enum: the numbers of the answers are said of its cases (document 01).
#[derive(Clone, Copy)]
pub enum Sheet {
    // How many rows of the run are in each list, and in none.
    Counted {
        passed: usize,
        failed: usize,
        silent: usize,
        none: usize,
    },
    // The run, or the shape of the searches, is broken.
    Shape,
    // A query is not in the language.
    Query,
    // The first leaf that breaks a rule.
    Leaf(usize),
    // A room is too small: how many docids there are.
    Room(usize),
    // The smallest docid of the run that is in two lists.
    Twice(i64),
}

impl Sheet {
    // Its number: 0 to 4, or 7.
    pub fn number(self) -> u32
        ensures { result ≡ (numbers_of self).number }
    {
        match self {
            Sheet::Counted { .. } => 0,
            Sheet::Shape => 1,
            Sheet::Query => 2,
            Sheet::Leaf(_) => 3,
            Sheet::Room(_) => 4,
            Sheet::Twice(_) => 7,
        }
    }
}

// Whether a run, by the keys of its first and last docid, is one.
fn is_run(first: u64, last: u64) -> bool
    ensures { (result ≡ true) ↔ RunRight first last }
{
    first <= last && last - first < MAX_ROWS
}

// Whether a key is in the run.
fn is_within(first: u64, last: u64, key: u64) -> bool
    ensures { result ≡ within first last key }
{
    first <= key && key <= last
}

// How many docids of a list are in the run.
fn count_in(list: &[i64], first: u64, last: u64) -> usize
    ensures { result ≡ count_in first last (map key_of list.now) }
{
    let mut n = 0;
    for docid in list {
        if is_within(first, last, keys::key_of(*docid)) {
            n += 1;
        }
    }
    n
}

// Whether two keys are the same, and in the run.
fn is_hit(first: u64, last: u64, key: u64, other: u64) -> bool
    ensures { (result ≡ true) ↔ ((key ≡ other) × (within first last key ≡ true)) }
{
    key == other && is_within(first, last, key)
}

// The least key of the run that two rising lists share.
fn least_shared(a: &[i64], b: &[i64], first: u64, last: u64) -> Option<u64>
    ensures { (ds es : List ℕ) → Shown a.now ds → Shown b.now es → SharedIs first last ds es result }
{
    let mut i = 0;
    let mut j = 0;
    // Each list goes on by itself: no loop over either.
    while i < a.len() && j < b.len() {
        let key = keys::key_of(a[i]);
        let other = keys::key_of(b[j]);
        if other < key {
            j += 1;
            continue;
        }
        if is_hit(first, last, key, other) {
            return Some(key);
        }
        i += 1;
    }
    None
}

// The smaller of two keys, where they were found.
fn earlier(p: Option<u64>, q: Option<u64>) -> Option<u64>
    ensures { result ≡ earlier_of p q }
{
    match (p, q) {
        (Some(p), Some(q)) => Some(p.min(q)),
        _ => p.or(q),
    }
}

// The least key of the run that is in two of three lists.
fn twice(passes: &[i64], fails: &[i64], silents: &[i64], first: u64, last: u64) -> Option<u64>
    ensures { (v : Verdicts) → AllShown passes.now fails.now silents.now v → TwiceIs first last v result }
{
    let a = least_shared(passes, fails, first, last);
    let b = least_shared(passes, silents, first, last);
    let c = least_shared(fails, silents, first, last);
    earlier(a, earlier(b, c))
}

// What three counts leave of the rows.
fn rest(rows: usize, passed: usize, failed: usize, silent: usize) -> usize
    requires { passed + failed + silent ≤ rows }
    ensures { passed + failed + silent + result ≡ rows }
{
    rows - passed - failed - silent
}

// The sheet of three rising lists.
fn judge(passes: &[i64], fails: &[i64], silents: &[i64], first: u64, last: u64) -> Sheet
    requires { RunRight first last × ((v : Verdicts) × AllShown passes.now fails.now silents.now v) }
    ensures { (v : Verdicts) → AllShown passes.now fails.now silents.now v → Judged first last v result }
{
    if let Some(two) = twice(passes, fails, silents, first, last) {
        return Sheet::Twice(keys::docid_of(two));
    }
    let passed = count_in(passes, first, last);
    let failed = count_in(fails, first, last);
    let silent = count_in(silents, first, last);
    let rows = (last - first) as usize + 1;
    let none = rest(rows, passed, failed, silent);
    Sheet::Counted {
        passed,
        failed,
        silent,
        none,
    }
}

// What a search's refusal makes of a sheet.
fn refusal(answer: Answer) -> Sheet
    ensures { result ≡ refusal_of answer }
{
    match answer {
        Answer::Found(_) | Answer::Shape => Sheet::Shape,
        Answer::Query => Sheet::Query,
        Answer::Leaf(i) => Sheet::Leaf(i),
        Answer::Room(n) => Sheet::Room(n),
    }
}

// The sheet of three searches: the first refusal, or that of their lists.
fn sheet_of(
    a: Answer,
    b: Answer,
    c: Answer,
    passes: &[i64],
    fails: &[i64],
    silents: &[i64],
    first: u64,
    last: u64,
) -> Sheet
    requires { RunRight first last × FoundIn a passes.now × FoundIn b fails.now × FoundIn c silents.now }
    ensures { SheetOf first last a b c passes.now fails.now silents.now result }
{
    let Answer::Found(n) = a else {
        return refusal(a);
    };
    let Answer::Found(m) = b else {
        return refusal(b);
    };
    let Answer::Found(k) = c else {
        return refusal(c);
    };
    judge(&passes[0..n], &fails[0..m], &silents[0..k], first, last)
}

// Clears the rooms, and refuses with the sheet.
fn refused(passes: &mut [i64], fails: &mut [i64], silents: &mut [i64], sheet: Sheet) -> Sheet
    ensures { (result ≡ sheet) × (passes.new ≡ zeros (length passes.old)) × (fails.new ≡ zeros (length fails.old)) × (silents.new ≡ zeros (length silents.old)) }
{
    passes.fill(0);
    fails.fill(0);
    silents.fill(0);
    sheet
}

// Whether rows were counted.
fn is_counted(sheet: Sheet) -> bool
    ensures { result ≡ is_counted sheet }
{
    matches!(sheet, Sheet::Counted { .. })
}

// Counts the rows of a run from the first docid to the last: those that each of three queries lists, and those that none does. The lists
// go to their rooms whole, and zeros after them. A refusal leaves zeros in all three.
pub fn verdict(
    first: i64,
    last: i64,
    names: &[u8],
    name_ends: &[u32],
    leaves: &[u8],
    leaf_ends: &[u32],
    levels: &[u32],
    indexes: &[u32],
    pass: &[u8],
    fail: &[u8],
    silent: &[u8],
    passes: &mut [i64],
    fails: &mut [i64],
    silents: &mut [i64],
) -> Sheet
    ensures { Sheeted (record { first = first; last = last; names = names.now; name_ends = name_ends.now; leaves = leaves.now; leaf_ends = leaf_ends.now; levels = levels.now; indexes = indexes.now; pass = pass.now; fail = fail.now; silent = silent.now }) (length passes.old) (length fails.old) (length silents.old) result passes.new fails.new silents.new }
{
    let from = keys::key_of(first);
    let to = keys::key_of(last);
    if !is_run(from, to) {
        return refused(passes, fails, silents, Sheet::Shape);
    }
    let a = search::search(
        names, name_ends, leaves, leaf_ends, levels, indexes, pass, passes,
    );
    let b = search::search(
        names, name_ends, leaves, leaf_ends, levels, indexes, fail, fails,
    );
    let c = search::search(
        names, name_ends, leaves, leaf_ends, levels, indexes, silent, silents,
    );
    let sheet = sheet_of(a, b, c, passes, fails, silents, from, to);
    if !is_counted(sheet) {
        return refused(passes, fails, silents, sheet);
    }
    sheet
}
