// Posting lists of document 01: doclists. A list is a row of varints:
//
//     docid (later its difference)   for each column: [1, column]   position + 2, difference + 2, ..   0
//
// Column 0 is not announced. An entry with no column, `docid 0`, is a deletion. A docid stands here as its key (module `keys`).
#![tactic(auto)]

pub mod keys;

ghost use Rattle.std.specs.Prelude.{◌≡◌, ◌↔◌, List, ◌<◌};
ghost use Rattle.doclist.specs.Doclist.{Entry, WellFormed, encode_list, entry_place, position_limit};
ghost use Rattle.doclist.specs.Spots.{spot_of, announced_of, spot_after, Closes};
ghost use Rattle.doclist.specs.Checking.{Sane, position_of, position_state, later_docid_of, next_docid_of, next_column_of, check_step, check_of, not_found_of, find_of};

use varint::Varint;

// These two are numbers of the FTS4 layout as they are stored, not kinds of ours, and so no enum. This one closes an entry.
const POS_END: u64 = 0;

// This one announces a column.
const POS_COLUMN: u64 = 1;

// What is added to a position, so that it is told from these two.
const POS_BASE: u64 = 2;

// A position is below 2^31.
const POSITION_LIMIT: u64 = 0x8000_0000;

// Which number of a list comes next.
#[derive(Drop)]
pub enum State {
    // The first docid.
    Start,
    // A docid's difference, or the end of the list: the entry of `docid` is closed.
    Between {
        docid: u64,
    },
    // In `column`: a position that counts from `base` and is at least `low`; or 1 or 0, which end the column.
    Open {
        docid: u64,
        column: u64,
        base: u64,
        low: u64,
    },
    // A column above `column`, after the number 1.
    Name {
        docid: u64,
        column: u64,
    },
    // The first position of `column`, which was just announced.
    Named {
        docid: u64,
        column: u64,
    },
    // A rule is broken.
    Broken,
}

// A position of an entry, in a column; the number after it is at `next`.
#[derive(Drop)]
struct Spot {
    column: u64,
    position: u64,
    next: usize,
}

// Whether a byte string is a posting list. An own enum: a clause of `check` speaks of `ListCheck.Accepted`.
#[derive(Drop)]
pub enum ListCheck {
    Accepted,
    Refused,
}

// Where the entry of a docid stands in a list. An own enum: a broken list is told from one without the docid.
#[derive(Drop)]
pub enum EntryAt {
    // From `start`, its docid number, up to `end`, after its closing 0.
    At { start: usize, end: usize },
    // No entry has the docid.
    Absent,
    // Up to the entry's place this is no list: a number can't be read, a rule is broken, or the list ends inside an entry.
    Refused,
}

// The position that a number stands for, if it keeps the rules: it counts from `base`, and is at least `low`.
fn position_of(base: u64, low: u64, v: u64) -> Option<u64>
    requires { base < position_limit }
    ensures { result ≡ position_of base low v }
{
    if v < POS_BASE {
        return None;
    }
    let step = v - POS_BASE;
    if POSITION_LIMIT - base <= step {
        return None;
    }
    let position = base + step;
    if position < low {
        return None;
    }
    Some(position)
}

// The state after a position's number.
fn position(docid: u64, column: u64, base: u64, low: u64, v: u64) -> State
    requires { base < position_limit }
    ensures { result ≡ position_state docid column base low v }
{
    match position_of(base, low, v) {
        Some(p) => State::Open {
            docid,
            column,
            base: p,
            low: p + 1,
        },
        None => State::Broken,
    }
}

// The docid that comes after `docid` by a difference, if the difference keeps the rules.
fn later_docid(docid: u64, v: u64) -> Option<u64>
    ensures { result ≡ later_docid_of docid v }
{
    if v == 0 {
        return None;
    }
    if keys::MAX_KEY - docid < v {
        return None;
    }
    Some(docid + v)
}

// The state after a docid's difference.
fn next_docid(docid: u64, v: u64) -> State
    ensures { result ≡ next_docid_of docid v }
{
    match later_docid(docid, v) {
        Some(later) => State::Open {
            docid: later,
            column: 0,
            base: 0,
            low: 0,
        },
        None => State::Broken,
    }
}

// The state after the number of a column.
fn next_column(docid: u64, column: u64, v: u64, columns: u64) -> State
    ensures { result ≡ next_column_of columns docid column v }
{
    if v <= column {
        return State::Broken;
    }
    if v < columns {
        State::Named { docid, column: v }
    } else {
        State::Broken
    }
}

// The state after one more number.
fn step(q: State, v: u64, columns: u64) -> State
    requires { Sane q }
    ensures { result ≡ check_step columns q v }
{
    match q {
        State::Start => State::Open {
            docid: keys::key_of_bits(v),
            column: 0,
            base: 0,
            low: 0,
        },
        State::Between { docid } => next_docid(docid, v),
        State::Open {
            docid,
            column,
            base,
            low,
        } => {
            if v == POS_END {
                return State::Between { docid };
            }
            if v == POS_COLUMN {
                return State::Name { docid, column };
            }
            position(docid, column, base, low, v)
        }
        State::Name { docid, column } => next_column(docid, column, v, columns),
        State::Named { docid, column } => position(docid, column, 0, 0, v),
        State::Broken => State::Broken,
    }
}

// The position that a number stands for, if it keeps the rules; the number after it is at `next`.
fn spot_at(column: u64, base: u64, low: u64, v: u64, next: usize) -> Option<Spot>
    requires { base < position_limit }
    ensures { result ≡ spot_of column base low v next }
{
    let position = position_of(base, low, v)?;
    Some(Spot {
        column,
        position,
        next,
    })
}

// The first position of the column that is announced at `at`, after the number 1; None where a rule is broken, or the list ends.
fn announced(s: &[u8], at: usize, column: u64, columns: u64) -> Option<Spot>
    ensures { result ≡ announced_of columns s.now at column }
{
    let Varint::Value {
        value: name,
        next: after,
    } = varint::read(s, at)
    else {
        return None;
    };
    if name <= column {
        return None;
    }
    if columns <= name {
        return None;
    }
    let Varint::Value { value: v, next } = varint::read(s, after) else {
        return None;
    };
    spot_at(name, 0, 0, v, next)
}

// The position that comes next in an entry, where its next number is `v`, not 0; None as in `announced`.
fn spot_after(
    s: &[u8],
    column: u64,
    base: u64,
    low: u64,
    v: u64,
    next: usize,
    columns: u64,
) -> Option<Spot>
    requires { base < position_limit }
    ensures { result ≡ spot_after columns s.now column base low v next }
{
    if v == POS_COLUMN {
        return announced(s, next, column, columns);
    }
    spot_at(column, base, low, v, next)
}

// Where the entry whose columns begin at `at` ends, after its closing 0; None where a rule is broken, or the list ends inside it.
fn close(s: &[u8], at: usize, columns: u64) -> Option<usize>
    ensures { Closes columns s.now at result }
{
    let mut column: u64 = 0;
    let mut base: u64 = 0;
    let mut low: u64 = 0;
    let mut i = at;
    loop {
        let Varint::Value { value: v, next } = varint::read(s, i) else {
            return None;
        };
        if v == POS_END {
            return Some(next);
        }
        let spot = spot_after(s, column, base, low, v, next, columns)?;
        column = spot.column;
        base = spot.position;
        low = spot.position + 1;
        i = spot.next;
    }
}

// Whether `s` is a posting list of a table of `columns` columns.
pub fn check(s: &[u8], columns: u64) -> ListCheck
    ensures reader { result ≡ check_of columns s.now }
    ensures content { (result ≡ ListCheck.Accepted) ↔ ((es : List Entry) × WellFormed columns es × (s.now ≡ encode_list es)) }
{
    if columns == 0 {
        return ListCheck::Refused;
    }
    if (common::MAX_COLUMNS as u64) < columns {
        return ListCheck::Refused;
    }
    let Varint::Value {
        value: first,
        next: columns_at,
    } = varint::read(s, 0)
    else {
        return ListCheck::Refused;
    };
    let mut docid = keys::key_of_bits(first);
    let mut i = columns_at;
    loop {
        let Some(end) = close(s, i, columns) else {
            return ListCheck::Refused;
        };
        if s.len() <= end {
            return ListCheck::Accepted;
        }
        let Varint::Value { value: v, next } = varint::read(s, end) else {
            return ListCheck::Refused;
        };
        let Some(later) = later_docid(docid, v) else {
            return ListCheck::Refused;
        };
        docid = later;
        i = next;
    }
}

// The answer where the list ends in this state, and the docid was not met.
fn not_found(q: State) -> EntryAt
    ensures { result ≡ not_found_of q }
{
    match q {
        State::Between { .. } => EntryAt::Absent,
        _ => EntryAt::Refused,
    }
}

// Where the entry of `docid` stands in the posting list `s`. It is read no further than it takes to know.
pub fn find(s: &[u8], columns: u64, docid: u64) -> EntryAt
    ensures reader { result ≡ find_of columns s.now docid }
    ensures content { (es : List Entry) → WellFormed columns es → s.now ≡ encode_list es → result ≡ entry_place es docid }
{
    if columns == 0 {
        return EntryAt::Refused;
    }
    if (common::MAX_COLUMNS as u64) < columns {
        return EntryAt::Refused;
    }
    let mut q = State::Start;
    let mut start = 0;
    let mut i = 0;
    while i < s.len() {
        let Varint::Value { value, next } = varint::read(s, i) else {
            return EntryAt::Refused;
        };
        q = step(q, value, columns);
        i = next;
        if let State::Between { docid: closed } = q {
            if closed == docid {
                return EntryAt::At { start, end: i };
            }
            if docid < closed {
                return EntryAt::Absent;
            }
            start = i;
        }
    }
    not_found(q)
}
