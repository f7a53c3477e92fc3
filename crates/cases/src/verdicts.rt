// The compared cases of the verdict sheet: the number and, where rows were counted, the four counts, else the second number; then all
// numbers of the three rooms.
use crate::exchange::{self, Lent};
use crate::searches;
use std::io::{self, Read, Write};
use verdict::Sheet;

// What the rooms hold beforehand.
const OTHER: i64 = -77;

const MAX_ROOM: usize = 1024;

const MAX_QUERY: usize = 1024;

fn say_counts(
    out: &mut impl Write,
    passed: usize,
    failed: usize,
    silent: usize,
    none: usize,
) -> io::Result<()> {
    exchange::say(out, passed as u64)?;
    exchange::say(out, failed as u64)?;
    exchange::say(out, silent as u64)?;
    exchange::say(out, none as u64)
}

fn say_sheet(out: &mut impl Write, sheet: Sheet) -> io::Result<()> {
    exchange::say(out, sheet.number() as u64)?;
    match sheet {
        Sheet::Counted {
            passed,
            failed,
            silent,
            none,
        } => say_counts(out, passed, failed, silent, none),
        Sheet::Shape | Sheet::Query => exchange::say(out, 0),
        Sheet::Leaf(n) | Sheet::Room(n) => exchange::say(out, n as u64),
        Sheet::Twice(docid) => exchange::say(out, docid.cast_unsigned()),
    }
}

fn judge(
    out: &mut impl Write,
    first: i64,
    last: i64,
    names: &[u8],
    name_ends: &[u32],
    lent: Lent<'_>,
    pass: &[u8],
    fail: &[u8],
    silent: &[u8],
    passes: &mut [i64],
    fails: &mut [i64],
    silents: &mut [i64],
) -> io::Result<()> {
    let sheet = verdict::verdict(
        first,
        last,
        names,
        name_ends,
        lent.leaves,
        lent.ends,
        lent.levels,
        lent.indexes,
        pass,
        fail,
        silent,
        &mut passes[..],
        &mut fails[..],
        &mut silents[..],
    );
    say_sheet(out, sheet)?;
    searches::say_docids(out, passes, passes.len())?;
    searches::say_docids(out, fails, fails.len())?;
    searches::say_docids(out, silents, silents.len())
}

// A case has two further queries and the sizes of the three rooms.
pub(crate) fn verdict(
    input: &mut impl Read,
    out: &mut impl Write,
    first: i64,
    last: i64,
    names: &[u8],
    name_ends: &[u32],
    lent: Lent<'_>,
    pass: &[u8],
) -> io::Result<()> {
    let mut fail = [0u8; MAX_QUERY];
    let fail_size = exchange::field(input, &mut fail)?;
    let mut silent = [0u8; MAX_QUERY];
    let silent_size = exchange::field(input, &mut silent)?;
    let passes_size = exchange::size(input, MAX_ROOM)?;
    let fails_size = exchange::size(input, MAX_ROOM)?;
    let silents_size = exchange::size(input, MAX_ROOM)?;
    let mut passes = [OTHER; MAX_ROOM];
    let mut fails = [OTHER; MAX_ROOM];
    let mut silents = [OTHER; MAX_ROOM];
    judge(
        out,
        first,
        last,
        names,
        name_ends,
        lent,
        pass,
        &fail[..fail_size],
        &silent[..silent_size],
        &mut passes[..passes_size],
        &mut fails[..fails_size],
        &mut silents[..silents_size],
    )
}
