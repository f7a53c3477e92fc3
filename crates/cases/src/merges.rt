// The compared cases of both merges: the two numbers, the level and the index, the leaf, and how far from the start the room has a byte that
// is not 0.
use crate::documents;
use crate::exchange::{self, Lent};
use merge::Answer;
use std::io::{self, Write};

// What the room holds beforehand.
const OTHER: u8 = 165;

const MAX_ROOM: usize = 65600;

fn say_merge(out: &mut impl Write, answer: Answer, room: &[u8]) -> io::Result<()> {
    exchange::say(out, answer.number() as u64)?;
    exchange::say(out, answer.second() as u64)?;
    exchange::say(out, answer.level() as u64)?;
    exchange::say(out, answer.index() as u64)?;
    documents::say_room(out, answer.number(), answer.second(), room)
}

fn merged(keep: bool, columns: u32, lent: Lent<'_>, room: &mut [u8]) -> Answer {
    if keep {
        return merge::merge_keeping(
            columns,
            lent.leaves,
            lent.ends,
            lent.levels,
            lent.indexes,
            room,
        );
    }
    merge::merge(
        columns,
        lent.leaves,
        lent.ends,
        lent.levels,
        lent.indexes,
        room,
    )
}

fn merge_in(
    out: &mut impl Write,
    keep: bool,
    columns: u32,
    lent: Lent<'_>,
    room: &mut [u8],
) -> io::Result<()> {
    let answer = merged(keep, columns, lent, &mut room[..]);
    say_merge(out, answer, room)
}

pub(crate) fn merge(
    out: &mut impl Write,
    keep: bool,
    columns: u32,
    lent: Lent<'_>,
    size: usize,
) -> io::Result<()> {
    let mut room = [OTHER; MAX_ROOM];
    if size <= MAX_ROOM {
        merge_in(out, keep, columns, lent, &mut room[..size])?;
    }
    Ok(())
}
