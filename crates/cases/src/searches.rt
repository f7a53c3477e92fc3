// The compared cases of the search: the two numbers, the docids, and how many numbers of the room after them are not 0.
ghost use Rattle.std.specs.Prelude.{◌≡◌, drop};
ghost use Rattle.cases.specs.Rooms.{nonzero, others};

use crate::exchange::{self, Lent};
use search::Answer;
use std::io::{self, Write};

// What the room holds beforehand.
const OTHER: i64 = -77;

const MAX_ROOM: usize = 1024;

// The docids, each as its 64 bits.
pub(crate) fn say_docids(out: &mut impl Write, room: &[i64], n: usize) -> io::Result<()> {
    for docid in room.iter().take(n) {
        exchange::say(out, docid.cast_unsigned())?;
    }
    Ok(())
}

// 1 where a number is not 0, else 0.
fn is_other(d: i64) -> usize
    ensures { result ≡ nonzero d }
{
    if d != 0 { 1 } else { 0 }
}

// How many numbers from `from` on are not 0.
fn others(room: &[i64], from: usize) -> usize
    ensures { result ≡ others (drop from room.now) }
{
    let mut n = 0;
    for i in from..room.len() {
        n += is_other(room[i]);
    }
    n
}

// The two numbers, the docids listed, and the numbers after them.
fn say_answer(out: &mut impl Write, answer: Answer, room: &[i64]) -> io::Result<()> {
    exchange::say(out, answer.number() as u64)?;
    exchange::say(out, answer.second() as u64)?;
    let from = match answer {
        Answer::Found(n) => n,
        _ => 0,
    };
    say_docids(out, room, from)?;
    exchange::say(out, others(room, from) as u64)
}

fn search_in(
    out: &mut impl Write,
    names: &[u8],
    name_ends: &[u32],
    lent: Lent<'_>,
    query: &[u8],
    room: &mut [i64],
) -> io::Result<()> {
    let answer = search::search(
        names,
        name_ends,
        lent.leaves,
        lent.ends,
        lent.levels,
        lent.indexes,
        query,
        &mut room[..],
    );
    say_answer(out, answer, room)
}

pub(crate) fn search(
    out: &mut impl Write,
    names: &[u8],
    name_ends: &[u32],
    lent: Lent<'_>,
    query: &[u8],
    size: usize,
) -> io::Result<()> {
    let mut room = [OTHER; MAX_ROOM];
    if size <= MAX_ROOM {
        search_in(out, names, name_ends, lent, query, &mut room[..size])?;
    }
    Ok(())
}
