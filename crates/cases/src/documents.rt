// The compared cases of the writer: the two numbers, the leaf, and how far from the start the room has a byte that is not 0.
ghost use Rattle.std.specs.Prelude.{◌≡◌, length};
ghost use Rattle.cases.specs.Rooms.{reach};

use crate::exchange;
use std::io::{self, Write};
use writer::Answer;

// What the room holds beforehand.
const OTHER: u8 = 165;

const MAX_ROOM: usize = 20000;

// How far from the start the room has a byte that is not 0.
fn held(room: &[u8]) -> usize
    ensures { result ≡ reach room.now (length room.now) }
{
    let mut last = 0;
    for i in 0..room.len() {
        if room[i] != 0 {
            last = i + 1;
        }
    }
    last
}

// The leaf: so many bytes of the room where one was written, else none.
fn say_leaf(out: &mut impl Write, number: u32, second: usize, room: &[u8]) -> io::Result<()> {
    if number != 0 {
        return exchange::say_nothing(out);
    }
    if second <= room.len() {
        exchange::say_bytes(out, &room[..second])?;
    }
    Ok(())
}

// What the room holds: the leaf, and how far from the start it has a byte that is not 0.
pub(crate) fn say_room(
    out: &mut impl Write,
    number: u32,
    second: usize,
    room: &[u8],
) -> io::Result<()> {
    say_leaf(out, number, second, room)?;
    exchange::say(out, held(room) as u64)
}

fn say_answer(out: &mut impl Write, answer: Answer, room: &[u8]) -> io::Result<()> {
    exchange::say(out, answer.number() as u64)?;
    exchange::say(out, answer.second() as u64)?;
    say_room(out, answer.number(), answer.second(), room)
}

fn write_into(
    out: &mut impl Write,
    docid: i64,
    texts: &[u8],
    ends: &[u32],
    room: &mut [u8],
) -> io::Result<()> {
    let answer = writer::write(docid, texts, ends, &mut room[0..]);
    say_answer(out, answer, room)
}

pub(crate) fn write(
    out: &mut impl Write,
    docid: i64,
    texts: &[u8],
    ends: &[u32],
    size: usize,
) -> io::Result<()> {
    let mut room = [OTHER; MAX_ROOM];
    if size <= MAX_ROOM {
        write_into(out, docid, texts, ends, &mut room[..size])?;
    }
    Ok(())
}
