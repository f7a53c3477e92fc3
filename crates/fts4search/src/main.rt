// One search (document 01, "Marked examples", last paragraph): the query comes from standard input, the one leaf from the
// file leaf0.bin, the columns are those of P12. It writes `docs` with the count and then each docid on a line of its own;
// or `refused` with the two numbers; or `no leaf`.
#![tactic(auto)]

ghost use Rattle.std.specs.Prelude.{◌≤◌, length, IfOk};

use search::Answer;
use std::fs;
use std::io::{self, Read};
use std::rt::Files;

const MAX_QUERY: usize = 512;

// A buffer has one byte more than may be read, so that too much is noticed.
const QUERY_BUFFER: usize = 513;

const MAX_LEAF: usize = 65536;

const LEAF_BUFFER: usize = 65537;

// How many docids the result room holds.
const ROOM: usize = 4096;

// Reads until the buffer is full or the input ends: how many bytes. An input cut short by a failure is never taken as a whole one.
fn read_full(from: &mut impl Read, buf: &mut [u8]) -> io::Result<usize>
    ensures { IfOk result (λ n. n ≤ length buf.old) }
{
    let mut n = 0;
    // Each read says how far it came: no loop over places.
    while n < buf.len() {
        let more = from.read(&mut buf[n..])?;
        if more == 0 {
            break;
        }
        n += more;
    }
    Ok(n)
}

// Reads the leaf's file.
fn read_leaf(rt: &impl Files, buf: &mut [u8]) -> io::Result<usize>
    ensures { IfOk result (λ n. n ≤ length buf.old) }
{
    read_full(&mut fs::open(rt, "leaf0.bin")?, buf)
}

fn refused(rt: &impl Print, answer: Answer) -> io::Result<()> {
    println!(rt; "refused {} {}", answer.number(), answer.second())
}

// The count, and the docids at the front of the room, each on a line.
fn found(rt: &impl Print, room: &[i64], n: usize) -> io::Result<()> {
    println!(rt; "docs {n}")?;
    for docid in room.iter().take(n) {
        println!(rt; "{docid}")?;
    }
    Ok(())
}

fn answer(rt: &impl Print, leaf: &[u8], size: u32, query: &[u8]) -> io::Result<()> {
    let name_ends = [4u32, 8, 15];
    let leaf_ends = [size];
    // One leaf alone: its level and index decide nothing.
    let levels = [0u32];
    let indexes = [0u32];
    let mut room = [0i64; ROOM];
    let answer = search::search(
        b"nodesentoutcome",
        &name_ends,
        leaf,
        &leaf_ends,
        &levels,
        &indexes,
        query,
        &mut room,
    );
    match answer {
        Answer::Found(n) => found(rt, &room, n),
        _ => refused(rt, answer),
    }
}

// The leaf's size comes first, then the query's.
fn answer_sized(rt: &impl Print, leaf: &[u8], query: &[u8]) -> io::Result<()> {
    let size = leaf.len();
    if MAX_LEAF < size {
        return refused(rt, Answer::Shape);
    }
    if MAX_QUERY < query.len() {
        return refused(rt, Answer::Query);
    }
    answer(rt, leaf, size as u32, query)
}

fn main(rt: HostRuntime) -> io::Result<()> {
    let mut query = [0u8; QUERY_BUFFER];
    // A query that couldn't be read is an empty one, which is refused as such.
    let asked = read_full(&mut rt.reader(), &mut query).unwrap_or(0);
    let mut leaf = [0u8; LEAF_BUFFER];
    let Ok(stored) = read_leaf(&rt, &mut leaf) else {
        return println!(rt; "no leaf");
    };
    answer_sized(&rt, &leaf[..stored], &query[..asked])
}
