// The compared cases of leaves and lookups.
use crate::exchange;
use lookup::{EntryAnswer, WordAnswer};
use std::io::{self, Write};

pub(crate) fn check(out: &mut impl Write, leaf: &[u8], columns: u32) -> io::Result<()> {
    let answer = leaf::check(leaf, columns);
    exchange::say(out, answer.number() as u64)?;
    exchange::say(out, answer.second() as u64)
}

fn say_start(out: &mut impl Write, answer: WordAnswer) -> io::Result<()> {
    match answer {
        WordAnswer::Found { start, .. } => exchange::say(out, start as u64),
        _ => exchange::say(out, 0),
    }
}

pub(crate) fn look_up(
    out: &mut impl Write,
    leaf: &[u8],
    columns: u32,
    word: &[u8],
) -> io::Result<()> {
    let mut number: u32 = 9;
    let mut second: u64 = 9;
    let mut read: u64 = 9;
    let part = lookup::lookup(leaf, columns, word, &mut number, &mut second, &mut read);
    exchange::say(out, number as u64)?;
    exchange::say(out, second)?;
    say_start(out, lookup::find_list(leaf, columns, word))?;
    exchange::say(out, read)?;
    exchange::say_bytes(out, part)
}

fn say_place(out: &mut impl Write, answer: EntryAnswer) -> io::Result<()> {
    match answer {
        EntryAnswer::Newer { start, .. } => {
            exchange::say(out, 0)?;
            exchange::say(out, start as u64)
        }
        EntryAnswer::Older { start, .. } => {
            exchange::say(out, 1)?;
            exchange::say(out, start as u64)
        }
        _ => {
            exchange::say(out, 0)?;
            exchange::say(out, 0)
        }
    }
}

pub(crate) fn decide<'a>(
    out: &mut impl Write,
    newer: &'a [u8],
    older: &'a [u8],
    columns: u32,
    word: &[u8],
    docid: i64,
) -> io::Result<()> {
    let mut number: u32 = 9;
    let mut second: u64 = 9;
    let part = lookup::deciding(newer, older, columns, word, docid, &mut number, &mut second);
    exchange::say(out, number as u64)?;
    exchange::say(out, second)?;
    say_place(out, lookup::find_entry(newer, older, columns, word, docid))?;
    exchange::say_bytes(out, part)
}
