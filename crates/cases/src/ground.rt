// The compared cases of stored numbers, cutting, names and words.
use crate::exchange;
use std::io::{self, Write};
use tokenizer::Word;
use varint::{NoRoom, Varint};

fn say_pair(out: &mut impl Write, kind: u64, size: usize) -> io::Result<()> {
    exchange::say(out, kind)?;
    exchange::say(out, size as u64)
}

pub(crate) fn read_number(out: &mut impl Write, s: &[u8], at: usize) -> io::Result<()> {
    match varint::read(s, at) {
        Varint::Value { value, next } => {
            exchange::say(out, value)?;
            exchange::say(out, next as u64)
        }
        Varint::Refused => exchange::say_nothing(out),
    }
}

pub(crate) fn number_size(out: &mut impl Write, v: u64) -> io::Result<()> {
    exchange::say(out, varint::size(v) as u64)
}

fn say_written(out: &mut impl Write, answer: Result<usize, NoRoom>) -> io::Result<()> {
    match answer {
        Ok(size) => say_pair(out, 0, size),
        Err(NoRoom { need }) => say_pair(out, 1, need),
    }
}

pub(crate) fn write_number(out: &mut impl Write, room: &mut [u8], v: u64) -> io::Result<()> {
    say_written(out, varint::write(&mut room[0..], v))?;
    exchange::say_bytes(out, room)
}

fn say_flag(out: &mut impl Write, yes: bool) -> io::Result<()> {
    exchange::say(out, u64::from(yes))
}

pub(crate) fn part(out: &mut impl Write, s: &[u8], ends: &[u32], i: usize) -> io::Result<()> {
    if offsets::is_cut(s, ends) {
        exchange::say(out, 1)?;
        exchange::say_bytes(out, offsets::part(s, ends, i))
    } else {
        exchange::say(out, 0)
    }
}

fn say_column(out: &mut impl Write, s: &[u8], ends: &[u32], name: &[u8]) -> io::Result<()> {
    match offsets::column_of(s, ends, name) {
        Some(i) => exchange::say(out, i as u64),
        None => exchange::say_nothing(out),
    }
}

pub(crate) fn names(out: &mut impl Write, s: &[u8], ends: &[u32], name: &[u8]) -> io::Result<()> {
    say_flag(out, offsets::are_names(s, ends))?;
    if offsets::is_cut(s, ends) {
        say_column(out, s, ends, name)?;
    }
    Ok(())
}

fn say_folded(out: &mut impl Write, s: &[u8]) -> io::Result<()> {
    for b in s {
        exchange::say_byte(out, tokenizer::folded(*b))?;
    }
    exchange::say_nothing(out)
}

fn say_place(out: &mut impl Write, kind: u64, start: usize, end: usize) -> io::Result<()> {
    exchange::say(out, kind)?;
    exchange::say(out, start as u64)?;
    exchange::say(out, end as u64)
}

fn say_word(out: &mut impl Write, s: &[u8], at: usize) -> io::Result<()> {
    match tokenizer::next_word(s, at) {
        Word::Found { start, end } => say_place(out, 0, start, end),
        Word::Overlong { start, end } => say_place(out, 1, start, end),
        Word::Nothing => exchange::say_nothing(out),
    }
}

pub(crate) fn word(out: &mut impl Write, text: &[u8], at: usize) -> io::Result<()> {
    say_word(out, text, at)?;
    say_folded(out, text)
}
