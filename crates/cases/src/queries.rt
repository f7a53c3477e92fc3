// The compared cases of the query language: a query's words, their ties and its operators in postfix order, or its refusal.
use crate::exchange;
use lexer::Words;
use query::{Ops, Query};
use std::io::{self, Write};

const REFUSED: u64 = 2;

// The bytes of a text from one place to another, if they lie in it.
fn say_part(out: &mut impl Write, text: &[u8], from: usize, to: usize) -> io::Result<()> {
    if text.len() < to {
        return Ok(());
    }
    if to < from {
        return Ok(());
    }
    exchange::say_bytes(out, &text[from..to])
}

fn say_word(out: &mut impl Write, words: Words, i: usize, from: usize) -> io::Result<usize> {
    if lexer::MAX_WORDS <= i {
        return Ok(0);
    }
    let to = words.ends[i] as usize;
    exchange::say(out, words.ties[i] as u64)?;
    exchange::say(out, words.distances[i] as u64)?;
    exchange::say(out, words.columns[i] as u64)?;
    exchange::say(out, words.marks[i] as u64)?;
    let text = words.text;
    say_part(out, &text, from, to)?;
    Ok(to)
}

fn say_words(out: &mut impl Write, words: Words) -> io::Result<()> {
    let n = words.count;
    exchange::say(out, n as u64)?;
    let mut from = 0;
    for i in 0..n {
        from = say_word(out, words, i, from)?;
    }
    Ok(())
}

fn say_ops(out: &mut impl Write, ops: Ops) -> io::Result<()> {
    let n = ops.len;
    exchange::say(out, n as u64)?;
    for code in ops.codes.iter().take(n) {
        exchange::say(out, *code as u64)?;
    }
    Ok(())
}

fn say_query(out: &mut impl Write, q: Query) -> io::Result<()> {
    exchange::say(out, 0)?;
    let words = q.words;
    say_words(out, words)?;
    let ops = q.ops;
    say_ops(out, ops)
}

pub(crate) fn read(
    out: &mut impl Write,
    names: &[u8],
    ends: &[u32],
    text: &[u8],
) -> io::Result<()> {
    match query::read(names, ends, text) {
        Some(q) => say_query(out, q),
        None => exchange::say(out, REFUSED),
    }
}
