// The compared cases: each is read from standard input, and what the functions of a layer answer is written as one line.
// A case is the number of what it asks for, two numbers, two fields with their ends, for a search, a verdict and a merge levels and indexes, and a
// short field; those that it does not need are 0 or empty. A verdict has two more queries and three sizes after them. tests/make_cases.py makes the cases and, with the second program, the lines that are expected.
#![tactic(auto)]

mod documents;
mod exchange;
mod ground;
mod leaves;
mod merges;
mod queries;
mod searches;
mod verdicts;

use exchange::Lent;
use std::io::{self, BufReader, BufWriter, Read, Write};

// What a case asks for, as in tests/case_writer.py; 0 ends the input.
const READ: u64 = 1;

const SIZE: u64 = 2;

const WRITE: u64 = 3;

const CUT: u64 = 4;

const NAMES: u64 = 5;

const WORD: u64 = 6;

const CHECK: u64 = 7;

const LOOKUP: u64 = 8;

const DECIDING: u64 = 9;

const QUERY: u64 = 10;

const DOCUMENT: u64 = 11;

const SEARCH: u64 = 12;

const VERDICT: u64 = 13;

const MERGE: u64 = 14;

const MERGE_KEEPING: u64 = 15;

const MAX_CASES: usize = 1000000;

// A little more than the leaves may have.
const MAX_FIELD: usize = 65600;

const MAX_ENDS: usize = 32;

const MAX_SHORT: usize = 1024;

// What a case hands over before its last fields.
#[derive(Clone, Copy)]
struct Case<'a> {
    kind: u64,
    n: u64,
    m: u64,
    first: &'a [u8],
    first_ends: &'a [u32],
    second: &'a [u8],
    second_ends: &'a [u32],
}

// A kind stays a number: every number is a kind that is read, whether it asks for anything or not.
fn answer(out: &mut impl Write, case: Case<'_>, short: &[u8]) -> io::Result<()> {
    match case.kind {
        READ => ground::read_number(out, short, case.n as usize),
        SIZE => ground::number_size(out, case.n),
        CUT => ground::part(out, case.first, case.first_ends, case.n as usize),
        NAMES => ground::names(out, case.first, case.first_ends, short),
        WORD => ground::word(out, short, case.n as usize),
        CHECK => leaves::check(out, case.first, exchange::low_half(case.n)),
        LOOKUP => leaves::look_up(out, case.first, exchange::low_half(case.n), short),
        DECIDING => leaves::decide(
            out,
            case.first,
            case.second,
            exchange::low_half(case.n),
            short,
            case.m.cast_signed(),
        ),
        QUERY => queries::read(out, case.first, case.first_ends, short),
        DOCUMENT => documents::write(
            out,
            case.m.cast_signed(),
            case.first,
            case.first_ends,
            case.n as usize,
        ),
        _ => Ok(()),
    }
}

// A case of WRITE has its room as the short field.
fn with_short(input: &mut impl Read, out: &mut impl Write, case: Case<'_>) -> io::Result<()> {
    let mut short = [0u8; MAX_SHORT];
    let size = exchange::field(input, &mut short)?;
    if case.kind == WRITE {
        ground::write_number(out, &mut short[..size], case.n)
    } else {
        answer(out, case, &short[..size])
    }
}

// A case of SEARCH, VERDICT, MERGE or MERGE_KEEPING has levels and indexes before the short field.
fn with_pairs(input: &mut impl Read, out: &mut impl Write, case: Case<'_>) -> io::Result<()> {
    let mut levels = [0u32; MAX_ENDS];
    let level_count = exchange::ends(input, &mut levels)?;
    let mut indexes = [0u32; MAX_ENDS];
    let index_count = exchange::ends(input, &mut indexes)?;
    let mut short = [0u8; MAX_SHORT];
    let size = exchange::field(input, &mut short)?;
    let lent = Lent {
        leaves: case.second,
        ends: case.second_ends,
        levels: &levels[..level_count],
        indexes: &indexes[..index_count],
    };
    match case.kind {
        SEARCH => searches::search(
            out,
            case.first,
            case.first_ends,
            lent,
            &short[..size],
            case.n as usize,
        ),
        VERDICT => verdicts::verdict(
            input,
            out,
            case.n.cast_signed(),
            case.m.cast_signed(),
            case.first,
            case.first_ends,
            lent,
            &short[..size],
        ),
        _ => merges::merge(
            out,
            case.kind == MERGE_KEEPING,
            exchange::low_half(case.n),
            lent,
            case.m as usize,
        ),
    }
}

// Answers one case; whether there was one.
fn one_case(input: &mut impl Read, out: &mut impl Write) -> io::Result<bool> {
    // All that is large stands first: what a function begins with is cleared once, and else as it begins and again where it stands.
    let mut first = [0u8; MAX_FIELD];
    let mut first_ends = [0u32; MAX_ENDS];
    let mut second = [0u8; MAX_FIELD];
    let mut second_ends = [0u32; MAX_ENDS];
    let kind = exchange::number(input)?;
    if kind == 0 {
        return Ok(false);
    }
    let n = exchange::number(input)?;
    let m = exchange::number(input)?;
    let first_size = exchange::field(input, &mut first)?;
    let first_count = exchange::ends(input, &mut first_ends)?;
    let second_size = exchange::field(input, &mut second)?;
    let second_count = exchange::ends(input, &mut second_ends)?;
    let case = Case {
        kind,
        n,
        m,
        first: &first[..first_size],
        first_ends: &first_ends[..first_count],
        second: &second[..second_size],
        second_ends: &second_ends[..second_count],
    };
    if SEARCH <= kind {
        with_pairs(input, out, case)?;
    } else {
        with_short(input, out, case)?;
    }
    exchange::end_line(out)?;
    Ok(true)
}

fn main(rt: HostRuntime) -> io::Result<()> {
    let mut input = BufReader::new(rt.alloc(), rt.reader())?;
    let mut out = BufWriter::new(rt.alloc(), io::writer(&rt))?;
    for _ in 0..MAX_CASES {
        if !one_case(&mut input, &mut out)? {
            break;
        }
    }
    out.flush()
}
