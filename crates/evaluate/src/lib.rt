// Whether a compiled query holds in one row: its codes in postfix order, with a stack of bits.
#![tactic(auto)]

ghost use Rattle.std.specs.Prelude.{◌≡◌, ◌≤◌};
ghost use Rattle.lexer.specs.Token.{max_words};
ghost use Rattle.chain.specs.Chains.{NotEvaluated, RoomsKept};
ghost use Rattle.evaluate.specs.Evaluate.{DecidesQuery, QueryLengths, Runs, push_bit, combined, applied, top_of};
ghost use Rattle.evaluate.specs.Needs.{conjunctive, first_words, needs_of, Needed};

use chain::Words;
use query::{CODE_AND, CODE_CHAIN, CODE_OR};
use row::Row;

// The answer where the arrays are too short.
const TOO_SHORT: bool = false;

// The stack keeps 31 bits when one more is pushed; 16 chains never need more than 16.
const KEPT: u32 = 0x8000_0000;

// The stack with one more answer on it.
fn push(stack: u32, answer: bool) -> u32
    ensures { result ≡ push_bit stack answer }
{
    stack % KEPT * 2 + u32::from(answer)
}

// The answer on the top of the stack.
fn top(stack: u32) -> bool
    ensures { result ≡ top_of stack }
{
    stack % 2 == 1
}

// What an operator makes of its left and its right side. A code that is none of a compiled query is taken as NOT.
fn combine(code: u8, left: bool, right: bool) -> bool
    ensures { result ≡ combined code left right }
{
    match code {
        CODE_AND => left && right,
        CODE_OR => left || right,
        _ => left && !right,
    }
}

// The stack after an operator: its two sides are taken from it, and its answer is put on it.
fn apply(stack: u32, code: u8) -> u32
    ensures { result ≡ applied stack code }
{
    push(stack / 4, combine(code, top(stack / 2), top(stack)))
}

// Whether the query holds, where the arrays have no more elements than the query has words and codes and the row has hits.
fn run(words: &Words, codes: &[u8], row: &Row, marks: &mut [u64], spare: &mut [u64]) -> bool
    ensures content { Runs words.now.ties.now words.now.distances.now words.now.columns.now codes.now row.now.leaves.now row.now.starts.now row.now.masks.now marks.old spare.old result }
    ensures frame { RoomsKept marks.old marks.new spare.old spare.new }
{
    let mut stack: u32 = 0;
    let mut word: usize = 0;
    for code in codes {
        if *code == CODE_CHAIN {
            let answer = chain::holds(words, word, row, marks, spare);
            stack = push(stack, answer);
            word = chain::chain_end(words.ties, word);
            continue;
        }
        stack = apply(stack, *code);
    }
    top(stack)
}

// Whether a query holds in a row. The query is given by its first `count` words and its first `len` codes, in postfix order; the
// row by its first `hits` hits. `marks` and `spare` are room to work in, of `chain::MARK_WORDS` words each. The numbers stand
// beside the arrays, since arrays that are too short for them have an answer too (`otherwise`).
pub fn holds(
    words: &Words,
    count: usize,
    codes: &[u8],
    len: usize,
    row: &Row,
    hits: usize,
    marks: &mut [u64],
    spare: &mut [u64],
) -> bool
    ensures content { DecidesQuery words.now.ties.now words.now.distances.now words.now.columns.now count codes.now len row.now.leaves.now row.now.starts.now row.now.masks.now hits marks.old spare.old result }
    ensures otherwise { (QueryLengths words.now.ties.now words.now.distances.now words.now.columns.now count codes.now len row.now.starts.now row.now.masks.now hits marks.old spare.old → ⊥) → NotEvaluated marks.old marks.new spare.old spare.new result }
    ensures frame { RoomsKept marks.old marks.new spare.old spare.new }
{
    if words.ties.len() < count {
        return TOO_SHORT;
    }
    if words.distances.len() < count {
        return TOO_SHORT;
    }
    if words.columns.len() < count {
        return TOO_SHORT;
    }
    if codes.len() < len {
        return TOO_SHORT;
    }
    if row.starts.len() < hits {
        return TOO_SHORT;
    }
    if row.masks.len() < hits {
        return TOO_SHORT;
    }
    if marks.len() < chain::MARK_WORDS {
        return TOO_SHORT;
    }
    if spare.len() < chain::MARK_WORDS {
        return TOO_SHORT;
    }
    let query = Words {
        ties: &words.ties[..count],
        distances: &words.distances[..count],
        columns: &words.columns[..count],
    };
    let part = Row {
        leaves: row.leaves,
        starts: &row.starts[..hits],
        masks: &row.masks[..hits],
    };
    run(&query, &codes[..len], &part, marks, spare)
}

// Whether the codes are those of chains and AND alone.
fn is_conjunction(codes: &[u8]) -> bool
    ensures { result ≡ conjunctive codes.now }
{
    codes.iter().all(|code| *code <= CODE_AND)
}

// The set of the first `count` words, bit i for word number i.
fn first_words(count: usize) -> u16
    requires { count ≤ max_words }
    ensures { result ≡ first_words count }
{
    ((1u32 << count) - 1) as u16
}

// The set of words that every row which satisfies the query has: all of its `count` words where its `len` codes have no OR
// and no NOT, else none.
pub fn needs(codes: &[u8], len: usize, count: usize) -> u16
    ensures reader { result ≡ needs_of codes.now len count }
    ensures content { Needed codes.now len count result }
{
    if codes.len() < len {
        return 0;
    }
    if lexer::MAX_WORDS < count {
        return 0;
    }
    if !is_conjunction(&codes[..len]) {
        return 0;
    }
    first_words(count)
}
