// Reads a query (document 01, "The query language") from its bytes: the tree that they are, and the compiled query.
//
//     sqlite fantastic OR impressive      text
//     0      0 1          0 2             codes: (sqlite AND fantastic) OR impressive
//
// `or_level`, `and_level`, `not_level` and `operand_level` call each other, one for each level of binding. Each reads from a
// place of the text as much as its level allows, and answers where it stopped and what comes next there.
#![tactic(auto)]

mod postfix;

ghost use Rattle.std.specs.Prelude.{◌≡◌, ◌≤◌, length};
ghost use Rattle.offsets.specs.Cut.{cut};
ghost use Rattle.lexer.specs.Token.{kind_number, max_query};
ghost use Rattle.query.specs.Tree.{OR, AND, NOT};
ghost use Rattle.query.specs.Grammar.{near, level};
ghost use Rattle.query.specs.Levels.{right_at, Phrased, Chained, Mirrors};
ghost use Rattle.query.specs.Reading.{read_of, Compiles};

use lexer::Kind;

// A query of 16 words has at most 16 NEAR chains and 15 operators.
pub const MAX_CODES: usize = 31;

// Parentheses may stand eight deep.
pub const MAX_DEPTH: usize = 8;

// The codes of a compiled query: a NEAR chain, and the operators. They are numbers, not an enum: `evaluate::holds`
// (`otherwise`, `frame`), `evaluate::needs` (`reader`) and `engine::run` answer for every byte.
pub const CODE_CHAIN: u8 = 0;

pub const CODE_AND: u8 = 1;

pub const CODE_OR: u8 = 2;

pub const CODE_NOT: u8 = 3;

// The NEAR chains and operators of a query in postfix order, a code for each.
#[derive(Clone, Copy)]
pub struct Ops {
    pub codes: [u8; MAX_CODES],
    pub len: usize,
}

// A compiled query: its words in order, each with how it is tied to the one before, and its codes. A NEAR chain takes
// the words from one that begins an operand up to the next that does.
#[derive(Clone, Copy)]
pub struct Query {
    pub words: lexer::Words,
    pub ops: Ops,
}

// What was read from a place of the text on; its words and codes are in the query.
#[derive(Clone, Copy)]
struct Parse {
    // Where the rest begins, and what comes next there.
    at: usize,
    ahead: lexer::Ahead,
}

// Where the right side of an operator begins: after it, or, where an AND is not written, where an operand begins.
fn right_side(ahead: lexer::Ahead, at: usize, operator: Kind) -> Option<usize>
    ensures { result ≡ right_at (kind_number operator) ahead at }
{
    if ahead.kind == operator {
        return Some(ahead.next);
    }
    if operator != Kind::And {
        return None;
    }
    if ahead.kind == Kind::LeftParen || ahead.kind == Kind::Operand {
        return Some(at);
    }
    None
}

// Reads a word or phrase, whose first word is tied as told.
fn phrase(
    names: &[u8],
    name_ends: &[u32],
    s: &[u8],
    at: usize,
    tie: u8,
    distance: u16,
    query: &mut Query,
) -> Option<Parse>
    ensures { Phrased (cut names.now name_ends.now) s.now at tie distance query.old result query.new }
{
    let next = lexer::take_operand(names, name_ends, &mut query.words, s, at, tie, distance)?;
    let ahead = lexer::look(s, next);
    Some(Parse { at: next, ahead })
}

// Reads a NEAR chain: a word or phrase, and further ones after NEAR.
fn chain(names: &[u8], name_ends: &[u32], s: &[u8], at: usize, query: &mut Query) -> Option<Parse>
    ensures { Chained (cut names.now name_ends.now) s.now at query.old result query.new }
{
    let mut left = phrase(names, name_ends, s, at, lexer::BEGINS, 0, query)?;
    while left.ahead.kind == Kind::Near {
        let near = left.ahead;
        left = phrase(
            names,
            name_ends,
            s,
            near.next,
            near.tie,
            near.distance,
            query,
        )?;
    }
    query.ops.push(CODE_CHAIN);
    Some(left)
}

// OR, AND and NOT are read in one form; each has its function, as document 01 has these call each other in a cycle.

// Reads at the level of OR, the loosest, with parentheses at most `depth` deep.
#[cycle(and_level_not_level_operand_level_or_level)]
fn or_level(
    names: &[u8],
    name_ends: &[u32],
    s: &[u8],
    depth: usize,
    at: usize,
    query: &mut Query,
) -> Option<Parse>
    requires { (length s.now ≤ max_query) × (at ≤ length s.now) }
    ensures { Mirrors (cut names.now name_ends.now) s.now depth (level OR) at query.old result query.new }
{
    let mut left = and_level(names, name_ends, s, depth, at, query)?;
    while let Some(n) = right_side(left.ahead, left.at, Kind::Or) {
        left = and_level(names, name_ends, s, depth, n, query)?;
        query.ops.push(CODE_OR);
    }
    Some(left)
}

// Reads at the level of AND, written or not.
#[cycle(and_level_not_level_operand_level_or_level)]
fn and_level(
    names: &[u8],
    name_ends: &[u32],
    s: &[u8],
    depth: usize,
    at: usize,
    query: &mut Query,
) -> Option<Parse>
    requires { (length s.now ≤ max_query) × (at ≤ length s.now) }
    ensures { Mirrors (cut names.now name_ends.now) s.now depth (level AND) at query.old result query.new }
{
    let mut left = not_level(names, name_ends, s, depth, at, query)?;
    while let Some(n) = right_side(left.ahead, left.at, Kind::And) {
        left = not_level(names, name_ends, s, depth, n, query)?;
        query.ops.push(CODE_AND);
    }
    Some(left)
}

// Reads at the level of NOT.
#[cycle(and_level_not_level_operand_level_or_level)]
fn not_level(
    names: &[u8],
    name_ends: &[u32],
    s: &[u8],
    depth: usize,
    at: usize,
    query: &mut Query,
) -> Option<Parse>
    requires { (length s.now ≤ max_query) × (at ≤ length s.now) }
    ensures { Mirrors (cut names.now name_ends.now) s.now depth (level NOT) at query.old result query.new }
{
    let mut left = operand_level(names, name_ends, s, depth, at, query)?;
    while let Some(n) = right_side(left.ahead, left.at, Kind::Not) {
        left = operand_level(names, name_ends, s, depth, n, query)?;
        query.ops.push(CODE_NOT);
    }
    Some(left)
}

// Reads a NEAR chain, or a query in parentheses.
#[cycle(and_level_not_level_operand_level_or_level)]
fn operand_level(
    names: &[u8],
    name_ends: &[u32],
    s: &[u8],
    depth: usize,
    at: usize,
    query: &mut Query,
) -> Option<Parse>
    requires { (length s.now ≤ max_query) × (at ≤ length s.now) }
    ensures { Mirrors (cut names.now name_ends.now) s.now depth near at query.old result query.new }
{
    let ahead = lexer::look(s, at);
    if ahead.kind != Kind::LeftParen {
        return chain(names, name_ends, s, at, query);
    }
    if depth == 0 {
        return None;
    }
    let inner = or_level(names, name_ends, s, depth - 1, ahead.next, query)?;
    let close = inner.ahead;
    if close.kind != Kind::RightParen {
        return None;
    }
    let after = lexer::look(s, close.next);
    Some(Parse {
        at: close.next,
        ahead: after,
    })
}

// Reads a query, where the table's columns have the lent names; bytes that are no query are refused.
pub fn read(names: &[u8], ends: &[u32], text: &[u8]) -> Option<Query>
    ensures reader { result ≡ read_of (cut names.now ends.now) text.now }
    ensures meaning { Compiles (cut names.now ends.now) text.now result }
{
    if lexer::MAX_QUERY < text.len() {
        return None;
    }
    let mut query = Query {
        words: lexer::Words::none(),
        ops: Ops {
            codes: [0; MAX_CODES],
            len: 0,
        },
    };
    let parse = or_level(names, ends, text, MAX_DEPTH, 0, &mut query)?;
    let ahead = parse.ahead;
    if ahead.kind != Kind::End {
        return None;
    }
    if lexer::MAX_WORDS < query.words.count {
        return None;
    }
    Some(query)
}
