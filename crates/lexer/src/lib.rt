// The tokens of a query (document 01, "The query language"), each read where it stands in the query's bytes:
//
//     bytes      up AND "Next HOP*" NEAR/3 node:x
//     kinds      Operand, And, Operand, Near, Operand, and End after them
//
// `look` says what comes next without taking it; `take_operand` reads a word or phrase and puts its words after those that
// are there (module arrays).
#![tactic(auto)]

mod arrays;

ghost use Rattle.std.specs.Prelude.{◌≡◌, ℕ, Bool, true, ◌+◌, ◌≤◌, ◌<◌, ◌^◌, length, drop, ltb};
ghost use Rattle.common.specs.Bytes.{span};
ghost use Rattle.common.specs.Bounds.{max_columns};
ghost use Rattle.tokenizer.specs.Word.{is_digit, places};
ghost use Rattle.offsets.specs.Cut.{cut};
ghost use Rattle.lexer.specs.Token.{only_column, packed};
ghost use Rattle.lexer.specs.Tokens.{is_space, is_run_byte, each, decimal};
ghost use Rattle.lexer.specs.Lexing.{is_stem, is_near_written, column_run_token, operator_of, run_next, quote_next, next_token};
ghost use Rattle.lexer.specs.Looking.{after_space, plain_sign, sign_of, ahead, look_at, LooksAt, operand_in, Takes, TakesAt};

// A query has at most 512 bytes.
pub const MAX_QUERY: usize = 512;

// A query has at most 16 words in all.
pub const MAX_WORDS: usize = 16;

// The kinds of tokens: parentheses, operators, and words or phrases; `End` where the query ends.
#[derive(Clone, Copy, PartialEq, Eq)]
pub enum Kind {
    LeftParen,
    RightParen,
    And,
    Or,
    Not,
    Near,
    Operand,
    End,
}

// How a word is tied to the one before: it begins an operand of AND, OR or NOT, is the next word of its phrase, or
// begins the phrase after a NEAR without or with a number. Numbers and no enum: they lie in arrays that are lent, and
// `chain::holds` answers for every number there.
pub const BEGINS: u8 = 0;

pub const CONTINUES: u8 = 1;

pub const NEARS: u8 = 2;

pub const NEARS_WITHIN: u8 = 3;

// The set of all columns.
pub const ANY_COLUMN: u16 = 65535;

// Bytes 9 to 13 are white space, as space is.
const TAB: u8 = 9;

const CARRIAGE_RETURN: u8 = 13;

// `NEAR/` has 5 bytes, and 1 to 4 digits stand after it.
const NEAR_SLASH: usize = 5;

const MIN_NEAR: usize = 6;

const MAX_NEAR: usize = 9;

// The words of a query, in order.
#[derive(Clone, Copy)]
pub struct Words {
    // Their bytes, folded, one word after the other.
    pub text: [u8; MAX_QUERY],
    // Where each word's bytes end in `text`.
    pub ends: [u16; MAX_WORDS],
    // 1 for a word with a `*` after it.
    pub marks: [u8; MAX_WORDS],
    // The set of columns that each word's phrase may stand in, a bit for each column.
    pub columns: [u16; MAX_WORDS],
    // How each word is tied to the one before.
    pub ties: [u8; MAX_WORDS],
    // The distance that is written at NEAR.
    pub distances: [u16; MAX_WORDS],
    pub count: usize,
}

// What comes next in a query.
#[derive(Clone, Copy)]
pub struct Ahead {
    pub kind: Kind,
    // What ties an operand that comes after it.
    pub tie: u8,
    pub distance: u16,
    // Where it ends, unless it is an operand.
    pub next: usize,
}

// A token's kind, and what it ties an operand after it by.
#[derive(Drop)]
struct Sign {
    kind: Kind,
    tie: u8,
    distance: u16,
}

#[tactic(auto, unfolding(crate::specs::Tokens::is_space))]
fn is_space(b: u8) -> bool
    ensures { result ≡ is_space b }
{
    matches!(b, b' ' | TAB..=CARRIAGE_RETURN)
}

#[tactic(auto, unfolding(crate::specs::Tokens::is_run_byte))]
fn is_run_byte(b: u8) -> bool
    ensures { result ≡ is_run_byte b }
{
    !is_space(b) && b != b'(' && b != b')' && b != b'"'
}

// How many of the first bytes pass a test. A twin of the tokenizer's `skip`: in this repository an open function asks nothing
// of its callers, and one that takes a closure must ask that it can be called.
fn stretch<F: Fn(u8) -> bool>(s: &[u8], test: F) -> usize
    requires { F.IsAlwaysCallable test }
    ensures { (p : ℕ → Bool) → ((b : ℕ) (r : Bool) → b < 256 → F.post test b r → r ≡ p b) → result ≡ span p s.now }
{
    for i in 0..s.len() {
        if !test(s[i]) {
            return i;
        }
    }
    s.len()
}

// Whether bytes are a word with an optional `*` after it.
#[tactic(auto, unfolding(crate::specs::Lexing::is_stem))]
fn is_stem(s: &[u8]) -> bool
    ensures { result ≡ is_stem s.now }
{
    let n = stretch(s, tokenizer::is_word);
    0 < n && (s.len() == n || s.len() == n + 1 && s[n] == b'*')
}

// Whether a run is `NEAR/` with one to four digits.
#[tactic(auto, unfolding(crate::specs::Lexing::is_near_written))]
fn is_near_written(s: &[u8]) -> bool
    ensures { result ≡ is_near_written s.now }
{
    MIN_NEAR <= s.len()
        && s.len() <= MAX_NEAR
        && common::is_same(&s[..NEAR_SLASH], b"NEAR/")
        && stretch(&s[NEAR_SLASH..], tokenizer::is_digit) == s.len() - NEAR_SLASH
}

// The number that digits write, of which there are at most four.
fn decimal_of(s: &[u8]) -> u16
    requires { (length s.now ≤ 4) × (each is_digit s.now ≡ true) }
    ensures { result ≡ decimal s.now }
{
    let mut n: u16 = 0;
    for d in s {
        n = n * 10 + (*d - b'0') as u16;
    }
    n
}

// The set of one column.
fn only_column(c: usize) -> u16
    requires { c < max_columns }
    ensures { result ≡ only_column c }
{
    1u16 << c
}

// Whether there is a word.
fn has_word(s: &[u8]) -> bool
    ensures { result ≡ ltb 0 (length (places s.now)) }
{
    let next = tokenizer::next_word(s, 0);
    match next {
        tokenizer::Word::Found { start: _, end: _ } => true,
        tokenizer::Word::Overlong { start: _, end: _ } => true,
        tokenizer::Word::Nothing => false,
    }
}

// A kind whose tokens tie nothing.
fn plain(kind: Kind) -> Sign
    ensures { result ≡ plain_sign kind }
{
    Sign {
        kind,
        tie: BEGINS,
        distance: 0,
    }
}

// The operator that a run is; any other run is an operand or nothing.
fn operator_of(s: &[u8]) -> Sign
    ensures { result ≡ sign_of (operator_of s.now) }
{
    if common::is_same(s, b"AND") {
        return plain(Kind::And);
    }
    if common::is_same(s, b"OR") {
        return plain(Kind::Or);
    }
    if common::is_same(s, b"NOT") {
        return plain(Kind::Not);
    }
    if common::is_same(s, b"NEAR") {
        return Sign {
            kind: Kind::Near,
            tie: NEARS,
            distance: 0,
        };
    }
    if is_near_written(s) {
        let d = decimal_of(&s[NEAR_SLASH..]);
        return Sign {
            kind: Kind::Near,
            tie: NEARS_WITHIN,
            distance: d,
        };
    }
    plain(Kind::Operand)
}

// What comes next, and where it ends.
fn with_end(sign: Sign, next: usize) -> Ahead
    ensures { result ≡ ahead sign next }
{
    Ahead {
        kind: sign.kind,
        tie: sign.tie,
        distance: sign.distance,
        next,
    }
}

// The first place from `at` on that has no white space.
fn skip(s: &[u8], at: usize) -> usize
    ensures { result ≡ after_space s.now at }
{
    if s.len() <= at {
        return at;
    }
    at + stretch(&s[at..], is_space)
}

// What comes next in a query from the place `at` on. Of an operand only that it is one: `take_operand` reads it.
pub fn look(s: &[u8], at: usize) -> Ahead
    ensures reader { result ≡ look_at s.now at }
    ensures meaning { LooksAt s.now at result }
{
    let from = skip(s, at);
    if s.len() <= from {
        return with_end(plain(Kind::End), from);
    }
    let b = s[from];
    if b == b'(' {
        return with_end(plain(Kind::LeftParen), from + 1);
    }
    if b == b')' {
        return with_end(plain(Kind::RightParen), from + 1);
    }
    if b == b'"' {
        return with_end(plain(Kind::Operand), from + 1);
    }
    let rest = &s[from..];
    let n = stretch(rest, is_run_byte);
    with_end(operator_of(&rest[..n]), from + n)
}

// Reads a quoted phrase, whose opening quote stands at the place `from`; `s` is what comes after that.
fn quoted(words: &mut Words, s: &[u8], from: usize, tie: u8, distance: u16) -> Option<usize>
    requires { from + length s.now < 2 ^ 63 }
    ensures { Takes words.old from tie distance (operand_in (quote_next s.now)) result words.new }
{
    let close = stretch(s, |b| b != b'"');
    if s.len() <= close {
        return None;
    }
    let inner = &s[..close];
    if !has_word(inner) {
        return None;
    }
    words.push_phrase(inner, ANY_COLUMN, tie, distance);
    Some(from + (close + 2))
}

// Reads a run that is a word with a column's name and `:` in front.
fn in_column(
    names: &[u8],
    name_ends: &[u32],
    words: &mut Words,
    s: &[u8],
    from: usize,
    tie: u8,
    distance: u16,
) -> Option<usize>
    requires { from + length s.now < 2 ^ 63 }
    ensures { Takes words.old from tie distance (operand_in (column_run_token (cut names.now name_ends.now) s.now)) result words.new }
{
    let n = stretch(s, offsets::is_name_byte);
    if n == 0 {
        return None;
    }
    if s.len() <= n {
        return None;
    }
    if s[n] != b':' {
        return None;
    }
    let word = &s[n + 1..];
    if !is_stem(word) {
        return None;
    }
    let c = offsets::column_of(names, name_ends, &s[..n])?;
    if common::MAX_COLUMNS <= c {
        return None;
    }
    words.push_phrase(word, only_column(c), tie, distance);
    Some(from + s.len())
}

// Reads a run, which stands at the place `from`.
fn in_run(
    names: &[u8],
    name_ends: &[u32],
    words: &mut Words,
    s: &[u8],
    from: usize,
    tie: u8,
    distance: u16,
) -> Option<usize>
    requires { from + length s.now < 2 ^ 63 }
    ensures { Takes words.old from tie distance (operand_in (run_next (cut names.now name_ends.now) s.now)) result words.new }
{
    let o = operator_of(s);
    if o.kind != Kind::Operand {
        return None;
    }
    if is_stem(s) {
        words.push_phrase(s, ANY_COLUMN, tie, distance);
        return Some(from + s.len());
    }
    in_column(names, name_ends, words, s, from, tie, distance)
}

// Reads the word or phrase that comes next in a query from the place `at` on, where the table's column names are `names`
// cut by `name_ends`, and answers where it ends. Its words are put after those that are there; the first is tied as told.
pub fn take_operand(
    names: &[u8],
    name_ends: &[u32],
    words: &mut Words,
    s: &[u8],
    at: usize,
    tie: u8,
    distance: u16,
) -> Option<usize>
    ensures reader { Takes words.old (after_space s.now at) tie distance (operand_in (next_token (cut names.now name_ends.now) (drop (after_space s.now at) s.now))) result words.new }
    ensures meaning { TakesAt (cut names.now name_ends.now) s.now at words.old tie distance result words.new }
{
    let from = skip(s, at);
    if s.len() <= from {
        return None;
    }
    let b = s[from];
    if b == b'(' {
        return None;
    }
    if b == b')' {
        return None;
    }
    if b == b'"' {
        return quoted(words, &s[from + 1..], from, tie, distance);
    }
    let rest = &s[from..];
    let n = stretch(rest, is_run_byte);
    in_run(names, name_ends, words, &rest[..n], from, tie, distance)
}
