// The leaf for one document, of document 01. The document's words are sorted (rows), and the leaf is written from them
// word by word (terms), each in the room that is still free. No buffer is lent: the texts are folded once into a local
// array, and a second one holds a row for each word.
#![tactic(auto)]

mod rows;
mod terms;

ghost use Rattle.std.specs.Prelude.{◌≡◌, ◌↔◌, length, replicate};
ghost use Rattle.tokenizer.specs.Word.{words_of};
ghost use Rattle.offsets.specs.Cut.{cut};
ghost use Rattle.document.specs.Document.{document_leaf};
ghost use Rattle.writer.specs.Answers.{numbers_of, is_document, has_overlong, first_overlong, Writing, fitted_answer, WriteIs, answer_of, held, room_of};

use crate::rows::Rows;
use tokenizer::Word;

// A document has at most 4,096 bytes over all columns; a word takes at least one, so there are no more words.
pub const MAX_DOCUMENT: usize = 4096;

// What the writer answers. An own enum: the numbers of the answers are said of its cases (document 01).
#[derive(Clone, Copy)]
pub enum Answer {
    // The leaf stands in the room: how many bytes it took.
    Written(usize),
    // The ends, the number of columns or the size of the texts is wrong.
    Shape,
    // A word is over 64 bytes: the first column that has one.
    Overlong(usize),
    // The room is too small: how many bytes are needed.
    Room(usize),
}

impl Answer {
    // Its number: 0, 1, 4 or 5.
    pub fn number(self) -> u32
        ensures { result ≡ (numbers_of self).number }
    {
        match self {
            Answer::Written(_) => 0,
            Answer::Shape => 1,
            Answer::Room(_) => 4,
            Answer::Overlong(_) => 5,
        }
    }

    // The number beside it.
    pub fn second(self) -> usize
        ensures { result ≡ (numbers_of self).second }
    {
        match self {
            Answer::Shape => 0,
            Answer::Written(n) | Answer::Overlong(n) | Answer::Room(n) => n,
        }
    }
}

// Whether number 1 is not due.
fn is_document(texts: &[u8], ends: &[u32]) -> bool
    ensures { result ≡ is_document texts.now ends.now }
{
    0 < ends.len()
        && ends.len() <= common::MAX_COLUMNS
        && texts.len() <= MAX_DOCUMENT
        && offsets::is_cut(texts, ends)
}

// Whether a text has a word over 64 bytes.
fn has_overlong(text: &[u8]) -> bool
    ensures { result ≡ has_overlong (words_of text.now) }
{
    let mut at: usize = 0;
    // `at` goes on word by word, and no `for` goes so.
    while at < text.len() {
        match tokenizer::next_word(text, at) {
            Word::Found { start: _, end } => {
                at = end;
            }
            Word::Overlong { start: _, end: _ } => {
                return true;
            }
            Word::Nothing => {
                return false;
            }
        }
    }
    false
}

// The first column that has a word over 64 bytes; the number of columns where none has.
fn first_overlong(texts: &[u8], ends: &[u32]) -> usize
    ensures { result ≡ first_overlong (cut texts.now ends.now) }
{
    for i in 0..ends.len() {
        if has_overlong(offsets::part(texts, ends, i)) {
            return i;
        }
    }
    ends.len()
}

// Writes the leaf of a document into a room of zeros; the docid comes as its key.
fn write_leaf(docid: u64, texts: &[u8], ends: &[u32], room: &mut [u8]) -> Answer
    requires { Writing texts.now ends.now × (room.old ≡ replicate (length room.old) 0) }
    ensures value { result ≡ fitted_answer (length (document_leaf docid (cut texts.now ends.now))) (length room.old) }
    ensures room_after { room.new ≡ held (length room.old) (document_leaf docid (cut texts.now ends.now)) result }
{
    let mut folded = [0u8; MAX_DOCUMENT];
    let mut rows = Rows::none();
    rows::fold_all(texts, &mut folded);
    rows.gather(texts, ends, &folded);
    let need = terms::terms_size(&folded, rows.as_slice(), docid);
    if room.len() < need {
        return Answer::Room(need);
    }
    terms::put_terms(room, &folded, rows.as_slice(), docid);
    Answer::Written(need)
}

// Writes the leaf for one document: a docid, and the texts of its columns cut by their ends. The room then holds the leaf
// and zeros after it; after a refusal it holds zeros alone.
pub fn write(docid: i64, texts: &[u8], ends: &[u32], room: &mut [u8]) -> Answer
    ensures answer { result ≡ answer_of docid texts.now ends.now (length room.old) }
    ensures holds { room.new ≡ room_of docid texts.now ends.now (length room.old) }
    ensures exact { (a : Answer) → (result ≡ a) ↔ WriteIs docid texts.now ends.now (length room.old) a }
{
    storing::clear(room);
    if !is_document(texts, ends) {
        return Answer::Shape;
    }
    let overlong = first_overlong(texts, ends);
    if overlong < ends.len() {
        return Answer::Overlong(overlong);
    }
    write_leaf(doclist::keys::key_of(docid), texts, ends, room)
}
