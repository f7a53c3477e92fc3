// The words of a document, sorted: each word that stands in the document has a row. Rows are sorted by their words, which are read in
// the folded texts; rows of one word stay in the order of the document.
ghost use Rattle.std.specs.Prelude.{◌≡◌, List, [], map, ◌≤◌, ◌<◌, length, take};
ghost use Rattle.std.specs.List.{prefix_len};
ghost use Rattle.common.specs.Bytes.{part, over};
ghost use Rattle.tokenizer.specs.Word.{fold};
ghost use Rattle.writer.specs.declared.rows.Row.{Row};
ghost use Rattle.writer.specs.Rows.{row_of, no_row, row_word, RowInside, AllInside, not_before, insert_row};
ghost use Rattle.writer.specs.Rows.{Addable, AddedTo, Gatherable, Gathered};

use crate::MAX_DOCUMENT;
use std::marker::Model;
use tokenizer::Word;

// A word that stands in the document.
#[derive(Clone, Copy)]
pub(crate) struct Row {
    // Where it starts and ends in the texts.
    pub start: u16,
    pub end: u16,
    pub column: u16,
    // Its number among the words of its column.
    pub position: u16,
}

// What stands before the first row.
pub(crate) const NO_ROW: Row = Row {
    start: 0,
    end: 0,
    column: 0,
    position: 0,
};

// A row of its parts.
fn row_of(start: usize, end: usize, column: usize, position: usize) -> Row
    requires { (start < 65536) × (end < 65536) × (column < 65536) × (position < 65536) }
    ensures { result ≡ row_of start end column position }
{
    Row {
        start: start as u16,
        end: end as u16,
        column: column as u16,
        position: position as u16,
    }
}

// The word of a row.
pub(crate) fn word_of<'a>(folded: &'a [u8], row: Row) -> &'a [u8]
    requires { RowInside (length folded.now) row }
    ensures { result.now ≡ row_word folded.now row }
{
    &folded[row.start as usize..row.end as usize]
}

// How many rows, from the first on, have no word that `w` comes before.
fn place(folded: &[u8], rows: &[Row], w: &[u8]) -> usize
    requires { AllInside (length folded.now) rows.now }
    ensures { result ≡ prefix_len (not_before folded.now w.now) rows.now }
{
    for (i, row) in rows.iter().enumerate() {
        if leaf::is_before(w, word_of(folded, *row)) {
            return i;
        }
    }
    rows.len()
}

// The words of a document that have been gathered, as their rows: the first `n` of the array.
#[derive(Drop)]
pub(crate) struct Rows {
    rows: [Row; MAX_DOCUMENT],
    n: usize,
}

// Contracts see the rows alone.
impl Model for Rows {
    ghost Value = { List Row };

    ghost view = { λ a. take a.n a.rows };

    ghost invariant = { λ a. a.n ≤ 4096 };
}

impl Rows {
    // No row.
    pub(crate) fn none() -> Rows
        ensures { result ≡ [] }
    {
        Rows {
            rows: [NO_ROW; MAX_DOCUMENT],
            n: 0,
        }
    }

    // The rows.
    pub(crate) fn as_slice(&self) -> &[Row]
        ensures { result.now ≡ self.now }
    {
        &self.rows[..self.n]
    }

    // Puts a row at its place; those from there on move up by one.
    fn insert(&mut self, folded: &[u8], row: Row)
        requires { (length self.old < 4096) × AllInside (length folded.now) self.old × RowInside (length folded.now) row }
        ensures { self.new ≡ insert_row folded.now row self.old }
    {
        let at = place(folded, self.as_slice(), word_of(folded, row));
        self.rows.copy_within(at..self.n, at + 1);
        self.rows[at] = row;
        self.n += 1;
    }

    // Adds the rows of a column, whose text stands from `base` on in the texts.
    fn add_column(&mut self, text: &[u8], base: usize, column: usize, folded: &[u8])
        requires { Addable text.now base column folded.now self.old }
        ensures { AddedTo text.now base column folded.now self.old self.new }
    {
        let mut at: usize = 0;
        let mut position: usize = 0;
        // `at` goes on word by word, and no `for` goes so.
        while at < text.len() {
            let Word::Found { start, end } = tokenizer::next_word(text, at) else {
                return;
            };
            self.insert(folded, row_of(base + start, base + end, column, position));
            position += 1;
            at = end;
        }
    }

    // Adds the rows of a document, sorted.
    pub(crate) fn gather(&mut self, texts: &[u8], ends: &[u32], folded: &[u8])
        requires { Gatherable texts.now ends.now folded.now × (self.old ≡ []) }
        ensures { Gathered texts.now ends.now folded.now self.new }
    {
        let mut base: usize = 0;
        for (i, end) in ends.iter().enumerate() {
            self.add_column(offsets::part(texts, ends, i), base, i, folded);
            base = *end as usize;
        }
    }
}

// Folds every byte of the texts.
pub(crate) fn fold_all(texts: &[u8], folded: &mut [u8])
    requires { length texts.now ≤ length folded.old }
    ensures { folded.new ≡ over (map fold texts.now) folded.old }
{
    for (i, b) in texts.iter().enumerate() {
        folded[i] = tokenizer::folded(*b);
    }
}
