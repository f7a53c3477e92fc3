// The terms of sorted rows, measured and written. A run of rows with one word is a term:
//
//     prefix   length   suffix   list length   posting list
//
// The first word's prefix is the leaf's height: both are the number 0. A posting list has one entry:
//
//     docid   for each column: [1, column]   position + 2, difference + 2, ..   0
//
// The docid comes as its key and is stored as its 64 bits.
ghost use Rattle.std.specs.Prelude.{◌≡◌, ◌≤◌, length};
ghost use Rattle.std.specs.List.{prefix_len};
ghost use Rattle.common.specs.Bytes.{over};
ghost use Rattle.doclist.specs.Doclist.{encode_all};
ghost use Rattle.leaf.specs.Leaf.{sized};
ghost use Rattle.writer.specs.Rows.{no_row, row_key, AllInside, same_word};
ghost use Rattle.writer.specs.Stored.{row_numbers, list_bytes, Rises, term_of, terms_of, Table};

use crate::rows::{self, Row};

// How many rows, from the first on, have the word `w`.
fn run(folded: &[u8], rows: &[Row], w: &[u8]) -> usize
    requires { AllInside (length folded.now) rows.now }
    ensures { result ≡ prefix_len (same_word folded.now w.now) rows.now }
{
    for (i, row) in rows.iter().enumerate() {
        if w != rows::word_of(folded, *row) {
            return i;
        }
    }
    rows.len()
}

// How many bytes a row takes after the row `last`, which is `no_row` for the first.
fn row_size(last: Row, row: Row) -> usize
    requires { row_key last ≤ row_key row }
    ensures { result ≡ length (encode_all (row_numbers last row)) }
{
    let column = row.column as u64;
    let position = row.position as u64;
    if row.column == last.column {
        return varint::size(position - last.position as u64 + 2);
    }
    varint::size(1) + varint::size(column) + varint::size(position + 2)
}

// How many bytes a posting list takes.
fn list_size(rows: &[Row], docid: u64) -> usize
    requires { Rises no_row rows.now × (length rows.now ≤ 4096) }
    ensures { result ≡ length (list_bytes docid rows.now) }
{
    let bits = doclist::keys::bits_of(docid);
    let mut total = varint::size(bits);
    let mut last = rows::NO_ROW;
    for row in rows {
        total += row_size(last, *row);
        last = *row;
    }
    total + varint::size(0)
}

// Puts a row after the row `last`, which is `no_row` for the first, at the front of the room.
fn put_row(out: &mut [u8], last: Row, row: Row) -> usize
    requires { (row_key last ≤ row_key row) × (length (encode_all (row_numbers last row)) ≤ length out.old) }
    ensures { (result ≡ length (encode_all (row_numbers last row))) × (out.new ≡ over (encode_all (row_numbers last row)) out.old) }
{
    let column = row.column as u64;
    let position = row.position as u64;
    if row.column == last.column {
        return storing::put_number(out, position - last.position as u64 + 2);
    }
    let mut at = storing::put_number(out, 1);
    at += storing::put_number(&mut out[at..], column);
    at + storing::put_number(&mut out[at..], position + 2)
}

// Puts a posting list at the front of the room.
fn put_list(out: &mut [u8], rows: &[Row], docid: u64) -> usize
    requires { Rises no_row rows.now × (length (list_bytes docid rows.now) ≤ length out.old) }
    ensures { (result ≡ length (list_bytes docid rows.now)) × (out.new ≡ over (list_bytes docid rows.now) out.old) }
{
    let bits = doclist::keys::bits_of(docid);
    let mut at = storing::put_number(out, bits);
    let mut last = rows::NO_ROW;
    for row in rows {
        at += put_row(&mut out[at..], last, *row);
        last = *row;
    }
    at + storing::put_number(&mut out[at..], 0)
}

// How many bytes a term takes after the word `before`.
fn term_size(before: &[u8], w: &[u8], rows: &[Row], docid: u64) -> usize
    requires { Rises no_row rows.now × (length rows.now ≤ 4096) }
    ensures { result ≡ length (term_of before.now w.now docid rows.now) }
{
    let list = list_size(rows, docid);
    storing::word_size(before, w) + varint::size(list as u64) + list
}

// Puts a posting list after its length at the front of the room.
fn put_postings(out: &mut [u8], rows: &[Row], docid: u64) -> usize
    requires rises { Rises no_row rows.now × (length rows.now ≤ 4096) }
    requires rows_in_bounds { length (sized (list_bytes docid rows.now)) ≤ length out.old }
    ensures { (result ≡ length (sized (list_bytes docid rows.now))) × (out.new ≡ over (sized (list_bytes docid rows.now)) out.old) }
{
    let at = storing::put_number(out, list_size(rows, docid) as u64);
    at + put_list(&mut out[at..], rows, docid)
}

// How many bytes all terms take.
pub(crate) fn terms_size(folded: &[u8], rows: &[Row], docid: u64) -> usize
    requires { Table folded.now rows.now }
    ensures { result ≡ length (terms_of folded.now docid rows.now) }
{
    let mut total: usize = 0;
    let mut last = rows::NO_ROW;
    let mut rest = rows;
    while let [first, ..] = rest {
        let w = rows::word_of(folded, *first);
        let (term, later) = rest.split_at(run(folded, rest, w));
        total += term_size(rows::word_of(folded, last), w, term, docid);
        last = *first;
        rest = later;
    }
    total
}

// Puts all terms into the room: each word goes to the room that is still free, and what stands before it is not touched.
pub(crate) fn put_terms(out: &mut [u8], folded: &[u8], rows: &[Row], docid: u64)
    requires { Table folded.now rows.now × (length (terms_of folded.now docid rows.now) ≤ length out.old) }
    ensures { out.new ≡ over (terms_of folded.now docid rows.now) out.old }
{
    let mut at: usize = 0;
    let mut last = rows::NO_ROW;
    let mut rest = rows;
    while let [first, ..] = rest {
        let w = rows::word_of(folded, *first);
        let (term, later) = rest.split_at(run(folded, rest, w));
        at += storing::put_word(&mut out[at..], rows::word_of(folded, last), w);
        at += put_postings(&mut out[at..], term, docid);
        last = *first;
        rest = later;
    }
}
