// Several byte strings lent as one: a byte slice cut by a list of end offsets (document 01's ends), and the column
// names that are lent so.
//
//     s     n o d e s e n t o u t c o m e
//     ends        4       8            15
#![tactic(auto)]

ghost use Rattle.std.specs.Prelude.{◌≡◌, ◌↔◌, true, [], ℕ, ◌<◌, suc, get_or, length, drop, Some};
ghost use Rattle.offsets.specs.Cut.{cuts, Cuts, cut};
ghost use Rattle.offsets.specs.Names.{is_name_byte, name_bytes, is_name, same_name, column_from, column_of, ColumnIs};
ghost use Rattle.offsets.specs.Names.{each_name, is_new, all_distinct, names_ok, Names};

// A column's name has 1 to 32 bytes.
pub const MAX_NAME: usize = 32;

// Whether the ends cut the slice: they never fall, none passes the length, and the last equals it; no ends go only with
// no bytes.
pub fn is_cut(s: &[u8], ends: &[u32]) -> bool
    ensures shape { result ≡ cuts s.now ends.now }
    ensures rules { (result ≡ true) ↔ Cuts s.now ends.now }
{
    let mut last = 0;
    for end in ends {
        let e = *end as usize;
        if e < last {
            return false;
        }
        if s.len() < e {
            return false;
        }
        last = e;
    }
    last == s.len()
}

// The byte string number `i`; nothing where there is no such number.
pub fn part<'a>(s: &'a [u8], ends: &[u32], i: usize) -> &'a [u8]
    ensures { result.now ≡ get_or (cut s.now ends.now) i [] }
{
    if ends.len() <= i {
        return &s[0..0];
    }
    let n = s.len();
    let e = (ends[i] as usize).min(n);
    if i == 0 {
        return &s[0..e];
    }
    let a = ends[i - 1] as usize;
    if e < a {
        return &s[0..0];
    }
    &s[a..e]
}

// Whether a byte may stand in a name: an ASCII letter, a digit or `_`.
pub fn is_name_byte(b: u8) -> bool
    ensures { result ≡ is_name_byte b }
{
    b == b'_' || b.is_ascii() && tokenizer::is_word(b)
}

// Whether every byte may stand in a name.
fn has_name_bytes(name: &[u8]) -> bool
    ensures { result ≡ name_bytes name.now }
{
    for b in name {
        if !is_name_byte(*b) {
            return false;
        }
    }
    true
}

// Whether a byte string is a name: 1 to 32 ASCII letters, digits or `_`.
fn is_name(name: &[u8]) -> bool
    ensures { result ≡ is_name name.now }
{
    1 <= name.len() && name.len() <= MAX_NAME && has_name_bytes(name)
}

// Whether two names are equal when ASCII case is ignored.
fn same_name(a: &[u8], b: &[u8]) -> bool
    ensures { result ≡ same_name a.now b.now }
{
    if a.len() != b.len() {
        return false;
    }
    for i in 0..a.len() {
        if tokenizer::folded(a[i]) != tokenizer::folded(b[i]) {
            return false;
        }
    }
    true
}

// The first of the names from number `from` on that is `name`.
fn column_from(names: &[u8], ends: &[u32], from: usize, name: &[u8]) -> Option<usize>
    ensures { result ≡ column_from from (drop from (cut names.now ends.now)) name.now }
{
    for i in from..ends.len() {
        if same_name(part(names, ends, i), name) {
            return Some(i);
        }
    }
    None
}

// The column that has the name, ASCII case ignored: the first one, should there be several.
pub fn column_of(names: &[u8], ends: &[u32], name: &[u8]) -> Option<usize>
    ensures reader { result ≡ column_of (cut names.now ends.now) name.now }
    ensures rules { (i : ℕ) → (result ≡ Some i) ↔ ColumnIs (cut names.now ends.now) name.now i }
{
    column_from(names, ends, 0, name)
}

// Whether every byte string is a name.
fn has_names(s: &[u8], ends: &[u32]) -> bool
    ensures { result ≡ each_name (cut s.now ends.now) }
{
    for i in 0..ends.len() {
        if !is_name(part(s, ends, i)) {
            return false;
        }
    }
    true
}

// Whether no later name is the name number `i`.
fn differs_from_later(s: &[u8], ends: &[u32], i: usize) -> bool
    requires { i < length ends.now }
    ensures { result ≡ is_new (column_of (drop (suc i) (cut s.now ends.now)) (get_or (cut s.now ends.now) i [])) }
{
    column_from(s, ends, i + 1, part(s, ends, i)).is_none()
}

// Whether no two names are equal when ASCII case is ignored.
fn are_distinct(s: &[u8], ends: &[u32]) -> bool
    ensures { result ≡ all_distinct (cut s.now ends.now) }
{
    for i in 0..ends.len() {
        if !differs_from_later(s, ends, i) {
            return false;
        }
    }
    true
}

// Whether a slice and its ends are a table's column names: 1 to 16 of them, each of 1 to 32 ASCII letters, digits or
// `_`, and no two equal when ASCII case is ignored.
pub fn are_names(s: &[u8], ends: &[u32]) -> bool
    ensures shape { result ≡ names_ok s.now ends.now }
    ensures rules { (result ≡ true) ↔ (Cuts s.now ends.now × Names (cut s.now ends.now)) }
{
    is_cut(s, ends)
        && 1 <= ends.len()
        && ends.len() <= common::MAX_COLUMNS
        && has_names(s, ends)
        && are_distinct(s, ends)
}
