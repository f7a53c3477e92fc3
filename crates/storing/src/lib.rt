// What leaves are written with: numbers, bytes and words, each put at the front of a room. What does not fit leaves the room as it was;
// the answer is how many bytes it takes, whether it fits or not. A word is stored as what it adds to the word before it:
//
//     prefix   length   suffix
#![tactic(auto)]

ghost use Rattle.std.specs.Prelude.{◌≡◌, ◌++◌, ◌≤◌, length, replicate};
ghost use Rattle.common.specs.Bytes.{over, fitted};
ghost use Rattle.varint.specs.Varint.{encode};
ghost use Rattle.leaf.specs.Leaf.{shared, sized};
ghost use Rattle.storing.specs.Words.{word_bytes};

use varint::NoRoom;

// The length of the longest prefix that two words share.
pub fn shared_prefix(v: &[u8], w: &[u8]) -> usize
    ensures { result ≡ shared v.now w.now }
{
    let end = v.len().min(w.len());
    for i in 0..end {
        if v[i] != w[i] {
            return i;
        }
    }
    end
}

// Puts a number.
pub fn put_number(out: &mut [u8], v: u64) -> usize
    ensures { (result ≡ length (encode v)) × (out.new ≡ fitted (encode v) out.old) }
{
    match varint::write(out, v) {
        Ok(n) => n,
        Err(NoRoom { need }) => need,
    }
}

// Puts bytes as they are.
pub fn put_bytes(out: &mut [u8], bytes: &[u8])
    ensures { out.new ≡ fitted bytes.now out.old }
{
    if out.len() < bytes.len() {
        return;
    }
    // No `copy_from_slice`: the library for C would need `memmove` for it.
    for i in 0..bytes.len() {
        out[i] = bytes[i];
    }
}

// Puts bytes after their length into a room that holds both.
fn put_sized(out: &mut [u8], bytes: &[u8])
    requires { length (sized bytes.now) ≤ length out.old }
    ensures { out.new ≡ over (sized bytes.now) out.old }
{
    let at = put_number(out, bytes.len() as u64);
    put_bytes(&mut out[at..], bytes);
}

// How many bytes a word takes, by its two parts.
fn parts_size(prefix: usize, suffix: &[u8]) -> usize
    ensures { result ≡ length (encode prefix ++ sized suffix.now) }
{
    varint::size(prefix as u64) + varint::size(suffix.len() as u64) + suffix.len()
}

// How many bytes a word takes after the word `before`.
pub fn word_size(before: &[u8], w: &[u8]) -> usize
    ensures { result ≡ length (word_bytes before.now w.now) }
{
    let prefix = shared_prefix(before, w);
    parts_size(prefix, &w[prefix..])
}

// Puts a word after the word `before`. The whole is measured first, so that no part of a word is left in a room that is too small.
pub fn put_word(out: &mut [u8], before: &[u8], w: &[u8]) -> usize
    ensures { (result ≡ length (word_bytes before.now w.now)) × (out.new ≡ fitted (word_bytes before.now w.now) out.old) }
{
    let prefix = shared_prefix(before, w);
    let suffix = &w[prefix..];
    let need = parts_size(prefix, suffix);
    if out.len() < need {
        return need;
    }
    let at = put_number(out, prefix as u64);
    put_sized(&mut out[at..], suffix);
    need
}

// Fills the room with zeros.
pub fn clear(room: &mut [u8])
    ensures { room.new ≡ replicate (length room.old) 0 }
{
    room.fill(0);
}
