// What more than one layer needs: document 01's bounds, whether two byte strings are the same, and clearing a room. The crate also holds the
// definitions and laws that every layer above cites.
#![tactic(auto)]

ghost use Rattle.std.specs.Prelude.{◌≡◌, length};
ghost use Rattle.common.specs.Bytes.{same};
ghost use Rattle.common.specs.Rooms.{zeros};

// The columns of a table.
pub const MAX_COLUMNS: usize = 16;

// The bytes of a word.
pub const MAX_WORD: usize = 64;

// The leaves of an index.
pub const MAX_LEAVES: usize = 8;

// The bytes of all leaves of an index together.
pub const MAX_INDEX_BYTES: usize = 65536;

// Whether two byte strings are the same. Its contract says in this repository's definitions what `==` answers.
pub fn is_same(s: &[u8], t: &[u8]) -> bool
    ensures { result ≡ same s.now t.now }
{
    s == t
}

// Every place of the room becomes 0.
pub fn clear(room: &mut [i64])
    ensures { room.new ≡ zeros (length room.old) }
{
    room.fill(0);
}
