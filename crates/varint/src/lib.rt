// Stored numbers: FTS varints of one to ten bytes, 0 to 2^64 - 1, shortest form only. A tenth byte is 1.
//
//     byte 0      byte 1            last byte
//     1xxxxxxx    1xxxxxxx    ..    0xxxxxxx     seven bits to a byte, the lowest first
#![tactic(auto)]

ghost use Rattle.std.specs.Prelude.{◌≡◌, ◌↔◌, true, ℕ, ◌≤◌, ◌<◌, length};
ghost use Rattle.common.specs.Bytes.{over};
ghost use Rattle.varint.specs.Varint.{max_varint, tenth, encode, StoredAt, read_at, written_of, room_after};

// The largest number of bytes that a number takes.
pub const MAX_VARINT: usize = 10;

// The weight of a tenth byte.
const TENTH: u64 = 0x8000_0000_0000_0000;

// The weight of a byte beside that of the one before it: seven bits.
const BASE: u64 = 128;

// The bit that is set in every byte but the last.
const TOP_BIT: u64 = 0x80;

// What is read at a place. No Option: document 01 asks that the number reader answers an enum, which the leaf and list readers take apart by `let .. else`.
#[derive(Drop)]
pub enum Varint {
    // The number, and the place after its last byte.
    Value { value: u64, next: usize },
    // No number is stored there in its shortest form.
    Refused,
}

// A room is too small for the number that was to be written.
#[derive(Clone, Copy)]
pub struct NoRoom {
    // How many bytes the number needs.
    pub need: usize,
}

// Whether a byte is a tenth one and above 1: the number would have more than 64 bits.
fn is_over(scale: u64, b: u64) -> bool
    ensures { (result ≡ true) ↔ ((scale ≡ tenth) × (1 < b)) }
{
    scale == TENTH && 1 < b
}

// The number that is stored from the place `at` on, read byte by byte. Open to `opening::front_at`, which reads the first docid
// of a list: that is seldom below 128.
pub fn read_long(s: &[u8], at: usize) -> Varint
    ensures reader { result ≡ read_at s.now at }
    ensures stored { (v next : ℕ) → (result ≡ Varint.Value v next) ↔ StoredAt max_varint s.now at v next }
{
    let mut value: u64 = 0;
    let mut scale: u64 = 1;
    // As many turns as a number may have bytes: the compiler writes them out one by one.
    for passed in 0..MAX_VARINT {
        let i = at + passed;
        if s.len() <= i {
            return Varint::Refused;
        }
        let b = s[i] as u64;
        if is_over(scale, b) {
            return Varint::Refused;
        }
        if b < TOP_BIT {
            if 0 < b {
                return Varint::Value {
                    value: value + b * scale,
                    next: i + 1,
                };
            }
            if scale == 1 {
                return Varint::Value { value, next: i + 1 };
            }
            return Varint::Refused;
        }
        value += (b - TOP_BIT) * scale;
        scale *= BASE;
    }
    Varint::Refused
}

// The number that is stored from the place `at` on. Most numbers take one byte, so that is tried first (document 02, section 2):
// this is short enough to be compiled into its callers' loops.
pub fn read(s: &[u8], at: usize) -> Varint
    ensures reader { result ≡ read_at s.now at }
    ensures stored { (v next : ℕ) → (result ≡ Varint.Value v next) ↔ StoredAt max_varint s.now at v next }
{
    if s.len() <= at {
        return Varint::Refused;
    }
    let first = s[at] as u64;
    if first < TOP_BIT {
        return Varint::Value {
            value: first,
            next: at + 1,
        };
    }
    read_long(s, at)
}

// How many bytes a number takes.
pub fn size(v: u64) -> usize
    ensures { result ≡ length (encode v) }
{
    let mut left = v;
    for n in 1..MAX_VARINT {
        if left < BASE {
            return n;
        }
        left /= BASE;
    }
    MAX_VARINT
}

// Puts the number's bytes at the front of a room that holds them.
fn put(room: &mut [u8], v: u64)
    requires { length (encode v) ≤ length room.old }
    ensures { room.new ≡ over (encode v) room.old }
{
    let mut rest = v;
    for b in room.iter_mut() {
        if rest < BASE {
            *b = rest as u8;
            return;
        }
        *b = (TOP_BIT + rest % BASE) as u8;
        rest /= BASE;
    }
}

// Puts the number at the front of the room, or answers how much it needs and leaves the room as it was.
pub fn write(room: &mut [u8], v: u64) -> Result<usize, NoRoom>
    ensures { (result ≡ written_of v room.old) × (room.new ≡ room_after v room.old) }
{
    let need = size(v);
    if room.len() < need {
        return Err(NoRoom { need });
    }
    put(room, v);
    Ok(need)
}
