// Docids and their keys (document 02, section 9). A docid is a signed 64-bit number; its key is the docid plus 2^63, so that keys
// stand in the order of their docids.
ghost use Rattle.std.specs.Prelude.{◌≡◌};
ghost use Rattle.doclist.specs.Docid.{docid_of, key_of, bits_of, key_of_bits};

// The largest key.
pub const MAX_KEY: u64 = 0xffff_ffff_ffff_ffff;

// The key of the docid 0.
pub const ZERO_KEY: u64 = 0x8000_0000_0000_0000;

// The key of the docid with these 64 bits, as a first docid is stored.
pub fn key_of_bits(bits: u64) -> u64
    ensures { result ≡ key_of_bits bits }
{
    bits.wrapping_add(ZERO_KEY)
}

// The 64 bits of the docid with this key, as a first docid is stored.
pub fn bits_of(key: u64) -> u64
    ensures { result ≡ bits_of key }
{
    key.wrapping_sub(ZERO_KEY)
}

pub fn key_of(docid: i64) -> u64
    ensures { result ≡ key_of docid }
{
    key_of_bits(docid.cast_unsigned())
}

pub fn docid_of(key: u64) -> i64
    ensures { result ≡ docid_of key }
{
    bits_of(key).cast_signed()
}
