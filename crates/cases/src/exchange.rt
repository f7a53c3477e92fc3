// Reading compared cases from standard input and writing their answers to standard output. A number takes eight bytes, the
// highest first; a field is its length and its bytes; ends are their count and four bytes each. Nothing can be promised of
// what is read: only that it lies in the buffer. A read or a write that fails ends the program.
ghost use Rattle.std.specs.Prelude.{◌≡◌, ◌%◌, ◌^◌, ◌≤◌, length, IfOk};

use std::io::{self, Read, Write};

const NUMBER_BYTES: usize = 8;

const END_BYTES: usize = 4;

// The leaves of a case, with their ends, levels and indexes.
#[derive(Clone, Copy)]
pub(crate) struct Lent<'a> {
    pub(crate) leaves: &'a [u8],
    pub(crate) ends: &'a [u32],
    pub(crate) levels: &'a [u32],
    pub(crate) indexes: &'a [u32],
}

// Reads until the buffer is full or the input ends.
fn read_full(input: &mut impl Read, buf: &mut [u8]) -> io::Result<()> {
    let mut n = 0;
    // Each read says how far it came: no loop over places.
    while n < buf.len() {
        let more = input.read(&mut buf[n..])?;
        if more == 0 {
            break;
        }
        n += more;
    }
    Ok(())
}

// The next number; 0 at the end of the input.
pub(crate) fn number(input: &mut impl Read) -> io::Result<u64> {
    let mut raw = [0u8; NUMBER_BYTES];
    read_full(input, &mut raw)?;
    Ok(u64::from_be_bytes(raw))
}

// The low half of a number.
pub(crate) fn low_half(n: u64) -> u32
    ensures { result ≡ n % 2 ^ 32 }
{
    (n % 4294967296) as u32
}

// The next size; 0 where it is above `most`.
pub(crate) fn size(input: &mut impl Read, most: usize) -> io::Result<usize>
    ensures { IfOk result (λ n. n ≤ most) }
{
    let n = number(input)?;
    if (most as u64) < n {
        return Ok(0);
    }
    Ok(n as usize)
}

// The next field, at the front of the buffer, and its length.
pub(crate) fn field(input: &mut impl Read, buf: &mut [u8]) -> io::Result<usize>
    ensures { IfOk result (λ n. n ≤ length buf.old) }
{
    let n = size(input, buf.len())?;
    read_full(input, &mut buf[..n])?;
    Ok(n)
}

// The next end.
fn end(input: &mut impl Read) -> io::Result<u32> {
    let mut raw = [0u8; END_BYTES];
    read_full(input, &mut raw)?;
    Ok(u32::from_be_bytes(raw))
}

// The next ends, at the front of the buffer, and their count.
pub(crate) fn ends(input: &mut impl Read, buf: &mut [u32]) -> io::Result<usize>
    ensures { IfOk result (λ n. n ≤ length buf.old) }
{
    let n = size(input, buf.len())?;
    for place in buf[..n].iter_mut() {
        *place = end(input)?;
    }
    Ok(n)
}

// A number and a space.
pub(crate) fn say(out: &mut impl Write, n: u64) -> io::Result<()> {
    write!(out, "{n} ")
}

// A full stop and a space: no bytes, or no answer.
pub(crate) fn say_nothing(out: &mut impl Write) -> io::Result<()> {
    out.write_all(b". ")
}

// A byte in hexadecimal.
pub(crate) fn say_byte(out: &mut impl Write, b: u8) -> io::Result<()> {
    write!(out, "{b:02x}")
}

// Bytes in hexadecimal, a full stop and a space.
pub(crate) fn say_bytes(out: &mut impl Write, s: &[u8]) -> io::Result<()> {
    for b in s {
        say_byte(out, *b)?;
    }
    say_nothing(out)
}

pub(crate) fn end_line(out: &mut impl Write) -> io::Result<()> {
    out.write_all(b"\n")
}
