// The call that only the benchmark links (bench/numbers.sh): the reading of stored numbers at given places. Built over the reader as
// it is and over one that goes the long way alone, it tells what the short way is worth.
#![tactic(auto)]

ghost use Rattle.std.specs.Prelude.{◌≡◌, ◌%◌, ◌^◌, ◌<◌};
ghost use Rattle.timing.specs.Numbers.{number_at, sum_at};

use varint::Varint;

// The sum is kept below this.
const SUM_LIMIT: u64 = 0x8000_0000_0000_0000;

// The number at a place, or 0.
fn number(s: &[u8], at: usize) -> u64
    ensures is { result ≡ number_at s.now at }
    ensures small { result < 2 ^ 63 }
{
    match varint::read(s, at) {
        Varint::Value { value, next: _ } => value % SUM_LIMIT,
        Varint::Refused => 0,
    }
}

// The numbers at the places, summed up.
#[unsafe(no_mangle)]
pub extern "C" fn timed_numbers(s: &[u8], places: &[u32]) -> u64
    ensures { result ≡ sum_at s.now places.now % 2 ^ 63 }
{
    let mut sum: u64 = 0;
    for place in places {
        sum = (sum + number(s, *place as usize)) % SUM_LIMIT;
    }
    sum
}
