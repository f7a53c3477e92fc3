// Words of document 01: the tokens of "simple".
#![tactic(auto)]

ghost use Rattle.std.specs.Prelude.{◌≡◌, ℕ, ◌+◌, ◌<◌, Bool, drop};
ghost use Rattle.common.specs.Bytes.{span};
ghost use Rattle.tokenizer.specs.Word.{is_digit, is_word, fold, entry_of, word_start, next_word, NextWordIs};

// What a word byte's entry has above its folded form.
const WORD: u16 = 256;

// What a digit's entry has above it.
const DIGIT: u16 = 768;

// Each byte's folded form, and DIGIT more if it is a digit, WORD more if it is another word byte.
const BYTES: [u16; 256] = [
    0, 1, 2, 3, 4, 5, 6, 7, 8, 9, 10, 11, 12, 13, 14, 15, 16, 17, 18, 19, 20, 21, 22, 23, 24, 25,
    26, 27, 28, 29, 30, 31, 32, 33, 34, 35, 36, 37, 38, 39, 40, 41, 42, 43, 44, 45, 46, 47, 816, // 0
    817, 818, 819, 820, 821, 822, 823, 824, 825, // 9
    58, 59, 60, 61, 62, 63, 64, 353, // A
    354, 355, 356, 357, 358, 359, 360, 361, 362, 363, 364, 365, 366, 367, 368, 369, 370, 371, 372,
    373, 374, 375, 376, 377, 378, // Z
    91, 92, 93, 94, 95, // _
    96, 353, // a
    354, 355, 356, 357, 358, 359, 360, 361, 362, 363, 364, 365, 366, 367, 368, 369, 370, 371, 372,
    373, 374, 375, 376, 377, 378, // z
    123, 124, 125, 126, 127, 384, // 128
    385, 386, 387, 388, 389, 390, 391, 392, 393, 394, 395, 396, 397, 398, 399, 400, 401, 402, 403,
    404, 405, 406, 407, 408, 409, 410, 411, 412, 413, 414, 415, 416, 417, 418, 419, 420, 421, 422,
    423, 424, 425, 426, 427, 428, 429, 430, 431, 432, 433, 434, 435, 436, 437, 438, 439, 440, 441,
    442, 443, 444, 445, 446, 447, 448, 449, 450, 451, 452, 453, 454, 455, 456, 457, 458, 459, 460,
    461, 462, 463, 464, 465, 466, 467, 468, 469, 470, 471, 472, 473, 474, 475, 476, 477, 478, 479,
    480, 481, 482, 483, 484, 485, 486, 487, 488, 489, 490, 491, 492, 493, 494, 495, 496, 497, 498,
    499, 500, 501, 502, 503, 504, 505, 506, 507, 508, 509, 510, 511, // 255
];

// What stands at or after a place of a text.
#[derive(Drop)]
pub enum Word {
    // A word of 1 to MAX_WORD bytes, from `start` up to `end`.
    Found { start: usize, end: usize },
    // A longer word.
    Overlong { start: usize, end: usize },
    // No word byte.
    Nothing,
}

// A byte's entry: the one place that reads the table.
fn entry(b: u8) -> u16
    ensures { result ≡ entry_of b }
{
    BYTES[b as usize]
}

// Whether a byte is part of words.
pub fn is_word(b: u8) -> bool
    ensures { result ≡ is_word b }
{
    WORD <= entry(b)
}

// Whether a byte is one of the digits 0 to 9.
pub fn is_digit(b: u8) -> bool
    ensures { result ≡ is_digit b }
{
    DIGIT <= entry(b)
}

// A byte's folded form: A to Z become a to z.
pub fn folded(b: u8) -> u8
    ensures { result ≡ fold b }
{
    (entry(b) % WORD) as u8
}

// The first place from `at` on whose byte fails the test. With none it is the text's length, or `at` where that is more.
fn skip<F: Fn(u8) -> bool>(s: &[u8], at: usize, passes: F) -> usize
    requires { F.IsAlwaysCallable passes }
    ensures { (test : ℕ → Bool) → ((b : ℕ) (r : Bool) → b < 256 → F.post passes b r → r ≡ test b) → result ≡ at + span test (drop at s.now) }
{
    for i in at..s.len() {
        if !passes(s[i]) {
            return i;
        }
    }
    at.max(s.len())
}

// The next word at or after a place.
pub fn next_word(s: &[u8], at: usize) -> Word
    ensures reader { result ≡ next_word s.now at }
    ensures next { NextWordIs s.now at result }
{
    let start = skip(s, at, |b| !is_word(b));
    if s.len() <= start {
        return Word::Nothing;
    }
    let end = skip(s, start, is_word);
    if end - start <= common::MAX_WORD {
        return Word::Found { start, end };
    }
    Word::Overlong { start, end }
}
