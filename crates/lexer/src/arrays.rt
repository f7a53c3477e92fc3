// The words of a query in flat arrays, filled word by word. Their bytes stand in one text:
//
//     query      up AND "Next HOP*" NEAR/3 node:x
//
//     text       u p n e x t h o p x
//     ends           2       6     9 10
//     marks          0       0     1 0
//     ties           0       0     1 3
//     distances      0       0     0 3
ghost use Rattle.std.specs.Prelude.{◌≡◌, ◌+◌, ◌≤◌, [], map, length, get_or, eqb};
ghost use Rattle.common.specs.Pick.{pick};
ghost use Rattle.common.specs.Bounds.{max_word};
ghost use Rattle.tokenizer.specs.Word.{fold};
ghost use Rattle.lexer.specs.Token.{max_words, packed};
ghost use Rattle.lexer.specs.Tokens.{star_byte};
ghost use Rattle.lexer.specs.Lexing.{phrase_words};
ghost use Rattle.lexer.specs.Filling.{text_end, placed, push_word, push_words, phrase_entries};

use crate::Words;

// A count that no query has: it tells that a word had no room.
const OVERFULL: usize = crate::MAX_WORDS + 1;

// Puts the bytes of a word, folded, into the text from a place on.
fn put_word(text: &mut [u8], at: usize, s: &[u8])
    requires { at + length s.now ≤ length text.old }
    ensures { text.new ≡ placed text.old at (map fold s.now) }
{
    for i in 0..s.len() {
        text[at + i] = tokenizer::folded(s[i]);
    }
}

// 1 for a `*` at a place.
fn mark_at(s: &[u8], i: usize) -> u8
    ensures { result ≡ pick (eqb (get_or s.now i 0) star_byte) 1 0 }
{
    u8::from(i < s.len() && s[i] == b'*')
}

impl Words {
    // No words.
    pub fn none() -> Words
        ensures { result ≡ packed [] }
    {
        Words {
            text: [0; crate::MAX_QUERY],
            ends: [0; crate::MAX_WORDS],
            marks: [0; crate::MAX_WORDS],
            columns: [0; crate::MAX_WORDS],
            ties: [0; crate::MAX_WORDS],
            distances: [0; crate::MAX_WORDS],
            count: 0,
        }
    }

    // Where the last word's bytes end.
    #[tactic(auto, unfolding(crate::specs::Filling::text_end))]
    fn text_end(&self) -> u16
        requires { self.now.count ≤ max_words }
        ensures { result ≡ text_end self.now }
    {
        if self.count == 0 {
            return 0;
        }
        self.ends[self.count - 1]
    }

    // Puts one more word. One that has no room, the 17th or one of over 64 bytes, makes the count one that no query has.
    fn push(&mut self, s: &[u8], mark: u8, set: u16, tie: u8, distance: u16)
        requires { length s.now ≤ max_word }
        ensures { self.new ≡ push_word self.old (record { bytes = map fold s.now; mark = mark; columns = set; tie = tie; distance = distance }) }
    {
        let n = self.count;
        if crate::MAX_WORDS <= n {
            self.count = OVERFULL;
            return;
        }
        let from = self.text_end() as usize;
        let end = from + s.len();
        if crate::MAX_QUERY < end {
            self.count = OVERFULL;
            return;
        }
        put_word(&mut self.text, from, s);
        self.ends[n] = end as u16;
        self.marks[n] = mark;
        self.columns[n] = set;
        self.ties[n] = tie;
        self.distances[n] = distance;
        self.count = n + 1;
    }

    // Puts the words of a phrase, the first of them tied as told.
    pub(crate) fn push_phrase(&mut self, s: &[u8], set: u16, tie: u8, distance: u16)
        ensures { self.new ≡ push_words self.old (phrase_entries tie distance set (phrase_words s.now)) }
    {
        let mut t = tie;
        let mut d = distance;
        let mut at = 0;
        loop {
            match tokenizer::next_word(s, at) {
                tokenizer::Word::Found { start, end } => {
                    self.push(&s[start..end], mark_at(s, end), set, t, d);
                    t = crate::CONTINUES;
                    d = 0;
                    at = end;
                }
                tokenizer::Word::Overlong { start: _, end: _ } => {
                    self.count = OVERFULL;
                    return;
                }
                tokenizer::Word::Nothing => return,
            }
        }
    }
}
