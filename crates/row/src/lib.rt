// One row as the engine sees it: the live entries at one docid, which lie in the lent leaves. A body is what an entry has
// after its docid; all numbers are varints:
//
//     for each column: [1, column]   position + 2, difference + 2, ..   0
//
// Column 0 is not announced, and the sum of the positions starts anew in each column.
#![tactic(auto)]

ghost use Rattle.std.specs.Prelude.{◌≡◌, drop};
ghost use Rattle.common.specs.Bits.{contains};
ghost use Rattle.row.specs.Walk.{position_step, step_of, opened_of, place_of, first_of, First, NextPlace};

use varint::Varint;

// These two are numbers of the FTS4 layout as they are stored, not kinds of ours, and so no enum. This one ends a body.
const CLOSE: u64 = 0;

// This one stands before a column's number.
const ANNOUNCE: u64 = 1;

// What is added to a position's difference.
const SHIFT: u64 = 2;

// A position is below 2^31.
const POSITION_LIMIT: u64 = 0x8000_0000;

// A set has 16 members at most.
const SET_SIZE: usize = 16;

// The hits of a row: where the body of each starts in the leaves, and which of the query's words it matches.
#[derive(Clone, Copy)]
pub struct Row<'a> {
    pub leaves: &'a [u8],
    pub starts: &'a [u16],
    pub masks: &'a [u16],
}

// A position that a body has next.
#[derive(Drop)]
struct Step {
    column: u64,
    position: u64,
    // Where the number after it stands.
    next: usize,
}

// A position of a row.
#[derive(Drop)]
pub struct Place {
    // How many hits are opened; the position is one of the last of them.
    pub hit: usize,
    pub column: u64,
    pub position: u64,
    // Where the next number of the hit's body stands.
    pub next: usize,
}

// Whether a set of 16 bits has the member `i`.
pub fn contains(set: u16, i: usize) -> bool
    ensures { result ≡ contains set i }
{
    if SET_SIZE <= i {
        return false;
    }
    (set >> i) % 2 == 1
}

// The position that a number stands for, after the position `base` of its column.
fn position(column: u64, base: u64, value: u64, next: usize) -> Option<Step>
    ensures { result ≡ position_step column base value next }
{
    let position = base.checked_add(value.checked_sub(SHIFT)?)?;
    if POSITION_LIMIT <= position {
        return None;
    }
    Some(Step {
        column,
        position,
        next,
    })
}

// The position after the position `base` of a column.
fn step_from(leaves: &[u8], column: u64, base: u64, at: usize) -> Option<Step>
    ensures { result ≡ step_of leaves.now column base at }
{
    let Varint::Value { value, next } = varint::read(leaves, at) else {
        return None;
    };
    if value == CLOSE {
        return None;
    }
    if value != ANNOUNCE {
        return position(column, base, value, next);
    }
    let Varint::Value {
        value: named,
        next: first_at,
    } = varint::read(leaves, next)
    else {
        return None;
    };
    let Varint::Value {
        value: first,
        next: after,
    } = varint::read(leaves, first_at)
    else {
        return None;
    };
    position(named, 0, first, after)
}

// The first position of a hit, if the hit matches the query's word number `i`.
fn opened(leaves: &[u8], mask: u16, start: u16, i: usize) -> Option<Step>
    ensures { result ≡ opened_of leaves.now i start mask }
{
    if contains(mask, i) {
        return step_from(leaves, 0, 0, start as usize);
    }
    None
}

// The place of a step in the last of `hit` hits.
#[inline(always)]
fn place_of(hit: usize, step: Step) -> Place
    ensures { result ≡ place_of hit step }
{
    Place {
        hit,
        column: step.column,
        position: step.position,
        next: step.next,
    }
}

impl Row<'_> {
    // The first position of the hits from the number `from` on that match the query's word number `i`.
    fn first_from(&self, i: usize, from: usize) -> Option<Place>
        ensures { result ≡ first_of self.now.leaves.now i from (drop from self.now.starts.now) (drop from self.now.masks.now) }
    {
        for hit in from..self.starts.len().min(self.masks.len()) {
            if let Some(step) = opened(self.leaves, self.masks[hit], self.starts[hit], i) {
                return Some(place_of(hit + 1, step));
            }
        }
        None
    }

    // The first position of a row's hits that match the query's word number `i`.
    pub fn first(&self, i: usize) -> Option<Place>
        ensures { First self.now.leaves.now self.now.starts.now self.now.masks.now i result }
    {
        self.first_from(i, 0)
    }

    // The next position, after one that was found. Inlined, so that a place is not copied from call to call.
    #[inline(always)]
    pub fn advance(&self, i: usize, place: Place) -> Option<Place>
        ensures { NextPlace self.now.leaves.now self.now.starts.now self.now.masks.now i place result }
    {
        let Some(step) = step_from(self.leaves, place.column, place.position, place.next) else {
            return self.first_from(i, place.hit);
        };
        Some(place_of(place.hit, step))
    }
}
