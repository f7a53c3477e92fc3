// Which leaf is newer: the order of what is lent, by level and index (document 02, section 11). Levels and indexes are two slices, as
// C lends them.
#![tactic(auto)]

ghost use Rattle.std.specs.Prelude.{◌≡◌, ◌↔◌, true, false, ◌++◌, ◌∷◌, ℕ, ◌+◌, ◌≤◌, ◌<◌, length, get_or, take, drop};
ghost use Rattle.common.specs.Bytes.{part};
ghost use Rattle.common.specs.Bounds.{max_leaves};
ghost use Rattle.directory.specs.Age.{Newer, pairs, pair_at, Distinct};
ghost use Rattle.directory.specs.Order.{PlacesAre, NewerAmong, Ordered};

// Whether a pair is newer than another.
fn is_newer(level: u32, index: u32, other_level: u32, other_index: u32) -> bool
    ensures { (result ≡ true) ↔ Newer (record { level = level; index = index }) (record { level = other_level; index = other_index }) }
{
    (level, other_index) < (other_level, index)
}

// How many of the first `k` places have a pair that is newer than that of number `k`, up to the first that has not.
fn newer_among(places: &[u8], k: usize, levels: &[u32], indexes: &[u32]) -> usize
    requires { PlacesAre levels.now indexes.now k places.now × (length indexes.now ≡ length levels.now) × (k < length levels.now) × (length levels.now ≤ max_leaves) }
    ensures { NewerAmong (pairs levels.now indexes.now) k places.now result }
{
    for i in 0..k {
        let other = places[i] as usize;
        if !is_newer(levels[other], indexes[other], levels[k], indexes[k]) {
            return i;
        }
    }
    k
}

// Puts the number `k` to the place `at`; those from there up to the place `k` go one on.
fn insert(places: &mut [u8], at: usize, k: usize)
    requires { (at ≤ k) × (k < length places.old) × (k < 256) }
    ensures { places.new ≡ take at places.old ++ k ∷ (part places.old at k ++ drop (k + 1) places.old) }
{
    // No `rotate_right`: the library for C would need `memmove` for it.
    for i in (at..k).rev() {
        places[i + 1] = places[i];
    }
    places[at] = k as u8;
}

// Whether two numbers have the same pair.
fn has_same_pair(levels: &[u32], indexes: &[u32], i: usize, j: usize) -> bool
    requires { (length indexes.now ≡ length levels.now) × (i < length levels.now) × (j < length levels.now) }
    ensures { (result ≡ true) ↔ (pair_at (pairs levels.now indexes.now) i ≡ pair_at (pairs levels.now indexes.now) j) }
{
    (levels[i], indexes[i]) == (levels[j], indexes[j])
}

// Puts the number `k` to its place by age among the first `k`. Whether none of them has its pair.
fn put(places: &mut [u8], k: usize, levels: &[u32], indexes: &[u32]) -> bool
    requires { PlacesAre levels.now indexes.now k places.old × (length indexes.now ≡ length levels.now) × (k < length levels.now) × (length levels.now ≤ max_leaves) }
    ensures { (result ≡ true → PlacesAre levels.now indexes.now (k + 1) places.new) × (result ≡ false → Distinct (pairs levels.now indexes.now) → ⊥) }
{
    let at = newer_among(places, k, levels, indexes);
    if at < k && has_same_pair(levels, indexes, places[at] as usize, k) {
        return false;
    }
    insert(places, at, k);
    true
}

// The order by age of `count` leaves: their numbers, newest first, then zeros. There is one where as many levels and indexes as
// leaves are lent, not more than are lent at most, and no two pairs are the same.
pub fn newest_first(levels: &[u32], indexes: &[u32], count: usize) -> Option<[u8; 8]>
    ensures { Ordered levels.now indexes.now count result }
{
    if common::MAX_LEAVES < count {
        return None;
    }
    if levels.len() != count {
        return None;
    }
    if indexes.len() != count {
        return None;
    }
    let mut places = [0u8; 8];
    for k in 0..count {
        if !put(&mut places, k, levels, indexes) {
            return None;
        }
    }
    Some(places)
}
