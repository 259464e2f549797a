//! How many of the first names in bytes surely differ, found out without memory.

ghost use Rattle.std.specs.Prelude.{◌≡◌, ◌⊎◌, ◌+◌, ◌<◌, ◌≤◌, ◌++◌, [], ℕ, true, false, length, map, take, drop, IfSome};
ghost use Rattle.std.specs.Ordering.{nat_cmp};
ghost use Rattle.std.specs.Cmp.Lexicographic.{slice_cmp};
ghost use Rattle.std.specs.List.Sorted.{IsStrictlySortedBy};
ghost use Rattle.bson.specs.Lookup.{stands_in};
ghost use Rattle.bson_bytes.specs.RawNames.{AreNew, AreOthers, AreApart};

use std::cmp::Ordering;

/// How many names are compared with each other: more are sorted.
const FEW: usize = 32;

/// Names in fewer bytes aren't sorted.
const SHORT: usize = 256;

/// How many names are sorted together.
const TABLE: usize = 8_192;

/// How names stand in bytes: in parts, one behind the other, each of which has a name or is passed over.
pub trait NamedParts {
    ghost use Rattle.std.specs.Prelude.{◌≡◌, ◌<◌, [], ◌∷◌, ℕ, List, length, MatchOption};

    /// The names in bytes, from the first one on.
    ghost names: { List ℕ → List (List ℕ) };

    /// The first name and the bytes behind the part that has it, where there is one.
    fn split_name(bytes: &[u8]) -> Option<(&[u8], &[u8])>
        ensures { MatchOption result (names bytes.now ≡ [])
            (λ x. (names bytes.now ≡ x.0.now ∷ names x.1.now)
            × (length x.1.now < length bytes.now)) };
}

/// How many of the first names are such that none of them stood before: all before the first one that stands twice, or, of more
/// than 32 names in fewer than 256 bytes, those that ascend. It takes about as many comparisons as their number times its
/// logarithm, past the first few, and reads the parts once for every 8,192 names.
pub fn count_distinct<P: NamedParts>(bytes: &[u8]) -> usize
    ensures { AreNew result (P.names bytes.now) }
{
    let mut table: [&[u8]; FEW] = [&[]; FEW];
    let (count, rest) = fill_table::<P>(&mut table, bytes);
    match P::split_name(rest) {
        Some(_) => count_of_many::<P>(bytes),
        None => count_new(&table[..count]),
    }
}

/// How many of the first of these names are such that none of them stood before.
fn count_new(names: &[&[u8]]) -> usize
    ensures { AreNew result (map (λ n. n.now) names.now) }
{
    'names: for at in 0..names.len() {
        let name = names[at];
        if is_among(&names[..at], name) {
            return at;
        }
    }
    names.len()
}

/// Whether a name is one of these.
fn is_among(names: &[&[u8]], name: &[u8]) -> bool
    ensures { result ≡ stands_in (map (λ n. n.now) names.now) name.now }
{
    'names: for other in names {
        if name == *other {
            return true;
        }
    }
    false
}

/// The same count of more names than are compared with each other.
#[inline(never)]
pub(crate) fn count_of_many<P: NamedParts>(bytes: &[u8]) -> usize
    ensures { AreNew result (P.names bytes.now) }
{
    let (count, rest) = count_ascending::<P>(bytes);
    if rest.is_empty() || bytes.len() < SHORT {
        return count;
    }
    count_by_tables::<P>(bytes)
}

/// Whether a name is above the last one, or the first of all.
fn is_above(name: &[u8], last: &[u8], is_first: bool) -> bool
    ensures { result ≡ true
        → (is_first ≡ true) ⊎ (slice_cmp nat_cmp last.now name.now ≡ Ordering.Less) }
{
    if is_first {
        return true;
    }
    last.cmp(&name) == Ordering::Less
}

/// How many of the first names are above the one before each, and the bytes behind them.
fn count_ascending<P: NamedParts>(bytes: &[u8]) -> (usize, &[u8])
    ensures { AreNew result.0 (P.names bytes.now) }
{
    let mut count = 0usize;
    let mut last: &[u8] = &[];
    let mut rest = bytes;
    'names: while let Some((name, after)) = P::split_name(rest) {
        if !is_above(name, last, count == 0) {
            return (count, rest);
        }
        last = name;
        count += 1;
        rest = after;
    }
    (count, rest)
}

/// Writes the first names into a table, as many as it holds. It gives their number and the bytes behind them.
fn fill_table<'a, P: NamedParts>(table: &mut [&'a [u8]], bytes: &'a [u8]) -> (usize, &'a [u8])
    ensures within { result.0 ≤ length table.new }
    ensures names { P.names bytes.now
        ≡ map (λ n. n.now) (take result.0 table.new) ++ P.names result.1.now }
    ensures shorter { result.0 + length result.1.now ≤ length bytes.now }
    ensures end { result.0 < length table.new → P.names result.1.now ≡ [] }
{
    let mut rest = bytes;
    for (count, slot) in table.iter_mut().enumerate() {
        let Some((name, after)) = P::split_name(rest) else {
            return (count, rest);
        };
        *slot = name;
        rest = after;
    }
    (table.len(), rest)
}

/// Whether each name is below the one behind it.
fn are_ascending(names: &[&[u8]]) -> bool
    ensures { result ≡ true
        → IsStrictlySortedBy (slice_cmp nat_cmp) (map (λ n. n.now) names.now) }
{
    for i in 1..names.len() {
        if names[i - 1].cmp(names[i]) != Ordering::Less {
            return false;
        }
    }
    true
}

/// Whether a name may stand in a table in ascending order: if not, it doesn't.
fn is_in_table(table: &[&[u8]], name: &[u8]) -> bool
    requires { IsStrictlySortedBy (slice_cmp nat_cmp) (map (λ n. n.now) table.now) }
    ensures { result ≡ false → stands_in (map (λ n. n.now) table.now) name.now ≡ false }
{
    table.binary_search(&name).is_ok()
}

/// How many of the names stand before one that is in the table, or `most`, if that is less.
fn count_others<P: NamedParts>(table: &[&[u8]], most: usize, bytes: &[u8]) -> usize
    requires { IsStrictlySortedBy (slice_cmp nat_cmp) (map (λ n. n.now) table.now) }
    ensures others { AreOthers result (map (λ n. n.now) table.now) (P.names bytes.now) }
    ensures within { result ≤ most }
{
    let mut count = 0usize;
    let mut rest = bytes;
    'names: while let Some((name, after)) = P::split_name(rest) {
        if count == most || is_in_table(table, name) {
            return count;
        }
        count += 1;
        rest = after;
    }
    most
}

/// Compares the first names, as many as the table holds, with each other and with those behind them.
/// It gives how many they are and, where they differ, how many of those behind differ from all of them, `most` at the
/// most, and the bytes behind the first.
fn compare_first<'a, P: NamedParts>(
    table: &mut [&'a [u8]],
    most: usize,
    bytes: &'a [u8],
) -> (usize, Option<(usize, &'a [u8])>)
    ensures within { result.0 ≤ length table.new }
    ensures apart { IfSome result.1 (λ x. (x.0 ≤ most)
        × AreApart result.0 (result.0 + x.0) (P.names bytes.now)) }
    ensures rest { IfSome result.1 (λ x. (result.0 + length x.1.now ≤ length bytes.now)
        × (P.names x.1.now ≡ drop result.0 (P.names bytes.now))) }
    ensures end { 0 < length table.new → result.0 ≡ 0 → P.names bytes.now ≡ [] }
{
    let (count, rest) = fill_table::<P>(table, bytes);
    let names = &mut table[..count];
    names.sort_unstable();
    if are_ascending(names) {
        let others = count_others::<P>(names, most, rest);
        return (count, Some((others, rest)));
    }
    (count, None)
}

/// How many of the first names are such that none of them stood before: exactly those before the first that did. It
/// sorts the names in tables, and looks for those behind a table in it. Where a name stands twice in a table, it goes
/// on with half of it.
#[inline(never)]
fn count_by_tables<P: NamedParts>(bytes: &[u8]) -> usize
    ensures { AreNew result (P.names bytes.now) }
{
    let mut table: [&[u8]; TABLE] = [&[]; TABLE];
    let mut size = TABLE;
    let mut done = 0usize;
    let mut limit = usize::MAX;
    let mut rest = bytes;
    'tables: while done < limit && 0 < size {
        let most = size.min(limit - done);
        let (count, differ) = compare_first::<P>(&mut table[..most], limit - done - most, rest);
        if count == 0 {
            return limit;
        }
        match differ {
            Some((others, after)) => {
                limit = done + count + others;
                done += count;
                rest = after;
            }
            None => {
                limit = done + count;
                size = count / 2;
            }
        }
    }
    limit.min(done)
}
