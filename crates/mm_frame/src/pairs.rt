//! Distinct pairs of variables, by the indices of the `$d` that state them, and the `$d` of many
//! variables.

ghost use Rattle.std.specs.Prelude.{◌≡◌, ℕ, ◌+◌, ◌<◌, ◌≤◌, [], ◌∷◌, ◌++◌, length, map, slice_get};
ghost use Rattle.std.specs.Prelude.{if◌then◌else◌, nat_lt, OnErr, OnOk, Some};
ghost use Rattle.std.specs.Option.{option_and_then};
ghost use Rattle.std.specs.Map.{update};
ghost use Rattle.indexmap.specs.IndexMap.{get, spare};
ghost use Rattle.mm_frame.specs.Mirror.Stated.{IsLatestStated, IsLastSpan, AreOlder, stated_by};
ghost use Rattle.mm_frame.specs.Mirror.Stated.{near_index, newest_of, is_same_key};

use crate::lists::{at, reserve_numbered};
use crate::wide::WideDistinct;
use indexmap::IndexMap;
use mm_base::Seed;
use std::alloc::{AllocError, Global};
use std::marker::Model;

/// That a `$d` states a pair, and which one stated it before.
#[derive(Clone, Copy)]
pub(crate) struct Span {
    /// The numbers of the two variables, the lesser one first.
    pub(crate) pair: (u32, u32),
    /// The index of the `$d`.
    pub(crate) index: u32,
    /// The span of the same pair before it.
    pub(crate) older: Option<u32>,
}

/// The pairs that were stated, in the order of their `$d`, and the `$d` whose pairs are too many.
#[derive(Drop)]
pub struct Pairs {
    spans: Vec<Span>,
    /// The newest span of each pair of two numbers below 256, at the index that they make. Nearly
    /// all pairs are such, and are found sooner in this table than by a hash. It is empty before it
    /// is prepared.
    near: Vec<Option<u32>>,
    /// That of each other pair.
    newest: IndexMap<(u32, u32), u32, Seed>,
    /// The `$d` of many variables.
    wide: Vec<WideDistinct>,
}

/// The pair of two numbers, the lesser one first.
pub(crate) fn in_order(a: u32, b: u32) -> (u32, u32)
    ensures { result ≡ (if nat_lt a b then (a, b) else (b, a)) }
{
    if a < b { (a, b) } else { (b, a) }
}

// The span with a number.
fn span_at(spans: &[Span], number: Option<u32>) -> Option<Span>
    ensures { result ≡ option_and_then (λ n. slice_get spans.now n) number }
{
    match number {
        Some(number) => at(spans, number as usize),
        None => None,
    }
}

// The index of the latest span before an index, from the newest of a pair on.
fn latest_from(spans: &[Span], newest: Option<u32>, before: usize) -> Option<usize>
    requires { AreOlder spans.now }
    ensures { (pair : ℕ × ℕ) → IsLastSpan spans.now (length spans.now) pair newest
        → IsLatestStated (map stated_by spans.now) pair before result }
{
    let mut next = newest;
    for _ in 0..spans.len() {
        match span_at(spans, next) {
            Some(span) if (span.index as usize) < before => return Some(span.index as usize),
            Some(span) => next = span.older,
            None => return None,
        }
    }
    None
}

// A pair has an index in the table if both of its numbers are below this.
const NEAR: u32 = 256;

// So many pairs have an index in it.
const NEAR_PAIRS: usize = 65_536;

// The index of a pair in the table, if it may have one.
#[inline(always)]
fn near_index(pair: (u32, u32)) -> Option<usize>
    ensures { result ≡ near_index pair }
{
    if pair.0 < NEAR && pair.1 < NEAR {
        Some((pair.0 * NEAR + pair.1) as usize)
    } else {
        None
    }
}

// The number of the newest span of a pair, by the map. It is a call, since it is rare where there
// is a table.
#[cold]
#[inline(never)]
fn far_newest(far: &IndexMap<(u32, u32), u32, Seed>, pair: (u32, u32)) -> Option<u32>
    ensures { result ≡ get is_same_key far.now pair }
{
    far.get(&pair).copied()
}

// The number of the newest span of a pair.
#[inline(always)]
fn newest_of(
    near: &[Option<u32>],
    far: &IndexMap<(u32, u32), u32, Seed>,
    pair: (u32, u32),
) -> Option<u32>
    ensures { result ≡ newest_of near.now far.now pair }
{
    match near_index(pair) {
        Some(index) if index < near.len() => near[index],
        _ => far_newest(far, pair),
    }
}

// Notes the number of the newest span of a pair.
fn note_newest(
    near: &mut Vec<Option<u32>>,
    far: &mut IndexMap<(u32, u32), u32, Seed>,
    pair: (u32, u32),
    number: u32,
)
    requires room { 0 < spare far.old }
    ensures noted { (q : ℕ × ℕ) → newest_of near.new.items far.new q
        ≡ update is_same_key (newest_of near.old.items far.old) pair (Some number) q }
    ensures room { spare far.old ≤ spare far.new + 1 }
{
    match near_index(pair) {
        Some(index) if index < near.len() => near[index] = Some(number),
        _ => {
            let _ = far.insert(pair, number);
        }
    }
}

impl Model for Pairs {
    ghost use Rattle.std.specs.Prelude.{◌-◌, map, min, vec_len, vec_capacity};
    ghost use Rattle.indexmap.specs.IndexMap.{spare};
    ghost use Rattle.mm_frame.specs.Mirror.Stated.{PairTable, stated_by, newest_of, AreLinked};

    ghost Value = { PairTable };

    ghost view = { λ p. record {
      stated = record { pairs = map stated_by p.spans.items; wide = p.wide.items };
      room = min (min (vec_capacity p.spans - vec_len p.spans) (spare p.newest))
          (4294967295 - vec_len p.spans);
    } };

    ghost invariant = { λ p. AreLinked p.spans.items (newest_of p.near.items p.newest) };
}

impl Pairs {
    /// No pairs, whose hashes begin from the seed. It takes no memory.
    pub(crate) fn new(alloc: Global, seed: Seed) -> Pairs
        ensures { result.stated ≡ record { pairs = []; wide = [] } }
    {
        Pairs {
            spans: Vec::new(alloc),
            near: Vec::new(alloc),
            newest: IndexMap::with_hasher(alloc, seed),
            wide: Vec::new(alloc),
        }
    }

    /// Makes room for more spans, whose numbers are of 32 bits.
    pub(crate) fn reserve(&mut self, more: usize) -> Result<(), AllocError>
        ensures stated { self.new.stated ≡ self.old.stated }
        ensures room { OnOk result (more ≤ self.new.room) }
    {
        reserve_numbered(&mut self.spans, more)?;
        self.newest.reserve(more)
    }

    /// Makes the table of pairs of two numbers below 256, where there is no pair yet, and memory
    /// for it. Where it isn't made they are found by their hash.
    pub(crate) fn prepare(&mut self)
        ensures { self.new ≡ self.old }
    {
        if self.spans.len() == 0 && self.near.len() == 0 {
            let _ = self.near.resize(NEAR_PAIRS, None);
        }
    }

    /// The index of the latest `$d` before an index that states a pair.
    pub(crate) fn latest(&self, pair: (u32, u32), before: usize) -> Option<usize>
        ensures { IsLatestStated self.now.stated.pairs pair before result }
    {
        latest_from(
            &self.spans,
            newest_of(&self.near, &self.newest, pair),
            before,
        )
    }

    /// Takes a pair of a `$d` in.
    pub(crate) fn add(&mut self, pair: (u32, u32), index: usize)
        requires room { 0 < self.old.room }
        requires index { index < 4294967296 }
        ensures stated { self.new.stated ≡ record {
          pairs = self.old.stated.pairs ++ record { pair = pair; index = index } ∷ [];
          wide = self.old.stated.wide;
        } }
        ensures room { self.old.room ≤ self.new.room + 1 }
    {
        let number = self.spans.len() as u32;
        let older = newest_of(&self.near, &self.newest, pair);
        let _ = self.spans.push(Span {
            pair,
            index: index as u32,
            older,
        });
        note_newest(&mut self.near, &mut self.newest, pair, number);
    }
    /// The `$d` of many variables, in their order.
    pub(crate) fn wide(&self) -> &[WideDistinct]
        ensures { result.now ≡ self.now.stated.wide }
    {
        &self.wide
    }

    /// Takes a `$d` of many variables in.
    pub(crate) fn widen(&mut self, wide: WideDistinct) -> Result<(), AllocError>
        ensures ok { OnOk result (self.new.stated ≡ record {
          pairs = self.old.stated.pairs;
          wide = self.old.stated.wide ++ wide ∷ [];
        }) }
        ensures err { OnErr result (self.new.stated ≡ self.old.stated) }
    {
        self.wide.push(wide)?;
        Ok(())
    }
}
