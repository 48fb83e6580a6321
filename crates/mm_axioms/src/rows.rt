//! For each theorem, which of the given assertions it depends on, as rows of bits.

ghost use Rattle.std.specs.Prelude.{◌≡◌, ◌↔◌, ◌⊎◌, ◌<◌, ◌≤◌, ◌+◌, ◌*◌, ◌/◌, ◌++◌, [], ℕ, map};
ghost use Rattle.std.specs.Prelude.{length, Contains, true, IfOk, OnOk, Some, slice_get, replicate};
ghost use Rattle.std.specs.Prelude.{List, IsTrue, ◌^◌};
ghost use Rattle.std.specs.Option.{option_to_list};
ghost use Rattle.mm_rules.specs.Rests.{AreRising, AreInOrder};
ghost use Rattle.mm_axioms.specs.Mirror.Bits.{IsRow, has_bit as has_bit_at, words_from};
ghost use Rattle.mm_axioms.specs.Mirror.Bits.{has_number as has_number_in};
ghost use Rattle.mm_axioms.specs.Mirror.Rows.{IsRowPut, IsPadded, ReachedBefore, Reaches};
ghost use Rattle.mm_axioms.specs.Mirror.Rows.{AreNarrow, row_in};
ghost use Rattle.mm_axioms.specs.declared.bits.SetWord.{SetWord as PlainWord};
ghost use Rattle.mm_rules.specs.Conclusion.{ProofUses};
ghost use Rattle.mm_rules.specs.Mirror.Marks.{AreBackward};
ghost use Rattle.mm_axioms.specs.Mirror.Shortening.{RestsNoFurther};
ghost use Rattle.mm_axioms.specs.Mirror.Tables.{TellRests, AreReached};

use crate::bits::{SetWord, WORD_BITS, has_bit, has_number, index_of, is_within};
use crate::scratch::Scratch;
use mm_frame::LabelId;
use mm_rules::Kept;
use std::alloc::{AllocError, Global};
use std::marker::Model;

/// Sets of indices: by the number of each theorem, the indices of the assertions that it rests on.
///
/// A row has those of its words that aren't 0. All rows stand in one list, in their order, and the
/// bounds of each are two that follow each other. Behind the last row that isn't empty there is
/// no bound. So there are 16 bytes for each word, and 8 for each label.
#[derive(Drop)]
pub(crate) struct Rows {
    words: Vec<SetWord>,
    bounds: Vec<usize>,
}

impl Model for Rows {
    ghost use Rattle.mm_axioms.specs.Mirror.Rows.{PlainRows, AreBounds};

    ghost Value = { PlainRows };

    ghost view = { λ r. record { words = r.words.items; bounds = r.bounds.items } };

    ghost invariant = { λ r. AreBounds r.words.items r.bounds.items };
}

/// Appends a bound, up to so many bounds.
fn pad(bounds: &mut Vec<usize>, count: usize, bound: usize) -> Result<(), AllocError>
    requires { length bounds.old.items ≤ count }
    ensures { OnOk result (IsPadded bounds.old.items bounds.new.items count bound) }
{
    for _ in bounds.len()..count {
        bounds.push(bound)?;
    }
    Ok(())
}

impl Rows {
    fn new(alloc: Global) -> Result<Rows, AllocError>
        ensures count { IfOk result (λ rows. length rows.bounds ≤ 1) }
        ensures empty { IfOk result (λ rows. (n : ℕ) → row_in rows n ≡ []) }
    {
        let mut bounds = Vec::new(alloc);
        bounds.push(0)?;
        Ok(Rows {
            words: Vec::new(alloc),
            bounds,
        })
    }

    /// The row of a number; an empty one where it has none.
    pub(crate) fn row(&self, number: LabelId) -> &[SetWord]
        ensures row { result.now ≡ row_in self.now number.0 }
        ensures words { IsRow result.now }
    {
        let at = number.0 as usize;
        match self.bounds.get(at + 1) {
            Some(end) => &self.words[self.bounds[at]..*end],
            None => &[],
        }
    }

    /// With the row of one more number, which is given by a set. The set is emptied.
    fn with_row(self, number: LabelId, set: &mut Scratch) -> Result<Rows, AllocError>
        requires { length self.bounds ≤ number.0 + 1 }
        ensures put { IfOk result (λ rows. IsRowPut self number.0 (words_from 0 set.old) rows) }
        ensures emptied { OnOk result (set.new ≡ replicate (length set.old) 0) }
    {
        let Rows {
            mut words,
            mut bounds,
        } = self;
        let start = words.len();
        set.drain(&mut words)?;
        if start < words.len() {
            pad(&mut bounds, number.0 as usize + 1, start)?;
            bounds.push(words.len())?;
        }
        Ok(Rows { words, bounds })
    }
}

/// Adds the index of a number to a set, if it is one of these.
fn enter_index(set: &mut Scratch, numbers: &[LabelId], number: LabelId)
    requires rising { AreRising (map (λ l. l.0) numbers.now) }
    requires width { length numbers.now / 64 < length set.old }
    ensures length { length set.new ≡ length set.old }
    ensures entered { (c : ℕ) → has_bit_at set.new c ≡ true
        ↔ ((has_bit_at set.old c ≡ true) ⊎ (slice_get (map (λ l. l.0) numbers.now) c
        ≡ Some number.0)) }
{
    match index_of(numbers, number) {
        Some(at) => set.put(SetWord {
            index: at / WORD_BITS,
            bits: 1 << (at % WORD_BITS) as u32,
        }),
        None => {}
    }
}

/// Adds what a number reaches to a set: its index, if it is one of these, and what its row holds.
fn enter(set: &mut Scratch, rows: &Rows, numbers: &[LabelId], number: LabelId)
    requires rising { AreRising (map (λ l. l.0) numbers.now) }
    requires width { length numbers.now / 64 < length set.old }
    requires narrow { AreNarrow rows.now (length numbers.now) }
    ensures length { length set.new ≡ length set.old }
    ensures entered { (c : ℕ) → has_bit_at set.new c ≡ true
        ↔ ((has_bit_at set.old c ≡ true) ⊎ ((slice_get (map (λ l. l.0) numbers.now) c
        ≡ Some number.0) ⊎ (has_number_in (row_in rows.now number.0) c ≡ true))) }
{
    enter_index(set, numbers, number);
    set.join(rows.row(number));
}

/// Puts into an empty set what a proof with these uses reaches: those of some assertions that it
/// uses, and those that the theorems depend on that it uses.
fn fill(set: &mut Scratch, rows: &Rows, numbers: &[LabelId], used: &[LabelId])
    requires rising { AreRising (map (λ l. l.0) numbers.now) }
    requires empty { set.old ≡ replicate (length numbers.now / 64 + 1) 0 }
    requires narrow { AreNarrow rows.now (length numbers.now) }
    ensures length { length set.new ≡ length set.old }
    ensures reached { (c : ℕ) → has_bit_at set.new c ≡ true
        ↔ Reaches rows.now (map (λ l. l.0) numbers.now) (map (λ l. l.0) used.now) c }
{
    for number in used {
        enter(set, rows, numbers, *number);
    }
}

/// For each theorem, by its number, the indices of those of some assertions that it depends on.
///
/// Each proof uses earlier assertions alone, so what it reaches is given by the rows before it.
/// For each proof that takes a look at the words of the rows that it uses, at 64 words for each
/// word of its own row at most, and at a mark for each 4096 of the assertions.
pub(crate) fn rows_of(alloc: Global, kept: &Kept, numbers: &[LabelId]) -> Result<Rows, AllocError>
    requires backward { AreBackward kept.now }
    requires rising { AreRising (map (λ l. l.0) numbers.now) }
    ensures { IfOk result (λ rows. TellRests kept.now (map (λ l. l.0) numbers.now) rows) }
{
    let mut rows = Rows::new(alloc)?;
    let mut set = Scratch::new(alloc, numbers.len())?;
    for at in 0..kept.len() {
        fill(&mut set, &rows, numbers, kept.used(at));
        rows = rows.with_row(kept.proof(at), &mut set)?;
    }
    Ok(rows)
}

/// Appends the number at an index to a list, if there is one.
fn push_at(out: &mut Vec<LabelId>, numbers: &[LabelId], at: usize) -> Result<(), AllocError>
    ensures { OnOk result (out.new.items
        ≡ out.old.items ++ option_to_list (slice_get numbers.now at)) }
{
    match numbers.get(at) {
        Some(number) => out.push(*number)?,
        None => {}
    }
    Ok(())
}

/// Appends those of these numbers to a list whose indices a word tells, in their order.
fn push_told(out: &mut Vec<LabelId>, numbers: &[LabelId], word: SetWord) -> Result<(), AllocError>
    requires rising { AreRising (map (λ l. l.0) numbers.now) }
    requires narrow { word.index < 2 ^ 58 }
    ensures { OnOk result ((row : List PlainWord) → IsRow row → Contains row word
        → AreInOrder (ReachedBefore (map (λ l. l.0) numbers.now) row (word.index * 64))
        (map (λ l. l.0) out.old.items)
        → AreInOrder (ReachedBefore (map (λ l. l.0) numbers.now) row ((word.index + 1) * 64))
        (map (λ l. l.0) out.new.items)) }
{
    for bit in 0..WORD_BITS {
        let at = word.index * WORD_BITS + bit;
        if has_bit(word, at) {
            push_at(out, numbers, at)?;
        }
    }
    Ok(())
}

/// Those of these numbers whose indices are in the row of a theorem, in their order.
pub fn reached(
    alloc: Global,
    numbers: &[LabelId],
    rows: &Rows,
    theorem: LabelId,
) -> Result<Vec<LabelId>, AllocError>
    requires { AreRising (map (λ l. l.0) numbers.now) }
    ensures { IfOk result (λ ids. AreReached (map (λ l. l.0) numbers.now) rows.now theorem.0
        (map (λ l. l.0) ids.items)) }
{
    let mut reached = Vec::new(alloc);
    for word in rows.row(theorem) {
        push_told(&mut reached, numbers, *word)?;
    }
    Ok(reached)
}

/// Whether the index of a number is in a set, if it is one of these.
fn is_entered(numbers: &[LabelId], row: &[SetWord], number: LabelId) -> bool
    requires { AreRising (map (λ l. l.0) numbers.now) }
    ensures { IsTrue result ↔ ((c : ℕ) → slice_get (map (λ l. l.0) numbers.now) c ≡ Some number.0
        → has_number_in row.now c ≡ true) }
{
    match index_of(numbers, number) {
        Some(at) => has_number(row, at),
        None => true,
    }
}

/// Whether a theorem depends on each of these numbers that an assertion is or depends on.
pub(crate) fn rests_no_further(
    numbers: &[LabelId],
    rows: &Rows,
    theorem: LabelId,
    used: LabelId,
) -> bool
    requires { AreRising (map (λ l. l.0) numbers.now) }
    ensures { (uses : List ProofUses) → TellRests uses (map (λ l. l.0) numbers.now) rows.now
        → IsTrue result
        ↔ RestsNoFurther uses (map (λ l. l.0) numbers.now) theorem.0 used.0 }
{
    let row = rows.row(theorem);
    is_entered(numbers, row, used) && is_within(rows.row(used), row)
}
