//! The proofs that a search makes shorter, as lines.

ghost use Rattle.std.specs.Prelude.{◌≡◌, ◌+◌, ◌++◌, ◌<◌, ◌^◌, List, [], length, map};
ghost use Rattle.std.specs.Prelude.{◌-◌, None, IfOk, IfErr, IfSome, MatchOption, OnOk};
ghost use Rattle.std.specs.List.{AllByRecursion};
ghost use Rattle.mm_base.specs.Statement.{PlainStatement, plain_statement, HasForm};
ghost use Rattle.mm_text.specs.Reading.{Reads};
ghost use Rattle.mm_rules.specs.declared.ask.AskFault.TheVariants.{Memory};
ghost use Rattle.mm_minimize.specs.AllShorter.{AreShorterLines, ShorterLine, shorter_text};
ghost use Rattle.mm_minimize.specs.AllShorter.{mark_text, shorter_line_text, sizes_text, sums_text};
ghost use Rattle.mm_rules.specs.Answer.{KeepsLabels};
ghost use Rattle.mm_minimize.specs.Mirror.AllShortening.{AddsSizes, AreSums, IsAllListed, PutsLine};
ghost use Rattle.mm_minimize.specs.Mirror.AllShortening.{IsListedSoFar, ListsNext, MayBeListed};
ghost use Rattle.mm_minimize.specs.Mirror.AllShortening.{line_of, plain_size};
ghost use Rattle.mm_verdict.specs.Mirror.Rereading.{IsTheoremIn};
ghost use Rattle.mm_minimize.specs.Mirror.Shortening.{KnowsDatabase};

use crate::proof_pair::{Compared, shorter_proof};
use crate::search::Search;
use crate::shortening::Shortening;
use crate::sizes::Sizes;
use mm_axioms::push_marked;
use mm_base::Statement;
use mm_frame::LabelId;
use mm_rules::{AskFault, push_decimal, push_number};
use mm_save::label_of;
use mm_verdict::{Checked, Rereading, Watch};
use std::alloc::{AllocError, Global};

/// How many proofs become shorter, and by how much.
#[derive(Clone, Copy)]
pub(crate) struct Sums {
    proofs: usize,
    own: Sizes,
    new: Sizes,
}

/// The lines so far, and the sums over them.
#[derive(Drop)]
pub struct Listing {
    text: Vec<u8>,
    sums: Sums,
}

impl Sums {
    /// The same, with one proof more.
    fn with(self, own: Sizes, new: Sizes) -> Sums
        requires { self.proofs < 2 ^ 62 }
        ensures { AddsSizes self (plain_size own) (plain_size new) result }
    {
        Sums {
            proofs: self.proofs + 1,
            own: self.own.plus(own),
            new: self.new.plus(new),
        }
    }

    /// How many bytes the shorter proofs have less than the own ones.
    fn saved(self) -> usize
        ensures { result ≡ self.own.bytes - self.new.bytes }
    {
        self.own.bytes.saturating_sub(self.new.bytes)
    }

    /// Appends the line of the sums.
    fn push(self, out: &mut Vec<u8>) -> Result<(), AllocError>
        ensures { OnOk result ((lines : List ShorterLine) → AreSums lines self
            → out.new.items ≡ out.old.items ++ sums_text lines) }
    {
        push_decimal(out, self.proofs)?;
        out.extend_from_slice(b" proofs")?;
        push_sizes(out, self.own, self.new)?;
        out.push(b'\n')?;
        Ok(())
    }
}

/// Appends the sizes before and after.
fn push_sizes(out: &mut Vec<u8>, own: Sizes, new: Sizes) -> Result<(), AllocError>
    ensures { OnOk result (out.new.items
        ≡ out.old.items ++ sizes_text (plain_size own) (plain_size new)) }
{
    push_number(out, own.bytes)?;
    push_number(out, new.bytes)?;
    push_number(out, own.steps)?;
    push_number(out, new.steps)
}

/// Appends the mark of a duplicate, if it is one.
fn push_mark(out: &mut Vec<u8>, is_duplicate: bool) -> Result<(), AllocError>
    ensures { OnOk result (out.new.items ≡ out.old.items ++ mark_text is_duplicate) }
{
    if is_duplicate {
        out.extend_from_slice(b"duplicate: ")
    } else {
        Ok(())
    }
}

/// Appends the line of the theorem with a label, whose shorter proof newly uses these.
#[tactic(auto, using(crate::proofs::ShorterTheorems::ShorterLists::line_text))]
fn push_line(
    out: &mut Vec<u8>,
    checked: &Checked,
    label: &[u8],
    both: &Compared,
    newly: &[LabelId],
) -> Result<(), AllocError>
    requires { AllByRecursion (λ n. n < length checked.now.labels) (map (λ id. id.0) newly.now) }
    ensures { OnOk result (out.new.items ≡ out.old.items
        ++ shorter_line_text checked.now.labels
        (line_of label.now both.now (map (λ id. id.0) newly.now))) }
{
    push_mark(out, both.new.is_duplicate)?;
    out.extend_from_slice(label)?;
    push_sizes(out, Sizes::of(&both.own), Sizes::of(&both.new.proof))?;
    push_marked(out, checked, b"", newly)?;
    out.push(b'\n')?;
    Ok(())
}

impl Listing {
    /// Appends the line of the theorem with a label, which has this shorter proof.
    fn push(
        &mut self,
        alloc: Global,
        shortening: &Shortening,
        label: &[u8],
        both: &Compared,
    ) -> Result<(), AllocError>
        requires may { MayBeListed shortening.now.checked.now both.now }
        requires few { self.old.sums.proofs < 2 ^ 62 }
        ensures { OnOk result (PutsLine shortening.now.checked.now label.now both.now self.old
            self.new) }
    {
        let checked = shortening.checked;
        let new = &both.new;
        let newly = shortening.newly_used(alloc, new.theorem.id, new.used.ids())?;
        push_line(&mut self.text, checked, label, both, &newly)?;
        self.sums = self.sums.with(Sizes::of(&both.own), Sizes::of(&new.proof));
        Ok(())
    }

    /// Appends the line of the theorem with a label, if a shorter proof of it was found.
    fn tell(
        &mut self,
        alloc: Global,
        shortening: &Shortening,
        label: &[u8],
        found: &Option<Compared>,
    ) -> Result<(), AllocError>
        requires may { IfSome found.now (MayBeListed shortening.now.checked.now) }
        requires few { self.old.sums.proofs < 2 ^ 62 }
        ensures { OnOk result (MatchOption found.now (self.new ≡ self.old)
            (λ both. PutsLine shortening.now.checked.now label.now both self.old self.new)) }
    {
        match found {
            Some(both) => self.push(alloc, shortening, label, both),
            None => Ok(()),
        }
    }
}

/// Lists the theorem with a number, whose statement this is, as it was read again, if its proof
/// becomes shorter.
fn list_theorem<'a, S: Search>(
    list: &mut Listing,
    alloc: Global,
    shortening: &Shortening<'_, 'a>,
    statement: &Statement<'a>,
    id: LabelId,
    search: &mut S,
) -> Result<(), AskFault>
    requires theorem { IsTheoremIn shortening.now.checked.now.files id.0
        (plain_statement statement.now) }
    requires formed { HasForm (plain_statement statement.now) }
    requires known { KnowsDatabase shortening.now }
    requires labels { KeepsLabels shortening.now.checked.now.files shortening.now.checked.now }
    requires few { list.old.sums.proofs < 2 ^ 62 }
    ensures listed { OnOk result (ListsNext shortening.now.checked.now id.0 list.old list.new) }
    ensures memory { IfErr result (λ fault. fault ≡ Memory) }
    ensures whole { S.is_whole search.old → OnOk result (S.is_whole search.new) }
{
    let found = shorter_proof(alloc, shortening, statement, id, search)?;
    list.tell(alloc, shortening, label_of(statement), &found)?;
    Ok(())
}

/// Lists each theorem, and tells after each how far this has come.
fn list_all<'a, S: Search, W: Watch>(
    list: &mut Listing,
    alloc: Global,
    shortening: &Shortening<'_, 'a>,
    search: &mut S,
    watch: &mut W,
) -> Result<(), AskFault>
    requires known { KnowsDatabase shortening.now }
    requires begun { IsListedSoFar shortening.now.checked.now [] list.old }
    requires labels { KeepsLabels shortening.now.checked.now.files shortening.now.checked.now }
    ensures listed { OnOk result (IsAllListed shortening.now.checked.now list.new) }
    ensures memory { IfErr result (λ fault. fault ≡ Memory) }
    ensures whole { S.is_whole search.old → OnOk result (S.is_whole search.new) }
{
    let mut reading = Rereading::new(alloc, shortening.checked)?;
    while let Some(id) = reading.next_theorem(shortening.checked)? {
        list_theorem(list, alloc, shortening, &reading.statement, id, search)?;
        watch.told(reading.so_far(shortening.checked, list.sums.saved()));
    }
    Ok(())
}

/// A line for each theorem whose proof a search makes shorter, in database order, and their sums.
pub(crate) fn shorter_list<'a, S: Search, W: Watch>(
    alloc: Global,
    shortening: &Shortening<'_, 'a>,
    search: &mut S,
    watch: &mut W,
) -> Result<Vec<u8>, AskFault>
    requires known { KnowsDatabase shortening.now }
    requires labels { KeepsLabels shortening.now.checked.now.files shortening.now.checked.now }
    ensures list { IfOk result (λ text. (statements : List PlainStatement)
        → Reads shortening.now.checked.now.files statements None
        → (lines : List ShorterLine)
        × AreShorterLines shortening.now.checked.now.profile shortening.now.checked.now.files
        statements lines
        × (text.items ≡ shorter_text statements lines)) }
    ensures memory { IfErr result (λ fault. fault ≡ Memory) }
    ensures whole { S.is_whole search.old → OnOk result (S.is_whole search.new) }
{
    let none = Sizes { bytes: 0, steps: 0 };
    let mut list = Listing {
        text: Vec::new(alloc),
        sums: Sums {
            proofs: 0,
            own: none,
            new: none,
        },
    };
    list_all(&mut list, alloc, shortening, search, watch)?;
    let Listing { mut text, sums } = list;
    sums.push(&mut text)?;
    Ok(text)
}
