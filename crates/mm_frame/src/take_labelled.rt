//! Taking a statement with a label into the lists.

ghost use Rattle.std.specs.Prelude.{◌≡◌, ◌+◌, ◌<◌, ◌≤◌, [], ◌∷◌, ◌++◌, Some, IfOk, OnErr};
ghost use Rattle.std.specs.Prelude.{length, map, set, slice_get, vec_len, vec_capacity};
ghost use Rattle.mm_base.specs.declared.statement.Kind.TheVariants.{Floating, Essential};
ghost use Rattle.mm_base.specs.MostBytes.{most_bytes};
ghost use Rattle.mm_frame.specs.declared.tables.SymbolInfo.{SymbolInfo};
ghost use Rattle.mm_frame.specs.Sentence.{Sentence, IsAssertion};
ghost use Rattle.mm_frame.specs.Rules.{IsMeant};
ghost use Rattle.mm_frame.specs.Form.{IsFormedSentence};
ghost use Rattle.mm_frame.specs.Numbers.{AreNumbers};
ghost use Rattle.mm_frame.specs.Taken.{TakenAs};
ghost use Rattle.mm_frame.specs.Mirror.Layout.{AreTables, statements_of};
ghost use Rattle.mm_frame.specs.Mirror.Grows.{Grows, IsSame};
ghost use Rattle.mm_frame.specs.Mirror.ScopesOf.{CanTake};
ghost use Rattle.mm_frame.specs.Mirror.Naming.{Named, HaveNameRoom, part_after};

use crate::answer::Taken;
use crate::distinct::find_indices;
use crate::framing::{FrameLists, find_hypotheses, find_mandatory, find_pairs};
use crate::lists::{at, put, reserve_numbered};
use crate::number::{LabelId, Sym};
use crate::part::{NO_PART, Part};
use crate::pattern::add_patterns;
use crate::tables::{LabelInfo, SymbolInfo, Tables};
use mm_base::Kind;
use std::alloc::AllocError;

// What a hypothesis has of a frame.
const NO_FRAME: (Part, Part, Part) = (NO_PART, NO_PART, NO_PART);

// Adds elements to the end of a list that has room, and says where they stand.
fn add_part<T: Copy + Drop>(list: &mut Vec<T>, more: &[T]) -> Part
    requires room { vec_len list.old + length more.now ≤ vec_capacity list.old }
    requires few { length list.old.items + length more.now < 4294967296 }
    ensures items { list.new.items ≡ list.old.items ++ more.now }
    ensures part { result ≡ part_after list.old.items more.now }
{
    let start = list.len() as u32;
    let _ = list.extend_from_slice(more);
    Part {
        start,
        end: list.len() as u32,
    }
}

// Notes the index of a variable's latest `$f`.
fn note_floating(infos: &mut Vec<SymbolInfo>, variable: Sym, index: u32)
    ensures { (info : SymbolInfo) → slice_get infos.old.items variable.0 ≡ Some info
        → infos.new.items ≡ set infos.old.items variable.0 (record info { floating = Some index }) }
{
    if let Some(info) = infos.get_mut(variable.0 as usize) {
        info.floating = Some(index);
    }
}

impl<'a> Tables<'a> {
    // Writes a label's entry, and the entry of its statement.
    fn name(
        &mut self,
        kind: Kind,
        label: &'a [u8],
        numbers: &[Sym],
        frame: (Part, Part, Part),
        bytes: u64,
    ) -> LabelId
        requires room { HaveNameRoom self.old (length numbers.now) }
        requires scopes { CanTake kind self.old.scopes }
        requires labels { length self.old.labels.names + 1 < 4294967296 }
        requires few { self.old.bytes + bytes ≤ most_bytes }
        ensures id { result.0 ≡ length self.old.labels.names }
        ensures named { Named self.old self.new kind label.now numbers.now frame result bytes }
    {
        let id = LabelId(self.labels.len() as u32);
        let index = self.log.len() as u32;
        let start = self.flat.len() as u32;
        let _ = self.flat.extend_from_slice(numbers);
        let symbols = Part {
            start,
            end: self.flat.len() as u32,
        };
        self.labels.add(label);
        put(
            &mut self.named,
            LabelInfo {
                index,
                kind,
                symbols,
                hypotheses: frame.0,
                pairs: frame.1,
                conclusion: frame.2,
            },
        );
        self.enter(kind, Some(id), start, bytes);
        id
    }

    /// Takes a `$f` in.
    pub(crate) fn give_type(
        &mut self,
        label: &'a [u8],
        numbers: &[Sym],
        bytes: u64,
    ) -> Result<Taken, AllocError>
        requires tables { AreTables self.old }
        requires room { self.old.bytes + bytes ≤ most_bytes }
        requires enough { 1 + length numbers.now ≤ bytes }
        ensures ok { IfOk result (λ taken. TakenAs (statements_of self.old) Floating taken
            × ((s : Sentence) → s.kind ≡ Floating → s.label ≡ Some label.now
            → AreNumbers (statements_of self.old) (map (λ n. n.0) numbers.now) s.symbols
            → IsMeant (statements_of self.old) s → IsFormedSentence s
            → Grows self.old self.new s bytes)) }
        ensures err { OnErr result (IsSame self.old self.new) }
    {
        self.reserve(numbers.len())?;
        match at(numbers, 1) {
            Some(variable) => note_floating(&mut self.infos, variable, self.log.len() as u32),
            None => {}
        }
        let id = self.name(Kind::Floating, label, numbers, NO_FRAME, bytes);
        Ok(Taken::Hypothesis(id))
    }

    /// Takes a `$e` in.
    pub(crate) fn suppose(
        &mut self,
        label: &'a [u8],
        numbers: &[Sym],
        bytes: u64,
    ) -> Result<Taken, AllocError>
        requires tables { AreTables self.old }
        requires room { self.old.bytes + bytes ≤ most_bytes }
        requires enough { 1 + length numbers.now ≤ bytes }
        ensures ok { IfOk result (λ taken. TakenAs (statements_of self.old) Essential taken
            × ((s : Sentence) → s.kind ≡ Essential → s.label ≡ Some label.now
            → AreNumbers (statements_of self.old) (map (λ n. n.0) numbers.now) s.symbols
            → IsMeant (statements_of self.old) s → IsFormedSentence s
            → Grows self.old self.new s bytes)) }
        ensures err { OnErr result (IsSame self.old self.new) }
    {
        self.reserve(numbers.len())?;
        put(&mut self.essentials, self.log.len());
        let id = self.name(Kind::Essential, label, numbers, NO_FRAME, bytes);
        Ok(Taken::Hypothesis(id))
    }

    /// Takes a `$a` or `$p` in, with its frame.
    pub(crate) fn assert(
        &mut self,
        kind: Kind,
        label: &'a [u8],
        numbers: &[Sym],
        lists: &mut FrameLists,
        bytes: u64,
    ) -> Result<Taken, AllocError>
        requires tables { AreTables self.old }
        requires kind { IsAssertion kind }
        requires meant { (s : Sentence) × (s.kind ≡ kind)
            × AreNumbers (statements_of self.old) (map (λ n. n.0) numbers.now) s.symbols
            × IsMeant (statements_of self.old) s }
        requires room { self.old.bytes + bytes ≤ most_bytes }
        requires enough { 1 + length numbers.now ≤ bytes }
        ensures ok { IfOk result (λ taken. TakenAs (statements_of self.old) kind taken
            × ((s : Sentence) → s.kind ≡ kind → s.label ≡ Some label.now
            → AreNumbers (statements_of self.old) (map (λ n. n.0) numbers.now) s.symbols
            → IsMeant (statements_of self.old) s → IsFormedSentence s
            → Grows self.old self.new s bytes)) }
        ensures err { OnErr result (IsSame self.old self.new) }
    {
        find_mandatory(self, numbers, &mut lists.indices)?;
        find_hypotheses(self, &lists.indices, &mut lists.hypotheses)?;
        lists.noted.note(&lists.hypotheses)?;
        find_pairs(self, &lists.indices, &mut lists.variables, &mut lists.pairs)?;
        find_indices(
            &lists.hypotheses,
            &lists.noted,
            &lists.pairs,
            &mut lists.indexed,
        )?;
        self.reserve(numbers.len())?;
        reserve_numbered(&mut self.hypotheses, lists.hypotheses.len())?;
        reserve_numbered(&mut self.pairs, lists.indexed.len())?;
        let conclusion = add_patterns(
            &mut self.pieces,
            &mut lists.hypotheses,
            &lists.noted,
            &lists.indices,
            &self.log,
            &self.flat,
            numbers,
        )?;
        let hypotheses = add_part(&mut self.hypotheses, &lists.hypotheses);
        let pairs = add_part(&mut self.pairs, &lists.indexed);
        let frame = (hypotheses, pairs, conclusion);
        let id = self.name(kind, label, numbers, frame, bytes);
        Ok(Taken::Assertion(id))
    }
}
