//! Taking a statement that breaks no rule into the lists: room is made first, so that nothing can
//! fail once something is written.

ghost use Rattle.std.specs.Prelude.{◌≡◌, ◌↔◌, ◌⊎◌, ℕ, suc, ◌+◌, ◌<◌, ◌≤◌, List, [], length, map};
ghost use Rattle.std.specs.Prelude.{slice_get, None, Some, IsTrue, IfOk, OnErr, OnOk};
ghost use Rattle.std.specs.Prelude.{vec_len, vec_capacity};
ghost use Rattle.mm_base.specs.declared.statement.Kind.TheVariants.{Opening, Closing};
ghost use Rattle.mm_base.specs.Statement.{plain_statement, HasForm, bytes_in};
ghost use Rattle.mm_base.specs.MostBytes.{most_bytes};
ghost use Rattle.mm_frame.specs.Sentence.{Sentence, sentence_in, IsHypothesis, IsAssertion, IsUse};
ghost use Rattle.mm_frame.specs.Numbers.{AreNumbers};
ghost use Rattle.mm_frame.specs.Active.{IsActive, open_marks, close_marks};
ghost use Rattle.mm_frame.specs.Rules.{IsMeant};
ghost use Rattle.mm_frame.specs.Taken.{TakenAs};
ghost use Rattle.mm_frame.specs.Mirror.Layout.{AreTables, statements_of};
ghost use Rattle.mm_frame.specs.Mirror.Sought.{HasNumbers};
ghost use Rattle.mm_frame.specs.Mirror.Grows.{Grows, IsSame, SameLists, HaveRoom, Entered};
ghost use Rattle.mm_frame.specs.Mirror.ScopesOf.{HaveScopes, CanTake, HasRoom};
ghost use Rattle.mm_frame.specs.Mirror.Forgotten.{AreForgotten};
ghost use Rattle.mm_frame.specs.declared.scopes.TheConstants.{NEVER};
ghost use Rattle.mm_frame.specs.Form.{IsFormedSentence};
ghost use Rattle.mm_frame.specs.declared.answer.Taken.TheVariants.{Opened, Closed};

use crate::answer::Taken;
use crate::framing::FrameLists;
use crate::lists::put;
use crate::number::{LabelId, Sym};
use crate::part::Part;
use crate::scopes::Scopes;
use crate::tables::{Entry, Tables};
use mm_base::{Kind, Statement};
use std::alloc::AllocError;

impl<'a> Tables<'a> {
    // Makes room for a statement of so many symbols, and for its label. A database has no more
    // statements and symbols than bytes, so their indices are numbers of 32 bits.
    pub(crate) fn reserve(&mut self, symbols: usize) -> Result<(), AllocError>
        requires { length self.old.log.items + length self.old.flat.items + symbols < 4294967296 }
        ensures same { SameLists self.old self.new }
        ensures room { OnOk result (HaveRoom self.new symbols) }
    {
        self.log.reserve(1)?;
        self.flat.reserve(symbols)?;
        self.essentials.reserve(1)?;
        self.named.reserve(1)?;
        self.labels.reserve(1)?;
        self.scopes.reserve()
    }

    // Writes the entry of a statement whose symbols stand at the end of the list of symbols.
    pub(crate) fn enter(&mut self, kind: Kind, label: Option<LabelId>, start: u32, bytes: u64)
        requires room { HasRoom self.old.scopes }
        requires scopes { CanTake kind self.old.scopes }
        requires symbols { length self.old.flat.items < 4294967296 }
        requires log { vec_len self.old.log < vec_capacity self.old.log }
        requires few { self.old.bytes + bytes ≤ most_bytes }
        ensures { Entered self.old self.new kind label start bytes }
    {
        let symbols = Part {
            start,
            end: self.flat.len() as u32,
        };
        self.scopes.push(kind);
        put(
            &mut self.log,
            Entry {
                kind,
                label,
                symbols,
            },
        );
        self.bytes += bytes;
    }

    // Takes a `${` in.
    fn open(&mut self, bytes: u64) -> Result<Taken, AllocError>
        requires tables { AreTables self.old }
        requires room { self.old.bytes + bytes ≤ most_bytes }
        requires some { 1 ≤ bytes }
        ensures ok { IfOk result (λ taken. (taken ≡ Opened) × ((s : Sentence)
            → s.kind ≡ Opening → s.label ≡ None → s.symbols ≡ []
            → IsMeant (statements_of self.old) s → IsFormedSentence s
            → Grows self.old self.new s bytes)) }
        ensures err { OnErr result (IsSame self.old self.new) }
    {
        self.reserve(0)?;
        let start = self.flat.len() as u32;
        self.enter(Kind::Opening, None, start, bytes);
        Ok(Taken::Opened)
    }

    // Takes a `$}` in: the active `$e` of its block aren't active any more.
    fn close(&mut self, bytes: u64) -> Result<Taken, AllocError>
        requires tables { AreTables self.old }
        requires closes { close_marks (statements_of self.old)
            < open_marks (statements_of self.old) }
        requires room { self.old.bytes + bytes ≤ most_bytes }
        requires some { 1 ≤ bytes }
        ensures ok { IfOk result (λ taken. (taken ≡ Closed) × ((s : Sentence)
            → s.kind ≡ Closing → s.label ≡ None → s.symbols ≡ []
            → IsMeant (statements_of self.old) s → IsFormedSentence s
            → Grows self.old self.new s bytes)) }
        ensures err { OnErr result (IsSame self.old self.new) }
    {
        self.reserve(0)?;
        let start = self.flat.len() as u32;
        self.enter(Kind::Closing, None, start, bytes);
        forget_inactive(&mut self.essentials, &self.scopes, self.log.len());
        Ok(Taken::Closed)
    }

    // Takes a labelled statement in.
    fn take_labelled(
        &mut self,
        kind: Kind,
        label: &'a [u8],
        numbers: &[Sym],
        lists: &mut FrameLists,
        bytes: u64,
    ) -> Result<Taken, AllocError>
        requires tables { AreTables self.old }
        requires kind { IsHypothesis kind ⊎ IsAssertion kind }
        requires meant { (s : Sentence) × (s.kind ≡ kind)
            × AreNumbers (statements_of self.old) (map (λ n. n.0) numbers.now) s.symbols
            × IsMeant (statements_of self.old) s }
        requires room { self.old.bytes + bytes ≤ most_bytes }
        requires enough { 1 + length numbers.now ≤ bytes }
        ensures ok { IfOk result (λ taken. TakenAs (statements_of self.old) kind taken
            × ((s : Sentence) → s.kind ≡ kind → s.label ≡ Some label.now
            → AreNumbers (statements_of self.old) (map (λ n. n.0) numbers.now) s.symbols
            → IsMeant (statements_of self.old) s → IsFormedSentence s
            → Grows self.old self.new s bytes)) }
        ensures err { OnErr result (IsSame self.old self.new) }
    {
        match kind {
            Kind::Floating => self.give_type(label, numbers, bytes),
            Kind::Essential => self.suppose(label, numbers, bytes),
            _ => self.assert(kind, label, numbers, lists, bytes),
        }
    }

    // Takes a statement in that uses symbols.
    fn take_use(
        &mut self,
        statement: &Statement<'a>,
        numbers: &[Sym],
        lists: &mut FrameLists,
        bytes: u64,
    ) -> Result<Taken, AllocError>
        requires tables { AreTables self.old }
        requires numbers { HasNumbers
            (statements_of self.old) (map (λ n. n.0) numbers.now) (sentence_in statement.now) }
        requires kind { IsUse statement.now.kind }
        requires meant { IsMeant (statements_of self.old) (sentence_in statement.now) }
        requires formed { HasForm (plain_statement statement.now) }
        requires counted { bytes ≡ bytes_in (plain_statement statement.now) }
        requires room { self.old.bytes + bytes ≤ most_bytes }
        ensures ok { IfOk result (λ taken. Grows self.old self.new (sentence_in statement.now) bytes
            × TakenAs (statements_of self.old) statement.now.kind taken) }
        ensures err { OnErr result (IsSame self.old self.new) }
    {
        match &statement.label {
            Some(label) => self.take_labelled(statement.kind, label.text, numbers, lists, bytes),
            None => self.separate_all(numbers, bytes),
        }
    }

    /// Takes a statement in that breaks no rule, whose symbols have these numbers where it uses
    /// some, and whose tokens have so many bytes. What the lists hold is of no meaning.
    pub(crate) fn grow(
        &mut self,
        statement: &Statement<'a>,
        numbers: &[Sym],
        lists: &mut FrameLists,
        bytes: u64,
    ) -> Result<Taken, AllocError>
        requires tables { AreTables self.old }
        requires numbers { HasNumbers
            (statements_of self.old) (map (λ n. n.0) numbers.now) (sentence_in statement.now) }
        requires meant { IsMeant (statements_of self.old) (sentence_in statement.now) }
        requires formed { HasForm (plain_statement statement.now) }
        requires closes { statement.now.kind ≡ Closing
            → close_marks (statements_of self.old) < open_marks (statements_of self.old) }
        requires counted { bytes ≡ bytes_in (plain_statement statement.now) }
        requires room { self.old.bytes + bytes ≤ most_bytes }
        ensures ok { IfOk result (λ taken. Grows self.old self.new (sentence_in statement.now) bytes
            × TakenAs (statements_of self.old) statement.now.kind taken) }
        ensures err { OnErr result (IsSame self.old self.new) }
    {
        match statement.kind {
            Kind::Opening => self.open(bytes),
            Kind::Closing => self.close(bytes),
            Kind::Constants | Kind::Variables => self.declare_all(statement, bytes),
            _ => self.take_use(statement, numbers, lists, bytes),
        }
    }
}

// Whether the last of some indices is active, if there is one.
fn is_last_active(indices: &[usize], scopes: &Scopes, at: usize) -> bool
    requires scopes { (statements : List Sentence) × HaveScopes statements scopes.now }
    requires all { at ≡ length scopes.now.blocks.items }
    requires within { (i p : ℕ) → slice_get indices.now i ≡ Some p → p < at }
    ensures { (statements : List Sentence) (k p : ℕ) → HaveScopes statements scopes.now
        → length statements ≤ NEVER → length indices.now ≡ suc k
        → slice_get indices.now k ≡ Some p → (IsTrue result ↔ IsActive statements p) }
{
    match indices.last() {
        Some(index) => scopes.is_active(*index, at),
        None => true,
    }
}

// Drops the indices at the end of their list that aren't active.
fn forget_inactive(indices: &mut Vec<usize>, scopes: &Scopes, at: usize)
    requires scopes { (statements : List Sentence) × HaveScopes statements scopes.now }
    requires all { at ≡ length scopes.now.blocks.items }
    requires within { (i p : ℕ) → slice_get indices.old.items i ≡ Some p → p < at }
    ensures { (statements : List Sentence) → HaveScopes statements scopes.now
        → length statements ≤ NEVER
        → AreForgotten statements indices.old.items indices.new.items }
{
    for _ in 0..indices.len() {
        if is_last_active(indices, scopes, at) {
            return;
        }
        let _ = indices.pop();
    }
}
