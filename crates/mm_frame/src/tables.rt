//! The lists in which a book keeps its statements by numbers.

ghost use Rattle.std.specs.Prelude.{◌≡◌, ◌<◌, [], ◌∷◌, Some, map, slice_get, length};
ghost use Rattle.mm_frame.specs.declared.tables.Tables.{Tables};
ghost use Rattle.mm_frame.specs.Sentence.{Sentence};
ghost use Rattle.mm_frame.specs.Numbers.{AreNumbers};
ghost use Rattle.mm_frame.specs.Mirror.Layout.{AreTables, statements_of};

use crate::distinct::DistinctPair;
use crate::hypothesis::Hypothesis;
use crate::lists::at;
use crate::name_table::Names;
use crate::number::{LabelId, Sym};
use crate::pairs::Pairs;
use crate::part::{Part, part_of};
use crate::piece::ShortPiece;
use crate::scopes::Scopes;
use mm_base::{Kind, Seed};
use std::alloc::{AllocError, Global};

/// A statement.
#[derive(Clone, Copy)]
pub(crate) struct Entry {
    pub(crate) kind: Kind,
    pub(crate) label: Option<LabelId>,
    /// Where its symbols stand in the list of all symbols.
    pub(crate) symbols: Part,
}

/// A declared symbol.
#[derive(Clone, Copy)]
pub(crate) struct SymbolInfo {
    /// The index of the latest `$v` that declares it; a constant has none.
    pub(crate) variable: Option<u32>,
    /// The index of its latest `$f`.
    pub(crate) floating: Option<u32>,
}

/// A labelled statement. What the steps of proofs ask of it stands together, as they name labels in
/// any order: so one place of memory is read, and not that of the entry too.
#[derive(Clone, Copy)]
pub(crate) struct LabelInfo {
    pub(crate) index: u32,
    /// What its entry says.
    pub(crate) kind: Kind,
    pub(crate) symbols: Part,
    /// Of an assertion: where its mandatory hypotheses stand in their list.
    pub(crate) hypotheses: Part,
    /// Of an assertion: where its distinct pairs stand in their list.
    pub(crate) pairs: Part,
    /// Of an assertion: where its pattern stands among the pieces.
    pub(crate) conclusion: Part,
}

/// The symbols of the statement at an index, by the statements and the symbols of a book.
#[tactic(auto, using(crate::proofs::Rules::SymbolLookups::numbers_at))]
pub(crate) fn symbols_in<'b>(log: &[Entry], flat: &'b [Sym], index: usize) -> &'b [Sym]
    requires { index < length log.now }
    ensures { (t : Tables) (s : Sentence) → AreTables t → t.log.items ≡ log.now
        → t.flat.items ≡ flat.now → slice_get (statements_of t) index ≡ Some s
        → AreNumbers (statements_of t) (map (λ n. n.0) result.now) s.symbols }
{
    match at(log, index) {
        Some(entry) => part_of(flat, entry.symbols),
        // The index is below the count of statements.
        None => unreachable!(),
    }
}

// The first two elements of a list that has two.
fn first_two(list: &[Sym]) -> Option<(Sym, Sym)>
    ensures { (a b : Sym) → list.now ≡ a ∷ b ∷ [] → result ≡ Some (a, b) }
{
    match list {
        [first, second, ..] => Some((*first, *second)),
        _ => None,
    }
}

/// All lists of a book.
#[derive(Drop)]
pub struct Tables<'a> {
    pub(crate) alloc: Global,
    /// The declared symbols and the labels, and what is known of each.
    pub(crate) symbols: Names<'a>,
    pub(crate) infos: Vec<SymbolInfo>,
    pub(crate) labels: Names<'a>,
    pub(crate) named: Vec<LabelInfo>,
    /// The statements, and the symbols of all of them, one after the other.
    pub(crate) log: Vec<Entry>,
    pub(crate) flat: Vec<Sym>,
    pub(crate) scopes: Scopes,
    /// The indices of the active `$e`, in order.
    pub(crate) essentials: Vec<usize>,
    /// The mandatory hypotheses of all assertions, one after the other, and their distinct pairs.
    pub(crate) hypotheses: Vec<Hypothesis>,
    pub(crate) pairs: Vec<DistinctPair>,
    /// The patterns of all assertions and of their `$e`, one after the other.
    pub(crate) pieces: Vec<ShortPiece>,
    /// What `$d` state.
    pub(crate) distinct: Pairs,
    /// How many bytes the statements' tokens have.
    pub(crate) bytes: u64,
}

impl<'a> Tables<'a> {
    ghost use Rattle.std.specs.Prelude.{◌≡◌, ◌↔◌, ◌<◌, ◌≤◌, ℕ, [], IfOk, IsTrue, List, MatchOption};
    ghost use Rattle.std.specs.Prelude.{Some, length, map, slice_get};
    ghost use Rattle.mm_base.specs.declared.statement.Kind.TheVariants.{Floating};
    ghost use Rattle.mm_frame.specs.Sentence.{Sentence, Types, IsHypothesis};
    ghost use Rattle.mm_frame.specs.Numbers.{AreNumbers, IsNumberOf};
    ghost use Rattle.mm_frame.specs.Active.{IsActive};
    ghost use Rattle.mm_frame.specs.FrameIndex.{IsTypingOf};
    ghost use Rattle.mm_frame.specs.Mirror.Layout.{AreTables, statements_of};
    ghost use Rattle.mm_frame.specs.Mirror.Layout.{IsDeclared};
    ghost use Rattle.mm_frame.specs.Mirror.Layout.{IsKnown};

    /// No statements.
    pub(crate) fn new(alloc: Global, seed: Seed) -> Result<Tables<'a>, AllocError>
        ensures { IfOk result (λ t. AreTables t
            × (statements_of t ≡ []) × (t.bytes ≡ 0)) }
    {
        let scopes = Scopes::new(alloc)?;
        Ok(Tables {
            alloc,
            symbols: Names::new(alloc, seed),
            infos: Vec::new(alloc),
            labels: Names::new(alloc, seed),
            named: Vec::new(alloc),
            log: Vec::new(alloc),
            flat: Vec::new(alloc),
            scopes,
            essentials: Vec::new(alloc),
            hypotheses: Vec::new(alloc),
            pairs: Vec::new(alloc),
            pieces: Vec::new(alloc),
            distinct: Pairs::new(alloc, seed),
            bytes: 0,
        })
    }

    /// What is known of the symbol with a number.
    pub(crate) fn info(&self, symbol: Sym) -> Option<SymbolInfo>
        ensures { result ≡ slice_get self.now.infos.items symbol.0 }
    {
        at(&self.infos, symbol.0 as usize)
    }

    /// What is known of a symbol by its name.
    #[tactic(auto, using(crate::proofs::Rules::SymbolLookups::known_steps))]
    pub(crate) fn symbol_info(&self, symbol: &[u8]) -> Option<SymbolInfo>
        requires { AreTables self.now }
        ensures { MatchOption
            result
            (¬ (IsDeclared (statements_of self.now) symbol.now))
            (λ info. IsKnown (statements_of self.now) symbol.now info) }
    {
        match self.symbols.find(symbol) {
            Some(number) => self.info(Sym(number)),
            None => None,
        }
    }

    /// What is known of a label.
    pub(crate) fn label_info(&self, id: LabelId) -> Option<LabelInfo>
        ensures { result ≡ slice_get self.now.named.items id.0 }
    {
        at(&self.named, id.0 as usize)
    }

    /// The symbols of the statement at an index.
    pub(crate) fn symbols_at(&self, index: usize) -> &[Sym]
        requires tables { AreTables self.now }
        requires within { index < length self.now.log.items }
        ensures { (s : Sentence) → slice_get (statements_of self.now) index ≡ Some s
            → AreNumbers (statements_of self.now) (map (λ n. n.0) result.now) s.symbols }
    {
        symbols_in(&self.log, &self.flat, index)
    }

    /// The variable of the `$f` at an index.
    #[tactic(auto, using(crate::proofs::Frames::FrameTypings::typing_steps))]
    pub(crate) fn floating_variable(&self, index: usize) -> Option<Sym>
        requires { AreTables self.now }
        ensures { (f : Sentence) → slice_get (statements_of self.now) index ≡ Some f → MatchOption
            result
            (¬ (f.kind ≡ Floating))
            (λ n. (code : List ℕ) × (x : List ℕ) × Types code x f
            × IsNumberOf (statements_of self.now) x n.0) }
    {
        match at(&self.log, index) {
            Some(entry) => {
                if entry.kind == Kind::Floating {
                    at(self.symbols_at(index), 1)
                } else {
                    None
                }
            }
            None => None,
        }
    }

    /// The type code and the variable of the `$f` at an index.
    #[tactic(auto, using(crate::proofs::Frames::FrameTypings::typing_steps))]
    pub(crate) fn typing(&self, index: usize) -> Option<(Sym, Sym)>
        requires { AreTables self.now }
        ensures { (f : Sentence) → slice_get (statements_of self.now) index ≡ Some f
            → IsHypothesis f.kind → IsTypingOf (statements_of self.now) result f }
    {
        match at(&self.log, index) {
            Some(entry) => {
                if entry.kind == Kind::Floating {
                    first_two(self.symbols_at(index))
                } else {
                    None
                }
            }
            None => None,
        }
    }

    /// Whether the statement at an index is active now.
    #[tactic(auto, using(crate::proofs::Rules::SymbolLookups::activity_steps))]
    pub(crate) fn is_active_now(&self, index: usize) -> bool
        requires tables { AreTables self.now }
        requires index { index < length (statements_of self.now) }
        ensures { IsTrue result ↔ IsActive (statements_of self.now) index }
    {
        self.scopes.is_active(index, self.log.len())
    }
}
