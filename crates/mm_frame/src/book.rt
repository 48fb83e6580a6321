//! A book: the statements that were taken, by numbers.

ghost use Rattle.std.specs.Prelude.{◌≡◌, ◌↔◌, ℕ, ◌+◌, ◌-◌, ◌<◌, ◌≤◌, List, [], ◌∷◌, ◌++◌, IsTrue};
ghost use Rattle.std.specs.Prelude.{IfOk, IfErr, OnErr, Err, Some, length, map, take, slice_get};
ghost use Rattle.std.specs.Prelude.{sum_by, vec_len};
ghost use Rattle.mm_base.specs.declared.statement.Kind.TheVariants.{Closing};
ghost use Rattle.mm_base.specs.Statement.{plain_statement, HasForm, bytes_in};
ghost use Rattle.mm_base.specs.MostBytes.{most_bytes};
ghost use Rattle.mm_frame.specs.declared.rule.MeaningRule.{MeaningRule};
ghost use Rattle.mm_frame.specs.declared.answer.RuleFault.TheVariants.{Rule, Memory};
ghost use Rattle.mm_frame.specs.Sentence.{Sentence, sentence_in, IsLabelled, IsAssertion};
ghost use Rattle.mm_frame.specs.Active.{IsActive, IsVariable, open_marks, close_marks};
ghost use Rattle.mm_frame.specs.Rules.{IsMeant, FirstBroken};
ghost use Rattle.mm_frame.specs.Breaking.{BreaksAt};
ghost use Rattle.mm_frame.specs.Form.{IsSound};
ghost use Rattle.mm_frame.specs.Frame.{IsDistinct};
ghost use Rattle.mm_frame.specs.Numbers.{symbols_of, labelled_sentences, IsNumberOf, AreNumbers};
ghost use Rattle.mm_frame.specs.Numbers.{IsNumbered, IsLabelNumber, IsAssertionNumber};
ghost use Rattle.mm_frame.specs.Found.{Finds};
ghost use Rattle.mm_frame.specs.Taken.{TakenAs, kind_behind};
ghost use Rattle.mm_frame.specs.FrameIndex.{AreFurtherIndices, AreHypotheses, HaveTypings};
ghost use Rattle.mm_frame.specs.FrameIndex.{ArePairs};
ghost use Rattle.mm_frame.specs.Pieces.{HaveMandatoryPatterns, HaveMandatoryIndices};
ghost use Rattle.mm_frame.specs.Mirror.Patterned.{IsSignatureOf};

use crate::answer::{Found, RuleFault, Taken};
use crate::breaking::breaking_index;
use crate::broken::first_broken;
use crate::distinct::DistinctPair;
use crate::framing::FrameLists;
use crate::further::find_further;
use crate::guesses::Guesses;
use crate::hypothesis::Hypothesis;
use crate::number::{LabelId, LabelKind, Sym};
use crate::reads::{
    find_label, find_label_guessed, is_label, is_label_active, label_hypotheses, label_index,
    label_kind, label_pairs, label_signature, label_symbols, label_text,
};
use crate::rule::MeaningRule;
use crate::signature::Signature;
use crate::tables::Tables;
use mm_base::{Seed, Statement, Token};
use std::alloc::{AllocError, Global};
use std::marker::Model;

/// The statements of a database as far as they were taken, and what they say of each symbol, label
/// and assertion.
#[derive(Drop)]
pub struct Book<'a> {
    pub(crate) tables: Tables<'a>,
    /// Where the hashes of all its tables begin.
    seed: Seed,
    /// The numbers of the symbols that the statement uses which is taken: each is looked up once,
    /// and the room is used again.
    numbers: Vec<Sym>,
    /// Guesses of the numbers of symbols: most symbols of a statement stood lately in another.
    guesses: Guesses,
    /// The lists of which the frame of an assertion is made: their room is used again too.
    lists: FrameLists,
}

// How many bytes some tokens have.
fn bytes_of_all(tokens: &[Token]) -> u64
    requires { sum_by (λ t. length t.text.now) tokens.now ≤ most_bytes }
    ensures { result ≡ sum_by (λ t. length t.text.now) tokens.now }
{
    let mut bytes = 0;
    for token in tokens {
        bytes += token.text.len() as u64;
    }
    bytes
}

// How many bytes the tokens of a statement have.
fn bytes_of(statement: &Statement) -> u64
    requires { bytes_in (plain_statement statement.now) ≤ most_bytes }
    ensures { result ≡ bytes_in (plain_statement statement.now) }
{
    statement.first.text.len() as u64
        + bytes_of_all(&statement.symbols)
        + bytes_of_all(&statement.proof)
}

impl<'a> Model for Book<'a> {
    ghost use Rattle.mm_frame.specs.Database.{Database};
    ghost use Rattle.mm_frame.specs.Mirror.Layout.{AreTables, statements_of};

    ghost Value = { Database };

    ghost view = { λ b. record {
      statements = statements_of b.tables;
      bytes = b.tables.bytes;
      seed = b.seed;
    } };

    ghost invariant = { λ b. AreTables b.tables };
}

impl<'a> Book<'a> {
    /// A book of no statements. The hashes of what it is asked for begin from the seed.
    pub fn new(alloc: Global, seed: Seed) -> Result<Book<'a>, RuleFault>
        ensures ok { IfOk result (λ book. book
            ≡ record { statements = []; bytes = 0; seed = seed }) }
        ensures memory { IfErr result (λ fault. fault ≡ Memory) }
    {
        match Tables::new(alloc, seed) {
            Ok(tables) => Ok(Book {
                tables,
                seed,
                numbers: Vec::new(alloc),
                guesses: Guesses::new(alloc),
                lists: FrameLists::new(alloc),
            }),
            Err(refused) => Err(RuleFault::from(refused)),
        }
    }

    /// Where the book's memory comes from.
    pub fn allocator(&self) -> Global {
        *self.numbers.allocator()
    }

    /// Takes the next statement in, unless it breaks a rule of meaning (the Metamath book, sections
    /// 4.2.1 to 4.2.8). A refused statement leaves the book as it was.
    pub fn take(&mut self, statement: &Statement<'a>) -> Result<Taken, RuleFault>
        requires formed { HasForm (plain_statement statement.now) }
        requires closes { statement.now.kind ≡ Closing
            → close_marks self.old.statements < open_marks self.old.statements }
        requires room { self.old.bytes + bytes_in (plain_statement statement.now) ≤ most_bytes }
        ensures ok { IfOk result (λ taken. IsMeant self.old.statements (sentence_in statement.now)
            × (self.new ≡ record {
              statements = self.old.statements ++ sentence_in statement.now ∷ [];
              bytes = self.old.bytes + bytes_in (plain_statement statement.now);
              seed = self.old.seed;
            })
            × TakenAs self.old.statements statement.now.kind taken) }
        ensures rule { (broken : MeaningRule) → result ≡ Err (Rule broken)
            → FirstBroken broken self.old.statements (sentence_in statement.now) }
        ensures unchanged { OnErr result (self.new ≡ self.old) }
    {
        match first_broken(
            &self.tables,
            self.seed,
            statement,
            &mut self.guesses,
            &mut self.numbers,
        ) {
            Ok(None) => {}
            Ok(Some(rule)) => return Err(RuleFault::Rule(rule)),
            Err(refused) => return Err(RuleFault::from(refused)),
        }
        let bytes = bytes_of(statement);
        match self
            .tables
            .grow(statement, &self.numbers, &mut self.lists, bytes)
        {
            Ok(taken) => Ok(taken),
            Err(refused) => Err(RuleFault::from(refused)),
        }
    }

    /// The index of the first symbol that breaks the rule, of a statement that can't be taken since
    /// it breaks the rule first, or `None` where no symbol does: the rule is of a `$c` in a block,
    /// or of a label.
    pub fn breaking_symbol(
        &self,
        statement: &Statement,
        rule: MeaningRule,
    ) -> Result<Option<usize>, AllocError>
        requires broken { FirstBroken rule self.now.statements (sentence_in statement.now) }
        requires few { vec_len statement.now.symbols < 2147483648 }
        ensures { IfOk result (BreaksAt rule self.now.statements (sentence_in statement.now)) }
    {
        breaking_index(&self.tables, self.seed, statement, rule)
    }

    /// How many blocks are open.
    pub fn depth(&self) -> usize
        ensures { result ≡ open_marks self.now.statements - close_marks self.now.statements }
    {
        self.tables.scopes.depth()
    }

    /// The seed with which the book was made: hashes begin from it.
    pub fn seed(&self) -> Seed
        ensures { result ≡ self.now.seed }
    {
        self.seed
    }

    /// How many bytes the tokens of the statements have.
    pub fn bytes(&self) -> u64
        ensures { result ≡ self.now.bytes }
    {
        self.tables.bytes
    }

    /// What stands under a label.
    pub fn find(&self, label: &[u8]) -> Found
        ensures found { Finds self.now.statements label.now result }
        ensures sound { IsSound self.now.statements }
    {
        find_label(&self.tables, label)
    }

    /// What stands under a label, as `find` answers it. Where the guesses were handed in with this
    /// label lately, it is found sooner.
    pub fn find_guessed(&self, guesses: &mut Guesses, label: &[u8]) -> Found
        ensures found { Finds self.now.statements label.now result }
        ensures sound { IsSound self.now.statements }
    {
        find_label_guessed(&self.tables, guesses, label)
    }

    // Whether a labelled statement is active after the statements before an index.
    pub(crate) fn is_active(&self, id: LabelId, at: usize) -> bool
        requires within { at ≤ length self.now.statements }
        ensures { (index : ℕ) (s : Sentence) → IsNumbered self.now.statements id.0 index s
            → (IsTrue result ↔ IsActive (take at self.now.statements) index) }
    {
        is_label_active(&self.tables, id, at)
    }

    /// The name of a symbol.
    pub fn name(&self, symbol: Sym) -> &'a [u8]
        requires { symbol.0 < length (symbols_of self.now.statements) }
        ensures { IsNumberOf self.now.statements result.now symbol.0 }
    {
        match self.tables.symbols.name(symbol.0) {
            Some(name) => name,
            // Each number below the count of symbols has a name.
            None => unreachable!(),
        }
    }

    /// Whether a symbol is a variable.
    pub fn is_variable(&self, symbol: Sym) -> bool
        ensures variable { (x : List ℕ) → IsNumberOf self.now.statements x symbol.0
            → (IsTrue result ↔ IsVariable self.now.statements x) }

        // A number that no symbol has is that of no variable.
        ensures known { IsTrue result → symbol.0 < length (symbols_of self.now.statements) }
    {
        match self.tables.info(symbol) {
            Some(info) => info.variable.is_some(),
            None => false,
        }
    }

    /// Whether a labelled statement has the number.
    pub fn is_label(&self, id: LabelId) -> bool
        ensures { IsTrue result ↔ IsLabelNumber self.now.statements id.0 }
    {
        is_label(&self.tables, id)
    }

    /// A label. Of a number that no label has, nothing is reported: so it is of the next two too.
    #[tactic(auto, using(crate::proofs::Names::LabelNumbers::numbered_from_get))]
    pub fn label(&self, id: LabelId) -> &'a [u8]
        ensures { (s : Sentence) → slice_get (labelled_sentences self.now.statements) id.0 ≡ Some s
            → IsLabelled result.now s }
    {
        if is_label(&self.tables, id) {
            label_text(&self.tables, id)
        } else {
            &[]
        }
    }

    /// The symbols of a labelled statement.
    #[tactic(auto, using(crate::proofs::Names::LabelNumbers::numbered_from_get))]
    pub fn expression(&self, id: LabelId) -> &[Sym]
        ensures { (s : Sentence) → slice_get (labelled_sentences self.now.statements) id.0 ≡ Some s
            → AreNumbers self.now.statements (map (λ n. n.0) result.now) s.symbols }
    {
        if is_label(&self.tables, id) {
            label_symbols(&self.tables, id)
        } else {
            &[]
        }
    }

    /// The symbols of the statement at an index. Of an index at which none stands, nothing is told.
    pub fn symbols_at(&self, index: usize) -> &[Sym]
        ensures { (s : Sentence) → slice_get self.now.statements index ≡ Some s
            → AreNumbers self.now.statements (map (λ n. n.0) result.now) s.symbols }
    {
        if index < self.tables.log.len() {
            self.tables.symbols_at(index)
        } else {
            &[]
        }
    }

    /// The kind of a labelled statement.
    #[tactic(auto, using(crate::proofs::Names::LabelNumbers::numbered_from_get))]
    pub fn kind(&self, id: LabelId) -> LabelKind
        ensures { (s : Sentence) → slice_get (labelled_sentences self.now.statements) id.0 ≡ Some s
            → s.kind ≡ kind_behind result }
    {
        if is_label(&self.tables, id) {
            label_kind(&self.tables, id)
        } else {
            LabelKind::Proof
        }
    }

    // Whether two symbols are a distinct pair after the statements before an index.
    pub(crate) fn is_distinct(&self, a: Sym, b: Sym, at: usize) -> bool
        requires { at ≤ length self.now.statements }
        ensures { (x y : List ℕ) → IsNumberOf self.now.statements x a.0
            → IsNumberOf self.now.statements y b.0
            → (IsTrue result ↔ IsDistinct (take at self.now.statements) x y) }
    {
        self.tables.is_distinct(a, b, at)
    }

    // The mandatory hypotheses of an assertion.
    pub(crate) fn hypotheses(&self, id: LabelId) -> &[Hypothesis]
        requires { IsAssertionNumber self.now.statements id.0 }
        ensures ids { (index : ℕ) (s : Sentence) → IsNumbered self.now.statements id.0 index s
            → IsAssertion s.kind → AreHypotheses
            (record { statements = self.now.statements; index = index })
            (map (λ h. h.id.0) result.now) }
        ensures typed { (index : ℕ) (s : Sentence)
            → IsNumbered self.now.statements id.0 index s → IsAssertion s.kind
            → HaveTypings self.now.statements result.now }
        ensures few { (index : ℕ) (s : Sentence)
            → IsNumbered self.now.statements id.0 index s → IsAssertion s.kind
            → length result.now < most_bytes }
        ensures patterns { (index : ℕ) (s : Sentence)
            → IsNumbered self.now.statements id.0 index s → IsAssertion s.kind
            → HaveMandatoryPatterns
            (record { statements = self.now.statements; index = index }) result.now }
    {
        label_hypotheses(&self.tables, id)
    }

    // The mandatory distinct pairs of an assertion.
    pub(crate) fn pairs(&self, id: LabelId) -> &[DistinctPair]
        requires { IsAssertionNumber self.now.statements id.0 }
        ensures variables { (index : ℕ) (s : Sentence) → IsNumbered self.now.statements id.0 index s
            → IsAssertion s.kind → ArePairs
            (record { statements = self.now.statements; index = index })
            (map (λ pair. (pair.variables.0.0, pair.variables.1.0)) result.now) }
        ensures indices { (index : ℕ) (s : Sentence)
            → IsNumbered self.now.statements id.0 index s → IsAssertion s.kind
            → HaveMandatoryIndices
            (record { statements = self.now.statements; index = index }) result.now }
    {
        label_pairs(&self.tables, id)
    }

    // The indices of the `$d` that say more than the mandatory pairs of an assertion.
    pub(crate) fn further(&self, alloc: Global, id: LabelId) -> Result<Vec<usize>, AllocError>
        requires { IsAssertionNumber self.now.statements id.0 }
        ensures { IfOk result (λ indices. (index : ℕ) (s : Sentence)
            → IsNumbered self.now.statements id.0 index s → IsAssertion s.kind
            → AreFurtherIndices (record { statements = self.now.statements; index = index })
            indices.items) }
    {
        let hypotheses = self.hypotheses(id);
        find_further(
            &self.tables,
            alloc,
            hypotheses,
            label_index(&self.tables, id),
        )
    }

    // What a step by an assertion asks of it.
    pub(crate) fn signature(&self, id: LabelId) -> Signature<'_>
        requires { IsAssertionNumber self.now.statements id.0 }
        ensures { (index : ℕ) (s : Sentence) → IsNumbered self.now.statements id.0 index s
            → IsAssertion s.kind
            → IsSignatureOf (record { statements = self.now.statements; index = index }) result }
    {
        label_signature(&self.tables, id)
    }
}
