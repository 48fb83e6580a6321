//! What takes statements in, and proves one proof after the other.

ghost use Rattle.std.specs.Prelude.{◌≡◌, ◌≢◌, ℕ, ◌+◌, ◌<◌, ◌≤◌, [], ◌∷◌, ◌++◌, map, take, Ok, Err};
ghost use Rattle.std.specs.Prelude.{IfOk, IfErr, OnOk, OnErr, IsOkUnless};
ghost use Rattle.mm_base.specs.declared.statement.Kind.TheVariants.{Closing};
ghost use Rattle.mm_base.specs.Statement.{plain_statement, HasForm, bytes_in};
ghost use Rattle.mm_base.specs.MostBytes.{most_bytes};
ghost use Rattle.mm_frame.specs.declared.rule.MeaningRule.{MeaningRule};
ghost use Rattle.mm_frame.specs.declared.answer.RuleFault.TheVariants.{Rule, Memory};
ghost use Rattle.mm_frame.specs.Sentence.{Sentence, sentence_in};
ghost use Rattle.mm_frame.specs.Active.{open_marks, close_marks};
ghost use Rattle.mm_frame.specs.Form.{IsSound};
ghost use Rattle.mm_frame.specs.Rules.{IsMeant, FirstBroken};
ghost use Rattle.mm_frame.specs.Taken.{TakenAs};
ghost use Rattle.mm_proof.specs.Answer.{OnRule, IsUnlessMemory};
ghost use Rattle.mm_proof.specs.Tokens.{IsIncomplete};
ghost use Rattle.mm_step.specs.Profiles.{limit_of};
ghost use Rattle.mm_proof.specs.Strict.{HasFormOf};
ghost use Rattle.mm_proof.specs.UnderProfile.{IsProvedUnder, IsFaultUnder, AreAllowedUnder};
ghost use Rattle.mm_proof.specs.UnderProfile.{HaveFaultUnder, IsPrefixAllowedUnder};
ghost use Rattle.mm_proof.specs.UnderProfile.{IsPrefixFaultUnder};
ghost use Rattle.mm_step.specs.Steps.{IsProofNumber};
ghost use Rattle.mm_proof.specs.Parsed.{OfProof};
ghost use Rattle.mm_proof.specs.Verified.{TokensProve};
ghost use Rattle.mm_step.specs.Plain.{ids_in, token_texts};

use crate::parse::{ParseLists, fill_under, is_incomplete};
use crate::prefix::checked_prefix;
use crate::run::{judgement, pass};
use mm_base::{Seed, Statement, Token};
use mm_frame::{Book, LabelId, RuleFault, Taken};
use mm_step::{Flat, Named, Profile, ProofFault, ProofRule, Site};
use std::alloc::Global;
use std::marker::Model;

// In so many bytes of a database its longest proof has one symbol on the stack, as a rule.
const STACK_SYMBOL_BYTES: usize = 16;

/// What a proof without a fault is.
#[derive(Clone, Copy, PartialEq, Eq, Debug)]
pub enum Proved {
    /// A token holds a `?`: a step is unknown. The checked prefix breaks no rule.
    Incomplete,
    /// It proves its statement.
    Complete,
}

// What the proving of each proof fills anew.
#[derive(Drop)]
struct Scratch<'a> {
    alloc: Global,
    lists: ParseLists<'a>,
    store: Flat,
    named: Named,
}

/// A book, and what proves the proofs of its statements, one after the other in the same memory.
///
/// Nothing that it answers depends on the proofs before.
#[derive(Drop)]
pub struct Prover<'a> {
    book: Book<'a>,
    scratch: Scratch<'a>,
}

// What else it holds between two proofs is nothing that a caller can tell.
impl<'a> Model for Prover<'a> {
    ghost use Rattle.mm_proof.specs.Proving.{Proving};

    ghost Value = { Proving };

    ghost use Rattle.mm_step.specs.Plain.{ids_in};

    ghost view = { λ p. record { book = p.book; used = ids_in p.scratch.named.ids.items } };
}

impl<'a> Prover<'a> {
    /// A prover with a book of no statements. The hashes of what is looked up begin from the seed.
    pub fn new(alloc: Global, seed: Seed) -> Result<Prover<'a>, RuleFault>
        ensures ok { IfOk result (λ prover. prover.book
            ≡ record { statements = []; bytes = 0; seed = seed }) }
        ensures used { IfOk result (λ prover. prover.used ≡ []) }
        ensures memory { IfErr result (λ fault. fault ≡ Memory) }
    {
        match Book::new(alloc, seed) {
            Ok(book) => Ok(Prover {
                book,
                scratch: Scratch {
                    alloc,
                    lists: ParseLists::new(alloc),
                    store: Flat::new(alloc),
                    named: Named::new(alloc),
                },
            }),
            Err(fault) => Err(fault),
        }
    }

    /// Makes room for a database that has so many bytes, where there is memory for it. It changes
    /// nothing that is answered, and room that is wanting is made when it is needed.
    pub fn prepare(&mut self, bytes: usize)
        ensures { self.new ≡ self.old }
    {
        self.book.prepare(bytes);
        self.scratch.store.prepare(bytes / STACK_SYMBOL_BYTES);
    }

    /// The book.
    pub fn book(&self) -> &Book<'a>
        ensures { result.now ≡ self.now.book }
    {
        &self.book
    }

    /// The book, where no proof is left to prove.
    pub fn into_book(self) -> Book<'a>
        ensures { result ≡ self.entry.book }
    {
        self.book
    }

    /// Takes the next statement into the book, unless it breaks a rule of meaning (the Metamath
    /// book, sections 4.2.1 to 4.2.8). A refused statement leaves the book as it was.
    pub fn take(&mut self, statement: &Statement<'a>) -> Result<Taken, RuleFault>
        requires formed { HasForm (plain_statement statement.now) }
        requires closes { statement.now.kind ≡ Closing
            → close_marks self.old.book.statements < open_marks self.old.book.statements }
        requires room { self.old.book.bytes
            + bytes_in (plain_statement statement.now) ≤ most_bytes }
        ensures ok { IfOk result (λ taken.
            IsMeant self.old.book.statements (sentence_in statement.now)
            × (self.new.book ≡ record {
              statements = self.old.book.statements ++ sentence_in statement.now ∷ [];
              bytes = self.old.book.bytes + bytes_in (plain_statement statement.now);
              seed = self.old.book.seed;
            })
            × TakenAs self.old.book.statements statement.now.kind taken) }
        ensures rule { (broken : MeaningRule) → result ≡ Err (Rule broken)
            → FirstBroken broken self.old.book.statements (sentence_in statement.now) }
        ensures unchanged { OnErr result (self.new.book ≡ self.old.book) }
        ensures used { self.new.used ≡ self.old.used }
    {
        self.book.take(statement)
    }

    /// Whether the tokens are, under the profile, a proof of the `$p` with this number; `used` then
    /// gives the assertions of its tree, and none where they are not answered to be complete. Or
    /// the first of P1 to P15 and L1 that they break, with the number of the step, 0 for P1 to P5
    /// and P15. Where one of them holds a `?`, this is judged of the known prefix, and P13 and P14
    /// aren't.
    ///
    /// It answers what `Steps::parse` and then `verify` do, in memory that all proofs use.
    pub fn prove(
        &mut self,
        profile: Profile,
        id: LabelId,
        tokens: &[Token<'a>],
    ) -> Result<Proved, ProofFault>
        requires { (index : ℕ) × (s : Sentence)
            × IsProofNumber self.old.book.statements id.0 index s }
        // A proof with an unknown step is reported apart: its checked prefix breaks no rule.
        ensures incomplete { result ≡ Ok Proved.Incomplete
            → IsIncomplete (token_texts tokens.now)
            × OfProof self.old.book.statements id.0 (λ index s.
            IsPrefixAllowedUnder profile (take index self.old.book.statements) s
            (token_texts tokens.now)) }
        ensures complete { IsIncomplete (token_texts tokens.now)
            → ¬ (result ≡ Ok Proved.Complete) }

        // What is answered to be complete is proved, and these are the assertions of its tree.
        ensures proved { result ≡ Ok Proved.Complete
            → OfProof self.old.book.statements id.0 (λ index s.
            TokensProve (limit_of profile) (take index self.old.book.statements) s
            (token_texts tokens.now) self.new.used) }
        ensures form { result ≡ Ok Proved.Complete
            → OfProof self.old.book.statements id.0 (λ index s.
            HasFormOf profile (take index self.old.book.statements) s (token_texts tokens.now)) }

        // The rule and the step are those of the first fault.
        ensures fault { ¬ (IsIncomplete (token_texts tokens.now))
            → (rule : ProofRule) → (step : ℕ) → result ≡ Err (ProofFault.Rule rule step)
            → OfProof self.old.book.statements id.0 (λ index s.
            IsFaultUnder profile (take index self.old.book.statements) s
            (token_texts tokens.now) rule step) }

        // What is proved has no fault, unless memory is refused.
        ensures accepts { OfProof self.old.book.statements id.0 (λ index s.
            IsProvedUnder profile (take index self.old.book.statements) s
            (token_texts tokens.now) → IsOkUnless result ProofFault.Memory) }

        // What has a fault is answered with it, unless a step is unknown or memory is refused.
        ensures refuses { ¬ (IsIncomplete (token_texts tokens.now))
            → OfProof self.old.book.statements id.0 (λ index s.
            (rule : ProofRule) → (step : ℕ)
            → IsFaultUnder profile (take index self.old.book.statements) s
            (token_texts tokens.now) rule step
            → IsUnlessMemory result (Err (ProofFault.Rule rule step))) }

        // Where a step is unknown, the rule and the step are those of the prefix's first fault.
        ensures prefix_fault { IsIncomplete (token_texts tokens.now)
            → (rule : ProofRule) → (step : ℕ) → result ≡ Err (ProofFault.Rule rule step)
            → OfProof self.old.book.statements id.0 (λ index s.
            IsPrefixFaultUnder profile (take index self.old.book.statements) s
            (token_texts tokens.now) rule step) }

        // A prefix that breaks no rule is allowed, unless memory is refused.
        ensures allows_prefix { IsIncomplete (token_texts tokens.now)
            → OfProof self.old.book.statements id.0 (λ index s.
            IsPrefixAllowedUnder profile (take index self.old.book.statements) s
            (token_texts tokens.now) → IsUnlessMemory result (Ok Proved.Incomplete)) }

        // A prefix that has a fault is answered with it, unless memory is refused.
        ensures refuses_prefix { IsIncomplete (token_texts tokens.now)
            → OfProof self.old.book.statements id.0 (λ index s.
            (rule : ProofRule) → (step : ℕ)
            → IsPrefixFaultUnder profile (take index self.old.book.statements) s
            (token_texts tokens.now) rule step
            → IsUnlessMemory result (Err (ProofFault.Rule rule step))) }

        // What is not answered to be complete uses nothing.
        ensures unproved { result ≢ Ok Proved.Complete → self.new.used ≡ [] }

        // No proof changes the book.
        ensures book { self.new.book ≡ self.old.book }
    {
        match prove_tokens(&mut self.scratch, &self.book, id, tokens, profile) {
            Ok(()) => Ok(Proved::Complete),
            // No label and no letter holds a `?`, so a proof with one always comes here.
            Err(fault) => {
                if is_incomplete(tokens) {
                    self.allow(profile, id, tokens)
                } else {
                    Err(fault)
                }
            }
        }
    }

    // Whether the checked prefix of the tokens, one of which holds a `?`, breaks no rule.
    fn allow(
        &mut self,
        profile: Profile,
        id: LabelId,
        tokens: &[Token<'a>],
    ) -> Result<Proved, ProofFault>
        requires { (index : ℕ) × (s : Sentence)
            × IsProofNumber self.old.book.statements id.0 index s }
        ensures allowed { IfOk result (λ proved. (proved ≡ Proved.Incomplete)
            × OfProof self.old.book.statements id.0 (λ index s.
            IsPrefixAllowedUnder profile (take index self.old.book.statements) s
            (token_texts tokens.now))) }
        ensures fault { IfErr result (λ e. OnRule e (λ rule step.
            OfProof self.old.book.statements id.0 (λ index s.
            IsPrefixFaultUnder profile (take index self.old.book.statements) s
            (token_texts tokens.now) rule step))) }
        ensures book { self.new.book ≡ self.old.book }
        ensures used { self.new.used ≡ self.old.used }
    {
        match allow_tokens(&mut self.scratch, &self.book, id, tokens, profile) {
            Ok(()) => Ok(Proved::Incomplete),
            Err(fault) => Err(fault),
        }
    }

    /// The assertions that the proof uses which was tried last, in any order, each once or more,
    /// where it was answered to be complete; else none.
    pub fn used(&self) -> &[LabelId]
        ensures { map (λ id. id.0) result.now ≡ self.now.used }
    {
        &self.scratch.named.ids
    }
}

// Whether the tokens prove the `$p` with the number and have the form that the profile demands:
// fills the list with the assertions of its tree, or tells their first fault.
fn prove_under<'a>(
    scratch: &mut Scratch<'a>,
    book: &Book,
    id: LabelId,
    tokens: &[Token<'a>],
    profile: Profile,
) -> Result<(), ProofFault>
    requires { (index : ℕ) × (s : Sentence) × IsProofNumber book.now.statements id.0 index s }
    ensures form { OnOk result (OfProof book.now.statements id.0 (λ index s.
        HasFormOf profile (take index book.now.statements) s (token_texts tokens.now))) }
    ensures proved { OnOk result (OfProof book.now.statements id.0 (λ index s.
        TokensProve (limit_of profile) (take index book.now.statements) s (token_texts tokens.now)
        (ids_in scratch.new.named.ids.items))) }
    ensures fault { IfErr result (λ e. OnRule e (λ rule step.
        OfProof book.now.statements id.0 (λ index s.
        IsFaultUnder profile (take index book.now.statements) s (token_texts tokens.now)
        rule step))) }
    ensures sound { IsSound book.now.statements }
{
    let site = Site::new(book, id, profile);
    let Scratch {
        alloc,
        lists,
        store,
        named,
    } = scratch;
    fill_under(*alloc, lists, profile, &site, tokens)?;
    store.clear();
    let marks = &mut lists.marks;
    judgement(
        *alloc,
        store,
        named,
        marks,
        site,
        &lists.entries,
        &lists.codes,
    )
}

// Does as `prove_under`, and leaves the list empty where they don't prove it.
fn prove_tokens<'a>(
    scratch: &mut Scratch<'a>,
    book: &Book,
    id: LabelId,
    tokens: &[Token<'a>],
    profile: Profile,
) -> Result<(), ProofFault>
    requires { (index : ℕ) × (s : Sentence) × IsProofNumber book.now.statements id.0 index s }
    ensures form { OnOk result (OfProof book.now.statements id.0 (λ index s.
        HasFormOf profile (take index book.now.statements) s (token_texts tokens.now))) }
    ensures proved { OnOk result (OfProof book.now.statements id.0 (λ index s.
        TokensProve (limit_of profile) (take index book.now.statements) s (token_texts tokens.now)
        (ids_in scratch.new.named.ids.items))) }
    ensures fault { IfErr result (λ e. OnRule e (λ rule step.
        OfProof book.now.statements id.0 (λ index s.
        IsFaultUnder profile (take index book.now.statements) s (token_texts tokens.now)
        rule step))) }
    ensures unproved { OnErr result (scratch.new.named.ids.items ≡ []) }
    ensures sound { IsSound book.now.statements }
{
    match prove_under(scratch, book, id, tokens, profile) {
        Ok(()) => Ok(()),
        Err(fault) => {
            scratch.named.ids.clear();
            Err(fault)
        }
    }
}

// Whether the checked prefix of the tokens breaks no rule, or its first fault.
fn allow_tokens<'a>(
    scratch: &mut Scratch<'a>,
    book: &Book,
    id: LabelId,
    tokens: &[Token<'a>],
    profile: Profile,
) -> Result<(), ProofFault>
    requires { (index : ℕ) × (s : Sentence) × IsProofNumber book.now.statements id.0 index s }
    ensures allowed { OnOk result (OfProof book.now.statements id.0 (λ index s.
        IsPrefixAllowedUnder profile (take index book.now.statements) s
        (token_texts tokens.now))) }
    ensures fault { IfErr result (λ e. OnRule e (λ rule step.
        OfProof book.now.statements id.0 (λ index s.
        IsPrefixFaultUnder profile (take index book.now.statements) s
        (token_texts tokens.now) rule step))) }
    ensures named { scratch.new.named ≡ scratch.old.named }
{
    let prefix = checked_prefix(scratch.alloc, tokens)?;
    pass_tokens(scratch, book, id, &prefix, profile)
}

// Whether the tokens of a prefix of a proof of the `$p` break no rule, or their first fault.
fn pass_tokens<'a>(
    scratch: &mut Scratch<'a>,
    book: &Book,
    id: LabelId,
    prefix: &[Token<'a>],
    profile: Profile,
) -> Result<(), ProofFault>
    requires { (index : ℕ) × (s : Sentence) × IsProofNumber book.now.statements id.0 index s }
    ensures allowed { OnOk result (OfProof book.now.statements id.0 (λ index s.
        AreAllowedUnder profile (take index book.now.statements) s (token_texts prefix.now))) }
    ensures fault { IfErr result (λ e. OnRule e (λ rule step.
        OfProof book.now.statements id.0 (λ index s.
        HaveFaultUnder profile (take index book.now.statements) s (token_texts prefix.now)
        rule step))) }
    ensures named { scratch.new.named ≡ scratch.old.named }
{
    let site = Site::new(book, id, profile);
    let Scratch {
        alloc,
        lists,
        store,
        ..
    } = scratch;
    fill_under(*alloc, lists, profile, &site, prefix)?;
    store.clear();
    let marks = &mut lists.marks;
    pass(*alloc, store, marks, site, &lists.entries, &lists.codes)
}
