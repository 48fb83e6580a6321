//! The tokens of a proof: whether a step is unknown, P1 to P5, and the moves that they say (the
//! Metamath book, section 4.3, section 4.4.4 and appendix B).

ghost use Rattle.std.specs.Prelude.{◌≡◌, ◌+◌, ◌≤◌, ◌<◌, ◌∷◌, [], ℕ, List, Contains, All};
ghost use Rattle.std.specs.Prelude.{◌++◌, length, map, take, slice_get, Some, Ok, Err, true, false};
ghost use Rattle.std.specs.Prelude.{IfOk, IfErr, OnOk, IsTrue, MatchOption};
ghost use Rattle.mm_frame.specs.declared.number.LabelId.{LabelId};
ghost use Rattle.std.specs.List.{flat_map, sum_by};
ghost use Rattle.mm_base.specs.MostBytes.{most_bytes};
ghost use Rattle.mm_code.specs.Letters.{HasSpelling, Letters, LettersBreak};
ghost use Rattle.mm_frame.specs.Sentence.{Sentence};
ghost use Rattle.mm_proof.specs.Answer.{OnRule};
ghost use Rattle.mm_proof.specs.Tokens.{is_incomplete, IsIncomplete, IsNormal, IsCompressed};
ghost use Rattle.mm_proof.specs.Tokens.{opening_token, closing_token};
ghost use Rattle.mm_step.specs.Moves.{name};
ghost use Rattle.mm_proof.specs.Proof.{IsWholeFault};
ghost use Rattle.mm_step.specs.Steps.{AreSteps, IsProofNumber};
ghost use Rattle.mm_proof.specs.ReadSteps.{ReadSteps};
ghost use Rattle.mm_proof.specs.CheckedPrefix.{checked_prefix};
ghost use Rattle.mm_proof.specs.Strict.{HasFormOf, IsTextFault};
ghost use Rattle.mm_proof.specs.Parsed.{OfProof, SaySteps};
ghost use Rattle.mm_proof.specs.Mirror.CodeSteps.{IsReading, AreFor, moves_of};
ghost use Rattle.mm_proof.specs.Mirror.CodeSteps.{fault_behind};
ghost use Rattle.mm_step.specs.Plain.{ids_in, label_ids, token_texts};
ghost use Rattle.mm_code.specs.Layout.{texts};
ghost use Rattle.mm_step.specs.Mirror.Sites.{IsSite};

use crate::form::judge_form;
use crate::labels::fill_numbers;
use crate::moves::{Parsed, Steps};
use crate::prefix::{begins_list, checked_prefix, is_byte, is_unknown};
use mm_base::Token;
use mm_code::{Code, CodeFault, CodeRule, fill_codes};
use mm_frame::{Book, Guesses, Hypothesis, LabelId};
use mm_step::{Profile, ProofFault, ProofRule, Site};
use std::alloc::{AllocError, Global};
use std::mem::replace;

/// Lists that the reading of each proof fills anew.
#[derive(Drop)]
pub struct ParseLists<'a> {
    /// The numbers of the labels.
    pub ids: Vec<LabelId>,
    /// Guesses of these numbers, which stay from one proof to the next.
    guesses: Guesses,
    /// What the first numbers stand for: the mandatory hypotheses, and then the listed labels; or
    /// the labels of a normal proof, each once.
    pub entries: Vec<LabelId>,
    /// The letters, as white space cuts them.
    letters: Vec<&'a [u8]>,
    /// What they say, or a number for each label of a normal proof.
    pub codes: Vec<Code>,
    /// By the index of an entry, whether a code names it.
    pub marks: Vec<bool>,
    /// By the number of a label, its index among the labels of the last normal proof that has it.
    indices: Vec<u32>,
}

impl<'a> ParseLists<'a> {
    pub fn new(alloc: Global) -> ParseLists<'a> {
        ParseLists {
            ids: Vec::new(alloc),
            guesses: Guesses::new(alloc),
            entries: Vec::new(alloc),
            letters: Vec::new(alloc),
            codes: Vec::new(alloc),
            marks: Vec::new(alloc),
            indices: Vec::new(alloc),
        }
    }

    // Takes the entries and the codes out of the lists.
    fn take_moves(&mut self, alloc: Global) -> (Vec<LabelId>, Vec<Code>)
        ensures entries { result.0.items ≡ self.old.entries.items }
        ensures codes { result.1.items ≡ self.old.codes.items }
    {
        let entries = replace(&mut self.entries, Vec::new(alloc));
        let codes = replace(&mut self.codes, Vec::new(alloc));
        (entries, codes)
    }
}

/// Whether some token holds a `?`.
#[tactic(auto, using(crate::proofs::ProofTokens::QuestionMarks::question_steps))]
pub fn is_incomplete(tokens: &[Token]) -> bool
    ensures { result ≡ is_incomplete (token_texts tokens.now) }
{
    for token in tokens {
        if is_unknown(token.text) {
            return true;
        }
    }
    false
}

// Makes room for the indices of so many labels.
fn make_indices(indices: &mut Vec<u32>, count: usize) -> Result<(), AllocError>
    ensures { OnOk result (count ≤ length indices.new.items) }
{
    for _ in indices.len()..count {
        indices.push(0)?;
    }
    Ok(())
}

// Makes room for one more entry, for which a number of 32 bits stands. No book has more labels than
// that says; where there were, more is asked for than there can be, so that it is refused.
fn make_entry_room(entries: &mut Vec<LabelId>) -> Result<(), AllocError>
    ensures entries { entries.new.items ≡ entries.old.items }
    ensures few { OnOk result (length entries.old.items < 4294967295) }
{
    if entries.len() < u32::MAX as usize {
        entries.reserve(1)
    } else {
        entries.reserve(usize::MAX)
    }
}

// The index of the label among the entries, which it is put behind where it isn't among them. What
// was noted of it for another proof is given by what stands at the index.
fn index_of(
    entries: &mut Vec<LabelId>,
    indices: &mut Vec<u32>,
    id: LabelId,
) -> Result<usize, ProofFault>
    ensures there { IfOk result (λ index.
        slice_get (ids_in entries.new.items) index ≡ Some id.0) }
    ensures longer { OnOk result ((more : List LabelId)
        × (entries.new.items ≡ entries.old.items ++ more)) }
    ensures fits { IfOk result (λ index. index < 4294967295) }
    ensures fault { IfErr result (λ e. e ≡ ProofFault.Memory) }
{
    let at = id.0 as usize;
    make_indices(indices, at + 1)?;
    let noted = indices[at];
    if is_entry(entries, noted as usize, id) && noted < u32::MAX {
        return Ok(noted as usize);
    }
    let index = entries.len();
    make_entry_room(entries)?;
    entries.push(id)?;
    indices[at] = index as u32;
    Ok(index)
}

// Whether the label is the entry at an index.
fn is_entry(entries: &[LabelId], index: usize, id: LabelId) -> bool
    ensures { IsTrue result → slice_get (ids_in entries.now) index ≡ Some id.0 }
{
    match entries.get(index) {
        Some(entry) => entry.0 == id.0,
        None => false,
    }
}

// Fills the lists with the labels, each once, and with the numbers of their indices.
fn fill_distinct(
    entries: &mut Vec<LabelId>,
    codes: &mut Vec<Code>,
    indices: &mut Vec<u32>,
    ids: &[LabelId],
) -> Result<(), ProofFault>
    ensures ok { OnOk result
        (moves_of entries.new.items codes.new.items ≡ map name (ids_in ids.now)) }
    ensures spelled { OnOk result (All HasSpelling codes.new.items) }
    ensures fault { IfErr result (λ e. e ≡ ProofFault.Memory) }
{
    entries.clear();
    codes.clear();
    for id in ids {
        let index = index_of(entries, indices, *id)?;
        codes.push(Code::Number(index as u32 + 1))?;
    }
    Ok(())
}

// Fills the lists with the labels of a normal proof, each once, and with their numbers.
fn fill_normal(lists: &mut ParseLists, site: &Site, tokens: &[Token]) -> Result<(), ProofFault>
    requires normal { IsNormal (token_texts tokens.now) }
    ensures ok { OnOk result (IsReading site.now.statements site.now.index
        (token_texts tokens.now) (moves_of lists.new.entries.items lists.new.codes.items)) }
    ensures spelled { OnOk result (All HasSpelling lists.new.codes.items) }
    ensures listed { OnOk result ((labels letters : List (List ℕ))
        → IsCompressed (token_texts tokens.now) labels letters
        → AreFor site.now.statements site.now.index (ids_in lists.new.ids.items) labels) }
    ensures fault { IfErr result (λ e. OnRule e (λ rule step. (step ≡ 0)
        × IsWholeFault (take site.now.index site.now.statements) (token_texts tokens.now) rule)) }
{
    fill_numbers(
        &mut lists.ids,
        site.book,
        &mut lists.guesses,
        &site.own,
        site.id,
        tokens,
    )?;
    fill_distinct(
        &mut lists.entries,
        &mut lists.codes,
        &mut lists.indices,
        &lists.ids,
    )?;
    Ok(())
}

/// The index of the first `)`.
pub fn closing_index(tokens: &[Token]) -> Option<usize>
    ensures { MatchOption
        result
        (¬ (Contains (token_texts tokens.now) closing_token))
        (λ index. (index < length tokens.now)
        × (slice_get (token_texts tokens.now) index ≡ Some closing_token)
        × ¬ (Contains (take index (token_texts tokens.now)) closing_token)) }
{
    for (index, token) in tokens.iter().enumerate() {
        if is_byte(token.text, b')') {
            return Some(index);
        }
    }
    None
}

// The list and the letters of a compressed proof, whose tokens after the `(` are these.
pub fn parts<'t, 'a>(rest: &'t [Token<'a>]) -> Option<(&'t [Token<'a>], &'t [Token<'a>])>
    ensures { MatchOption
        result
        (¬ (Contains (token_texts rest.now) closing_token))
        (λ p. IsCompressed (opening_token ∷ token_texts rest.now)
        (token_texts p.0.now) (token_texts p.1.now)) }
{
    let index = closing_index(rest)?;
    Some((&rest[..index], &rest[index + 1..]))
}

// What a fault of the letters is as a fault of the proof.
fn letter_fault(fault: CodeFault) -> ProofFault
    ensures { result ≡ fault_behind fault }
{
    match fault {
        CodeFault::Rule(CodeRule::P4) => ProofFault::Rule {
            rule: ProofRule::P4,
            step: 0,
        },
        CodeFault::Rule(CodeRule::P5) => ProofFault::Rule {
            rule: ProofRule::P5,
            step: 0,
        },
        CodeFault::Memory => ProofFault::Memory,
    }
}

/// Fills the list with the texts of the tokens.
pub fn fill_texts<'a>(pieces: &mut Vec<&'a [u8]>, tokens: &[Token<'a>]) -> Result<(), AllocError>
    ensures { OnOk result (texts pieces.new.items ≡ token_texts tokens.now) }
{
    pieces.clear();
    for token in tokens {
        pieces.push(token.text)?;
    }
    Ok(())
}

// Fills the list with the codes of the letters.
#[tactic(auto, using(crate::proofs::ProofTokens::ProofCodes::letter_steps))]
fn read_letters<'a>(
    pieces: &mut Vec<&'a [u8]>,
    codes: &mut Vec<Code>,
    letters: &[Token<'a>],
) -> Result<(), CodeFault>
    ensures read { OnOk result
        (Letters (flat_map (λ p. p) (token_texts letters.now)) codes.new.items) }
    ensures unbroken { OnOk result ((rule : CodeRule)
        → ¬ (LettersBreak rule (flat_map (λ p. p) (token_texts letters.now)))) }
    ensures rule { (rule : CodeRule) → result ≡ Err (CodeFault.Rule rule)
        → LettersBreak rule (flat_map (λ p. p) (token_texts letters.now)) }
{
    fill_texts(pieces, letters)?;
    fill_codes(codes, pieces)
}

// Fills the list with the labels of the hypotheses, and then the listed ones.
fn fill_entries(
    entries: &mut Vec<LabelId>,
    hypotheses: &[Hypothesis],
    listed: &[LabelId],
) -> Result<(), AllocError>
    ensures { OnOk result
        (ids_in entries.new.items ≡ label_ids hypotheses.now ++ ids_in listed.now) }
{
    entries.clear();
    for hypothesis in hypotheses {
        entries.push(hypothesis.id)?;
    }
    entries.extend_from_slice(listed)
}

// Fills the lists with the codes of a compressed proof, whose tokens after the `(` are these, and
// with the labels that its first numbers stand for.
fn fill_compressed<'a>(
    lists: &mut ParseLists<'a>,
    site: &Site,
    rest: &[Token<'a>],
) -> Result<(), ProofFault>
    ensures ok { let tokens = opening_token ∷ token_texts rest.now in
        OnOk result (IsReading site.now.statements site.now.index tokens
        (moves_of lists.new.entries.items lists.new.codes.items)) }
    ensures spelled { OnOk result (All HasSpelling lists.new.codes.items) }
    ensures listed { OnOk result ((labels letters : List (List ℕ))
        → IsCompressed (opening_token ∷ token_texts rest.now) labels letters
        → AreFor site.now.statements site.now.index (ids_in lists.new.ids.items) labels) }
    ensures fault { let tokens = opening_token ∷ token_texts rest.now in
        IfErr result (λ e. OnRule e (λ rule step. (step ≡ 0)
        × IsWholeFault (take site.now.index site.now.statements) tokens rule)) }
{
    let Some((listed, letters)) = parts(rest) else {
        return Err(ProofFault::Rule {
            rule: ProofRule::P1,
            step: 0,
        });
    };
    fill_numbers(
        &mut lists.ids,
        site.book,
        &mut lists.guesses,
        &site.own,
        site.id,
        listed,
    )?;
    match read_letters(&mut lists.letters, &mut lists.codes, letters) {
        Ok(()) => {}
        Err(fault) => return Err(letter_fault(fault)),
    }
    fill_entries(&mut lists.entries, site.own.hypotheses(), &lists.ids)?;
    Ok(())
}

/// Fills the lists with what says the moves of the tokens as a proof of the `$p`, or tells the
/// first of P1 to P5 that they break: with a `?` among them, one of P1 to P4.
pub fn fill_steps<'a>(
    lists: &mut ParseLists<'a>,
    site: &Site,
    tokens: &[Token<'a>],
) -> Result<(), ProofFault>
    ensures ok { OnOk result (IsReading site.now.statements site.now.index
        (token_texts tokens.now) (moves_of lists.new.entries.items lists.new.codes.items)) }
    ensures spelled { OnOk result (All HasSpelling lists.new.codes.items) }
    ensures listed { OnOk result ((labels letters : List (List ℕ))
        → IsCompressed (token_texts tokens.now) labels letters
        → AreFor site.now.statements site.now.index (ids_in lists.new.ids.items) labels) }
    ensures fault { IfErr result (λ e. OnRule e (λ rule step. (step ≡ 0)
        × IsWholeFault (take site.now.index site.now.statements) (token_texts tokens.now) rule)) }
{
    match tokens {
        [_, rest @ ..] if begins_list(tokens) => fill_compressed(lists, site, rest),
        _ => fill_normal(lists, site, tokens),
    }
}

/// Fills the lists with what says the moves of the tokens as a proof of the `$p`, or tells the
/// first of P1 to P5 that they break, or else P15, where the proof hasn't the form that the profile
/// demands.
pub(crate) fn fill_under<'a>(
    alloc: Global,
    lists: &mut ParseLists<'a>,
    profile: Profile,
    site: &Site,
    tokens: &[Token<'a>],
) -> Result<(), ProofFault>
    requires { IsSite site.now }
    // The moves are what the tokens say, and each may be made.
    ensures steps { OnOk result (OfProof site.now.statements site.now.number
        (λ index s. SaySteps site.now.statements index s
        (token_texts tokens.now) (moves_of lists.new.entries.items lists.new.codes.items))) }
    ensures usable { OnOk result
        (AreSteps site.now.statements site.now.number
        (moves_of lists.new.entries.items lists.new.codes.items)) }

    // Each code has a spelling.
    ensures spelled { OnOk result (All HasSpelling lists.new.codes.items) }

    // The proof has the form that the profile demands.
    ensures form { OnOk result (OfProof site.now.statements site.now.number (λ index s.
        HasFormOf profile (take index site.now.statements) s (token_texts tokens.now))) }

    // The rule is the first that is broken over the whole proof.
    ensures fault { IfErr result (λ e. OnRule e (λ rule step.
        OfProof site.now.statements site.now.number (λ index s. (step ≡ 0)
        × IsTextFault profile (take index site.now.statements) s (token_texts tokens.now) rule))) }
{
    fill_steps(lists, site, tokens)?;
    match profile {
        Profile::Strict => {
            judge_form(
                alloc,
                site,
                tokens,
                &lists.ids,
                &lists.entries,
                &lists.codes,
            )
        },
        Profile::Lenient => Ok(()),
    }
}

/// The moves that the tokens say as a proof of the `$p` with this number, and whether they are those
/// of the checked prefix of another. They are read in these lists, whose entries and codes go into
/// the steps.
pub(crate) fn read_steps<'a>(
    lists: &mut ParseLists<'a>,
    alloc: Global,
    profile: Profile,
    book: &Book,
    id: LabelId,
    tokens: &[Token<'a>],
    prefix: bool,
) -> Result<Steps, ProofFault>
    requires proof { (index : ℕ) × (s : Sentence) × IsProofNumber book.now.statements id.0 index s }
    requires room { sum_by length (token_texts tokens.now) ≤ most_bytes }
    ensures steps { IfOk result (λ steps. OfProof book.now.statements id.0
        (λ index s. SaySteps book.now.statements index s (token_texts tokens.now) steps.moves)) }
    ensures usable { IfOk result (λ steps. AreSteps book.now.statements id.0 steps.moves) }
    ensures form { OnOk result (OfProof book.now.statements id.0 (λ index s.
        HasFormOf profile (take index book.now.statements) s (token_texts tokens.now))) }
    ensures profile { IfOk result (λ steps. steps.profile ≡ profile) }
    ensures prefix { IfOk result (λ steps. steps.prefix ≡ prefix) }
    ensures fault { IfErr result (λ e. OnRule e (λ rule step.
        OfProof book.now.statements id.0 (λ index s. (step ≡ 0)
        × IsTextFault profile (take index book.now.statements) s (token_texts tokens.now) rule))) }
{
    let site = Site::new(book, id, profile);
    fill_under(alloc, lists, profile, &site, tokens)?;
    let (entries, codes) = lists.take_moves(alloc);
    Ok(Steps {
        profile,
        prefix,
        entries,
        codes,
    })
}

// The moves that the tokens say as a proof of the `$p` with this number, and whether they are those
// of the checked prefix of another; read in lists of its own.
fn steps_of(
    alloc: Global,
    profile: Profile,
    book: &Book,
    id: LabelId,
    tokens: &[Token],
    prefix: bool,
) -> Result<Steps, ProofFault>
    requires proof { (index : ℕ) × (s : Sentence) × IsProofNumber book.now.statements id.0 index s }
    requires room { sum_by length (token_texts tokens.now) ≤ most_bytes }
    ensures steps { IfOk result (λ steps. OfProof book.now.statements id.0
        (λ index s. SaySteps book.now.statements index s (token_texts tokens.now) steps.moves)) }
    ensures usable { IfOk result (λ steps. AreSteps book.now.statements id.0 steps.moves) }
    ensures form { OnOk result (OfProof book.now.statements id.0 (λ index s.
        HasFormOf profile (take index book.now.statements) s (token_texts tokens.now))) }
    ensures profile { IfOk result (λ steps. steps.profile ≡ profile) }
    ensures prefix { IfOk result (λ steps. steps.prefix ≡ prefix) }
    ensures fault { IfErr result (λ e. OnRule e (λ rule step.
        OfProof book.now.statements id.0 (λ index s. (step ≡ 0)
        × IsTextFault profile (take index book.now.statements) s (token_texts tokens.now) rule))) }
{
    let mut lists = ParseLists::new(alloc);
    let steps = read_steps(&mut lists, alloc, profile, book, id, tokens, prefix);
    drop(lists);
    steps
}

// The moves that the checked prefix of the tokens says as a proof of the `$p` with this number.
#[tactic(auto, using(crate::proofs::ProofTokens::QuestionMarks::prefix_room))]
fn prefix_steps(
    alloc: Global,
    profile: Profile,
    book: &Book,
    id: LabelId,
    tokens: &[Token],
) -> Result<Steps, ProofFault>
    requires proof { (index : ℕ) × (s : Sentence) × IsProofNumber book.now.statements id.0 index s }
    requires room { sum_by length (token_texts tokens.now) ≤ most_bytes }
    ensures steps { IfOk result (λ steps. OfProof book.now.statements id.0 (λ index s.
        SaySteps book.now.statements index s
        (checked_prefix (token_texts tokens.now)) steps.moves)) }
    ensures usable { IfOk result (λ steps. AreSteps book.now.statements id.0 steps.moves) }
    ensures form { OnOk result (OfProof book.now.statements id.0 (λ index s.
        HasFormOf profile (take index book.now.statements) s
        (checked_prefix (token_texts tokens.now)))) }
    ensures profile { IfOk result (λ steps. steps.profile ≡ profile) }
    ensures prefix { IfOk result (λ steps. steps.prefix ≡ true) }
    ensures fault { IfErr result (λ e. OnRule e (λ rule step. OfProof book.now.statements id.0
        (λ index s. (step ≡ 0) × IsTextFault profile (take index book.now.statements) s
        (checked_prefix (token_texts tokens.now)) rule))) }
{
    let prefix = checked_prefix(alloc, tokens)?;
    steps_of(alloc, profile, book, id, &prefix, true)
}

impl Steps {
    /// The moves that the tokens say as a proof of the `$p` with this number, which are judged
    /// under the profile; or, where a step is unknown, those of the checked prefix; or the first of
    /// P1 to P5 and then P15 that they break, at step 0. The prefix is judged as the tokens of a
    /// whole proof are.
    pub fn parse(
        alloc: Global,
        profile: Profile,
        book: &Book,
        id: LabelId,
        tokens: &[Token],
    ) -> Result<Parsed, ProofFault>
        requires proof { (index : ℕ) × (s : Sentence)
            × IsProofNumber book.now.statements id.0 index s }
        requires room { sum_by length (token_texts tokens.now) ≤ most_bytes }
        // A proof with an unknown step is reported apart.
        ensures incomplete { (steps : ReadSteps) → result ≡ Ok (Parsed.Incomplete steps)
            → IsIncomplete (token_texts tokens.now) × (steps.prefix ≡ true) }
        ensures complete { (steps : ReadSteps) → result ≡ Ok (Parsed.Steps steps)
            → ¬ (IsIncomplete (token_texts tokens.now)) × (steps.prefix ≡ false) }

        // The moves are what the tokens say, and each may be made.
        ensures steps { (steps : ReadSteps) → result ≡ Ok (Parsed.Steps steps)
            → OfProof book.now.statements id.0
            (λ index s. SaySteps book.now.statements index s
            (token_texts tokens.now) steps.moves) }
        ensures usable { (steps : ReadSteps) → result ≡ Ok (Parsed.Steps steps)
            → AreSteps book.now.statements id.0 steps.moves }

        // Those of a prefix are what it says, and each may be made.
        ensures known { (steps : ReadSteps) → result ≡ Ok (Parsed.Incomplete steps)
            → OfProof book.now.statements id.0 (λ index s. SaySteps book.now.statements index s
            (checked_prefix (token_texts tokens.now)) steps.moves) }
        ensures known_usable { (steps : ReadSteps) → result ≡ Ok (Parsed.Incomplete steps)
            → AreSteps book.now.statements id.0 steps.moves }

        // The proof, or the prefix, has the form that the profile demands.
        ensures form { (steps : ReadSteps) → result ≡ Ok (Parsed.Steps steps)
            → OfProof book.now.statements id.0 (λ index s.
            HasFormOf profile (take index book.now.statements) s (token_texts tokens.now)) }
        ensures known_form { (steps : ReadSteps) → result ≡ Ok (Parsed.Incomplete steps)
            → OfProof book.now.statements id.0 (λ index s.
            HasFormOf profile (take index book.now.statements) s
            (checked_prefix (token_texts tokens.now))) }

        // They are judged under this profile.
        ensures profile { (steps : ReadSteps) → result ≡ Ok (Parsed.Steps steps)
            → steps.profile ≡ profile }
        ensures known_profile { (steps : ReadSteps) → result ≡ Ok (Parsed.Incomplete steps)
            → steps.profile ≡ profile }

        // The rule is the first that is broken over the whole proof.
        ensures fault { ¬ (IsIncomplete (token_texts tokens.now)) → (rule : ProofRule) → (step : ℕ)
            → result ≡ Err (ProofFault.Rule rule step)
            → OfProof book.now.statements id.0 (λ index s. (step ≡ 0)
            × IsTextFault profile (take index book.now.statements) s
            (token_texts tokens.now) rule) }

        // Where a step is unknown, it is the first that is broken over the whole prefix.
        ensures known_fault { IsIncomplete (token_texts tokens.now)
            → (rule : ProofRule) → (step : ℕ) → result ≡ Err (ProofFault.Rule rule step)
            → OfProof book.now.statements id.0 (λ index s. (step ≡ 0)
            × IsTextFault profile (take index book.now.statements) s
            (checked_prefix (token_texts tokens.now)) rule) }
    {
        if is_incomplete(tokens) {
            match prefix_steps(alloc, profile, book, id, tokens) {
                Ok(steps) => Ok(Parsed::Incomplete(steps)),
                Err(fault) => Err(fault),
            }
        } else {
            match steps_of(alloc, profile, book, id, tokens, false) {
                Ok(steps) => Ok(Parsed::Steps(steps)),
                Err(fault) => Err(fault),
            }
        }
    }
}
