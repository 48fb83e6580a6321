//! What each step of a proof uses, and which steps are reached from those that made what is left.

ghost use Rattle.std.specs.Prelude.{◌≡◌, ◌-◌, ◌<◌, ◌≤◌, ◌↔◌, ◌^◌, ℕ, List, [], All, length};
ghost use Rattle.std.specs.Prelude.{take, drop};
ghost use Rattle.std.specs.Prelude.{slice_get, Some, Err, Bool, false, not, IsTrue, IfOk, IfErr};
ghost use Rattle.std.specs.Prelude.{OnOk};
ghost use Rattle.std.specs.Prelude.{IsOkUnless};
ghost use Rattle.std.specs.List.{AllByRecursion};
ghost use Rattle.mm_code.specs.Letters.{HasSpelling};
ghost use Rattle.mm_frame.specs.Form.{IsSound};
ghost use Rattle.mm_frame.specs.Frame.{AreThose};
ghost use Rattle.mm_frame.specs.Rules.{AllMeant};
ghost use Rattle.mm_step.specs.declared.fault.ProofRule.{ProofRule};
ghost use Rattle.mm_proof.specs.Answer.{IsUnlessMemory};
ghost use Rattle.mm_step.specs.Moves.{Move};
ghost use Rattle.mm_proof.specs.Proof.{Prove, IsMovesFault};
ghost use Rattle.mm_step.specs.Proof.{IsWithin};
ghost use Rattle.mm_step.specs.Profiles.{limit_of};
ghost use Rattle.mm_step.specs.Steps.{AreNumberedMoves, AreSteps};
ghost use Rattle.mm_proof.specs.Verified.{OfMoves};
ghost use Rattle.mm_proof.specs.CheckedPrefix.{Pass};
ghost use Rattle.mm_listing.specs.Uses.{AreLinked, AreReached, rows_of};
ghost use Rattle.mm_proof.specs.Mirror.CodeSteps.{code_moves, moves_of};
ghost use Rattle.mm_step.specs.Mirror.CodeRun.{MayBeMade, HasRun};
ghost use Rattle.mm_listing.specs.Mirror.CodeLines.{AreLinesAt, BreaksAt, FaultsProof, expresses};
ghost use Rattle.mm_step.specs.Mirror.Sites.{IsSite};
ghost use Rattle.mm_listing.specs.Mirror.StackOrigins.{AreOriginsAt};
ghost use Rattle.mm_listing.specs.Mirror.StepUses.{sources_of, IsAskedOf, IsAmong, AreNoLater};
ghost use Rattle.mm_listing.specs.Mirror.StepUses.{AreEarlier, AreSourcesAt, AreUsesAt, LinksProof};
ghost use Rattle.mm_listing.specs.Mirror.StepUses.{AreSet};

use crate::lines::{Expressed, Line, Lister};
use crate::origins::put_origin;
use mm_code::Code;
use mm_frame::{Book, LabelId, one_number};
use mm_proof::machine::run;
use mm_proof::{Judge, Machine, Steps, calls_of, ending};
use mm_step::{Call, CallTable, Flat, Profile, ProofFault, Site, Store, unmark};
use std::alloc::{AllocError, Global};

/// The steps of a proof, with what each of them uses.
#[derive(Drop)]
pub struct UsedSteps {
    /// The steps, in order; without their expressions where the operands of `$e` alone were asked
    /// for.
    pub lines: Vec<Line>,
    /// For each step, the numbers, from 1 on, of the steps that gave it its hypotheses, all by
    /// labels.
    pub uses: Vec<Vec<usize>>,
    /// For each entry that is left on the stack, the lowest first, the number of the step by a label
    /// that made it, or that the step by a tag repeats which did. Of a whole proof there is one.
    pub roots: Vec<usize>,
    /// Each step uses earlier ones.
    ghost earlier: { AreEarlier (rows_of uses.items) },
    /// The roots are steps.
    ghost rooted: { All (IsAmong (length uses.items)) roots.items },
}

// Whether it is asked who gives the hypothesis at an index of what a label stands for.
fn is_asked(essential: bool, call: &Call, index: usize) -> bool
    ensures { IsTrue result ↔ IsAskedOf essential call.now index }
{
    if !essential {
        return true;
    }
    match call {
        Call::Hypothesis(_) => false,
        Call::Assertion(signature) => match signature.hypotheses.get(index) {
            Some(hypothesis) => hypothesis.typing.is_none(),
            None => false,
        },
    }
}

// Those that give the hypotheses that are asked for, where the steps with these numbers made the
// entries of all of them.
fn operands(
    alloc: Global,
    essential: bool,
    call: &Call,
    origins: &[usize],
    sources: &[usize],
) -> Result<Vec<usize>, AllocError>
    requires { All (IsAmong (length sources.now)) origins.now }
    ensures { IfOk result (λ used. AreThose (λ i operand. IsAskedOf essential call.now i) 0
        (sources_of sources.now origins.now) used.items) }
{
    let mut used = Vec::new(alloc);
    for (index, origin) in origins.iter().enumerate() {
        if is_asked(essential, call, index) {
            used.push(sources[*origin - 1])?;
        }
    }
    Ok(used)
}

// The same, where those are the origins from an index on.
fn last_operands(
    alloc: Global,
    essential: bool,
    call: &Call,
    origins: &[usize],
    base: usize,
    sources: &[usize],
) -> Result<Vec<usize>, AllocError>
    requires base { base ≤ length origins.now }
    requires within { All (IsAmong (length sources.now)) (drop base origins.now) }
    ensures { IfOk result (λ used. AreThose (λ i operand. IsAskedOf essential call.now i) 0
        (sources_of sources.now (drop base origins.now)) used.items) }
{
    operands(alloc, essential, call, &origins[base..], sources)
}

// The index of the last entry of the stack.
fn last_index<S: Store>(judge: &Judge<S>) -> usize
    requires { 0 < length (S.stack judge.now.store.now) }
    ensures { result ≡ length (S.stack judge.now.store.now) - 1 }
{
    judge.store.len() - 1
}

// The number of the step that the tag stands after.
fn step_before<S: Store>(lister: &Lister<S>, tag: usize) -> usize
    requires { tag < length lister.now.tags.now.items }
    ensures { slice_get lister.now.tags.now.items tag ≡ Some result }
{
    lister.tags[tag] as usize
}

// What lists moves, and links each step to those that it uses.
#[derive(Drop)]
struct Linker<'s, 'e, 'b, 'a, S> {
    lister: Lister<'s, 'e, 'b, 'a, S>,
    /// Whether the operands of `$e` alone are asked for.
    essential: bool,
    /// For each entry of the stack, the number of the step that made it.
    origins: &'s mut Vec<usize>,
    /// For each step, the number of the step by a label that it is, or repeats.
    sources: &'s mut Vec<usize>,
    /// For each step, those that it uses.
    uses: &'s mut Vec<Vec<usize>>,
}

// It stops where the lister does.
impl<'s, 'e, 'b, 'a, S: Store> Machine for Linker<'s, 'e, 'b, 'a, S> {
    ghost use Rattle.mm_proof.specs.Answer.{OnRule};
    ghost use Rattle.mm_proof.specs.Mirror.Judges.{BreaksRun};
    ghost use Rattle.mm_listing.specs.Mirror.StepUses.{HasLinked, MayBeLinked};

    type Fault = ProofFault;

    ghost entries = { λ first. first.lister.judge.table.now.ids };

    ghost has_run = { HasLinked S.stack S.kept };

    ghost may_take = { λ first prefix move.
        MayBeLinked first.lister.judge.table.now.site prefix move };

    ghost stops = { λ first prefix move fault.
        OnRule fault (BreaksRun first.lister.judge.table.now.site prefix move) };

    fn step(&mut self, index: usize) -> Result<(), ProofFault> {
        let alloc = self.lister.alloc;
        let table = self.lister.judge.table;
        let call = table.call(index);
        self.lister.step(index)?;
        let base = last_index(&self.lister.judge);
        let used = last_operands(
            alloc,
            self.essential,
            call,
            self.origins,
            base,
            self.sources,
        )?;
        self.uses.push(used)?;
        self.sources.push(self.lister.judge.steps)?;
        put_origin(&self.lister.judge, self.origins)?;
        Ok(())
    }

    fn step_again(&mut self, tag: usize) -> Result<(), ProofFault> {
        let alloc = self.lister.alloc;
        self.lister.step_again(tag)?;
        let after = step_before(&self.lister, tag);
        let source = self.sources[after - 1];
        self.uses.push(Vec::new(alloc))?;
        self.sources.push(source)?;
        put_origin(&self.lister.judge, self.origins)?;
        Ok(())
    }

    fn mark(&mut self) -> Result<(), ProofFault> {
        self.lister.mark()?;
        Ok(())
    }
}

// What moves that passed have made.
#[derive(Drop)]
struct Links {
    lines: Vec<Line>,
    origins: Vec<usize>,
    sources: Vec<usize>,
    uses: Vec<Vec<usize>>,
}

// The steps of all codes, one after the other.
fn link_codes<S: Store>(
    alloc: Global,
    store: &mut S,
    table: &CallTable,
    codes: &[Code],
    essential: bool,
    expressed: Expressed,
) -> Result<Links, ProofFault>
    requires spelled { All HasSpelling codes.now }
    requires meant { let site = table.now.site in AllMeant (take site.index site.statements) }
    requires usable { let site = table.now.site in
        AllByRecursion (MayBeMade site.statements site.index)
        (code_moves table.now.ids codes.now) }
    requires names { (names : List (Move (List ℕ)))
        × AreNumberedMoves table.now.site.statements (code_moves table.now.ids codes.now) names }
    requires room { length codes.now < 2 ^ 32 }
    requires stack { S.stack store.old ≡ [] }
    requires kept { S.kept store.old ≡ [] }
    ensures run { let site = table.now.site in
        IfOk result (λ links. HasRun site.limit site.statements site.index
        (code_moves table.now.ids codes.now) (S.stack store.new) (S.kept store.new)
        (length links.lines.items)) }
    ensures lines { let site = table.now.site in
        IfOk result (λ links. AreLinesAt site.statements (expresses expressed.entry) site.index
        (code_moves table.now.ids codes.now) links.lines.items) }
    ensures origins { let site = table.now.site in
        IfOk result (λ links. AreOriginsAt site.limit site.statements site.index
        (code_moves table.now.ids codes.now) (S.stack store.new) links.origins.items) }
    ensures sources { let site = table.now.site in
        IfOk result (λ links. AreSourcesAt site.statements (code_moves table.now.ids codes.now)
        links.sources.items × AreNoLater links.sources.items) }
    ensures uses { let site = table.now.site in
        IfOk result (λ links. AreUsesAt essential site.statements site.index
        (code_moves table.now.ids codes.now) (rows_of links.uses.items)
        × AreEarlier (rows_of links.uses.items)) }
    ensures fault { let site = table.now.site in
        (rule : ProofRule) → (at : ℕ) → result ≡ Err (ProofFault.Rule rule at)
        → BreaksAt site.limit site.statements site.index (code_moves table.now.ids codes.now)
        rule at }
{
    let count = table.entries.len();
    let mut marks = Vec::new(alloc);
    unmark(&mut marks, count)?;
    let mut lines = Vec::new(alloc);
    let mut tags = Vec::new(alloc);
    let mut origins = Vec::new(alloc);
    let mut sources = Vec::new(alloc);
    let mut uses = Vec::new(alloc);
    let judge = Judge {
        store,
        marks: &mut marks,
        table,
        steps: 0,
        kept: 0,
    };
    let lister = Lister {
        alloc,
        judge,
        expressed,
        lines: &mut lines,
        tags: &mut tags,
    };
    let mut linker = Linker {
        lister,
        essential,
        origins: &mut origins,
        sources: &mut sources,
        uses: &mut uses,
    };
    run(&mut linker, count, codes)?;
    Ok(Links {
        lines,
        origins,
        sources,
        uses,
    })
}

// What the steps with these numbers stand for.
fn sources_at(alloc: Global, origins: &[usize], sources: &[usize]) -> Result<Vec<usize>, AllocError>
    requires { All (IsAmong (length sources.now)) origins.now }
    ensures { IfOk result (λ found. found.items ≡ sources_of sources.now origins.now) }
{
    let mut found = Vec::new(alloc);
    for origin in origins {
        found.push(sources[*origin - 1])?;
    }
    Ok(found)
}

// The steps with what each uses, and the roots.
fn used_steps(alloc: Global, links: Links) -> Result<UsedSteps, AllocError>
    requires among { All (IsAmong (length links.sources.items)) links.origins.items }
    requires long { length (rows_of links.uses.items) ≡ length links.sources.items }
    requires no_later { AreNoLater links.sources.items }
    requires earlier { AreEarlier (rows_of links.uses.items) }
    ensures { IfOk result (λ used. (used.lines.items ≡ links.lines.items)
        × (used.uses.items ≡ links.uses.items)
        × (used.roots.items ≡ sources_of links.sources.items links.origins.items)) }
{
    let roots = sources_at(alloc, &links.origins, &links.sources)?;
    Ok(UsedSteps {
        lines: links.lines,
        uses: links.uses,
        roots,
    })
}

// The steps of the moves, or their first fault.
fn links_in_frame<S: Store>(
    alloc: Global,
    store: &mut S,
    table: &CallTable,
    codes: &[Code],
    essential: bool,
) -> Result<UsedSteps, ProofFault>
    requires spelled { All HasSpelling codes.now }
    requires room { length codes.now < 2 ^ 32 }
    requires stack { S.stack store.old ≡ [] }
    requires kept { S.kept store.old ≡ [] }
    requires steps { let site = table.now.site in
        AreSteps site.statements site.number (code_moves table.now.ids codes.now) }
    ensures linked { let site = table.now.site in
        IfOk result (λ used. LinksProof site.limit essential site.statements site.number
        (code_moves table.now.ids codes.now) used.lines.items (rows_of used.uses.items)
        used.roots.items) }
    ensures fault { let site = table.now.site in
        IfErr result (FaultsProof site.limit site.statements site.number
        (code_moves table.now.ids codes.now)) }
{
    one_number();
    let expression = table.site.expression();
    let expressed = Expressed {
        all: !essential,
        flags: &[],
    };
    let links = link_codes(alloc, store, table, codes, essential, expressed)?;
    ending(store, expression, links.lines.len() + 1)?;
    Ok(used_steps(alloc, links)?)
}

// The steps of the moves, or their first fault.
fn links_of_proof(
    alloc: Global,
    book: &Book,
    id: LabelId,
    entries: &[LabelId],
    codes: &[Code],
    profile: Profile,
    essential: bool,
) -> Result<UsedSteps, ProofFault>
    requires spelled { All HasSpelling codes.now }
    requires room { length codes.now < 2 ^ 32 }
    requires steps { AreSteps book.now.statements id.0 (moves_of entries.now codes.now) }
    ensures linked { IfOk result (λ used. LinksProof (limit_of profile) essential
        book.now.statements id.0 (moves_of entries.now codes.now) used.lines.items
        (rows_of used.uses.items) used.roots.items) }
    ensures fault { IfErr result (FaultsProof (limit_of profile) book.now.statements id.0
        (moves_of entries.now codes.now)) }
    ensures sound { IsSound book.now.statements }
{
    let site = Site::new(book, id, profile);
    let calls = calls_of(alloc, book, entries)?;
    let table = CallTable {
        site,
        entries,
        calls: &calls,
    };
    let mut store = Flat::new(alloc);
    links_in_frame(alloc, &mut store, &table, codes, essential)
}

/// The steps of the `$p` with this number, which these moves prove, as `listing` tells them; and
/// for each the steps that gave it its mandatory hypotheses, in their order. If `essential`, its
/// `$e` alone, and the lines are without their expressions, which `partial_lines_before` tells of
/// those steps that are wanted. Where a step by a tag put an entry there, it is the step by a label
/// that the tag repeats. A step by a tag has none.
///
/// # Errors
///
/// As for `listing`.
pub fn uses_of(
    alloc: Global,
    book: &Book,
    id: LabelId,
    steps: &Steps,
    essential: bool,
) -> Result<UsedSteps, ProofFault>
    requires steps { AreSteps book.now.statements id.0 steps.now.moves }
    requires whole { steps.now.prefix ≡ false }
    // The lines are those of the steps, and the rows what each of them uses.
    ensures used { IfOk result (λ used. OfMoves book.now.statements id.0 steps.now.moves
        (λ index s moves. AreLinked essential book.now.statements (take index book.now.statements)
        moves used.lines.items (rows_of used.uses.items) used.roots.items)) }

    // The rule and the step are those of the first fault.
    ensures fault { (rule : ProofRule) → (step : ℕ) → result ≡ Err (ProofFault.Rule rule step)
        → OfMoves book.now.statements id.0 steps.now.moves
        (λ index s moves. IsMovesFault (IsWithin (limit_of steps.now.profile))
        (take index book.now.statements) s moves rule step) }

    // What is proved is listed, unless memory is refused.
    ensures accepts { OfMoves book.now.statements id.0 steps.now.moves
        (λ index s moves.
        Prove (IsWithin (limit_of steps.now.profile)) (take index book.now.statements) s moves
        → IsOkUnless result ProofFault.Memory) }

    // What has a fault is answered with it, unless memory is refused.
    ensures refuses { OfMoves book.now.statements id.0 steps.now.moves
        (λ index s moves. (rule : ProofRule) → (step : ℕ) → IsMovesFault
        (IsWithin (limit_of steps.now.profile)) (take index book.now.statements) s moves rule step
        → IsUnlessMemory result (Err (ProofFault.Rule rule step))) }
{
    links_of_proof(
        alloc,
        book,
        id,
        &steps.entries,
        &steps.codes,
        steps.profile,
        essential,
    )
}

// The steps among so many first moves, which pass.
fn links_of_front(
    alloc: Global,
    table: &CallTable,
    codes: &[Code],
    passed: usize,
    essential: bool,
) -> Result<UsedSteps, AllocError>
    requires site { IsSite table.now.site }
    requires spelled { All HasSpelling codes.now }
    requires room { length codes.now < 2 ^ 32 }
    requires within { passed ≤ length codes.now }
    requires steps { let site = table.now.site in
        AreSteps site.statements site.number (code_moves table.now.ids codes.now) }
    requires pass { let site = table.now.site in
        OfMoves site.statements site.number (code_moves table.now.ids codes.now)
        (λ index s moves.
        Pass (IsWithin site.limit) (take index site.statements) (take passed moves)) }
    ensures { let site = table.now.site in IfOk result (λ used.
        OfMoves site.statements site.number (code_moves table.now.ids codes.now)
        (λ index s moves. AreLinked essential site.statements (take index site.statements)
        (take passed moves) used.lines.items (rows_of used.uses.items) used.roots.items)) }
{
    let mut store = Flat::new(alloc);
    let expressed = Expressed {
        all: !essential,
        flags: &[],
    };
    match link_codes(
        alloc,
        &mut store,
        table,
        &codes[..passed],
        essential,
        expressed,
    ) {
        Ok(links) => used_steps(alloc, links),
        Err(ProofFault::Memory) => Err(AllocError),
        // These moves pass.
        Err(ProofFault::Rule { .. }) => unreachable!(),
    }
}

// The steps among so many first moves that the codes say.
fn links_of_first_codes(
    alloc: Global,
    book: &Book,
    id: LabelId,
    entries: &[LabelId],
    codes: &[Code],
    profile: Profile,
    front: (usize, bool),
) -> Result<UsedSteps, AllocError>
    requires spelled { All HasSpelling codes.now }
    requires room { length codes.now < 2 ^ 32 }
    requires within { front.0 ≤ length codes.now }
    requires steps { AreSteps book.now.statements id.0 (moves_of entries.now codes.now) }
    requires pass { OfMoves book.now.statements id.0 (moves_of entries.now codes.now)
        (λ index s moves. Pass (IsWithin (limit_of profile)) (take index book.now.statements)
        (take front.0 moves)) }
    ensures { IfOk result (λ used.
        OfMoves book.now.statements id.0 (moves_of entries.now codes.now)
        (λ index s moves. AreLinked front.1 book.now.statements (take index book.now.statements)
        (take front.0 moves) used.lines.items (rows_of used.uses.items) used.roots.items)) }
{
    let site = Site::new(book, id, profile);
    let calls = calls_of(alloc, book, entries)?;
    let table = CallTable {
        site,
        entries,
        calls: &calls,
    };
    links_of_front(alloc, &table, codes, front.0, front.1)
}

/// The steps among so many first moves of the `$p` with this number, which pass, as `uses_of` tells
/// them.
///
/// # Errors
///
/// Where a growth was refused.
pub fn uses_before(
    alloc: Global,
    book: &Book,
    id: LabelId,
    steps: &Steps,
    passed: usize,
    essential: bool,
) -> Result<UsedSteps, AllocError>
    requires steps { AreSteps book.now.statements id.0 steps.now.moves }
    requires within { passed ≤ length steps.now.moves }
    requires pass { OfMoves book.now.statements id.0 steps.now.moves
        (λ index s moves. Pass (IsWithin (limit_of steps.now.profile))
        (take index book.now.statements) (take passed moves)) }
    ensures used { IfOk result (λ used. OfMoves book.now.statements id.0 steps.now.moves
        (λ index s moves. AreLinked essential book.now.statements (take index book.now.statements)
        (take passed moves) used.lines.items (rows_of used.uses.items) used.roots.items)) }
{
    links_of_first_codes(
        alloc,
        book,
        id,
        &steps.entries,
        &steps.codes,
        steps.profile,
        (passed, essential),
    )
}

// Notes that the steps with these numbers are reached.
fn reach(reached: &mut Vec<bool>, used: &[usize])
    requires { All (IsAmong (length reached.old.items)) used.now }
    ensures { AreSet reached.old.items reached.new.items used.now }
{
    for step in used {
        reached[*step - 1] = true;
    }
}

impl UsedSteps {
    /// For each step, whether it is reached: the roots are, and what a step that is reached uses.
    ///
    /// # Errors
    ///
    /// Where a growth was refused.
    pub fn reached(&self, alloc: Global) -> Result<Vec<bool>, AllocError>
        ensures { IfOk result (λ reached.
            AreReached self.now.roots.items (rows_of self.now.uses.items) reached.items) }
    {
        let mut reached = Vec::new(alloc);
        unmark(&mut reached, self.uses.len())?;
        reach(&mut reached, &self.roots);
        for index in (0..self.uses.len()).rev() {
            if reached[index] {
                reach(&mut reached, &self.uses[index]);
            }
        }
        Ok(reached)
    }
}
