//! The run of a proof's moves that tells which steps made the entries of the stack.

ghost use Rattle.std.specs.Prelude.{◌≡◌, ◌-◌, ◌<◌, ◌≤◌, ◌^◌, ℕ, List, [], ◌∷◌, ◌++◌};
ghost use Rattle.std.specs.Prelude.{All, length, take, Err, IfOk, OnOk};
ghost use Rattle.std.specs.List.{AllByRecursion};
ghost use Rattle.mm_code.specs.Letters.{HasSpelling};
ghost use Rattle.mm_frame.specs.Rules.{AllMeant};
ghost use Rattle.mm_step.specs.declared.fault.ProofRule.{ProofRule};
ghost use Rattle.mm_step.specs.Moves.{Move};
ghost use Rattle.mm_step.specs.Steps.{AreNumberedMoves};
ghost use Rattle.mm_proof.specs.Mirror.CodeSteps.{code_moves};
ghost use Rattle.mm_step.specs.Mirror.CodeRun.{MayBeMade, HasRun};
ghost use Rattle.mm_listing.specs.Mirror.StackOrigins.{AreOriginsAt, BreaksAfter, stop_after};

use mm_code::Code;
use mm_proof::machine::run;
use mm_proof::{Judge, Machine};
use mm_step::{CallTable, ProofFault, ProofRule, Store, put_last, unmark};
use std::alloc::{AllocError, Global};

/// Why moves don't pass.
#[derive(Clone, Copy, Drop)]
pub(crate) enum Stop {
    /// The move after so many breaks the rule first.
    Rule { rule: ProofRule, passed: usize },
    /// A growth was refused.
    Memory,
}

impl From<AllocError> for Stop {
    ghost use Rattle.mm_listing.specs.declared.origins.Stop.TheVariants as stops;

    ghost from_gives = { λ _ e. e ≡ stops.Memory };

    fn from(_e: AllocError) -> Stop {
        Stop::Memory
    }
}

// Why the move after so many doesn't pass, where this is its fault.
fn stop_for(fault: ProofFault, passed: usize) -> Stop
    ensures { result ≡ stop_after fault passed }
{
    match fault {
        ProofFault::Rule { rule, .. } => Stop::Rule { rule, passed },
        ProofFault::Memory => Stop::Memory,
    }
}

/// What moves that passed have made.
#[derive(Drop)]
pub(crate) struct Track {
    /// How many of them are steps.
    pub(crate) steps: usize,
    /// For each entry of the stack, the number of the step that made it.
    pub(crate) origins: Vec<usize>,
}

/// The step that was made last has made the last entry of the stack.
pub(crate) fn put_origin<S: Store>(
    judge: &Judge<S>,
    origins: &mut Vec<usize>,
) -> Result<(), AllocError>
    requires made { 0 < length (S.stack judge.now.store.now) }
    requires within { length (S.stack judge.now.store.now) - 1 ≤ length origins.old.items }
    ensures { OnOk result
        (origins.new.items ≡ take (length (S.stack judge.now.store.now) - 1) origins.old.items
        ++ judge.now.steps ∷ []) }
{
    put_last(origins, judge.store.len() - 1, judge.steps)
}

/// What judges moves, and knows which steps made the entries of the stack.
#[derive(Drop)]
pub(crate) struct Tracker<'s, 'e, 'b, 'a, S> {
    pub(crate) judge: Judge<'s, 'e, 'b, 'a, S>,
    pub(crate) origins: &'s mut Vec<usize>,
}

impl<'s, 'e, 'b, 'a, S: Store> Tracker<'s, 'e, 'b, 'a, S> {
    ghost use Rattle.std.specs.Prelude.{◌≡◌, ◌+◌, ◌<◌, ◌^◌};

    // How many moves have passed.
    fn passed(&self) -> usize
        requires { self.now.judge.steps + self.now.judge.kept < 2 ^ 64 }
        ensures { result ≡ self.now.judge.steps + self.now.judge.kept }
    {
        self.judge.steps + self.judge.kept
    }
}

// It stops where the judge does.
impl<'s, 'e, 'b, 'a, S: Store> Machine for Tracker<'s, 'e, 'b, 'a, S> {
    ghost use Rattle.mm_listing.specs.Mirror.StackOrigins.{HasTracked, MayBeTracked, StopsAfter};

    type Fault = Stop;

    ghost entries = { λ first. first.judge.table.now.ids };

    ghost has_run = { HasTracked S.stack S.kept };

    ghost may_take = { λ first prefix move.
        MayBeTracked first.judge.table.now.site prefix move };

    ghost stops = { λ first prefix move fault.
        StopsAfter first.judge.table.now.site prefix move fault };

    fn step(&mut self, index: usize) -> Result<(), Stop> {
        let passed = self.passed();
        match self.judge.step(index) {
            Ok(()) => {
                put_origin(&self.judge, self.origins)?;
                Ok(())
            }
            Err(fault) => Err(stop_for(fault, passed)),
        }
    }

    fn step_again(&mut self, tag: usize) -> Result<(), Stop> {
        let passed = self.passed();
        match self.judge.step_again(tag) {
            Ok(()) => {
                put_origin(&self.judge, self.origins)?;
                Ok(())
            }
            Err(fault) => Err(stop_for(fault, passed)),
        }
    }

    fn mark(&mut self) -> Result<(), Stop> {
        let passed = self.passed();
        match self.judge.mark() {
            Ok(()) => Ok(()),
            Err(fault) => Err(stop_for(fault, passed)),
        }
    }
}

/// What the moves of all codes have made, where they pass.
pub(crate) fn track_codes<S: Store>(
    alloc: Global,
    store: &mut S,
    table: &CallTable,
    codes: &[Code],
) -> Result<Track, Stop>
    requires spelled { All HasSpelling codes.now }
    requires meant { let site = table.now.site in AllMeant (take site.index site.statements) }
    requires usable { let site = table.now.site in
        AllByRecursion (MayBeMade site.statements site.index)
        (code_moves table.now.ids codes.now) }
    requires names { (names : List (Move (List ℕ)))
        × AreNumberedMoves table.now.site.statements (code_moves table.now.ids codes.now) names }
    requires stack { S.stack store.old ≡ [] }
    requires kept { S.kept store.old ≡ [] }
    ensures run { let site = table.now.site in
        IfOk result (λ track. HasRun site.limit site.statements site.index
        (code_moves table.now.ids codes.now) (S.stack store.new) (S.kept store.new)
        track.steps) }
    ensures count { IfOk result (λ track. track.steps ≤ length codes.now) }
    ensures origins { let site = table.now.site in
        IfOk result (λ track. AreOriginsAt site.limit site.statements site.index
        (code_moves table.now.ids codes.now) (S.stack store.new) track.origins.items) }
    ensures stop { (rule : ProofRule) → (passed : ℕ) → result ≡ Err (Stop.Rule rule passed)
        → BreaksAfter table.now.site (code_moves table.now.ids codes.now) rule passed }
{
    let count = table.entries.len();
    let mut marks = Vec::new(alloc);
    unmark(&mut marks, count)?;
    let mut origins = Vec::new(alloc);
    let judge = Judge {
        store,
        marks: &mut marks,
        table,
        steps: 0,
        kept: 0,
    };
    let mut tracker = Tracker {
        judge,
        origins: &mut origins,
    };
    run(&mut tracker, count, codes)?;
    let steps = tracker.judge.steps;
    Ok(Track { steps, origins })
}
