//! Finds where the moves of a proof stop.

ghost use Rattle.std.specs.Prelude.{◌≡◌, ◌<◌, ◌^◌, [], ◌∷◌, All, length, take, Bool};
ghost use Rattle.std.specs.Prelude.{IfOk, MatchOption};
ghost use Rattle.mm_code.specs.Letters.{HasSpelling};
ghost use Rattle.mm_step.specs.Profiles.{limit_of};
ghost use Rattle.mm_step.specs.Steps.{AreSteps};
ghost use Rattle.mm_step.specs.Plain.{ids_in};
ghost use Rattle.mm_step.specs.Stores.{numbers_in};
ghost use Rattle.mm_proof.specs.Verified.{OfMoves};
ghost use Rattle.mm_listing.specs.Halted.{HaltsProof};
ghost use Rattle.mm_proof.specs.Mirror.CodeSteps.{code_move, code_moves, moves_of};
ghost use Rattle.mm_step.specs.Mirror.CodeRun.{EndsWrong};
ghost use Rattle.mm_step.specs.Mirror.Sites.{IsSite};
ghost use Rattle.mm_listing.specs.Mirror.StackOrigins.{BreaksAfter};
ghost use Rattle.mm_listing.specs.Mirror.CodeHalts.{StandsBy, HaltsMoves};

use crate::halt::{Entries, Halt, HaltAt};
use crate::origins::{Stop, track_codes};
use mm_code::Code;
use mm_frame::{Book, LabelId, Sym, one_number};
use mm_proof::{Steps, calls_of, ending};
use mm_step::{CallTable, Flat, Profile, ProofFault, ProofRule, Site, Store};
use std::alloc::{AllocError, Global};

// What stands where the code does, whose numbers stand for these entries and then for tags.
fn place(entries: &[LabelId], code: &Code) -> HaltAt
    requires { HasSpelling code.now }
    ensures { StandsBy (code_move (ids_in entries.now) code.now) result }
{
    match code {
        Code::Number(number) => {
            let index = *number as usize - 1;
            if index < entries.len() {
                HaltAt::Label(entries[index])
            } else {
                HaltAt::Tag(index - entries.len())
            }
        }
        Code::Tag => HaltAt::Mark,
    }
}

// The rule that the moves of a proof of this expression break at their end, where they pass.
fn rule_at_end<S: Store>(store: &S, expression: &[Sym]) -> Option<ProofRule>
    ensures { MatchOption result (S.stack store.now ≡ numbers_in expression.now ∷ [])
        (λ rule. EndsWrong rule (S.stack store.now) (numbers_in expression.now)) }
{
    match ending(store, expression, 0) {
        Ok(()) => None,
        Err(ProofFault::Rule { rule, .. }) => Some(rule),
        Err(ProofFault::Memory) => unreachable!(),
    }
}

// Where the moves stop, so many of which pass, and the next of which breaks this rule first.
fn halt_at_move(
    alloc: Global,
    table: &CallTable,
    codes: &[Code],
    rule: ProofRule,
    passed: usize,
) -> Result<Halt, AllocError>
    requires site { IsSite table.now.site }
    requires spelled { All HasSpelling codes.now }
    requires room { length codes.now < 2 ^ 32 }
    requires steps { let site = table.now.site in
        AreSteps site.statements site.number (code_moves table.now.ids codes.now) }
    requires broken { BreaksAfter table.now.site (code_moves table.now.ids codes.now) rule passed }
    ensures { let site = table.now.site in
        (prefix : Bool) → IfOk result (HaltsMoves site.limit site.statements site.number prefix
        (code_moves table.now.ids codes.now)) }
{
    let mut store = Flat::new(alloc);
    match track_codes(alloc, &mut store, table, &codes[..passed]) {
        Ok(track) => Ok(Halt {
            rule: Some(rule),
            at: place(table.entries, &codes[passed]),
            passed,
            steps: track.steps,
            entries: Entries::new(store),
            origins: track.origins,
        }),
        Err(Stop::Rule { .. }) => unreachable!(),
        Err(Stop::Memory) => Err(AllocError),
    }
}

// Where the moves stop; the end is judged too, unless they are those of a prefix.
fn halt_in_frame(
    alloc: Global,
    table: &CallTable,
    codes: &[Code],
    prefix: bool,
) -> Result<Halt, AllocError>
    requires spelled { All HasSpelling codes.now }
    requires room { length codes.now < 2 ^ 32 }
    requires steps { let site = table.now.site in
        AreSteps site.statements site.number (code_moves table.now.ids codes.now) }
    ensures { let site = table.now.site in
        IfOk result (HaltsMoves site.limit site.statements site.number prefix
        (code_moves table.now.ids codes.now)) }
{
    one_number();
    let expression = table.site.expression();
    let mut store = Flat::new(alloc);
    match track_codes(alloc, &mut store, table, codes) {
        Ok(track) => {
            let rule = if prefix {
                None
            } else {
                rule_at_end(&store, expression)
            };
            Ok(Halt {
                rule,
                at: HaltAt::End,
                passed: codes.len(),
                steps: track.steps,
                entries: Entries::new(store),
                origins: track.origins,
            })
        }
        Err(Stop::Rule { rule, passed }) => {
            drop(store);
            halt_at_move(alloc, table, codes, rule, passed)
        }
        Err(Stop::Memory) => Err(AllocError),
    }
}

// Where the moves stop that the codes say.
fn halt_of_codes(
    alloc: Global,
    book: &Book,
    id: LabelId,
    entries: &[LabelId],
    codes: &[Code],
    profile: Profile,
    prefix: bool,
) -> Result<Halt, AllocError>
    requires spelled { All HasSpelling codes.now }
    requires room { length codes.now < 2 ^ 32 }
    requires steps { AreSteps book.now.statements id.0 (moves_of entries.now codes.now) }
    ensures { IfOk result (HaltsMoves (limit_of profile) book.now.statements id.0 prefix
        (moves_of entries.now codes.now)) }
{
    let site = Site::new(book, id, profile);
    let calls = calls_of(alloc, book, entries)?;
    let table = CallTable {
        site,
        entries,
        calls: &calls,
    };
    halt_in_frame(alloc, &table, codes, prefix)
}

/// Where the moves of a proof, or of the checked prefix of one, of the `$p` with this number stop.
///
/// # Errors
///
/// Where a growth was refused.
pub fn halt_of(alloc: Global, book: &Book, id: LabelId, steps: &Steps) -> Result<Halt, AllocError>
    requires steps { AreSteps book.now.statements id.0 steps.now.moves }
    // The moves before the place passed, and it is reported what they left and why no more pass.
    ensures halted { IfOk result (λ halt. OfMoves book.now.statements id.0 steps.now.moves
        (λ index s moves. HaltsProof (limit_of steps.now.profile) book.now.statements
        (take index book.now.statements) s steps.now.prefix moves halt)) }
{
    halt_of_codes(
        alloc,
        book,
        id,
        &steps.entries,
        &steps.codes,
        steps.profile,
        steps.prefix,
    )
}
