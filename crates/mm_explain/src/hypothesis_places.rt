//! Source positions of the hypotheses that a proof fault lists.

ghost use Rattle.std.specs.Prelude.{◌≡◌, ◌++◌, ℕ, List, map, OnOk};
ghost use Rattle.mm_text.specs.Files.{plain_file};
ghost use Rattle.mm_step.specs.declared.profile.Profile.{Profile};
ghost use Rattle.mm_facts.specs.Explained.{Detail, details_text};
ghost use Rattle.mm_explain.specs.HypothesisPlaces.{AreHypothesisPlaces, AreStopPlaces};
ghost use Rattle.mm_explain.specs.HypothesisPlaces.{AreTokenPlaces, tells_own as tells_own_of};
ghost use Rattle.mm_explain.specs.Mirror.Outlined.{IsKeptOutline};
ghost use Rattle.mm_explain.specs.Mirror.SemanticErrors.{Site};
ghost use Rattle.mm_facts.specs.Mirror.Explaining.{IsCauseOf};
ghost use Rattle.mm_explain.specs.Mirror.Standing.{IsPlaced};
ghost use Rattle.mm_rules.specs.Verdict.{proof_of};

use crate::outline::{Outline, first_of};
use crate::own_hypotheses::push_own_hypotheses;
use crate::scope::push_scope;
use mm_facts::Cause;
use mm_frame::{Book, LabelId};
use mm_step::ProofRule;
use std::alloc::AllocError;

/// Whether the theorem's own hypotheses are reported where the rule is broken.
fn tells_own(rule: ProofRule) -> bool
    ensures { result ≡ tells_own_of rule }
{
    matches!(
        rule,
        ProofRule::P8 | ProofRule::P9 | ProofRule::P10 | ProofRule::P13 | ProofRule::P14
    )
}

/// The places that are told of a token at which a rule over the whole of a proof is broken, where
/// so many statements stand before the `$p`.
fn push_at_token(
    out: &mut Vec<u8>,
    outline: &mut Outline,
    count: usize,
    rule: ProofRule,
    text: &[u8],
) -> Result<(), AllocError>
    requires site { Site (map plain_file outline.old.files.now) count }
    requires outline { IsKeptOutline (map plain_file outline.old.files.now) outline.old }
    ensures told { OnOk result ((site : Site (map plain_file outline.old.files.now) count)
        → (details : List Detail)
        × AreTokenPlaces (map plain_file outline.old.files.now) site.before rule text.now details
        × (out.new.items ≡ out.old.items ++ details_text details)) }
    ensures kept { OnOk result
        (IsKeptOutline (map plain_file outline.old.files.now) outline.new) }
{
    match rule {
        ProofRule::P3 => {
            outline.read()?;
            push_scope(out, outline.files, first_of(&outline.briefs, count), text)
        }
        _ => Ok(()),
    }
}

/// The places that are reported where moves stop by the rule.
fn push_at_stop(
    out: &mut Vec<u8>,
    outline: &mut Outline,
    book: &Book,
    id: LabelId,
    rule: ProofRule,
) -> Result<(), AllocError>
    requires placed { (count : ℕ)
        × IsPlaced (map plain_file outline.old.files.now) book.now.statements id.0 count }
    requires outline { IsKeptOutline (map plain_file outline.old.files.now) outline.old }
    ensures told { OnOk result ((count : ℕ)
        (p : IsPlaced (map plain_file outline.old.files.now) book.now.statements id.0 count)
        → (details : List Detail)
        × AreStopPlaces (map plain_file outline.old.files.now) p.site.before p.site.s rule details
        × (out.new.items ≡ out.old.items ++ details_text details)) }
    ensures kept { OnOk result
        (IsKeptOutline (map plain_file outline.old.files.now) outline.new) }
{
    if tells_own(rule) {
        push_own_hypotheses(out, outline, book, id)
    } else {
        Ok(())
    }
}

/// The places of hypotheses that are told of a fault by the rule, whose cause this is, in the proof
/// of the `$p` with the number, before which so many statements stand.
pub(crate) fn push_hypothesis_places(
    out: &mut Vec<u8>,
    outline: &mut Outline,
    book: &Book,
    place: (LabelId, usize),
    cause: &Cause,
    rule: ProofRule,
) -> Result<(), AllocError>
    requires placed { IsPlaced (map plain_file outline.old.files.now) book.now.statements
        place.0.0 place.1 }
    requires outline { IsKeptOutline (map plain_file outline.old.files.now) outline.old }
    ensures told { OnOk result
        ((p : IsPlaced (map plain_file outline.old.files.now) book.now.statements place.0.0
        place.1) (profile : Profile) (step : ℕ)
        → IsCauseOf profile book.now.statements place.0.0 (proof_of p.site.s) rule step cause.now
        → (details : List Detail)
        × AreHypothesisPlaces (map plain_file outline.old.files.now) p.site.before p.site.s rule
        step details
        × (out.new.items ≡ out.old.items ++ details_text details)) }
    ensures kept { OnOk result
        (IsKeptOutline (map plain_file outline.old.files.now) outline.new) }
{
    match cause {
        Cause::Token { text, .. } => push_at_token(out, outline, place.1, rule, text),
        Cause::Moves { .. } => push_at_stop(out, outline, book, place.0, rule),
    }
}
