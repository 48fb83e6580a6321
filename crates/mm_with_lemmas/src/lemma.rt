//! Where a walk through statements stands: how many blocks are open, and how much of a lemma was
//! met.

ghost use Rattle.std.specs.Prelude.{◌≡◌, ◌++◌, ◌∷◌, [], List, IfSome, IsTrue};
ghost use Rattle.mm_base.specs.Statement.{PlainStatement, plain_statement};
ghost use Rattle.mm_with_lemmas.specs.Mirror.Editing.{put_statements};
ghost use Rattle.mm_with_lemmas.specs.Mirror.Walking.{IsBegun, IsBlockBegun, IsBlockProved};
ghost use Rattle.mm_with_lemmas.specs.Mirror.Walking.{IsDepthAfter, IsGrown, IsStrictIfProved};
ghost use Rattle.mm_with_lemmas.specs.Mirror.Walking.{MeetsKept, MeetsPut};

use crate::lone::Put;
use crate::replaced::is_theorem;
use crate::said::are_the_same;
use mm_base::{Kind, Statement};

/// How much of a lemma was met.
#[derive(Clone, Copy)]
pub(crate) enum Stage {
    /// Nothing: the next statement is another one, or begins a lemma.
    Outside,
    /// The beginning of its block, and perhaps some of its conditions.
    Conditions,
    /// These and its theorem.
    Proved,
}

/// Where a walk stands.
#[derive(Clone, Copy)]
pub(crate) struct Place {
    /// How many of the statements that were put were met.
    pub(crate) put: usize,
    /// How many blocks are open.
    pub(crate) depth: usize,
    /// How much of a lemma was met.
    pub(crate) stage: Stage,
}

/// How many blocks are open after a statement of a kind, where so many were open before; none
/// where it closes one that isn't open.
fn depth_after(depth: usize, kind: Kind) -> Option<usize>
    ensures { IfSome result (IsDepthAfter depth kind) }
{
    match kind {
        Kind::Opening => depth.checked_add(1),
        Kind::Closing => depth.checked_sub(1),
        _ => Some(depth),
    }
}

/// How much of a lemma a statement is that begins one; none where it begins none.
fn begun_by(statement: &Statement) -> Option<Stage>
    ensures { IfSome result (λ next. (before : List PlainStatement)
        → IsStrictIfProved before (plain_statement statement.now)
        → IsGrown next before (plain_statement statement.now ∷ [])) }
{
    if is_theorem(statement) {
        return Some(Stage::Outside);
    }
    match statement.kind {
        Kind::Opening => Some(Stage::Conditions),
        _ => None,
    }
}

/// How much of a lemma was met with a statement behind its conditions; none where it has no place
/// there.
fn behind_conditions(statement: &Statement) -> Option<Stage>
    ensures { IfSome result (λ next. (before partial : List PlainStatement)
        → IsStrictIfProved (before ++ partial) (plain_statement statement.now)
        → IsBlockBegun partial
        → IsGrown next before (partial ++ plain_statement statement.now ∷ [])) }
{
    if is_theorem(statement) {
        return Some(Stage::Proved);
    }
    match statement.kind {
        Kind::Distinct | Kind::Essential => Some(Stage::Conditions),
        _ => None,
    }
}

/// How much of a lemma was met with a statement behind its theorem; none where it has no place
/// there.
fn behind_theorem(statement: &Statement) -> Option<Stage>
    ensures { IfSome result (λ next. (before partial : List PlainStatement)
        → IsBlockProved before partial
        → IsGrown next before (partial ++ plain_statement statement.now ∷ [])) }
{
    match statement.kind {
        Kind::Closing => Some(Stage::Outside),
        _ => None,
    }
}

/// How much of a lemma was met with one more statement, where so much was met before it and so
/// many blocks are open; none where the statement has no place there.
fn stage_after(stage: Stage, depth: usize, statement: &Statement) -> Option<Stage>
    ensures grown { IfSome result (λ next. (before partial : List PlainStatement)
        → IsStrictIfProved (before ++ partial) (plain_statement statement.now)
        → IsBegun stage before partial
        → IsGrown next before (partial ++ plain_statement statement.now ∷ [])) }
    ensures outside { IfSome result (λ next. stage ≡ Stage.Outside → depth ≡ 0) }
{
    match stage {
        Stage::Outside => {
            if depth == 0 {
                begun_by(statement)
            } else {
                None
            }
        }
        Stage::Conditions => behind_conditions(statement),
        Stage::Proved => behind_theorem(statement),
    }
}

impl Place {
    /// Behind one more statement, where it is the next one that was put and goes on with a lemma.
    pub(crate) fn behind_put(self, put: &[Put], statement: &Statement) -> Option<Place>
        ensures { IfSome result (MeetsPut (put_statements put.now) self
            (plain_statement statement.now)) }
    {
        let next = put.get(self.put)?;
        if !are_the_same(statement, &next.statement) {
            return None;
        }
        let depth = depth_after(self.depth, statement.kind)?;
        let stage = stage_after(self.stage, self.depth, statement)?;
        Some(Place {
            put: self.put + 1,
            depth,
            stage,
        })
    }

    /// Whether no part of a lemma was met, and so many statements that were put.
    pub(crate) fn is_last(self, put: usize) -> bool
        ensures { IsTrue result → (self.stage ≡ Stage.Outside) × (self.put ≡ put) }
    {
        match self.stage {
            Stage::Outside => self.put == put,
            _ => false,
        }
    }

    /// Behind one more statement of this kind, where that was there, outside of lemmas.
    pub(crate) fn behind_kept(self, kind: Kind) -> Option<Place>
        ensures { IfSome result (MeetsKept self kind) }
    {
        match self.stage {
            Stage::Outside => Some(Place {
                put: self.put,
                depth: depth_after(self.depth, kind)?,
                stage: Stage::Outside,
            }),
            _ => None,
        }
    }
}
