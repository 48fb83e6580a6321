//! Visitors: what goes along with the one loop over statements.

ghost use Rattle.std.specs.Prelude.{◌≡◌, []};

use crate::fault::Stop;
use crate::judge::Judged;
use mm_base::Statement;
use mm_frame::Book;

/// What sees each statement of a database as soon as it is judged, with what it came to. It may
/// stop at a proof that is refused, or go on.
pub trait Visitor<'a> {
    ghost use Rattle.std.specs.Prelude.{List, OnOk, IfErr};
    ghost use Rattle.mm_base.specs.Statement.{PlainStatement, plain_statement, HasForm};
    ghost use Rattle.mm_text.specs.Files.{PlainFile};
    ghost use Rattle.mm_step.specs.declared.profile.Profile.{Profile};
    ghost use Rattle.mm_rules.specs.Verdict.{PlainRefusal};
    ghost use Rattle.mm_rules.specs.Mirror.Visits.{IsSeenNext, Sees, StopsAt};

    /// What it is after these statements of the files, and the refusals of those whose proofs are
    /// at fault, since the first state.
    ghost has_seen: { Profile → List PlainFile → Self → Self → List PlainStatement
        → List PlainRefusal → Type 0 };

    /// Whether it may stop at a proof that is refused.
    ghost may_stop: { Type 0 };

    /// Sees a statement that breaks no rule of meaning, and what it came to. The book took it last.
    fn see(
        &mut self,
        book: &Book<'a>,
        statement: &Statement<'a>,
        judged: Judged<'a>,
    ) -> Result<(), Stop<'a>>
        requires formed { HasForm (plain_statement statement.now) }
        requires next { IsSeenNext has_seen self.old book.now.statements
            (plain_statement statement.now) judged }
        ensures seen { OnOk result (Sees has_seen self.old book.now.statements
            (plain_statement statement.now) judged.entry self.new) }
        ensures stopped { IfErr result (StopsAt may_stop self.old judged.entry self.new) };
}

/// A visitor that stops at the first fault.
#[derive(Drop)]
pub struct Nobody;

impl<'a> Visitor<'a> for Nobody {
    ghost has_seen = { λ profile files first now statements listed. listed ≡ [] };

    ghost may_stop = { Unit {0} };

    fn see(
        &mut self,
        _book: &Book<'a>,
        _statement: &Statement<'a>,
        judged: Judged<'a>,
    ) -> Result<(), Stop<'a>> {
        match judged {
            Judged::Faulty(refusal) => Err(Stop::Refused(refusal)),
            _ => Ok(()),
        }
    }
}
