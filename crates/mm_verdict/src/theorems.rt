//! The theorems of checked files, read again one after the other.

ghost use Rattle.std.specs.Prelude.{◌≡◌, [], List, IfOk, IfErr};
ghost use Rattle.mm_base.specs.Statement.{PlainStatement};
ghost use Rattle.mm_rules.specs.declared.ask.AskFault.TheVariants.{Memory};

use crate::checked::Checked;
use crate::watch::SoFar;
use mm_base::Statement;
use mm_frame::LabelId;
use mm_rules::AskFault;
use mm_text::Statements;
use std::alloc::Global;

/// The statements of checked files, read again up to one of them.
#[derive(Drop)]
pub struct Rereading<'a> {
    statements: Statements<'a>,
    /// The statement that was read last.
    pub statement: Statement<'a>,
    /// How many labelled statements were read.
    labelled: u32,
    /// How many theorems were read.
    theorems: usize,
}

impl<'a> Rereading<'a> {
    ghost use Rattle.mm_verdict.specs.Mirror.Rereading.{IsReadTo, GoesTo};

    /// The files of a database, of which nothing is read yet.
    pub fn new(alloc: Global, checked: &Checked<'a>) -> Result<Rereading<'a>, AskFault>
        ensures begun { IfOk result (IsReadTo checked.now.files []) }
        ensures memory { IfErr result (λ fault. fault ≡ Memory) }
    {
        Ok(Rereading {
            statements: checked.reader(alloc)?,
            statement: Statement::empty(alloc),
            labelled: 0,
            theorems: 0,
        })
    }

    /// Reads up to the next `$p` whose proof is complete, and answers its number; none where there
    /// is none left.
    pub fn next_theorem(&mut self, checked: &Checked<'a>) -> Result<Option<LabelId>, AskFault>
        requires { (taken : List PlainStatement) × IsReadTo checked.now.files taken self.old }
        ensures next { IfOk result (λ found. (taken : List PlainStatement)
            → IsReadTo checked.now.files taken self.old
            → GoesTo checked.now.files taken found self.new) }
        ensures memory { IfErr result (λ fault. fault ≡ Memory) }
    {
        while self.statements.more(&mut self.statement)? {
            if self.statement.label.is_some() {
                let id = LabelId(self.labelled);
                self.labelled += 1;
                if checked.is_theorem(id) {
                    self.theorems = self.theorems.saturating_add(1);
                    return Ok(Some(id));
                }
            }
        }
        Ok(None)
    }

    /// How far the reading has come, where so many bytes were saved.
    pub fn so_far(&self, checked: &Checked, bytes: usize) -> SoFar {
        SoFar {
            theorems: self.theorems,
            of: checked.proofs(),
            bytes,
        }
    }
}
