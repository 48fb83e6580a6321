//! The statements of the handed files, one after the other.

ghost use Rattle.std.specs.Prelude.{◌≡◌, true, map, Ok, Err, IfOk, IfErr};
ghost use Rattle.mm_base.specs.Statement.{plain_statement, HasForm};
ghost use Rattle.mm_text.specs.Files.{plain_file, BreaksLoad};
ghost use Rattle.mm_text.specs.Reading.{IsInPlace};
ghost use Rattle.mm_text.specs.Remaining.{Begins, Gives, IsUnread, ReadsOn};
ghost use Rattle.mm_text.specs.declared.fault.LoadRule.{LoadRule};
ghost use Rattle.mm_text.specs.declared.fault.TextFault.TheVariants.{Memory};
ghost use Rattle.mm_text.specs.Mirror.Steps.{plain_scope};
ghost use Rattle.mm_text.specs.Mirror.ReaderState.{AreFew, AnswersIn};

use crate::cursor::Cursor;
use crate::fault::TextFault;
use crate::parts::statement;
use crate::scope::Scope;
use mm_base::{File, Seed, Statement};
use std::alloc::{AllocError, Global};
use std::marker::Model;

/// What reading has come to.
#[derive(Clone, Copy, Drop)]
enum State<'a> {
    /// The next call reads on.
    Reading,
    /// The end was answered.
    Ended,
    /// This fault was answered.
    Failed(TextFault<'a>),
}

/// A reader of the statements that the handed files hold.
#[derive(Drop)]
pub struct Statements<'a> {
    files: &'a [File<'a>],
    cursor: Cursor<'a>,
    scope: Scope,
    state: State<'a>,
}

impl<'a> Model for Statements<'a> {
    ghost use Rattle.mm_text.specs.Remaining.{Remaining};

    ghost Value = { Remaining };

    ghost use Rattle.mm_text.specs.Mirror.ReaderState.{remaining_of, IsReader};

    ghost view = { remaining_of };

    ghost invariant = { IsReader };
}

/// What a call answers in a state.
fn answer<'a>(
    state: State<'a>,
    cursor: &mut Cursor<'a>,
    into: &mut Statement<'a>,
    scope: &mut Scope,
) -> Result<bool, TextFault<'a>>
    requires { AreFew state scope.now.count 0 }
    ensures { AnswersIn state.entry (plain_scope scope.old) cursor.old
        result (plain_statement into.new) (plain_scope scope.new) cursor.new }
{
    match state {
        State::Reading => statement(cursor, into, scope),
        State::Ended => Ok(false),
        State::Failed(fault) => Err(fault),
    }
}

impl<'a> Statements<'a> {
    /// A reader of the handed files, of which the first is the top file.
    ///
    /// The files are judged as a whole first, in this order: `Load(F1)` where there is none,
    /// `Load(F2)` where two have one name, `Load(F3)` where they hold over 1,073,741,824 bytes in
    /// all. Else `Memory` alone can be wanting: the names and the open files are kept. The hashes
    /// of the files' names begin from the seed.
    #[tactic(auto, using(crate::proofs::Reader::WholeReadings::start_steps))]
    pub fn new(
        alloc: Global,
        seed: Seed,
        files: &'a [File<'a>],
    ) -> Result<Statements<'a>, TextFault<'a>>
        ensures { Begins (map plain_file files.now) result }
    {
        Ok(Statements {
            files,
            cursor: Cursor::new(alloc, seed, files)?,
            scope: Scope::new(alloc),
            state: State::Reading,
        })
    }

    /// A reader of handed files that break no rule as a whole.
    pub fn of_readable(
        alloc: Global,
        seed: Seed,
        files: &'a [File<'a>],
    ) -> Result<Statements<'a>, AllocError>
        requires { (rule : LoadRule) → ¬ (BreaksLoad (map plain_file files.now) rule) }
        ensures { IfOk result (IsUnread (map plain_file files.now)) }
    {
        match Statements::new(alloc, seed, files) {
            Ok(statements) => Ok(statements),
            Err(TextFault::Memory) => Err(AllocError),
            // The files break no rule as a whole, and no token was read.
            Err(TextFault::Load(_) | TextFault::Fault { .. }) => unreachable!(),
        }
    }

    /// Reads the next statement into `into`; `false` at the end. The lists of `into` keep their
    /// room, and are empty after `false` and after a fault.
    ///
    /// The first fault of the text, of the rules X and S, is answered once every statement before
    /// it was given. `Memory` is answered where a list of `into` or a list of the reader could not
    /// grow.
    /// A fault, `Memory` included, is answered again by every later call, and so is the end.
    pub fn read(&mut self, into: &mut Statement<'a>) -> Result<bool, TextFault<'a>>
        ensures gives { Gives self.old result self.new (plain_statement into.new) }
        ensures formed { result ≡ Ok true → HasForm (plain_statement into.new) }
        ensures in_place { result ≡ Ok true → IsInPlace self.old.files (plain_statement into.new) }
    {
        let answer = answer(self.state, &mut self.cursor, into, &mut self.scope);
        match answer {
            Ok(true) => return answer,
            Ok(false) => self.state = State::Ended,
            Err(fault) => self.state = State::Failed(fault),
        }
        into.clear();
        answer
    }

    /// Reads the next statement into `into`, as `read` does; `false` where none is left, at the
    /// end of the text or at its fault. Which of them it is, `read` still answers.
    pub fn more(&mut self, into: &mut Statement<'a>) -> Result<bool, AllocError>
        ensures on { IfOk result (λ more.
            ReadsOn self.old more (plain_statement into.new) self.new) }
        ensures formed { result ≡ Ok true → HasForm (plain_statement into.new) }
        ensures in_place { result ≡ Ok true → IsInPlace self.old.files (plain_statement into.new) }
        ensures memory { IfErr result (λ fault.
            Gives self.old (Err Memory) self.new (plain_statement into.new)) }
    {
        match self.read(into) {
            Ok(more) => Ok(more),
            Err(TextFault::Fault { .. }) => Ok(false),
            Err(TextFault::Memory) => Err(AllocError),
            // A rule of the files as a whole is given by `new`.
            Err(TextFault::Load(_)) => unreachable!(),
        }
    }
}
