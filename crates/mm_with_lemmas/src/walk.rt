//! Two readings side by side, statement by statement: the files as they were, and with lemmas.

ghost use Rattle.std.specs.Prelude.{◌≡◌, ◌<◌, List, map, IfOk, IsTrue};
ghost use Rattle.mm_base.specs.Statement.{PlainStatement, plain_statement, HasForm};
ghost use Rattle.mm_text.specs.Files.{plain_file};
ghost use Rattle.mm_rules.specs.Verdict.{sentences};
ghost use Rattle.mm_verdict.specs.Mirror.Rereading.{label_count};
ghost use Rattle.mm_with_lemmas.specs.Mirror.Editing.{put_statements};
ghost use Rattle.mm_with_lemmas.specs.Mirror.Walking.{AreParts, GoesOver, IsBegunWalk, IsNext};
ghost use Rattle.mm_with_lemmas.specs.Mirror.Walking.{IsToldReading, IsWalkedAll, count_with};

use crate::anew::{is_strict_if_proved, may_read};
use crate::comment::is_comment_kept;
use crate::lemma::{Place, Stage};
use crate::lone::Put;
use mm_base::{File, Statement};
use mm_frame::{Book, LabelId};
use mm_proof::StepsReader;
use mm_text::Statements;
use std::alloc::{AllocError, Global};

/// What the statements that are read now are compared with.
#[derive(Clone, Copy)]
pub(crate) struct Sides<'s> {
    /// The files as they were.
    pub(crate) files: &'s [File<'s>],
    /// The files with lemmas.
    pub(crate) anew: &'s [File<'s>],
    /// The book of these.
    pub(crate) book: &'s Book<'s>,
    /// What is put in.
    pub(crate) put: &'s [Put<'s>],
    /// The number of the file into which it is put.
    pub(crate) number: usize,
}

/// How far two readings have come.
#[derive(Drop)]
pub(crate) struct Walk<'o> {
    /// The old statements that weren't met yet.
    left: Statements<'o>,
    /// The old one that was met last.
    former: Statement<'o>,
    /// How many labelled ones of those that are read now were met.
    labelled: u32,
    /// Where these stand.
    place: Place,
}

impl<'o> Walk<'o> {
    /// Before all statements.
    pub(crate) fn new(alloc: Global, left: Statements<'o>) -> Walk<'o>
        ensures { IsBegunWalk left.entry result }
    {
        Walk {
            left,
            former: Statement::empty(alloc),
            labelled: 0,
            place: Place {
                put: 0,
                depth: 0,
                stage: Stage::Outside,
            },
        }
    }

    /// Whether a statement should be the next one that was put: where it begins is one's place, or
    /// a part of a lemma was met.
    fn expects_put(&self, sides: &Sides, statement: &Statement) -> bool {
        match self.place.stage {
            Stage::Outside => match sides.put.get(self.place.put) {
                Some(next) => {
                    statement.first.file == sides.number && next.at == statement.first.at as usize
                }
                None => false,
            },
            _ => true,
        }
    }

    /// Over a statement that was put in, if it may stand there.
    fn put_in<'a>(
        &mut self,
        alloc: Global,
        sides: &Sides,
        reader: &mut StepsReader<'a>,
        statement: &Statement<'a>,
    ) -> Result<bool, AllocError>
        requires { (before : List PlainStatement)
            × IsNext sides.now.book.now.statements self.old.labelled before
            (plain_statement statement.now) }
        ensures over { IfOk result (λ over. IsTrue over
            → GoesOver (map plain_file sides.now.files.now) (map plain_file sides.now.anew.now)
            sides.now.book.now.statements (put_statements sides.now.put.now) self.old.labelled
            self.old.left.statements self.old.place (plain_statement statement.now)
            self.new.left.statements self.new.place) }
        ensures count { self.new.labelled ≡ self.old.labelled }
    {
        let id = LabelId(self.labelled);
        if !is_strict_if_proved(alloc, sides.book, reader, id, statement)? {
            return Ok(false);
        }
        let Some(place) = self.place.behind_put(sides.put, statement) else {
            return Ok(false);
        };
        self.place = place;
        Ok(true)
    }

    /// Over a statement that was there, if it may stand there.
    fn keep<'a>(
        &mut self,
        alloc: Global,
        sides: &Sides,
        reader: &mut StepsReader<'a>,
        statement: &Statement<'a>,
    ) -> Result<bool, AllocError>
        requires { (before : List PlainStatement)
            × IsNext sides.now.book.now.statements self.old.labelled before
            (plain_statement statement.now) }
        ensures over { IfOk result (λ over. IsTrue over
            → GoesOver (map plain_file sides.now.files.now) (map plain_file sides.now.anew.now)
            sides.now.book.now.statements
            (put_statements sides.now.put.now) self.old.labelled self.old.left.statements
            self.old.place (plain_statement statement.now) self.new.left.statements
            self.new.place) }
        ensures count { self.new.labelled ≡ self.old.labelled }
    {
        if !self.left.more(&mut self.former)? {
            return Ok(false);
        }
        let Some(place) = self.place.behind_kept(statement.kind) else {
            return Ok(false);
        };
        self.place = place;
        if !is_comment_kept(sides.files, sides.anew, &self.former, statement) {
            return Ok(false);
        }
        let id = LabelId(self.labelled);
        may_read(
            alloc,
            sides.files,
            sides.book,
            reader,
            id,
            &self.former,
            statement,
        )
    }

    /// Over one more statement of the files with lemmas, if it may stand there.
    fn go_over<'a>(
        &mut self,
        alloc: Global,
        sides: &Sides,
        reader: &mut StepsReader<'a>,
        statement: &Statement<'a>,
    ) -> Result<bool, AllocError>
        requires { (before : List PlainStatement)
            × IsNext sides.now.book.now.statements self.old.labelled before
            (plain_statement statement.now) }
        ensures over { IfOk result (λ over. IsTrue over
            → GoesOver (map plain_file sides.now.files.now) (map plain_file sides.now.anew.now)
            sides.now.book.now.statements
            (put_statements sides.now.put.now) self.old.labelled self.old.left.statements
            self.old.place (plain_statement statement.now) self.new.left.statements
            self.new.place) }
        ensures count { self.new.labelled ≡ self.old.labelled }
    {
        if self.expects_put(sides, statement) {
            return self.put_in(alloc, sides, reader, statement);
        }
        self.keep(alloc, sides, reader, statement)
    }

    /// Counts a statement that was met.
    fn count(&mut self, statement: &Statement)
        requires { count_with self.old.labelled (plain_statement statement.now) < 4294967295 }
        ensures count { self.new.labelled
            ≡ count_with self.old.labelled (plain_statement statement.now) }
        ensures left { self.new.left ≡ self.old.left }
        ensures place { self.new.place ≡ self.old.place }
    {
        if statement.label.is_some() {
            self.labelled += 1;
        }
    }

    /// Whether nothing of the old statements is left, nor of those that were put.
    fn is_over(&mut self, sides: &Sides) -> Result<bool, AllocError>
        ensures { IfOk result (λ over. IsTrue over
            → IsWalkedAll (put_statements sides.now.put.now) self.old.left.statements
            self.old.place) }
    {
        if self.left.more(&mut self.former)? {
            return Ok(false);
        }
        Ok(self.place.is_last(sides.put.len()))
    }

    /// Over all statements of the files with lemmas, if each may stand where it does.
    pub(crate) fn goes_over_all<'a>(
        &mut self,
        alloc: Global,
        sides: &Sides,
        reader: &mut StepsReader<'a>,
        statements: &mut Statements<'a>,
    ) -> Result<bool, AllocError>
        requires begun { IsBegunWalk self.old.left self.old }
        requires told { IsToldReading sides.now.book.now.statements statements.old.statements }
        ensures { IfOk result (λ over. IsTrue over → AreParts (map plain_file sides.now.files.now)
            (map plain_file sides.now.anew.now)
            self.old.left.statements statements.old.statements
            (put_statements sides.now.put.now)) }
    {
        let mut statement = Statement::empty(alloc);
        while statements.more(&mut statement)? {
            if !self.go_over(alloc, sides, reader, &statement)? {
                return Ok(false);
            }
            self.count(&statement);
        }
        self.is_over(sides)
    }
}
