//! Room for a whole database, made before its first statement, so that its lists need not be moved
//! while they grow.

ghost use Rattle.std.specs.Prelude.{◌≡◌};
ghost use Rattle.mm_frame.specs.Mirror.Grows.{SameLists};
ghost use Rattle.mm_frame.specs.Mirror.ScopesOf.{HaveSameLists};

use crate::book::Book;
use crate::scopes::Scopes;
use crate::tables::Tables;

// In so many bytes of a database there is one statement at most, one label and so on, as a rule:
// great databases have about half as many. Where there are more, the lists grow as they would
// without this; and where there are fewer, the room takes no memory until it is written.
const STATEMENT_BYTES: usize = 64;

const LABEL_BYTES: usize = 128;

const SYMBOL_BYTES: usize = 12;

const PIECE_BYTES: usize = 10;

const HYPOTHESIS_BYTES: usize = 64;

const PAIR_BYTES: usize = 96;

// The table by which labels are found is written as soon as it is made, so that it is made for few.
const NAME_BYTES: usize = 384;

const MOST_NAMES: usize = 65_536;

// The table of near pairs is written too, so that it is made where there are so many bytes.
const PAIRS_FROM: usize = 1_048_576;

impl Scopes {
    // Makes room for the blocks of so many statements.
    fn prepare(&mut self, statements: usize)
        ensures { HaveSameLists self.old self.new }
    {
        let _ = self.blocks.reserve(statements);
    }
}

impl<'a> Tables<'a> {
    // Makes room for what the statements in so many bytes have.
    fn prepare(&mut self, bytes: usize)
        ensures { SameLists self.old self.new }
    {
        let _ = self.log.reserve(bytes / STATEMENT_BYTES);
        let _ = self.flat.reserve(bytes / SYMBOL_BYTES);
        let _ = self.named.reserve(bytes / LABEL_BYTES);
        let _ = self.labels.reserve(MOST_NAMES.min(bytes / NAME_BYTES));
        if bytes >= PAIRS_FROM {
            self.distinct.prepare();
        }
        let _ = self.hypotheses.reserve(bytes / HYPOTHESIS_BYTES);
        let _ = self.pairs.reserve(bytes / PAIR_BYTES);
        let _ = self.pieces.reserve(bytes / PIECE_BYTES);
        self.scopes.prepare(bytes / STATEMENT_BYTES);
    }
}

impl<'a> Book<'a> {
    /// Makes room for the statements of a database that has so many bytes, where there is memory
    /// for it. It changes nothing of the book, and room that is wanting is made when it is needed.
    pub fn prepare(&mut self, bytes: usize)
        ensures { self.new ≡ self.old }
    {
        self.tables.prepare(bytes);
    }
}
