//! Taking a `$c` or a `$v` into the lists.

ghost use Rattle.std.specs.Prelude.{◌≡◌, ◌+◌, ◌<◌, ◌≤◌, ◌⊎◌, length, map, slice_get, slice_set};
ghost use Rattle.std.specs.Prelude.{vec_len, vec_capacity, Contains, Some, None, [], ◌∷◌, ◌++◌};
ghost use Rattle.std.specs.Prelude.{IfOk, OnErr, OnOk, ℕ, suc};
ghost use Rattle.mm_base.specs.Statement.{plain_statement, HasForm, bytes_in};
ghost use Rattle.mm_base.specs.MostBytes.{most_bytes};
ghost use Rattle.mm_frame.specs.declared.tables.SymbolInfo.{SymbolInfo};
ghost use Rattle.mm_frame.specs.declared.answer.Taken.TheVariants.{Declared};
ghost use Rattle.mm_frame.specs.Sentence.{sentence_in};
ghost use Rattle.mm_frame.specs.Rules.{IsMeant};
ghost use Rattle.mm_frame.specs.Mirror.Layout.{AreTables, statements_of};
ghost use Rattle.mm_frame.specs.Mirror.Grows.{Grows, IsSame, SameLists, HaveRoom};
ghost use Rattle.mm_frame.specs.Mirror.Declaring.{IsDeclaration, latest_by, HasSpace, TakesSymbol};
ghost use Rattle.mm_frame.specs.Mirror.Declaring.{TakesSymbols};

use crate::answer::Taken;
use crate::number::Sym;
use crate::tables::{SymbolInfo, Tables};
use mm_base::{Kind, Statement, Token};
use std::alloc::AllocError;

impl<'a> Tables<'a> {
    // Notes the index of the latest `$v` that declares a symbol.
    fn note_variable(&mut self, number: u32, variable: u32)
        ensures infos { (info : SymbolInfo) → slice_get self.old.infos.items number ≡ Some info
            → self.new.infos.items ≡ slice_set self.old.infos.items number
            (record { variable = Some variable; floating = info.floating }) }
        ensures len { vec_len self.new.infos ≡ vec_len self.old.infos }
        ensures room { vec_capacity self.new.infos ≡ vec_capacity self.old.infos }
        ensures others { self.new ≡ record self.old { infos = self.new.infos } }
    {
        let index = number as usize;
        if index < self.infos.len() {
            self.infos[index].variable = Some(variable);
        }
    }

    // Takes a symbol in that has no number yet.
    fn add_symbol(&mut self, symbol: &'a [u8], variable: Option<u32>)
        requires fresh { ¬ (Contains self.old.symbols.names symbol.now) }
        requires names { length self.old.symbols.names + 1 < 4294967296 }
        requires room { 0 < self.old.symbols.room }
        requires infos { vec_len self.old.infos < vec_capacity self.old.infos }
        ensures names { self.new.symbols.names ≡ self.old.symbols.names ++ symbol.now ∷ [] }
        ensures room { self.old.symbols.room ≤ self.new.symbols.room + 1 }
        ensures infos { self.new.infos.items
            ≡ self.old.infos.items ++ record { variable = variable; floating = None } ∷ [] }
        ensures capacity { vec_capacity self.new.infos ≡ vec_capacity self.old.infos }
        ensures others { self.new
            ≡ record self.old { symbols = self.new.symbols; infos = self.new.infos } }
    {
        self.symbols.add(symbol);
        self.infos.push_reserved(SymbolInfo {
            variable,
            floating: None,
        });
    }

    // Takes a declared symbol in, where it is new.
    fn declare(&mut self, symbol: &'a [u8], variable: Option<u32>)
        requires { HasSpace self.old 1 }
        ensures taken { TakesSymbol self.old self.new symbol.now variable }
        ensures room { (more : ℕ) → HasSpace self.old (suc more) → HasSpace self.new more }
    {
        match self.symbols.find(symbol) {
            Some(number) => {
                if let Some(index) = variable {
                    self.note_variable(number, index);
                }
                self.flat.push_reserved(Sym(number));
            }
            None => {
                self.flat.push_reserved(Sym(self.symbols.len() as u32));
                self.add_symbol(symbol, variable);
            }
        }
    }

    // Takes the symbols of a `$c` or `$v` in.
    fn declare_each(&mut self, symbols: &[Token<'a>], kind: Kind)
        requires tables { AreTables self.old }
        requires kind { IsDeclaration kind }
        requires room { HasSpace self.old (length symbols.now) }
        ensures { TakesSymbols
            self.old
            self.new
            kind
            (map (λ token. token.text.now) symbols.now) }
    {
        let variable = if kind == Kind::Variables {
            Some(self.log.len() as u32)
        } else {
            None
        };
        for token in symbols {
            self.declare(token.text, variable);
        }
    }

    // Makes room for a `$c` or `$v` of so many symbols.
    fn make_room(&mut self, symbols: usize) -> Result<(), AllocError>
        requires names { length self.old.symbols.names + symbols < 4294967296 }
        requires few { length self.old.log.items + length self.old.flat.items + symbols
            < 4294967296 }
        ensures same { SameLists self.old self.new }
        ensures entry { OnOk result (HaveRoom self.new symbols) }
        ensures space { OnOk result (HasSpace self.new symbols) }
    {
        self.reserve(symbols)?;
        self.symbols.reserve(symbols)?;
        self.infos.reserve(symbols)
    }

    // Takes a `$c` or `$v` in.
    pub(crate) fn declare_all(
        &mut self,
        statement: &Statement<'a>,
        bytes: u64,
    ) -> Result<Taken, AllocError>
        requires tables { AreTables self.old }
        requires meant { IsMeant (statements_of self.old) (sentence_in statement.now) }
        requires formed { HasForm (plain_statement statement.now) }
        requires kind { IsDeclaration statement.now.kind }
        requires counted { bytes ≡ bytes_in (plain_statement statement.now) }
        requires room { self.old.bytes + bytes ≤ most_bytes }
        ensures ok { IfOk result (λ taken.
            (taken ≡ Declared) × Grows self.old self.new (sentence_in statement.now) bytes) }
        ensures err { OnErr result (IsSame self.old self.new) }
    {
        self.make_room(statement.symbols.len())?;
        let start = self.flat.len() as u32;
        self.declare_each(&statement.symbols, statement.kind);
        self.enter(statement.kind, None, start, bytes);
        Ok(Taken::Declared)
    }
}
