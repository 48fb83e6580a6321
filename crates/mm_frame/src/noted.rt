//! The indices of the variables' `$f` among hypotheses, noted by the variables' numbers.

ghost use Rattle.std.specs.Prelude.{◌≡◌, ◌<◌, ◌∷◌, [], ◌++◌, MatchOption, OnOk, Some, None, length};
ghost use Rattle.std.specs.Prelude.{slice_index_or};
ghost use Rattle.mm_frame.specs.Pieces.{variables_of, is_of, IsNowhere, IsFirstAt};
ghost use Rattle.mm_frame.specs.Mirror.Patterned.{IsLonger, AreNoted};

use crate::hypothesis::Hypothesis;
use crate::lists::at;
use crate::number::Sym;
use std::alloc::{AllocError, Global};

/// For each number of a symbol an index among hypotheses: where it is noted, the `$f` of a variable
/// is found at once. What was noted of other hypotheses stays, and is given by what stands at the
/// index; so the room is used again for each assertion, and is never cleared.
#[derive(Drop)]
pub(crate) struct NotedIndices {
    indices: Vec<usize>,
}

// Whether the hypothesis at an index is the `$f` of the symbol.
fn is_at(hypotheses: &[Hypothesis], index: usize, symbol: Sym) -> bool
    ensures { result ≡ is_of symbol.0
        (slice_index_or (variables_of hypotheses.now) index None) }
{
    match hypotheses.get(index) {
        Some(hypothesis) => hypothesis.is_of(symbol),
        None => false,
    }
}

impl NotedIndices {
    /// No indices. They take no memory.
    pub(crate) fn new(alloc: Global) -> NotedIndices {
        NotedIndices {
            indices: Vec::new(alloc),
        }
    }

    /// The index of the `$f` of a symbol among the hypotheses that were noted last.
    #[inline(always)]
    pub(crate) fn index_of(&self, hypotheses: &[Hypothesis], symbol: Sym) -> Option<usize>
        ensures { AreNoted self.now.indices.items (variables_of hypotheses.now) → MatchOption
            result
            (IsNowhere symbol.0 (variables_of hypotheses.now))
            (λ index. IsFirstAt symbol.0 (variables_of hypotheses.now) index) }
    {
        match at(&self.indices, symbol.0 as usize) {
            Some(index) if is_at(hypotheses, index, symbol) => Some(index),
            _ => None,
        }
    }

    // Makes room for the index of a variable.
    fn make_room(&mut self, variable: Sym) -> Result<(), AllocError>
        ensures longer { OnOk result (IsLonger self.old.indices.items self.new.indices.items) }
        ensures room { OnOk result (variable.0 < length self.new.indices.items) }
    {
        let number = variable.0 as usize;
        if number >= self.indices.len() {
            self.indices.resize(number + 1, 0)?;
        }
        Ok(())
    }

    // Notes that the `$f` of a variable stands behind some hypotheses, unless it stands among them.
    fn note_behind(&mut self, before: &[Hypothesis], variable: Sym) -> Result<(), AllocError>
        ensures { AreNoted self.old.indices.items (variables_of before.now) → OnOk result
            (AreNoted
            self.new.indices.items (variables_of before.now ++ Some variable.0 ∷ [])) }
    {
        self.make_room(variable)?;
        if self.index_of(before, variable).is_none() {
            self.indices[variable.0 as usize] = before.len();
        }
        Ok(())
    }

    /// Notes the indices of the variables' `$f` among some hypotheses.
    #[tactic(auto, using(crate::proofs::Frames::VariableIndices::noting_steps))]
    pub(crate) fn note(&mut self, hypotheses: &[Hypothesis]) -> Result<(), AllocError>
        ensures { OnOk result (AreNoted self.new.indices.items (variables_of hypotheses.now)) }
    {
        for (index, hypothesis) in hypotheses.iter().enumerate() {
            if let Some((_, variable)) = hypothesis.typing {
                self.note_behind(&hypotheses[..index], variable)?;
            }
        }
        Ok(())
    }
}
