//! The loop that gives the moves of a proof to what takes them.

ghost use Rattle.std.specs.Prelude.{◌≡◌, ℕ, [], All, length, take, slice_get, Some, OnOk, IfErr};
ghost use Rattle.mm_code.specs.Letters.{HasSpelling};
ghost use Rattle.mm_step.specs.Moves.{Move};
ghost use Rattle.mm_proof.specs.Mirror.CodeSteps.{code_moves};
ghost use Rattle.mm_proof.specs.Mirror.Machines.{HasStopped};

use mm_code::Code;

/// What takes the moves of a proof, one after the other: it judges them, lists them, or builds
/// something out of the trees that they make.
pub trait Machine {
    ghost use Rattle.std.specs.Prelude.{ℕ, List, OnOk, IfErr};
    ghost use Rattle.mm_step.specs.Moves.{Move, again, mark};
    ghost use Rattle.mm_proof.specs.Mirror.Machines.{IsNext, GoesOn, StopsMove};
    ghost use Rattle.mm_proof.specs.Mirror.Machines.{IsNextStep, StepsOn, StopsStep};

    /// Why it stops at a move.
    type Fault;

    /// The numbers of the labels that the first indices stand for.
    ghost entries: { Self → List ℕ };

    /// What it is after these moves, since the first state.
    ghost has_run: { Self → Self → List (Move ℕ) → Type 0 };

    /// Whether it may be given a move after these, since the first state.
    ghost may_take: { Self → List (Move ℕ) → Move ℕ → Type 0 };

    /// What is known where it stops with this fault, at a move after these.
    ghost stops: { Self → List (Move ℕ) → Move ℕ → Self.Fault → Type 0 };

    /// A step by the label of the entry at an index.
    fn step(&mut self, index: usize) -> Result<(), Self::Fault>
        requires { IsNextStep entries has_run may_take self.old index }
        ensures ran { OnOk result (StepsOn entries has_run may_take self.old self.new index) }
        ensures stops { IfErr result (StopsStep entries has_run may_take stops self.old index) };

    /// A step by a tag: the index of a kept expression, from 0 on.
    fn step_again(&mut self, tag: usize) -> Result<(), Self::Fault>
        requires { IsNext has_run may_take self.old (again tag) }
        ensures ran { OnOk result (GoesOn has_run may_take self.old self.new (again tag)) }
        ensures stops { IfErr result (StopsMove has_run may_take stops self.old (again tag)) };

    /// A mark.
    fn mark(&mut self) -> Result<(), Self::Fault>
        requires { IsNext has_run may_take self.old mark }
        ensures ran { OnOk result (GoesOn has_run may_take self.old self.new mark) }
        ensures stops { IfErr result (StopsMove has_run may_take stops self.old mark) };
}

/// Gives the machine the moves of all codes, one after the other, until it stops. Numbers stand for
/// so many entries, and then for tags.
#[inline(always)]
pub fn run<M: Machine>(machine: &mut M, count: usize, codes: &[Code]) -> Result<(), M::Fault>
    requires spelled { All HasSpelling codes.now }
    requires count { count ≡ length (M.entries machine.old) }
    requires begun { M.has_run machine.old machine.old [] }
    requires allowed { (index : ℕ) (move : Move ℕ)
        → slice_get (code_moves (M.entries machine.old) codes.now) index ≡ Some move
        → M.may_take machine.old (take index (code_moves (M.entries machine.old) codes.now)) move }
    ensures ran { OnOk result
        (M.has_run machine.old machine.new (code_moves (M.entries machine.old) codes.now)) }
    ensures stops { IfErr result
        (HasStopped M.stops machine.old (code_moves (M.entries machine.old) codes.now)) }
{
    for code in codes {
        match code {
            Code::Number(number) => {
                let index = *number as usize - 1;
                if index < count {
                    machine.step(index)?;
                } else {
                    machine.step_again(index - count)?;
                }
            }
            Code::Tag => machine.mark()?,
        }
    }
    Ok(())
}
