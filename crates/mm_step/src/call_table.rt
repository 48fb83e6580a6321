//! What the first numbers of a proof stand for.

use crate::call::Call;
use crate::site::Site;
use mm_frame::LabelId;
use std::marker::Model;

/// Where a proof is judged, the labels that its first numbers stand for, and what each
/// of these stands for itself.
#[derive(Drop)]
pub struct CallTable<'e, 'b, 'a> {
    pub site: Site<'b, 'a>,
    pub entries: &'e [LabelId],
    pub calls: &'e [Call<'b>],
}

impl<'e, 'b, 'a> Model for CallTable<'e, 'b, 'a> {
    ghost use Rattle.std.specs.List.{AllZip};
    ghost use Rattle.mm_step.specs.Plain.{ids_in};
    ghost use Rattle.mm_step.specs.Mirror.CodeApply.{MayBeCalled};
    ghost use Rattle.mm_step.specs.Mirror.Sites.{CodeSite};

    ghost Value = { CodeSite };

    ghost view = { λ t. record { site = t.site; ids = ids_in t.entries.now } };

    // The calls are those of the labels that may be used.
    ghost invariant = { λ t. AllZip (MayBeCalled t.site.statements t.site.index)
        (ids_in t.entries.now) t.calls.now };
}

impl<'e, 'b, 'a> CallTable<'e, 'b, 'a> {
    ghost use Rattle.std.specs.Prelude.{◌≡◌, ◌<◌, ℕ, List, length, slice_get, Some};
    ghost use Rattle.mm_step.specs.Mirror.CodeSteps.{MayBeUsed};
    ghost use Rattle.mm_step.specs.Mirror.CodeApply.{IsCallOf};

    /// The label that stands at an index.
    pub fn label(&self, index: usize) -> LabelId
        requires { index < length self.now.ids }
        ensures { slice_get self.now.ids index ≡ Some result.0 }
    {
        let entries = self.entries;
        entries[index]
    }

    /// What it stands for.
    pub fn call(&self, index: usize) -> &'e Call<'b>
        requires { index < length self.now.ids }
        ensures { let site = self.now.site in
            (id : ℕ) (label : List ℕ) → slice_get self.now.ids index ≡ Some id
            → MayBeUsed site.statements site.index label id
            → IsCallOf site.statements site.index id result.now }
    {
        let calls = self.calls;
        &calls[index]
    }
}
