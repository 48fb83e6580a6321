//! What is changed at a place of a file.

ghost use Rattle.std.specs.Prelude.{◌≡◌};
ghost use Rattle.mm_with_lemmas.specs.Mirror.Editing.{place_of};

/// What is written at a place of a file.
#[derive(Clone, Copy)]
pub(crate) enum Change<'a> {
    /// A text in place of the proof that stands in a span: between its `$=` and its `$.`.
    Proof { span: (u32, u32), text: &'a [u8] },
    /// A text that is put in at a position: lemmas, with their comments.
    Lemmas { at: u32, text: &'a [u8] },
}

impl<'a> Change<'a> {
    /// The span of the old bytes in whose place the text stands; an empty one where lemmas are put
    /// in.
    pub(crate) fn span(&self) -> (u32, u32)
        ensures { result ≡ (place_of self.now).span }
    {
        match *self {
            Change::Proof { span, .. } => span,
            Change::Lemmas { at, .. } => (at, at),
        }
    }

    /// The text.
    pub(crate) fn text(&self) -> &'a [u8]
        ensures { result.now ≡ (place_of self.now).text }
    {
        match *self {
            Change::Proof { text, .. } => text,
            Change::Lemmas { text, .. } => text,
        }
    }
}
