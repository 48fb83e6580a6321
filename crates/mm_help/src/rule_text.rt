//! A rule, as `mm explain` tells it.

/// A rule by its code, and what is told of it.
#[derive(Clone, Copy)]
pub struct RuleText<'t> {
    pub code: &'t str,
    /// The rule, the place of its fault, and a file that breaks it with the reply.
    pub text: &'t str,
}
