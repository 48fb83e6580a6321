//! Laws of proofs and of their forms, which users of the library may depend on.
//! Each is a function that does nothing: its contract is the law. It stands on `mm_forms` and
//! `mm_listing`, and nothing but the tests stands on it. Begin with `laws`.
#![tactic(auto)]

mod laws;

pub use laws::{
    by_spelling, by_word, fewest_steps, limits_aside, made_by_word, no_better_order, one_fit,
    one_packed, one_prefix_verdict_under, one_small, one_tree, one_verdict_under,
    small_is_no_larger, some_packed, some_small, steps_make_children, told_by_packed,
};
