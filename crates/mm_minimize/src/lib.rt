//! Shorter proofs of the theorems of a database, by earlier assertions alone.
//! It answers `minimized` for one theorem, or its file, and a list or a file for all. What
//! `mm_shorten` finds is judged here, so that nothing of the search is trusted. For
//! `mm_with_lemmas` too it tells who may use whom, by marks and mathboxes. It stands on `mm_save`,
//! `mm_axioms` and `mm_shorten`. Begin with `minimize`, then `shortening`; what a shorter proof is
//! stands in `specs/Shorter.antt` of `mm_render`.
#![tactic(auto)]

mod library_search;
mod minimize;
mod proof_pair;
mod remarks;
mod search;
mod search_watch;
mod shortening;
mod shorter_file;
mod shorter_list;
mod sizes;

pub use minimize::{
    minimized, minimized_by_library, minimized_file, minimized_list, minimized_whole,
};
pub use remarks::{Remark, may_use, remarks_of};
pub use search::{OwnSize, Search};
pub use search_watch::{SearchWatch, Searched};
pub use shorter_file::Wanted;
pub use sizes::Sizes;
