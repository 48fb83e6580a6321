//! Laws of verdicts, of reports and of saved files, which users of the library may depend on.
//! Each is a function that does nothing: its contract is the law. It stands on `mm_minimize`, and
//! nothing but the tests stands on it; the laws of replies are functions of `mm_check`. Begin with
//! `laws`.
#![tactic(auto)]

mod laws;

pub use laws::{
    all_saved_proofs_are_strict, between_profiles, first_fault_is_told, one_all_saved, one_report,
    one_saved, one_verdict, packed_texts_tell, reports_tell_users, saved_proof_is_strict,
    saving_again_changes_nothing, saving_all_again_changes_nothing, saving_all_changes_no_answer,
    saving_changes_no_answer, shortened_files_do_not_grow, shortening_changes_no_verdict,
    small_files_do_not_grow, some_verdict,
};
