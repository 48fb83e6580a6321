//! The texts that are printed as they stand: the help, its pages, and the rules.
//! It answers `help_text` and `explanation`; `program_texts` are the texts of the program. It
//! stands on `mm_words`, for how the program ends where no text answers. Begin with `texts`, then
//! `pages`, `rules` and `explain`; what is printed is defined in `specs/Help.antt` and
//! `specs/Explained.antt`.
#![tactic(auto)]

mod code_lines;
mod explain;
mod help;
mod pages;
mod rule_text;
mod rules;
mod texts;

pub use explain::explanation;
pub use help::help_text;
pub use pages::{Page, program_pages};
pub use rule_text::RuleText;
pub use rules::rule_chapters;
pub use texts::{Texts, program_texts};
