//! What the words of a command line ask for.

use mm_check::{Command, LoneQuestion, Question, Telling, WholeQuestion};
use mm_step::Profile;
use mm_words::{Request, request_of};
use std::alloc::Global;

/// The label in the words.
const LABEL: &[u8] = b"th";

/// Whether the words ask to run this command over `first.mm`.
fn asks_to_run(alloc: Global, words: &[&str], wanted: Command<'_>) -> bool {
    match request_of(alloc, words) {
        Ok(Request::Run { command, names }) => {
            command == wanted && names.as_slice() == ["first.mm"].as_slice()
        }
        _ => false,
    }
}

/// A question about the theorem.
fn about(question: Question<'static>) -> Command<'static> {
    Command::About {
        label: LABEL,
        question,
    }
}

/// A question about the theorem alone.
fn alone(question: LoneQuestion<'static>) -> Command<'static> {
    Command::Lone {
        label: LABEL,
        question,
    }
}

#[test]
fn asks_of_a_database_by_its_words(rt: HostRuntime) {
    let why = |profile| Command::Whole {
        profile,
        question: WholeQuestion::Why { source: false },
    };
    let axioms = |essential| Command::Whole {
        profile: Profile::Lenient,
        question: WholeQuestion::Axioms { essential },
    };
    for (words, wanted) in [
        (["mm", "why", "first.mm"].as_slice(), why(Profile::Lenient)),
        (
            ["mm", "why", "--strict", "first.mm"].as_slice(),
            why(Profile::Strict),
        ),
        (
            ["mm", "axioms", "first.mm", "--all"].as_slice(),
            axioms(false),
        ),
        (
            ["mm", "axioms", "--all", "--essential", "first.mm"].as_slice(),
            axioms(true),
        ),
    ] {
        assert!(rt; asks_to_run(rt.alloc(), words, wanted), "at {words:?}");
    }
}

// A flag may stand before the label or after it.
#[test]
fn asks_of_a_statement_by_its_words(rt: HostRuntime) {
    let statement = |comment| Command::Statement {
        label: LABEL,
        comment,
    };
    for (words, wanted) in [
        (
            ["mm", "statement", "th", "first.mm"].as_slice(),
            statement(false),
        ),
        (
            ["mm", "statement", "th", "first.mm", "--comment"].as_slice(),
            statement(true),
        ),
        (
            ["mm", "show", "--known", "th", "first.mm"].as_slice(),
            alone(LoneQuestion::Known(Telling::Steps)),
        ),
        (
            ["mm", "show", "th", "--letters", "--known", "first.mm"].as_slice(),
            alone(LoneQuestion::Known(Telling::Letters)),
        ),
        (
            ["mm", "normal", "--known", "th", "first.mm"].as_slice(),
            alone(LoneQuestion::KnownNormal),
        ),
        (
            ["mm", "normal", "th", "first.mm", "--known"].as_slice(),
            alone(LoneQuestion::KnownNormal),
        ),
    ] {
        assert!(rt; asks_to_run(rt.alloc(), words, wanted), "at {words:?}");
    }
}

#[test]
fn asks_of_a_theorem_by_its_words(rt: HostRuntime) {
    for (words, wanted) in [
        (
            ["mm", "axioms", "th", "first.mm"].as_slice(),
            Question::Axioms { essential: false },
        ),
        (["mm", "show", "th", "first.mm"].as_slice(), Question::Show),
        (
            ["mm", "show", "--letters", "th", "first.mm"].as_slice(),
            Question::Letters,
        ),
        (
            ["mm", "show", "--essential", "th", "first.mm"].as_slice(),
            Question::Uses { essential: true },
        ),
        (
            ["mm", "show", "--uses", "th", "first.mm"].as_slice(),
            Question::Uses { essential: false },
        ),
    ] {
        assert!(rt;
            asks_to_run(rt.alloc(), words, about(wanted)),
            "at {words:?}"
        );
    }
}

// With `--list` each word names a file, with `--all` the first one that of the file.
#[test]
fn asks_for_shorter_proofs_by_its_words(rt: HostRuntime) {
    let minimized = |whole| Command::About {
        label: b"th".as_slice(),
        question: Question::Minimized { whole },
    };
    let listed = Command::Whole {
        profile: Profile::Lenient,
        question: WholeQuestion::Shorter,
    };
    let file = |duplicates| Command::Shorter {
        file: 0,
        duplicates,
    };
    for (words, wanted) in [
        (
            ["mm", "minimize", "th", "first.mm"].as_slice(),
            minimized(false),
        ),
        (
            ["mm", "minimize", "--file", "th", "first.mm"].as_slice(),
            minimized(true),
        ),
        (["mm", "minimize", "--list", "first.mm"].as_slice(), listed),
        (["mm", "minimize", "first.mm", "--list"].as_slice(), listed),
        (
            ["mm", "minimize", "--all", "first.mm", "first.mm"].as_slice(),
            file(false),
        ),
        (
            [
                "mm",
                "minimize",
                "--duplicates",
                "--all",
                "first.mm",
                "first.mm",
            ]
            .as_slice(),
            file(true),
        ),
    ] {
        assert!(rt; asks_to_run(rt.alloc(), words, wanted), "at {words:?}");
    }
}

#[test]
fn asks_for_lemmas_by_its_words(rt: HostRuntime) {
    let listed = |most, least| Command::Lemmas { most, least };
    for (words, wanted) in [
        (
            ["mm", "lemmas", "--list", "first.mm"].as_slice(),
            listed(100, 1),
        ),
        (
            ["mm", "lemmas", "--most", "7", "first.mm", "--list"].as_slice(),
            listed(7, 1),
        ),
        (
            [
                "mm",
                "lemmas",
                "--list",
                "--least",
                "4294967295",
                "first.mm",
            ]
            .as_slice(),
            listed(100, 4_294_967_295),
        ),
    ] {
        assert!(rt; asks_to_run(rt.alloc(), words, wanted), "at {words:?}");
    }
}
