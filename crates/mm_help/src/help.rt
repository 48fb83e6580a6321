//! The help: the whole of it, or the page of a command.

ghost use Rattle.std.specs.Prelude.{◌≡◌, ◌≢◌, Contains, IfOk, IfErr, IfSome, IfNone, option_map};
ghost use Rattle.std.specs.List.{AllByRecursion};
ghost use Rattle.mm_help.specs.Help.{IsHelp};
ghost use Rattle.mm_help.specs.Help.{IsHelpFault};

use crate::pages::Page;
use crate::texts::Texts;
use mm_words::Stop;
use std::alloc::{AllocError, Global};

/// The page of the command with this name.
fn page_with<'t>(pages: &[Page<'t>], command: &str) -> Option<Page<'t>>
    ensures found { IfSome result (λ page.
        Contains pages.now page × (page.command.now ≡ command.now)) }
    ensures unknown { IfNone result
        (AllByRecursion (λ page. page.command.now ≢ command.now) pages.now) }
{
    for page in pages {
        if page.command == command {
            return Some(*page);
        }
    }
    None
}

/// What is said of a name that no command has.
fn unknown_command(alloc: Global, pages: &[Page<'_>], command: &str) -> Result<String, AllocError> {
    let mut text = format!(in alloc; "mm: no command has the name {command}\nthe commands are")?;
    let mut separator = " ";
    for page in pages {
        text.push_str(separator)?;
        text.push_str(page.command)?;
        separator = ", ";
    }
    text.push_str("\n")?;
    Ok(text)
}

/// The page of the command with this name; without a name, the whole help.
///
/// # Errors
///
/// `Usage` where no command has the name; `Memory` where a growth was refused.
pub fn help_text<'t, 'a>(
    alloc: Global,
    texts: &Texts<'t>,
    topic: Option<&str>,
) -> Result<&'t str, Stop<'a>>
    ensures text { IfOk result (λ text.
        IsHelp texts.now (option_map (λ name. name.now) topic.entry) text.now) }
    ensures unknown { IfErr result
        (IsHelpFault texts.now (option_map (λ name. name.now) topic.entry)) }
{
    let Some(command) = topic else {
        return Ok(texts.help);
    };
    match page_with(texts.pages, command) {
        Some(page) => Ok(page.text),
        None => Err(Stop::Usage(unknown_command(alloc, texts.pages, command)?)),
    }
}
