// The question of `why`.

ghost use Rattle.std.specs.Prelude.{◌≡◌, map, IfErr, IfOk};
ghost use Rattle.clap.specs.Words.{found_of, rows_of};
ghost use Rattle.command_line.specs.Questions.{constraint_of, questioned};
ghost use Rattle.command_line.specs.Subcommands.{IsAskedAbout, IsQuestion};
ghost use Rattle.command_line.specs.UsageFaults.{IsNoQuestion};

use crate::edit_words::{read_addition, read_upgrade};
use crate::exclusion::is_given;
use crate::invocation::{AskedEdit, Question};
use crate::misuse::ReadFault;
use crate::options::{has_flag, value, values};
use crate::replacement::{read_replacement, text_at};
use crate::subcommand::{needed_edit_options, needed_index, needed_init_options, needed_targets};
use clap::ArgMatches;
use edits::Edit;
use lists::Text;
use std::alloc::{AllocError, Global};

/// The question of `why`, with what stands before it and behind it.
pub(crate) fn read_question<'a>(
    alloc: Global,
    before: &ArgMatches<'a>,
    behind: &ArgMatches<'a>,
) -> Result<Question<'a>, ReadFault<'a>>
    ensures question { IfOk result
        (IsQuestion (rows_of (found_of before.now)) (rows_of (found_of behind.now))) }
    ensures fault { IfErr result
        (IsNoQuestion (rows_of (found_of before.now)) (rows_of (found_of behind.now))) }
{
    if has_flag(behind, "init") {
        let options = needed_init_options(alloc, before, behind)?;
        return Ok(Question::Init(options, value(behind, "text")));
    }
    if let Some(release) = value(behind, "not") {
        return Ok(Question::Release(release, needed_index(before, behind)?));
    }
    let asked = read_asked_about(alloc, before, behind)?;
    Ok(Question::Edit(asked, needed_edit_options(before, behind)?))
}

/// The edit that a question is about.
fn read_asked_about<'a>(
    alloc: Global,
    before: &ArgMatches<'a>,
    behind: &ArgMatches<'a>,
) -> Result<AskedEdit<'a>, ReadFault<'a>>
    ensures asked { IfOk result
        (IsAskedAbout (rows_of (found_of before.now)) (rows_of (found_of behind.now))) }
    ensures fault { IfErr result
        (IsNoQuestion (rows_of (found_of before.now)) (rows_of (found_of behind.now))) }
{
    if has_flag(behind, "retarget") {
        return Ok(AskedEdit::Retarget(needed_targets(alloc, before, behind)?));
    }
    if is_given(behind, "replace") {
        return Ok(AskedEdit::Replace(read_replacement(alloc, behind, "replace")?));
    }
    Ok(AskedEdit::Typed(read_questioned(alloc, behind)?))
}

/// The edit of the option which names it, or the addition of the text, or a new lock.
fn read_questioned(alloc: Global, behind: &ArgMatches<'_>) -> Result<Edit, AllocError>
    ensures edit { IfOk result (λ edit. edit ≡ questioned (rows_of (found_of behind.now))) }
{
    if let Some(names) = values(behind, "upgrade") {
        return read_upgrade(alloc, Some(names));
    }
    if let Some(texts) = values(behind, "constrain") {
        return constraint_of(alloc, texts);
    }
    if let Some(name) = value(behind, "remove") {
        return Ok(Edit::Remove(Text::copy_of(alloc, name)?));
    }
    let addition = read_addition(alloc, value(behind, "text"))?;
    Ok(addition.unwrap_or(Edit::Relock))
}

/// The constraint of a name and its specifiers; without specifiers, those of the line are taken away.
fn constraint_of(alloc: Global, texts: &[&str]) -> Result<Edit, AllocError>
    ensures edit { IfOk result (λ edit. edit ≡ constraint_of (map (λ s. s.now) texts.now)) }
{
    let name = Text::copy_of(alloc, text_at(texts, 0))?;
    let specifiers = Text::copy_of(alloc, text_at(texts, 1))?;
    Ok(Edit::Constrain(name, specifiers))
}
