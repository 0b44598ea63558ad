// Rows and their answers.

use crate::background::Background;
use crate::batch_rows::{self, Case};
use crate::notation::{expanded, owned, shown};
use crate::state_texts::files_text;
use crate::{
    command_rows, conflicts, environment_rows, examples, index_rows, line_rows, lock_rows,
    marker_rows, problem_rows, requirement_rows, saved_rows, session_rows, specifier_rows,
    table_rows, version_rows,
};
use std::alloc::Global;

/// What stands between the parts of a row.
const BAR: &str = " | ";

/// What stands before the answer that a row gives itself.
const SAID: &str = " | => ";

/// The line that is printed for a row: the row itself where it is blank or a comment. There is none where
/// the row can't be read, memory is refused, or calls that should agree do not.
pub fn answer_to(alloc: Global, background: &mut Background, row: &str) -> Option<String> {
    if row.is_empty() || row.starts_with('#') {
        return owned(alloc, row);
    }
    match row.split_once(SAID) {
        Some((question, said)) => {
            let answer = answer_of(alloc, background, question)?;
            compared(alloc, answer, expanded(alloc, said)?)
        }
        None => shown(alloc, answer_of(alloc, background, row)?.as_str()),
    }
}

/// The answer, or that it is as the row says.
fn compared(alloc: Global, answer: String, said: String) -> Option<String> {
    if answer == said {
        return owned(alloc, "as said");
    }
    shown(alloc, answer.as_str())
}

/// The answer to a row as it is.
fn answer_of(alloc: Global, background: &mut Background, row: &str) -> Option<String> {
    let (kind, rest) = row.split_once(BAR).unwrap_or((row, ""));
    let texts = texts_of(alloc, rest)?;
    of_versions(alloc, background, kind, texts.as_slice())
}

/// The texts of a row behind its word.
fn texts_of(alloc: Global, rest: &str) -> Option<Vec<String>> {
    let mut texts = Vec::new(alloc);
    if !rest.is_empty() {
        for text in rest.split(BAR) {
            texts.push(expanded(alloc, text)?).ok()?;
        }
    }
    Some(texts)
}

/// The text at a place; the empty one where there is none.
fn text_at(texts: &[String], place: usize) -> &str {
    match texts.get(place) {
        Some(text) => text.as_str(),
        None => "",
    }
}

/// The texts behind the first.
fn behind(texts: &[String]) -> &[String] {
    texts.get(1..).unwrap_or(&[])
}

/// The answer to a row of versions, sets and names, or to another one.
fn of_versions(
    alloc: Global,
    background: &mut Background,
    kind: &str,
    texts: &[String],
) -> Option<String> {
    let (first, second) = (text_at(texts, 0), text_at(texts, 1));
    match kind {
        "version" => version_rows::version(alloc, first),
        "parts" => version_rows::parts(alloc, first),
        "compare" => version_rows::compare(alloc, first, second),
        "lowest" => version_rows::lowest(alloc, background, texts),
        "above" => version_rows::above(alloc, background, texts),
        "set" => specifier_rows::set(alloc, first),
        "match" => specifier_rows::matched(alloc, first, behind(texts)),
        "accept" => specifier_rows::accepted(alloc, background, first, second),
        "name" => marker_rows::name(alloc, first),
        "memory" => marker_rows::memory(alloc),
        _ => of_lines(alloc, background, kind, texts),
    }
}

/// The answer to a row of markers, environments and lines, or to another one.
fn of_lines(
    alloc: Global,
    background: &mut Background,
    kind: &str,
    texts: &[String],
) -> Option<String> {
    let (first, second) = (text_at(texts, 0), text_at(texts, 1));
    match kind {
        "marker" => marker_rows::marker(alloc, background, first, behind(texts)),
        "environment" => environment_rows::environment(alloc, background, first),
        "target" => environment_rows::target(alloc, background, first),
        "no targets" => environment_rows::no_targets(alloc, background),
        "changed" => environment_rows::changed(alloc, background, first, second),
        "value" => environment_rows::value(alloc, background, first),
        "requirement" => requirement_rows::requirement(alloc, background, first),
        "requirements" => requirement_rows::requirements(alloc, texts),
        "line" => line_rows::line(alloc, background, first),
        "ended" => line_rows::ended(alloc, first, behind(texts)),
        "constrained" => line_rows::constrained(alloc, first, second),
        "file" => line_rows::file(alloc, first),
        _ => of_locks(alloc, background, kind, texts),
    }
}

/// The answer to a row of indexes, problems, locks and tables, or to another one.
fn of_locks(
    alloc: Global,
    background: &mut Background,
    kind: &str,
    texts: &[String],
) -> Option<String> {
    let (first, second) = (text_at(texts, 0), text_at(texts, 1));
    match kind {
        "index" => index_rows::index(alloc, background, first),
        "packages" => index_rows::packages(alloc, background, first),
        "digest" => index_rows::digest(alloc, background),
        "releases" => index_rows::releases(alloc, background, first),
        "versions" => index_rows::versions(alloc, background, first),
        "solve" => problem_rows::solve(alloc, background, first),
        "refute" => problem_rows::refute(alloc, background, first),
        "check" => problem_rows::accepted(alloc, background, first, behind(texts)),
        "lock" => lock_rows::lock(alloc, background, first),
        "altered lock" => lock_rows::altered(alloc, background, first, second),
        "choices" => conflicts::choices(alloc, texts),
        "table" => table_rows::searched(alloc, texts),
        "example" => examples::example(alloc, first),
        _ => of_histories(alloc, background, kind, texts),
    }
}

/// The answer to a row of histories and commands.
fn of_histories(
    alloc: Global,
    background: &mut Background,
    kind: &str,
    texts: &[String],
) -> Option<String> {
    let (first, second) = (text_at(texts, 0), text_at(texts, 1));
    match kind {
        "begin" => session_rows::begin(alloc, background, first),
        "lead" => session_rows::applied(alloc, background, first),
        "replies" => session_rows::others(alloc),
        "command" => command_rows::command(alloc, first, true),
        "rest" => command_rows::command(alloc, first, false),
        "words" => command_rows::words(alloc, texts),
        "failing reads" => batch_rows::reads(alloc, background, &case_of(texts, true)?),
        "empty reads" => batch_rows::reads(alloc, background, &case_of(texts, false)?),
        "failing writes" => batch_rows::writes(alloc, background, &case_of(texts, true)?),
        "empty writes" => batch_rows::writes(alloc, background, &case_of(texts, false)?),
        "do" => session_rows::done(alloc, background, first, false),
        "keep" => session_rows::done(alloc, background, first, true),
        _ => of_history(alloc, background, kind, texts),
    }
}

/// The answer to a row of the history that has begun.
fn of_history(
    alloc: Global,
    background: &Background,
    kind: &str,
    texts: &[String],
) -> Option<String> {
    let session = background.session.as_ref()?;
    match kind {
        "lines" => session_rows::lines(alloc, session),
        "files" => files_text(alloc, session.state()),
        "change" => session_rows::change(alloc, session),
        "saved" => saved_rows::saved(alloc, session),
        "altered" => {
            let (file, old, new) = (text_at(texts, 0), text_at(texts, 1), text_at(texts, 2));
            saved_rows::altered(alloc, session, file, old, new)
        }
        _ => None,
    }
}

/// The case of lines, an input and how many bytes a call moves.
fn case_of<'a>(texts: &'a [String], fails: bool) -> Option<Case<'a>> {
    let [lines, input, most] = texts else {
        return None;
    };
    Some(Case {
        lines: lines.as_str(),
        input: input.as_str(),
        most: most.as_str().parse::<usize>().ok()?,
        fails,
    })
}
