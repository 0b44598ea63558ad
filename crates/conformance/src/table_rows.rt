// Rows of tables of numbers, over which the searches go.

use crate::growing_text::GrowingText;
use crate::notation::owned;
use learning_search::learned_best;
use lists::Seq;
use search::{Table, TableChoice, TableRequirement};
use std::alloc::Global;

/// The numbers between spaces.
fn numbers(alloc: Global, text: &str) -> Option<Seq<usize>> {
    let mut read = Seq::new(alloc);
    for word in text.split(' ') {
        if !word.is_empty() {
            read.push(word.parse::<usize>().ok()?).ok()?;
        }
    }
    Some(read)
}

/// The lists of numbers between these marks.
fn lists(alloc: Global, text: &str, mark: char) -> Option<Seq<Seq<usize>>> {
    let mut read = Seq::new(alloc);
    for part in text.split(mark) {
        read.push(numbers(alloc, part)?).ok()?;
    }
    Some(read)
}

/// For each node, between slashes, what it wants at each place, between commas.
fn wants(alloc: Global, text: &str) -> Option<Seq<Seq<Seq<usize>>>> {
    let mut read = Seq::new(alloc);
    for part in text.split('/') {
        read.push(lists(alloc, part, ',')?).ok()?;
    }
    Some(read)
}

/// A mark for each place: whether it is admitted.
fn marks(alloc: Global, text: &str) -> Option<Seq<bool>> {
    let mut read = Seq::new(alloc);
    for mark in text.chars() {
        read.push(mark == '1').ok()?;
    }
    Some(read)
}

/// A requirement such as `0+1:011`: its node, a further node, and which places it admits.
fn requirement(alloc: Global, text: &str) -> Option<TableRequirement> {
    let (nodes, admits) = text.split_once(':')?;
    let (node, more) = nodes.split_once('+').unwrap_or((nodes, ""));
    Some(TableRequirement {
        node: node.parse::<usize>().ok()?,
        more: numbers(alloc, more)?,
        admits: marks(alloc, admits)?,
    })
}

fn requirements(alloc: Global, text: &str) -> Option<Seq<TableRequirement>> {
    let mut read = Seq::new(alloc);
    for word in text.split(' ') {
        if !word.is_empty() {
            read.push(requirement(alloc, word)?).ok()?;
        }
    }
    Some(read)
}

/// The table that five texts tell: the name of each node, the requirements, the candidates of each name, what each
/// node wants, and the lines; nothing where these make none.
fn table_of(alloc: Global, told: &[String]) -> Option<Option<Table>> {
    let [nodes, asked, candidates, wanted, lines] = told else {
        return None;
    };
    Some(Table::new(
        numbers(alloc, nodes.as_str())?,
        requirements(alloc, asked.as_str())?,
        lists(alloc, candidates.as_str(), '/')?,
        wants(alloc, wanted.as_str())?,
        numbers(alloc, lines.as_str())?,
    ))
}

/// The best solution: each name with the place of its release.
fn best_text(alloc: Global, choices: &[TableChoice]) -> Option<String> {
    let mut text = GrowingText::new(alloc);
    text.push_str("best:");
    for choice in choices {
        let (name, place) = (choice.name, choice.place);
        write!(text, " {name}={place}");
    }
    text.told()
}

/// The best solution of a table, or `none`.
pub fn searched(alloc: Global, told: &[String]) -> Option<String> {
    let Some(table) = table_of(alloc, told)? else {
        return owned(alloc, "no table");
    };
    match learned_best(alloc, &table).ok()? {
        Some(choices) => best_text(alloc, choices.as_slice()),
        None => owned(alloc, "none"),
    }
}
