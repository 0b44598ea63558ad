// Whether two environments answer alike all that lines ask of one.

ghost use Rattle.std.specs.Prelude.{◌≡◌, IfOk, IsFalse, IsTrue};
ghost use Rattle.std.specs.List.{list_all};
ghost use Rattle.std.specs.Option.{option_copied};
ghost use Rattle.pep508.specs.Requirement.{requirement_of};
ghost use Rattle.exports.specs.Alike.{marker_in};
ghost use Rattle.exports.specs.Questions.{AnswerEachAlike, AnswerOneApart};
ghost use Rattle.exports.specs.Tied.Answers.{are_matched_alike, is_line_alike, is_marker_alike, is_matched_alike, is_python_alike, is_relation_alike, is_release_alike, is_same_answer, is_wanted_alike};
ghost use Rattle.exports.specs.Tied.Reach.{AreAsked};

use crate::reach::Asked;
use markers::marker_relations::CachedRelation;
use pep508::{Environment, Line, Marker, Requirement};
use problems::meets_python;
use snapshot::{Release, Snapshot};
use std::alloc::{AllocError, Global};

fn is_same_answer(answer: bool, other: bool) -> bool
    ensures { result ≡ is_same_answer answer other }
{
    if answer { other } else { !other }
}

/// Whether a relation holds in both environments or in neither.
fn is_relation_alike(one: &Environment, other: &Environment, relation: &CachedRelation) -> bool
    ensures { result ≡ is_relation_alike one.now other.now relation.now }
{
    is_same_answer(relation.holds(one), relation.holds(other))
}

fn are_relations_alike(
    one: &Environment,
    other: &Environment,
    relations: &[&CachedRelation],
) -> bool
    ensures { result ≡ list_all (λ relation. is_relation_alike one.now other.now relation.now) relations.now }
{
    relations
        .iter()
        .all(|relation| is_relation_alike(one, other, relation))
}

/// The marker of what a line asks for.
pub(crate) fn marker_of(line: &Line) -> Option<&Marker>
    ensures { option_copied result ≡ marker_in (requirement_of line.now) }
{
    match line.requirement() {
        Some(requirement) => requirement.marker(),
        None => None,
    }
}

/// Whether each relation of a marker that may be there is answered alike.
fn is_marker_alike(
    alloc: Global,
    one: &Environment,
    other: &Environment,
    marker: Option<&Marker>,
) -> Result<bool, AllocError>
    ensures { IfOk result (λ alike. alike
        ≡ is_marker_alike one.now other.now (option_copied marker.entry)) }
{
    let Some(marker) = marker else {
        return Ok(true);
    };
    let relations = marker.relations(alloc)?;
    Ok(are_relations_alike(one, other, relations.as_slice()))
}

/// Whether the markers of dependencies are.
fn are_dependencies_alike(
    alloc: Global,
    one: &Environment,
    other: &Environment,
    dependencies: &[Requirement],
) -> Result<bool, AllocError>
    ensures { IfOk result (λ alike. alike
        ≡ list_all (is_wanted_alike one.now other.now) dependencies.now) }
{
    for dependency in dependencies {
        if !is_marker_alike(alloc, one, other, dependency.marker())? {
            return Ok(false);
        }
    }
    Ok(true)
}

/// Whether what a release asks is answered alike.
fn is_release_alike(
    alloc: Global,
    one: &Environment,
    other: &Environment,
    release: &Release,
) -> Result<bool, AllocError>
    ensures { IfOk result (λ alike. alike ≡ is_release_alike one.now other.now release.now) }
{
    let python = release.requires_python();
    if !is_same_answer(meets_python(one, python), meets_python(other, python)) {
        return Ok(false);
    }
    let alike = are_dependencies_alike(alloc, one, other, release.dependencies())?;
    Ok(alike)
}

/// Whether it is, if the version of the release matches the clauses of a requirement.
fn is_matched_alike(
    alloc: Global,
    one: &Environment,
    other: &Environment,
    wanted: &Requirement,
    release: &Release,
) -> Result<bool, AllocError>
    ensures { IfOk result (λ alike. alike
        ≡ is_matched_alike one.now other.now wanted.now release.now) }
{
    if !wanted.specifiers().matches(release.version()) {
        return Ok(true);
    }
    let alike = is_release_alike(alloc, one, other, release)?;
    Ok(alike)
}

/// Whether so it is with each release on the name of a requirement.
fn are_matched_alike(
    alloc: Global,
    one: &Environment,
    other: &Environment,
    wanted: &Requirement,
    releases: &[Release],
) -> Result<bool, AllocError>
    ensures { IfOk result (λ alike. alike
        ≡ list_all (is_matched_alike one.now other.now wanted.now) releases.now) }
{
    for release in releases {
        if !is_matched_alike(alloc, one, other, wanted, release)? {
            return Ok(false);
        }
    }
    Ok(true)
}

/// Whether so it is with each of these requirements.
fn are_asked_alike(
    alloc: Global,
    one: &Environment,
    other: &Environment,
    snapshot: &Snapshot,
    asked: &[Requirement],
) -> Result<bool, AllocError>
    ensures { IfOk result (λ alike. alike
        ≡ list_all (are_matched_alike one.now other.now snapshot.now) asked.now) }
{
    for wanted in asked {
        let releases = snapshot.releases(wanted.name());
        if !are_matched_alike(alloc, one, other, wanted, releases)? {
            return Ok(false);
        }
    }
    Ok(true)
}

/// Whether the markers of lines are answered alike.
fn are_lines_alike(
    alloc: Global,
    one: &Environment,
    other: &Environment,
    lines: &[Line],
) -> Result<bool, AllocError>
    ensures { IfOk result (λ alike. alike
        ≡ list_all (is_line_alike one.now other.now) lines.now) }
{
    for line in lines {
        if !is_marker_alike(alloc, one, other, marker_of(line))? {
            return Ok(false);
        }
    }
    Ok(true)
}

/// Whether two environments answer each question alike that lines can ask over an index.
pub(crate) fn do_answer_alike(
    alloc: Global,
    lines: &[Line],
    snapshot: &Snapshot,
    asked: &Asked,
    one: &Environment,
    other: &Environment,
) -> Result<bool, AllocError>
    requires { AreAsked lines.now snapshot.now asked.now }
    ensures alike { IfOk result (λ alike. IsTrue alike
        → AnswerEachAlike lines.now snapshot.now one.now other.now) }
    ensures apart { IfOk result (λ alike. IsFalse alike
        → AnswerOneApart lines.now snapshot.now one.now other.now) }
{
    if !are_lines_alike(alloc, one, other, lines)? {
        return Ok(false);
    }
    let alike = are_asked_alike(alloc, one, other, snapshot, asked.requirements())?;
    Ok(alike)
}
