// Conditions that grow, question by question.

ghost use Rattle.std.specs.Prelude.{◌≡◌, IfOk, IfSome, true};
ghost use Rattle.std.specs.List.{AllByRecursion};
ghost use Rattle.std.specs.Option.{option_copied};
ghost use Rattle.markers.specs.MarkerRelations.{RelationAlike};
ghost use Rattle.problems.specs.Admission.{meets_python};
ghost use Rattle.exports.specs.Conditions.{Meets};
ghost use Rattle.markers.specs.Environment.{is_versioned};
ghost use Rattle.pep440.specs.SetGrammar.{IsLawfulClause};
ghost use Rattle.exports.specs.Tied.Answers.{is_marker_alike, is_matched_alike, is_release_alike, is_wanted_alike};
ghost use Rattle.exports.specs.Tied.Kept.{ClauseAlike, ClausesAlike, IsOwn, Keeps, OperandAlike, Settles, VersionsAlike};

use crate::condition::Condition;
use crate::implication::{is_said, opposite};
use crate::settling_relations::settling_relation;
use lists::Seq;
use markers::marker_relations::{CachedRelation, Operand};
use pep440::Clause;
use pep508::{Environment, Marker, Requirement, Variable};
use snapshot::{Release, RequiresPython};
use std::alloc::{AllocError, Global};

/// Puts a condition to the others, unless one of them says it.
pub(crate) fn keep(
    environment: &Environment,
    conditions: &mut Seq<Condition>,
    condition: Condition,
) -> Result<(), AllocError>
    requires { IsOwn environment.now condition }
    ensures { IfOk result (λ _. Keeps environment.now conditions.old conditions.new
        (λ other. Meets environment.now other condition)) }
{
    if is_said(conditions.as_slice(), &condition) {
        return Ok(());
    }
    conditions.push(condition)?;
    Ok(())
}

/// Whether the texts of the variable are versions, in every environment.
pub(crate) fn is_versioned(variable: Variable) -> bool
    ensures { result ≡ is_versioned variable }
{
    match variable {
        Variable::PythonFullVersion | Variable::PythonVersion => true,
        _ => false,
    }
}

/// The clause, or else its opposite, where it matches the version of a variable whose texts are versions in every environment.
fn settling_clause(
    environment: &Environment,
    variable: Variable,
    clause: &Clause,
) -> Result<Option<Clause>, AllocError>
    requires { IsLawfulClause clause.now }
    ensures { IfOk result (λ found. IfSome found (Settles environment.now variable clause.now)) }
{
    if !is_versioned(variable) {
        return Ok(None);
    }
    clause.version.recall_invariant();
    let Some(version) = environment.version(variable) else {
        return Ok(None);
    };
    if clause.matches(version) {
        return Ok(Some(clause.clone()?));
    }
    let Some(operator) = opposite(clause.operator) else {
        return Ok(None);
    };
    let version_asked = clause.version.clone()?;
    let other = Clause {
        operator,
        version: version_asked,
    };
    if other.matches(version) {
        return Ok(Some(other));
    }
    Ok(None)
}

/// Asks for the same answer of a clause about a variable: for the clause or its opposite, where one of them matches and the
/// texts of the variable are versions in every environment, else for the same text.
fn keep_clause(
    environment: &Environment,
    conditions: &mut Seq<Condition>,
    variable: Variable,
    clause: &Clause,
) -> Result<(), AllocError>
    requires { IsLawfulClause clause.now }
    ensures { IfOk result (λ _. Keeps environment.now conditions.old conditions.new
        (λ other. VersionsAlike environment.now other variable (ClauseAlike clause.now))) }
{
    match settling_clause(environment, variable, clause)? {
        Some(clause) => {
            keep(
                environment,
                conditions,
                Condition::Matches(variable, clause),
            )?;
            Ok(())
        }
        None => {
            keep(environment, conditions, Condition::Same(variable))?;
            Ok(())
        }
    }
}

/// Asks for the same answers of clauses about a variable.
fn keep_each(
    environment: &Environment,
    conditions: &mut Seq<Condition>,
    variable: Variable,
    clauses: &[Clause],
) -> Result<(), AllocError>
    requires { AllByRecursion IsLawfulClause clauses.now }
    ensures { IfOk result (λ _. Keeps environment.now conditions.old conditions.new
        (λ other. AllByRecursion
        (λ clause. VersionsAlike environment.now other variable (ClauseAlike clause))
        clauses.now)) }
{
    for clause in clauses {
        keep_clause(environment, conditions, variable, clause)?;
    }
    Ok(())
}

/// Asks for the same answer of all the clauses about a variable. Where there is none, its text has to be the same: whether
/// it reads as a version is asked then.
fn keep_clauses(
    environment: &Environment,
    conditions: &mut Seq<Condition>,
    variable: Variable,
    clauses: &[Clause],
) -> Result<(), AllocError>
    requires { AllByRecursion IsLawfulClause clauses.now }
    ensures { IfOk result (λ _. Keeps environment.now conditions.old conditions.new
        (λ other. VersionsAlike environment.now other variable (ClausesAlike clauses.now))) }
{
    if clauses.is_empty() {
        keep(environment, conditions, Condition::Same(variable))?;
        return Ok(());
    }
    keep_each(environment, conditions, variable, clauses)?;
    Ok(())
}

/// Asks for the same text of an operand.
fn keep_operand(
    environment: &Environment,
    conditions: &mut Seq<Condition>,
    operand: &Operand,
) -> Result<(), AllocError>
    ensures { IfOk result (λ _. Keeps environment.now conditions.old conditions.new
        (OperandAlike environment.now operand.now)) }
{
    match operand {
        Operand::Variable(variable) => {
            keep(environment, conditions, Condition::Same(*variable))?;
            Ok(())
        }
        Operand::Quoted(_) => Ok(()),
    }
}

/// Asks for the same texts of both operands.
fn keep_operands(
    environment: &Environment,
    conditions: &mut Seq<Condition>,
    relation: &CachedRelation,
) -> Result<(), AllocError>
    ensures { IfOk result (λ _. Keeps environment.now conditions.old conditions.new
        (λ other. RelationAlike environment.now other relation.now)) }
{
    keep_operand(environment, conditions, relation.left())?;
    keep_operand(environment, conditions, relation.right())?;
    Ok(())
}

/// Asks for what a relation compares: by its clauses where a variable is compared with a text that reads as such, else for the
/// same texts.
fn keep_compared(
    environment: &Environment,
    conditions: &mut Seq<Condition>,
    relation: &CachedRelation,
) -> Result<(), AllocError>
    ensures { IfOk result (λ _. Keeps environment.now conditions.old conditions.new
        (λ other. RelationAlike environment.now other relation.now)) }
{
    match (relation.left(), relation.quoted_clauses()) {
        (Operand::Variable(variable), Some(clauses)) => {
            clauses.recall_invariant();
            keep_clauses(environment, conditions, *variable, clauses.clauses())?;
            Ok(())
        }
        _ => {
            keep_operands(environment, conditions, relation)?;
            Ok(())
        }
    }
}

/// Asks for the same answer of a relation: for the answer itself where it can be told, else for what it compares.
fn keep_relation(
    alloc: Global,
    environment: &Environment,
    conditions: &mut Seq<Condition>,
    relation: &CachedRelation,
) -> Result<(), AllocError>
    ensures { IfOk result (λ _. Keeps environment.now conditions.old conditions.new
        (λ other. RelationAlike environment.now other relation.now)) }
{
    match settling_relation(alloc, environment, relation)? {
        Some(condition) => {
            keep(environment, conditions, condition)?;
            Ok(())
        }
        None => {
            keep_compared(environment, conditions, relation)?;
            Ok(())
        }
    }
}

/// Asks for the same answers of relations.
fn keep_relations(
    alloc: Global,
    environment: &Environment,
    conditions: &mut Seq<Condition>,
    relations: &[&CachedRelation],
) -> Result<(), AllocError>
    ensures { IfOk result (λ _. Keeps environment.now conditions.old conditions.new
        (λ other. AllByRecursion (λ relation. RelationAlike environment.now other relation.now)
        relations.now)) }
{
    for relation in relations {
        keep_relation(alloc, environment, conditions, relation)?;
    }
    Ok(())
}

/// Asks for the same answer of each relation of a marker that may be there.
pub(crate) fn keep_marker(
    alloc: Global,
    environment: &Environment,
    conditions: &mut Seq<Condition>,
    marker: Option<&Marker>,
) -> Result<(), AllocError>
    ensures { IfOk result (λ _. Keeps environment.now conditions.old conditions.new
        (λ other. is_marker_alike environment.now other (option_copied marker.entry) ≡ true)) }
{
    let Some(marker) = marker else {
        return Ok(());
    };
    let relations = marker.relations(alloc)?;
    keep_relations(alloc, environment, conditions, relations.as_slice())?;
    Ok(())
}

/// Asks for the same answers of the markers of dependencies.
fn keep_dependencies(
    alloc: Global,
    environment: &Environment,
    conditions: &mut Seq<Condition>,
    dependencies: &[Requirement],
) -> Result<(), AllocError>
    ensures { IfOk result (λ _. Keeps environment.now conditions.old conditions.new
        (λ other. AllByRecursion (λ wanted. is_wanted_alike environment.now other wanted ≡ true)
        dependencies.now)) }
{
    for dependency in dependencies {
        keep_marker(alloc, environment, conditions, dependency.marker())?;
    }
    Ok(())
}

/// Asks for the same answer of what a release asks of Python.
fn keep_python(
    environment: &Environment,
    conditions: &mut Seq<Condition>,
    python: Option<&RequiresPython>,
) -> Result<(), AllocError>
    ensures { IfOk result (λ _. Keeps environment.now conditions.old conditions.new
        (λ other. meets_python environment.now (option_copied python.entry)
        ≡ meets_python other (option_copied python.entry))) }
{
    let Some(python) = python else {
        return Ok(());
    };
    let set = python.set();
    set.recall_invariant();
    let clauses = set.clauses();
    keep_clauses(
        environment,
        conditions,
        Variable::PythonFullVersion,
        clauses,
    )?;
    Ok(())
}

/// Asks for the same answers of a release.
fn keep_release(
    alloc: Global,
    environment: &Environment,
    conditions: &mut Seq<Condition>,
    release: &Release,
) -> Result<(), AllocError>
    ensures { IfOk result (λ _. Keeps environment.now conditions.old conditions.new
        (λ other. is_release_alike environment.now other release.now ≡ true)) }
{
    keep_python(environment, conditions, release.requires_python())?;
    keep_dependencies(alloc, environment, conditions, release.dependencies())?;
    Ok(())
}

/// Asks for the same answers of a release, if its version matches the clauses of a requirement.
fn keep_matched(
    alloc: Global,
    environment: &Environment,
    conditions: &mut Seq<Condition>,
    wanted: &Requirement,
    release: &Release,
) -> Result<(), AllocError>
    ensures { IfOk result (λ _. Keeps environment.now conditions.old conditions.new
        (λ other. is_matched_alike environment.now other wanted.now release.now ≡ true)) }
{
    if !wanted.specifiers().matches(release.version()) {
        return Ok(());
    }
    keep_release(alloc, environment, conditions, release)?;
    Ok(())
}

/// Asks for the same answers of those releases whose versions match the clauses of a requirement.
pub(crate) fn keep_matching(
    alloc: Global,
    environment: &Environment,
    conditions: &mut Seq<Condition>,
    wanted: &Requirement,
    releases: &[Release],
) -> Result<(), AllocError>
    ensures { IfOk result (λ _. Keeps environment.now conditions.old conditions.new
        (λ other. AllByRecursion
        (λ release. is_matched_alike environment.now other wanted.now release ≡ true) releases.now)) }
{
    for release in releases {
        keep_matched(alloc, environment, conditions, wanted, release)?;
    }
    Ok(())
}
