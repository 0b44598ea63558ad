// Environments.

ghost use Rattle.lists.specs.Answers.{Answers};
ghost use Rattle.std.specs.Prelude.{◌≡◌, ◌++◌, IfOk, OnOk, Some, string_bytes};
ghost use Rattle.std.specs.List.{list_all};
ghost use Rattle.std.specs.Option.{option_copied};
ghost use Rattle.std.specs.Result.{result_map_both};
ghost use Rattle.serde_json.specs.View.{view};
ghost use Rattle.markers.specs.Comparisons.{clauses_read, version_read};
ghost use Rattle.markers.specs.Environment.{IsEnvironment, all_variables, condition, environment_of, is_lawful, is_unescaped, is_versioned, kept_text, marker_text, object_of, text_in, text_of, texts_in, value_of, variable_named, without_plus};
ghost use Rattle.markers.specs.Faults.{memory_fault, no_line};
ghost use Rattle.markers.specs.declared.fault.Cause.TheVariants.{OutOfMemory};
ghost use Rattle.markers.specs.declared.variable.Variable.TheVariants.{PythonFullVersion};

use crate::comparison::Comparison;
use crate::fault::{Cause, Fault};
use crate::value::Value;
use crate::variable::{VARIABLES, Variable};
use lists::{Faithful, Seq, Text};
use pep440::{SpecifierSet, Version};
use serde_json::Value as Json;
use std::alloc::{AllocError, Global};
use std::marker::Model;

/// The environment that a lock is made for: a text for each variable (PEP 508, "Environment
/// Markers"). In a clause it is the list of its texts, in the order of the variables.
#[derive(Debug)]
pub struct Environment {
    values: Seq<Value>,
}

impl Drop for Environment {
    fn drop(self) {
        let Environment { values: _ } = self;
    }
}

impl Model for Environment {
    ghost use Rattle.markers.specs.Environment.{IsEnvironment, Texts};

    ghost Value = { Texts };

    ghost view = { λ e. e.values };

    ghost invariant = { λ e. IsEnvironment e.values };

    ghost inverse = { λ t. record { values = t } };
}

/// The variable of that name, if there is one.
pub(crate) fn variable_named(name: &str) -> Option<Variable>
    ensures { result ≡ variable_named name.now }
{
    VARIABLES
        .iter()
        .copied()
        .find(|variable| variable.name() == name)
}

/// Whether every byte is a printable ASCII character that stands for itself between double quotes.
fn is_unescaped(text: &[u8]) -> bool
    ensures { result ≡ list_all is_unescaped text.now }
{
    text.iter().all(|byte| *byte >= b' ' && *byte <= b'~' && *byte != b'"' && *byte != b'\\')
}

/// Whether the texts of the variable are versions.
fn is_versioned(variable: Variable) -> bool
    ensures { result ≡ is_versioned variable }
{
    match variable {
        Variable::PythonFullVersion | Variable::PythonVersion => true,
        _ => false,
    }
}

/// Whether the variable may have the value.
fn is_lawful(variable: Variable, value: &Value) -> bool
    ensures { result ≡ is_lawful variable value.now }
{
    is_unescaped(value.text().as_bytes()) && (!is_versioned(variable) || value.version().is_some())
}

/// A text without a `+` at its end.
fn without_plus(text: &str) -> &str
    ensures { result.now ≡ without_plus text.now }
{
    let bytes = text.as_bytes();
    let len = bytes.len();
    if len > 0 && bytes[len - 1] == b'+' {
        return &text[..len - 1];
    }
    text
}

/// The text that is kept for a variable.
fn kept_text(variable: Variable, text: &str) -> &str
    ensures { result.now ≡ kept_text variable text.now }
{
    match variable {
        Variable::PythonFullVersion => without_plus(text),
        _ => text,
    }
}

/// The value that an object has for a variable.
#[tactic(auto, unfolding(crate::specs::Environment::text_in))]
fn value_in(alloc: Global, object: &Json, variable: Variable) -> Result<Value, Cause>
    ensures { Answers OutOfMemory (text_in (view object.now) variable) result }
{
    let Some(text) = object.get(variable.name()).and_then(Json::as_str) else {
        return Err(Cause::BadEnvironment(Some(variable)));
    };
    let value = Value::read(alloc, kept_text(variable, text))?;
    if !is_lawful(variable, &value) {
        return Err(Cause::BadEnvironment(Some(variable)));
    }
    Ok(value)
}

/// The JSON object of the bytes.
#[tactic(auto, unfolding(crate::specs::Environment::object_of))]
fn object_of(alloc: Global, bytes: &[u8]) -> Result<Json, Cause>
    ensures { Answers OutOfMemory (object_of bytes.now) (result_map_both view (λ e. e) result) }
{
    match Json::from_slice(alloc, bytes) {
        Ok(value) if value.is_object() => Ok(value),
        Ok(_) => Err(Cause::BadEnvironment(None)),
        Err(error) => {
            if error.is_memory() {
                return Err(Cause::OutOfMemory);
            }
            Err(Cause::BadEnvironment(None))
        }
    }
}

/// The values that an object has for the variables.
fn values_in(alloc: Global, object: &Json) -> Result<Seq<Value>, Cause>
    ensures { Answers OutOfMemory (texts_in (view object.now) all_variables) result }
{
    let mut values = Seq::new(alloc);
    for variable in VARIABLES {
        let value = value_in(alloc, object, variable)?;
        values.push(value)?;
    }
    Ok(values)
}

/// The environment of a file.
#[tactic(auto, unfolding(crate::specs::Environment::environment_of))]
fn environment_of(alloc: Global, bytes: &[u8]) -> Result<Environment, Cause>
    ensures { Answers OutOfMemory (environment_of bytes.now) result }
{
    let object = object_of(alloc, bytes)?;
    Environment::from_value(alloc, &object)
}

/// Puts `NAME == "VALUE"` behind a text.
fn push_condition(
    marker: &mut String,
    variable: Variable,
    environment: &Environment,
) -> Result<(), AllocError>
    ensures { OnOk result (string_bytes marker.new
        ≡ string_bytes marker.old ++ condition environment.now variable) }
{
    marker.push_str(variable.name())?;
    marker.push_str(" == \"")?;
    marker.push_str(environment.text(variable))?;
    marker.push_str("\"")
}

impl Environment {
    /// The environment of a JSON value that has a text for each variable, as `read` takes them; other
    /// keys are ignored.
    pub fn from_value(alloc: Global, value: &Json) -> Result<Environment, Cause>
        ensures { Answers OutOfMemory (texts_in (view value.now) all_variables) result }
    {
        let values = values_in(alloc, value)?;
        Ok(Environment { values })
    }

    /// Reads a JSON object with a text for each variable; other keys are ignored. Of
    /// `python_full_version` one trailing `+` is dropped.
    ///
    /// `BadEnvironment(None)` where the bytes aren't UTF-8 or no JSON object, else with the first
    /// variable, in the byte order of the names, whose text is absent, has another character than
    /// printable ASCII without `"` and backslash, or is no version where it has to be one.
    pub fn read(alloc: Global, bytes: &[u8]) -> Result<Environment, Fault>
        ensures { Answers memory_fault (no_line (environment_of bytes.now)) result }
    {
        match environment_of(alloc, bytes) {
            Ok(environment) => Ok(environment),
            Err(cause) => Err(Fault::at(0, cause)),
        }
    }

    /// What holds of every environment: it has the eleven texts, and each is lawful.
    pub fn recall_invariant(&self)
        ensures { IsEnvironment self.now }
    {
        let _values = &self.values;
    }

    /// The value of a variable.
    fn value_at(&self, variable: Variable) -> &Value
        ensures { result.now ≡ text_of self.now variable }
    {
        &self.values.as_slice()[variable as usize]
    }

    /// The text of the variable of that name; none for any other word, `extra` too.
    pub fn value(&self, variable: &str) -> Option<&str>
        ensures { option_copied result ≡ value_of self.now variable.now }
    {
        match variable_named(variable) {
            Some(variable) => Some(self.text(variable)),
            None => None,
        }
    }

    /// The text of a variable.
    pub fn text(&self, variable: Variable) -> &str
        ensures { result.now ≡ text_of self.now variable }
    {
        self.value_at(variable).text()
    }

    /// The version that the text of a variable reads as.
    pub fn version(&self, variable: Variable) -> Option<&Version>
        ensures { option_copied result ≡ version_read (text_of self.now variable) }
    {
        self.value_at(variable).version()
    }

    /// The clauses that the text of a variable reads as behind the sign of a comparison.
    pub(crate) fn clauses(
        &self,
        variable: Variable,
        comparison: Comparison,
    ) -> Option<&SpecifierSet>
        ensures { option_copied result ≡ clauses_read comparison (text_of self.now variable) }
    {
        self.value_at(variable).clauses(comparison)
    }

    /// The version of `python_full_version`, which reads in every environment.
    pub fn full_version(&self) -> &Version
        ensures { version_read (text_of self.now PythonFullVersion) ≡ Some result.now }
    {
        let _values = &self.values;
        match self.version(Variable::PythonFullVersion) {
            Some(version) => version,
            None => unreachable!(),
        }
    }

    /// The marker that names each text: `NAME == "VALUE"`, joined by `and`.
    pub fn marker_text(&self, alloc: Global) -> Result<Text, AllocError>
        ensures { IfOk result (λ text. text ≡ marker_text self.now) }
    {
        let mut marker = String::new(alloc);
        push_condition(&mut marker, VARIABLES[0], self)?;
        for variable in &VARIABLES[1..] {
            marker.push_str(" and ")?;
            push_condition(&mut marker, *variable, self)?;
        }
        Ok(Text::from_string(marker))
    }
}

impl Clone for Environment {
    ghost is_clone = { λ e d. d ≡ e };

    fn clone(&self) -> Result<Environment, AllocError> {
        let values = self.values.clone()?;
        Ok(Environment { values })
    }
}

impl Faithful for Environment {
    ghost clone_is_source = { λ x y h. h };
}
