// Lines of a requirements file.

ghost use Rattle.lists.specs.Answers.{Answers};
ghost use Rattle.std.specs.Prelude.{◌≡◌, ◌++◌, Ok, Some, IfOk};
ghost use Rattle.std.specs.Option.{option_copied};
ghost use Rattle.pep508.specs.Parts.{IsEnding, ended, ending_of};
ghost use Rattle.pep508.specs.Required.{counts_in, is_on, required_by};
ghost use Rattle.pep508.specs.Requirement.{IsLine, RequirementParts, checked_line, requirement_of, wanted_by};
ghost use Rattle.pep508.specs.Slices.{joined, slices_of, with_version};
ghost use Rattle.markers.specs.declared.fault.Cause.TheVariants.{OutOfMemory};

use crate::cuts::cut_comment;
use crate::parts::{begins_with, cut_ending, ending_of, ends_with, is_refused};
use crate::req_line::ReqLine;
use crate::requirement::Requirement;
use crate::specifier_text::SpecifierText;
use lists::{Faithful, Text, trim_start};
use markers::{Cause, Environment, Name};
use std::alloc::{AllocError, Global};
use std::marker::Model;
use std::rc::Rc;

/// The text of a line, and what was read of it.
struct Content {
    text: Text,
    requirement: Option<Requirement>,
}

impl Drop for Content {
    fn drop(self) {
        let Content {
            text: _,
            requirement: _,
        } = self;
    }
}

impl Clone for Content {
    ghost is_clone = { λ c k. k ≡ c };

    fn clone(&self) -> Result<Content, AllocError> {
        let text = self.text.clone()?;
        let requirement = self.requirement.clone()?;
        Ok(Content { text, requirement })
    }
}

/// Puts `more` behind the text of a content. Where others share it they keep the old one.
fn put_behind(shared: &mut Rc<Content>, more: &str) -> Result<(), AllocError>
    ensures text { IfOk result
        (λ _. shared.new.value.text ≡ shared.old.value.text ++ more.now) }
    ensures requirement { IfOk result
        (λ _. shared.new.value.requirement ≡ shared.old.value.requirement) }
{
    let content = Rc::make_mut(shared)?;
    content.text.push_str(more)
}

/// A line with its ending, if it has one: blank, a comment, or a requirement. In a clause it is its
/// bytes, which tell the requirement. Clones of a line share it.
pub struct Line {
    shared: Rc<Content>,
}

impl Drop for Line {
    fn drop(self) {
        let Line { shared: _ } = self;
    }
}

impl Model for Line {
    ghost use Rattle.std.specs.Prelude.{◌≡◌, List, ℕ, Ok};
    ghost use Rattle.pep508.specs.Requirement.{requirement_of};

    ghost Value = { List ℕ };

    ghost view = { λ l. l.shared.value.text };

    ghost invariant = { λ l. requirement_of l.shared.value.text ≡ Ok l.shared.value.requirement };
}

/// What the content of a line asks for: nothing where it is blank or a comment.
#[tactic(auto, unfolding(crate::specs::Requirement::wanted_by))]
pub(crate) fn wanted_by(alloc: Global, content: &str) -> Result<Option<Requirement>, Cause>
    ensures { Answers OutOfMemory (wanted_by content.now) result }
{
    if is_refused(content) {
        return Err(Cause::OddCharacter);
    }
    if ends_with(b'\\', content) {
        return Err(Cause::Continuation);
    }
    if begins_with(b'-', trim_start(content)) {
        return Err(Cause::OptionLine);
    }
    let text = trim_start(cut_comment(content).0);
    if text.is_empty() {
        return Ok(None);
    }
    Ok(Some(Requirement::asked_in(alloc, text)?))
}

impl Line {
    /// Reads a line with its ending.
    #[tactic(auto, unfolding(crate::specs::Requirement::requirement_of))]
    pub fn read(alloc: Global, line: &str) -> Result<Line, Cause>
        ensures { Answers OutOfMemory (checked_line line.now) result }
    {
        let requirement = wanted_by(alloc, cut_ending(line).0)?;
        let text = Text::copy_of(alloc, line)?;
        let shared = Rc::new(alloc, Content { text, requirement })?;
        Ok(Line { shared })
    }

    /// The line with its ending.
    pub fn text(&self) -> &str
        ensures { result.now ≡ self.now }
    {
        self.shared.as_ref().text.as_str()
    }

    /// How the line ends: LF, CR and LF, or nothing.
    pub fn ending(&self) -> &'static str
        ensures { result.now ≡ ending_of self.now }
    {
        ending_of(self.text())
    }

    /// The line, with this ending where it has none. Other lines that share its content stay.
    pub fn ended(self, ending: &str) -> Result<Line, AllocError>
        requires { IsEnding ending.now }
        ensures { IfOk result (λ line. line ≡ ended ending.now self) }
    {
        if !self.ending().is_empty() {
            return Ok(self);
        }
        let Line { mut shared } = self;
        put_behind(&mut shared, ending)?;
        Ok(Line { shared })
    }

    /// The line with these specifiers in the place of its version part, or directly behind name and
    /// extras where it has none. All else stays as it is written.
    pub fn with_specifier(
        &self,
        alloc: Global,
        specifier: &SpecifierText,
    ) -> Result<Line, AllocError>
        requires { (wanted : RequirementParts) × (requirement_of self.now ≡ Ok (Some wanted)) }
        ensures { IfOk result
            (λ line. line ≡ joined (with_version specifier.now (slices_of self.now))) }
    {
        // Both lines read, so that memory alone can be refused.
        let Ok(slices) = ReqLine::read(alloc, self.text()) else {
            return Err(AllocError);
        };
        let text = slices.with_specifier(alloc, specifier)?;
        match Line::read(alloc, text.as_str()) {
            Ok(line) => Ok(line),
            Err(_) => Err(AllocError),
        }
    }

    /// What the line asks for; none where it is blank or a comment.
    pub fn requirement(&self) -> Option<&Requirement>
        ensures { requirement_of self.now ≡ Ok (option_copied result) }
    {
        self.shared.as_ref().requirement.as_ref()
    }

    /// Whether the line is a requirement on the name.
    pub fn is_on(&self, name: &Name) -> bool
        ensures { result ≡ is_on name.now (required_by self.now) }
    {
        match self.requirement() {
            Some(requirement) => name.normal() == requirement.name().normal(),
            None => false,
        }
    }

    /// Whether the line is a requirement that counts in an environment.
    pub fn is_active(&self, environment: &Environment) -> bool
        ensures { result ≡ counts_in environment.now (required_by self.now) }
    {
        match self.requirement() {
            Some(requirement) => requirement.is_active(environment),
            None => false,
        }
    }

    /// What holds of every line: it is UTF-8, and not refused.
    pub fn recall_invariant(&self)
        ensures { IsLine self.now }
    {
        let _text = self.shared.as_ref().text.as_str();
    }
}

impl Clone for Line {
    ghost is_clone = { λ l k. k ≡ l };

    fn clone(&self) -> Result<Line, AllocError> {
        let shared = self.shared.clone()?;
        Ok(Line { shared })
    }
}

impl Faithful for Line {
    ghost clone_is_source = { λ x y h. h };
}
