// Lines of a requirements file in slices.

ghost use Rattle.lists.specs.Answers.{Answers};
ghost use Rattle.std.specs.Prelude.{◌≡◌, ◌<◌, List, Some, Ok, IfOk, length};
ghost use Rattle.std.specs.Option.{option_copied};
ghost use Rattle.pep440.specs.Tied.Sets.{set_of};
ghost use Rattle.pep440.specs.declared.specifier.Clause.{Clause};
ghost use Rattle.markers.specs.Faults.{memory_fault, one_line};
ghost use Rattle.pep508.specs.Requirement.{ReadsWith, RequirementParts, cut_line, requirement_of};
ghost use Rattle.pep508.specs.Slices.{IsCut, joined, with_version};

use crate::line::wanted_by;
use crate::parts::cut_ending;
use crate::requirement::Requirement;
use crate::slices::{Slices, slices_of};
use crate::specifier_text::SpecifierText;
use lists::Text;
use markers::Fault;
use pep440::laws::a_set_has_its_bytes;
use std::alloc::{AllocError, Global};
use std::marker::Model;

/// A line with its ending, cut into eleven slices that are lent from it: blank, a comment, or a
/// requirement. In a clause it is these slices.
pub struct ReqLine<'a> {
    slices: Slices<'a>,
    requirement: Option<Requirement>,
}

impl Drop for ReqLine<'_> {
    fn drop(self) {
        let ReqLine {
            slices: _,
            requirement: _,
        } = self;
    }
}

impl<'a> Model for ReqLine<'a> {
    ghost use Rattle.std.specs.Prelude.{◌≡◌, Ok};
    ghost use Rattle.pep508.specs.Requirement.{requirement_of};
    ghost use Rattle.pep508.specs.Slices.{IsCut, Slices, joined};

    ghost Value = { Slices };

    ghost view = { λ l. l.slices };

    ghost invariant = { λ l. (requirement_of (joined l.slices) ≡ Ok l.requirement)
        × IsCut (joined l.slices) l.slices };
}

impl<'a> ReqLine<'a> {
    /// Reads a line with its ending. The slices are those that its standard cuts, and a refused line
    /// has the fault that `Line::read` answers for it.
    pub fn read(alloc: Global, line: &'a str) -> Result<ReqLine<'a>, Fault>
        ensures exact { Answers memory_fault (one_line (cut_line line.now)) result }
        ensures cut { IfOk result (λ slices. IsCut line.now slices) }
    {
        match wanted_by(alloc, cut_ending(line).0) {
            Ok(requirement) => Ok(ReqLine {
                slices: slices_of(line),
                requirement,
            }),
            Err(cause) => Err(Fault::at(1, cause)),
        }
    }

    /// The space at the start of the line.
    pub fn lead(&self) -> &'a str
        ensures { result.now ≡ self.now.lead }
    {
        let slices = &self.slices;
        slices.lead
    }

    /// The name as written; empty where the line is blank or a comment.
    pub fn name(&self) -> &'a str
        ensures { result.now ≡ self.now.name }
    {
        let slices = &self.slices;
        slices.name
    }

    /// The space before the extras.
    pub fn gap1(&self) -> &'a str
        ensures { result.now ≡ self.now.gap1 }
    {
        let slices = &self.slices;
        slices.gap1
    }

    /// The extras with their brackets.
    pub fn extras(&self) -> &'a str
        ensures { result.now ≡ self.now.extras }
    {
        let slices = &self.slices;
        slices.extras
    }

    /// The space before the version part.
    pub fn gap2(&self) -> &'a str
        ensures { result.now ≡ self.now.gap2 }
    {
        let slices = &self.slices;
        slices.gap2
    }

    /// The version part with its parentheses.
    pub fn version(&self) -> &'a str
        ensures { result.now ≡ self.now.version }
    {
        let slices = &self.slices;
        slices.version
    }

    /// The space before the marker.
    pub fn gap3(&self) -> &'a str
        ensures { result.now ≡ self.now.gap3 }
    {
        let slices = &self.slices;
        slices.gap3
    }

    /// The marker with its `;`.
    pub fn marker(&self) -> &'a str
        ensures { result.now ≡ self.now.marker }
    {
        let slices = &self.slices;
        slices.marker
    }

    /// The space before the comment, or at the end of the line.
    pub fn gap4(&self) -> &'a str
        ensures { result.now ≡ self.now.gap4 }
    {
        let slices = &self.slices;
        slices.gap4
    }

    /// The comment with its `#`.
    pub fn comment(&self) -> &'a str
        ensures { result.now ≡ self.now.comment }
    {
        let slices = &self.slices;
        slices.comment
    }

    /// How the line ends: LF, CR and LF, or nothing.
    pub fn end(&self) -> &'a str
        ensures { result.now ≡ self.now.end }
    {
        let slices = &self.slices;
        slices.end
    }

    /// The line with these specifiers in the place of its version part, or directly behind name and
    /// extras where it has none. All else stays as it is written.
    pub fn with_specifier(
        &self,
        alloc: Global,
        specifier: &SpecifierText,
    ) -> Result<Text, AllocError>
        requires { 0 < length self.now.name }
        ensures joins { IfOk result (λ text. text ≡ joined (with_version specifier.now self.now)) }
        ensures reads { IfOk result (λ text. (wanted : RequirementParts) (clauses : List Clause)
            → requirement_of (joined self.now) ≡ Ok (Some wanted)
            → set_of specifier.now ≡ Ok clauses
            → ReadsWith self.now wanted clauses text) }
    {
        // The new line reads since a set has bytes of its own alone: no `;`, and no `#`.
        a_set_has_its_bytes();
        let slices = &self.slices;
        slices.joined_with(alloc, specifier.text())
    }

    /// What the line asks for; none where it is blank or a comment.
    pub fn requirement(&self) -> Option<&Requirement>
        ensures { requirement_of (joined self.now) ≡ Ok (option_copied result) }
    {
        self.requirement.as_ref()
    }

    /// What holds of every line that was read: its slices join to a line that isn't refused, and are the
    /// slices of that line.
    pub fn recall_invariant(&self)
        ensures reads { cut_line (joined self.now) ≡ Ok self.now }
        ensures cut { IsCut (joined self.now) self.now }
    {
        let _slices = &self.slices;
    }
}
