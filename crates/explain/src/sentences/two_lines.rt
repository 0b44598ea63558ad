// Why two lines don't go together, where the lines and a few packages are all that there is to tell.

use crate::asked::Asked;
use crate::sentences::Sentences;
use lists::copy_of;
use pep508::{Name, Requirement};
use problems::Node;
use set_refutations::placed::PlacedTerm;
use std::alloc::AllocError;
use std::collections::BTreeSet;

/// How many packages it is about at most: those of the lines, and one between them.
const PACKAGES: usize = 3;

/// Two of the lines, by their places.
#[derive(Clone, Copy)]
pub struct Pair {
    pub one: usize,
    pub other: usize,
}

impl Pair {
    fn turned(self) -> Pair {
        Pair {
            one: self.other,
            other: self.one,
        }
    }
}

/// Two lines, and why what the one takes leaves nothing of what the other one takes.
#[derive(Drop)]
pub struct Clash<'a> {
    pub pair: Pair,
    pub reason: Reason<'a>,
}

/// Why what the one line takes leaves nothing of what the other one takes.
#[derive(Drop)]
pub enum Reason<'a> {
    /// Both are on this name, and no release matches both.
    Apart(&'a Name),
    /// The releases that the one line takes need what the other one doesn't take.
    Direct(TermNeed),
    /// They need releases of another name, which need what the other line doesn't take.
    Linked(TermNeed, TermNeed),
    /// They need releases of another name, and those that the other line takes need others of it.
    Shared(TermNeed, TermNeed),
}

/// The releases of a term, and what they ask of a name.
#[derive(Drop)]
pub struct TermNeed {
    pub term: PlacedTerm,
    pub name: Name,
    pub asked: Asked,
}

impl Sentences<'_> {
    /// The names of the packages that the sentences are about.
    fn names(&self) -> Result<BTreeSet<Name>, AllocError> {
        let mut names = BTreeSet::new(self.alloc);
        for step in self.steps {
            self.add_names(&mut names, step)?;
        }
        Ok(names)
    }

    /// Why two lines don't go together, where the sentences are about these lines and a few packages, and what the lines and
    /// the releases that they take ask for tells it.
    pub fn clash(&self) -> Result<Option<Clash<'_>>, AllocError> {
        let [one, other] = self.cited else {
            return Ok(None);
        };
        let problem = self.problem;
        let names = self.names()?;
        if problem.only_kept || names.len() > PACKAGES {
            return Ok(None);
        }
        let pair = Pair {
            one: *one,
            other: *other,
        };
        for pair in [pair, pair.turned()] {
            if let Some(reason) = self.reason(pair, &names)? {
                return Ok(Some(Clash { pair, reason }));
            }
        }
        Ok(None)
    }

    /// Why what the one line takes leaves nothing of what the other one takes: by itself, or by another one of the packages.
    fn reason<'s>(
        &'s self,
        pair: Pair,
        names: &BTreeSet<Name>,
    ) -> Result<Option<Reason<'s>>, AllocError> {
        let (Some(one), Some(other)) = (
            self.line_requirement(pair.one),
            self.line_requirement(pair.other),
        ) else {
            return Ok(None);
        };
        if one.name() == other.name() {
            return self.apart(one, other);
        }
        if let Some(need) = self.direct(one, other)? {
            return Ok(Some(Reason::Direct(need)));
        }
        for third in names.iter() {
            if let Some(reason) = self.between(one, third, other)? {
                return Ok(Some(reason));
            }
        }
        Ok(None)
    }

    /// Two lines on one name, where no release matches both.
    fn apart<'s>(
        &self,
        one: &'s Requirement,
        other: &Requirement,
    ) -> Result<Option<Reason<'s>>, AllocError> {
        let places = self.derived.asking().matching(one)?;
        let beside = self.derived.asking().matching(other)?;
        if places.is_empty() || beside.is_empty() || places.meets(&beside) {
            return Ok(None);
        }
        Ok(Some(Reason::Apart(one.name())))
    }

    /// What the one line takes needs what the other one doesn't take.
    fn direct(
        &self,
        one: &Requirement,
        other: &Requirement,
    ) -> Result<Option<TermNeed>, AllocError> {
        if let Some(need) = self.refused_need(one, None, other)? {
            return Ok(Some(need));
        }
        for extra in one.extras() {
            if let Some(need) = self.refused_need(one, Some(extra), other)? {
                return Ok(Some(need));
            }
        }
        Ok(None)
    }

    /// The releases that the one line takes, at the node of one of its extras or of none, need what the other line doesn't
    /// take.
    fn refused_need(
        &self,
        one: &Requirement,
        extra: Option<&Name>,
        other: &Requirement,
    ) -> Result<Option<TermNeed>, AllocError> {
        let need = self.term_need(self.term_of(one, extra)?, other.name())?;
        let allowed = self.derived.asking().matching(other)?;
        if need.term.places.is_empty()
            || need.asked.is_nothing()
            || need.asked.places.meets(&allowed)
        {
            return Ok(None);
        }
        Ok(Some(need))
    }

    /// The same by a package of a third name, which leads from the one to the other, or which both need otherwise.
    fn between<'s>(
        &'s self,
        one: &Requirement,
        third: &Name,
        other: &Requirement,
    ) -> Result<Option<Reason<'s>>, AllocError> {
        let name = third.normal();
        if name == one.name().normal() || name == other.name().normal() {
            return Ok(None);
        }
        let first = self.term_need(self.term_of(one, None)?, third)?;
        if first.term.places.is_empty()
            || first.asked.is_nothing()
            || !self.does_each_need(&first.term, third)
        {
            return Ok(None);
        }
        if let Some(second) = self.linked(&first, other)? {
            return Ok(Some(Reason::Linked(first, second)));
        }
        match self.shared(&first, other)? {
            Some(second) => Ok(Some(Reason::Shared(first, second))),
            None => Ok(None),
        }
    }

    /// What is needed needs in turn what the line doesn't take.
    fn linked(
        &self,
        first: &TermNeed,
        other: &Requirement,
    ) -> Result<Option<TermNeed>, AllocError> {
        let node = Node {
            name: first.name.clone()?,
            extra: None,
        };
        let linked = PlacedTerm::new(node, first.asked.places.clone()?);
        let second = self.term_need(linked, other.name())?;
        let allowed = self.derived.asking().matching(other)?;
        if allowed.is_empty() || second.asked.is_nothing() || second.asked.places.meets(&allowed) {
            return Ok(None);
        }
        Ok(Some(second))
    }

    /// The releases that the line takes need others of the name.
    fn shared(
        &self,
        first: &TermNeed,
        other: &Requirement,
    ) -> Result<Option<TermNeed>, AllocError> {
        let second = self.term_need(self.term_of(other, None)?, &first.name)?;
        if second.asked.is_nothing() || second.asked.places.meets(&first.asked.places) {
            return Ok(None);
        }
        Ok(Some(second))
    }

    /// The releases of a term, with what they ask of a name.
    fn term_need(&self, term: PlacedTerm, name: &Name) -> Result<TermNeed, AllocError> {
        let asked = self.asked_of(&term, name)?;
        Ok(TermNeed {
            term,
            name: name.clone()?,
            asked,
        })
    }

    /// The releases that a line takes, at the node of one of its extras or of none.
    fn term_of(&self, line: &Requirement, extra: Option<&Name>) -> Result<PlacedTerm, AllocError> {
        let node = Node {
            name: line.name().clone()?,
            extra: copy_of(extra)?,
        };
        Ok(PlacedTerm::new(node, self.derived.asking().matching(line)?))
    }

    /// Whether each release of a term needs a name.
    fn does_each_need(&self, term: &PlacedTerm, name: &Name) -> bool {
        let needing = self.needing(term, name);
        for (place, release) in needing.releases().iter().enumerate() {
            if term.places.has(place)
                && !release
                    .dependencies()
                    .iter()
                    .any(|dependency| needing.is_by(dependency))
            {
                return false;
            }
        }
        true
    }
}
