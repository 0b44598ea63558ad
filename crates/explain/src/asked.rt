// What a line or releases ask of a name, in versions of the index.

use crate::dependencies::Needing;
use crate::range::{Range, range_of};
use crate::release_set::add_listed;
use crate::wording::Extent;
use lists::Bits;
use pep508::{Name, Operator, Requirement};
use phrases::add_requirement;
use problems::Problem;
use problems::parts::LentNode;
use set_refutations::placed::PlacedTerm;
use snapshot::Release;
use std::alloc::{AllocError, Global};

/// How many different requirements for one name are told, in short.
pub const REQUIREMENTS: usize = 3;

/// What is asked of a name: how it is told, and the places of the releases that match what is told. Whether one is yanked, a
/// pre-release or for another Python doesn't count here.
#[derive(Drop)]
pub struct Asked {
    pub words: Words,
    pub places: Bits,
}

/// How it is told what is asked of a name.
#[derive(Drop)]
pub enum Words {
    /// Each release matches.
    Any,
    /// These versions do, which stand behind the name.
    Range(String),
    /// A requirement with its name.
    Requirement(String),
    /// No release does: the different requirements; or none of them where they are more than are told.
    Nothing(Vec<String>),
}

impl Asked {
    /// Whether some releases match and others don't.
    fn is_range(&self) -> bool {
        match &self.words {
            Words::Range(_) => true,
            _ => false,
        }
    }

    /// Whether no release matches.
    pub fn is_nothing(&self) -> bool {
        match &self.words {
            Words::Nothing(_) => true,
            _ => false,
        }
    }

    /// What is needed of a name, with that; by the different requirements where no release matches.
    pub fn add_needed(&self, text: &mut String, name: &str) -> Result<(), AllocError> {
        match &self.words {
            Words::Any => text.push_str(name),
            Words::Range(range) => {
                let range = range.as_str();
                write!(text, "{name} {range}")
            }
            Words::Requirement(requirement) => text.push_str(requirement.as_str()),
            Words::Nothing(texts) if texts.is_empty() => {
                write!(text, "{name} in versions that the index doesn't have")
            }
            Words::Nothing(texts) => add_listed(text, texts.as_slice(), "or"),
        }
    }

    /// Whether each release matches.
    pub fn is_any(&self) -> bool {
        match &self.words {
            Words::Any => true,
            _ => false,
        }
    }
}

/// Who tells what is asked of a name.
#[derive(Clone, Copy)]
pub struct Asking<'a> {
    pub alloc: Global,
    pub problem: &'a Problem<'a>,
    pub extent: Extent,
}

/// A lower bound is told in words, another requirement as it stands.
fn words_of(alloc: Global, requirement: &Requirement) -> Result<Words, AllocError> {
    if let [clause] = requirement.specifiers().clauses() {
        if let Operator::AtLeast = clause.operator {
            let version = &clause.version;
            return Ok(Words::Range(format!(in alloc; "{version} or newer")?));
        }
    }
    let mut text = String::new(alloc);
    add_requirement(&mut text, requirement)?;
    Ok(Words::Requirement(text))
}

impl<'a> Asking<'a> {
    /// The places of the releases that match all clauses of a requirement on their name.
    pub fn matching(&self, requirement: &Requirement) -> Result<Bits, AllocError> {
        let releases = self.problem.releases(requirement.name());
        let mut places = Bits::new(self.alloc);
        for (place, release) in releases.iter().enumerate() {
            if requirement.specifiers().matches(release.version()) {
                places.insert(place)?;
            }
        }
        Ok(places)
    }

    /// The places of all releases of a name.
    pub fn all_places(&self, name: &Name) -> Result<Bits, AllocError> {
        let mut places = Bits::new(self.alloc);
        for place in 0..self.problem.releases(name).len() {
            places.insert(place)?;
        }
        Ok(places)
    }

    /// Any release of a name.
    pub fn anything(&self, name: &Name) -> Result<Asked, AllocError> {
        Ok(Asked {
            words: Words::Any,
            places: self.all_places(name)?,
        })
    }

    /// What a line asks of its name.
    pub fn by_line(&self, requirement: &Requirement) -> Result<Asked, AllocError> {
        let releases = self.problem.releases(requirement.name());
        let places = self.matching(requirement)?;
        self.asked_of(releases, places, Vec::new(self.alloc))
    }

    /// What the releases of a term ask of a name: what any of them takes. A requirement that is all of them is told by itself.
    pub fn by_term(&self, term: &PlacedTerm, needed: &LentNode<'_>) -> Result<Asked, AllocError> {
        let texts = self.requirements_of(term, needed)?;
        let is_one = texts.len() == 1;
        let releases = self.problem.releases(needed.name);
        let places = self.taken_by(term, needed)?;
        let asked = self.asked_of(releases, places, texts)?;
        if is_one && asked.is_range() {
            if let Some(requirement) = self.requirement_on(term, needed) {
                return Ok(Asked {
                    words: words_of(self.alloc, requirement)?,
                    places: self.matching(requirement)?,
                });
            }
        }
        Ok(asked)
    }

    /// What is asked where of the releases of a name these match, by these requirements.
    fn asked_of(
        &self,
        releases: &[Release],
        places: Bits,
        texts: Vec<String>,
    ) -> Result<Asked, AllocError> {
        if places.is_empty() {
            let is_told = texts.len() <= self.extent.most(REQUIREMENTS);
            let texts = if is_told { texts } else { Vec::new(self.alloc) };
            return Ok(Asked {
                words: Words::Nothing(texts),
                places,
            });
        }
        if places.places(self.alloc)?.len() == releases.len() {
            return Ok(Asked {
                words: Words::Any,
                places,
            });
        }
        let Range { text, places } = range_of(self.alloc, releases, &places, self.extent)?;
        Ok(Asked {
            words: Words::Range(text),
            places,
        })
    }

    /// The releases of a term, where they need a node.
    fn needing<'t>(
        &self,
        term: &'t PlacedTerm,
        name: &'t Name,
        extra: Option<&'t Name>,
    ) -> Needing<'t>
    where
        'a: 't,
    {
        Needing {
            problem: self.problem,
            node: &term.node,
            needed: LentNode { name, extra },
        }
    }

    /// The places of the releases that match all that one of a term's releases needs of the name.
    fn taken_by(&self, term: &PlacedTerm, needed: &LentNode<'_>) -> Result<Bits, AllocError> {
        let needing = self.needing(term, needed.name, needed.extra);
        let mut taken = Bits::new(self.alloc);
        for (place, release) in needing.releases().iter().enumerate() {
            if term.places.has(place) {
                taken.join(&self.taken_at(release, &needing)?)?;
            }
        }
        Ok(taken)
    }

    /// Those that match all that a release needs of the name.
    fn taken_at(&self, release: &Release, needing: &Needing<'_>) -> Result<Bits, AllocError> {
        let mut taken = self.all_places(needing.needed.name)?;
        for dependency in release.dependencies() {
            if needing.is_by(dependency) {
                taken.keep(&self.matching(dependency)?);
            }
        }
        Ok(taken)
    }

    /// The different requirements by which the releases of a term need a name, from the oldest release on, as far as they are
    /// told and one more.
    pub fn requirements_of(
        &self,
        term: &PlacedTerm,
        needed: &LentNode<'_>,
    ) -> Result<Vec<String>, AllocError> {
        let most = self.extent.most(REQUIREMENTS);
        let needing = self.needing(term, needed.name, needed.extra);
        let listed = term.places.places(self.alloc)?;
        let mut texts: Vec<String> = Vec::new(self.alloc);
        for place in listed.as_slice().iter().rev() {
            if let (true, Some(release)) = (texts.len() <= most, needing.releases().get(*place)) {
                self.add_requirements(&mut texts, release, &needing)?;
            }
        }
        Ok(texts)
    }

    /// Those of a release.
    fn add_requirements(
        &self,
        texts: &mut Vec<String>,
        release: &Release,
        needing: &Needing<'_>,
    ) -> Result<(), AllocError> {
        for dependency in release.dependencies() {
            if needing.is_by(dependency) {
                let mut text = String::new(self.alloc);
                add_requirement(&mut text, dependency)?;
                if !texts.iter().any(|other| other.as_str() == text.as_str()) {
                    texts.push(text)?;
                }
            }
        }
        Ok(())
    }

    /// A requirement by which the newest release of the term needs the name.
    pub fn requirement_on(
        &self,
        term: &PlacedTerm,
        needed: &LentNode<'_>,
    ) -> Option<&'a Requirement> {
        let place = term.places.first_from(0)?;
        let release = self.problem.releases(&term.node.name).get(place)?;
        let needing = self.needing(term, needed.name, needed.extra);
        release
            .dependencies()
            .iter()
            .find(|dependency| needing.is_by(dependency))
    }
}
