// The way from the last conflict of a refutation by sets down to those that it rests on.

use crate::expansion::frame::Frame;
use crate::expansion::numbered_sets::{SetConflicts, Way};
use crate::expansion::placed_choice::{PlacedChoice, choice_among, has, is_among};
use crate::expansion::single_conflicts::SingleConflicts;
use search::Watch;
use set_refutations::placed::PlacedTerm;
use std::alloc::{AllocError, Global};

/// How many choices the conflicts of a list may have together.
const CHOICES: usize = 500_000;
/// How many steps may be taken.
const STEPS: usize = 4_000_000;

/// The conflicts of single versions that were made so far, and those in the making: each is asked for by the
/// one below it.
#[derive(Drop)]
pub(crate) struct Descent<'a> {
    alloc: Global,
    sets: SetConflicts<'a>,
    singles: SingleConflicts,
    frames: Vec<Frame>,
}

/// For each term the choice that it has: the candidate, or else one of the choices. Nothing where one has none.
fn choices_for(
    alloc: Global,
    terms: &[PlacedTerm],
    candidate: PlacedChoice,
    choices: &[PlacedChoice],
) -> Result<Option<Vec<PlacedChoice>>, AllocError> {
    let mut found: Vec<PlacedChoice> = Vec::new(alloc);
    for term in terms {
        let choice = if has(term, candidate) {
            candidate
        } else {
            let Some(choice) = choice_among(term, choices) else {
                return Ok(None);
            };
            choice
        };
        if !is_among(choice, found.as_slice()) {
            found.push(choice)?;
        }
    }
    found.sort_unstable();
    Ok(Some(found))
}

/// What is to be done with a conflict of sets and a choice for each of its terms.
#[derive(Drop)]
enum Next {
    /// It is entered in its stead.
    Enters(usize, Vec<PlacedChoice>),
    /// Nothing more.
    Done,
    /// There is no way on.
    Stuck,
}

impl<'a> Descent<'a> {
    /// Nothing is made yet.
    pub(crate) fn new(alloc: Global, sets: SetConflicts<'a>) -> Descent<'a> {
        Descent {
            alloc,
            sets,
            singles: SingleConflicts::new(alloc),
            frames: Vec::new(alloc),
        }
    }

    pub(crate) fn sets(&self) -> &SetConflicts<'a> {
        &self.sets
    }

    pub(crate) fn made(&self) -> &[Vec<PlacedChoice>] {
        self.singles.as_slice()
    }

    /// Makes conflicts up to the empty one. Whether it came so far: it gives up where they grow past a bound.
    pub(crate) fn run<W: Watch>(&mut self, watch: &mut W) -> Result<bool, AllocError> {
        let Some(last) = self.sets.last() else {
            return Ok(false);
        };
        let mut goes_on = self.enter(last, Vec::new(self.alloc))?;
        for _ in 0..STEPS {
            watch.goes_on();
            if self.singles.ends_empty() {
                return Ok(true);
            }
            if !goes_on || self.singles.size() > CHOICES {
                return Ok(false);
            }
            goes_on = self.step()?;
        }
        Ok(false)
    }

    /// Enters a conflict with a choice for each of its terms, or in its stead the one that it rests on. Whether
    /// there is a way on.
    fn enter(&mut self, conflict: usize, choices: Vec<PlacedChoice>) -> Result<bool, AllocError> {
        let (mut at, mut chosen) = (conflict, choices);
        for _ in 0..conflict.saturating_add(1) {
            match self.begin(at, chosen)? {
                Next::Enters(earlier, choices) => {
                    at = earlier;
                    chosen = choices;
                }
                Next::Done => return Ok(true),
                Next::Stuck => return Ok(false),
            }
        }
        Ok(false)
    }

    /// Makes the conflict that follows by itself, or begins to make the one that rests on others.
    fn begin(&mut self, conflict: usize, choices: Vec<PlacedChoice>) -> Result<Next, AllocError> {
        match self.sets.way(conflict)? {
            Some(Way::Refused(term)) => self.append_conflict(
                conflict,
                (term, term),
                choices.as_slice(),
            ),
            Some(Way::Clash(one, other)) => self.append_conflict(
                conflict,
                (one, other),
                choices.as_slice(),
            ),
            Some(Way::Rests(term)) => match self.chosen(conflict, term, choices.as_slice()) {
                Some(choice) => self.next_earlier(conflict, choice, choices.as_slice()),
                None => Ok(Next::Stuck),
            },
            Some(Way::NoneLeft(node, need)) => {
                let need = match need {
                    Some(term) => self.chosen(conflict, term, choices.as_slice()),
                    None => None,
                };
                self.frames
                    .push(Frame::new(self.alloc, conflict, choices, node, need)?)?;
                Ok(Next::Done)
            }
            None => Ok(Next::Stuck),
        }
    }

    /// The choice of a term.
    fn chosen(
        &self,
        conflict: usize,
        term: usize,
        choices: &[PlacedChoice],
    ) -> Option<PlacedChoice> {
        choice_among(self.sets.terms(conflict).get(term)?, choices)
    }

    /// Appends the conflict of the choices of two terms, or of one.
    fn append_conflict(
        &mut self,
        conflict: usize,
        terms: (usize, usize),
        choices: &[PlacedChoice],
    ) -> Result<Next, AllocError> {
        let (Some(one), Some(other)) = (
            self.chosen(conflict, terms.0, choices),
            self.chosen(conflict, terms.1, choices),
        ) else {
            return Ok(Next::Stuck);
        };
        let mut made = Vec::new(self.alloc);
        made.push(one)?;
        if one != other {
            made.push(other)?;
        }
        self.singles.append(made)?;
        Ok(Next::Done)
    }

    /// The earlier conflict that one with these choices rests on, where the choice is at its node.
    fn next_earlier(
        &mut self,
        conflict: usize,
        choice: PlacedChoice,
        choices: &[PlacedChoice],
    ) -> Result<Next, AllocError> {
        let Some(earlier) = self.sets.earlier(conflict, choice)? else {
            return Ok(Next::Stuck);
        };
        let terms = self.sets.terms(earlier);
        match choices_for(self.alloc, terms, choice, choices)? {
            Some(chosen) => Ok(Next::Enters(earlier, chosen)),
            None => Ok(Next::Stuck),
        }
    }

    /// Looks at the next candidate of the topmost frame. Whether there is a way on.
    fn step(&mut self) -> Result<bool, AllocError> {
        let Some(mut frame) = self.frames.pop() else {
            return Ok(false);
        };
        let Some(candidate) = self.sets.candidate(frame.node, frame.turn) else {
            self.singles.append(frame.into_conflict())?;
            return Ok(true);
        };
        let choices = frame.with(candidate)?;
        match self.singles.within(choices.as_slice()) {
            Some(conflict) => {
                // one without the candidate is a conflict of the frame's choices alone
                if is_among(candidate, conflict) {
                    frame.exclude(candidate, conflict)?;
                    self.frames.push(frame)?;
                }
                Ok(true)
            }
            None => self.ask(frame, candidate),
        }
    }

    /// Asks for the conflict that excludes a candidate.
    fn ask(&mut self, frame: Frame, candidate: PlacedChoice) -> Result<bool, AllocError> {
        let next = self.next_earlier(frame.conflict, candidate, frame.choices.as_slice())?;
        self.frames.push(frame)?;
        match next {
            Next::Enters(earlier, choices) => self.enter(earlier, choices),
            Next::Done => Ok(true),
            Next::Stuck => Ok(false),
        }
    }
}
