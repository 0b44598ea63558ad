// What is told of what an index lacks, and what makes it with that.

use crate::lacking::{Extent, Lack, lacks_of, nodes_of};
use crate::lacking_text::lack_text;
use crate::lost_extras::lost_extra;
use crate::next_steps::{IndexMaker, IndexPlan, add_words};
use edits::{Change, Problem, Snapshot, State, TargetName};
use phrases::Notes;
use problems::Node;
use std::alloc::{AllocError, Global};

/// How many notes are told, the others by their number.
const MOST: usize = 20;

/// Notes of what an index lacks: what the index has to be made with, and the names whose releases that rules out.
#[derive(Drop)]
pub struct Lacks {
    // nothing is noted unless it is told
    is_told: bool,
    notes: Vec<TargetNote>,
    packages: Vec<String>,
    names: Vec<String>,
    // whether something is locked, or an edit was refused
    is_locked: bool,
}

// A note, and the names of the targets that it is of.
#[derive(Drop)]
struct TargetNote {
    text: String,
    targets: String,
}

impl Lacks {
    /// None yet.
    pub fn new(alloc: Global, is_told: bool) -> Lacks {
        Lacks {
            is_told,
            notes: Vec::new(alloc),
            packages: Vec::new(alloc),
            names: Vec::new(alloc),
            is_locked: false,
        }
    }

    /// Forgets what was noted.
    pub fn clear(&mut self) {
        self.notes.clear();
        self.packages.clear();
        self.names.clear();
    }

    /// Notes what the index lacks that newer releases than those of the locks need, and the extras that a change lost.
    pub fn add_newer(
        &mut self,
        alloc: Global,
        state: &State,
        snapshot: &Snapshot,
        change: Option<&Change>,
    ) -> Result<(), AllocError> {
        if !self.is_told {
            return Ok(());
        }
        self.is_locked = true;
        for target in state.targets() {
            let kept = target.kept(alloc)?;
            let problem = Problem::new(alloc, state.lines(), &target.environment, snapshot, kept)?;
            let nodes = nodes_of(alloc, &problem, Extent::Newer)?;
            let target = target.name.as_str();
            let lacks = lacks_of(alloc, &problem, nodes.as_slice(), Extent::Newer)?;
            self.add_lacking(alloc, target, &problem, lacks.as_slice())?;
            if let Some(change) = change {
                self.add_lost(alloc, target, &problem, nodes.as_slice(), change)?;
            }
        }
        Ok(())
    }

    /// Notes what the index lacks that the lines of a problem ask for, or releases that they ask for. The names of lines may be
    /// told elsewhere.
    pub fn add_asked(
        &mut self,
        alloc: Global,
        target: &TargetName,
        problem: &Problem<'_>,
        tells_lines: bool,
    ) -> Result<(), AllocError> {
        if !self.is_told {
            return Ok(());
        }
        let nodes = nodes_of(alloc, problem, Extent::All)?;
        let lacks = lacks_of(alloc, problem, nodes.as_slice(), Extent::All)?;
        for lack in lacks.as_slice() {
            self.add_packages(alloc, lack)?;
            if tells_lines || !lack.positions.is_empty() {
                self.add_note(alloc, target.as_str(), lack_text(alloc, problem, lack)?)?;
            }
        }
        Ok(())
    }

    fn add_lacking(
        &mut self,
        alloc: Global,
        target: &str,
        problem: &Problem<'_>,
        lacks: &[Lack<'_>],
    ) -> Result<(), AllocError> {
        for lack in lacks {
            self.add_packages(alloc, lack)?;
            self.add_note(alloc, target, lack_text(alloc, problem, lack)?)?;
        }
        Ok(())
    }

    fn add_lost(
        &mut self,
        alloc: Global,
        target: &str,
        problem: &Problem<'_>,
        nodes: &[Node],
        change: &Change,
    ) -> Result<(), AllocError> {
        for node in nodes {
            if let Some(note) = lost_extra(alloc, problem, node, target, change)? {
                self.add_note(alloc, target, note)?;
            }
        }
        Ok(())
    }

    /// The notes, a line for each, and the call that makes the index with what it lacks.
    pub fn told(&self, alloc: Global, plan: IndexPlan<'_>) -> Result<Notes, AllocError> {
        let mut told = Notes::new(alloc);
        for note in self.notes.as_slice().iter().take(MOST) {
            if !note.targets.is_empty() {
                told.push_str(note.targets.as_str())?;
                told.push_str(": ")?;
            }
            told.push_str(note.text.as_str())?;
            told.push_str("\n")?;
        }
        let more = self.notes.len().saturating_sub(MOST);
        if more > 0 {
            write!(told, "and {more} more of such packages\n")?;
        }
        self.add_call(&mut told, plan)?;
        Ok(told)
    }

    /// The call that makes the index with what it lacks.
    fn add_call(&self, notes: &mut Notes, plan: IndexPlan<'_>) -> Result<(), AllocError> {
        let them = match self.packages.len() {
            0 => return Ok(()),
            1 => "it",
            _ => "them",
        };
        write!(notes, "Where the package index has {them}, ")?;
        match plan.maker {
            IndexMaker::First | IndexMaker::Again => {
                write!(notes, "this makes the snapshot with {them}:\n")?;
                plan.add_remaking(notes, self.packages.as_slice())
            }
            IndexMaker::Project if self.is_locked => {
                write!(notes, "this takes {them} in:\n")?;
                notes.begin_command()?;
                notes.push_str("rql upgrade")?;
                add_words(&mut notes.text, self.names.as_slice())?;
                notes.push_str("\n")
            }
            IndexMaker::Project => write!(notes, "the same edit by rql takes {them} in.\n"),
        }
    }

    /// A note of several targets is told once, behind their names.
    fn add_note(&mut self, alloc: Global, target: &str, text: String) -> Result<(), AllocError> {
        for note in self.notes.as_mut_slice() {
            if note.text.as_str() == text.as_str() {
                return note.add_target(target);
            }
        }
        let targets = String::from_str(alloc, target)?;
        Ok(self.notes.push(TargetNote { text, targets })?)
    }

    /// What the index is to be made with: the extra, or the packages.
    fn add_packages(&mut self, alloc: Global, lack: &Lack<'_>) -> Result<(), AllocError> {
        let name = lack.node.name.normal();
        add_new(&mut self.names, String::from_str(alloc, name)?)?;
        if let Some(extra) = &lack.node.extra {
            let extra = extra.normal();
            return add_new(&mut self.packages, format!(in alloc; "{name}[{extra}]")?);
        }
        if lack.positions.is_empty() {
            return add_new(&mut self.packages, String::from_str(alloc, name)?);
        }
        for package in lack.packages.as_slice() {
            add_new(
                &mut self.packages,
                String::from_str(alloc, package.normal())?,
            )?;
        }
        Ok(())
    }
}

/// Puts a word behind others, if it isn't among them, and as long as they are few.
fn add_new(words: &mut Vec<String>, word: String) -> Result<(), AllocError> {
    let is_there = words
        .as_slice()
        .iter()
        .any(|other| other.as_str() == word.as_str());
    if is_there || words.len() >= MOST {
        return Ok(());
    }
    Ok(words.push(word)?)
}

impl TargetNote {
    fn add_target(&mut self, target: &str) -> Result<(), AllocError> {
        if self.targets.as_str() == target {
            return Ok(());
        }
        self.targets.push_str(", ")?;
        self.targets.push_str(target)
    }
}
