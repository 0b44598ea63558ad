// What is told on standard error beside a reply.

use crate::index_maker::maker_of;
use crate::manner::Manner;
use inputs::target_files::TargetPath;
use inputs::{InputFile, path_of};
use notes::{IndexMaker, IndexPlan, Lacks};
use phrases::{Notes, Style, add_word};
use std::alloc::{AllocError, Global};
use std::io::Write;
use std::rt::Files;

/// What is known beside a reply. Nothing is noted unless it is told.
#[derive(Drop)]
pub struct Details {
    /// How they are told.
    pub manner: Manner,
    // the options of the call, which the command to type next needs too
    pub(crate) options: String,
    // where the files stand that an index is made for, and the index
    requirements: String,
    index: String,
    environments: String,
    maker: IndexMaker,
    /// What a command changed, as it looks in the manner of the call.
    pub changes: String,
    // what is known of it, of a refusal or of a fault
    pub(crate) known: Notes,
    // why there is no solution, as it looks in the manner of the call
    pub(crate) reasons: String,
    // what to type next
    pub(crate) steps: Notes,
    /// What the index lacks.
    pub lacks: Lacks,
    // whether this is of the fault that the call ends with
    pub(crate) is_of_fault: bool,
}

/// Where the files stand that a call names.
#[derive(Drop)]
pub struct CallFiles<'a> {
    pub dir: &'a str,
    pub index: Option<&'a str>,
    /// The requirements file that is handed in: the new one, or the old one.
    pub lines: Option<&'a str>,
    /// Whether that is the old one.
    pub is_old: bool,
    /// The text that is to name a package or a release that the call tells of.
    pub named: Option<&'a str>,
    pub targets: Vec<TargetPath>,
}

impl Details {
    /// None yet, told in this manner.
    pub fn new(alloc: Global, manner: Manner) -> Details {
        Details {
            manner,
            options: String::new(alloc),
            requirements: String::new(alloc),
            index: String::new(alloc),
            environments: String::new(alloc),
            maker: IndexMaker::First,
            changes: String::new(alloc),
            known: Notes::new(alloc),
            reasons: String::new(alloc),
            steps: Notes::new(alloc),
            lacks: Lacks::new(alloc, manner.tells_lacks),
            is_of_fault: false,
        }
    }

    /// None, and nothing is told.
    pub fn none(alloc: Global) -> Details {
        Details::new(alloc, Manner::silent())
    }

    /// Whether something is told at all.
    pub fn tells(&self) -> bool {
        self.manner.tells
    }

    /// Makes them those of a call with these files. An environment may be given to a call that reads none.
    pub fn tell_of<R: Files + AllocGlobal>(
        &mut self,
        rt: &R,
        files: &CallFiles<'_>,
        is_environment_idle: bool,
    ) -> Result<(), AllocError> {
        if !self.manner.tells_lacks {
            return Ok(());
        }
        let alloc = rt.alloc();
        if files.dir != "." {
            self.options.push_str(" --dir")?;
            add_word(&mut self.options, files.dir)?;
        }
        if let Some(index) = files.index {
            self.options.push_str(" --index")?;
            add_word(&mut self.options, index)?;
            self.index.push_str(index)?;
            self.maker = maker_of(rt, files.dir, index)?;
        }
        for target in files.targets.as_slice() {
            self.environments.push_str(" --env")?;
            add_word(&mut self.environments, target.value(alloc)?.as_str())?;
        }
        self.options.push_str(self.environments.as_str())?;
        self.requirements = requirements_path(alloc, files.dir)?;
        if is_environment_idle {
            self.add_idle_environment()?;
        }
        Ok(())
    }

    /// How an index is made for the files of the call.
    pub(crate) fn plan(&self) -> IndexPlan<'_> {
        IndexPlan {
            requirements: self.requirements.as_str(),
            environments: self.environments.as_str(),
            index: self.index.as_str(),
            is_there: false,
            maker: self.maker,
        }
    }

    /// Forgets what was noted; what is noted from here on is of the fault that the call ends with.
    pub(crate) fn begin_fault(&mut self) {
        self.changes.clear();
        self.known.clear();
        self.reasons.clear();
        self.steps.clear();
        self.lacks.clear();
        self.is_of_fault = true;
    }

    /// Writes them behind what was told. Behind a fault what was noted may be half of it, or of a save that failed: then
    /// only what is of the fault is written. A text that can't be written there changes nothing.
    pub fn tell<E: Write>(&self, alloc: Global, has_fault: bool, errors: &mut E) {
        if has_fault && !self.is_of_fault {
            return;
        }
        if let Ok(text) = self.shown(alloc) {
            write_text(text.as_str(), errors);
        } else {
            // without memory for a manner: as it stands
            write_text(self.changes.as_str(), errors);
            write_text(self.known.text.as_str(), errors);
            write_text(self.reasons.as_str(), errors);
            write_text(self.steps.text.as_str(), errors);
        }
    }

    /// All of it, as it looks in the manner of the call.
    fn shown(&self, alloc: Global) -> Result<String, AllocError> {
        let style: Style = self.manner.style;
        let mut text = self.changes.clone()?;
        text.push_str(self.known.shown(alloc, style)?.as_str())?;
        text.push_str(self.reasons.as_str())?;
        text.push_str(self.steps.shown(alloc, style)?.as_str())?;
        let lacks = self.lacks.told(alloc, self.plan())?;
        text.push_str(lacks.shown(alloc, style)?.as_str())?;
        Ok(text)
    }
}

fn write_text<E: Write>(text: &str, errors: &mut E) {
    if !text.is_empty() {
        let _ = errors.write_all(text.as_bytes());
    }
}

/// Where the requirements file stands, as a command names it.
fn requirements_path(alloc: Global, dir: &str) -> Result<String, AllocError> {
    if dir == "." {
        return String::from_str(alloc, "requirements.txt");
    }
    path_of(alloc, dir, &InputFile::Requirements)
}
