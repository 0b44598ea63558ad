// What is told of words that are no request: what to type in their place.

use crate::details::Details;
use command_line::takes_dry_run;
use notes::with_commas;
use phrases::add_word;
use std::alloc::{AllocError, Global};

/// For how many texts a call is told.
const MOST: usize = 20;

/// The words of a call behind the program's name.
#[derive(Drop)]
struct CutWords<'a> {
    /// The options that a call with other words may keep.
    options: String,
    /// Of these the one that names the folder.
    folder: String,
    subcommand: &'a str,
    texts: Vec<&'a str>,
    /// Flags that other programs have.
    has_all: bool,
    has_fix: bool,
    has_json: bool,
}

/// What does the work of a subcommand of another program.
#[derive(Clone, Copy)]
struct OtherCall {
    told: &'static str,
    words: &'static str,
}

const RELOCK: &str = "relock";

impl Details {
    /// Notes what is meant by words that are no request, where that is known.
    pub fn add_misused(&mut self, alloc: Global, words: &[String]) -> Result<(), AllocError> {
        if !self.manner.tells {
            return Ok(());
        }
        let cut = cut(alloc, words)?;
        if let Some(call) = other_call(cut.subcommand) {
            return self.add_other_call(&cut, call);
        }
        match cut.subcommand {
            subcommand if is_installing(subcommand) => self.add_installing(&cut),
            subcommand if is_of_environments(subcommand) => self.add_environments(&cut),
            "add" | "remove" if cut.texts.len() > 1 => self.add_calls(alloc, &cut),
            "undo" | "redo" if !cut.texts.is_empty() => self.add_one_step(&cut),
            "upgrade" if cut.has_all => self.add_whole_upgrade(&cut),
            "check" if cut.has_fix => self.add_checking(&cut),
            "export" => self.add_form(&cut, words),
            subcommand if cut.has_json && takes_dry_run(subcommand) => self.add_json(&cut),
            _ => Ok(()),
        }
    }

    /// Whether the words are those of another program's subcommand, of which the names that are near to it would lead astray.
    pub fn is_led_astray(&self, alloc: Global, words: &[String]) -> Result<bool, AllocError> {
        if !self.manner.tells {
            return Ok(false);
        }
        let subcommand = cut(alloc, words)?.subcommand;
        Ok(
            is_installing(subcommand)
                || is_of_environments(subcommand)
                || other_call(subcommand).is_some(),
        )
    }

    fn add_other_call(&mut self, cut: &CutWords<'_>, call: OtherCall) -> Result<(), AllocError> {
        let OtherCall { told, words } = call;
        let options = if words == RELOCK {
            cut.options.as_str()
        } else {
            cut.folder.as_str()
        };
        write!(self.known, "{told}\n")?;
        self.known.begin_command()?;
        write!(self.known, "reqlock{options} {words}\n")
    }

    fn add_environments(&mut self, cut: &CutWords<'_>) -> Result<(), AllocError> {
        let options = cut.options.as_str();
        self.known.push_str(
            "An environment is a file. This makes one, and retarget locks for it in the place of the present ones:\n",
        )?;
        self.known.begin_command()?;
        self.known.push_str(
            "reqlock-environment --python 3.12 --platform linux-x86_64 >environment.json\n",
        )?;
        self.known.begin_command()?;
        write!(
            self.known,
            "reqlock{options} retarget --env environment.json\n"
        )
    }

    fn add_installing(&mut self, cut: &CutWords<'_>) -> Result<(), AllocError> {
        let folder = cut.folder.as_str();
        self.known.push_str(
            "reqlock installs nothing: `rql sync` does, in a project that `rql init` began. Else pip installs what is locked:\n",
        )?;
        self.known.begin_command()?;
        write!(self.known, "reqlock{folder} export >locked.txt\n")?;
        self.known.begin_command()?;
        self.known.push_str(
            "python3 -m pip install --require-hashes --no-deps --requirement locked.txt\n",
        )
    }

    fn add_calls(&mut self, alloc: Global, cut: &CutWords<'_>) -> Result<(), AllocError> {
        let (subcommand, options) = (cut.subcommand, cut.options.as_str());
        if let Some(line) = whole_line(alloc, cut)? {
            self.known
                .push_str("add takes one line, which is one word in quotes:\n")?;
            self.known.begin_command()?;
            write!(self.known, "reqlock{options} add")?;
            add_word(&mut self.known.text, line.as_str())?;
            return self.known.push_str("\n");
        }
        let noun = if subcommand == "add" { "line" } else { "name" };
        write!(
            self.known,
            "{subcommand} takes one {noun}. Each has a call of its own:\n"
        )?;
        for text in cut.texts.as_slice().iter().take(MOST) {
            self.known.begin_command()?;
            write!(self.known, "reqlock{options} {subcommand}")?;
            add_word(&mut self.known.text, text)?;
            self.known.push_str("\n")?;
        }
        Ok(())
    }

    fn add_one_step(&mut self, cut: &CutWords<'_>) -> Result<(), AllocError> {
        let (subcommand, options) = (cut.subcommand, cut.options.as_str());
        let folder = cut.folder.as_str();
        write!(
            self.known,
            "{subcommand} is for one step: call it once for each. The steps are told by log:\n"
        )?;
        self.known.begin_command()?;
        write!(self.known, "reqlock{folder} log\n")?;
        self.known.begin_command()?;
        write!(self.known, "reqlock{options} {subcommand}\n")
    }

    fn add_whole_upgrade(&mut self, cut: &CutWords<'_>) -> Result<(), AllocError> {
        let options = cut.options.as_str();
        self.known
            .push_str("Without names upgrade is for all that is locked:\n")?;
        self.known.begin_command()?;
        write!(self.known, "reqlock{options} upgrade\n")
    }

    fn add_checking(&mut self, cut: &CutWords<'_>) -> Result<(), AllocError> {
        let folder = cut.folder.as_str();
        self.known.push_str(
            "check changes nothing. What is wrong, and what mends it, is told by:\n",
        )?;
        self.known.begin_command()?;
        write!(self.known, "reqlock{folder} check -v\n")
    }

    /// A form of an export that other programs name otherwise.
    fn add_form(&mut self, cut: &CutWords<'_>, words: &[String]) -> Result<(), AllocError> {
        let folder = cut.folder.as_str();
        if !words.iter().any(|word| is_requirements_form(word.as_str())) {
            return Ok(());
        }
        self.known.push_str("Lines of a requirements file, with hashes, are the form hashes:\n")?;
        self.known.begin_command()?;
        write!(self.known, "reqlock{folder} export --format hashes\n")
    }

    fn add_json(&mut self, cut: &CutWords<'_>) -> Result<(), AllocError> {
        let folder = cut.folder.as_str();
        self.known.push_str(
            "show, log, diff, check and outdated print JSON. What the last step changed, once it is saved, is told by:\n",
        )?;
        self.known.begin_command()?;
        write!(self.known, "reqlock{folder} diff --json\n")
    }
}

/// The line of an `add` that its texts are parts of, where one of them begins with a comparison.
fn whole_line(alloc: Global, cut: &CutWords<'_>) -> Result<Option<String>, AllocError> {
    let mut line = String::new(alloc);
    let mut has_part = false;
    for text in cut.texts.as_slice() {
        has_part = has_part || text.starts_with(is_sign);
        if !line.is_empty() {
            line.push_str(" ")?;
        }
        line.push_str(text)?;
    }
    if !has_part || cut.subcommand != "add" {
        return Ok(None);
    }
    match with_commas(alloc, line.as_str())? {
        Some(line) => Ok(Some(line)),
        None => Ok(Some(line)),
    }
}

fn is_sign(letter: char) -> bool {
    matches!(letter, '=' | '<' | '>' | '!' | '~')
}

fn is_installing(subcommand: &str) -> bool {
    matches!(subcommand, "install" | "sync")
}

fn is_of_environments(subcommand: &str) -> bool {
    matches!(subcommand, "env" | "environment" | "python" | "venv")
}

fn other_call(subcommand: &str) -> Option<OtherCall> {
    match subcommand {
        "lock" | "compile" => Some(OtherCall {
            told: "relock makes the lock again, and init makes the first one:",
            words: RELOCK,
        }),
        "tree" => Some(OtherCall {
            told: "show prints the lock as a tree:",
            words: "show --tree",
        }),
        "list" | "freeze" => Some(OtherCall {
            told: "show prints what is locked:",
            words: "show",
        }),
        _ => None,
    }
}

fn is_requirements_form(word: &str) -> bool {
    let value = word.strip_prefix("--format=").unwrap_or(word);
    matches!(
        value,
        "requirements" | "requirements.txt" | "requirements-txt" | "txt" | "pip"
    )
}

/// Takes words apart: an option that has a value takes the next word for it.
fn cut<'a>(alloc: Global, words: &'a [String]) -> Result<CutWords<'a>, AllocError> {
    let mut cut = CutWords {
        options: String::new(alloc),
        folder: String::new(alloc),
        subcommand: "",
        texts: Vec::new(alloc),
        has_all: false,
        has_fix: false,
        has_json: false,
    };
    let mut is_value = false;
    let mut has_subcommand = false;
    for (at, word) in words.iter().enumerate().skip(1) {
        let word = word.as_str();
        if is_value {
            if let Some(option) = words.get(at.saturating_sub(1)) {
                cut.add_option(option.as_str(), word)?;
            }
            is_value = false;
        } else if has_value(word) {
            is_value = true;
        } else if word.len() > 1 && word.starts_with('-') {
            cut.add_flag(word)?;
        } else if !has_subcommand {
            cut.subcommand = word;
            has_subcommand = true;
        } else {
            cut.texts.push(word)?;
        }
    }
    Ok(cut)
}

/// Whether the next word is the value of this one.
fn has_value(word: &str) -> bool {
    matches!(
        word,
        "--dir" | "--index" | "--env" | "--color" | "--pins" | "--format" | "--target"
    )
}

impl CutWords<'_> {
    /// An option with its value. What all subcommands take is kept.
    fn add_option(&mut self, option: &str, value: &str) -> Result<(), AllocError> {
        if !matches!(option, "--dir" | "--index") {
            return Ok(());
        }
        add_word(&mut self.options, option)?;
        add_word(&mut self.options, value)?;
        if option == "--dir" {
            add_word(&mut self.folder, option)?;
            add_word(&mut self.folder, value)?;
        }
        Ok(())
    }

    /// An option of one word.
    fn add_flag(&mut self, word: &str) -> Result<(), AllocError> {
        match word {
            "--all" => self.has_all = true,
            "--fix" => self.has_fix = true,
            "--json" => self.has_json = true,
            "--dry-run" | "--keep-locked" => add_word(&mut self.options, word)?,
            _ => {
                if let Some((option, value)) = word.split_once('=') {
                    self.add_option(option, value)?;
                }
            }
        }
        Ok(())
    }
}
