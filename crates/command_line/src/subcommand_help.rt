// What the help of each subcommand says.

/// What the help of a subcommand says, and which options it shows: those that the subcommand needs.
#[derive(Clone, Copy)]
pub(crate) struct Help<'a> {
    pub about: &'a str,
    /// A command line, with the word that says so in front.
    pub example: &'a str,
    /// The usage line where it is to show a needed option, which clap doesn't as the option may stand in front.
    pub usage: Option<&'a str>,
    pub shows_dir: bool,
    pub shows_index: bool,
    pub shows_environment: bool,
}

impl Help<'_> {
    /// That of the program itself, which takes each option.
    pub const ALL: Help<'static> = Help {
        about: "A locker for Python requirements files, with undo and redo",
        example: "",
        usage: None,
        shows_dir: true,
        shows_index: true,
        shows_environment: true,
    };
}

/// Of `init`.
pub(crate) const INIT: Help<'static> = Help {
    about: "Lock the file and begin a new history",
    example: "Example: reqlock init --index index.json --env environment.json",
    usage: Some("reqlock init [OPTIONS] --env <FILE>"),
    shows_dir: true,
    shows_index: true,
    shows_environment: true,
};

/// Of `add`.
pub(crate) const ADD: Help<'static> = Help {
    about: "Put a line behind the others",
    example: "Example: reqlock add 'flask>=2' --index index.json",
    usage: None,
    shows_dir: true,
    shows_index: true,
    shows_environment: false,
};

/// Of `remove`.
pub(crate) const REMOVE: Help<'static> = Help {
    about: "Take the line of a name out",
    example: "Example: reqlock remove flask --index index.json",
    usage: None,
    shows_dir: true,
    shows_index: true,
    shows_environment: false,
};

/// Of `constrain`.
pub(crate) const CONSTRAIN: Help<'static> = Help {
    about: "Put other specifiers in the line of a name",
    example: "Example: reqlock constrain flask '>=2,<3' --index index.json",
    usage: None,
    shows_dir: true,
    shows_index: true,
    shows_environment: false,
};

/// Of `upgrade`.
pub(crate) const UPGRADE: Help<'static> = Help {
    about: "Lock again without the locked versions of these names",
    example: "Example: reqlock upgrade flask --index index.json",
    usage: None,
    shows_dir: true,
    shows_index: true,
    shows_environment: false,
};

/// Of `relock`.
pub(crate) const RELOCK: Help<'static> = Help {
    about: "Lock again over the index at hand; versions stay where they can",
    example: "Example: reqlock relock --index index.json",
    usage: None,
    shows_dir: true,
    shows_index: true,
    shows_environment: false,
};

/// Of `replace`.
pub(crate) const REPLACE: Help<'static> = Help {
    about: "Put other lines in the place of those of the file; versions stay where they can",
    example: "Example: reqlock replace new.txt --index index.json",
    usage: None,
    shows_dir: true,
    shows_index: true,
    shows_environment: false,
};

/// Of `retarget`.
pub(crate) const RETARGET: Help<'static> = Help {
    about: "Lock for other environments in the place of the present ones; versions stay where they can",
    example: "Example: reqlock retarget --index index.json --env environment.json",
    usage: Some("reqlock retarget [OPTIONS] --env <FILE>"),
    shows_dir: true,
    shows_index: true,
    shows_environment: true,
};

/// Of `undo`.
pub(crate) const UNDO: Help<'static> = Help {
    about: "Go back to the state before the last edit",
    example: "Example: reqlock undo",
    usage: None,
    shows_dir: true,
    shows_index: false,
    shows_environment: false,
};

/// Of `redo`.
pub(crate) const REDO: Help<'static> = Help {
    about: "Go on to the state that an undo left",
    example: "Example: reqlock redo",
    usage: None,
    shows_dir: true,
    shows_index: false,
    shows_environment: false,
};

/// Of `forget`.
pub(crate) const FORGET: Help<'static> = Help {
    about: "Take the first steps out of the history; the present state stays",
    example: "Example: reqlock forget --keep 50",
    usage: None,
    shows_dir: true,
    shows_index: false,
    shows_environment: false,
};

/// Of `batch`.
pub(crate) const BATCH: Help<'static> = Help {
    about: "Do the commands of standard input, and save at its end",
    example: "Example: reqlock batch --index index.json <commands.txt",
    usage: None,
    shows_dir: true,
    shows_index: true,
    shows_environment: false,
};

/// Of `try`.
pub(crate) const TRY: Help<'static> = Help {
    about: "Do the commands of standard input on a new history; save nothing",
    example: "Example: reqlock try --index index.json --env environment.json <commands.txt",
    usage: Some("reqlock try [OPTIONS] --env <FILE>"),
    shows_dir: true,
    shows_index: true,
    shows_environment: true,
};

/// Of `show`.
pub(crate) const SHOW: Help<'static> = Help {
    about: "Print the lock as a table, with what asks for each entry",
    example: "Example: reqlock show --tree",
    usage: None,
    shows_dir: true,
    shows_index: true,
    shows_environment: false,
};

/// Of `log`.
pub(crate) const LOG: Help<'static> = Help {
    about: "Print the history, a line for each edit",
    example: "Example: reqlock log --long",
    usage: None,
    shows_dir: true,
    shows_index: false,
    shows_environment: false,
};

/// Of `diff`.
pub(crate) const DIFF: Help<'static> = Help {
    about: "Print what changed between two places of the history",
    example: "Example: reqlock diff 3 5",
    usage: None,
    shows_dir: true,
    shows_index: false,
    shows_environment: false,
};

/// Of `outdated`.
pub(crate) const OUTDATED: Help<'static> = Help {
    about: "Print which locked releases have newer ones, and who holds them back",
    example: "Example: reqlock outdated --index index.json",
    usage: None,
    shows_dir: true,
    shows_index: true,
    shows_environment: false,
};

/// Of `check`.
pub(crate) const CHECK: Help<'static> = Help {
    about: "Tell whether requirements, locks and journal belong together; change nothing",
    example: "Example: reqlock check --current --index index.json",
    usage: None,
    shows_dir: true,
    shows_index: true,
    shows_environment: false,
};

/// Of `export`.
pub(crate) const EXPORT: Help<'static> = Help {
    about: "Print the lock in the form of another tool",
    example: "Example: reqlock export --format dot",
    usage: None,
    shows_dir: true,
    shows_index: true,
    shows_environment: false,
};

/// Of `skipped`.
pub(crate) const SKIPPED: Help<'static> = Help {
    about: "Print which releases of the index are left out, and why",
    example: "Example: reqlock skipped --index index.json",
    usage: None,
    shows_dir: false,
    shows_index: true,
    shows_environment: false,
};

/// Of `why`.
pub(crate) const WHY: Help<'static> = Help {
    about: "Print a proof that nothing can be locked with this line, where that is so",
    example: "Example: reqlock why --explain 'flask<2' --index index.json",
    usage: None,
    shows_dir: true,
    shows_index: true,
    shows_environment: true,
};
