// The subcommands with their arguments.

use crate::descriptions::ArgWords::{
    Flag, Lettered, Needed, Ranged, Repeated, Several, Text, Texts, Valued,
};
use crate::descriptions::{ArgWords, SubcommandWords};
use crate::subcommand_help::{
    ADD, BATCH, CHECK, CONSTRAIN, DIFF, EXPORT, FORGET, INIT, LOG, OUTDATED, REDO, RELOCK, REMOVE,
    REPLACE, RETARGET, SHOW, SKIPPED, TRY, UNDO, UPGRADE, WHY,
};

// Of an edit, or of its question.
const KEEP_LOCKED: ArgWords<'static> = Flag(
    "keep-locked",
    "Move no locked version that is still needed, but for names to upgrade",
);

// Of an edit.
const IF_NEEDED: ArgWords<'static> = Flag(
    "if-needed",
    "Answer same, and save nothing, where only the index would change",
);

// Of a first lock, an edit, a step or a shorter history.
const DRY_RUN: ArgWords<'static> = Flag("dry-run", "Save nothing; print what would change");

// Of what is printed.
const JSON: ArgWords<'static> = Flag("json", "Print JSON");

const NAME: ArgWords<'static> = Needed("name", "NAME", "The name of the line");

// Of new lines.
const WAS: ArgWords<'static> = Valued(
    "was",
    "OLD",
    "Take the lines of the file in the folder; OLD is what it was",
);

const LINE: ArgWords<'static> = Ranged(
    "line",
    &["NAME", "TEXT"],
    2,
    3,
    "Put the text in the place of the line of the name",
);

const PINS: ArgWords<'static> = Repeated(
    "pins",
    "FILE",
    "Keep the versions of this lock, or of these lines; or NAME=FILE",
);

/// The flags that may stand in front of a subcommand.
pub(crate) const FLAGS: [ArgWords<'static>; 3] = [KEEP_LOCKED, DRY_RUN, JSON];

/// How much is told, and in which colors. Each subcommand takes them.
pub(crate) const TELLING: [ArgWords<'static>; 3] = [
    Lettered(
        'v',
        "verbose",
        "Tell what changed, or what is known of a refusal",
    ),
    Lettered('q', "quiet", "Tell nothing beside the answer"),
    Valued(
        "color",
        "WHEN",
        "Use colors: auto, always or never [default: auto]",
    ),
];

/// All subcommands, in the order of the program's help.
pub(crate) const SUBCOMMANDS: [SubcommandWords<'static>; 21] = [
    SubcommandWords {
        name: "init",
        help: INIT,
        args: &[PINS, DRY_RUN],
    },
    SubcommandWords {
        name: "add",
        help: ADD,
        args: &[
            Needed("text", "TEXT", "The line, such as 'flask>=2  # the server'"),
            KEEP_LOCKED,
            IF_NEEDED,
            DRY_RUN,
        ],
    },
    SubcommandWords {
        name: "remove",
        help: REMOVE,
        args: &[NAME, KEEP_LOCKED, IF_NEEDED, DRY_RUN],
    },
    SubcommandWords {
        name: "constrain",
        help: CONSTRAIN,
        args: &[
            NAME,
            Text(
                "specifiers",
                "SPEC",
                "The specifiers, such as '>=2,<3'; without them any version will do",
            ),
            KEEP_LOCKED,
            IF_NEEDED,
            DRY_RUN,
        ],
    },
    SubcommandWords {
        name: "upgrade",
        help: UPGRADE,
        args: &[
            Texts(
                "names",
                "NAME",
                "Names in the lock; without any, all of them",
            ),
            KEEP_LOCKED,
            IF_NEEDED,
            DRY_RUN,
        ],
    },
    SubcommandWords {
        name: "relock",
        help: RELOCK,
        args: &[KEEP_LOCKED, IF_NEEDED, DRY_RUN],
    },
    SubcommandWords {
        name: "replace",
        help: REPLACE,
        args: &[
            Text(
                "new",
                "NEW",
                "The file with the new lines; - is standard input",
            ),
            WAS,
            LINE,
            PINS,
            KEEP_LOCKED,
            IF_NEEDED,
            DRY_RUN,
        ],
    },
    SubcommandWords {
        name: "retarget",
        help: RETARGET,
        args: &[PINS, KEEP_LOCKED, IF_NEEDED, DRY_RUN],
    },
    SubcommandWords {
        name: "undo",
        help: UNDO,
        args: &[DRY_RUN],
    },
    SubcommandWords {
        name: "redo",
        help: REDO,
        args: &[DRY_RUN],
    },
    SubcommandWords {
        name: "forget",
        help: FORGET,
        args: &[
            Valued("before", "N", "Begin the history at this place"),
            Valued(
                "keep",
                "N",
                "Begin it so many states before the present one",
            ),
            DRY_RUN,
        ],
    },
    SubcommandWords {
        name: "batch",
        help: BATCH,
        args: &[
            Flag(
                "all-or-none",
                "Save nothing where a command is refused, and end with its status",
            ),
            KEEP_LOCKED,
        ],
    },
    SubcommandWords {
        name: "try",
        help: TRY,
        args: &[],
    },
    SubcommandWords {
        name: "show",
        help: SHOW,
        args: &[
            Text(
                "name",
                "NAME",
                "Print the entry of this name, with its files",
            ),
            Flag(
                "tree",
                "Print the entries below the lines that ask for them",
            ),
            JSON,
        ],
    },
    SubcommandWords {
        name: "log",
        help: LOG,
        args: &[
            Flag(
                "long",
                "Print each entry that a step changed on a line of its own",
            ),
            JSON,
        ],
    },
    SubcommandWords {
        name: "diff",
        help: DIFF,
        args: &[
            Text(
                "from",
                "FROM",
                "The first place; without it, the one before the present",
            ),
            Text("to", "TO", "The second place; without it, the present one"),
            JSON,
        ],
    },
    SubcommandWords {
        name: "check",
        help: CHECK,
        args: &[
            Flag(
                "current",
                "Tell whether a relock over the index would change an entry",
            ),
            JSON,
        ],
    },
    SubcommandWords {
        name: "outdated",
        help: OUTDATED,
        args: &[JSON],
    },
    SubcommandWords {
        name: "export",
        help: EXPORT,
        args: &[
            Valued(
                "format",
                "FORMAT",
                "hashes, dot or pylock [default: hashes]",
            ),
            Valued("target", "NAME", "The target whose lock it is"),
            Ranged(
                "covers",
                &["FILE"],
                1,
                usize::MAX,
                "With --format pylock, tell which targets hold in these environments",
            ),
        ],
    },
    SubcommandWords {
        name: "skipped",
        help: SKIPPED,
        args: &[],
    },
    SubcommandWords {
        name: "why",
        help: WHY,
        args: &[
            Flag("explain", "Tell it in sentences"),
            Flag("long", "With --explain, leave nothing out"),
            KEEP_LOCKED,
            Text(
                "text",
                "TEXT",
                "The line; without it, the file as it stands",
            ),
            Flag("init", "Ask about a first lock, for the environments given"),
            Ranged(
                "constrain",
                &["NAME", "SPEC"],
                1,
                3,
                "Ask about other specifiers in the line of a name",
            ),
            Several(
                "upgrade",
                "NAME",
                "Ask about an upgrade of these names; without any, of all",
            ),
            Valued(
                "remove",
                "NAME",
                "Ask about the removal of the line of a name",
            ),
            Valued(
                "not",
                "NAME[==VERSION]",
                "Ask why the lock lacks this version; without one, the newest",
            ),
            Ranged(
                "replace",
                &["NEW"],
                0,
                2,
                "Ask about other lines, those of NEW",
            ),
            Flag(
                "retarget",
                "Ask about the environments given in the place of the present ones",
            ),
            WAS,
            LINE,
            PINS,
        ],
    },
];
