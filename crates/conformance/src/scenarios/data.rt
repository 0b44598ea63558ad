// What the scenarios begin with.

use crate::growing_text::GrowingText;
use crate::targets::unnamed;
use edits::{Environment, ReqFile, Snapshot, State, Targets, init};
use journal::Plain;
use std::alloc::Global;

/// A comment line, lines with CRLF, and a line with parentheses, a marker and a comment.
pub const LINES: &str = "# web\r\nB.b (>=1) ; os_name=='posix' # keep\r\na";

/// An environment: CPython 3.12 on Linux.
pub const ENVIRONMENT: &str =
    r##"{"implementation_name":"cpython","implementation_version":"3.12.3","os_name":"posix",
    "platform_machine":"x86_64","platform_python_implementation":"CPython",
    "platform_release":"6.1.0-13-amd64","platform_system":"Linux",
    "platform_version":"#1 SMP Debian 6.1.55-1","python_full_version":"3.12.3",
    "python_version":"3.12","sys_platform":"linux"}"##;

/// `a` and `c` both need `b-b`: a diamond. `@` stands for the files of a release.
const INDEX: &str = r#"{"snapshot":1,"packages":[
    {"name":"a","releases":[{"version":"1","requires_dist":["b-b"]@},{"version":"2","requires_dist":["b-b<2"]@}]},
    {"name":"b-b","releases":[{"version":"1"@},{"version":"2"@}]},
    {"name":"c","releases":[{"version":"1","requires_dist":["b-b>=2"]@}]},
    {"name":"d","releases":[{"version":"1","requires_python":">=3.8"@}]},
    {"name":"x","releases":[{"version":"1","requires_dist":["d>=2; extra == 'e'"]@},{"version":"zero"@}]}]}"#;

const FILES: &str = r#","files":[{"name":"w.whl","url":"https://files.example/w.whl","size":1000,
    "sha256":"0000000000000000000000000000000000000000000000000000000000000000"}]"#;

/// An index, and a later one that has the same releases in other bytes.
pub struct Indexes {
    pub now: Snapshot,
    pub later: Snapshot,
}

impl Drop for Indexes {
    fn drop(self) {
        let Indexes { now: _, later: _ } = self;
    }
}

/// The text of the index.
pub fn index_text(alloc: Global) -> Option<String> {
    let mut text = GrowingText::new(alloc);
    for part in INDEX.split('@') {
        if !text.is_empty() {
            text.push_str(FILES);
        }
        text.push_str(part);
    }
    text.told()
}

/// Both indexes, read.
pub fn read_indexes(alloc: Global) -> Option<Indexes> {
    let mut text = index_text(alloc)?;
    let now = Snapshot::read(alloc, text.as_bytes()).ok()?;
    text.push_str("\n").ok()?;
    let later = Snapshot::read(alloc, text.as_bytes()).ok()?;
    Some(Indexes { now, later })
}

/// `LINES`, read.
pub fn lines(alloc: Global) -> Option<ReqFile> {
    ReqFile::read(alloc, LINES.as_bytes()).ok()
}

/// `ENVIRONMENT`, read.
pub fn environment(alloc: Global) -> Option<Environment> {
    Environment::read(alloc, ENVIRONMENT.as_bytes()).ok()
}

/// The one target of that environment.
pub fn targets(alloc: Global) -> Option<Targets> {
    unnamed(alloc, environment(alloc)?).ok()
}

/// The state that a history of the lines begins with.
pub fn state(alloc: Global, indexes: &Indexes) -> Option<State> {
    let (lines, targets) = (lines(alloc)?, targets(alloc)?);
    init(alloc, lines, targets, &indexes.now, &Plain).ok()
}
