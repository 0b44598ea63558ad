// What `why --not` prints: why a lock hasn't a release.

ghost use Rattle.std.specs.Prelude.{◌≡◌, ◌<◌, IfSome, length};
ghost use Rattle.std.specs.List.{position};
ghost use Rattle.edits.specs.Refused.{is_locked_for};
ghost use Rattle.views.specs.WhyNot.{lacks};

use crate::waiting::Telling;
use crate::why::wording_of;
use answers::{Watch, best_keeping, explained_text, kept_longest, refuted_by_sets};
use calls::Call;
use edits::{
    Cause, Edit, Learning, Name, Pool, Problem, Refusal, Resolver, State, Target, problem_after,
    problems_with,
};
use explain::{
    ChangedLine, ChangedLines, WantedRelease, add_difference, add_same, uncounted_release,
};
use files::StillFolder;
use files::saved_history::session_over;
use inputs::HandedFiles;
use lists::Text;
use notes::Lacks;
use pep440::Version;
use phrases::add_target_line;
use reports::show;
use resolve::Answer;
use snapshot::{Release, Snapshot};
use std::alloc::{AllocError, Global};
use std::io::Write;
use stops::Stop;

/// What a question is about: a release, or a name that the index has no release of.
#[derive(Drop)]
pub struct NamedRelease {
    pub name: Name,
    /// None where the index has no release of the name.
    pub version: Option<Version>,
    /// The requirement that takes it.
    pub text: Text,
}

/// Prints why the present lock hasn't the release that the text names, as `NAME==VERSION`, or the newest
/// final one of the index, as `NAME`: of the first target whose lock has the name and not the release. It is always told in
/// sentences, in long ones where these are asked for.
pub(crate) fn print_why_not<
    R: AllocGlobal,
    F: StillFolder,
    G: HandedFiles,
    O: Write,
    W: Watch + Drop,
>(
    call: &mut Call<'_, R, O>,
    folder: &F,
    handed: &G,
    lacks: &mut Lacks,
    text: &str,
    index: &str,
    telling: Telling<W>,
) -> Result<(), Stop> {
    let alloc = call.rt.alloc();
    let (session, snapshot) = session_over(folder, handed, index)?;
    let named = release_in(alloc, text, &snapshot)?;
    let answer = why_not(alloc, lacks, session.state(), &named, &snapshot, telling)?;
    show(&mut call.output, answer.as_str().as_bytes())?;
    Ok(())
}

fn release_in(alloc: Global, text: &str, snapshot: &Snapshot) -> Result<NamedRelease, Stop> {
    let (name, version) = match text.split_once("==") {
        Some((name, version)) => (name_in(alloc, name)?, Some(version_in(alloc, version)?)),
        None => (name_in(alloc, text)?, None),
    };
    let version = match version {
        Some(version) => Some(version),
        None => match newest_of(snapshot.releases(&name)) {
            Some(release) => Some(release.version().clone()?),
            None => None,
        },
    };
    let normal = name.normal();
    let text = match &version {
        Some(version) => format!(in alloc; "{normal}=={version}")?,
        None => String::from_str(alloc, normal)?,
    };
    Ok(NamedRelease {
        name,
        version,
        text: Text::from_string(text),
    })
}

/// The newest release that nothing has to ask for by its version: no pre-release, and not yanked. Where there is none, the
/// newest one.
fn newest_of(releases: &[Release]) -> Option<&Release> {
    for release in releases {
        if !release.version().is_pre() && !release.yanked() {
            return Some(release);
        }
    }
    releases.first()
}

fn name_in(alloc: Global, text: &str) -> Result<Name, Refusal> {
    match Name::parse(alloc, text.trim()) {
        Ok(name) => Ok(name),
        Err(fault) => match fault.cause {
            Cause::OutOfMemory => Err(Refusal::OutOfMemory),
            _ => Err(Refusal::BadText),
        },
    }
}

fn version_in(alloc: Global, text: &str) -> Result<Version, Refusal> {
    match Version::parse(alloc, text) {
        Ok(version) => Ok(version),
        Err(pep440::Fault::OutOfMemory) => Err(Refusal::OutOfMemory),
        Err(_) => Err(Refusal::BadText),
    }
}

/// The answer of the first target whose lock has the name and not the release. A name that is in no lock is
/// refused. What the index lacks for that target is noted.
fn why_not<W: Watch + Drop>(
    alloc: Global,
    lacks: &mut Lacks,
    state: &State,
    named: &NamedRelease,
    snapshot: &Snapshot,
    telling: Telling<W>,
) -> Result<String, Stop> {
    let present = problem_after(alloc, state, &Edit::Relock, &Pool::whole(snapshot))?;
    let problems = problems_with(alloc, state, &named.text, snapshot)?;
    let name = &named.name;
    if !is_locked(state.targets(), name) {
        return Err(Stop::from(Refusal::NotLocked(Text::copy_of(alloc, name.normal())?)));
    }
    let Some(position) = first_lacking(state.targets(), named) else {
        return Ok(same_text(alloc, named)?);
    };
    let target = &state.targets()[position];
    let lacking = Lacking {
        state,
        target,
        named,
        snapshot,
    };
    let (_, before) = &present.as_slice()[position];
    let (_, asked) = &problems.as_slice()[position];
    lacks.add_asked(alloc, &target.name, asked, false)?;
    lacking.why(alloc, before, asked, telling)
}

/// A target whose lock has the name and not the release.
#[derive(Clone, Copy)]
struct Lacking<'a> {
    state: &'a State,
    target: &'a Target,
    named: &'a NamedRelease,
    snapshot: &'a Snapshot,
}

impl Lacking<'_> {
    /// Tells why the release counts for nothing, or which name would have to give, below the target's name. `present` is
    /// the problem of the lines as they are, `asked` the one with a line on the release.
    fn why<W: Watch + Drop>(
        &self,
        alloc: Global,
        present: &Problem<'_>,
        asked: &Problem<'_>,
        telling: Telling<W>,
    ) -> Result<String, Stop> {
        let named = self.named;
        let mut text = String::new(alloc);
        add_target_line(&mut text, self.target.name.as_str())?;
        let Some(version) = &named.version else {
            return self.refuted(alloc, text, asked, telling);
        };
        let name = &named.name;
        let wanted = WantedRelease { name, version };
        let width = telling.width;
        if let Some(release) = uncounted_release(alloc, present, wanted)? {
            release.add_reasons(alloc, &mut text, width, present)?;
            return Ok(text);
        }
        let taken = best_keeping(alloc, self.state, self.target, name, version, self.snapshot)?;
        if let Some(best) = taken {
            add_difference(alloc, &mut text, width, present, wanted, &best)?;
            return Ok(text);
        }
        match Learning.resolve(alloc, asked)? {
            Answer::Solution(best) => {
                let best = kept_longest(alloc, present, asked, name, best)?;
                add_difference(alloc, &mut text, width, present, wanted, &best)?;
                Ok(text)
            }
            Answer::NoSolution => self.refuted(alloc, text, asked, telling),
        }
    }

    /// Why there is no solution with the release.
    fn refuted<W: Watch + Drop>(
        &self,
        alloc: Global,
        text: String,
        asked: &Problem<'_>,
        telling: Telling<W>,
    ) -> Result<String, Stop> {
        let (state, named) = (self.state, self.named);
        let changed = ChangedLines {
            lines: state.lines().lines(),
            changed: ChangedLine::Wanted(&named.text),
        };
        let Telling {
            told,
            width,
            mut watch,
        } = telling;
        let wording = wording_of(changed, told, width);
        match refuted_by_sets(alloc, asked, &mut watch)? {
            Some(explanation) => {
                let text = explained_text(alloc, &self.target.name, asked, &explanation, wording)?;
                Err(Stop::Explained(text))
            }
            None => Ok(text),
        }
    }
}

/// Whether the lock of some target has the name.
pub fn is_locked(targets: &[Target], name: &Name) -> bool
    ensures { result ≡ is_locked_for targets.now name.now }
{
    targets.iter().any(|target| target.locked(name).is_some())
}

/// The position of the first target whose lock has the name and not the release.
pub fn first_lacking(targets: &[Target], named: &NamedRelease) -> Option<usize>
    ensures first { result ≡ position (lacks named.now) targets.now }
    ensures within { IfSome result (λ position. position < length targets.now) }
{
    targets.iter().position(|target| lacks(target, named))
}

/// Whether the lock of a target has the name, and not the release.
fn lacks(target: &Target, named: &NamedRelease) -> bool
    ensures { result ≡ lacks named.now target.now }
{
    target.locks_another(&named.name, &named.version)
}

fn same_text(alloc: Global, named: &NamedRelease) -> Result<String, AllocError> {
    let mut text = String::new(alloc);
    if let Some(version) = &named.version {
        add_same(
            &mut text,
            WantedRelease {
                name: &named.name,
                version,
            },
        )?;
        text.push_str("\n")?;
    }
    Ok(text)
}
