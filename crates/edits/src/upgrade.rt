// The names that an upgrade drops the versions of.

ghost use Rattle.lists.specs.Answers.{Answers};
ghost use Rattle.std.specs.Prelude.{◌≡◌, ◌⊎◌, not, find, map, IfOk, IfErr, None, Some, Ok, Err, if◌then◌else◌};
ghost use Rattle.std.specs.List.{list_all};
ghost use Rattle.std.specs.Option.{option_copied};
ghost use Rattle.edits.specs.Tied.KeptVersions.{named_in};
ghost use Rattle.edits.specs.Refused.{is_locked_for, refused_by_locks, refused_upgrade};
ghost use Rattle.states.specs.declared.refusal.Refusal.TheVariants.{BadText, OutOfMemory};
ghost use Rattle.markers.specs.Names.{is_name, normal_of};

use crate::lines_on_name::name_in;
use crate::request::Edit;
use lists::{Seq, Text};
use pep508::Name;
use states::{Refusal, Target};
use std::alloc::Global;

/// The names that the texts are.
fn names_in(alloc: Global, texts: &[Text]) -> Result<Seq<Name>, Refusal>
    ensures { Answers OutOfMemory (if list_all is_name texts.now then Ok (map normal_of texts.now)
        else Err BadText) result }
{
    let mut names = Vec::with_capacity(alloc, texts.len())?;
    for text in texts {
        names.push(name_in(alloc, text)?)?;
    }
    Ok(Seq::from_vec(names))
}

/// Whether the name is locked for one of the targets.
fn is_locked(targets: &[Target], name: &Name) -> bool
    ensures { result ≡ is_locked_for targets.now name.now }
{
    targets.iter().any(|target| target.locked(name).is_some())
}

/// The first name that is locked for none of the targets.
fn not_locked<'a>(targets: &[Target], names: &'a [Name]) -> Option<&'a Name>
    ensures { option_copied result ≡ find
        (λ name. not (is_locked_for targets.now name)) names.now }
{
    names.iter().find(|name| !is_locked(targets, name))
}

/// The names that the texts are, each of which is locked for some target.
fn upgraded(alloc: Global, targets: &[Target], texts: &[Text]) -> Result<Seq<Name>, Refusal>
    ensures ok { IfOk result (λ names. (refused_upgrade targets.now texts.now ≡ None)
        × (names ≡ map normal_of texts.now)) }
    ensures err { IfErr result (λ refusal. (refusal ≡ OutOfMemory)
        ⊎ (refused_upgrade targets.now texts.now ≡ Some refusal)) }
{
    let names = names_in(alloc, texts)?;
    if let Some(name) = not_locked(targets, names.as_slice()) {
        return Err(Refusal::NotLocked(Text::copy_of(alloc, name.normal())?));
    }
    Ok(names)
}

/// The names whose versions the edit drops, where it is an upgrade of some.
pub(crate) fn named_in(alloc: Global, targets: &[Target], edit: &Edit) -> Result<Seq<Name>, Refusal>
    ensures ok { IfOk result (λ names. (refused_by_locks targets.now edit.now ≡ None)
        × (names ≡ named_in edit.now)) }
    ensures err { IfErr result (λ refusal. (refusal ≡ OutOfMemory)
        ⊎ (refused_by_locks targets.now edit.now ≡ Some refusal)) }
{
    match edit {
        Edit::Upgrade(texts) => upgraded(alloc, targets, texts.as_slice()),
        Edit::Add(_)
        | Edit::Remove(_)
        | Edit::Constrain(_, _)
        | Edit::UpgradeAll
        | Edit::Relock
        | Edit::Replace(_, _)
        | Edit::Retarget(_, _) => Ok(Seq::new(alloc)),
    }
}
