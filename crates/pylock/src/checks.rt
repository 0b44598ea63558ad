// Whether the parts of an entry are lawful.

ghost use Rattle.std.specs.Prelude.{◌≡◌, ◌==◌, ◌||◌, IfOk, MatchOption, false, is_some, length, not, true};
ghost use Rattle.std.specs.List.{list_all};
ghost use Rattle.std.specs.Option.{option_map_or};
ghost use Rattle.distributions.specs.Files.{is_lawful_sdist, is_lawful_wheel};
ghost use Rattle.pylock.specs.Packages.{are_dependencies, are_wheels, is_other, is_python};
ghost use Rattle.pylock.specs.Python.{IsPython, python_text};

use distributions::DistributionFile;
use lists::{Text, rises};
use pep440::{Fault, RequiresPython};
use pep508::Name;
use std::alloc::{AllocError, Global};

/// What a text asks of Python, where there is a text; `None` where it is blank or no set of specifiers.
pub(crate) fn read_python(
    alloc: Global,
    text: Option<Text>,
) -> Result<Option<Option<RequiresPython>>, AllocError>
    ensures { IfOk result (λ read. MatchOption read (option_map_or is_python text true ≡ false)
        (λ python. python_text python ≡ text)) }
{
    let Some(text) = text else {
        return Ok(Some(None));
    };
    match RequiresPython::parse(alloc, text) {
        Ok(Some(python)) => Ok(Some(Some(python))),
        Ok(None) => Ok(None),
        Err(Fault::OutOfMemory) => Err(AllocError),
        Err(_) => Ok(None),
    }
}

/// What holds of what is asked of Python. It has no refusal.
pub(crate) fn recall_python(python: &Option<RequiresPython>)
    ensures { IsPython python.now }
{
    if let Some(python) = python {
        python.recall_invariant();
    }
}

/// Whether the name is that of another package.
fn is_other(own: &Name, name: &Name) -> bool
    ensures { result ≡ is_other own.now name.now }
{
    name.recall_invariant();
    name.normal() != own.normal()
}

/// Whether each name is that of another package.
fn are_others(own: &Name, names: &[Name]) -> bool
    ensures { result ≡ list_all (is_other own.now) names.now }
{
    names.iter().all(|name| is_other(own, name))
}

/// Whether the names are the dependencies of a package.
pub(crate) fn are_dependencies(own: &Name, names: &[Name]) -> bool
    ensures { result ≡ are_dependencies own.now names.now }
{
    rises(names) && are_others(own, names)
}

/// Whether the file, where there is one, is a source distribution.
pub(crate) fn may_be_sdist(file: &Option<DistributionFile>) -> bool
    ensures { result ≡ option_map_or is_lawful_sdist file.now true }
{
    match file {
        Some(file) => file.is_lawful_sdist(),
        None => true,
    }
}

/// Whether each file is a wheel.
fn all_wheels(files: &[DistributionFile]) -> bool
    ensures { result ≡ list_all is_lawful_wheel files.now }
{
    files.iter().all(|file| file.is_lawful_wheel())
}

/// Whether the files are the wheels of a package.
pub(crate) fn are_wheels(files: &[DistributionFile]) -> bool
    ensures { result ≡ are_wheels files.now }
{
    rises(files) && all_wheels(files)
}

/// Whether there is a file at least.
pub(crate) fn has_file(sdist: &Option<DistributionFile>, wheels: &[DistributionFile]) -> bool
    ensures { result ≡ (is_some sdist.now || not (length wheels.now == 0)) }
{
    sdist.is_some() || !wheels.is_empty()
}
