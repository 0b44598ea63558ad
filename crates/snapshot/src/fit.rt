// Which files may stand in a lock: an installer saves a file by its name, and people read its URL.

ghost use Rattle.std.specs.Prelude.{◌≡◌};
ghost use Rattle.std.specs.Char.{is_ascii_graphic};
ghost use Rattle.std.specs.List.{list_all};
ghost use Rattle.snapshot.specs.Files.{each_file, has_file, has_file_name, has_url, is_name_byte};
ghost use Rattle.snapshot.specs.Releases.{fault_of_files};

use crate::chosen::Chosen;
use crate::skipped::SkipCause;
use distributions::DistributionFile;

/// Whether there is a file to install from.
fn has_file(files: &Chosen) -> bool
    ensures { result ≡ has_file files.now.sdist files.now.wheels }
{
    files.sdist.is_some() || !files.wheels.is_empty()
}

/// Whether a byte may stand in a file's name: visible ASCII, and nothing that parts a path.
fn is_name_byte(byte: u8) -> bool
    ensures { result ≡ is_name_byte byte }
{
    byte.is_ascii_graphic() && !(byte == b'/' || byte == b'\\' || byte == b':')
}

/// Whether a file's name is no path.
fn has_file_name(file: &DistributionFile) -> bool
    ensures { result ≡ has_file_name file.now }
{
    file.name
        .as_str()
        .as_bytes()
        .iter()
        .all(|byte| is_name_byte(*byte))
}

/// Whether a file's URL is visible ASCII.
fn has_url(file: &DistributionFile) -> bool
    ensures { result ≡ has_url file.now }
{
    file.url
        .as_str()
        .as_bytes()
        .iter()
        .all(|byte| byte.is_ascii_graphic())
}

/// Whether the names of all files are no paths.
fn have_file_names(files: &[DistributionFile]) -> bool
    ensures { result ≡ list_all has_file_name files.now }
{
    files.iter().all(has_file_name)
}

/// Whether the URLs of all files are visible ASCII.
fn have_urls(files: &[DistributionFile]) -> bool
    ensures { result ≡ list_all has_url files.now }
{
    files.iter().all(has_url)
}

/// Whether the name of each file to install from is no path.
fn are_named(files: &Chosen) -> bool
    ensures { result ≡ each_file has_file_name files.now.sdist files.now.wheels }
{
    match &files.sdist {
        Some(sdist) => has_file_name(sdist) && have_file_names(files.wheels.as_slice()),
        None => have_file_names(files.wheels.as_slice()),
    }
}

/// Whether the URL of each file to install from is visible ASCII.
fn have_urls_to_install(files: &Chosen) -> bool
    ensures { result ≡ each_file has_url files.now.sdist files.now.wheels }
{
    match &files.sdist {
        Some(sdist) => has_url(sdist) && have_urls(files.wheels.as_slice()),
        None => have_urls(files.wheels.as_slice()),
    }
}

/// Why a release with these files can't be used.
pub(crate) fn fault_of_files(files: &Chosen) -> Option<SkipCause>
    ensures { result ≡ fault_of_files files.now.sdist files.now.wheels }
{
    if !has_file(files) {
        Some(SkipCause::NoFile)
    } else if !are_named(files) {
        Some(SkipCause::FileName)
    } else if !have_urls_to_install(files) {
        Some(SkipCause::FileUrl)
    } else {
        None
    }
}
