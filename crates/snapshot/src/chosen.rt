// Which files of a release are wheels, and which is its source distribution.

ghost use Rattle.std.specs.Prelude.{◌≡◌, [], refl, IfOk, IsOkUnless, Ok, OnOk, fold};
ghost use Rattle.std.specs.BTreeSet.{insert_key};
ghost use Rattle.std.specs.Cmp.{eq_by_cmp_equiv, partial_equiv_from_equiv, partial_order_from_total};
ghost use Rattle.std.specs.Ordering.{as_partial_cmp, eq_by_cmp};
ghost use Rattle.snapshot.specs.Tied.Chosen.{no_files, sorted_with};
ghost use Rattle.snapshot.specs.Files.{name_cmp, sdist_of, wheels_of};
ghost use Rattle.snapshot.specs.declared.fault.Fault.TheVariants.{OutOfMemory};

use crate::fault::Fault;
use distributions::{DistributionFile, Form};
use lists::{Seq, rises};
use std::alloc::{AllocError, Global};
use std::cmp::Ordering;
use std::collections::BTreeSet;
use std::marker::Model;

/// The wheels of a release by name, and its source distribution.
#[derive(Drop)]
pub(crate) struct Chosen {
    pub(crate) sdist: Option<DistributionFile>,
    pub(crate) wheels: Seq<DistributionFile>,
}

/// The files of a release that were gone through: the wheels as they are listed, and the first of each
/// form of a source distribution.
#[derive(Drop)]
pub(crate) struct Sorted {
    pub(crate) wheels: Seq<DistributionFile>,
    pub(crate) tar_gz: Option<DistributionFile>,
    pub(crate) zip: Option<DistributionFile>,
}

/// Puts one more file to those before it.
fn add(sorted: &mut Sorted, file: DistributionFile) -> Result<(), Fault>
    ensures kept { OnOk result (sorted.new ≡ sorted_with sorted.old file) }
    ensures memory { IsOkUnless result OutOfMemory }
{
    match file.form() {
        Form::Wheel => {
            sorted.wheels.push(file)?;
        }
        Form::TarGz => {
            if sorted.tar_gz.is_none() {
                sorted.tar_gz = Some(file);
            }
        }
        Form::Zip => {
            if sorted.zip.is_none() {
                sorted.zip = Some(file);
            }
        }
        Form::Other => {}
    }
    Ok(())
}

/// The files, gone through one after the other.
fn sort_files(alloc: Global, files: Vec<DistributionFile>) -> Result<Sorted, Fault>
    ensures all { IfOk result (λ sorted. sorted ≡ fold sorted_with no_files files.items) }
    ensures memory { IsOkUnless result OutOfMemory }
{
    let mut sorted = Sorted {
        wheels: Seq::from_vec(Vec::with_capacity(alloc, files.len())?),
        tar_gz: None,
        zip: None,
    };
    for file in files {
        add(&mut sorted, file)?;
    }
    Ok(sorted)
}

/// The order of two files by name.
fn cmp_names(file: &DistributionFile, other: &DistributionFile) -> Ordering
    ensures { result ≡ name_cmp file.now other.now }
{
    file.name
        .as_str()
        .as_bytes()
        .cmp(other.name.as_str().as_bytes())
}

/// The files put into a set by name, which keeps the first of each.
fn set_by_name(alloc: Global, files: Vec<DistributionFile>) -> Result<BTreeSet<ByName>, AllocError>
    ensures { IfOk result (λ set. set.keys ≡ fold (insert_key name_cmp) [] files.items) }
{
    let mut set = BTreeSet::new(alloc);
    for file in files {
        set.insert(ByName::new(file))?;
    }
    Ok(set)
}

/// The files of a set in their order.
fn in_order(alloc: Global, set: BTreeSet<ByName>) -> Result<Seq<DistributionFile>, AllocError>
    ensures { IfOk result (λ files. files ≡ set.keys) }
{
    let mut files = Vec::with_capacity(alloc, set.len())?;
    for file in set {
        files.push(file.into_file())?;
    }
    Ok(Seq::from_vec(files))
}

/// The files by name, the first of each name. Where they are listed so already, no set is made.
fn by_name(alloc: Global, files: Seq<DistributionFile>) -> Result<Seq<DistributionFile>, AllocError>
    ensures { IfOk result (λ sorted. sorted ≡ fold (insert_key name_cmp) [] files) }
{
    if rises(files.as_slice()) {
        return Ok(files);
    }
    in_order(alloc, set_by_name(alloc, files.into_vec())?)
}

/// The wheels and the source distribution among the files of a release.
pub(crate) fn choose(alloc: Global, files: Seq<DistributionFile>) -> Result<Chosen, Fault>
    ensures wheels { IfOk result (λ chosen. chosen.wheels ≡ wheels_of files) }
    ensures sdist { IfOk result (λ chosen. chosen.sdist ≡ sdist_of files) }
    ensures memory { IsOkUnless result OutOfMemory }
{
    let Sorted {
        wheels,
        tar_gz,
        zip,
    } = sort_files(alloc, files.into_vec())?;
    let wheels = by_name(alloc, wheels)?;
    let sdist = tar_gz.or(zip);
    Ok(Chosen { sdist, wheels })
}

/// A wheel in the order of the wheels of a release, which goes by name.
#[derive(Drop)]
pub(crate) struct ByName {
    file: DistributionFile,
}

impl Model for ByName {
    ghost use Rattle.distributions.specs.declared.file.DistributionFile.{DistributionFile};

    ghost Value = { DistributionFile };

    ghost view = { λ n. n.file };
}

impl ByName {
    pub(crate) fn new(file: DistributionFile) -> ByName
        ensures { result ≡ file }
    {
        ByName { file }
    }

    pub(crate) fn into_file(self) -> DistributionFile
        ensures { result ≡ self }
    {
        self.file
    }
}

impl PartialEq for ByName {
    ghost use Rattle.snapshot.specs.Files.{name_cmp};
    ghost use Rattle.snapshot.specs.Tied.OrderLaws.{name_total};

    ghost eq = { eq_by_cmp name_cmp };

    ghost laws = { partial_equiv_from_equiv (eq_by_cmp_equiv name_total) };

    fn eq(&self, other: &ByName) -> bool {
        self.cmp(other).is_eq()
    }
}

impl Eq for ByName {
    ghost use Rattle.snapshot.specs.Tied.OrderLaws.{name_total};

    ghost laws = { eq_by_cmp_equiv name_total };
}

impl PartialOrd for ByName {
    ghost use Rattle.snapshot.specs.Files.{name_cmp};
    ghost use Rattle.snapshot.specs.Tied.OrderLaws.{name_total};

    ghost partial_cmp = { as_partial_cmp name_cmp };

    ghost laws = { partial_order_from_total name_total };

    fn partial_cmp(&self, other: &ByName) -> Option<Ordering> {
        Some(self.cmp(other))
    }
}

impl Ord for ByName {
    ghost use Rattle.snapshot.specs.Files.{name_cmp};
    ghost use Rattle.snapshot.specs.Tied.OrderLaws.{name_total};

    ghost cmp = { name_cmp };

    ghost total = { name_total };

    ghost matches_partial_cmp = { λ a b. refl };

    ghost matches_eq = { λ a b. refl };

    fn cmp(&self, other: &ByName) -> Ordering {
        cmp_names(&self.file, &other.file)
    }
}
