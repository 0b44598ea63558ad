// How versions print.

ghost use Rattle.std.specs.Prelude.{Some};
ghost use Rattle.std.specs.Fmt.{DisplaysOnOk};
ghost use Rattle.pep440.specs.Canonical.{canonical, dev_text, epoch_text, local_text, part_text, post_text, pre_part_text, pre_text, release_text};

use crate::parts::{LocalPart, Pre};
use crate::version::Version;
use std::fmt;

impl fmt::Display for Pre {
    ghost output = { λ p. Some (pre_part_text p) };

    fn fmt<W: fmt::Write>(&self, f: &mut fmt::Formatter<W>) -> fmt::Result {
        match self {
            Pre::Alpha(n) => write!(f, "a{n}"),
            Pre::Beta(n) => write!(f, "b{n}"),
            Pre::Candidate(n) => write!(f, "rc{n}"),
        }
    }
}

impl fmt::Display for LocalPart {
    ghost output = { λ p. Some (part_text p) };

    fn fmt<W: fmt::Write>(&self, f: &mut fmt::Formatter<W>) -> fmt::Result {
        match self {
            LocalPart::Word(word) => write!(f, "{word}"),
            LocalPart::Number(number) => write!(f, "{number}"),
        }
    }
}

fn write_epoch<W: fmt::Write>(f: &mut fmt::Formatter<W>, epoch: u64) -> fmt::Result
    ensures { DisplaysOnOk W.write_str_gives f.old result (Some (epoch_text epoch)) f.new }
{
    if epoch == 0 {
        return Ok(());
    }
    write!(f, "{epoch}!")
}

fn write_release<W: fmt::Write>(f: &mut fmt::Formatter<W>, release: &[u64]) -> fmt::Result
    ensures { DisplaysOnOk W.write_str_gives f.old result (Some (release_text release.now)) f.new }
{
    if let [first, rest @ ..] = release {
        write!(f, "{first}")?;
        for number in rest {
            write!(f, ".{number}")?;
        }
    }
    Ok(())
}

fn write_pre<W: fmt::Write>(f: &mut fmt::Formatter<W>, pre: Option<Pre>) -> fmt::Result
    ensures { DisplaysOnOk W.write_str_gives f.old result (Some (pre_text pre)) f.new }
{
    match pre {
        Some(part) => write!(f, "{part}"),
        None => Ok(()),
    }
}

fn write_post<W: fmt::Write>(f: &mut fmt::Formatter<W>, post: Option<u64>) -> fmt::Result
    ensures { DisplaysOnOk W.write_str_gives f.old result (Some (post_text post)) f.new }
{
    match post {
        Some(number) => write!(f, ".post{number}"),
        None => Ok(()),
    }
}

fn write_dev<W: fmt::Write>(f: &mut fmt::Formatter<W>, dev: Option<u64>) -> fmt::Result
    ensures { DisplaysOnOk W.write_str_gives f.old result (Some (dev_text dev)) f.new }
{
    match dev {
        Some(number) => write!(f, ".dev{number}"),
        None => Ok(()),
    }
}

fn write_local<W: fmt::Write>(f: &mut fmt::Formatter<W>, local: &[LocalPart]) -> fmt::Result
    ensures { DisplaysOnOk W.write_str_gives f.old result (Some (local_text local.now)) f.new }
{
    if let [first, rest @ ..] = local {
        write!(f, "+{first}")?;
        for part in rest {
            write!(f, ".{part}")?;
        }
    }
    Ok(())
}

impl fmt::Display for Version {
    ghost output = { λ v. Some (canonical v) };

    fn fmt<W: fmt::Write>(&self, f: &mut fmt::Formatter<W>) -> fmt::Result {
        write_epoch(f, self.epoch)?;
        write_release(f, self.release.as_slice())?;
        write_pre(f, self.pre)?;
        write_post(f, self.post)?;
        write_dev(f, self.dev)?;
        write_local(f, self.local.as_slice())
    }
}

impl fmt::Debug for Version {
    fn fmt<W: fmt::Write>(&self, f: &mut fmt::Formatter<W>) -> fmt::Result {
        write!(f, "Version({self})")
    }
}
