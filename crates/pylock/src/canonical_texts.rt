// Texts that are the one written form of a name, a version or a digest.

ghost use Rattle.pylock.specs.CanonicalTexts.{canonical_version, lower_digest, normal_name};
ghost use Rattle.pylock.specs.Flaws.{Gives};

use crate::flaw::Flaw;
use hex::FromHex;
use pep440::{Fault, Version};
use pep508::{Cause, Name};
use std::alloc::Global;

/// The name that a text is, in its normal form (PEP 503, "Normalized Names").
pub fn normal_name(alloc: Global, text: &str) -> Result<Name, Flaw>
    ensures { Gives (λ n. n) (normal_name text.now) result }
{
    match Name::read(alloc, text) {
        Ok(name) if name.normal() == text => Ok(name),
        Err(Cause::OutOfMemory) => Err(Flaw::OutOfMemory),
        _ => Err(Flaw::OtherForm),
    }
}

/// The version whose canonical text this is (PEP 440, "Normalization").
pub fn canonical_version(alloc: Global, text: &str) -> Result<Version, Flaw>
    ensures { Gives (λ v. v) (canonical_version text.now) result }
{
    let version = match Version::parse(alloc, text) {
        Ok(version) => version,
        Err(Fault::OutOfMemory) => return Err(Flaw::OutOfMemory),
        Err(_) => return Err(Flaw::OtherForm),
    };
    match version.canonical(alloc) {
        Ok(canonical) if canonical.as_str() == text => Ok(version),
        Ok(_) => Err(Flaw::OtherForm),
        Err(_) => Err(Flaw::OutOfMemory),
    }
}

/// The digest whose 64 hexadecimal digits, letters in lower case, are the text.
pub fn lower_digest(alloc: Global, text: &str) -> Result<[u8; 32], Flaw>
    ensures { Gives (λ d. d) (lower_digest text.now) result }
{
    match <[u8; 32] as FromHex>::from_hex(text) {
        Ok(digest) => {
            let lower = hex::encode(alloc, digest)?;
            if lower.as_str() == text {
                return Ok(digest);
            }
            Err(Flaw::OtherForm)
        }
        Err(_) => Err(Flaw::OtherForm),
    }
}
