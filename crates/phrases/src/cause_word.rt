// The words of causes for which a line is refused.

ghost use Rattle.std.specs.Prelude.{◌≡◌};
ghost use Rattle.phrases.specs.Causes.{word_of};

use pep440::Fault as SpecifierFault;
use pep508::Cause;

/// The word of a cause: its name in lower case with a hyphen before each inner capital. That of a
/// specifier is the word of its own fault.
pub fn cause_word(cause: Cause) -> &'static str
    ensures { result.now ≡ word_of cause }
{
    match cause {
        Cause::BadName => "bad-name",
        Cause::BadMarker => "bad-marker",
        Cause::MarkerTooDeep => "marker-too-deep",
        Cause::UrlRequirement => "url-requirement",
        Cause::OptionLine => "option-line",
        Cause::Continuation => "continuation",
        Cause::OddCharacter => "odd-character",
        Cause::NotUtf8 => "not-utf8",
        Cause::BadEnvironment(_) => "bad-environment",
        Cause::Specifier(SpecifierFault::BadVersion) => "bad-version",
        Cause::Specifier(SpecifierFault::NumberTooLarge) => "number-too-large",
        Cause::Specifier(SpecifierFault::BadClause(_)) => "bad-clause",
        Cause::Specifier(SpecifierFault::ArbitraryEquality) => "arbitrary-equality",
        Cause::Specifier(SpecifierFault::OutOfMemory) | Cause::OutOfMemory => "out-of-memory",
    }
}
