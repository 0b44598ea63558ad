// What files are, by the ends of their names.

ghost use Rattle.std.specs.Prelude.{◌≡◌};
ghost use Rattle.distributions.specs.Forms.{form_of, is_sdist, is_wheel};

/// What a file is.
#[derive(Clone, Copy, Debug)]
pub enum Form {
    /// `.whl`: a wheel (binary distribution format).
    Wheel,
    /// `.tar.gz`: a source distribution.
    TarGz,
    /// `.zip`: a source distribution, as older ones are.
    Zip,
    /// Any other name: nothing to install from.
    Other,
}

impl Form {
    /// Whether a file of this form is a wheel.
    pub(crate) fn is_wheel(self) -> bool
        ensures { result ≡ is_wheel self }
    {
        match self {
            Form::Wheel => true,
            Form::TarGz | Form::Zip | Form::Other => false,
        }
    }

    /// Whether a file of this form is a source distribution.
    pub(crate) fn is_sdist(self) -> bool
        ensures { result ≡ is_sdist self }
    {
        match self {
            Form::TarGz | Form::Zip => true,
            Form::Wheel | Form::Other => false,
        }
    }
}

/// What a file of this name is.
pub(crate) fn form_of(name: &str) -> Form
    ensures { result ≡ form_of name.now }
{
    let name = name.as_bytes();
    if name.ends_with(b".whl") {
        Form::Wheel
    } else if name.ends_with(b".tar.gz") {
        Form::TarGz
    } else if name.ends_with(b".zip") {
        Form::Zip
    } else {
        Form::Other
    }
}
