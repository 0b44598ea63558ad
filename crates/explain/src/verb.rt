// Verbs behind releases.

/// A verb, as it stands behind one release and behind several.
#[derive(Clone, Copy)]
pub struct Verb {
    pub one: &'static str,
    pub many: &'static str,
}

/// A verb that denies something, and what is told where it is denied of every release.
#[derive(Clone, Copy)]
pub struct Denial {
    pub all: &'static str,
    pub verb: Verb,
}

impl Verb {
    pub fn new(one: &'static str, many: &'static str) -> Verb {
        Verb { one, many }
    }

    pub fn needs() -> Verb {
        Verb::new(" needs ", " need ")
    }
}

impl Denial {
    pub fn new(all: &'static str, one: &'static str, many: &'static str) -> Denial {
        let verb = Verb::new(one, many);
        Denial { all, verb }
    }
}
