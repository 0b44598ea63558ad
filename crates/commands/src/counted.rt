// A reader or a writer of std, as a source or a sink.

ghost use Rattle.std.specs.Prelude.{◌≡◌, ◌-◌, ◌^◌, false};

/// A reader or a writer that counts its reads and remembers whether a call failed.
#[derive(Drop)]
pub struct Counted<T> {
    pub(crate) inner: T,
    /// How many reads are left before reading fails.
    pub(crate) calls_left: u64,
    pub(crate) has_failed: bool,
}

impl<T> Counted<T> {
    /// A stream over `inner` on which no call has failed. A read fails after
    /// 18446744073709551615 reads.
    pub fn new(inner: T) -> Counted<T>
        ensures inner { result.inner ≡ inner }
        ensures calls { result.calls_left ≡ 2 ^ 64 - 1 }
        ensures unfailed { result.has_failed ≡ false }
    {
        Counted {
            inner,
            calls_left: u64::MAX,
            has_failed: false,
        }
    }

    /// The reader or writer itself.
    pub fn into_inner(self) -> T
        ensures { result ≡ self.inner }
    {
        let Counted {
            inner,
            calls_left: _,
            has_failed: _,
        } = self;
        inner
    }
}
