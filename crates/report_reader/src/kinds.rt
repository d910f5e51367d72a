// The three kinds in which a report lists what was found.
ghost use Rattle.std.specs.Prelude.{◌≡◌};
ghost use Rattle.tree_excuses.specs.Excuses.{excuses_in, is_normal};
ghost use Rattle.world_identities.specs.Identities.{flags_in, identity_in};
ghost use Rattle.report_reader.specs.inside.Reading.{is_of, label_of};

use tree_excuses::Excuses;
use world_identities::{Flags, Identity};

/// A kind of findings.
#[derive(Clone, Copy)]
pub(crate) enum Kind {
    /// Errors that count.
    Error,
    /// Refusals.
    Refusal,
    /// Errors that are taken as normal.
    Normal,
}

// Whether it is an error under the flags that is taken as normal.
fn is_normal(flags: Flags, excuses: &Excuses, identity: &Identity) -> bool
    ensures { result ≡ is_normal (flags_in flags) (excuses_in excuses.now) (identity_in identity.now) }
{
    identity.is_error(flags) && excuses.excuses(identity)
}

impl Kind {
    /// What comes before the number of each finding of the kind.
    pub(crate) fn label(self) -> &'static [u8]
        ensures { result.now ≡ label_of self }
    {
        match self {
            Kind::Error => b"error ",
            Kind::Refusal => b"refusal ",
            Kind::Normal => b"normal ",
        }
    }

    /// Whether what a schedule shows is of the kind.
    pub(crate) fn is_of(self, flags: Flags, excuses: &Excuses, identity: &Identity) -> bool
        ensures { result ≡ is_of self (flags_in flags) (excuses_in excuses.now) (identity_in identity.now) }
    {
        match self {
            Kind::Error => excuses.counts(flags, identity),
            Kind::Refusal => identity.is_refusal(),
            Kind::Normal => is_normal(flags, excuses, identity),
        }
    }
}
