//! What each step on the table tells.
use crate::board::View;
use crate::locked::Locked;
use crate::parts::Parts;
use atomic_table::{Join, Play, Split};

/// Takes the lock, or finds that the word has changed.
pub(crate) struct Acquire;

impl<P: Parts> Play<Option<Locked<P>>, View> for Acquire {
    ghost use Rattle.slate_shared.specs.Shared.{acquired};

    ghost then = { acquired };
}

/// Lets the lock go with one event more.
pub(crate) struct Add;

impl<P: Parts> Play<Option<Locked<P>>, View> for Add {
    ghost use Rattle.slate_shared.specs.Shared.{appended};

    ghost then = { appended };
}

/// Lets the lock go with the journal as it was.
pub(crate) struct Keep;

impl<P: Parts> Play<Option<Locked<P>>, View> for Keep {
    ghost use Rattle.slate_shared.specs.Shared.{let_go};

    ghost then = { let_go };
}

/// Sees that what another seat had seen begins the journal too.
pub(crate) struct Look;

impl<P: Parts> Play<Option<Locked<P>>, View> for Look {
    ghost use Rattle.slate_shared.specs.Shared.{looked};

    ghost then = { looked };
}

/// A new seat has seen the same, and has one part.
pub(crate) struct Fork;

impl Split<View> for Fork {
    ghost use Rattle.slate_shared.specs.Shared.{newcomer, less};

    ghost left = { less };

    ghost right = { λ v. newcomer 1 v.seen };
}

/// A new seat has seen the same, and may own no event.
pub(crate) struct Offshoot;

impl Split<View> for Offshoot {
    ghost use Rattle.slate_shared.specs.Shared.{newcomer};

    ghost left = { λ v. v };

    ghost right = { λ v. newcomer 0 v.seen };
}

/// One seat takes in what another has seen and done.
pub(crate) struct Merge;

impl Join<View> for Merge {
    ghost use Rattle.std.specs.Prelude.{[]};
    ghost use Rattle.slate_shared.specs.Shared.{newcomer, joined};

    ghost both = { joined };

    ghost spent = { newcomer 0 [] };
}
