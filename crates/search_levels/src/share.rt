// How the states of a level are shared out.
ghost use Rattle.std.specs.Prelude.{◌<◌, IfOk};
ghost use Rattle.search_levels.specs.inside.Following.{AreShares};

use std::alloc::{AllocError, Global};

/// The places of a level from one on, up to another one.
#[derive(Clone, Copy)]
pub(crate) struct Share {
    pub(crate) first: usize,
    pub(crate) last: usize,
}

/// Shares out so many places, with this many in each but the last. `AllocError` if there is no memory for the shares.
pub(crate) fn shares(alloc: Global, places: usize, size: usize) -> Result<Vec<Share>, AllocError>
    requires { 0 < size }
    ensures { IfOk result (λ shares. AreShares 0 places shares.items) }
{
    let mut shares = Vec::new(alloc);
    let mut first = 0;
    while first < places {
        let last = if size < places - first {
            first + size
        } else {
            places
        };
        shares.push(Share { first, last })?;
        first = last;
    }
    Ok(shares)
}
