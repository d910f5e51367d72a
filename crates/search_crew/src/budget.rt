// How many nodes of a job a worker visits before it gives the job back.
ghost use Rattle.std.specs.Prelude.{◌≡◌, ◌*◌, ◌-◌, ◌^◌, ◌≤◌, true, false, min};

/// How many times as many nodes as at first they may become.
const MOST: u64 = 64;

/// How many nodes of a job a worker visits at most before it gives the job back. They are the least at first, and twice
/// as many from piece to piece while nobody waits for work, so that the pool is called less often. Where somebody waits
/// they are the least again, so that what is left of a job comes back soon.
#[derive(Clone, Copy)]
pub(crate) struct Budget {
    least: u64,
    nodes: u64,
    ghost some: { 1 ≤ least },
    ghost enough: { least ≤ nodes },
}

impl Budget {
    /// The least.
    pub(crate) fn of(least: u64) -> Budget
        requires { 1 ≤ least }
        ensures least { result.least ≡ least }
        ensures nodes { result.nodes ≡ least }
    {
        Budget {
            least,
            nodes: least,
        }
    }

    /// How many nodes, at least one.
    pub(crate) fn nodes(self) -> u64
        ensures same { result ≡ self.nodes }
        ensures some { 1 ≤ result }
    {
        self.nodes
    }

    /// For the next piece: the least where somebody waits, and else twice as many, up to 64 times the least and to the
    /// greatest number.
    pub(crate) fn next(self, is_awaited: bool) -> Budget
        ensures least { result.least ≡ self.least }
        ensures awaited { is_awaited ≡ true → result.nodes ≡ self.least }
        ensures grown { is_awaited ≡ false → result.nodes ≡ min (self.nodes * 2) (min (self.least * 64) (2 ^ 64 - 1)) }
    {
        if is_awaited {
            return Budget::of(self.least);
        }
        let twice = self.nodes.saturating_mul(2);
        let most = self.least.saturating_mul(MOST);
        Budget {
            least: self.least,
            nodes: if twice < most { twice } else { most },
        }
    }
}
