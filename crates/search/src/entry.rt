ghost use Rattle.std.specs.Prelude.{◌≡◌, ◌↔◌, IsTrue};
ghost use Rattle.search.specs.Entries.{Decisive, bound_of, verdict};

// A bound on what every member of a set is worth.
#[derive(Clone, Copy, Debug, PartialEq, Eq)]
pub enum Bound {
    // At least this.
    Floor(u8),
    // At most this.
    Ceiling(u8),
}

impl Bound {
    // The bound that the answer to 'worth at least b' gives.
    pub fn of(yes: bool, b: u8) -> Bound
        ensures { result ≡ bound_of yes b }
    {
        if yes {
            Bound::Floor(b)
        } else {
            Bound::Ceiling(b.saturating_sub(1))
        }
    }

    // Whether the bound decides 'worth at least b'.
    pub fn decides(self, b: u8) -> bool
        ensures { IsTrue result ↔ Decisive self b }
    {
        match self {
            Bound::Floor(f) => f >= b,
            Bound::Ceiling(f) => f < b,
        }
    }

    // The answer that the bound gives where it decides.
    pub fn is_floor(self) -> bool
        ensures { result ≡ verdict self }
    {
        matches!(self, Bound::Floor(_))
    }
}

// What a table remembers: a set of positions with a bound on the worth of every member.
#[derive(Clone, Copy, Debug, PartialEq, Eq)]
pub struct Entry<S> {
    pub set: S,
    pub bound: Bound,
}
