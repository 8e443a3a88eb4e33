//! What a daemon is on its networks, as the page says it.
ghost use Rattle.std.specs.Prelude.{◌≡◌};
ghost use Rattle.tsp_page.specs.Ranks.{rank_number, rank_of};

/// What a daemon is: it leads, or it follows the master of its first port that has one, or neither.
#[derive(Clone, Copy, PartialEq, Eq, Debug)]
pub enum Rank {
    /// It neither follows nor leads.
    Nobody,
    /// It follows a master.
    Follows,
    /// It leads.
    Leads,
}

impl Rank {
    /// The rank's number on the page: 0, 1 or 2.
    pub fn number(self) -> u64
        ensures { result ≡ rank_number self }
    {
        match self {
            Rank::Nobody => 0,
            Rank::Follows => 1,
            Rank::Leads => 2,
        }
    }

    /// The rank with this number; `Nobody` for a number that none has.
    pub fn of(number: u64) -> Rank
        ensures { result ≡ rank_of number }
    {
        match number {
            1 => Rank::Follows,
            2 => Rank::Leads,
            _ => Rank::Nobody,
        }
    }
}
