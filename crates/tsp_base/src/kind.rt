//! The kinds of message, numbered as in 4.3BSD's `protocols/timed.h`. What 1 to 13 do is the protocol's
//! specification; what 14 to 24 do is a profile of this project.
ghost use Rattle.std.specs.Prelude.{◌≡◌, ◌≤◌, length, ℕ, IfSome, IfNone};
ghost use Rattle.tsp_base.specs.Kinds.{kind_number, kind_of, carries_time, carries_hops, kind_word};
ghost use Rattle.tsp_base.specs.SendFacts.{is_correction, is_numbered, sets_date};
ghost use Rattle.tsp_base.specs.declared.kind.Kind.{Kind};

/// The kind of a message: its type octet. (TSP specification, message types.)
#[derive(Clone, Copy, PartialEq, Eq, Debug)]
pub enum Kind {
    /// The receiver adjusts its clock by the time carried.
    AdjTime = 1,
    /// Acknowledges the message with this number.
    Ack,
    /// Asks whether there is a master.
    MasterReq,
    /// A master answers that it is one.
    MasterAck,
    /// The receiver sets its clock to the time carried.
    SetTime,
    /// A master says that it is up.
    MasterUp,
    /// A slave says that it is up, with its ticket.
    SlaveUp,
    /// A candidate asks for backing.
    Election,
    /// The sender backs the candidate that asked.
    Accept,
    /// The sender doesn't back the candidate that asked.
    Refuse,
    /// A slave reports another master to its own.
    Conflict,
    /// A master asks for its rivals.
    Resolve,
    /// A master asks a rival to stop.
    Quit,
    /// A client sets the date.
    Date,
    /// A slave passes a date on.
    DateReq,
    /// A master has set the date.
    DateAck,
    /// Turns tracing on.
    TraceOn,
    /// Turns tracing off.
    TraceOff,
    /// Asks for the master's name.
    Msite,
    /// Asks whether the receiver is the master.
    MsiteReq,
    /// Asks the receiver to stand for election.
    Test,
    /// A client sets the date.
    SetDate,
    /// A slave passes a date on.
    SetDateReq,
    /// Finds networks that are joined twice.
    Loop,
}

/// All kinds, by their numbers.
pub static KINDS: [Kind; 24] = [
    Kind::AdjTime,
    Kind::Ack,
    Kind::MasterReq,
    Kind::MasterAck,
    Kind::SetTime,
    Kind::MasterUp,
    Kind::SlaveUp,
    Kind::Election,
    Kind::Accept,
    Kind::Refuse,
    Kind::Conflict,
    Kind::Resolve,
    Kind::Quit,
    Kind::Date,
    Kind::DateReq,
    Kind::DateAck,
    Kind::TraceOn,
    Kind::TraceOff,
    Kind::Msite,
    Kind::MsiteReq,
    Kind::Test,
    Kind::SetDate,
    Kind::SetDateReq,
    Kind::Loop,
];

impl Kind {
    /// The number on the wire, 1 to 24.
    pub fn number(&self) -> u8
        ensures { result ≡ kind_number self.now }
    {
        *self as u8
    }

    /// The kind with this number; None exactly where it isn't 1 to 24.
    #[tactic(auto, unfolding(crate::specs::Kinds::kind_of))]
    pub fn of(number: u8) -> Option<Kind>
        ensures { result ≡ kind_of number }
    {
        if 1 <= number && number <= 24 {
            Some(KINDS[number as usize - 1])
        } else {
            None
        }
    }

    /// The kind's word in texts, at most 10 octets.
    #[tactic(auto, unfolding(crate::specs::Kinds::kind_word))]
    pub fn word(&self) -> &'static [u8]
        ensures word { result.now ≡ kind_word self.now }
        ensures short { length result.now ≤ 10 }
    {
        match self {
            Kind::AdjTime => b"adjtime",
            Kind::Ack => b"ack",
            Kind::MasterReq => b"masterreq",
            Kind::MasterAck => b"masterack",
            Kind::SetTime => b"settime",
            Kind::MasterUp => b"masterup",
            Kind::SlaveUp => b"slaveup",
            Kind::Election => b"election",
            Kind::Accept => b"accept",
            Kind::Refuse => b"refuse",
            Kind::Conflict => b"conflict",
            Kind::Resolve => b"resolve",
            Kind::Quit => b"quit",
            Kind::Date => b"date",
            Kind::DateReq => b"datereq",
            Kind::DateAck => b"dateack",
            Kind::TraceOn => b"traceon",
            Kind::TraceOff => b"traceoff",
            Kind::Msite => b"msite",
            Kind::MsiteReq => b"msitereq",
            Kind::Test => b"test",
            Kind::SetDate => b"setdate",
            Kind::SetDateReq => b"setdatereq",
            Kind::Loop => b"loop",
        }
    }

    /// The kind with this word; None exactly where no kind has it.
    pub fn of_word(word: &[u8]) -> Option<Kind>
        ensures found { IfSome result (λ k. word.now ≡ kind_word k) }
        ensures none { IfNone result ((k : Kind) → word.now ≡ kind_word k → ⊥) }
    {
        for kind in &KINDS {
            if kind.word() == word {
                return Some(*kind);
            }
        }
        None
    }

    /// Whether its messages carry a hop count: those of LOOP alone.
    #[tactic(auto, unfolding(crate::specs::Kinds::carries_hops))]
    pub fn carries_hops(&self) -> bool
        ensures { result ≡ carries_hops self.now }
    {
        matches!(self, Kind::Loop)
    }

    /// Whether its messages carry a time: ADJTIME, SETTIME and the four that set a date.
    #[tactic(auto, unfolding(crate::specs::Kinds::carries_time))]
    pub fn carries_time(&self) -> bool
        ensures { result ≡ carries_time self.now }
    {
        matches!(
            self,
            Kind::AdjTime
                | Kind::SetTime
                | Kind::Date
                | Kind::DateReq
                | Kind::SetDate
                | Kind::SetDateReq
        )
    }

    /// Whether its messages correct a clock: ADJTIME and SETTIME.
    pub fn is_correction(&self) -> bool
        ensures { result ≡ is_correction self.now }
    {
        matches!(self, Kind::AdjTime | Kind::SetTime)
    }

    /// Whether its messages are numbered sends, which are repeated until they are acknowledged or given up.
    pub fn is_numbered(&self) -> bool
        ensures { result ≡ is_numbered self.now }
    {
        matches!(
            self,
            Kind::AdjTime
                | Kind::SetTime
                | Kind::Election
                | Kind::Conflict
                | Kind::Quit
                | Kind::SetDateReq
        )
    }

    /// Whether its messages set the network's date: a client's, or one that a slave passes on.
    pub fn sets_date(&self) -> bool
        ensures { result ≡ sets_date self.now }
    {
        matches!(
            self,
            Kind::Date | Kind::SetDate | Kind::DateReq | Kind::SetDateReq
        )
    }
}

/// Each kind has a number of its own, and each number from 1 to 24 a kind.
pub fn numbers_name_kinds()
    ensures back { (k : Kind) → kind_of (kind_number k) ≡ Some k }
    ensures only { (n : ℕ) (k : Kind) → kind_of n ≡ Some k → kind_number k ≡ n }
{}
