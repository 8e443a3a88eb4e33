//! The words of kinds with spaces behind them, up to 16 octets, so that a word is written at once.
ghost use Rattle.std.specs.Prelude.{◌≡◌, length, take};
ghost use Rattle.tsp_base.specs.Kinds.{kind_word};

use tsp_base::kind::Kind;

/// The word of a kind, and spaces.
#[tactic(auto, unfolding(tsp_base::specs::Kinds::kind_word))]
pub(crate) fn kind_octets(kind: Kind) -> &'static [u8; 16]
    ensures { take (length (kind_word kind)) result.now ≡ kind_word kind }
{
    match kind {
        Kind::AdjTime => b"adjtime         ",
        Kind::Ack => b"ack             ",
        Kind::MasterReq => b"masterreq       ",
        Kind::MasterAck => b"masterack       ",
        Kind::SetTime => b"settime         ",
        Kind::MasterUp => b"masterup        ",
        Kind::SlaveUp => b"slaveup         ",
        Kind::Election => b"election        ",
        Kind::Accept => b"accept          ",
        Kind::Refuse => b"refuse          ",
        Kind::Conflict => b"conflict        ",
        Kind::Resolve => b"resolve         ",
        Kind::Quit => b"quit            ",
        Kind::Date => b"date            ",
        Kind::DateReq => b"datereq         ",
        Kind::DateAck => b"dateack         ",
        Kind::TraceOn => b"traceon         ",
        Kind::TraceOff => b"traceoff        ",
        Kind::Msite => b"msite           ",
        Kind::MsiteReq => b"msitereq        ",
        Kind::Test => b"test            ",
        Kind::SetDate => b"setdate         ",
        Kind::SetDateReq => b"setdatereq      ",
        Kind::Loop => b"loop            ",
    }
}
