//! The kinds of alarm.
ghost use Rattle.std.specs.Prelude.{◌≡◌, ◌≤◌, length};
ghost use Rattle.tsp_base.specs.Alarms.{alarm_word};

/// What a deadline is for, in the order in which due alarms are handled.
#[derive(Clone, Copy, PartialEq, Eq, Debug)]
pub enum Alarm {
    /// The quiet time after a boot ends.
    Quiet,
    /// The search for a master ends.
    Search,
    /// No master was heard for the election delay.
    Elect,
    /// A candidature ends.
    Window,
    /// The next exchange of a round is due.
    Probe,
    /// A round ends.
    Close,
    /// A resolution of rivals ends.
    Resolve,
    /// The next round begins.
    Round,
}

impl Alarm {
    /// Every alarm, in the order in which due ones are handled.
    pub const ALL: [Alarm; 8] = [
        Alarm::Quiet,
        Alarm::Search,
        Alarm::Elect,
        Alarm::Window,
        Alarm::Probe,
        Alarm::Close,
        Alarm::Resolve,
        Alarm::Round,
    ];

    /// The alarm's word in a trace, at most 7 octets.
    pub fn word(self) -> &'static [u8]
        ensures word { result.now ≡ alarm_word self }
        ensures short { length result.now ≤ 7 }
    {
        match self {
            Alarm::Quiet => b"quiet",
            Alarm::Search => b"search",
            Alarm::Elect => b"elect",
            Alarm::Window => b"window",
            Alarm::Probe => b"probe",
            Alarm::Close => b"close",
            Alarm::Resolve => b"resolve",
            Alarm::Round => b"round",
        }
    }
}
