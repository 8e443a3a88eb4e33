//! Reads the words inside an act's text.
ghost use Rattle.std.specs.Prelude.{◌≡◌, Some, IfSome};
ghost use Rattle.tsp_base.specs.Alarms.{alarm_word};
ghost use Rattle.tsp_base.specs.declared.alarm.Alarm.{Alarm};
ghost use Rattle.tsp_base.specs.declared.datagram.DecodeFault.{DecodeFault};
ghost use Rattle.tsp_script.specs.Traces.{fault_word};

use crate::acts::fault_word;
use crate::words::is_same;
use tsp_base::alarm::Alarm;
use tsp_base::datagram::DecodeFault;

/// All faults of reading octets.
const FAULTS: [DecodeFault; 9] = [
    DecodeFault::Short,
    DecodeFault::Long,
    DecodeFault::Version,
    DecodeFault::Kind,
    DecodeFault::StampLength,
    DecodeFault::NoEnd,
    DecodeFault::NameTooLong,
    DecodeFault::Reserved,
    DecodeFault::Time,
];

/// The alarm with this word.
pub(crate) fn alarm_of(word: &[u8]) -> Option<Alarm>
    ensures found { IfSome result (λ a. word.now ≡ alarm_word a) }
    ensures reads { (a : Alarm) → word.now ≡ alarm_word a → result ≡ Some a }
{
    for alarm in &Alarm::ALL {
        if is_same(alarm.word(), word) {
            return Some(*alarm);
        }
    }
    None
}

/// The fault with this word.
pub(crate) fn fault_of(word: &[u8]) -> Option<DecodeFault>
    ensures found { IfSome result (λ f. word.now ≡ fault_word f) }
    ensures reads { (f : DecodeFault) → word.now ≡ fault_word f → result ≡ Some f }
{
    for fault in &FAULTS {
        if is_same(fault_word(*fault), word) {
            return Some(*fault);
        }
    }
    None
}
