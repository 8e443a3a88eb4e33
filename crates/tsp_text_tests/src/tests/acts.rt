//! Lines of traces and their values, and lines that aren't a trace's.

use tsp_base::act::{Act, Placed};
use tsp_base::alarm::Alarm;
use tsp_base::datagram::{Datagram, DecodeFault, Taken};
use tsp_base::place::{PeerId, Place, Port};
use tsp_base::role::Role;
use tsp_base::stamp::Stamp;
use tsp_base::trace::Line2;
use tsp_script::act_laws::{act_comes_back, one_line_one_act};
use tsp_script::act_reader::act_of;
use tsp_script::trace::act_text;

/// Whether an act is written as this line.
fn is_written(act: &Act, text: &[u8]) -> bool {
    let line = Line2 {
        event: 186,
        node: 2,
        tick: 637975324,
        number: 141,
        placed: Placed {
            port: Port(1),
            act: act.copy(),
        },
    };
    act_text(&line).as_slice() == text
}

/// Acts and their lines.
const WRITTEN: [(Act, &str); 25] = [
    (Act::Boot, "186 2 1 637975324 boot"),
    (
        Act::Become(Role::Starting),
        "186 2 1 637975324 become starting",
    ),
    (Act::Become(Role::Loose), "186 2 1 637975324 become loose"),
    (
        Act::Become(Role::Follow(PeerId(3))),
        "186 2 1 637975324 become follow 3",
    ),
    (
        Act::Become(Role::Candidate),
        "186 2 1 637975324 become candidate",
    ),
    (Act::Become(Role::Master), "186 2 1 637975324 become master"),
    (Act::Back(PeerId(2)), "186 2 1 637975324 back 2"),
    (Act::Backer(PeerId(3)), "186 2 1 637975324 backer 3"),
    (Act::Quit(PeerId(0)), "186 2 1 637975324 quit 0"),
    (Act::Join(PeerId(9)), "186 2 1 637975324 join 9"),
    (Act::Leave(PeerId(10)), "186 2 1 637975324 leave 10"),
    (Act::Rival(PeerId(99)), "186 2 1 637975324 rival 99"),
    (Act::Acked(PeerId(100)), "186 2 1 637975324 acked 100"),
    (Act::Gave(PeerId(3)), "186 2 1 637975324 gave 3"),
    (Act::Trace(true), "186 2 1 637975324 trace on"),
    (Act::Trace(false), "186 2 1 637975324 trace off"),
    (
        Act::Arm(Alarm::Probe, 1957464717),
        "186 2 1 637975324 arm probe 1957464717",
    ),
    (Act::Ring(Alarm::Elect), "186 2 1 637975324 ring elect"),
    (Act::Late(Alarm::Close), "186 2 1 637975324 late close"),
    (Act::Abandon, "186 2 1 637975324 abandon"),
    (
        Act::Correct {
            amount: -657769,
            stepped: true,
            shown: 632195137,
        },
        "186 2 1 637975324 correct -657769 step 632195137",
    ),
    (
        Act::Close {
            count: 2,
            lo: -500,
            width: 500,
            mean: -250,
        },
        "186 2 1 637975324 close 2 -500 500 -250",
    ),
    (
        Act::Sample {
            peer: PeerId(2),
            counter: 23,
            diff: -1528614,
            err: 2634852,
            ticket: 32333,
        },
        "186 2 1 637975324 sample 2 23 -1528614 2634852 32333",
    ),
    (
        Act::Post(
            Place::Peer(PeerId(0)),
            Datagram::Stamp(Stamp::Request {
                word: 17392,
                counter: 4,
            }),
        ),
        "186 2 1 637975324 post 141 0 request 17392 4",
    ),
    (
        Act::Took(Place::Stranger, Taken::Bad(DecodeFault::NameTooLong)),
        "186 2 1 637975324 took - refused name-too-long",
    ),
];

/// The text of each act.
#[test]
fn writes_acts(rt: HostRuntime) {
    for (act, text) in &WRITTEN {
        assert!(rt; is_written(act, text.as_bytes()), "{text}");
    }
}

/// Whether a line is read, written again as it was, and read as the same again.
fn comes_back(line: &[u8]) -> bool {
    let Ok(read) = act_of(line) else {
        return false;
    };
    let Ok(again) = act_comes_back(&read) else {
        return false;
    };
    one_line_one_act(&read, &again);
    act_text(&again).as_slice() == line
}

/// A line of each act, and of each form of its parts.
const LINES: &[&str] = &[
    "1 0 0 0 boot",
    "186 2 1 637975324 took - refused name-too-long",
    "4 0 0 82000000 took 1 adjtime 7 -10000 b",
    "3 0 0 20 took - request 1 2",
    "3 4294967295 255 18446744073709551615 post 18446744073709551615 - reply 5 1 2 1020",
    "2 0 0 80000000 post 0 1 masterreq 0 a",
    "9 1 0 5 post 12 4294967295 loop 3 10 %",
    "1 0 0 0 become starting",
    "1 0 0 0 become loose",
    "3 0 0 81000000 become follow 1",
    "1 0 0 0 become candidate",
    "1 0 0 0 become master",
    "1 0 0 0 back 2",
    "1 0 0 0 backer 3",
    "1 0 0 0 quit 1",
    "1 0 0 0 arm quiet 80000000",
    "2 0 0 80000000 ring quiet",
    "1 0 0 0 late resolve",
    "1 0 0 0 join 0",
    "1 0 0 0 leave 1",
    "1 0 0 0 rival 1",
    "1 0 0 0 acked 1",
    "1 0 0 0 gave 3",
    "1 0 0 0 sample 2 23 -1528614 2634852 32333",
    "1 0 0 0 close 2 -500 500 -250",
    "4 0 0 82000000 correct 10000 slew 82000000",
    "1 0 0 0 correct -657769 step -632195137",
    "1 0 0 0 abandon",
    "1 0 0 0 trace on",
    "1 0 0 0 trace off",
];

/// A line of each act, and of each form of its parts.
#[test]
fn reads_each_act(rt: HostRuntime) {
    for line in LINES {
        assert!(rt; comes_back(line.as_bytes()), "{line}");
    }
}

/// Lines that aren't a trace's.
const OTHERS: &[&str] = &[
    "",
    "1 0 0 0",
    "1 0 0 0 ",
    "1 0 0 0 boot ",
    " 1 0 0 0 boot",
    "01 0 0 0 boot",
    "1  0 0 0 boot",
    "1 0 256 0 boot",
    "1 4294967296 0 0 boot",
    "18446744073709551616 0 0 0 boot",
    "1 0 0 0 boots",
    "1 0 0 0 Boot",
    "1 0 0 0 abandon 1",
    "1 0 0 0 become follow",
    "1 0 0 0 become slave",
    "1 0 0 0 become master 1",
    "1 0 0 0 back -",
    "1 0 0 0 back 4294967296",
    "1 0 0 0 arm quiet",
    "1 0 0 0 arm sleep 5",
    "1 0 0 0 ring quiet 5",
    "1 0 0 0 took 1 refused",
    "1 0 0 0 took 1 refused late",
    "1 0 0 0 took 1 adjtime 7 10000",
    "1 0 0 0 post 1 masterreq 0 a",
    "1 0 0 0 correct 5 jump 6",
    "1 0 0 0 correct +5 slew 6",
    "1 0 0 0 correct -0 slew 6",
    "1 0 0 0 sample 2 23 -1528614 2634852 65536",
    "1 0 0 0 close 4294967296 0 0 0",
    "1 0 0 0 trace",
    "1 0 0 0 trace ON",
    "at 0 boot 0 5",
];

/// Lines that aren't a trace's.
#[test]
fn refuses_other_lines(rt: HostRuntime) {
    for line in OTHERS {
        assert!(rt; act_of(line.as_bytes()).is_err(), "{line}");
    }
}
