//! What the program prints about itself.
ghost use Rattle.std.specs.Prelude.{◌≡◌, ◌⊎◌, codes, IfSome, IfNone};
ghost use Rattle.tsp_cli.specs.Usage.{IsAlone};

/// What `--help` prints.
pub const HELP: &[u8] = b"\
tsp: the time synchronization protocol, as a replay, a daemon and questions to one

    tsp replay     reads a schedule, writes every act of its run
    tsp show       reads lines of hexadecimal, writes each datagram as a message line
    tsp pack       reads message lines, writes each datagram as a line of hexadecimal
    tsp icmp       reads exchanges of ICMP Timestamp messages, writes offsets and corrections
    tsp audit      reads a schedule and the trace that is claimed of it, writes whether that keeps five promises
    tsp serve LOCAL NAME FLAG TURNS PEER..
                   runs a daemon at the address LOCAL for so many turns: FLAG is m if it may be
                   master, x if it may, with votes of most hosts of its network, itself counted, and
                   s if it may not; an argument + among the PEERs begins the next network that it joins
    tsp msite ADDR
                   asks the daemon at an address who is master
    tsp clockdiff ADDR
                   asks how far its clock is from this machine's
    tsp trace ADDR on
                   begins its trace; off in the place of on ends it
    tsp election ADDR
                   asks whether it hears, and tells it to stand for election
    tsp date ADDR TIME
                   sets the network's date: microseconds since 1970
    tsp storm SEED NODES EVENTS
                   makes a schedule from a number, runs it, and counts what comes of it
    tsp --help     prints this text
    tsp --version  prints the program's version

An address is A.B.C.D:PORT. Input is standard input, output is standard output. A refused line
ends a command with the words `bad LINE CAUSE`. The exit status is 0 if all went well, 1 for
wrong arguments, 2 for a refused line or clock, 3 and 4 for a failed read and write, 5 for a
network that fails, 6 for no answer, 7 for a limit and 8 for want of memory.

TSP_RATE in the environment is by how many parts in 10^9 a daemon's counter is faster, at its
start, than the clock that it reads: a whole number from -1000000 to 1000000, 0 if it is left out.
TSP_COUNTER is that clock: raw, which nobody slews and which is meant if it is left out, or monotonic.
TSP_PAGE is the file on which a daemon writes what its clock is, and from which it reads the rate
at which it is to count from then on; it must be there. If it is left out, nothing is written or read.
";

/// What `--version` prints.
pub const VERSION: &[u8] = b"tsp 0.1.4\n";

/// The text that the arguments ask for, if they are `--help` or `--version` and nothing else.
pub fn asked(words: &[String]) -> Option<&'static [u8]>
    ensures asked { IfSome result (λ text. (IsAlone words.now (codes "--help")
        × (text.now ≡ HELP.now)) ⊎ (IsAlone words.now (codes "--version")
        × (text.now ≡ VERSION.now))) }
    ensures other { IfNone result ((¬ IsAlone words.now (codes "--help"))
        × (¬ IsAlone words.now (codes "--version"))) }
{
    match words {
        [word] => match word.as_str() {
            "--help" => Some(HELP),
            "--version" => Some(VERSION),
            _ => None,
        },
        _ => None,
    }
}
