//! The promises of the protocol, each proved of every history that fits: of any number of nodes,
//! and of any number of ports of a node. Nothing here runs. Each function's contract is a theorem
//! about the definitions of `specs/`: where each deed does what it owes to its past, the promises
//! hold. The front page of this crate says what the words mean.
ghost use Rattle.std.specs.Prelude.{◌≡◌, ◌≤◌, ◌⊎◌, ◌+◌, nat_abs, true, ℕ, ℤ, List};
ghost use Rattle.tsp_base.specs.History.{Line};
ghost use Rattle.tsp_promises.specs.AgreedShown.{AgreedShown, ShownNear, Waited};
ghost use Rattle.tsp_promises.specs.Fits.{Fits, Finished};
ghost use Rattle.tsp_promises.specs.Measured.{Measured, Trips};
ghost use Rattle.tsp_promises.specs.Once.{OnceConfirmed, OnceCorrected, OnceObeyed};
ghost use Rattle.tsp_promises.specs.Once.{OnceSpaced, OnceSpacedOverLives, OnceTaken};
ghost use Rattle.tsp_promises.specs.Premises.{Few, Honest, Life, OwnWords};
ghost use Rattle.tsp_promises.specs.Resolved.{StaysQuiet, StopsLeading, Yields, YieldsTaken};
ghost use Rattle.tsp_promises.specs.Setting.{Setting};
ghost use Rattle.tsp_promises.specs.Steady.{Meets, Steady};
ghost use Rattle.tsp_promises.specs.Safe.{Safe};
/// The promises of `Safe`, of a history that ends with a step, each under the premises that it needs.
#[tactic(auto, using(crate::proofs::promised::SafeProof::safe))]
pub fn safe()
    ensures { (setting : Setting) (world : List Line) → Fits setting world → Finished setting world
        → Safe setting world }
{}

ghost use Rattle.tsp_promises.specs.OneBack.{OneBack};
/// No port backs two candidates within `HOLD` ticks, 60 s, even if datagrams are forged.
#[tactic(auto, using(crate::proofs::promised::ResolvedProof::one_back))]
pub fn one_back()
    ensures { (setting : Setting) (world : List Line) → Fits setting world → Finished setting world
        → OneBack world }
{}

ghost use Rattle.tsp_promises.specs.Silent.{Silent};
/// For `QUIET` ticks, 80 s, after a boot a node posts only the reply to a stamp request, or the
/// acknowledgment of an MSITE, TRACEON or TRACEOFF, that its step took, to whom that came from. And
/// it doesn't correct its clock.
#[tactic(auto, using(crate::proofs::promised::ResolvedProof::silent))]
pub fn silent_after_boot()
    ensures { (setting : Setting) (world : List Line) → Fits setting world → Silent world }
{}

ghost use Rattle.tsp_promises.specs.Answered.{Answered};
/// A step takes at most one datagram. A port that isn't Starting heeds each QUIT that it takes from
/// a peer, other than its own node: right after it took it, once in a step. It acknowledges it in
/// that step, in every role. Each reply, ACK and DATEACK answers the datagram that its step took,
/// and goes to whom that came from. What a step posts to a stranger answers the datagram that it
/// took from one on that port, and is the only thing that it posts to strangers. A message's answer
/// is in the node's own name, but that of MSITE has the master's. So no more datagrams are posted to
/// strangers than are taken from them.
#[tactic(auto, using(crate::proofs::promised::AnsweredProof::answered))]
pub fn answered()
    ensures { (setting : Setting) (world : List Line) → Fits setting world → Finished setting world
        → Answered setting world }
{}

ghost use Rattle.tsp_promises.specs.OnlyMaster.{OnlyMaster};
/// Only masters post corrections, close rounds, and correct their clocks right after a Close.
#[tactic(auto, using(crate::proofs::shared::SendPlaces::only_master))]
pub fn only_master()
    ensures { (setting : Setting) (world : List Line) → Fits setting world → OnlyMaster world }
{}

/// Two corrections of one clock are at least `GAP` ticks, 1 s, apart: in one life of the node, and
/// over its lives.
#[tactic(auto, using(crate::proofs::promised::OnceObeyedProof::all_spaced))]
pub fn once_spaced()
    ensures one_life { (setting : Setting) (world : List Line) → Fits setting world
        → OnceSpaced world }
    ensures over_lives { (setting : Setting) (world : List Line) → Fits setting world
        → OnceSpacedOverLives world }
{}

/// A follower's clock is moved only as its master says, if no peer's datagram is forged.
#[tactic(auto, using(crate::proofs::promised::OnceObeyedProof::once_obeyed))]
pub fn once_obeyed()
    ensures { (setting : Setting) (world : List Line) → Fits setting world → Honest world
        → OnceObeyed setting world }
{}

/// No two corrections of clocks take posts of one ADJTIME or SETTIME, if no datagram outlives
/// `LIFE`, even if datagrams are forged.
#[tactic(auto, using(crate::proofs::promised::OnceTakenProof::once_corrected))]
pub fn once_corrected()
    ensures { (setting : Setting) (world : List Line) → Fits setting world → Life world
        → OnceCorrected world }
{}

/// No two corrections of clocks take posts of one send, whether it is a correction or a date that
/// is passed on, if no datagram outlives `LIFE` and no peer's datagram is forged.
#[tactic(auto, using(crate::proofs::promised::OnceDatedProof::once_taken))]
pub fn once_taken()
    ensures { (setting : Setting) (world : List Line) → Fits setting world → Honest world
        → Life world → OnceTaken world }
{}

/// A correction that was acknowledged was taken, if no peer's datagram is forged and none outlives
/// `LIFE`. Two boots may have the same word, here and in all promises that compare clocks.
#[tactic(auto, using(crate::proofs::promised::OwnFitsProof::given, crate::proofs::promised::ConfirmedProof::once_confirmed))]
pub fn once_confirmed()
    ensures { (setting : Setting) (world : List Line) → Fits setting world → Honest world
        → Life world → OnceConfirmed world }
{}

ghost use Rattle.tsp_promises.specs.Thrice.{Thrice};
/// A numbered message is posted at most three times, the last time at most 4 s of its node's ticks
/// after the first.
#[tactic(auto, using(crate::proofs::promised::ThriceProof::thrice))]
pub fn thrice()
    ensures { (setting : Setting) (world : List Line) → Fits setting world → Thrice world }
{}

/// A measurement ends an open exchange of the going round, and the error that it states is half of
/// that round trip, rounded up to a microsecond.
#[tactic(auto, using(crate::proofs::promised::MeasuredProof::trips))]
pub fn measured_trips()
    ensures { (setting : Setting) (world : List Line) → Fits setting world → Trips world }
{}

/// A measurement rests on a reply that its peer posted, and is wrong by at most the error that it
/// states, if no peer's datagram is forged, and either no datagram outlives `LIFE` or no two boots
/// of one node have the same word.
#[tactic(auto, using(crate::proofs::promised::MeasuredProof::measured))]
pub fn measured()
    ensures { (setting : Setting) (world : List Line) → Fits setting world → Honest world
        → Life world ⊎ OwnWords world → Measured setting world }
{}

ghost use Rattle.tsp_promises.specs.Agreed.{Agreed, StayAgreed};
/// An ADJTIME that a Close begins rests on a sample. Clocks that one Close corrected agree with one
/// another and with the master's, within their errors and drift: at each act, and after each line
/// as long as nothing more happens.
#[tactic(auto, using(crate::proofs::promised::AgreedProof::all_agreed))]
pub fn agreed()
    ensures at { (setting : Setting) (world : List Line) → Fits setting world → Honest world
        → Life world → Agreed setting world }
    ensures stay { (setting : Setting) (world : List Line) → Fits setting world → Honest world
        → Life world → StayAgreed setting world }
{}

ghost use Rattle.tsp_promises.specs.Estimates.{EstimatesHold};
/// What a round's estimates say of the clocks: two estimates differ by at most as much as the
/// clocks do at the Close, plus their errors and drift. And the master's clock, once it has moved
/// by the mean, differs from a clock that is left alone by at most what that clock's estimate
/// differs from the mean, plus its error and drift.
pub fn estimates_hold()
    ensures { (setting : Setting) (world : List Line) → Fits setting world → Honest world
        → Life world → EstimatesHold setting world }
{}

ghost use Rattle.tsp_promises.specs.Seldom.{ErrsBounded};
/// The error on which an ADJTIME rests is at most 4.5 s, half of the longest round, whatever is
/// delivered.
#[tactic(auto, using(crate::proofs::promised::ErrsProof::errs_bounded))]
pub fn errs_bounded()
    ensures { (setting : Setting) (world : List Line) → Fits setting world → ErrsBounded world }
{}

ghost use Rattle.tsp_promises.specs.Moderate.{Moderate, ModerateClocks};
/// In a round that a Correct ends, a minority of the estimates, whatever it says, moves no clock of
/// the majority by much. If more than half of the estimates are within 20 ms of one another, the
/// mean and the Correct differ by at most 40 ms from each of them. So a master among them slews its
/// clock by at most that, and so does each peer among them that takes the round's ADJTIME. What such
/// a peer shows meets its clock within 8 s of its ticks, if nothing was left to slew before. If no
/// peer's datagram is forged and none outlives `LIFE`, the master's clock then agrees with theirs,
/// within 40 ms, the error and drift.
#[tactic(auto, using(crate::proofs::promised::ModerateProof::all_moderate))]
pub fn moderate()
    ensures moves { (setting : Setting) (world : List Line) → Fits setting world
        → Moderate setting world }
    ensures clocks { (setting : Setting) (world : List Line) → Fits setting world → Honest world
        → Life world → ModerateClocks setting world }
{}

ghost use Rattle.tsp_promises.specs.Seldom.{Seldom};
/// In one life of a node two rounds of one port close at least 239 s of its ticks apart.
#[tactic(auto, using(crate::proofs::promised::ErrsProof::seldom))]
pub fn seldom()
    ensures { (setting : Setting) (world : List Line) → Fits setting world → Seldom world }
{}

ghost use Rattle.tsp_promises.specs.Throughout.{Throughout};
/// A round's bound outlasts later Corrects, until either node boots. Take back what the two nodes
/// were moved by since: then the clock of a node that a Close corrected and the clock of the master
/// agree as they did. So the clocks themselves differ by at most those amounts besides. The same is
/// so of two nodes that one Close corrected, whatever becomes of the master.
#[tactic(auto, using(crate::proofs::promised::OwnFitsProof::given, crate::proofs::promised::AgreedProof::throughout))]
pub fn throughout()
    ensures { (setting : Setting) (world : List Line) → Fits setting world → Honest world
        → Life world → Throughout setting world }
{}

ghost use Rattle.tsp_promises.specs.OneError.{OneError};
/// No error is corrected twice, whichever masters there are, if no peer's datagram is forged and
/// none outlives `LIFE`. Each correction that a clock takes rests on a reading or a SLAVEUP, and
/// from that to the Correct that takes it the node neither boots nor corrects its clock.
#[tactic(auto, using(crate::proofs::promised::OwnFitsProof::given, crate::proofs::promised::OneErrorProof::one_error))]
pub fn one_error()
    ensures { (setting : Setting) (world : List Line) → Fits setting world → Honest world
        → Life world → OneError world }
{}

ghost use Rattle.tsp_promises.specs.FirstSet.{FirstSet, FirstSetSoon};
/// After a SETTIME a clock is behind its master's by the time since the SETTIME was first posted,
/// give or take drift, even if datagrams are forged. If no datagram outlives `LIFE`, that is at
/// most 34 s and drift.
#[tactic(auto, using(crate::proofs::promised::FirstSetProof::first_set, crate::proofs::promised::FirstSetProof::first_set_soon))]
pub fn first_set()
    ensures at { (setting : Setting) (world : List Line) → Fits setting world
        → FirstSet setting world }
    ensures soon { (setting : Setting) (world : List Line) → Fits setting world → Life world
        → FirstSetSoon setting world }
{}

ghost use Rattle.tsp_promises.specs.Chained.{Chained};
/// Clocks along chains of corrections agree: with the first master's, with those along another
/// chain of the same Close, and, in a tree of gateways, any two of them. They differ by at most the
/// errors of the readings on the path and drift.
#[tactic(auto, using(crate::proofs::promised::OwnFitsProof::given, crate::proofs::promised::AgreedProof::chained))]
pub fn chained()
    ensures { (setting : Setting) (world : List Line) → Fits setting world → Honest world
        → Life world → Chained setting world }
{}

ghost use Rattle.tsp_promises.specs.Chained.{Relayed};
/// A clock corrected by a master that was itself corrected agrees with the first master's, within
/// both errors and drift: at each line, and after it as long as nothing more happens.
#[tactic(auto, using(crate::proofs::promised::OwnFitsProof::given, crate::proofs::promised::AgreedProof::relayed))]
pub fn relayed()
    ensures { (setting : Setting) (world : List Line) → Fits setting world → Honest world
        → Life world → Relayed setting world }
{}

/// What a clock shows never falls between steps of it and boots, and its rate is off by at most one
/// in two hundred, beside its node's drift, even if datagrams are forged.
#[tactic(auto, using(crate::proofs::promised::SteadyProof::steady))]
pub fn runs_steadily()
    ensures { (setting : Setting) (world : List Line) → Fits setting world → Steady setting world }
{}

ghost use Rattle.tsp_promises.specs.Shows.{Shows};
/// A Correct prints what its clock shows right after it. It says that it is stepped exactly where
/// it sets the clock, by a SETTIME or a date, or where its amount is more than `MAXADJ`, 20 s. Then
/// the clock shows its new target; otherwise it shows what it showed before. So a trace can be
/// checked: as long as a node doesn't boot, and none after the first is stepped, what two of its
/// Corrects print differs by the ticks between them, give or take one in two hundred.
#[tactic(auto, using(crate::proofs::promised::AgreedShownProof::shows))]
pub fn shows()
    ensures { (setting : Setting) (world : List Line) → Fits setting world → Shows world }
{}

/// What a clock shows meets its target: what is left to slew is less by a microsecond for each 200
/// ticks. No deed can break this; it is how the shown value is defined.
#[tactic(auto, using(crate::proofs::promised::SteadyProof::meets))]
pub fn meets_target()
    ensures { (world : List Line) → Meets world }
{}

/// What clocks show agrees as the clocks do, wherever a Close or a chain bounds them: within the
/// same errors and drift, and what is still to be slewed on each. Any other bound of the clocks of
/// two nodes that have booted bounds what they show likewise, and as closely once both show their
/// targets, even if datagrams are forged.
#[tactic(auto, using(crate::proofs::promised::AgreedShownProof::all_shown))]
pub fn agreed_shown()
    ensures clocks { (setting : Setting) (world : List Line) → Fits setting world → Honest world
        → Life world → AgreedShown setting world }
    ensures near { (setting : Setting) (world : List Line) → Fits setting world
        → ShownNear setting world }
{}

/// Whoever waits for longer than what his clock and another show may differ knows that what the
/// other shows then is later than what his own showed before.
#[tactic(auto, using(crate::proofs::promised::AgreedShownProof::waited))]
pub fn stamps_in_order()
    ensures { (setting : Setting) (world : List Line) → Fits setting world → Waited setting world }
{}

/// A master that takes a QUIT of a peer, other than its own node, follows that peer at the end of
/// that step: `heeded` says so of the Quits that it puts, `taken` of the QUITs that it takes.
#[tactic(auto, using(crate::proofs::promised::ResolvedProof::yields, crate::proofs::promised::ResolvedProof::yields_taken))]
pub fn resolved_yields()
    ensures heeded { (setting : Setting) (world : List Line) → Fits setting world
        → Finished setting world → Yields world }
    ensures taken { (setting : Setting) (world : List Line) → Fits setting world
        → Finished setting world → YieldsTaken setting world }
{}

ghost use Rattle.tsp_promises.specs.Resolved.{BecomesAfter};
/// It comes to follow by a change of its role in that step, after the QUIT.
#[tactic(auto, using(crate::proofs::promised::ResolvedProof::becomes_after))]
pub fn resolved_becomes()
    ensures { BecomesAfter }
{}

/// After a QUIT a port isn't a master again for `ELECT_MIN` ticks, 300 s.
#[tactic(auto, using(crate::proofs::promised::ResolvedProof::stays_quiet))]
pub fn resolved_stays_quiet()
    ensures { (setting : Setting) (world : List Line) → Fits setting world → StaysQuiet world }
{}

/// A master that finds rivals sends each of them a QUIT, when its alarm Resolve rings. At the end
/// of the step in which the last rival takes its QUIT no rival is a master, if no datagram outlives
/// `LIFE`.
#[tactic(auto, using(crate::proofs::promised::StopsProof::stops_leading))]
pub fn resolved_stops()
    ensures { (setting : Setting) (world : List Line) → Fits setting world → Finished setting world
        → Life world → StopsLeading world }
{}

ghost use Rattle.tsp_promises.specs.OneWinner.{OneWinner};
/// In strict elections, where a candidate needs a majority, two wins of different nodes on one
/// network are more than 50 s apart, if no peer's datagram is forged, no datagram outlives `LIFE`,
/// and no port begins 32,768 sends with own numbers in one life of its node.
#[tactic(auto, using(crate::proofs::promised::OneWinnerProof::one_winner))]
pub fn one_winner()
    ensures { (setting : Setting) (world : List Line) → setting.strict ≡ true → Fits setting world
        → Honest world → Life world → Few world → OneWinner setting world }
{}

ghost use Rattle.tsp_base.specs.Ticks.{tick_at, width};
ghost use Rattle.tsp_promises.specs.Setting.{KeepsTime};
/// Over a span of true time a tick counter advances by that span, give or take its `width`: the
/// drift of that span, rounded up, and 1. Times are microseconds, rate and drift parts in a
/// million. Any counter that keeps the drift does so, and one that runs at a constant rate within
/// the drift keeps it.
pub fn ticks_keep_width()
    ensures any { (drift : ℕ) (tick : ℕ → ℕ) (start span : ℕ) → KeepsTime drift tick
        → (tick (start + span) ≤ tick start + span + width drift span)
        × (tick start + span ≤ tick (start + span) + width drift span) }
    ensures keeps { (rate : ℤ) (drift : ℕ) → nat_abs rate ≤ drift → drift ≤ 1000
        → KeepsTime drift (tick_at rate) }
    ensures constant { (rate : ℤ) (drift start span : ℕ) → nat_abs rate ≤ drift → drift ≤ 1000
        → (tick_at rate (start + span) ≤ tick_at rate start + span + width drift span)
        × (tick_at rate start + span ≤ tick_at rate (start + span) + width drift span) }
{}

ghost use Rattle.tsp_promises.specs.RoundUses.{OrdinaryUse};
/// No promise is empty: a history that fits and keeps the premises sees three nodes boot, one of
/// them win an election, the others take a SETTIME each and acknowledge it, and a whole round that
/// corrects both.
#[tactic(auto, using(crate::proofs::witness::WitnessUse::ordinary_use))]
pub fn ordinary_use()
    ensures { OrdinaryUse }
{}

ghost use Rattle.tsp_promises.specs.RoundUses.{Relays};
/// Nor are those of gateways: a history that fits sees a node of two ports that is corrected by one
/// of them and corrects a third node by the other.
#[tactic(auto, using(crate::proofs::witness::WitnessChain::relays))]
pub fn relayed_use()
    ensures { Relays }
{}

ghost use Rattle.tsp_promises.specs.RoundUses.{ChainUse};
/// Nor are those of chains: a history that fits sees a master correct a gateway, that one a second
/// one, and that one a last node.
#[tactic(auto, using(crate::proofs::witness::WitnessChain::chain_use))]
pub fn chain_use()
    ensures { ChainUse }
{}

ghost use Rattle.tsp_promises.specs.RoundUses.{RoundsUse};
/// Nor is the promise that a round's bound outlasts later Corrects, nor that rounds are apart: a
/// history that fits sees a second round of one life move both clocks of the first.
#[tactic(auto, using(crate::proofs::witness::WitnessRounds::rounds_use))]
pub fn rounds_use()
    ensures { RoundsUse }
{}

ghost use Rattle.tsp_promises.specs.RoundUses.{EndedUse, EstimatesUse};
/// Nor is what estimates say: a history that fits sees a round that estimates two nodes, which
/// nobody corrects until after its Close. Another one sees a Correct end a round that begins no
/// ADJTIME, for want of an ACK.
#[tactic(auto, using(crate::proofs::witness::WitnessRounds::estimates_use, crate::proofs::witness::WitnessRounds::ended_use))]
pub fn estimates_use()
    ensures begins { EstimatesUse }
    ensures ends { EndedUse }
{}

ghost use Rattle.tsp_promises.specs.RoundUses.{ModerateUse};
/// Nor is what is promised of a majority: a history that fits sees a round in which a master and a
/// peer agree, and another peer seems to be a second off. The first two are moved by 51 and 50
/// microseconds, the last one by a second.
#[tactic(auto, using(crate::proofs::witness::WitnessRounds::moderate_use))]
pub fn moderate_use()
    ensures { ModerateUse }
{}

ghost use Rattle.tsp_promises.specs.RoundUses.{SetUse};
/// Nor are those of first settings and of single corrections: a history that fits sees a clock set
/// by the answer to a SLAVEUP, and corrected by an ADJTIME that rests on a reading.
#[tactic(auto, using(crate::proofs::witness::WitnessUse::set_use))]
pub fn set_use()
    ensures { SetUse }
{}

ghost use Rattle.tsp_promises.specs.RoundUses.{ShownUse};
/// Nor are those of shown values: a history that fits sees a clock slewed until it meets its
/// target, and a wait that is long enough.
#[tactic(auto, using(crate::proofs::witness::WitnessUse::shown_use))]
pub fn shown_use()
    ensures { ShownUse }
{}

ghost use Rattle.tsp_promises.specs.RoundUses.{PrintsUse};
/// Nor is the promise of what a Correct prints: a history that fits sees a clock set, and slewed by
/// a later Correct of the same life.
#[tactic(auto, using(crate::proofs::witness::WitnessUse::prints_use))]
pub fn prints_use()
    ensures { PrintsUse }
{}

ghost use Rattle.tsp_promises.specs.Uses.{QuietUse};
/// Nor is the promise of silence after a boot: a history that fits sees a node answer in its quiet
/// time, the `QUIET` ticks after its boot.
#[tactic(auto, using(crate::proofs::witness::WitnessRivals::quiet_use))]
pub fn quiet_use()
    ensures { QuietUse }
{}

ghost use Rattle.tsp_promises.specs.Uses.{ThriceUse};
/// Nor is the promise of few posts: a history that fits sees a candidate ask a peer for its vote
/// three times.
#[tactic(auto, using(crate::proofs::witness::WitnessRivals::thrice_use))]
pub fn thrice_use()
    ensures { ThriceUse }
{}

ghost use Rattle.tsp_promises.specs.Uses.{AnsweredUse};
/// Nor is the promise of answers: a history that fits sees a port heed a QUIT, and a stranger
/// answered.
#[tactic(auto, using(crate::proofs::witness::WitnessRivals::answered_use))]
pub fn answered_use()
    ensures { AnsweredUse }
{}

ghost use Rattle.tsp_promises.specs.Uses.{RivalsMeet};
/// Nor are the promises of backings and of resolutions: a history that fits sees a node back two
/// candidates, and a rival take the QUIT of a resolution and be master again after `ELECT_MIN`.
#[tactic(auto, using(crate::proofs::witness::WitnessRivals::rivals_meet))]
pub fn rivals_meet()
    ensures { RivalsMeet }
{}

ghost use Rattle.tsp_promises.specs.Uses.{StrictElections};
/// Nor is the promise of strict elections empty: a history that fits sees two nodes win, one long
/// after the other.
#[tactic(auto, using(crate::proofs::witness::WitnessRivals::strict_elections))]
pub fn strict_elections()
    ensures { StrictElections }
{}

ghost use Rattle.tsp_promises.specs.Uses.{DateUse, ForgedDate};
/// A history that fits sees dates passed on and set, in two lives of a master. With forged octets
/// between, one date is set twice, so `once_taken` needs its premise.
#[tactic(auto, using(crate::proofs::witness::WitnessDates::date_use, crate::proofs::witness::WitnessDates::forged_date))]
pub fn dates_pass()
    ensures used { DateUse }
    ensures forged { ForgedDate }
{}

ghost use Rattle.tsp_promises.specs.Uses.{MeasuresWrongly, SameWords};
/// Two boots may have the same word: a history that fits sees a master boot again with its old word
/// and close a round in each of its lives, each of which corrects a node. If a datagram outlives
/// `LIFE` too, a measurement goes wrong, so `measured` needs one of the two premises.
#[tactic(auto, using(crate::proofs::witness::WitnessWords::same_words, crate::proofs::witness::WitnessWords::measures_wrongly))]
pub fn words_repeat()
    ensures used { SameWords }
    ensures late { MeasuresWrongly }
{}

ghost use Rattle.tsp_promises.specs.Uses.{LateReply};
/// A history that fits may bring a reply to a request of an earlier life. It ends no exchange, so a
/// Sample of it would break a promise.
#[tactic(auto, using(crate::proofs::witness::WitnessWords::late_reply))]
pub fn late_reply()
    ensures { LateReply }
{}

ghost use Rattle.tsp_promises.specs.Uses.{WanderUse};
/// Nothing asks that clocks are constant: a history that fits sees a counter gain on true time and
/// lose it again before a round, and its node boot again with a wall clock that was set an hour
/// ahead.
#[tactic(auto, using(crate::proofs::witness::WitnessClocks::wander_use))]
pub fn wander_use()
    ensures { WanderUse }
{}

ghost use Rattle.tsp_promises.specs.Broken.{AllBreak};
/// Nearly each promise says something: a small history breaks it.
#[tactic(auto, using(crate::proofs::witness::BrokenRounds::all_break))]
pub fn promises_can_be_broken()
    ensures { AllBreak }
{}
