//! Theorems about two nodes whose datagrams are delivered in time. Nothing here runs.
ghost use Rattle.tsp_progress.specs.AckedInTime.{ClockedRunsAcknowledge, RunsAcknowledge};
ghost use Rattle.tsp_progress.specs.AckedUse.{AckedUse};
ghost use Rattle.tsp_progress.specs.AnswersInTime.{ClockedRunsAnswer, RunsAnswer};
ghost use Rattle.tsp_progress.specs.AnswersUse.{AnswersUse};
ghost use Rattle.tsp_progress.specs.Decided.{ClockedRunsDecide, RunsDecide};
ghost use Rattle.tsp_progress.specs.FirstSearch.{ClockedRunsFindFirst, RunsFindFirst};
ghost use Rattle.tsp_progress.specs.FirstSearchUse.{FirstSearchUse};
ghost use Rattle.tsp_progress.specs.FoundInTime.{ClockedRunsFind, RunsFind};
ghost use Rattle.tsp_progress.specs.FoundUse.{FoundUse};
ghost use Rattle.tsp_progress.specs.GivenUp.{ClockedRunsGiveUpLate, RunsGiveUpLate};
ghost use Rattle.tsp_progress.specs.MeanwhileUse.{MeanwhileUse};
ghost use Rattle.tsp_progress.specs.NoSecondMaster.{ClockedRunsLeadAlone, RunsLeadAlone};
ghost use Rattle.tsp_progress.specs.ReachUse.{ReachUse};
ghost use Rattle.tsp_progress.specs.ReachesInTime.{ClockedRunsReach, RunsReach};
ghost use Rattle.tsp_progress.specs.RefusedLoses.{ClockedRunsRefuse, RunsRefuse};
ghost use Rattle.tsp_progress.specs.RefusedUse.{RefusedUse};
ghost use Rattle.tsp_progress.specs.SampledInTime.{ClockedRunsSample, RunsSample};
ghost use Rattle.tsp_progress.specs.SampledUse.{SampledUse};
ghost use Rattle.tsp_progress.specs.SecondUse.{SecondUse};
ghost use Rattle.tsp_progress.specs.SentAway.{ClockedRunsSendAway, RunsSendAway};
ghost use Rattle.tsp_progress.specs.SentAwayUse.{SentAwayUse};
ghost use Rattle.tsp_progress.specs.WinsLate.{ClockedRunsWinLate, RunsWinLate};

/// Where datagrams are delivered in time, what is asked of a node is answered, and the answer is
/// taken, within twice that time: stamp requests, searches for a master, questions for rivals,
/// QUITs, and ELECTIONs to another candidate.
pub fn runs_answer()
    ensures { RunsAnswer }
{}

/// So it is in a run by any clocks.
pub fn clocked_runs_answer()
    ensures { ClockedRunsAnswer }
{}

/// A run in which datagrams are delivered in time, and a search is answered; and one in which the
/// question is lost, and isn't.
pub fn answers_use()
    ensures { AnswersUse }
{}

/// Runs in which a QUIT and an ELECTION come to a node that boots before, and aren't answered.
pub fn meanwhile_use()
    ensures { MeanwhileUse }
{}

/// What a node is told reaches it in time: a MASTERUP or a QUIT, whose sender it follows if it is
/// Loose or a candidate then, a SLAVEUP, whose sender a master takes in, and its master's correction,
/// which moves its clock if it may take it then.
pub fn runs_reach()
    ensures { RunsReach }
{}

/// So it is in a run by any clocks.
pub fn clocked_runs_reach()
    ensures { ClockedRunsReach }
{}

/// A run in which a report reaches a master in time, and one in which it is lost.
pub fn reach_use()
    ensures { ReachUse }
{}

/// Where datagrams are delivered in time, and twice that time is less than `WINDOW`, 5 s, a port
/// that searches beside a master hears of it in time, and follows it, unless its role changed
/// before.
pub fn runs_find()
    ensures { RunsFind }
{}

/// So it is in a run by any clocks.
pub fn clocked_runs_find()
    ensures { ClockedRunsFind }
{}

/// A run in which a search finds its master, and one in which datagrams take 2.6 s, so that it
/// doesn't.
pub fn found_use()
    ensures { FoundUse }
{}

/// So does a port whose quiet time ends beside a master: it asks for one in the same step.
pub fn runs_find_first()
    ensures { RunsFindFirst }
{}

/// So it is in a run by any clocks.
pub fn clocked_runs_find_first()
    ensures { ClockedRunsFindFirst }
{}

/// A run in which it does, and one in which nobody leads, so that it isn't answered.
pub fn first_search_use()
    ensures { FirstSearchUse }
{}

/// Where datagrams are delivered in time, a candidate that asks a master for its vote is sent away
/// in time, and then follows it, if it is Loose or a candidate; and a QUIT is acknowledged in time.
pub fn runs_send_away()
    ensures { RunsSendAway }
{}

/// So it is in a run by any clocks.
pub fn clocked_runs_send_away()
    ensures { ClockedRunsSendAway }
{}

/// A run in which a candidate asks a master for its vote, and is sent away.
pub fn sent_away_use()
    ensures { SentAwayUse }
{}

/// A send that is given up was open for `TRIES` times `RETRY`, 3 s, at least.
pub fn runs_give_up()
    ensures { RunsGiveUpLate }
{}

/// So it is in a run by any clocks.
pub fn clocked_runs_give_up()
    ensures { ClockedRunsGiveUpLate }
{}

/// A candidate wins no sooner than `WINDOW`, 5 s, after it stood for election.
pub fn runs_win_late()
    ensures { RunsWinLate }
{}

/// So it is in a run by any clocks.
pub fn clocked_runs_win_late()
    ensures { ClockedRunsWinLate }
{}

/// Where datagrams are delivered in time, and twice that time is less than `TRIES` times `RETRY`, 3
/// s, a numbered send is acknowledged in time if its addressee acts on it, and is never given up.
pub fn runs_acknowledge()
    ensures { RunsAcknowledge }
{}

/// So it is in a run by any clocks.
pub fn clocked_runs_acknowledge()
    ensures { ClockedRunsAcknowledge }
{}

/// A run in which a correction is acknowledged in time, and runs in which one is given up: datagrams
/// take 1.6 s, or the answer is lost, or the addressee may not take it.
pub fn acked_use()
    ensures { AckedUse }
{}

/// So a candidate whose vote is refused in time doesn't win, unless its send to who refuses ended
/// otherwise before.
pub fn runs_refuse()
    ensures { RunsRefuse }
{}

/// So it is in a run by any clocks.
pub fn clocked_runs_refuse()
    ensures { ClockedRunsRefuse }
{}

/// A candidate's send to a peer ends by an ACCEPT or a REFUSE of that peer with its number, if it is
/// acknowledged.
pub fn runs_decide()
    ensures { RunsDecide }
{}

/// So it is in a run by any clocks.
pub fn clocked_runs_decide()
    ensures { ClockedRunsDecide }
{}

/// And beside a master no candidate wins, if twice that time is less than `WINDOW`, 5 s, and no QUIT
/// to it is open yet.
pub fn runs_lead_alone()
    ensures { RunsLeadAlone }
{}

/// So it is in a run by any clocks.
pub fn clocked_runs_lead_alone()
    ensures { ClockedRunsLeadAlone }
{}

/// A candidate beside a master that is sent away in time, and two that aren't, and are master, too.
pub fn second_use()
    ensures { SecondUse }
{}

/// Two candidates at once, which are both refused in time and lose, two whose refusals take 1.6 s, so
/// that both win, and one that gets the other node's vote.
pub fn refused_use()
    ensures { RefusedUse }
{}

/// Where datagrams are delivered in time, and twice that time is less than `CLOSE`, 8 s, each peer
/// that is measured has a sample when its round closes, if its clock is in its range.
pub fn runs_sample()
    ensures { RunsSample }
{}

/// So it is in a run by any clocks.
pub fn clocked_runs_sample()
    ensures { ClockedRunsSample }
{}

/// A round in which a peer is measured and answers in time, and two in which its answers are lost or
/// late, so that it leaves.
pub fn sampled_use()
    ensures { SampledUse }
{}
