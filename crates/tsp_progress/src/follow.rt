//! Theorems about ports that follow a master, and how long they do. Nothing here runs.
ghost use Rattle.tsp_progress.specs.AgreesSoon.{ClockedRunsAgreeSoon, RunsAgreeSoon};
ghost use Rattle.tsp_progress.specs.ErrSoon.{ClockedRunsErrSoon, RunsErrSoon};
ghost use Rattle.tsp_progress.specs.FollowOn.{ClockedRunsFollowOn, RunsFollowOn};
ghost use Rattle.tsp_progress.specs.FollowUse.{FollowUse};
ghost use Rattle.tsp_progress.specs.MovedBy.{ClockedRunsMoveByMaster, RunsMoveByMaster};
ghost use Rattle.tsp_progress.specs.Obeyed.{ClockedRunsObey, RunsObey};
ghost use Rattle.tsp_progress.specs.ObeyedUse.{ObeyedUse};
ghost use Rattle.tsp_progress.specs.RolesLast.{ClockedRunsKeepRoles, RunsKeepRoles};
ghost use Rattle.tsp_progress.specs.TicketKept.{ClockedRunsKeepTicket, RunsKeepTicket};

/// A port that follows a master leaves it only at a boot, in a step that took a TEST, or when it
/// armed its Elect `ELECT_MIN`, 300 s, ago or longer; a master follows who sent it a QUIT, or
/// becomes Loose by a LOOP; and only a master sends a QUIT.
pub fn runs_keep_roles()
    ensures { RunsKeepRoles }
{}

/// So it is in a run by any clocks.
pub fn clocked_runs_keep_roles()
    ensures { ClockedRunsKeepRoles }
{}

/// Where all nodes of a network that stay have followed one master for 242 s and `long`, and
/// nothing comes from elsewhere, they follow it on, if datagrams are delivered within `long`, at
/// most 58 s, and each node is looked at within `SLACK`, 1 s.
pub fn runs_follow_on()
    ensures { RunsFollowOn }
{}

/// So it is in a run by any clocks.
pub fn clocked_runs_follow_on()
    ensures { ClockedRunsFollowOn }
{}

/// A run in which two nodes follow on, and runs in which one doesn't: its master's calls are
/// lost, nobody looks at its master, it boots, or a TEST comes from outside.
pub fn follow_use()
    ensures { FollowUse }
{}

/// In a network that follows its master, an ADJTIME that the master posts to a member that stays
/// reaches it within `long`; if the follower's clock may take it then, it is moved at once, and
/// both agree, within the error of the reading on which it rests, at most 4.5 s, and the drift
/// since.
pub fn runs_obey()
    ensures { RunsObey }
{}

/// So it is in a run by any clocks.
pub fn clocked_runs_obey()
    ensures { ClockedRunsObey }
{}

/// A reading whose request and reply are both taken within `long` has an error of at most `long`,
/// and half of what the clock drifts meanwhile.
pub fn runs_err_soon()
    ensures { RunsErrSoon }
{}

/// So it is in a run by any clocks.
pub fn clocked_runs_err_soon()
    ensures { ClockedRunsErrSoon }
{}

/// So any two clocks that one Close corrected differ by at most twice that and the drift since
/// the readings, as long as they are left alone; so do a follower's and its master's, by at most
/// that and the drift.
pub fn runs_agree_soon()
    ensures { RunsAgreeSoon }
{}

/// So it is in a run by any clocks.
pub fn clocked_runs_agree_soon()
    ensures { ClockedRunsAgreeSoon }
{}

/// A run in which a follower's clock takes what a round corrects it by, and ones in which it
/// doesn't: it took that before, or follows nobody; and samples whose datagrams take 10 ms, and
/// longer.
pub fn obeyed_use()
    ensures { ObeyedUse }
{}

/// In a network that follows its master, and is calm, a follower's clock is moved only by a
/// correction that its master posted at most `long` before, with the clock's ticket.
pub fn runs_move_by_master()
    ensures { RunsMoveByMaster }
{}

/// So it is in a run by any clocks.
pub fn clocked_runs_move_by_master()
    ensures { ClockedRunsMoveByMaster }
{}

/// So a follower's ticket stays while its master posts it no correction: where each that it posted
/// up to a place is older than `long` at an earlier place, the follower's clock isn't corrected
/// between.
pub fn runs_keep_ticket()
    ensures { RunsKeepTicket }
{}

/// So it is in a run by any clocks.
pub fn clocked_runs_keep_ticket()
    ensures { ClockedRunsKeepTicket }
{}
