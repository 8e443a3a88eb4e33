//! What happens in runs, and by when, if each node is looked at in time. Nothing here runs: each
//! function's contract is a theorem.
//!
//! Promises say what never happens. These theorems say that something does: a send ends, a
//! candidate becomes master or Loose, a node that hears nothing leads. That can't be said of every
//! run, since a node does nothing while nobody looks at its timers. So each asks that the run is
//! *attended*: at each step of a node, none of its alarms and open sends is overdue by more than
//! `late` ticks. Most ask that `late` is at most `SLACK`, 1 s.
//!
//! A run is finite. That something happens within a time is said so: wherever a step of a node
//! begins, nothing is open there that is older. The same is said of a node after the whole run, if
//! it is *told* up to a true time: if the node was watched until then.
//!
//! - A message *stirs* if it is an ADJTIME, SETTIME, ELECTION, MASTERUP, MASTERACK, QUIT, REFUSE,
//!   TEST or LOOP. *News* of a port are its node's boot, a message that stirs, and that it stands
//!   for election. A *word* is a boot or such a message.
//! - A port is *woken* if it has the alarm armed that ends its role or lets it go on, and if each
//!   act on an alarm came in its time, after what it needs, and was followed at once by what it
//!   asks for.
//! - The *manner* of a node says whether it may be master, and whether its elections are strict.
//!
//! - A port *heeds* a message if it does at once what its role asks for.
//! - Datagrams are *delivered* if what a node posts to another member of its network that stays is
//!   taken within `long` microseconds of true time.
//!
//! Read `specs/` in this order: `Watched` (what is asked), `SendsEnd`, `AlarmsFit`, `CausesFit` and
//! `Wakes` (what every run has armed), `RunsWake`, `InTime`, `RoundsRecur`, `NeverLate`, `Stands`,
//! `AloneStands`, `AloneLeads`, `FreshLeads`, `LoneLeads`, `OneMay`, and `Progress`, which puts
//! most of them together; then `Worked`, `Needed` and `OneUse`, small runs. Of what is done at once
//! read `ByTable`, `Heeds`, `Measures` and `Corrects`; of two nodes `Delivered`, `ReachesInTime`,
//! `AnswersInTime`, `FoundInTime`, `FirstSearch`, `SentAway`, `Obedient`, `GivenUp`, `AckedInTime`
//! and `SampledInTime`; then `TableUse`, `AnswersUse`, `ReachUse`, `FoundUse`, `FirstSearchUse`,
//! `SentAwayUse`, `AckedUse`, `MeanwhileUse` and `SampledUse`, small runs. Of elections read
//! `WinsLate`, `Decided`, `RefusedLoses`, `NoSecondMaster`, `AsksAll`, `OneAtATime`,
//! `WinsUnopposed` and `LoneWins`; then `RefusedUse`, `SecondUse`, `ElectUse` and `WinUse`. Of
//! masters that find each other read `Resolving`, `MastersTell`, `RivalsFound`, `RivalsQuit`,
//! `OneStops`, `NoneBeside` and `OneLeft`; then `RivalsUse`, `RivalsStay`, `LeadOnUse` and
//! `OneLeftUse`. Of a network that follows one master read `RolesLast`, `FollowOn`, `Obeyed`,
//! `MovedBy`, `TicketKept`, `ErrSoon` and `AgreesSoon`; then `FollowUse` and `ObeyedUse`. Of a
//! network that gets one read `OneWire`, `Motives` and `Headless`, then `HeadlessUse`; of how all
//! come to follow it `Calling`, `Gather`, `LeadOnly`, `LeadFrom` and `Settles`, then `GatherUse`. Of
//! the slaves of a master read `TableKept`, `ReportsSoon`, `NoDate`, `CorrectsApart`, `StaysIn` and
//! `SettlesTable`, then `MembersUse`; of clocks at each time `OnePort`, `InTable`, `LateClose`,
//! `MeasuresTable`, `SlewsTable`, `TakesRounds`, `AgreesOn`, `AgreesAlways`, `AgreesMeanwhile` and
//! `AgreesFrom`, then `AgreeUse` and `TwoRoundsUse`. The words of histories are those of
//! `tsp_promises`.
//!
//! # What is proved
//!
//! In parentheses are the contracts, clauses and definitions that say it.
//!
//! - In every run each port is woken, wherever a step of its node begins and at the end, whatever
//!   octets come and whenever, at gateways too (`runs_wake`), and by any clocks
//!   (`clocked_runs_wake`).
//! - In an attended history that fits no numbered send is open longer than 3 s and `late`
//!   (`sends_end`, `sends_ended`).
//! - In an attended history of woken ports the quiet time ends after 80 s, a candidature after 5 s,
//!   a round after 8 s, a resolution and a search after 5 s, a master's Round comes after 240 s, a
//!   follower that doesn't hear its master waits for at most 600 s, each time and `late`
//!   (`all_in_time`, `ends_in_time`).
//! - If `late` is at most `SLACK`, a master won or began a round at most 240 s and `late` ago, or
//!   waits for another port's at most 20 s and `late` (`rounds_recur`).
//! - If `late` is at most `SLACK`, no alarm is handled late (`never_late`).
//! - When Elect rings, a node that may be master and took no QUIT in the last 300 s stands for
//!   election at once (`stands`).
//! - If `late` is at most `SLACK`, such a node is Loose or follows for at most 1,210 s and four
//!   times `late` after its news (`alone_stands`), and, where elections aren't strict, isn't master
//!   for at most 1,215 s and five times `late` after its last word (`alone_leads`), or for at most
//!   690 s and four times `late` after its boot, if that was its last word (`fresh_leads`).
//! - So where nobody posts a message that stirs to such a node, and no octets come to it from
//!   outside, it leads within 690 s and four times `late` after each of its boots (`lone_leads`),
//!   at the end of the history, too, if that is told so far (`lone_led`).
//! - So where one node alone may be master, it leads within that time after each of its boots: the
//!   others post nothing that stirs but LOOPs (`one_leads`, `one_leads_run`).
//! - All of this holds of the run of each possible schedule that is attended (`runs_progress`), and
//!   of each possible run by any clocks (`clocked_runs_progress`).
//! - In every run a port does at once what the table of rows has for an alarm that goes off, and
//!   for a datagram that it takes (`runs_by_table`, `clocked_runs_by_table`).
//! - So a port without a master follows who says that it is one, and who sends it away; it votes,
//!   answers, takes in slaves, obeys its master and ends its sends (`all_heed`). It answers a stamp
//!   request, and a master takes a sample from a reply (`all_measure`). A close moves the own
//!   clock, where its port leads it, and then corrects each measured peer, and at the end of a
//!   resolution a QUIT begins to each rival (`all_correct`).
//! - Where datagrams are delivered within `long`, what is asked of a node is answered, and the
//!   answer taken, within twice `long`: stamp requests, searches, questions for rivals, QUITs, and
//!   ELECTIONs to another candidate (`runs_answer`, `clocked_runs_answer`).
//! - So a port that searches beside a master follows it within that time, if that is less than 5 s
//!   and its role didn't change before (`runs_find`, `clocked_runs_find`). A candidate that asks a
//!   master for its vote is sent away, and follows it, and a QUIT is acknowledged
//!   (`runs_send_away`, `clocked_runs_send_away`).
//! - A port whose quiet time ends beside a master asks for one in the same step, and so finds it
//!   (`runs_find_first`, `clocked_runs_find_first`). Within `long` a MASTERUP or a QUIT reaches its
//!   addressee, which follows the sender if it is Loose or a candidate then, a SLAVEUP reaches a
//!   master, which takes its sender in, and a correction a follower, which moves its clock if it
//!   may (`runs_reach`, `clocked_runs_reach`).
//! - In every run no send is given up before it is 3 s old (`runs_give_up`,
//!   `clocked_runs_give_up`). So a QUIT, a CONFLICT, a correction and an ELECTION whose addressee
//!   acts on it end within twice `long`, if that is less than 3 s, and are never given up
//!   (`runs_acknowledge`, `clocked_runs_acknowledge`).
//! - In every possible run no candidate wins before 5 s after it stood (`runs_win_late`,
//!   `clocked_runs_win_late`). So one that is refused in time doesn't win, unless its send to who
//!   refuses ended otherwise before (`runs_refuse`, `clocked_runs_refuse`); nor does one that asks
//!   a master for its vote, if no QUIT to it is open yet (`runs_lead_alone`,
//!   `clocked_runs_lead_alone`). An ELECTION is acknowledged only by an ACCEPT or a REFUSE of its
//!   addressee with its number (`runs_decide`, `clocked_runs_decide`).
//! - Who stands for election backs itself, and asks each other member of its network for its vote,
//!   in the same step (`runs_ask`, `clocked_runs_ask`).
//! - Of two candidatures of different nodes in one network that begin near each other the later one
//!   loses, in elections that aren't strict too: from the earlier one until twice `long` after the
//!   later one it is less than `HOLD`, 60 s (`runs_elect_one`, `clocked_runs_elect_one`).
//! - A candidate that no peer refuses or sends away wins when its `WINDOW` ends, 5 s and `late`
//!   after it stood, where elections aren't strict (`runs_win`, `clocked_runs_win`); so does one
//!   that whoever takes its question may back, if no master says anything to it (`runs_win_alone`,
//!   `clocked_runs_win_alone`).
//! - Each peer that is measured has a sample when its round closes, if twice `long` is less than 8
//!   s (`runs_sample`, `clocked_runs_sample`).
//! - A master whose node has one port tells each other member within 240 s and `late` of each tick
//!   that it is master (`runs_tell`, `clocked_runs_tell`). A master that hears so looks for
//!   rivals, unless it does so already (`all_resolve`); whoever does has asked each other peer
//!   since it began (`runs_ask_rivals`, `clocked_runs_ask_rivals`), and knows who answers as a
//!   rival before its Resolve is due, if twice `long` is less than 5 s (`runs_find_rivals`,
//!   `clocked_runs_find_rivals`). It sends each one away at most `late` after that
//!   (`runs_quit_rivals`, `clocked_runs_quit_rivals`), which then follows it (`runs_stop_by_quit`,
//!   `clocked_runs_stop_by_quit`). So of two such masters on one network one stops within 250 s,
//!   three times `late`, twice `long` and 3 microseconds, with what the drift adds
//!   (`runs_leave_one`, `clocked_runs_leave_one`). Beside a master that leads on no candidate wins
//!   that asks it for its vote, also if a QUIT to it is open (`runs_lead_on`,
//!   `clocked_runs_lead_on`). So of two such nodes on one network at most one is master from 20 s
//!   later on (`runs_have_one_left`, `clocked_runs_have_one_left`).
//! - In every possible run a port leaves the master that it follows only at a boot, in a step that
//!   took a TEST, or when it armed its Elect 300 s ago or longer; a master stops only at a boot, by
//!   a QUIT or by a LOOP, and only masters send QUITs (`runs_keep_roles`,
//!   `clocked_runs_keep_roles`).
//! - So where all nodes of a network that stay have followed one master for 242 s and `long`, and
//!   nothing comes from elsewhere, they follow it on (`runs_follow_on`, `clocked_runs_follow_on`).
//! - In such a network an ADJTIME of the master reaches each member that stays within `long`; where
//!   its clock may take it, it is moved at once (`runs_obey`, `clocked_runs_obey`), and nothing
//!   else moves it (`runs_move_by_master`, `clocked_runs_move_by_master`), so that its ticket stays
//!   meanwhile (`runs_keep_ticket`, `clocked_runs_keep_ticket`). A reading whose datagrams take at
//!   most `long` has an error of at most `long`, and half of what the clock drifts meanwhile
//!   (`runs_err_soon`, `clocked_runs_err_soon`). So two clocks that one Close corrected differ by
//!   at most twice that, and the drift since, as long as they are left alone (`runs_agree_soon`,
//!   `clocked_runs_agree_soon`).
//! - In every run ports back, wait, search, stand and call only for what asks for it
//!   (`runs_have_motives`, `clocked_runs_have_motives`, `runs_call`, `clocked_runs_call`). So a
//!   network of nodes with one port each, in which one node waits less than the others, isn't
//!   without a master for longer than 360 s, three times that wait and eight times `long`, in
//!   elections that aren't strict (`runs_get_master`, `clocked_runs_get_master`), nor after all have
//!   booted for 90 s longer (`runs_get_master_soon`, `clocked_runs_get_master_soon`).
//! - All that stay come to follow the one that leads alone, 484 s and three times `long` later,
//!   and 609 s and `long` more for each of them (`runs_gather`, `clocked_runs_gather`). Who
//!   leads alone for longer than `long`, or is master where no other node has been for so long,
//!   does so from then on (`runs_lead_only`, `clocked_runs_lead_only`, `runs_lead_from_win`,
//!   `clocked_runs_lead_from_win`), and so all come to follow it (`runs_come_to_leader`,
//!   `clocked_runs_come_to_leader`, `runs_come_to_winner`, `clocked_runs_come_to_winner`). So
//!   the network settles, in elections that aren't strict: one of its nodes leads, and all
//!   others that stay follow it, for ever (`runs_settle`, `clocked_runs_settle`).
//! - In every run a slave leaves its master's table for three reasons alone, and joins it by its
//!   report (`runs_leave`, `clocked_runs_leave`). Each follower is in the table within 242 s and
//!   twice `long` of each time (`runs_report`, `clocked_runs_report`). In a calm network nobody takes
//!   a date (`runs_take_no_date`, `clocked_runs_take_no_date`), corrections to one follower begin 8 s
//!   apart (`runs_correct_apart`, `clocked_runs_correct_apart`), and no follower leaves the table
//!   (`runs_stay_member`, `clocked_runs_stay_member`), so that all are in it for ever, from 282 s
//!   and twice `long` on (`runs_settle_table`, `clocked_runs_settle_table`).
//! - A node with one port does everything there (`runs_use_one_port`, `clocked_runs_use_one_port`).
//!   So where all are in the table each Close has a sample of each (`runs_measure_table`,
//!   `clocked_runs_measure_table`), posts an ADJTIME to each (`runs_slew_table`,
//!   `clocked_runs_slew_table`), and each takes it and is left alone until the next
//!   (`runs_take_rounds`, `clocked_runs_take_rounds`). So all clocks agree from `long` after a Close
//!   until the next one (`runs_agree_until_next`, `clocked_runs_agree_until_next`), at each time
//!   except for `long` after each Close (`runs_agree_always`, `clocked_runs_agree_always`), and, less
//!   closely, without that exception (`runs_agree_meanwhile`, `clocked_runs_agree_meanwhile`); and
//!   so from some time on whoever was in the table before (`runs_agree_from`,
//!   `clocked_runs_agree_from`).
//! - It says something: a worked run (`prompt_use`), one that leads one tick before the bound
//!   (`slow_use`), runs that are looked at one tick too late (`late_use`), histories without each
//!   premise (`needed`), a run in which a second node may be master, and leads (`one_use`), one in
//!   which a node finds its master and is set (`table_use`), with datagrams that are delivered in
//!   time (`answers_use`), and others without that (`answers_use`, `found_use`), one in which a
//!   candidate is sent away (`sent_away_use`), one in which a quiet time ends beside a master and
//!   one in which nobody leads (`first_search_use`), one in which a report reaches a master and one
//!   in which it is lost (`reach_use`), one in which a correction is acknowledged and three in
//!   which one is given up (`acked_use`), runs in which nobody is up to answer (`meanwhile_use`),
//!   two candidates at once that lose, and two that both win since datagrams take too long
//!   (`refused_use`), candidates beside a master that lose and that win (`second_use`), two
//!   candidates at once of which the later one loses, and five runs in which it wins (`elect_use`),
//!   a candidate that nobody opposes, and three that don't win (`win_use`), rounds in which a slave
//!   has samples and in which it has none (`sampled_use`), two masters of which one stops
//!   (`rivals_use`), and two that stay (`rivals_stay`), a candidate that is sent away already
//!   (`lead_on_use`), two nodes of which one is left, and two of which both are (`one_left_use`), a
//!   network that follows its master on, and ones that don't (`follow_use`), corrections that are
//!   taken, and that aren't (`obeyed_use`), a network that gets a master, and ones that don't
//!   (`headless_use`), a follower of a node that is gone that comes to the one that leads, and one
//!   that doesn't (`gather_use`), a follower that stays in its master's table, and ones that leave
//!   (`members_use`), and clocks that agree, and that don't (`agree_use`, `two_rounds_use`).
//!
//! It isn't proved that a network gets a master in strict elections, or if two nodes wait equally
//! long; nor that networks with gateways get one, follow it and agree.
#![tactic(auto)]

pub mod agree;
pub mod delivered;
pub mod elections;
pub mod follow;
pub mod gather;
pub mod headless;
pub mod laws;
pub mod members;
pub mod rivals;
pub mod table;
