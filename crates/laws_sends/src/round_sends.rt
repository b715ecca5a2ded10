//! Laws of the sends of several sessions.
ghost use Rattle.laws_sends.specs.SeveralLaws.{InOrder, LanesAreSaid, PassageIsTold, ReroutingIsTold, SendersAreTold};
ghost use Rattle.laws_sends.specs.Waits.{UnharmedStays, WaitIsTold};

/// The lanes and the offers of some sessions are those of each, session after session.
pub fn sessions_are_in_order()
    ensures { InOrder }
{}

/// Paths and PathTears are sent sender after sender.
pub fn senders_are_told()
    ensures { SendersAreTold }
{}

/// The Resv of a lane, made from the last one that went there, is what the rule sends.
pub fn lanes_are_said()
    ensures { LanesAreSaid }
{}

/// After a wait the senders that are gone are torn, then the lanes of the sessions that changed; the sessions that came due
/// are refreshed, and Resvs go toward the hops of the sessions that changed or came due.
pub fn passage_is_told()
    ensures { PassageIsTold }
{}

/// With other routes than before, messages of all senders and all lanes are sent group by group.
pub fn rerouting_is_told()
    ensures { ReroutingIsTold }
{}

/// A session of which nothing dies is left alone by a wait.
pub fn unharmed_stays()
    ensures { UnharmedStays }
{}

/// What is sent after a wait: the tears of the senders whose paths died, the tears of the lanes of the sessions that changed,
/// the Paths of the sessions that came due, and the Resvs of the lanes of the sessions that changed or came due.
pub fn wait_is_told()
    ensures { WaitIsTold }
{}
