//! The state of an invocation (Q.774, Invocation state machine).

// Hints to inline: each step of an engine runs through it; docs/PERF.md says what the whole of it inlined gains.

ghost use Rattle.std.specs.Prelude.{◌≡◌};
ghost use Rattle.tcap_invocation.specs.Stage.{is_queued};
ghost use Rattle.tcap_invocation.specs.Lapses.{is_held, stays, due_deadline};

/// The latest moment of the clock and the longest timeout, in milliseconds: 2^62 (our own).
pub const MAX_MOMENT: u64 = 0x4000_0000_0000_0000;

/// How far an invocation is (Q.774, Invocation state machine; `Queued` is our own).
///
/// ```text
///         add, add_free           sent
///  (free) -------> Queued(timeout) -------> Sent(deadline)
///    ^               |                        |         |
///    |  give_up,     |   a Reject of it, a    |         | its last result
///    |  close_one,   |   result or an error   |         | or its error,
///    |  close_all    |   that the class       |         | if the class
///    |               |   doesn't have,        |         | has it
///    |               |   expire_first, lapse, |         |
///    |               |   lapse_one, give_up,  |         v
///    |               |   close_one, close_all |     Waiting(until)
///    |               |                        |         | free_wait,
///    |<--------------+                        |         | expire_first,
///    |<---------------------------------------+         | lapse, free_due,
///    |<-------------------------------------------------+ close_all
/// ```
///
/// A Return Result Not Last leaves it `Sent`. The identifier is in use in all three stages. An engine lets time pass by
/// `expire_first` alone.
#[derive(Clone, Copy, Debug, PartialEq, Eq)]
pub enum Stage {
    /// The Invoke waits for the next message; its timeout in milliseconds, 1 to 2^62.
    Queued(u64),
    /// The Invoke was sent; the moment at which it lapses, at most 2^63 (Operation Sent).
    Sent(u64),
    /// It was answered; its identifier stays in use up to this moment, at most 2^63 (Wait for Reject).
    Waiting(u64),
}

impl Stage {
    /// Whether the Invoke waits for the next message.
    pub(crate) fn is_queued(self) -> bool
        ensures { result ≡ is_queued self }
    {
        match self {
            Stage::Queued(_) => true,
            Stage::Sent(_) | Stage::Waiting(_) => false,
        }
    }

    /// The deadline, if it is at most the clock.
    #[inline(always)]
    pub(crate) fn due_deadline(self, clock: u64) -> Option<u64>
        ensures { result ≡ due_deadline clock self }
    {
        match self {
            Stage::Sent(deadline) if deadline <= clock => Some(deadline),
            Stage::Queued(_) | Stage::Sent(_) | Stage::Waiting(_) => None,
        }
    }

    /// Whether the identifier goes on waiting at the clock, or doesn't wait at all.
    #[inline(always)]
    pub(crate) fn is_held(self, clock: u64) -> bool
        ensures { result ≡ is_held clock self }
    {
        match self {
            Stage::Queued(_) | Stage::Sent(_) => true,
            Stage::Waiting(until) => clock < until,
        }
    }

    /// Whether neither the deadline nor the end of the wait has come at the clock.
    pub(crate) fn stays(self, clock: u64) -> bool
        ensures { result ≡ stays clock self }
    {
        match self {
            Stage::Queued(_) => true,
            Stage::Sent(deadline) => clock < deadline,
            Stage::Waiting(until) => clock < until,
        }
    }
}
