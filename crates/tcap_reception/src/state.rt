//! The states of a dialogue (Q.774, Transaction state machine).

// Hints to inline: each step of an engine runs through it; docs/PERF.md says what the whole of it inlined gains.

ghost use Rattle.std.specs.Prelude.{◌≡◌};
ghost use Rattle.tcap_model.specs.Procedures.States.{has_peer, is_fresh};
ghost use Rattle.tcap_model.specs.Words.State.{State as model, activated, is_live, peer_by, peer_of};
ghost use Rattle.tcap_reception.specs.declared.state.After.TheVariants.{Open, Over};
ghost use Rattle.tcap_reception.specs.StateViews.{is_over, phase_view, state_of};

use tcap_pdu::TransId;

/// How far a dialogue is (Q.774, Transaction state machine). One that is over has no state.
///
/// ```text
///          begin              Continue
///  Fresh ---------> Sent -----------------> Active --+
///                                            ^  ^    | go_on, Continue
///          Begin               go_on         |  +----+
/// (none) ---------> Received ----------------+
///
/// It is over from
/// Fresh            by uni
/// Received         by a basic finish; by u_abort since the context is not supported, if the Begin had an AARQ
/// Active           by a basic finish
/// Sent and Active  by an End, an Abort, a faulty message, an abnormal dialogue portion, the idle limit
/// each             by a prearranged finish, by u_abort of the user
/// ```
///
/// Each event is a method of `Phase`, which says by `After` whether the dialogue is over; but for the idle limit and a
/// faulty message that names it in an engine, by which it is, whatever its state.
#[derive(Clone, Copy, Debug, PartialEq, Eq)]
pub enum State {
    /// No message was sent or received: Idle.
    Fresh,
    /// The Begin was sent and isn't answered: Initiation Sent.
    Sent,
    /// A Begin was received and isn't answered: Initiation Received.
    Received,
    /// Both sides were heard: Active.
    Active,
}

/// The state, with the peer's transaction identifier where it is known.
#[derive(Debug, Drop)]
pub enum Phase {
    /// No message was sent or received: Idle.
    Fresh,
    /// Initiation Sent.
    Sent,
    /// Initiation Received, with the identifier of the Begin.
    Received(TransId),
    /// Active, with the identifier of the first message of the peer.
    Active(TransId),
}

/// What a dialogue is after an event.
#[derive(Clone, Copy, Debug, PartialEq, Eq)]
pub enum After {
    /// It stands, in the state that it has then.
    Open,
    /// It is over, and has no state any more.
    Over,
}

impl After {
    /// Whether the dialogue is over.
    #[inline(always)]
    pub fn is_over(self) -> bool
        ensures { result ≡ is_over self }
    {
        match self {
            After::Open => false,
            After::Over => true,
        }
    }
}

// The events, in the order of the diagram: each says what the dialogue is after it. Whether the event may come in the
// state is judged before.
impl Phase {
    /// TC-BEGIN request: the Begin goes out.
    #[inline(always)]
    pub fn send_begin(&mut self) -> After
        ensures state { phase_view self.new ≡ model.sent }
        ensures after { result ≡ Open }
    {
        *self = Phase::Sent;
        After::Open
    }

    /// A Begin, which creates the dialogue.
    #[inline(always)]
    pub fn receive_begin(&mut self, origin: &TransId) -> After
        ensures state { phase_view self.new ≡ model.received origin.now }
        ensures after { result ≡ Open }
    {
        *self = Phase::Received(origin.copied());
        After::Open
    }

    /// TC-CONTINUE request: the first answer makes the dialogue Active.
    #[inline(always)]
    pub fn send_continue(&mut self) -> After
        ensures state { phase_view self.new ≡ activated (phase_view self.old) }
        ensures after { result ≡ Open }
    {
        if let Phase::Received(peer) = self {
            *self = Phase::Active(peer.copied());
        }
        After::Open
    }

    /// A Continue: the peer that is known stays (Q.774, Transaction state machine).
    #[inline(always)]
    pub fn receive_continue(&mut self, origin: &TransId) -> After
        ensures state { phase_view self.new ≡ model.active (peer_by (phase_view self.old) origin.now) }
        ensures after { result ≡ Open }
    {
        match self {
            Phase::Fresh | Phase::Sent => *self = Phase::Active(origin.copied()),
            Phase::Received(peer) => *self = Phase::Active(peer.copied()),
            Phase::Active(_) => {}
        }
        After::Open
    }

    /// TC-UNI request: the dialogue was there for it alone.
    #[inline(always)]
    pub fn send_uni(&self) -> After
        ensures { result ≡ Over }
    {
        After::Over
    }

    /// TC-END request, basic or prearranged.
    #[inline(always)]
    pub fn send_end(&self) -> After
        ensures { result ≡ Over }
    {
        After::Over
    }

    /// TC-U-ABORT request.
    #[inline(always)]
    pub fn send_abort(&self) -> After
        ensures { result ≡ Over }
    {
        After::Over
    }

    /// An End.
    #[inline(always)]
    pub fn receive_end(&self) -> After
        ensures { result ≡ Over }
    {
        After::Over
    }

    /// An Abort.
    #[inline(always)]
    pub fn receive_abort(&self) -> After
        ensures { result ≡ Over }
    {
        After::Over
    }

    /// The provider here aborts: a faulty message, an abnormal dialogue portion.
    #[inline(always)]
    pub fn abort(&self) -> After
        ensures { result ≡ Over }
    {
        After::Over
    }
}

impl Phase {
    /// The state.
    pub fn state(&self) -> State
        ensures { result ≡ state_of (phase_view self.now) }
    {
        match self {
            Phase::Fresh => State::Fresh,
            Phase::Sent => State::Sent,
            Phase::Received(_) => State::Received,
            Phase::Active(_) => State::Active,
        }
    }

    /// Whether messages to the dialogue are taken.
    #[inline(always)]
    pub fn is_live(&self) -> bool
        ensures { result ≡ is_live (phase_view self.now) }
    {
        match self {
            Phase::Fresh | Phase::Received(_) => false,
            Phase::Sent | Phase::Active(_) => true,
        }
    }

    /// The peer's transaction identifier, once it is known.
    pub fn peer(&self) -> Option<TransId>
        ensures { result ≡ peer_of (phase_view self.now) }
    {
        match self {
            Phase::Fresh | Phase::Sent => None,
            Phase::Received(peer) | Phase::Active(peer) => Some(peer.copied()),
        }
    }

    /// Whether no message was sent or received.
    #[inline(always)]
    pub fn is_fresh(&self) -> bool
        ensures { result ≡ is_fresh (phase_view self.now) }
    {
        match self {
            Phase::Fresh => true,
            Phase::Sent | Phase::Received(_) | Phase::Active(_) => false,
        }
    }

    /// Whether a message of the peer was received, so that there is something to answer.
    #[inline(always)]
    pub fn has_peer(&self) -> bool
        ensures { result ≡ has_peer (phase_view self.now) }
    {
        match self {
            Phase::Fresh | Phase::Sent => false,
            Phase::Received(_) | Phase::Active(_) => true,
        }
    }

    /// The peer of a Continue: the one known, or else its originator (Q.774, Transaction state machine).
    #[inline(always)]
    pub fn peer_or<'a>(&'a self, origin: &'a TransId) -> &'a TransId
        ensures { result.now ≡ peer_by (phase_view self.now) origin.now }
    {
        match self {
            Phase::Fresh | Phase::Sent => origin,
            Phase::Received(peer) | Phase::Active(peer) => peer,
        }
    }
}
