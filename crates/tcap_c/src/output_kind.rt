//! The kinds of outputs, by the names of Q.771.

ghost use Rattle.std.specs.Prelude.{◌≡◌};
ghost use Rattle.tcap_c.specs.Kinds.{kind_number, rejected_kind, remote_kind};
ghost use Rattle.tcap_primitives.specs.OutputViews.{rejector};

use tcap_primitives::By;

/// What an output is: a message that is sent, an indication primitive of TC (Q.771, Component handling; Q.771,
/// Dialogue handling), or what is our own. Its number is part of the product.
#[derive(Clone, Copy)]
pub(crate) enum OutputKind {
    /// A message that is sent: an N-UNITDATA request.
    Send = 1,
    /// TC-UNI.
    Uni = 2,
    /// TC-BEGIN.
    Begin = 3,
    /// TC-CONTINUE.
    Continue = 4,
    /// TC-END.
    End = 5,
    /// TC-U-ABORT.
    UserAbort = 6,
    /// TC-P-ABORT.
    ProviderAbort = 7,
    /// TC-INVOKE.
    Invoke = 8,
    /// TC-RESULT-L.
    ResultLast = 9,
    /// TC-RESULT-NL.
    ResultNotLast = 10,
    /// TC-U-ERROR.
    Error = 11,
    /// TC-L-CANCEL: the timer of an invocation ran out.
    Cancel = 12,
    /// The dialogue of an invocation is over (our own).
    Closed = 13,
    /// TC-L-REJECT.
    LocalReject = 14,
    /// TC-R-REJECT.
    RemoteReject = 15,
    /// TC-U-REJECT.
    UserReject = 16,
    /// A message was dropped (our own).
    Dropped = 17,
    /// A Reject from the peer that is told as one from here: no engine tells it. It has a kind of its own so that
    /// each output can be read back (our own).
    UntoldReject = 18,
}

impl OutputKind {
    /// Its number, 1 to 18.
    pub(crate) fn number(self) -> u8
        ensures { result ≡ kind_number self }
    {
        self as u8
    }

    /// The kind of a Reject that closes an invocation.
    pub(crate) fn of_rejected(by: By) -> OutputKind
        ensures { result ≡ rejected_kind (rejector by) }
    {
        match by {
            By::Local => OutputKind::LocalReject,
            By::RemoteProvider => OutputKind::RemoteReject,
            By::RemoteUser => OutputKind::UserReject,
        }
    }

    /// The kind of a Reject from the peer that closes none.
    pub(crate) fn of_remote_reject(by: By) -> OutputKind
        ensures { result ≡ remote_kind (rejector by) }
    {
        match by {
            By::Local => OutputKind::UntoldReject,
            By::RemoteProvider => OutputKind::RemoteReject,
            By::RemoteUser => OutputKind::UserReject,
        }
    }
}
