//! The kinds of event.

/// The kinds of event, in the order of their octets (our own).
#[derive(Clone, Copy)]
pub enum EventKind {
    /// A new dialogue is asked for, 1.
    NewDialogue,
    /// TC-INVOKE request, 2.
    Invoke,
    /// TC-RESULT-L request, 3.
    ResultLast,
    /// TC-RESULT-NL request, 4.
    ResultMore,
    /// TC-U-ERROR request, 5.
    ErrorBack,
    /// TC-U-REJECT request, 6.
    Reject,
    /// TC-U-CANCEL request, 7.
    Cancel,
    /// TC-UNI request, 8.
    Uni,
    /// TC-BEGIN request, 9.
    Begin,
    /// TC-CONTINUE request, 10.
    Continue,
    /// TC-END request, 11.
    End,
    /// TC-U-ABORT request, 12.
    Abort,
    /// Bytes were received, 13.
    Bytes,
    /// A moment, 14.
    Moment,
}
