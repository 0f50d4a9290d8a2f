//! Each request's row of faults: for two neighbours in it that can hold together one request where both
//! do, and the first is answered. Left out are these, which never hold together on one dialogue.
//!
//! - "No such dialogue" and the next: it is judged before there is a dialogue.
//! - The limit of a queue or of a message, and `OutOfMemory`: a definition takes no memory.
//! - "No context" and the limit of a message, of all requests but TC-UNI, whose row has another fault
//!   between them: what is refused since nothing carries it isn't part of the message, and without it
//!   the message has the queue, of at most 60,000 octets, and two identifiers.
#![tactic(auto, unfolding(crate::specs::Computing::computing))]

ghost use Rattle.std.specs.Prelude.{pos, [], ◌++◌, replicate, Some, None};
ghost use Rattle.tcap_invocation.specs.declared.class.Class.TheVariants.{One};
ghost use Rattle.tcap_examples.specs.Values.DialogueValues.{context, bad_code, bad_parameter, code, body, long_parameter, long_bad_parameter, shown_begin, begin_with_aarq, of_result, active, one_queued, full_queue};
ghost use Rattle.tcap_model.specs.Words.Fault.{Fault};
ghost use Rattle.tcap_examples.specs.Values.Hex.{hex};
ghost use Rattle.tcap_model.specs.Words.Request.{Ending, AbortReason};
ghost use Rattle.tcap_examples.specs.Dialogues.Played.{opened, begun_from};
ghost use Rattle.tcap_examples.specs.Dialogues.Refused.{with_numbers_spent, FirstOf};
ghost use Rattle.tcap_examples.specs.Values.Asked as asks;

/// TC-INVOKE: the timeout, the code, the parameter, the identifier, the number, the queue's limit.
pub fn faults_of_an_invoke()
    ensures timeout { FirstOf opened (asks.invoke (pos 1) One bad_code None None 0) Fault.bad_timeout Fault.bad_oid }
    ensures code { FirstOf opened (asks.invoke (pos 1) One bad_code bad_parameter None 1000) Fault.bad_oid
        Fault.bad_parameter }
    ensures parameter { FirstOf one_queued (asks.invoke (pos 1) One (code 10) bad_parameter None 1000)
        Fault.bad_parameter Fault.invoke_id_in_use }
    ensures identifier { FirstOf (with_numbers_spent one_queued) (asks.invoke (pos 1) One (code 10) None None 1000)
        Fault.invoke_id_in_use Fault.numbers_spent }
    ensures number { FirstOf (with_numbers_spent opened) (asks.invoke (pos 1) One (code 10) long_parameter None 1000)
        Fault.numbers_spent Fault.too_long }
{}

/// TC-RESULT-L: the state, the code, the parameter, the queue's limit.
pub fn faults_of_a_last_result()
    ensures state { FirstOf opened (asks.result_last (pos 1) (body bad_code None)) Fault.wrong_state Fault.bad_oid }
    ensures code { FirstOf (begun_from shown_begin) (asks.result_last (pos 1) (body bad_code bad_parameter))
        Fault.bad_oid Fault.bad_parameter }
    ensures parameter { FirstOf (begun_from shown_begin) (asks.result_last (pos 1) (body (code 10) long_bad_parameter))
        Fault.bad_parameter Fault.too_long }
{}

/// TC-RESULT-NL: the same.
pub fn faults_of_a_result()
    ensures state { FirstOf opened (asks.result_more (pos 1) (body bad_code None)) Fault.wrong_state Fault.bad_oid }
    ensures code { FirstOf (begun_from shown_begin) (asks.result_more (pos 1) (body bad_code bad_parameter))
        Fault.bad_oid Fault.bad_parameter }
    ensures parameter { FirstOf (begun_from shown_begin) (asks.result_more (pos 1) (body (code 10) long_bad_parameter))
        Fault.bad_parameter Fault.too_long }
{}

/// TC-U-ERROR: the same.
pub fn faults_of_an_error()
    ensures state { FirstOf opened (asks.error_back (pos 1) bad_code None) Fault.wrong_state Fault.bad_oid }
    ensures code { FirstOf (begun_from shown_begin) (asks.error_back (pos 1) bad_code bad_parameter) Fault.bad_oid
        Fault.bad_parameter }
    ensures parameter { FirstOf (begun_from shown_begin) (asks.error_back (pos 1) (code 13) long_bad_parameter)
        Fault.bad_parameter Fault.too_long }
{}

/// TC-U-REJECT: the state, the queue's limit. TC-U-CANCEL has one fault on a dialogue.
pub fn faults_of_a_reject()
    ensures { FirstOf full_queue (asks.u_reject (Some (pos 1)) (of_result 2)) Fault.wrong_state Fault.too_long }
{}

/// TC-UNI: the state, the context, the user information, what carries it, the queue, the message's limit.
pub fn faults_of_a_unidirectional()
    ensures state { FirstOf (begun_from shown_begin) (asks.uni (Some (hex 1 0x80)) []) Fault.wrong_state Fault.bad_oid }
    ensures context { FirstOf opened (asks.uni (Some (hex 1 0x80)) (hex 2 0x0400)) Fault.bad_oid Fault.bad_parameter }
    ensures information { FirstOf opened (asks.uni None (hex 2 0x0400)) Fault.bad_parameter Fault.no_context }
    ensures carried { FirstOf opened (asks.uni None (hex 2 0x2800)) Fault.no_context Fault.not_class_four }
    ensures queue { FirstOf opened (asks.uni (Some context) (hex 4 0x2882FFFB ++ replicate 65531 0))
        Fault.not_class_four Fault.too_long }
{}

/// TC-BEGIN: the state, the context, the user information, what carries it.
pub fn faults_of_a_begin()
    ensures state { FirstOf (begun_from shown_begin)
        (asks.begin (Some (hex 1 0x80)) []) Fault.wrong_state Fault.bad_oid }
    ensures context { FirstOf opened (asks.begin (Some (hex 1 0x80)) (hex 2 0x0400)) Fault.bad_oid Fault.bad_parameter }
    ensures information { FirstOf opened (asks.begin None (hex 2 0x0400)) Fault.bad_parameter Fault.no_context }
{}

/// TC-CONTINUE: the same.
pub fn faults_of_a_continue()
    ensures state { FirstOf opened (asks.go_on (Some (hex 1 0x80)) []) Fault.wrong_state Fault.bad_oid }
    ensures context { FirstOf (begun_from begin_with_aarq) (asks.go_on (Some (hex 1 0x80)) (hex 2 0x0400)) Fault.bad_oid
        Fault.bad_parameter }
    ensures information { FirstOf active (asks.go_on None (hex 2 0x0400)) Fault.bad_parameter Fault.no_context }
{}

/// TC-END: the same. A prearranged end works in every state.
pub fn faults_of_an_end()
    ensures state { FirstOf opened (asks.finish Ending.basic (Some (hex 1 0x80)) []) Fault.wrong_state Fault.bad_oid }
    ensures context { FirstOf (begun_from begin_with_aarq) (asks.finish Ending.basic (Some (hex 1 0x80)) (hex 2 0x0400))
        Fault.bad_oid Fault.bad_parameter }
    ensures information { FirstOf active (asks.finish Ending.basic None (hex 2 0x0400)) Fault.bad_parameter
        Fault.no_context }
    ensures prearranged_context { FirstOf opened (asks.finish Ending.prearranged (Some (hex 1 0x80)) (hex 2 0x0400))
        Fault.bad_oid Fault.bad_parameter }
    ensures prearranged_information { FirstOf opened (asks.finish Ending.prearranged (Some (hex 1 0x2A)) (hex 1 0x04))
        Fault.bad_parameter Fault.no_context }
{}

/// TC-U-ABORT: the state, the user information, what carries it.
pub fn faults_of_an_abort()
    ensures state { FirstOf opened (asks.u_abort AbortReason.not_supported (hex 2 0x0400)) Fault.wrong_state
        Fault.bad_parameter }
    ensures information { FirstOf opened (asks.u_abort AbortReason.by_user (hex 2 0x0400)) Fault.bad_parameter
        Fault.no_context }
{}
