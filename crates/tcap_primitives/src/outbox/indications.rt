//! An indication becomes a record of an outbox.

ghost use Rattle.std.specs.Prelude.{◌≡◌, ◌≤◌, ◌+◌, ◌++◌, vec_len, vec_capacity};
ghost use Rattle.tcap_primitives.specs.IndicationViews.{indicated, indicated_octets};
ghost use Rattle.tcap_primitives.specs.OutboxOctets.{indicated_named};
ghost use Rattle.tcap_primitives.specs.OutboxReading.{output_read};
ghost use Rattle.tcap_primitives.specs.OutboxSpans.{HasRoom, RecordFits};

use super::keeping::{keep_abort, keep_body, keep_operation, keep_portion};
use super::records::Record;
use crate::indication::Indication;
use std::alloc::Allocator;

/// Copies the octets of an indication, and gives the record that names them.
// Where the indication is known, the match on it folds away.
#[inline(always)]
pub(super) fn keep_indication<A: Allocator + Copy>(
    octets: &mut Vec<u8, A>,
    indication: Indication<'_>,
) -> Record
    requires { HasRoom (vec_capacity octets.old) (vec_len octets.old) (indicated_octets indication) }
    ensures items { octets.new.items ≡ octets.old.items ++ indicated_named indication.entry }
    ensures len { vec_len octets.new ≡ vec_len octets.old + indicated_octets indication.entry }
    ensures capacity { vec_capacity octets.old ≤ vec_capacity octets.new }
    ensures fits { RecordFits octets.new.items result }
    ensures reads { output_read octets.new.items result ≡ indicated indication.entry }
{
    match indication {
        Indication::Uni { context, info } => Record::Uni {
            portion: keep_portion(octets, context, info),
        },
        Indication::Begin {
            dialogue,
            context,
            info,
        } => Record::Begin {
            dialogue,
            portion: keep_portion(octets, context, info),
        },
        Indication::Continue {
            dialogue,
            context,
            info,
        } => Record::Continue {
            dialogue,
            portion: keep_portion(octets, context, info),
        },
        Indication::End {
            dialogue,
            context,
            info,
        } => Record::End {
            dialogue,
            portion: keep_portion(octets, context, info),
        },
        Indication::UAbort { dialogue, pdu } => Record::UAbort {
            dialogue,
            pdu: keep_abort(octets, pdu),
        },
        Indication::PAbort { dialogue, why } => Record::PAbort { dialogue, why },
        Indication::Invoked {
            dialogue,
            id,
            linked,
            code,
            parameter,
        } => Record::Invoked {
            dialogue,
            id,
            linked,
            body: keep_operation(octets, code, parameter),
        },
        Indication::ResultMore {
            dialogue,
            number,
            id,
            body,
        } => Record::ResultMore {
            dialogue,
            number,
            id,
            body: keep_body(octets, body),
        },
        Indication::LocalReject {
            dialogue,
            id,
            problem,
        } => Record::LocalReject {
            dialogue,
            id,
            problem,
        },
        Indication::RemoteReject {
            dialogue,
            id,
            problem,
            by,
        } => Record::RemoteReject {
            dialogue,
            id,
            problem,
            by,
        },
        Indication::ResultLast {
            dialogue,
            number,
            id,
            body,
        } => Record::ResultLast {
            dialogue,
            number,
            id,
            body: keep_body(octets, body),
        },
        Indication::ErrorBack {
            dialogue,
            number,
            id,
            code,
            parameter,
        } => Record::ErrorBack {
            dialogue,
            number,
            id,
            body: keep_operation(octets, code, parameter),
        },
        Indication::Rejected {
            dialogue,
            number,
            id,
            problem,
            by,
        } => Record::Rejected {
            dialogue,
            number,
            id,
            problem,
            by,
        },
        Indication::Lapsed {
            dialogue,
            number,
            id,
        } => Record::Lapsed {
            dialogue,
            number,
            id,
        },
        Indication::Ended {
            dialogue,
            number,
            id,
        } => Record::Ended {
            dialogue,
            number,
            id,
        },
        Indication::Dropped(why) => Record::Dropped(why),
    }
}
