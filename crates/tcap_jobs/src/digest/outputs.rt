//! All that an engine sends and tells, field by field.

use super::Digest;
use std::alloc::Global;
use tcap_component::Problem;
use tcap_engine::{Outbox, Output, OutputRef};

impl Digest {
    /// Adds a Reject that closes no invocation.
    fn refused(&mut self, kind: u64, dialogue: Option<u32>, id: Option<i8>, problem: Problem) {
        self.named(kind, dialogue.unwrap_or(0), 0, id.unwrap_or(0));
        self.problem(problem);
    }

    /// Adds what is sent or told.
    // One arm for each kind, so that a new one can't be passed over.
    fn output(&mut self, output: &Output<'_>) {
        match output {
            Output::Send { to, bytes } => {
                self.octets(to.octets());
                self.octets(bytes.as_slice());
            }
            Output::Uni { context, info } => self.told(1, 0, *context, info),
            Output::Begin {
                dialogue,
                context,
                info,
            } => self.told(2, *dialogue, *context, info),
            Output::Continue {
                dialogue,
                context,
                info,
            } => self.told(3, *dialogue, *context, info),
            Output::End {
                dialogue,
                context,
                info,
            } => self.told(4, *dialogue, *context, info),
            Output::UAbort { dialogue, pdu } => {
                self.number(u64::from(*dialogue));
                if let Some(pdu) = pdu {
                    self.pdu(pdu);
                }
            }
            Output::PAbort { dialogue, why } => {
                self.number(u64::from(*dialogue));
                self.why(*why);
            }
            Output::Dropped(why) => self.number(300 + *why as u64),
            Output::Invoked {
                dialogue,
                id,
                linked,
                code,
                parameter,
            } => {
                self.named(5, dialogue.unwrap_or(0), 0, *id);
                self.identifier(*linked);
                self.code(code);
                self.optional(*parameter);
            }
            Output::ResultMore {
                dialogue,
                number,
                id,
                body,
            } => {
                self.named(6, *dialogue, *number, *id);
                self.body(body);
            }
            Output::ResultLast {
                dialogue,
                number,
                id,
                body,
            } => {
                self.named(7, *dialogue, *number, *id);
                self.body(body);
            }
            Output::ErrorBack {
                dialogue,
                number,
                id,
                code,
                parameter,
            } => {
                self.named(8, *dialogue, *number, *id);
                self.code(code);
                self.optional(*parameter);
            }
            Output::LocalReject {
                dialogue,
                id,
                problem,
            } => self.refused(9, *dialogue, *id, *problem),
            Output::RemoteReject {
                dialogue,
                id,
                problem,
                by,
            } => self.refused(10 + *by as u64, *dialogue, *id, *problem),
            Output::Rejected {
                dialogue,
                number,
                id,
                problem,
                by,
            } => {
                self.named(20 + *by as u64, *dialogue, *number, *id);
                self.problem(*problem);
            }
            Output::Lapsed {
                dialogue,
                number,
                id,
            } => self.named(13, *dialogue, *number, *id),
            Output::Ended {
                dialogue,
                number,
                id,
            } => self.named(14, *dialogue, *number, *id),
        }
    }

    /// Adds all that an outbox holds, as `outputs` does.
    pub(crate) fn outbox(&mut self, outbox: &Outbox) {
        for index in 0..outbox.len() {
            match outbox.get(index) {
                Some(OutputRef::Send { to, bytes }) => {
                    self.octets(to);
                    self.octets(bytes);
                }
                Some(OutputRef::Indication(indication)) => {
                    let output: Output<'_, Global> = indication.output();
                    self.output(&output);
                }
                None => {}
            }
        }
        self.number(outbox.len() as u64);
    }

    /// Adds all that an engine sends and tells.
    pub(crate) fn outputs(&mut self, outputs: &[Output<'_>]) {
        for output in outputs {
            self.output(output);
        }
        self.number(outputs.len() as u64);
    }
}
