//! What the users at both ends of a call ask for.

use super::{End, Network};
use crate::octets::put_drawn;
use tcap_component::{Body, Code, Kind, Problem};
use tcap_invocation::Class;

/// At these moments, in milliseconds, the invocations of a large call lapse.
const LAPSE_EVERY: u64 = 2_048;

impl Network {
    /// Draws a parameter.
    fn draw_parameter(&mut self) -> Option<()> {
        self.parameter.clear();
        let len = self.lot.between(3, 40) as usize;
        put_drawn(&mut self.parameter, &mut self.lot, 0x04, len)
    }

    /// How long an invocation may take: seldom so short that it lapses, but in a large call to the next moment at
    /// which those of all large calls lapse.
    fn timeout(&mut self, side: usize, is_large: bool) -> Option<u64> {
        let now = self.engines.get(side)?.now();
        Some(if is_large {
            LAPSE_EVERY + LAPSE_EVERY.saturating_sub(now % LAPSE_EVERY)
        } else if self.lot.is_one_in(20) {
            u64::from(self.lot.between(1, 50))
        } else {
            60_000
        })
    }

    /// An operation is invoked at a side, one in eight linked to one that waits for its answer.
    pub(super) fn invoke(&mut self, side: usize, end: &mut End, is_large: bool) -> Option<()> {
        self.draw_parameter()?;
        let class = match self.lot.below(8) {
            0 => Class::Two,
            1 => Class::Three,
            2 => Class::Four,
            _ => Class::One,
        };
        let linked = if self.lot.is_one_in(8) {
            end.waiting.last().copied()
        } else {
            None
        };
        let timeout_ms = self.timeout(side, is_large)?;
        let id = end.next_id;
        end.next_id = id.wrapping_add(1);
        let parameter = Some(self.parameter.as_slice());
        let code = Code::Local(i32::from(self.lot.octet()));
        let engine = self.engines.get_mut(side)?;
        match engine.invoke(end.dialogue, id, class, code, parameter, linked, timeout_ms) {
            Ok(number) => self.digest.number(number),
            Err(fault) => self.digest.fault(fault),
        }
        if self.lot.is_one_in(64) {
            match engine.u_cancel(end.dialogue, id) {
                Ok(number) => self.digest.number(number),
                Err(fault) => self.digest.fault(fault),
            }
        }
        Some(())
    }

    /// The invocation of the other side with this identifier is answered; one in twenty never is.
    fn answer(&mut self, side: usize, dialogue: u32, id: i8) -> Option<()> {
        self.draw_parameter()?;
        let parameter = Some(self.parameter.as_slice());
        let code = Code::Local(i32::from(self.lot.octet()));
        let body = Some(Body { code, parameter });
        let engine = self.engines.get_mut(side)?;
        let answered = match self.lot.below(20) {
            0 => Ok(()),
            1 => engine.u_reject(dialogue, Some(id), Problem::new(Kind::Invoke, 1)?),
            2..4 => engine.error_back(dialogue, id, code, parameter),
            4 => {
                if let Err(fault) = engine.result_more(dialogue, id, body) {
                    self.digest.fault(fault);
                }
                engine.result_last(dialogue, id, None)
            }
            _ => engine.result_last(dialogue, id, body),
        };
        if let Err(fault) = answered {
            self.digest.fault(fault);
        }
        Some(())
    }

    /// What a side asks before it sends a message: some answers, and some operations.
    pub(super) fn ask(&mut self, side: usize, end: &mut End, is_large: bool) -> Option<()> {
        let (answers, operations) = if is_large {
            (self.lot.between(0, 60), self.lot.between(10, 60))
        } else {
            (self.lot.between(1, 6), self.lot.between(0, 3))
        };
        for _ in 0..operations {
            self.invoke(side, end, is_large)?;
        }
        for _ in 0..answers {
            if let Some(id) = end.waiting.pop() {
                self.answer(side, end.dialogue, id)?;
            }
        }
        Some(())
    }
}
