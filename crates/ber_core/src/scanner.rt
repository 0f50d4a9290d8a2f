//! The scanner of one element: one octet after the other, without recursion.

ghost use Rattle.ber_core.specs.Due.{CanBeDue, CanBeDue-prop};

pub mod due;
mod octet;
mod skim;
mod slice;

use due::Due;

/// A reader of one element that takes one octet after the other, keeps none, and knows what each is. What
/// an octet leads to, where it is no fault:
///
/// ```text
/// Tag           a tag of one octet: Length; the first of more: FirstFurther; 00 where one is open: End
/// End           00: the element that is open ends
/// FirstFurther  below 80: Length; above 80: Further
/// Further       below 80: Length; from 80 on: Further
/// Length        below 80: Content, or the element ends where it is 00; 80: Tag, one more is open;
///               81 to FE: LongLength
/// LongLength    the last of them: Content, or the element ends where they spell 0
/// Content       the last of them: the element ends
/// ```
///
/// Where an element ends, the next octet is a Tag of the one around it, or the whole is read if none is open.
/// Of the elements of indefinite form that are open it keeps their number alone.
#[derive(Clone, Copy, Debug)]
pub struct Scanner {
    /// What the next octet is.
    pub due: Due,
    /// How many indefinite elements are open, 0 to 32.
    pub nested: u8,
    ghost can_be: { CanBeDue due nested } by { CanBeDue-prop due nested },
}
