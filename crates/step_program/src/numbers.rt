//! Numbers of slots.

ghost use Rattle.std.specs.Prelude.{◌≡◌, ◌+◌, IfSome};
ghost use Rattle.step_program.specs.Arranging as arranging;

use crate::step::Slot;

/// How many slots of each kind there are: fewer than 2^32.
#[derive(Clone, Copy)]
pub(crate) struct Numbers {
    pub narrow: u32,
    pub wide: u32,
}

/// The slot that comes next, and how many there are with it.
#[derive(Clone, Copy)]
pub(crate) struct Next {
    pub slot: Slot,
    pub then: Numbers,
}

impl Numbers {
    /// The next slot, a narrow or a wide one; none where its number would be 2^32 - 1.
    pub(crate) fn next(self, is_narrow: bool) -> Option<Next>
        ensures { IfSome result (λ next. arranging.IsNext is_narrow self.narrow self.wide next) }
    {
        if is_narrow {
            let narrow = self.narrow.checked_add(1)?;
            Some(Next {
                slot: Slot::Narrow(self.narrow),
                then: Numbers {
                    narrow,
                    wide: self.wide,
                },
            })
        } else {
            let wide = self.wide.checked_add(1)?;
            Some(Next {
                slot: Slot::Wide(self.wide),
                then: Numbers {
                    narrow: self.narrow,
                    wide,
                },
            })
        }
    }
}
