//! The options with one number. They are adjacent (RFC 7252, 3.1), so lower numbers are skipped
//! once, and a pass ends at the first greater one.
ghost use Rattle.std.specs.Prelude.{◌≡◌, ◌++◌, OnOk};

use coap_message::{OptRefs, Options, OutOfMemory, Pieces};
use std::marker::Model;

/// An iterator over the remaining values of the options with a number. A contract sees the list.
#[derive(Drop)]
pub struct Values<'a> {
    number: u16,
    left: OptRefs<'a>,
}

impl<'a> Model for Values<'a> {
    ghost use Rattle.std.specs.Prelude.{ℕ, List};

    ghost Value = { List (List ℕ) };

    ghost use Rattle.coap_message.specs.Options.{AreOptions};
    ghost use Rattle.coap_target.specs.Routes.{values_of};

    ghost view = { λ v. values_of v.number v.left };

    ghost invariant = { λ v. AreOptions 0 v.left };
}

impl<'a> Iterator for Values<'a> {
    ghost use Rattle.std.specs.Iterator.{YieldsFirstRef, item_count};

    type Item = &'a [u8];

    ghost next_gives = { YieldsFirstRef (λ left. left) };

    ghost remaining = { item_count (λ left. left) };

    #[inline(always)]
    fn next(&mut self) -> Option<&'a [u8]> {
        while let Some(option) = self.left.next() {
            if option.number > self.number {
                return None;
            }
            if option.number == self.number {
                return Some(option.value);
            }
        }
        None
    }
}

impl<'a> Values<'a> {
    ghost use Rattle.coap_target.specs.Routes.{values_of};

    /// A copy, which continues from the same position.
    pub(crate) fn clone(&self) -> Values<'a>
        ensures { result ≡ self.now }
    {
        Values {
            number: self.number,
            left: self.left.clone(),
        }
    }

    /// The values of the options with a number.
    pub(crate) fn of(options: &Options<'a>, number: u16) -> Values<'a>
        ensures { result ≡ values_of number options.now }
    {
        Values {
            number,
            left: options.iter_from(number),
        }
    }

    /// Appends copies of the values to a list. `Err` means that memory ran out; some of them may
    /// then have been appended.
    pub(crate) fn append_to(self, list: &mut Pieces) -> Result<(), OutOfMemory>
        ensures { OnOk result (list.new ≡ list.old ++ self.entry) }
    {
        self.left.append_values(self.number, list)
    }
}
