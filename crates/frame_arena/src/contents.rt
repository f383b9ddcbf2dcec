//! What is in a slot, by its kind.
ghost use Rattle.std.specs.Prelude.{◌≡◌, ◌<◌, ◌^◌, List, IfSome};
ghost use Rattle.sim_code.specs.Machine.{array_in};
ghost use Rattle.sim_code.specs.Outcome.{ArrayOf};
ghost use Rattle.frame_arena.specs.Arrays.{ArrayLeads, RegionOf, array_number, SlotLeadsArray};
ghost use Rattle.frame_arena.specs.Slots.{character_of, integer_of, is_plain, reference_of, referring, truth_of, value_of};

use crate::slot::{Slot, SlotKind};
use sim_values::ArrayRef;

/// What a reference names.
#[derive(Clone, Copy, Debug, PartialEq, Eq)]
pub enum Referent {
    /// Nothing: it is `none`.
    Nothing,
    /// An object, by its number.
    Object(u64),
    /// The main program of a simulation block, by the number of that.
    Main(u64),
}

impl Slot {
    /// The integer, if it is one.
    #[inline(always)]
    pub fn as_integer(self) -> Option<i64>
        ensures { result ≡ integer_of (value_of self) }
    {
        match self.kind {
            SlotKind::Integer => Some(self.data),
            _ => None,
        }
    }

    /// The truth value, if it is one.
    #[inline(always)]
    pub fn as_truth(self) -> Option<bool>
        ensures { result ≡ truth_of (value_of self) }
    {
        match self.kind {
            SlotKind::Truth => Some(self.data != 0),
            _ => None,
        }
    }

    /// The code of the character, if it is one.
    #[inline(always)]
    pub fn as_character(self) -> Option<u8>
        ensures { result ≡ character_of (value_of self) }
    {
        match self.kind {
            SlotKind::Character => Some(self.code),
            _ => None,
        }
    }

    /// What it names, if it is a reference.
    #[inline(always)]
    pub fn as_reference(self) -> Option<Referent>
        ensures { referring result ≡ reference_of (value_of self) }
    {
        let stamp = if self.data < 0 { 0 } else { self.data as u64 };
        match self.kind {
            SlotKind::Object => Some(Referent::Object(stamp)),
            SlotKind::Main => Some(Referent::Main(stamp)),
            SlotKind::Nothing => Some(Referent::Nothing),
            SlotKind::Empty => Some(Referent::Nothing),
            _ => None,
        }
    }

    /// Whether it is a plain value.
    #[inline(always)]
    pub fn is_plain(self) -> bool
        ensures { result ≡ is_plain (value_of self) }
    {
        match self.kind {
            SlotKind::Link
            | SlotKind::Cell
            | SlotKind::Element
            | SlotKind::Image
            | SlotKind::Array
            | SlotKind::Procedure
            | SlotKind::Thunk => false,
            _ => true,
        }
    }

    /// Where the array lies, if it is one.
    #[inline(always)]
    pub fn as_array(self) -> Option<ArrayRef>
        ensures number { array_number result ≡ array_in (value_of self) }
        ensures short { IfSome result (λ r. r.stamp < 2 ^ 63) }
        ensures leads { IfSome result (λ r. (regions : List RegionOf) (arrays : List ArrayOf) → SlotLeadsArray regions arrays self → ArrayLeads regions arrays r) }
    {
        let stamp = if self.data < 0 { 0 } else { self.data as u64 };
        match self.kind {
            SlotKind::Array => Some(ArrayRef {
                array: self.name,
                stamp,
            }),
            _ => None,
        }
    }
}
