//! Values packed into slots.
ghost use Rattle.std.specs.Prelude.{◌≡◌, false, ◌<◌, ◌^◌, List, IfSome};
ghost use Rattle.sim_values.specs.Plain.{Integer, Truth, Character, Text, Object, MainOf, Nothing};
ghost use Rattle.sim_code.specs.Instances.{CellPlace, ElementPlace, ImagePlace};
ghost use Rattle.sim_code.specs.Machine.{Frames, frame_in, Of, Link, Address, ArrayValue, ProcedureValue, ThunkValue};
ghost use Rattle.frame_arena.specs.declared.frames.Frame.{Frame};
ghost use Rattle.sim_code.specs.Outcome.{ArrayOf};
ghost use Rattle.frame_arena.specs.Arrays.{ArrayLeads, RegionOf, SlotLeadsArray, names_array};
ghost use Rattle.frame_arena.specs.Slots.{value_of, cell_value};
ghost use Rattle.frame_arena.specs.Frames.{Leads, SlotLeads, names_frame, number_in};

use sim_values::{ArrayRef, FrameRef, TextVal};

/// What kind of value is in a slot.
#[derive(Clone, Copy, Debug, PartialEq, Eq)]
pub enum SlotKind {
    /// No value.
    Empty,
    /// An integer.
    Integer,
    /// A truth value: 0 is false.
    Truth,
    /// A character, by its code.
    Character,
    /// A text.
    Text,
    /// The reference `none`.
    Nothing,
    /// A reference to an object.
    Object,
    /// A reference to the main program of a simulation block.
    Main,
    /// A link to a frame.
    Link,
    /// The address of a cell.
    Cell,
    /// The address of an element of an array.
    Element,
    /// The address of an image.
    Image,
    /// An array.
    Array,
    /// A procedure.
    Procedure,
    /// An actual parameter by name.
    Thunk,
}

/// A value in 24 bytes. `code` is a character. `data` is an integer, a truth value, the position in a text, or the number of a frame in the order of entry or of an
/// array in the order in which they were made; `name` then says where that frame or array lies. `more` is the number of a cell, an
/// element, an image, a block or a thunk, or where a text starts; `class` is a qualification, or how long a text is.
#[derive(Clone, Copy, Debug, PartialEq, Eq)]
pub struct Slot {
    /// What kind of value it is.
    pub kind: SlotKind,
    /// The code of a character.
    pub code: u8,
    /// Where the frame or array lies, or the frame of a text.
    pub name: u32,
    /// A number within the frame or array, or of a block or thunk.
    pub more: u32,
    /// A qualification.
    pub class: u32,
    /// An integer or the number of a frame or array.
    pub data: i64,
}

/// No value.
pub const EMPTY: Slot = Slot {
    kind: SlotKind::Empty,
    code: 0,
    name: 0,
    more: 0,
    class: 0,
    data: 0,
};

/// The reference `none`.
pub const NOTHING: Slot = Slot {
    kind: SlotKind::Nothing,
    code: 0,
    name: 0,
    more: 0,
    class: 0,
    data: 0,
};

impl Slot {
    /// An integer.
    #[inline(always)]
    pub fn integer(data: i64) -> Slot
        ensures value { value_of result ≡ Of (Integer «data») }
        ensures held { cell_value result ≡ Some (value_of result) }
    {
        Slot {
            kind: SlotKind::Integer,
            data,
            ..EMPTY
        }
    }

    /// A truth value.
    #[inline(always)]
    pub fn truth(holds: bool) -> Slot
        ensures value { value_of result ≡ Of (Truth holds) }
        ensures held { cell_value result ≡ Some (value_of result) }
    {
        Slot {
            kind: SlotKind::Truth,
            data: i64::from(holds),
            ..EMPTY
        }
    }

    /// A character.
    #[inline(always)]
    pub fn character(code: u8) -> Slot
        ensures value { value_of result ≡ Of (Character code) }
        ensures held { cell_value result ≡ Some (value_of result) }
    {
        Slot {
            kind: SlotKind::Character,
            code,
            ..EMPTY
        }
    }

    /// A text.
    #[inline(always)]
    pub fn text(text: TextVal) -> Slot
        ensures value { value_of result ≡ Of (Text text) }
        ensures held { cell_value result ≡ Some (value_of result) }
    {
        Slot {
            kind: SlotKind::Text,
            name: text.text_frame,
            more: text.start,
            class: text.length,
            data: i64::from(text.pos),
            ..EMPTY
        }
    }

    /// A reference to an object, by its frame.
    #[inline(always)]
    pub fn object(frame: FrameRef) -> Slot
        requires { frame.stamp < 2 ^ 63 }
        ensures value { value_of result ≡ Of (Object frame.stamp) }
        ensures leads { (frames : List Frame) (m : Frames) → Leads frames m frame → SlotLeads frames m result }
        ensures no_array { names_array result.kind ≡ false }
        ensures held { cell_value result ≡ Some (value_of result) }
    {
        Slot {
            kind: SlotKind::Object,
            name: frame.frame,
            data: frame.stamp as i64,
            ..EMPTY
        }
    }

    /// A reference to the main program of a simulation block, by its frame.
    #[inline(always)]
    pub fn main_program(frame: FrameRef) -> Slot
        requires { frame.stamp < 2 ^ 63 }
        ensures value { value_of result ≡ Of (MainOf frame.stamp) }
        ensures leads { (frames : List Frame) (m : Frames) → Leads frames m frame → SlotLeads frames m result }
        ensures no_array { names_array result.kind ≡ false }
        ensures held { cell_value result ≡ Some (value_of result) }
    {
        Slot {
            kind: SlotKind::Main,
            name: frame.frame,
            data: frame.stamp as i64,
            ..EMPTY
        }
    }

    /// A link to a frame.
    #[inline(always)]
    pub fn link(frame: FrameRef) -> Slot
        requires { frame.stamp < 2 ^ 63 }
        ensures value { value_of result ≡ Link frame.stamp }
        ensures held { cell_value result ≡ Some (value_of result) }
        ensures leads { (frames : List Frame) (m : Frames) → Leads frames m frame → SlotLeads frames m result }
        ensures no_array { names_array result.kind ≡ false }
    {
        Slot {
            kind: SlotKind::Link,
            name: frame.frame,
            data: frame.stamp as i64,
            ..EMPTY
        }
    }

    /// The address of a cell, with the class of a reference in it.
    #[inline(always)]
    pub fn cell(frame: FrameRef, cell: u32, class: u32) -> Slot
        requires { frame.stamp < 2 ^ 63 }
        ensures value { value_of result ≡ Address (CellPlace frame.stamp cell class) }
        ensures leads { (frames : List Frame) (m : Frames) → Leads frames m frame → SlotLeads frames m result }
        ensures no_array { names_array result.kind ≡ false }
        ensures held { cell_value result ≡ Some (value_of result) }
    {
        Slot {
            kind: SlotKind::Cell,
            name: frame.frame,
            more: cell,
            class,
            data: frame.stamp as i64,
            ..EMPTY
        }
    }

    /// The address of an element, with the class of a reference in it.
    #[inline(always)]
    pub fn element(array: ArrayRef, index: u32, class: u32) -> Slot
        requires { array.stamp < 2 ^ 63 }
        ensures value { value_of result ≡ Address (ElementPlace array.stamp index class) }
        ensures leads { (regions : List RegionOf) (arrays : List ArrayOf) → ArrayLeads regions arrays array → SlotLeadsArray regions arrays result }
        ensures no_frame { names_frame result.kind ≡ false }
        ensures held { cell_value result ≡ Some (value_of result) }
    {
        Slot {
            kind: SlotKind::Element,
            name: array.array,
            more: index,
            class,
            data: array.stamp as i64,
            ..EMPTY
        }
    }

    /// The address of an image.
    #[inline(always)]
    pub fn image(number: u32) -> Slot
        ensures value { value_of result ≡ Address (ImagePlace number) }
        ensures held { cell_value result ≡ Some (value_of result) }
    {
        Slot {
            kind: SlotKind::Image,
            more: number,
            ..EMPTY
        }
    }

    /// An array.
    #[inline(always)]
    pub fn array(array: ArrayRef) -> Slot
        requires { array.stamp < 2 ^ 63 }
        ensures value { value_of result ≡ ArrayValue array.stamp }
        ensures leads { (regions : List RegionOf) (arrays : List ArrayOf) → ArrayLeads regions arrays array → SlotLeadsArray regions arrays result }
        ensures no_frame { names_frame result.kind ≡ false }
        ensures held { cell_value result ≡ Some (value_of result) }
    {
        Slot {
            kind: SlotKind::Array,
            name: array.array,
            data: array.stamp as i64,
            ..EMPTY
        }
    }

    /// A procedure, by its block and the frame in which it is declared.
    #[inline(always)]
    pub fn procedure(block: u32, parent: FrameRef) -> Slot
        requires { parent.stamp < 2 ^ 63 }
        ensures value { value_of result ≡ ProcedureValue block parent.stamp }
        ensures leads { (frames : List Frame) (m : Frames) → Leads frames m parent → SlotLeads frames m result }
        ensures no_array { names_array result.kind ≡ false }
        ensures held { cell_value result ≡ Some (value_of result) }
    {
        Slot {
            kind: SlotKind::Procedure,
            name: parent.frame,
            more: block,
            data: parent.stamp as i64,
            ..EMPTY
        }
    }

    /// An actual parameter by name, with the frame of the call.
    #[inline(always)]
    pub fn thunk(thunk: u32, home: FrameRef) -> Slot
        requires { home.stamp < 2 ^ 63 }
        ensures value { value_of result ≡ ThunkValue thunk home.stamp }
        ensures held { cell_value result ≡ Some (value_of result) }
    {
        Slot {
            kind: SlotKind::Thunk,
            name: home.frame,
            more: thunk,
            data: home.stamp as i64,
            ..EMPTY
        }
    }

    /// The frame that a link or a reference to an object names.
    #[inline(always)]
    pub fn frame(self) -> Option<FrameRef>
        ensures number { number_in result ≡ frame_in (value_of self) }
        ensures leads { IfSome result (λ r. (frames : List Frame) (m : Frames) → SlotLeads frames m self → Leads frames m r) }
    {
        let stamp = if self.data < 0 { 0 } else { self.data as u64 };
        match self.kind {
            SlotKind::Link => Some(FrameRef {
                frame: self.name,
                stamp,
            }),
            SlotKind::Object => Some(FrameRef {
                frame: self.name,
                stamp,
            }),
            _ => None,
        }
    }
}
