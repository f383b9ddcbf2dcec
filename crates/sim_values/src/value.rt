//! The values that cells, operand stacks and actual parameters hold.

/// A text: `length` characters of a frame from the place `start` on, and the position in them. Places and positions count
/// from 1; `pos` is at most one more than `length`.
#[derive(Clone, Copy, Debug, PartialEq, Eq)]
pub struct TextVal {
    /// The number of its frame among the frames of texts.
    pub text_frame: u32,
    /// The place of the first character in its frame.
    pub start: u32,
    /// The number of characters.
    pub length: u32,
    /// The position.
    pub pos: u32,
}

/// A frame of the machine. The stamp tells it from earlier and later frames of the same number.
#[derive(Clone, Copy, Debug, PartialEq, Eq)]
pub struct FrameRef {
    /// The frame's number.
    pub frame: u32,
    /// How many frames had been entered and left when it was made.
    pub stamp: u64,
}

/// An array. The stamp tells it from earlier and later arrays of the same number.
#[derive(Clone, Copy, Debug, PartialEq, Eq)]
pub struct ArrayRef {
    /// The array's number.
    pub array: u32,
    /// How many frames had been entered and left when it was made.
    pub stamp: u64,
}

/// Where a variable lies. `class` is the number of its qualification, of a reference alone.
#[derive(Clone, Copy, Debug, PartialEq, Eq)]
pub enum Place {
    /// A cell of a frame.
    Cell {
        /// The frame.
        home: FrameRef,
        /// The cell's number in it.
        cell: u32,
        /// The qualification.
        class: u32,
    },
    /// An element of an array.
    Element {
        /// The array.
        array: ArrayRef,
        /// The element's number, from 0 in the order of the subscripts.
        index: u32,
        /// The qualification.
        class: u32,
    },
    /// The image of an input or output file, by its number.
    Image(u8),
}

/// A value of the machine.
#[derive(Clone, Copy, Debug, PartialEq, Eq)]
pub enum Value {
    /// An integer.
    Int(i64),
    /// A truth value.
    Bool(bool),
    /// A character, by its code.
    Char(u8),
    /// A text.
    Text(TextVal),
    /// The reference `none`.
    Nil,
    /// A reference to an object, by its frame's number.
    Object(u32),
    /// A link from a frame to another.
    Link(FrameRef),
    /// The place of a variable.
    Address(Place),
    /// An array.
    Array(ArrayRef),
    /// A procedure or class as a parameter: its block and the frame of its declaration.
    Proc {
        /// The block of its text.
        block: u32,
        /// The frame in which it was declared.
        parent: FrameRef,
    },
    /// An actual parameter by name: its code and the frame in which it is evaluated.
    Thunk {
        /// The thunk's number.
        thunk: u32,
        /// The frame of the call.
        home: FrameRef,
    },
}
