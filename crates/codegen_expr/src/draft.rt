//! Code that is being written.
ghost use Rattle.std.specs.Prelude.{◌≡◌, [], IfOk, OnOk, length, pos, suc, true};
ghost use Rattle.sim_code.specs.declared.instr.Instr.TheVariants as i;
ghost use Rattle.codegen_expr.specs.Drafts.{class_of as class_of_block, filled_in, given_up, size_of as size_of_block, thunk_begun, thunk_ended, with_hole, with_instr, with_list, with_push, with_room, with_temp};

use sim_base::Line;
use sim_code::{ActualList, CodeType, Instr, Lined, ThunkRecord};
use std::alloc::{AllocError, Global};
use std::marker::Model;

/// What is planned of a block of the code before anything is written.
#[derive(Drop)]
pub struct Planned {
    /// The number of the class whose block it is, or 0.
    pub class: u32,
    /// How many cells cost words.
    pub cells: u32,
    /// How many values its operand stack holds.
    pub room: u32,
    /// What each cell and temp holds at the entry.
    pub types: Vec<CodeType>,
}

impl Model for Planned {
    ghost use Rattle.codegen_expr.specs.Drafts.{PlannedOf};

    ghost Value = { PlannedOf };

    ghost view = { λ p. record { class = p.class; cells = p.cells; room = p.room; types = p.types.items } };
}

/// Instructions so far, with the room that they need on the operand stack, and the cells and temps of the frame.
#[derive(Drop)]
pub struct Draft {
    instrs: Vec<Lined>,
    room: u32,
    size: u32,
    whole: bool,
    classes: Vec<Planned>,
    thunks: Vec<ThunkRecord>,
    lists: Vec<ActualList>,
}

impl Model for Draft {
    ghost use Rattle.codegen_expr.specs.Drafts.{DraftOf};

    ghost Value = { DraftOf };

    ghost view = { λ d. record { instrs = d.instrs.items; room = d.room; size = d.size; whole = d.whole; classes = d.classes.items; thunks = d.thunks.items; lists = d.lists.items } };
}

impl Draft {
    /// No instruction yet. It is given what is planned of each block of the code.
    pub fn new(alloc: Global, classes: Vec<Planned>) -> Draft
        ensures { result ≡ record { instrs = []; room = 0; size = 0; whole = true; classes = classes.items; thunks = []; lists = [] } }
    {
        Draft {
            instrs: Vec::new(alloc),
            room: 0,
            size: 0,
            whole: true,
            classes,
            thunks: Vec::new(alloc),
            lists: Vec::new(alloc),
        }
    }

    /// The class of a block of the code, or 0.
    pub fn class_of(&self, block: u32) -> u32
        ensures { result ≡ class_of_block self.now.classes block }
    {
        match self.classes.get(block as usize) {
            Some(planned) => planned.class,
            None => 0,
        }
    }

    /// How many cells and temps the frames of a block of the code have.
    pub fn size_of(&self, block: u32) -> usize
        ensures { result ≡ size_of_block self.now.classes block }
    {
        match self.classes.get(block as usize) {
            Some(planned) => planned.types.len(),
            None => 0,
        }
    }

    /// What is planned of the blocks of the code.
    pub fn planned(&self) -> &[Planned]
        ensures { result.now ≡ self.now.classes }
    {
        &self.classes
    }

    /// The allocator of the instructions.
    pub fn alloc(&self) -> Global {
        *self.instrs.allocator()
    }

    /// The instructions.
    pub fn instrs(&self) -> &[Lined]
        ensures { result.now ≡ self.now.instrs }
    {
        &self.instrs
    }

    /// How many values the operand stack must hold so far.
    pub fn room(&self) -> u32
        ensures { result ≡ self.now.room }
    {
        self.room
    }

    /// How many cells and temps the frame must have so far.
    pub fn size(&self) -> u32
        ensures { result ≡ self.now.size }
    {
        self.size
    }

    /// The instructions, the thunks and the lists of actual parameters, where no more are written.
    pub fn into_parts(self) -> (Vec<Lined>, Vec<ThunkRecord>, Vec<ActualList>)
        ensures instrs { result.0.items ≡ self.instrs }
        ensures thunks { result.1.items ≡ self.thunks }
        ensures lists { result.2.items ≡ self.lists }
    {
        (self.instrs, self.thunks, self.lists)
    }

    /// One more list of actual parameters. The answer is its number.
    #[tactic(auto, unfolding(crate::specs::Drafts::with_list))]
    pub fn add_list(&mut self, list: ActualList) -> Result<i64, AllocError>
        ensures number { IfOk result (λ n. n ≡ pos (length self.old.lists)) }
        ensures added { OnOk result (self.new ≡ with_list self.old list) }
    {
        let number = i64::try_from(self.lists.len()).map_err(|_| AllocError)?;
        self.lists.push(list)?;
        Ok(number)
    }

    /// A thunk begins here. Its operand stack holds what it gives. The answer is its number.
    #[tactic(auto, unfolding(crate::specs::Drafts::thunk_begun))]
    pub fn begin_thunk(&mut self) -> Result<u32, AllocError>
        ensures number { IfOk result (λ n. n ≡ length self.old.thunks) }
        ensures begun { OnOk result (self.new ≡ thunk_begun self.old) }
    {
        let number = u32::try_from(self.thunks.len()).map_err(|_| AllocError)?;
        let entry = u32::try_from(self.instrs.len()).map_err(|_| AllocError)?;
        self.thunks.push(ThunkRecord { entry, room: 0 })?;
        self.room = 1;
        Ok(number)
    }

    /// The code of a thunk is written, outside of which the operand stack must hold so many values.
    #[tactic(auto, unfolding(crate::specs::Drafts::thunk_ended))]
    pub fn end_thunk(&mut self, number: u32, outside: u32)
        ensures { self.new ≡ thunk_ended self.old number outside }
    {
        let index = number as usize;
        if index < self.thunks.len() {
            let entry = self.thunks[index].entry;
            self.thunks[index] = ThunkRecord {
                entry,
                room: self.room,
            };
        }
        self.room = outside;
    }

    /// The code of a text begins, whose frames have so many cells.
    pub fn restart(&mut self, cells: u32)
        ensures { self.new ≡ record self.old { room = 0; size = cells } }
    {
        self.room = 0;
        self.size = cells;
    }

    /// Whether all that was to be written is written.
    pub fn is_whole(&self) -> bool
        ensures { result ≡ self.now.whole }
    {
        self.whole
    }

    /// One more instruction.
    #[tactic(auto, unfolding(crate::specs::Drafts::with_instr))]
    pub fn put(&mut self, instr: Instr, line: Line) -> Result<(), AllocError>
        ensures { OnOk result (self.new ≡ with_instr self.old instr line.0) }
    {
        self.instrs.push(Lined { instr, line })?;
        Ok(())
    }

    /// One more instruction, which may push a value on so many others.
    #[tactic(auto, unfolding(crate::specs::Drafts::with_push))]
    pub fn push(&mut self, depth: u32, instr: Instr, line: Line) -> Result<(), AllocError>
        ensures { OnOk result (self.new ≡ with_push self.old depth instr line.0) }
    {
        let room = deeper(depth)?;
        self.instrs.push(Lined { instr, line })?;
        self.room = self.room.max(room);
        Ok(())
    }

    /// The operand stack has room for one value on so many others.
    #[tactic(auto, unfolding(crate::specs::Drafts::with_room))]
    pub fn make_room(&mut self, depth: u32) -> Result<(), AllocError>
        ensures { OnOk result (self.new ≡ with_room self.old depth) }
    {
        let most = deeper(depth)?;
        self.room = self.room.max(most);
        Ok(())
    }

    /// The frame has a temp of this number.
    #[tactic(auto, unfolding(crate::specs::Drafts::with_temp))]
    pub fn take_temp(&mut self, temp: u32) -> Result<(), AllocError>
        ensures { OnOk result (self.new ≡ with_temp self.old temp) }
    {
        let size = deeper(temp)?;
        self.size = self.size.max(size);
        Ok(())
    }

    /// A hole for a jump.
    #[tactic(auto, unfolding(crate::specs::Drafts::with_hole))]
    pub fn leave_hole(&mut self) -> Result<(), AllocError>
        ensures { OnOk result (self.new ≡ with_hole self.old) }
    {
        self.instrs.push(Lined {
            instr: Instr::Halt,
            line: Line(0),
        })?;
        Ok(())
    }

    /// An instruction in the place of a hole.
    #[tactic(auto, unfolding(crate::specs::Drafts::filled_in))]
    pub fn fill_in(&mut self, place: usize, instr: Instr)
        ensures { self.new ≡ filled_in self.old place instr }
    {
        if place < self.instrs.len() {
            self.instrs[place] = Lined {
                instr,
                line: Line(0),
            };
        }
    }

    /// The index of the next instruction.
    pub fn here(&self) -> usize
        ensures { result ≡ length self.now.instrs }
    {
        self.instrs.len()
    }

    /// The index of the next instruction, as an operand.
    pub fn place(&self) -> Result<i64, AllocError>
        ensures { IfOk result (λ p. p ≡ pos (length self.now.instrs)) }
    {
        i64::try_from(self.instrs.len()).map_err(|_| AllocError)
    }

    /// What comes next has no code.
    #[tactic(auto, unfolding(crate::specs::Drafts::given_up))]
    pub fn give_up(&mut self)
        ensures { self.new ≡ given_up self.old }
    {
        self.whole = false;
    }
}

/// One value more.
pub fn deeper(depth: u32) -> Result<u32, AllocError>
    ensures { IfOk result (λ n. n ≡ suc depth) }
{
    depth.checked_add(1).ok_or(AllocError)
}
