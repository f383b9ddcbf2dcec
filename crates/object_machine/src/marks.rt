//! Which objects are linkages and processes, and which blocks have processes: the marks of classes.
ghost use Rattle.std.specs.Prelude.{◌≡◌, ◌||◌, Some, slice_get};
ghost use Rattle.sim_code.specs.Classes.{is_marked, is_marked_in, levels, or_else, process_behind as process_behind_of, process_class as process_class_of};
ghost use Rattle.sim_code.specs.Code.{CodeOf};
ghost use Rattle.sim_code.specs.Levels.{is_process_class, linkage_of_class as linkage_of_class_of};
ghost use Rattle.object_machine.specs.Enrolling.{any_level, linkage_from, made_as};

use sim_code::{BlockKind, BlockRecord, ClassRecord};

/// What an object becomes that is a linkage.
#[derive(Clone, Copy)]
pub enum Kind {
    /// A link.
    Link,
    /// A head.
    Head,
}

// The mark of `linkage`, and that of `head`.
const LINKAGE: u32 = 1;

const HEAD: u32 = 3;

/// The mark of `process`.
pub const PROCESS: u32 = 4;

/// Whether a block is that of the objects of a class with a mark.
#[inline(always)]
pub fn is_marked_block(blocks: &[BlockRecord], number: usize, mark: u32) -> bool
    ensures { result ≡ is_marked_in mark (slice_get blocks.now number) }
{
    let Some(block) = blocks.get(number) else {
        return false;
    };
    match block.kind {
        BlockKind::Object => block.entry == mark,
        _ => false,
    }
}

// Whether the block of a class has a mark, or something was found already.
#[inline(always)]
fn noted(found: bool, blocks: &[BlockRecord], record: &ClassRecord, mark: u32) -> bool
    ensures { result ≡ (is_marked_in mark (slice_get blocks.now record.now.block) || found) }
{
    if is_marked_block(blocks, record.block as usize, mark) {
        return true;
    }
    found
}

/// Whether the block of some level of a class has a mark, if the class has levels.
pub fn has_mark(
    blocks: &[BlockRecord],
    classes: &[ClassRecord],
    class: u32,
    mark: u32,
) -> Option<bool>
    ensures row { (code : CodeOf) → code.blocks ≡ blocks.now → code.classes ≡ classes.now → result ≡ any_level (is_marked code mark) (levels code class) }
{
    let mut at = class;
    let mut found = false;
    for _ in 0..class {
        if at == 0 {
            return None;
        }
        let Some(record) = classes.get(at as usize - 1) else {
            return None;
        };
        let found_now = noted(found, blocks, record, mark);
        let prefix = record.prefix;
        if prefix == 0 {
            return Some(found_now);
        }
        if prefix >= at {
            return None;
        }
        found = found_now;
        at = prefix;
    }
    None
}

/// What the objects of a class become, if they are linkages.
pub fn linkage_of_class(blocks: &[BlockRecord], classes: &[ClassRecord], class: u32) -> Option<Kind>
    ensures row { (code : CodeOf) → code.blocks ≡ blocks.now → code.classes ≡ classes.now → made_as result ≡ linkage_of_class_of code class }
{
    let head = has_mark(blocks, classes, class, HEAD);
    let linkage = has_mark(blocks, classes, class, LINKAGE);
    kind_by(head, linkage)
}

// What an object becomes whose levels were asked for both marks, if it has levels.
#[inline(always)]
fn kind_by(head: Option<bool>, linkage: Option<bool>) -> Option<Kind>
    ensures { made_as result ≡ linkage_from head linkage }
{
    match head {
        Some(true) => match linkage {
            Some(_) => Some(Kind::Head),
            None => None,
        },
        Some(false) => match linkage {
            Some(true) => Some(Kind::Link),
            Some(false) => None,
            None => None,
        },
        None => None,
    }
}

// The class `process` directly behind a class. The classes of `simulation` follow directly behind the class that has it in front, and `process` is
// the fourth.
fn process_behind(blocks: &[BlockRecord], record: &ClassRecord) -> Option<u32>
    ensures { (code : CodeOf) → code.blocks ≡ blocks.now → result ≡ process_behind_of code (Some record.now) }
{
    let number = record.block as usize + 4;
    if !is_marked_block(blocks, number, PROCESS) {
        return None;
    }
    let Some(block) = blocks.get(number) else {
        return None;
    };
    Some(block.class)
}

// The class that is found, or that of a level further in.
#[inline(always)]
fn found_or(found: Option<u32>, inner: Option<u32>) -> Option<u32>
    ensures { result ≡ or_else found inner }
{
    match found {
        Some(class) => Some(class),
        None => inner,
    }
}

/// The class `process` that one of the levels of a class has directly behind it: the outermost one, if the class has levels.
pub fn process_class(blocks: &[BlockRecord], classes: &[ClassRecord], class: u32) -> Option<u32>
    ensures row { (code : CodeOf) → code.blocks ≡ blocks.now → code.classes ≡ classes.now → result ≡ process_class_of code class }
{
    let mut at = class;
    let mut found = None;
    for _ in 0..class {
        if at == 0 {
            return None;
        }
        let Some(record) = classes.get(at as usize - 1) else {
            return None;
        };
        let found_now = found_or(process_behind(blocks, record), found);
        let prefix = record.prefix;
        if prefix == 0 {
            return found_now;
        }
        if prefix >= at {
            return None;
        }
        found = found_now;
        at = prefix;
    }
    None
}

/// Whether the objects of a class are processes.
pub fn is_process(classes: &[ClassRecord], class: u32) -> bool
    ensures row { (code : CodeOf) → code.classes ≡ classes.now → result ≡ is_process_class code class }
{
    if class == 0 {
        return false;
    }
    let Some(record) = classes.get(class as usize - 1) else {
        return false;
    };
    record.process
}
