//! The table of the instructions: numbers, names and operands.
ghost use Rattle.std.specs.Prelude.{◌≡◌, ◌<◌, ◌≤◌, [], ◌∷◌, pos, length};
ghost use Rattle.code_file.specs.Table.{instructions, padded, row_of};
ghost use Rattle.code_file.specs.Reading.{instr_of, operand_count};

use sim_code::Instr;

/// What the table says of an instruction.
#[derive(Clone, Copy)]
pub struct Row {
    /// The number.
    pub number: u8,
    /// The name.
    pub name: &'static str,
    /// The operands, and 0 where it has none.
    pub operands: [i64; 3],
    /// How many operands it has.
    pub count: usize,
}

fn bare(number: u8, name: &'static str) -> Row
    ensures number { result.number ≡ number }
    ensures name { result.name.now ≡ name.now }
    ensures operands { result.operands ≡ pos 0 ∷ pos 0 ∷ pos 0 ∷ [] }
    ensures count { result.count ≡ 0 }
{
    Row {
        number,
        name,
        operands: [0, 0, 0],
        count: 0,
    }
}

fn one(number: u8, name: &'static str, a: i64) -> Row
    ensures number { result.number ≡ number }
    ensures name { result.name.now ≡ name.now }
    ensures operands { result.operands ≡ a ∷ pos 0 ∷ pos 0 ∷ [] }
    ensures count { result.count ≡ 1 }
{
    Row {
        number,
        name,
        operands: [a, 0, 0],
        count: 1,
    }
}

fn two(number: u8, name: &'static str, a: i64, b: i64) -> Row
    ensures number { result.number ≡ number }
    ensures name { result.name.now ≡ name.now }
    ensures operands { result.operands ≡ a ∷ b ∷ pos 0 ∷ [] }
    ensures count { result.count ≡ 2 }
{
    Row {
        number,
        name,
        operands: [a, b, 0],
        count: 2,
    }
}

fn three(number: u8, name: &'static str, a: i64, b: i64, c: i64) -> Row
    ensures number { result.number ≡ number }
    ensures name { result.name.now ≡ name.now }
    ensures operands { result.operands ≡ a ∷ b ∷ c ∷ [] }
    ensures count { result.count ≡ 3 }
{
    Row {
        number,
        name,
        operands: [a, b, c],
        count: 3,
    }
}

/// What the table says of an instruction.
pub fn row_of(instr: Instr) -> Row
    ensures number { result.number ≡ (row_of instr).number }
    ensures within { result.number < instructions }
    ensures name { result.name.now ≡ (row_of instr).name }
    ensures operands { result.operands ≡ padded (row_of instr).operands }
    ensures count { result.count ≡ length (row_of instr).operands }
    ensures room { result.count ≤ 3 }
{
    match instr {
        Instr::Halt => bare(0, "Halt"),
        Instr::Int(a) => one(1, "Int", a),
        Instr::Bool(a) => one(2, "Bool", a),
        Instr::Char(a) => one(3, "Char", a),
        Instr::TextK(a) => one(4, "TextK", a),
        Instr::None => bare(5, "None"),
        Instr::NoText => bare(6, "NoText"),
        Instr::Link(a) => one(7, "Link", a),
        Instr::This(a) => one(8, "This", a),
        Instr::Addr { level, cell, class } => three(9, "Addr", level, cell, class),
        Instr::AddrR { cell, class } => two(10, "AddrR", cell, class),
        Instr::AddrImg(a) => one(11, "AddrImg", a),
        Instr::Elem { subscripts, class } => two(12, "Elem", subscripts, class),
        Instr::Fetch => bare(13, "Fetch"),
        Instr::Put => bare(14, "Put"),
        Instr::Load { level, cell } => two(15, "Load", level, cell),
        Instr::Store { level, cell } => two(16, "Store", level, cell),
        Instr::Dup => bare(17, "Dup"),
        Instr::Pop => bare(18, "Pop"),
        Instr::Swap => bare(19, "Swap"),
        Instr::Neg => bare(20, "Neg"),
        Instr::Add => bare(21, "Add"),
        Instr::Sub => bare(22, "Sub"),
        Instr::Mul => bare(23, "Mul"),
        Instr::Div => bare(24, "Div"),
        Instr::Pow => bare(25, "Pow"),
        Instr::Rel(a) => one(26, "Rel", a),
        Instr::RelT(a) => one(27, "RelT", a),
        Instr::Same => bare(28, "Same"),
        Instr::SameT => bare(29, "SameT"),
        Instr::Not => bare(30, "Not"),
        Instr::And => bare(31, "And"),
        Instr::Or => bare(32, "Or"),
        Instr::Imp => bare(33, "Imp"),
        Instr::Eqv => bare(34, "Eqv"),
        Instr::Is(a) => one(35, "Is", a),
        Instr::In(a) => one(36, "In", a),
        Instr::Qua(a) => one(37, "Qua", a),
        Instr::Jump(a) => one(38, "Jump", a),
        Instr::JumpF(a) => one(39, "JumpF", a),
        Instr::Tick => bare(40, "Tick"),
        Instr::StepTest => bare(41, "StepTest"),
        Instr::Enter(a) => one(42, "Enter", a),
        Instr::Leave => bare(43, "Leave"),
        Instr::Call { block, values } => two(44, "Call", block, values),
        Instr::Return => bare(45, "Return"),
        Instr::ProcVal(a) => one(46, "ProcVal", a),
        Instr::Virt(a) => one(47, "Virt", a),
        Instr::Check(a) => one(48, "Check", a),
        Instr::Param {
            formal,
            thunk,
            procedure,
        } => three(49, "Param", formal, thunk, procedure),
        Instr::CallV(a) => one(50, "CallV", a),
        Instr::Thunk(a) => one(51, "Thunk", a),
        Instr::NameVal { level, cell, class } => three(52, "NameVal", level, cell, class),
        Instr::NameAddr { level, cell, value } => three(53, "NameAddr", level, cell, value),
        Instr::EndThunk => bare(54, "EndThunk"),
        Instr::New { class, values } => two(55, "New", class, values),
        Instr::Pref { block, values } => two(56, "Pref", block, values),
        Instr::NextDecl(a) => one(57, "NextDecl", a),
        Instr::Inner(a) => one(58, "Inner", a),
        Instr::EndLevel(a) => one(59, "EndLevel", a),
        Instr::Array {
            element,
            dimensions,
        } => two(60, "Array", element, dimensions),
        Instr::CopyArr => bare(61, "CopyArr"),
        Instr::Keep => bare(62, "Keep"),
        Instr::AssignT => bare(63, "AssignT"),
        Instr::Std(a) => one(64, "Std", a),
        Instr::Act(a) => one(65, "Act", a),
        Instr::Detach => bare(66, "Detach"),
        Instr::Attach => bare(67, "Attach"),
        Instr::Resume => bare(68, "Resume"),
        Instr::NotNone => bare(69, "NotNone"),
    }
}

/// The instruction of a number with its operands.
pub fn instr_of(number: u8, a: i64, b: i64, c: i64) -> Instr
    requires { number < instructions }
    ensures { result ≡ instr_of number a b c }
{
    match number {
        0 => Instr::Halt,
        1 => Instr::Int(a),
        2 => Instr::Bool(a),
        3 => Instr::Char(a),
        4 => Instr::TextK(a),
        5 => Instr::None,
        6 => Instr::NoText,
        7 => Instr::Link(a),
        8 => Instr::This(a),
        9 => Instr::Addr {
            level: a,
            cell: b,
            class: c,
        },
        10 => Instr::AddrR { cell: a, class: b },
        11 => Instr::AddrImg(a),
        12 => Instr::Elem {
            subscripts: a,
            class: b,
        },
        13 => Instr::Fetch,
        14 => Instr::Put,
        15 => Instr::Load { level: a, cell: b },
        16 => Instr::Store { level: a, cell: b },
        17 => Instr::Dup,
        18 => Instr::Pop,
        19 => Instr::Swap,
        20 => Instr::Neg,
        21 => Instr::Add,
        22 => Instr::Sub,
        23 => Instr::Mul,
        24 => Instr::Div,
        25 => Instr::Pow,
        26 => Instr::Rel(a),
        27 => Instr::RelT(a),
        28 => Instr::Same,
        29 => Instr::SameT,
        30 => Instr::Not,
        31 => Instr::And,
        32 => Instr::Or,
        33 => Instr::Imp,
        34 => Instr::Eqv,
        35 => Instr::Is(a),
        36 => Instr::In(a),
        37 => Instr::Qua(a),
        38 => Instr::Jump(a),
        39 => Instr::JumpF(a),
        40 => Instr::Tick,
        41 => Instr::StepTest,
        42 => Instr::Enter(a),
        43 => Instr::Leave,
        44 => Instr::Call {
            block: a,
            values: b,
        },
        45 => Instr::Return,
        46 => Instr::ProcVal(a),
        47 => Instr::Virt(a),
        48 => Instr::Check(a),
        49 => Instr::Param {
            formal: a,
            thunk: b,
            procedure: c,
        },
        50 => Instr::CallV(a),
        51 => Instr::Thunk(a),
        52 => Instr::NameVal {
            level: a,
            cell: b,
            class: c,
        },
        53 => Instr::NameAddr {
            level: a,
            cell: b,
            value: c,
        },
        54 => Instr::EndThunk,
        55 => Instr::New {
            class: a,
            values: b,
        },
        56 => Instr::Pref {
            block: a,
            values: b,
        },
        57 => Instr::NextDecl(a),
        58 => Instr::Inner(a),
        59 => Instr::EndLevel(a),
        60 => Instr::Array {
            element: a,
            dimensions: b,
        },
        61 => Instr::CopyArr,
        62 => Instr::Keep,
        63 => Instr::AssignT,
        64 => Instr::Std(a),
        65 => Instr::Act(a),
        66 => Instr::Detach,
        67 => Instr::Attach,
        68 => Instr::Resume,
        69.. => Instr::NotNone,
    }
}

/// How many operands the instruction of a number has.
pub fn operand_count(number: u8) -> usize
    requires { number < instructions }
    ensures { result ≡ operand_count number }
{
    row_of(instr_of(number, 0, 0, 0)).count
}
