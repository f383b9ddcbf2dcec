//! The records of a code file.
ghost use Rattle.std.specs.Prelude.{◌≡◌};

use crate::choices::{
    put_kind, put_mode, put_shape, put_truth, put_type, read_kind, read_mode, read_shape,
    read_truth, read_type,
};
use crate::fault::Fault;
use crate::fields::{
    put_characters, put_count, put_number, put_opcode, put_operands, read_characters, read_number,
    read_opcode, read_operand,
};
use crate::instructions::{instr_of, operand_count, row_of};
use crate::sections::{Record, put_records, put_section, read_records, read_section};
use sim_base::{ByteString, Line};
use sim_code::{
    ActualList, BlockRecord, ClassRecord, CodeActual, CodeFormal, CodeType, Lined, Match,
    ThunkRecord,
};
use std::alloc::{AllocError, Global};

impl Record for ByteString {
    ghost use Rattle.code_file.specs.Reading.{text_at};
    ghost use Rattle.code_file.specs.Spelling.{text_fields};
    ghost use Rattle.std.proofs.Common.{rules};

    ghost fields = { text_fields };

    ghost reading = { text_at };

    ghost LEAST = { 4 };

    const LEAST: usize = 4;

    #[tactic(auto, unfolding(crate::specs::Reading::text_at))]
    fn read(alloc: Global, bytes: &[u8]) -> Result<(ByteString, &[u8]), Fault> {
        let (count, rest) = read_number(bytes)?;
        let (text, rest) = read_characters(alloc, rest, count)?;
        Ok((ByteString::new(text), rest))
    }

    fn write(&self, out: &mut Vec<u8>) -> Result<(), AllocError> {
        let text = self.as_bytes();
        put_count(out, text.len())?;
        put_characters(out, text)?;
        Ok(())
    }

    ghost some = { Prim.search rules };
}

impl Record for CodeType {
    ghost use Rattle.code_file.specs.Reading.{type_at};
    ghost use Rattle.code_file.specs.Spelling.{type_fields};
    ghost use Rattle.std.proofs.Common.{rules};

    ghost fields = { type_fields };

    ghost reading = { type_at };

    ghost LEAST = { 4 };

    const LEAST: usize = 4;

    fn read(_alloc: Global, bytes: &[u8]) -> Result<(CodeType, &[u8]), Fault> {
        read_type(bytes)
    }

    fn write(&self, out: &mut Vec<u8>) -> Result<(), AllocError> {
        put_type(out, *self)?;
        Ok(())
    }

    ghost some = { Prim.search rules };
}

impl Record for CodeFormal {
    ghost use Rattle.code_file.specs.Reading.{formal_at};
    ghost use Rattle.code_file.specs.Spelling.{formal_fields};
    ghost use Rattle.std.proofs.Common.{rules};

    ghost fields = { formal_fields };

    ghost reading = { formal_at };

    ghost LEAST = { 16 };

    const LEAST: usize = 16;

    #[tactic(auto, unfolding(crate::specs::Reading::formal_at))]
    fn read(_alloc: Global, bytes: &[u8]) -> Result<(CodeFormal, &[u8]), Fault> {
        let (mode, rest) = read_mode(bytes)?;
        let (shape, rest) = read_shape(rest)?;
        let (code_type, rest) = read_type(rest)?;
        let (class, rest) = read_number(rest)?;
        Ok((
            CodeFormal {
                mode,
                shape,
                code_type,
                class,
            },
            rest,
        ))
    }

    fn write(&self, out: &mut Vec<u8>) -> Result<(), AllocError> {
        put_mode(out, self.mode)?;
        put_shape(out, self.shape)?;
        put_type(out, self.code_type)?;
        put_number(out, self.class)?;
        Ok(())
    }

    ghost some = { Prim.search rules };
}

impl Record for BlockRecord {
    ghost use Rattle.code_file.specs.Reading.{block_at};
    ghost use Rattle.code_file.specs.Spelling.{block_fields};
    ghost use Rattle.std.proofs.Common.{rules};

    ghost fields = { block_fields };

    ghost reading = { block_at };

    ghost LEAST = { 40 };

    const LEAST: usize = 40;

    #[tactic(auto, unfolding(crate::specs::Reading::block_at))]
    fn read(alloc: Global, bytes: &[u8]) -> Result<(BlockRecord, &[u8]), Fault> {
        let (kind, rest) = read_kind(bytes)?;
        let (level, rest) = read_number(rest)?;
        let (cells, rest) = read_number(rest)?;
        let (temps, rest) = read_number(rest)?;
        let (room, rest) = read_number(rest)?;
        let (entry, rest) = read_number(rest)?;
        let (class_free, rest) = read_truth(rest)?;
        let (result_type, rest) = read_type(rest)?;
        let (class, rest) = read_number(rest)?;
        let (count, rest) = read_number(rest)?;
        let (types, rest) = read_records(alloc, rest, cells as usize + temps as usize)?;
        let (formals, rest) = read_records(alloc, rest, count as usize)?;
        let block = BlockRecord {
            kind,
            level,
            cells,
            temps,
            room,
            entry,
            class_free,
            result_type,
            class,
            types,
            formals,
        };
        Ok((block, rest))
    }

    fn write(&self, out: &mut Vec<u8>) -> Result<(), AllocError> {
        let formals = self.formals.as_slice();
        put_kind(out, self.kind)?;
        put_number(out, self.level)?;
        put_number(out, self.cells)?;
        put_number(out, self.temps)?;
        put_number(out, self.room)?;
        put_number(out, self.entry)?;
        put_truth(out, self.class_free)?;
        put_type(out, self.result_type)?;
        put_number(out, self.class)?;
        put_count(out, formals.len())?;
        put_records(out, self.types.as_slice())?;
        put_records(out, formals)?;
        Ok(())
    }

    ghost some = { Prim.search rules };
}

impl Record for Match {
    ghost use Rattle.code_file.specs.Reading.{match_at};
    ghost use Rattle.code_file.specs.Spelling.{match_fields};
    ghost use Rattle.std.proofs.Common.{rules};

    ghost fields = { match_fields };

    ghost reading = { match_at };

    ghost LEAST = { 8 };

    const LEAST: usize = 8;

    #[tactic(auto, unfolding(crate::specs::Reading::match_at))]
    fn read(_alloc: Global, bytes: &[u8]) -> Result<(Match, &[u8]), Fault> {
        let (virtual_number, rest) = read_number(bytes)?;
        let (block, rest) = read_number(rest)?;
        Ok((
            Match {
                virtual_number,
                block,
            },
            rest,
        ))
    }

    fn write(&self, out: &mut Vec<u8>) -> Result<(), AllocError> {
        put_number(out, self.virtual_number)?;
        put_number(out, self.block)?;
        Ok(())
    }

    ghost some = { Prim.search rules };
}

impl Record for ClassRecord {
    ghost use Rattle.code_file.specs.Reading.{class_at};
    ghost use Rattle.code_file.specs.Spelling.{class_fields};
    ghost use Rattle.std.proofs.Common.{rules};

    ghost fields = { class_fields };

    ghost reading = { class_at };

    ghost LEAST = { 28 };

    const LEAST: usize = 28;

    #[tactic(auto, unfolding(crate::specs::Reading::class_at))]
    fn read(alloc: Global, bytes: &[u8]) -> Result<(ClassRecord, &[u8]), Fault> {
        let (prefix, rest) = read_number(bytes)?;
        let (block, rest) = read_number(rest)?;
        let (declarations, rest) = read_number(rest)?;
        let (statements, rest) = read_number(rest)?;
        let (after_inner, rest) = read_number(rest)?;
        let (process, rest) = read_truth(rest)?;
        let (matches, rest) = read_section(alloc, rest)?;
        let class = ClassRecord {
            prefix,
            block,
            declarations,
            statements,
            after_inner,
            process,
            matches,
        };
        Ok((class, rest))
    }

    fn write(&self, out: &mut Vec<u8>) -> Result<(), AllocError> {
        put_number(out, self.prefix)?;
        put_number(out, self.block)?;
        put_number(out, self.declarations)?;
        put_number(out, self.statements)?;
        put_number(out, self.after_inner)?;
        put_truth(out, self.process)?;
        put_section(out, self.matches.as_slice())?;
        Ok(())
    }

    ghost some = { Prim.search rules };
}

impl Record for ThunkRecord {
    ghost use Rattle.code_file.specs.Reading.{thunk_at};
    ghost use Rattle.code_file.specs.Spelling.{thunk_fields};
    ghost use Rattle.std.proofs.Common.{rules};

    ghost fields = { thunk_fields };

    ghost reading = { thunk_at };

    ghost LEAST = { 8 };

    const LEAST: usize = 8;

    #[tactic(auto, unfolding(crate::specs::Reading::thunk_at))]
    fn read(_alloc: Global, bytes: &[u8]) -> Result<(ThunkRecord, &[u8]), Fault> {
        let (entry, rest) = read_number(bytes)?;
        let (room, rest) = read_number(rest)?;
        Ok((ThunkRecord { entry, room }, rest))
    }

    fn write(&self, out: &mut Vec<u8>) -> Result<(), AllocError> {
        put_number(out, self.entry)?;
        put_number(out, self.room)?;
        Ok(())
    }

    ghost some = { Prim.search rules };
}

impl Record for CodeActual {
    ghost use Rattle.code_file.specs.Reading.{actual_at};
    ghost use Rattle.code_file.specs.Spelling.{actual_fields};
    ghost use Rattle.std.proofs.Common.{rules};

    ghost fields = { actual_fields };

    ghost reading = { actual_at };

    ghost LEAST = { 28 };

    const LEAST: usize = 28;

    #[tactic(auto, unfolding(crate::specs::Reading::actual_at))]
    fn read(_alloc: Global, bytes: &[u8]) -> Result<(CodeActual, &[u8]), Fault> {
        let (code_type, rest) = read_type(bytes)?;
        let (variable, rest) = read_truth(rest)?;
        let (array, rest) = read_type(rest)?;
        let (procedure, rest) = read_truth(rest)?;
        let (result_type, rest) = read_type(rest)?;
        let (formals, rest) = read_number(rest)?;
        let (class, rest) = read_number(rest)?;
        let actual = CodeActual {
            code_type,
            variable,
            array,
            procedure,
            result_type,
            formals,
            class,
        };
        Ok((actual, rest))
    }

    fn write(&self, out: &mut Vec<u8>) -> Result<(), AllocError> {
        put_type(out, self.code_type)?;
        put_truth(out, self.variable)?;
        put_type(out, self.array)?;
        put_truth(out, self.procedure)?;
        put_type(out, self.result_type)?;
        put_number(out, self.formals)?;
        put_number(out, self.class)?;
        Ok(())
    }

    ghost some = { Prim.search rules };
}

impl Record for ActualList {
    ghost use Rattle.code_file.specs.Reading.{list_at};
    ghost use Rattle.code_file.specs.Spelling.{list_fields};
    ghost use Rattle.std.proofs.Common.{rules};

    ghost fields = { list_fields };

    ghost reading = { list_at };

    ghost LEAST = { 4 };

    const LEAST: usize = 4;

    #[tactic(auto, unfolding(crate::specs::Reading::list_at))]
    fn read(alloc: Global, bytes: &[u8]) -> Result<(ActualList, &[u8]), Fault> {
        let (actuals, rest) = read_section(alloc, bytes)?;
        Ok((ActualList { actuals }, rest))
    }

    fn write(&self, out: &mut Vec<u8>) -> Result<(), AllocError> {
        put_section(out, self.actuals.as_slice())?;
        Ok(())
    }

    ghost some = { Prim.search rules };
}

impl Record for Lined {
    ghost use Rattle.code_file.specs.Reading.{lined_at};
    ghost use Rattle.code_file.specs.Spelling.{lined_fields};
    ghost use Rattle.std.proofs.Common.{rules};

    ghost fields = { lined_fields };

    ghost reading = { lined_at };

    ghost LEAST = { 29 };

    const LEAST: usize = 29;

    #[tactic(auto, unfolding(crate::specs::Reading::lined_at))]
    fn read(_alloc: Global, bytes: &[u8]) -> Result<(Lined, &[u8]), Fault> {
        let (number, rest) = read_opcode(bytes)?;
        let count = operand_count(number);
        let (a, rest) = read_operand(rest, count > 0)?;
        let (b, rest) = read_operand(rest, count > 1)?;
        let (c, rest) = read_operand(rest, count > 2)?;
        let (line, rest) = read_number(rest)?;
        let lined = Lined {
            instr: instr_of(number, a, b, c),
            line: Line(line),
        };
        Ok((lined, rest))
    }

    fn write(&self, out: &mut Vec<u8>) -> Result<(), AllocError> {
        let row = row_of(self.instr);
        put_opcode(out, row.number)?;
        put_operands(out, &row.operands)?;
        put_number(out, self.line.0)?;
        Ok(())
    }

    ghost some = { Prim.search rules };
}
