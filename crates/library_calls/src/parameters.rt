//! Parameters of calls that are checked when they are done, and the thunks that stand for them in code.

use codegen_expr::Draft;
use object_machine::fits_now;
use sim_base::{Line, RunError};
use sim_code::{
    ClassRecord, CodeActual, CodeFormal, CodeMode, CodeType, FormalShape, Instr, ThunkRecord,
};
use std::alloc::{AllocError, Global};
use std::test::*;

// Three classes: the second and the third have the first in front.
fn classes_of(alloc: Global) -> Result<Vec<ClassRecord>, AllocError> {
    let mut classes = Vec::new(alloc);
    for prefix in [0, 1, 1].into_iter() {
        classes.push(ClassRecord {
            prefix,
            block: 0,
            declarations: 0,
            statements: 0,
            after_inner: 0,
            process: false,
            matches: Vec::new(alloc),
        })?;
    }
    Ok(classes)
}

fn formal_of(shape: FormalShape, code_type: CodeType, class: u32) -> CodeFormal {
    CodeFormal {
        mode: CodeMode::Reference,
        shape,
        code_type,
        class,
    }
}

// An expression that is neither an array nor a procedure.
fn value_of(code_type: CodeType, class: u32) -> CodeActual {
    CodeActual {
        code_type,
        variable: false,
        array: CodeType::Nothing,
        procedure: false,
        result_type: CodeType::Nothing,
        formals: 0,
        class,
    }
}

fn array_of(array: CodeType, class: u32) -> CodeActual {
    CodeActual {
        array,
        class,
        ..value_of(CodeType::Nothing, 0)
    }
}

fn procedure_of(result_type: CodeType, class: u32, formals: u32) -> CodeActual {
    CodeActual {
        code_type: result_type,
        procedure: true,
        result_type,
        formals,
        class,
        ..value_of(CodeType::Nothing, 0)
    }
}

// Of each pair of a formal and an actual parameter, whether they fit.
#[test]
fn parameters_that_fit(rt: HostRuntime) -> Result<(), Fail> {
    let classes = classes_of(rt.alloc())?;
    let simple = FormalShape::Simple;
    let array = FormalShape::Array;
    let procedure = FormalShape::Procedure;
    let integer = CodeType::Integer;
    let reference = CodeType::Reference;
    let rows = [
        (formal_of(simple, integer, 0), value_of(integer, 0), true),
        (
            formal_of(simple, integer, 0),
            value_of(CodeType::Text, 0),
            false,
        ),
        (
            formal_of(simple, integer, 0),
            procedure_of(integer, 0, 0),
            true,
        ),
        (
            formal_of(simple, integer, 0),
            procedure_of(integer, 0, 1),
            false,
        ),
        // up and down a chain, but not from one branch to another; `none` fits each reference
        (
            formal_of(simple, reference, 1),
            value_of(reference, 2),
            true,
        ),
        (
            formal_of(simple, reference, 2),
            value_of(reference, 1),
            true,
        ),
        (
            formal_of(simple, reference, 2),
            value_of(reference, 3),
            false,
        ),
        (
            formal_of(simple, reference, 2),
            value_of(reference, 0),
            true,
        ),
        (formal_of(simple, integer, 0), value_of(reference, 0), false),
        // an array of the same class alone
        (formal_of(array, integer, 0), array_of(integer, 0), true),
        (formal_of(array, integer, 0), value_of(integer, 0), false),
        (formal_of(array, reference, 2), array_of(reference, 2), true),
        (
            formal_of(array, reference, 1),
            array_of(reference, 2),
            false,
        ),
        // a procedure with a result of the class or of a subclass
        (
            formal_of(procedure, integer, 0),
            procedure_of(integer, 0, 5),
            true,
        ),
        (
            formal_of(procedure, integer, 0),
            value_of(integer, 0),
            false,
        ),
        (
            formal_of(procedure, reference, 1),
            procedure_of(reference, 2, 0),
            true,
        ),
        (
            formal_of(procedure, reference, 2),
            procedure_of(reference, 1, 0),
            false,
        ),
    ];
    for (formal, actual, fits) in rows.into_iter() {
        let wanted = if fits {
            Ok(())
        } else {
            Err(RunError::WrongParameter)
        };
        assert_eq!(rt; fits_now(&classes, &[formal], &[actual]), wanted);
    }
    Ok(())
}

// Another number comes before another type.
#[test]
fn numbers_of_parameters(rt: HostRuntime) {
    let formal = formal_of(FormalShape::Simple, CodeType::Integer, 0);
    let text = value_of(CodeType::Text, 0);
    assert_eq!(rt; fits_now(&[], &[], &[]), Ok(()));
    assert_eq!(rt;
        fits_now(&[], &[formal], &[text, text]),
        Err(RunError::WrongNumberOfParameters)
    );
    assert_eq!(rt;
        fits_now(&[], &[formal], &[]),
        Err(RunError::WrongNumberOfParameters)
    );
}

// A thunk's code begins at the next instruction, its stack holds what its code pushes, and the stack around it is as it was.
#[test]
fn thunks_in_code(rt: HostRuntime) -> Result<(), Fail> {
    let alloc = rt.alloc();
    let mut draft = Draft::new(alloc, Vec::new(alloc));
    draft.push(4, Instr::Int(7), Line(1))?;
    let outside = draft.room();
    let thunk = draft.begin_thunk()?;
    draft.push(0, Instr::Int(8), Line(1))?;
    draft.push(1, Instr::Int(9), Line(1))?;
    draft.put(Instr::Add, Line(1))?;
    draft.put(Instr::EndThunk, Line(0))?;
    draft.end_thunk(thunk, outside);
    assert_eq!(rt; thunk, 0);
    assert_eq!(rt; draft.room(), 5);
    let (instrs, thunks, _) = draft.into_parts();
    assert_eq!(rt; instrs.len(), 5);
    assert!(rt; thunks.first() == Some(&ThunkRecord { entry: 1, room: 2 }));
    Ok(())
}
