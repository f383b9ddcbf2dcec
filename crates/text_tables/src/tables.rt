//! All tables of a program.
ghost use Rattle.std.specs.Prelude.{IfOk};
ghost use Rattle.codegen_expr.specs.Known.{Known};

use crate::by_token::texts_by_token;
use crate::constants::constants_of;
use crate::formals::{class_formals_table, formals_of};
use crate::numbers::numbers_of;
use crate::places::{cell_counts, classes_of, connections_of, no_slots, processes_of, results_of};
use codegen_expr::Cells;
use program_texts::texts_of;
use sim_scope::Bound;
use std::alloc::{AllocError, Global};

/// The tables of a program. Time and memory are linear in the program.
pub fn cells_of(alloc: Global, bound: &Bound) -> Result<Cells, AllocError>
    ensures { IfOk result (λ cells. Known bound.now cells) }
{
    let texts = texts_of(alloc, &bound.program)?;
    let results = results_of(alloc, &texts)?;
    let mut slots = no_slots(alloc, bound.scopes.declarations().len())?;
    let counts = cell_counts(alloc, bound, &texts, &mut slots)?;
    let constants = constants_of(alloc, &texts, bound.scopes.declarations())?;
    let by_token = texts_by_token(alloc, bound)?;
    let mut numbers = Vec::new(alloc);
    let block_count = numbers_of(bound.scopes.blocks(), &mut numbers)?;
    let formals = formals_of(alloc, bound, bound.scopes.blocks())?;
    let classes = classes_of(alloc, &texts)?;
    let connections = connections_of(alloc, &texts)?;
    let processes = processes_of(alloc, &texts)?;
    let class_formals = class_formals_table(alloc, bound)?;
    Ok(Cells {
        slots,
        constants,
        texts: by_token,
        results,
        classes,
        connections,
        processes,
        counts,
        numbers,
        block_count,
        formals,
        class_formals,
    })
}
