//! The code of expressions.
#![tactic(auto)]

mod actuals;
mod calls;
mod cells;
mod classes;
mod dots;
mod draft;
mod emit;
mod forms;
mod instructions;
mod joining;
mod leaves;
mod lookups;
mod names;
mod objects;
mod operands;
mod operators;
mod procedures;
mod selectors;
mod sets;
mod simulations;
mod spot;
mod standard;
mod thunks;
mod variables;

pub use actuals::code_type;
pub use calls::{emit_actuals, emit_element, emit_named, emit_named_element};
pub use cells::{Cells, ConstantValue};
pub use classes::{
    class_at, class_parameters, connection_at, connection_slot, first_of, found_at, frame_text,
    is_class, is_connected, is_connection, is_kept_in, is_process, origin_slot, qualification,
};
pub use draft::{Draft, Planned, deeper};
pub use emit::emit_expr;
pub use forms::{Form, form_of, typed_token};
pub use instructions::{
    address_instr, attribute_instr, call_instr, character_instr, element_instr, integer_instr,
    link_instr, load_instr, member_instr, new_instr, standard_instr, store_instr, this_instr,
};
pub use leaves::{emit_cell, emit_connected, emit_fit, emit_link_to, emit_this};
pub use lookups::{
    block_number, block_of, cell_count, cell_number, constant_value, denoted, formals_of_block,
    gives, has_result, is_around, is_text, is_text_at, level_of, line_at, prefix_of, slot_of,
    type_at,
};
pub use names::{StandardCode, standard_leaves};
pub use operands::emit_list;
pub use operators::Object;
pub use selectors::{emit_before, emit_dot};
pub use spot::{Spot, spot_in};
pub use standard::emit_standard;
pub use thunks::{by_name, class_or_none, emit_name_place, formal_qualification};
pub use variables::{emit_named_place, emit_place};
