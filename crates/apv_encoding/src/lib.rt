//! Definitions of what an encoder makes of its settings and its inputs, with their laws, and no code.
#![tactic(auto)]

mod laws;

pub use laws::{
    answer, chosen, ending, generated_samples, levels, next_frame, tracks, unit, valid_unit,
    written_decodes,
};
