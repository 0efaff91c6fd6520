//! Tables by which many blocks are read and written in less time.

pub mod code_words;
pub mod cursor;
pub mod step_table;
