// A type table as text, with names for its types, fields and constants, and back.
pub use table_door::{yexwalu_read_table as read_table, yexwalu_write_table as write_table};
