//! The arguments of NFS version 3 (RFC 1813, section 3.3), read and written.
#![tactic(auto)]

mod attributes;
mod changes;
mod fault;
mod handles;
mod how;
mod laws;
mod length;
mod procedure;
mod queries;
mod reading;
mod writing;

pub use attributes::{put_moment, take_moment};
pub use fault::ArgFault;
pub use laws::{
    accepted_arguments_are_written, args_at_decides, arguments_have_one_reading,
    written_arguments_are_read,
};
pub use length::args_length;
pub use procedure::procedure_number;
pub use reading::read_args;
pub use writing::{put_args, write_args};
