//! Devices that bytes come from and go to, and what texts are made of: lines, blanks, numbers and quoted labels.
#![tactic(auto)]

mod batch;
mod bytes;
mod devices;
mod digits;
mod line_reader;
mod lines;
mod memory;
mod quoted;
mod read;
mod text;
mod write;

pub use batch::{Batch, write_all};
pub use devices::{Failed, Shelf, Sink, Source};
pub use digits::Digits;
pub use line_reader::{Got, LineReader};
pub use lines::{LINE_LIMIT, LineAt, line_at, without_cr};
pub use memory::{MemShelf, MemSink, MemSource};
pub use quoted::{MAX_LABEL_BYTES, in_quotes, quoted_at, unquoted};
pub use read::{Intake, READ_LIMIT, ReadError, TEXT_LIMIT, read_all, read_into};
pub use text::{number, token_at, trim, trim_start};
pub use write::{write_number, write_whole};
