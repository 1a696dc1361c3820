// Sheets of records: the record kinds, their fields, and the reader of a sheet.
#![tactic(auto)]

mod field;
mod flow;
mod gate;
mod kind;
mod limited;
mod port;
mod reader;
mod text;
mod writer;

pub use flow::FlowRecord;
pub use gate::{GateRecord, GateState, UnknownState};
pub use kind::RecordKind;
pub use port::PortRecord;
pub use reader::{Reader, whole_records};
pub use text::Start;
pub use writer::write_sheet;
