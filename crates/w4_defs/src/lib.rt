//! The definitions that all other crates are proved against, and the plain types they speak of.
//! Sources: the WebAssembly Core Specification and the WASM-4 reference; where a file says "project rule",
//! the rule is this project's. The definitions themselves are in `specs/`, one file a subject.
#![tactic(auto)]

pub mod basic;
pub mod batch;
pub mod console;
pub mod console_laws;
pub mod drawing_laws;
pub mod editing;
pub mod editing_laws;
pub mod evaluation_laws;
pub mod file_laws;
pub mod film_refusal;
pub mod inspect;
pub mod instruction;
pub mod instruction_table;
pub mod integer;
pub mod live;
pub mod memory;
pub mod module;
pub mod module_laws;
pub mod net_refusal;
pub mod netplay;
pub mod operation;
pub mod order;
pub mod output_laws;
pub mod page;
pub mod place_text;
pub mod refusal;
pub mod sprite;
pub mod status;
pub mod steps;
pub mod tool_laws;
pub mod value;

pub use basic::Basic;
pub use console::{Halt, Import, Input, Sound, TextSource, Tone, Voice};
pub use editing::EditRefusal;
pub use film_refusal::FilmRefusal;
pub use instruction::Instr;
pub use instruction_table::{IntegerType, Row, Signedness};
pub use integer::{Binary, Compare, Unary};
pub use live::LiveOrder;
pub use memory::OutOfMemory;
pub use module::{
    Body, Element, Export, ExportKind, FuncType, GlobalEntry, ImportEntry, ImportKind, Locals,
    Module, Segment,
};
pub use net_refusal::NetRefusal;
pub use operation::Op;
pub use order::Order;
pub use page::PageBytes;
pub use place_text::PlaceText;
pub use refusal::{CartKind, ProfileRefusal};
pub use sprite::Sprite;
pub use status::{Finish, RecordingKind, Refusal, ScriptKind, Status};
pub use steps::Steps;
pub use value::{Cause, GlobalType, Limits, Val, ValType};
