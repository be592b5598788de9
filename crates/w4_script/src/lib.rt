//! Texts of lines (project rule): edit scripts, logs of netplay, queries of memory, lists of names and the
//! lines of a live session. The layers above rely on this: what is read is what the definitions in w4_defs
//! say of the bytes, and a refusal names the first bad line.
#![tactic(auto)]

mod frame;
pub mod laws;
mod lines;
mod live;
mod name_lines;
mod names;
mod net_log;
mod number;
mod order;
mod order_file;
mod order_words;
mod pieces;
mod query;
mod reading;
mod refusal;
mod script;
mod script_words;
mod words;

pub use lines::{Line, script_lines};
pub use live::{Asked, MOST_LINE_BYTES, read_live_line};
pub use names::{MOST_LIST_BYTES, read_names};
pub use net_log::read_log;
pub use number::number_of;
pub use order_file::MOST_BYTES;
pub use query::read_query;
pub use refusal::ScriptRefusal;
pub use script::read_script;
pub use w4_defs::Order;
