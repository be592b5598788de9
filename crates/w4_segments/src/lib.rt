//! Work split over threads (project rule): films, settling, and many recordings at once. Each worker has a
//! console of its own, and nothing that changes is shared. The layer above relies on each answer being that
//! of one worker, whatever their number, and whatever a gate does.
#![tactic(auto)]

pub mod batching;
pub mod film_pieces;
pub mod filming;
pub mod gate;
mod pieces;
pub mod resources;
mod rounds;
pub mod settling;
mod worker;
pub mod workers;

pub use batching::batch;
pub use film_pieces::FilmPieces;
pub use filming::film;
pub use gate::{Gate, OpenGate};
pub use resources::Resources;
pub use settling::{settle_wide, settle_wide_counted};
pub use w4_defs::FilmRefusal;
pub use w4_defs::batch::BatchRow;
pub use workers::{MOST_WORKERS, Workers};
