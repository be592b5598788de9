//! Workers: each has a console of its own. None has a snapshot or an editor.

ghost use Rattle.std.specs.Prelude.{◌≡◌, All, IfOk, vec_len};
ghost use Rattle.w4_segments.specs.Worker.{HasCartTypes};

use std::alloc::Global;
use w4_console::Console;
use w4_defs::OutOfMemory;
use w4_image::Screen;
use wasm_register::Cart;

/// A stretch of a recording. The piece `number` goes from `place`, where the console stands with the state of
/// entry `entry`, to `end`; in a film it has the places from `first` up to `end`.
#[derive(Clone, Copy)]
pub struct Task {
    pub number: usize,
    pub entry: usize,
    pub place: usize,
    pub first: usize,
    pub end: usize,
}

/// A worker with its task, if it has one, and the screens of a piece of a film, one a place.
#[derive(Drop)]
pub struct Worker {
    pub console: Console,
    pub task: Option<Task>,
    pub screens: Vec<Screen>,
}

impl Worker {
    /// A worker without a task.
    fn new(alloc: Global, cart: &Cart) -> Result<Worker, OutOfMemory>
        ensures { IfOk result (HasCartTypes cart.now) }
    {
        Ok(Worker {
            console: Console::new(alloc, cart)?,
            task: None,
            screens: Vec::new(alloc),
        })
    }
}

/// So many workers without a task. All the memory for consoles is taken here.
pub(crate) fn new_workers(
    alloc: Global,
    cart: &Cart,
    count: usize,
) -> Result<Vec<Worker>, OutOfMemory>
    ensures many { IfOk result (λ worker_list. vec_len worker_list ≡ count) }
    ensures types { IfOk result (λ worker_list. All (HasCartTypes cart.now) worker_list.items) }
{
    let mut worker_list = Vec::with_capacity(alloc, count)?;
    for _ in 0..count {
        worker_list.push(Worker::new(alloc, cart)?)?;
    }
    Ok(worker_list)
}
