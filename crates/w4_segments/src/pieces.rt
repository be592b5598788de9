//! Pieces of a film. A worker goes on from a kept state and keeps the screens of its places, a twelfth of the
//! bytes of their images.

ghost use Rattle.std.specs.Prelude.{◌≡◌, ◌+◌, ◌-◌, ◌<◌, ◌≤◌, [], All, Some, flat_map, length, vec_capacity};
ghost use Rattle.w4_console.specs.Calls.{setup_of};
ghost use Rattle.w4_defs.specs.Image.{image};
ghost use Rattle.w4_defs.specs.Run.{run_state};
ghost use Rattle.w4_defs.specs.State.{HasGlobals};
ghost use Rattle.w4_defs.specs.Film.{run_images};
ghost use Rattle.w4_segments.specs.Pieces.{CanFilm, HasFilmed};
ghost use Rattle.w4_segments.specs.Worker.{EachDid};

use crate::gate::Gate;
use crate::worker::{Task, Worker};
use std::thread;
use std::thread::Threads;
use w4_console::{Console, Setup};
use w4_image::{Screen, screen_of};
use w4_record::Recording;

/// All workers film their pieces, side by side, each into its own buffer.
pub(crate) fn film_all<R: Threads + Sync, G: Gate + Sync>(
    rt: &R,
    gate: &G,
    setup: &Setup<'_>,
    recording: &Recording,
    worker_list: &mut [Worker],
)
    requires { All (CanFilm (setup_of setup.now) recording.now.disk recording.now.frames) worker_list.old }
    ensures { EachDid (HasFilmed (setup_of setup.now) recording.now.disk recording.now.frames)
        worker_list.old worker_list.new }
{
    let worker_count = worker_list.len().max(1);
    thread::for_each_mut(
        rt,
        worker_list,
        worker_count,
        &|_, worker| film_one(gate, setup, recording, worker),
    );
}

/// A worker films its piece, if it has one. A worker allocates nothing: its buffer was made when it was given
/// the piece, and is first touched here.
fn film_one<G: Gate>(gate: &G, setup: &Setup<'_>, recording: &Recording, worker: &mut Worker)
    requires { CanFilm (setup_of setup.now) recording.now.disk recording.now.frames worker.old }
    ensures { HasFilmed (setup_of setup.now) recording.now.disk recording.now.frames
        worker.old worker.new }
{
    let Some(task) = worker.task else {
        return;
    };
    gate.pass(task.number);
    film_task(
        setup,
        recording,
        task,
        &mut worker.console,
        &mut worker.screens,
    );
}

/// Keeps the screens of the places of a task.
fn film_task(
    setup: &Setup<'_>,
    recording: &Recording,
    task: Task,
    console: &mut Console,
    screens: &mut Vec<Screen>,
)
    requires types { HasGlobals setup.now.cart.now console.old }
    requires order { task.place ≤ task.first }
    requires some { task.first < task.end }
    requires within { task.end ≤ length recording.now.frames + 1 }
    requires state { run_state (setup_of setup.now) recording.now.disk recording.now.frames task.place
        ≡ Some console.old }
    requires empty { screens.old.items ≡ [] }
    requires room { task.end - task.first ≤ vec_capacity screens.old }
    ensures images { run_images (setup_of setup.now) recording.now.disk recording.now.frames task.first
        (task.end - task.first) ≡ Some (flat_map image screens.new.items) }
    ensures types { HasGlobals setup.now.cart.now console.new }
{
    console.play(setup, &recording.frames[task.place..task.first]);
    screens.push_reserved(screen_of(console.state()));
    for place in task.first..task.end - 1 {
        console.play(setup, &recording.frames[place..place + 1]);
        screens.push_reserved(screen_of(console.state()));
    }
}
