//! Orders that are carried out by many workers: `film` and `settle`.

ghost use Rattle.std.specs.Prelude.{◌≡◌, OnOk, flat_map, max, min, option_map};
ghost use Rattle.std.specs.Option.{ForSome};
ghost use Rattle.w4_defs.specs.Image.{image};
ghost use Rattle.w4_editor.specs.Editor.{current_recording, editing_setup, place_session};
ghost use Rattle.w4_defs.specs.World.{LeavesWriting};
ghost use Rattle.w4_defs.specs.ScriptAnswers.{film_text};
ghost use Rattle.w4_defs.specs.Answers.{answer_text};
ghost use Rattle.w4_answers.specs.Writing.{Written};
ghost use Rattle.w4_answers.specs.ScriptAnswers.{GivesAnswer};
ghost use Rattle.w4_answers.specs.Desk.{OnlyShows};
ghost use Rattle.w4_answers.specs.FilmAnswer.{images_in};
ghost use Rattle.w4_segments.specs.FilmPieces.{IsFilming, images_left};
ghost use Rattle.w4_segments.specs.Settling.{IsSettledWide};

use crate::refusal::refuse;
use crate::shape::Shape;
use std::alloc::Global;
use std::thread::Threads;
use w4_defs::{EditRefusal, OutOfMemory, Refusal};
use w4_editor::Editor;
use w4_editor::places::last_place;
use w4_house::House;
use w4_image::{IMAGE_LEN, Screen, screen_into};
use w4_segments::{FilmPieces, FilmRefusal, Gate, MOST_WORKERS, Resources, Workers, settle_wide};

/// A number of workers, within the range that scripts have for it.
fn workers_of(count: u32) -> Workers
    ensures { result.count ≡ min (max count 1) 16 }
{
    Workers {
        count: (count as usize).max(1).min(MOST_WORKERS),
    }
}

/// The answer of `film`: at most 600 images.
pub fn answer_film<S: Shape, R: Threads + Sync, H: House, G: Gate + Sync>(
    resources: &Resources<'_, R, G>,
    house: &mut H,
    editor: &mut Editor,
    a: u32,
    b: u32,
    workers: u32,
) -> Result<(), Refusal>
    ensures answered { GivesAnswer (H.world house.old) (H.world house.new) result
        editor.old editor.new
        (answer_text (place_session editor.old)
        (film_text S.form (editing_setup editor.old) editor.old.disk
        (place_session editor.old) a b)) }
    ensures rest { LeavesWriting (H.world house.old) (H.world house.new) }
{
    let (rt, alloc) = (resources.rt, resources.alloc);
    let (from, to) = (a as usize, b as usize);
    if to > last_place(editor) {
        return refuse::<S, H>(alloc, house, EditRefusal::NoFrame);
    }
    // Scripts have no such order.
    if from > to {
        return Ok(());
    }
    match FilmPieces::begin(rt, alloc, editor, from, to, workers_of(workers)) {
        Ok(mut film) => write_film::<S, R, H, G>(resources, house, &mut film, editor),
        Err(FilmRefusal::NoFrame) => refuse::<S, H>(alloc, house, EditRefusal::NoFrame),
        Err(FilmRefusal::FilmTooLong) => S::write(alloc, house, b"refused too long\n"),
        Err(FilmRefusal::OutOfMemory) => Err(Refusal::OutOfMemory),
    }
}

/// Writes a film a piece at a time, so that only the pieces that its workers make at once are held, and only
/// one image.
fn write_film<S: Shape, R: Threads + Sync, H: House, G: Gate + Sync>(
    resources: &Resources<'_, R, G>,
    house: &mut H,
    film: &mut FilmPieces,
    editor: &Editor,
) -> Result<(), Refusal>
    requires { IsFilming film.old editor.now }
    ensures out { ForSome (option_map (images_in S.form) (images_left film.old editor.now))
        (λ images. Written (H.world house.old) (H.world house.new) result images) }
    ensures rest { LeavesWriting (H.world house.old) (H.world house.new) }
{
    let mut image_bytes = Box::new(resources.alloc, [0; IMAGE_LEN])?;
    while film.next_piece(resources.rt, editor, resources.gate)? {
        write_images::<S, H>(resources.alloc, house, film.screens(), &mut image_bytes)?;
    }
    Ok(())
}

/// Writes the images of screens, one after another, each made in the same buffer.
fn write_images<S: Shape, H: House>(
    alloc: Global,
    house: &mut H,
    screens: &[Screen],
    image_bytes: &mut [u8; IMAGE_LEN],
) -> Result<(), Refusal>
    ensures out { Written (H.world house.old) (H.world house.new) result
        (flat_map (λ screen. S.form (image screen)) screens.now) }
    ensures rest { LeavesWriting (H.world house.old) (H.world house.new) }
{
    for screen in screens {
        screen_into(screen, image_bytes);
        S::write(alloc, house, image_bytes)?;
    }
    Ok(())
}

/// Brings all kept places up to date.
pub fn settle_by_workers<R: Threads + Sync, G: Gate + Sync>(
    resources: &Resources<'_, R, G>,
    editor: &mut Editor,
    workers: u32,
) -> Result<(), OutOfMemory>
    ensures shows { OnOk result (OnlyShows editor.old editor.new) }
    ensures recording { current_recording editor.new ≡ current_recording editor.old }
    ensures settled { OnOk result (IsSettledWide editor.old editor.new) }
{
    settle_wide(resources, editor, workers_of(workers))
}
