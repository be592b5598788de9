//! Films: the images of a stretch of a run, made by many workers.

ghost use Rattle.std.specs.Prelude.{◌≡◌, ◌≢◌, ◌≤◌, ◌++◌, IfErr, IfOk, None, OnOk, Some, flat_map};
ghost use Rattle.w4_defs.specs.Image.{image};
ghost use Rattle.w4_segments.specs.FilmPieces.{IsFilming, images_left};
ghost use Rattle.w4_defs.specs.Film.{film_refusal};
ghost use Rattle.w4_segments.specs.Filming.{IsFilmRefusal, KeepsShown, film_images};
ghost use Rattle.w4_defs.specs.declared.film_refusal.FilmRefusal.TheVariants.{OutOfMemory as NoMemory};

use crate::film_pieces::FilmPieces;
use crate::gate::Gate;
use crate::resources::Resources;
use crate::workers::Workers;
use std::thread::Threads;
use w4_defs::{FilmRefusal, OutOfMemory};
use w4_editor::Editor;
use w4_image::{IMAGE_LEN, Screen, screen_into};

/// The images of places `a` to `b` of the recording as it is, one after another, by this many workers:
/// `FilmPieces` in one list. Errors, in this order: NoFrame if there is no place `b`; FilmTooLong if there
/// would be more than 600 images; OutOfMemory, and then kept states and links may be newer.
pub fn film<R: Threads + Sync, G: Gate + Sync>(
    resources: &Resources<'_, R, G>,
    editor: &mut Editor,
    a: usize,
    b: usize,
    workers: Workers,
) -> Result<Vec<u8>, FilmRefusal>
    requires { a ≤ b }
    ensures images { IfOk result (λ film. film_images editor.old a b ≡ Some film.items) }
    ensures refused { IfErr result (IsFilmRefusal (film_refusal a b editor.old.session.current.inputs)) }
    ensures accepted { OnOk result (film_refusal a b editor.old.session.current.inputs ≡ None) }
    ensures unchanged { IfErr result (λ refusal. refusal ≢ NoMemory → editor.new ≡ editor.old) }
    ensures keeps { KeepsShown editor.old editor.new }
{
    let mut film = FilmPieces::begin(resources.rt, resources.alloc, editor, a, b, workers)?;
    let images = gathered(resources, &mut film, editor)?;
    Ok(images)
}

/// All that is left of a film.
fn gathered<R: Threads + Sync, G: Gate + Sync>(
    resources: &Resources<'_, R, G>,
    film: &mut FilmPieces,
    editor: &Editor,
) -> Result<Vec<u8>, OutOfMemory>
    requires { IsFilming film.old editor.now }
    ensures { IfOk result (λ all. images_left film.old editor.now ≡ Some all.items) }
{
    let mut image_bytes = Box::new(resources.alloc, [0; IMAGE_LEN])?;
    let mut all = Vec::new(resources.alloc);
    while film.next_piece(resources.rt, editor, resources.gate)? {
        append_images(film.screens(), &mut image_bytes, &mut all)?;
    }
    Ok(all)
}

/// Appends the images of screens, each made in the same room.
fn append_images(
    screens: &[Screen],
    image_bytes: &mut [u8; IMAGE_LEN],
    all: &mut Vec<u8>,
) -> Result<(), OutOfMemory>
    ensures { OnOk result (all.new.items ≡ all.old.items ++ flat_map image screens.now) }
{
    for screen in screens {
        screen_into(screen, image_bytes);
        all.extend_from_slice(image_bytes)?;
    }
    Ok(())
}
