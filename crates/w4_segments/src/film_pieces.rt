//! Films that are returned a piece at a time, and the workers that make the pieces.

ghost use Rattle.std.specs.Prelude.{◌≡◌, ◌≢◌, ℕ, ◌+◌, ◌-◌, ◌<◌, ◌≤◌, [], All, IfErr, IfOk, IsFalse, IsTrue, None, OnOk, Some, flat_map, length};
ghost use Rattle.w4_defs.specs.AllThere.{joined};
ghost use Rattle.w4_defs.specs.Image.{image};
ghost use Rattle.w4_defs.specs.KeptList.{place_at};
ghost use Rattle.w4_console.specs.Counting.{IsBlankOf};
ghost use Rattle.w4_segments.specs.FilmPieces.{
  IsFilming,
  HasNext,
  film_cut,
  images_left,
  piece_of,
  pieces_left,
  AreOfRunBelow,
  ArePieces,
  IsPiece,
  piece_begin,
};
ghost use Rattle.w4_defs.specs.Film.{film_refusal};
ghost use Rattle.w4_segments.specs.Filming.{IsFilmRefusal, KeepsShown, film_images};
ghost use Rattle.w4_segments.specs.Worker.{HasCartTypes};
ghost use Rattle.w4_defs.specs.declared.film_refusal.FilmRefusal.TheVariants.{OutOfMemory as NoMemory};

use crate::gate::{Gate, OpenGate};
use crate::pieces::film_all;
use crate::resources::Resources;
use crate::rounds::{is_consistent, settle_rounds, unlinked};
use crate::worker::{Task, Worker, new_workers};
use crate::workers::Workers;
use std::alloc::Global;
use std::marker::Brand;
use std::sync::ledger::{Blank, Ledger};
use std::thread::Threads;
use w4_defs::{FilmRefusal, OutOfMemory, Steps};
use w4_editor::Editor;
use w4_image::Screen;

/// How many images a film may have.
const MOST_IMAGES: usize = 600;

/// A film that is returned a piece at a time, so that nobody holds the whole. Pieces are made in rounds, one
/// for each worker, and held as screens, from which the images are made as they are written. Until it is over
/// the editor has to stay as it is.
#[derive(Drop)]
pub struct FilmPieces {
    worker_list: Vec<Worker>,
    /// The place where it begins, and the one after its last.
    first: usize,
    end: usize,
    /// The kept places, counted from 0, whose pieces are the first, the next to be returned, and the next to
    /// be filmed.
    first_entry: usize,
    next: usize,
    filmed: usize,
    /// The worker whose piece was returned last.
    worker_index: usize,
}

impl FilmPieces {
    /// Begins the film of places `a` to `b` of the recording as it is, by this many workers. It is cut into
    /// pieces at the kept places above `a` and up to `b`, which are brought up to date first. Errors, in this
    /// order: NoFrame if there is no place `b`; FilmTooLong if there would be more than 600 images;
    /// OutOfMemory, and then kept states and links may be newer.
    pub fn begin<R: Threads + Sync>(
        rt: &R,
        alloc: Global,
        editor: &mut Editor,
        a: usize,
        b: usize,
        workers: Workers,
    ) -> Result<FilmPieces, FilmRefusal>
        requires { a ≤ b }
        ensures filming { IfOk result (λ film. IsFilming film editor.new) }
        ensures images { IfOk result (λ film. images_left film editor.new ≡ film_images editor.old a b) }
        ensures refused { IfErr result (IsFilmRefusal (film_refusal a b editor.old.session.current.inputs)) }
        ensures accepted { OnOk result (film_refusal a b editor.old.session.current.inputs ≡ None) }
        ensures unchanged { IfErr result (λ refusal. refusal ≢ NoMemory → editor.new ≡ editor.old) }
        ensures keeps { KeepsShown editor.old editor.new }
    {
        if let Some(refusal) = film_refusal(editor, a, b) {
            return Err(refusal);
        }
        let resources = Resources {
            rt,
            alloc,
            gate: &OpenGate,
        };
        let film = begin_there::<R, Brand>(&resources, editor, a, b, workers, Blank::new(1))?;
        Ok(film)
    }

    /// Goes to the next piece; whether there is one. If it isn't made yet, a round of pieces is made first; a
    /// piece passes the gate, with its number, as it is begun. Errors: OutOfMemory, and then the film is of
    /// no more use.
    pub fn next_piece<R: Threads + Sync, G: Gate + Sync>(
        &mut self,
        rt: &R,
        editor: &Editor,
        gate: &G,
    ) -> Result<bool, OutOfMemory>
        requires { IsFilming self.old editor.now }
        ensures filming { OnOk result (IsFilming self.new editor.now) }
        ensures piece { IfOk result (λ some. IsTrue some
            → images_left self.old editor.now
            ≡ joined (Some (piece_of self.new)) (images_left self.new editor.now)) }
        ensures fewer { IfOk result (λ some. IsTrue some
            → pieces_left self.new editor.now < pieces_left self.old editor.now) }
        ensures over { IfOk result (λ some. IsFalse some → images_left self.old editor.now ≡ Some []) }
    {
        is_consistent(editor);
        if cut(editor, self.first, self.end, self.next) >= self.end {
            return Ok(false);
        }
        self.make_next(rt, editor, gate)?;
        self.worker_index = self.worker_list.as_slice().len() - (self.filmed - self.next);
        self.next += 1;
        Ok(true)
    }

    /// The screens of the places of the piece that it went to, in order. Their images are the piece.
    pub fn screens(&self) -> &[Screen]
        ensures { flat_map image result.now ≡ piece_of self.now }
    {
        match self.worker_list.as_slice().get(self.worker_index) {
            Some(worker) => worker.screens.as_slice(),
            None => &[],
        }
    }

    /// Makes the next piece, and one for each other worker, as long as there are any. Does nothing where it
    /// is made already.
    fn make_next<R: Threads + Sync, G: Gate + Sync>(
        &mut self,
        rt: &R,
        editor: &Editor,
        gate: &G,
    ) -> Result<(), OutOfMemory>
        requires filming { IsFilming self.old editor.now }
        requires more { film_cut self.old editor.now self.old.next < self.old.end }
        ensures { OnOk result (HasNext editor.now self.old self.new) }
    {
        if self.next < self.filmed {
            return Ok(());
        }
        is_consistent(editor);
        let number = self.filmed - self.first_entry;
        let worker_list = self.worker_list.as_mut_slice();
        deal_pieces(
            editor,
            number,
            self.filmed,
            self.first,
            self.end,
            worker_list,
        )?;
        film_all(rt, gate, &editor.setup(), editor.recording(), worker_list);
        self.filmed += worker_list.len();
        Ok(())
    }
}

/// Why there is no film of places `a` to `b`.
fn film_refusal(editor: &Editor, a: usize, b: usize) -> Option<FilmRefusal>
    requires { a ≤ b }
    ensures { result ≡ film_refusal a b editor.now.session.current.inputs }
{
    if b > editor.recording().frames.len() {
        return Some(FilmRefusal::NoFrame);
    }
    if b - a >= MOST_IMAGES {
        return Some(FilmRefusal::FilmTooLong);
    }
    None
}

/// Begins the film of places that are there. Its rounds have a counter of their own.
fn begin_there<R: Threads + Sync, L: Ledger>(
    resources: &Resources<'_, R, OpenGate>,
    editor: &mut Editor,
    a: usize,
    b: usize,
    workers: Workers,
    blank: Blank,
) -> Result<FilmPieces, OutOfMemory>
    requires order { a ≤ b }
    requires there { b ≤ length editor.old.session.current.inputs }
    requires blank { IsBlankOf L.name L.parts blank }
    ensures filming { IfOk result (λ film. IsFilming film editor.new) }
    ensures images { IfOk result (λ film. images_left film editor.new ≡ film_images editor.old a b) }
    ensures keeps { KeepsShown editor.old editor.new }
{
    is_consistent(editor);
    let (first, last) = (last_up_to(editor, a), last_up_to(editor, b));
    let worker_count = (last + 1 - first)
        .max(unlinked(editor, last))
        .min(workers.count);
    let mut worker_list = new_workers(resources.alloc, editor.cart(), worker_count)?;
    let mut rounds = Steps::<L>::new(blank);
    settle_rounds(
        resources,
        editor,
        last,
        worker_list.as_mut_slice(),
        &mut rounds,
    )?;
    is_consistent(editor);
    Ok(FilmPieces {
        worker_list,
        first: a,
        end: b + 1,
        first_entry: first,
        next: first,
        filmed: first,
        worker_index: 0,
    })
}

/// The last entry whose place is at most `p`.
fn last_up_to(editor: &Editor, p: usize) -> usize
    ensures there { result < length editor.now.session.current.kept }
    ensures below { place_at editor.now.session.current.kept result ≤ p }
    ensures above { (i : ℕ) → result < i → i < length editor.now.session.current.kept
        → p < place_at editor.now.session.current.kept i }
{
    is_consistent(editor);
    let mut last = 0;
    for entry in 0..editor.kept_count() {
        if editor.kept_place(entry) <= p {
            last = entry;
        }
    }
    last
}

/// Where the piece of entry `i` begins.
fn cut(editor: &Editor, first: usize, end: usize, i: usize) -> usize
    ensures { result ≡ piece_begin editor.now.session.current.kept first end i }
{
    if i < editor.kept_count() {
        editor.kept_place(i).max(first).min(end)
    } else {
        end
    }
}

/// Gives each worker a piece, in order from entry `next` on, as long as there are any.
fn deal_pieces(
    editor: &Editor,
    number: usize,
    next: usize,
    first: usize,
    end: usize,
    worker_list: &mut [Worker],
) -> Result<(), OutOfMemory>
    requires few { length worker_list.old ≤ 16 }
    requires next { next ≤ 1024 }
    requires number { number ≤ next }
    requires order { first ≤ end }
    requires within { end ≤ length editor.now.session.current.inputs + 1 }
    requires states { AreOfRunBelow end editor.now }
    requires types { All (HasCartTypes editor.now.cart) worker_list.old }
    ensures { OnOk result (ArePieces editor.now first end next worker_list.old worker_list.new) }
{
    for worker_index in 0..worker_list.len() {
        deal_piece(
            editor,
            number + worker_index,
            next + worker_index,
            first,
            end,
            &mut worker_list[worker_index],
        )?;
    }
    Ok(())
}

/// Gives a worker the piece of an entry, if it isn't empty, and room for its screens.
fn deal_piece(
    editor: &Editor,
    number: usize,
    entry: usize,
    first: usize,
    end: usize,
    worker: &mut Worker,
) -> Result<(), OutOfMemory>
    requires entry { entry ≤ 2048 }
    requires order { first ≤ end }
    requires within { end ≤ length editor.now.session.current.inputs + 1 }
    requires states { AreOfRunBelow end editor.now }
    requires types { HasCartTypes editor.now.cart worker.old }
    ensures { OnOk result (IsPiece editor.now first end entry worker.new) }
{
    is_consistent(editor);
    worker.screens.clear();
    let (from, to) = (
        cut(editor, first, end, entry),
        cut(editor, first, end, entry + 1),
    );
    if from >= to {
        worker.task = None;
        return Ok(());
    }
    worker.screens.reserve(to - from)?;
    editor.kept_restore(entry, worker.console.state_mut());
    worker.task = Some(Task {
        number,
        entry,
        place: editor.kept_place(entry),
        first: from,
        end: to,
    });
    Ok(())
}
