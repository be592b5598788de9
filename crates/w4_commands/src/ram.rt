//! `ram`: values and searches of memory, over the places of a recording.

ghost use Rattle.std.specs.Prelude.{All, IfOk, OnOk};
ghost use Rattle.std.specs.Option.{ForSome};
ghost use Rattle.w4_defs.specs.World.{LeavesReading, LeavesWriting};
ghost use Rattle.w4_defs.specs.declared.inspect.QueryLine.TheVariants.{Ask as Request};
ghost use Rattle.w4_script.specs.Query.{IsQueryLine, IsRequest};
ghost use Rattle.w4_defs.specs.Causes.{LeavesErr};
ghost use Rattle.w4_commands.specs.Commands.{EndsDone, MakesOf};
ghost use Rattle.w4_commands.specs.Load.{ResultsIn, StepGives, GivesValue, cart_view, run_files_view};
ghost use Rattle.w4_answers.specs.Writing.{Written};
ghost use Rattle.w4_answers.specs.HeldPages.{AreHeld};
ghost use Rattle.w4_answers.specs.RamAnswers.{GivesQueryAnswer, query_answer, query_answers};
ghost use Rattle.w4_defs.specs.ToolOutputs.{query_in, query_lines, ram_files, ram_output, ram_text};
ghost use Rattle.w4_console.specs.Counting.{IsBlankOf};
ghost use Rattle.w4_commands.specs.Ram.{ram_loaded_view};
ghost use Rattle.w4_commands.specs.Forms.{run_view};

use crate::forms::RunNames;
use crate::lines_refusal::script_refusal;
use crate::load::{RunFiles, load_run, read_file};
use std::alloc::Global;
use std::marker::Brand;
use std::sync::ledger::{Blank, Ledger};
use w4_answers::change_answer::{answer_changed, change};
use w4_answers::counted_editor::CountedEditor;
use w4_answers::held_pages::answer_held;
use w4_answers::ram_answers::{Watched, answer_line};
use w4_answers::shape::Plain;
use w4_cart::CartFile;
use w4_defs::inspect::{Ask, QueryLine};
use w4_defs::{Order, Refusal, Steps};
use w4_editor::Editor;
use w4_house::House;
use w4_inspect::{PlacePages, Search};
use w4_script::read_query;
use wasm_register::Cart;

/// What a query is answered over, and its lines.
#[derive(Drop)]
pub struct RamLoaded {
    pub run: RunFiles,
    pub lines: Vec<QueryLine>,
}

/// An editor with its count, the search that stands, and the pages that are held for the next line.
#[derive(Drop)]
struct QueryDesk<L: Ledger> {
    counted: CountedEditor<L>,
    search: Option<Search>,
    held: Option<PlacePages>,
}

impl<L: Ledger> QueryDesk<L> {
    /// Gives its memory back, as `Desk::close` does.
    fn close(self) {
        self.counted.editor.close();
    }
}

/// `ram CART REC FONT QUERY`.
#[tactic(auto, unfolding(w4_defs::specs::ToolOutputs::ram_output))]
pub fn run_ram<H: House>(
    alloc: Global,
    house: &mut H,
    file: CartFile,
    names: RunNames<'_>,
    query: &str,
) -> Result<(), Refusal>
    ensures ends { EndsDone (H.world house.old) (H.world house.new) result
        (MakesOf (λ files. ram_output (run_view names.entry) query.now (cart_view file) files)) }
    ensures err { LeavesErr (H.world house.old) (H.world house.new) }
{
    match load_ram(alloc, house, &file.digest, names, query) {
        Ok(loaded) => {
            let RamLoaded { run, lines } = loaded;
            let lines = lines.as_slice();
            answer_query::<Brand, H>(alloc, house, file.cart, run, lines, Blank::new(1))
        }
        Err(refusal) => {
            file.close();
            Err(refusal)
        }
    }
}

/// Reads what a query over a run of the cart with this digest is made of.
#[tactic(auto, unfolding(w4_defs::specs::ToolOutputs::ram_files))]
fn load_ram<H: House>(
    alloc: Global,
    house: &mut H,
    digest: &[u8; 32],
    names: RunNames<'_>,
    query: &str,
) -> Result<RamLoaded, Refusal>
    ensures gives { StepGives (H.world house.old) (H.world house.new) ram_loaded_view result
        (ResultsIn (λ files. ram_files digest.now (run_view names.entry) query.now files)) }
    ensures fit { IfOk result (λ loaded. All IsQueryLine loaded.lines.items) }
    ensures rest { LeavesReading (H.world house.old) (H.world house.new) }
{
    let run = load_run(alloc, house, digest, names)?;
    let lines = load_query(alloc, house, query)?;
    Ok(RamLoaded { run, lines })
}

#[tactic(auto, unfolding(w4_defs::specs::ToolOutputs::query_in))]
fn load_query<H: House>(alloc: Global, house: &mut H, name: &str) -> Result<Vec<QueryLine>, Refusal>
    ensures gives { StepGives (H.world house.old) (H.world house.new) (λ lines. lines.items) result
        (ResultsIn (λ files. query_in files name.now)) }
    ensures fit { IfOk result (λ lines. All IsQueryLine lines.items) }
    ensures rest { LeavesReading (H.world house.old) (H.world house.new) }
{
    let bytes = read_file(alloc, house, name, w4_script::MOST_BYTES + 1)?;
    judge_query(alloc, bytes.as_slice())
}

/// The lines of a query.
#[tactic(auto, unfolding(w4_defs::specs::ToolOutputs::query_lines))]
fn judge_query(alloc: Global, bytes: &[u8]) -> Result<Vec<QueryLine>, Refusal>
    ensures lines { GivesValue (λ lines. lines.items) result (query_lines bytes.now) }
    ensures fit { IfOk result (λ lines. All IsQueryLine lines.items) }
{
    read_query(alloc, bytes).map_err(script_refusal)
}

/// Opens the recording, and answers all lines of the query. The frames that are run for them have a count of
/// their own.
fn answer_query<L: Ledger, H: House>(
    alloc: Global,
    house: &mut H,
    cart: Cart,
    run: RunFiles,
    lines: &[QueryLine],
    blank: Blank,
) -> Result<(), Refusal>
    requires ranges { All IsQueryLine lines.now }
    requires blank { IsBlankOf L.name L.parts blank }
    ensures out { ForSome (ram_text cart (record { run = run_files_view run; lines = lines.now }))
        (λ text. Written (H.world house.old) (H.world house.new) result text) }
    ensures rest { LeavesWriting (H.world house.old) (H.world house.new) }
{
    let RunFiles { recording, font } = run;
    let editor = Editor::new(alloc, cart, font, recording)?;
    let steps: Steps<L> = Steps::new(blank);
    let mut desk: QueryDesk<L> = QueryDesk {
        counted: CountedEditor { editor, steps },
        search: None,
        held: None,
    };
    let end = answer_lines(alloc, house, &mut desk, lines);
    desk.close();
    end
}

/// Answers all lines.
fn answer_lines<L: Ledger, H: House>(
    alloc: Global,
    house: &mut H,
    desk: &mut QueryDesk<L>,
    lines: &[QueryLine],
) -> Result<(), Refusal>
    requires ranges { All IsQueryLine lines.now }
    requires held { AreHeld desk.old.counted.editor desk.old.held }
    ensures out { ForSome (query_answers desk.old.counted.editor desk.old.search lines.now).out
        (λ text. Written (H.world house.old) (H.world house.new) result text) }
    ensures rest { LeavesWriting (H.world house.old) (H.world house.new) }
{
    for i in 0..lines.len() {
        let line = lines[i];
        let again = watch_same_places(&line, lines.get(i + 1));
        answer_query_line(alloc, house, desk, line, again)?;
    }
    Ok(())
}

/// Whether a line and the next one watch the same places.
fn watch_same_places(line: &QueryLine, next: Option<&QueryLine>) -> bool {
    match (line, next) {
        (
            QueryLine::Ask {
                ask: Ask::Watch { a, b, .. },
            },
            Some(
                QueryLine::Ask {
                    ask: Ask::Watch { a: c, b: d, .. },
                },
            ),
        ) => a == c && b == d,
        _ => false,
    }
}

/// Answers a line of the query. `again` says whether the next line watches the same places.
fn answer_query_line<L: Ledger, H: House>(
    alloc: Global,
    house: &mut H,
    desk: &mut QueryDesk<L>,
    line: QueryLine,
    again: bool,
) -> Result<(), Refusal>
    requires fit { IsQueryLine line }
    requires held { AreHeld desk.old.counted.editor desk.old.held }
    ensures told { GivesQueryAnswer (H.world house.old) (H.world house.new) result
        desk.old.counted.editor desk.new.counted.editor desk.new.search
        (query_answer desk.old.counted.editor desk.old.search line) }
    ensures held { OnOk result (AreHeld desk.new.counted.editor desk.new.held) }
    ensures rest { LeavesWriting (H.world house.old) (H.world house.new) }
{
    match line {
        QueryLine::Ask { ask } => answer_request(alloc, house, desk, ask, again),
        QueryLine::Keep { p } => {
            desk.held = None;
            let changed = change(alloc, &mut desk.counted, &Order::Keep { p });
            answer_changed::<Plain, H>(alloc, house, changed)
        }
        QueryLine::KeepEvery { every } => {
            desk.held = None;
            let order = Order::KeepEvery { every };
            let changed = change(alloc, &mut desk.counted, &order);
            answer_changed::<Plain, H>(alloc, house, changed)
        }
    }
}

/// Answers a request.
fn answer_request<L: Ledger, H: House>(
    alloc: Global,
    house: &mut H,
    desk: &mut QueryDesk<L>,
    ask: Ask,
    again: bool,
) -> Result<(), Refusal>
    requires fit { IsRequest ask }
    requires held { AreHeld desk.old.counted.editor desk.old.held }
    ensures told { GivesQueryAnswer (H.world house.old) (H.world house.new) result
        desk.old.counted.editor desk.new.counted.editor desk.new.search
        (query_answer desk.old.counted.editor desk.old.search (Request ask)) }
    ensures held { OnOk result (AreHeld desk.new.counted.editor desk.new.held) }
    ensures rest { LeavesWriting (H.world house.old) (H.world house.new) }
{
    match ask {
        Ask::Watch {
            address,
            width,
            a,
            b,
        } => {
            let watched = Watched {
                address,
                width,
                a,
                b,
            };
            answer_held(
                alloc,
                house,
                &mut desk.counted,
                &mut desk.held,
                watched,
                again,
            )
        }
        _ => {
            desk.held = None;
            answer_line::<Plain, L, H>(alloc, house, &mut desk.counted, &mut desk.search, &ask)
        }
    }
}
