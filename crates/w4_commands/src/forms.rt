//! The arguments that the program is called with.

ghost use Rattle.std.specs.Prelude.{◌≡◌, Some, map, option_map, string_bytes};
ghost use Rattle.w4_defs.specs.Commands.{
  batch_form,
  blank_form,
  check_form,
  compare_form,
  disk_form,
  edit_form,
  form_of,
  frames_form,
  inputs_form,
  make_form,
  net_form,
  ram_form,
  rebind_form,
  run_words,
  serve_form,
};
ghost use Rattle.w4_defs.specs.Outputs.{cart_word};
ghost use Rattle.w4_commands.specs.Forms.{budget_given, cart_command_view, editor_command_view, form_view, run_view};
ghost use Rattle.w4_commands.specs.RunOutputs.{whole_form};

use crate::budget::Budget;
use crate::places::Places;
use w4_script::number_of;
use w4_segments::{MOST_WORKERS, Workers};

/// The names of the three files of a run.
#[derive(Clone, Copy)]
pub struct RunNames<'a> {
    pub cart: &'a str,
    pub recording: &'a str,
    pub font: &'a str,
}

/// The files of an edit: four to read and one to write.
#[derive(Clone, Copy)]
pub struct EditNames<'a> {
    pub run: RunNames<'a>,
    pub script: &'a str,
    pub out: &'a str,
}

/// The files of a session of rollback, and the budget of its cart.
#[derive(Clone, Copy)]
pub struct NetNames<'a> {
    pub cart: &'a str,
    pub font: &'a str,
    pub budget: Budget,
    pub log: &'a str,
}

/// The files of a batch: a list names the recordings.
#[derive(Clone, Copy)]
pub struct BatchNames<'a> {
    pub cart: &'a str,
    pub font: &'a str,
    pub list: &'a str,
    pub workers: Workers,
}

/// The files of a live session: three to read and one to write.
#[derive(Clone, Copy)]
pub struct ServeNames<'a> {
    pub run: RunNames<'a>,
    pub out: &'a str,
}

/// The files of two runs, each with a cart of its own, and their font.
#[derive(Clone, Copy)]
pub struct CompareNames<'a> {
    pub cart: &'a str,
    pub recording: &'a str,
    pub other_cart: &'a str,
    pub other_recording: &'a str,
    pub font: &'a str,
}

/// What is written of a whole run, from place 0 to its last.
#[derive(Clone, Copy)]
pub enum WholeText {
    /// The tones of each place.
    Tones,
    /// The trace lines of each place.
    Trace,
    /// The units of the reset and of each frame.
    Units,
    /// The sound, as a WAV file.
    Wave,
}

/// What is done with one cart that is only read.
#[derive(Clone, Copy)]
pub enum CartCommand<'a> {
    /// `check CART`
    Check(&'a str),
    /// `blank CART BUDGET`
    Blank(&'a str, Budget),
    /// `blank CART BUDGET DISK`
    BlankDisk(&'a str, Budget, &'a str),
    /// `rebind CART REC`
    Rebind(&'a str, &'a str),
    /// `frames CART REC FONT FROM TO`
    Frames(RunNames<'a>, Places),
    /// `tones CART REC FONT`, `trace CART REC FONT`, `units CART REC FONT` or `wave CART REC FONT`
    Whole(RunNames<'a>, WholeText),
    /// `disk CART REC FONT PLACE`
    Disk(RunNames<'a>, u32),
    /// `batch CART FONT LIST WORKERS`
    Batch(BatchNames<'a>),
}

/// What is done in an editor, which owns its cart.
#[derive(Clone, Copy)]
pub enum EditorCommand<'a> {
    /// `ram CART REC FONT QUERY`
    Ram(RunNames<'a>, &'a str),
    /// `edit CART REC FONT SCRIPT OUT`
    Edit(EditNames<'a>),
    /// `serve CART REC FONT OUT`
    Serve(ServeNames<'a>),
    /// `net CART FONT BUDGET LOG`
    Net(NetNames<'a>),
}

/// A command with its arguments.
#[derive(Clone, Copy)]
pub enum Form<'a> {
    /// `make NUMBER`
    Make(u32),
    /// `inputs REC`
    Inputs(&'a str),
    /// `compare CART REC CART2 REC2 FONT`
    Compare(CompareNames<'a>),
    /// A command over one cart, which is judged first.
    OnCart(CartCommand<'a>),
    /// A command in an editor, whose cart is judged first.
    InEditor(EditorCommand<'a>),
}

/// The name of the command's cart.
pub fn cart_name<'a>(command: &CartCommand<'a>) -> &'a str
    ensures { cart_word (cart_command_view command.now) ≡ Some result.now }
{
    match *command {
        CartCommand::Check(cart) => cart,
        CartCommand::Blank(cart, _) => cart,
        CartCommand::BlankDisk(cart, _, _) => cart,
        CartCommand::Rebind(cart, _) => cart,
        CartCommand::Frames(names, _) => names.cart,
        CartCommand::Whole(names, _) => names.cart,
        CartCommand::Disk(names, _) => names.cart,
        CartCommand::Batch(names) => names.cart,
    }
}

/// The name of the cart that the editor is to own.
pub fn edited_cart_name<'a>(command: &EditorCommand<'a>) -> &'a str
    ensures { cart_word (editor_command_view command.now) ≡ Some result.now }
{
    match *command {
        EditorCommand::Ram(names, _) => names.cart,
        EditorCommand::Edit(names) => names.run.cart,
        EditorCommand::Serve(names) => names.run.cart,
        EditorCommand::Net(names) => names.cart,
    }
}

/// The three names.
fn run_names<'a>(cart: &'a String, recording: &'a String, font: &'a String) -> RunNames<'a>
    ensures { run_view result
        ≡ run_words (string_bytes cart.now) (string_bytes recording.now) (string_bytes font.now) }
{
    RunNames {
        cart: cart.as_str(),
        recording: recording.as_str(),
        font: font.as_str(),
    }
}

/// The budget that an argument gives: at least one unit.
fn budget_of(word: &String) -> Option<Budget>
    ensures { option_map (λ budget. budget.units) result ≡ budget_given (string_bytes word.now) }
{
    let units = number_of(word.as_bytes())?;
    if units < 1 {
        return None;
    }
    Some(Budget { units })
}

fn check_form(words: &[String]) -> Option<Form<'_>>
    ensures { option_map form_view result ≡ check_form (map string_bytes words.now) }
{
    let [cart] = words else {
        return None;
    };
    Some(Form::OnCart(CartCommand::Check(cart.as_str())))
}

#[tactic(auto, unfolding(w4_defs::specs::Commands::blank_form))]
fn blank_form(words: &[String]) -> Option<Form<'_>>
    ensures { option_map form_view result ≡ blank_form (map string_bytes words.now) }
{
    match words {
        [cart, budget] => {
            let budget = budget_of(budget)?;
            Some(Form::OnCart(CartCommand::Blank(cart.as_str(), budget)))
        }
        [cart, budget, disk] => {
            let budget = budget_of(budget)?;
            Some(Form::OnCart(CartCommand::BlankDisk(cart.as_str(), budget, disk.as_str())))
        }
        _ => None,
    }
}

#[tactic(auto, unfolding(w4_defs::specs::Commands::frames_form))]
fn frames_form(words: &[String]) -> Option<Form<'_>>
    ensures { option_map form_view result ≡ frames_form (map string_bytes words.now) }
{
    let [cart, recording, font, from, to] = words else {
        return None;
    };
    let from = number_of(from.as_bytes())?;
    let to = number_of(to.as_bytes())?;
    if from > to {
        return None;
    }
    Some(Form::OnCart(CartCommand::Frames(run_names(cart, recording, font), Places { from, to })))
}

/// The form of a command that is named for what is written of a whole run.
fn whole_form(words: &[String], text: WholeText) -> Option<Form<'_>>
    ensures { option_map form_view result ≡ whole_form text (map string_bytes words.now) }
{
    let [cart, recording, font] = words else {
        return None;
    };
    Some(Form::OnCart(CartCommand::Whole(run_names(cart, recording, font), text)))
}

#[tactic(auto, unfolding(w4_defs::specs::Commands::disk_form))]
fn disk_form(words: &[String]) -> Option<Form<'_>>
    ensures { option_map form_view result ≡ disk_form (map string_bytes words.now) }
{
    let [cart, recording, font, place] = words else {
        return None;
    };
    let place = number_of(place.as_bytes())?;
    Some(Form::OnCart(CartCommand::Disk(run_names(cart, recording, font), place)))
}

fn edit_form(words: &[String]) -> Option<Form<'_>>
    ensures { option_map form_view result ≡ edit_form (map string_bytes words.now) }
{
    let [cart, recording, font, script, out] = words else {
        return None;
    };
    Some(Form::InEditor(EditorCommand::Edit(EditNames {
        run: run_names(cart, recording, font),
        script: script.as_str(),
        out: out.as_str(),
    })))
}

#[tactic(auto, unfolding(w4_defs::specs::Commands::make_form))]
fn make_form(words: &[String]) -> Option<Form<'_>>
    ensures { option_map form_view result ≡ make_form (map string_bytes words.now) }
{
    let [number_word] = words else {
        return None;
    };
    let number = number_of(number_word.as_bytes())?;
    Some(Form::Make(number))
}

#[tactic(auto, unfolding(w4_defs::specs::Commands::net_form))]
fn net_form(words: &[String]) -> Option<Form<'_>>
    ensures { option_map form_view result ≡ net_form (map string_bytes words.now) }
{
    let [cart, font, budget, log] = words else {
        return None;
    };
    let budget = budget_of(budget)?;
    Some(Form::InEditor(EditorCommand::Net(NetNames {
        cart: cart.as_str(),
        font: font.as_str(),
        budget,
        log: log.as_str(),
    })))
}

fn ram_form(words: &[String]) -> Option<Form<'_>>
    ensures { option_map form_view result ≡ ram_form (map string_bytes words.now) }
{
    let [cart, recording, font, query] = words else {
        return None;
    };
    Some(Form::InEditor(EditorCommand::Ram(run_names(cart, recording, font), query.as_str())))
}

#[tactic(auto, unfolding(w4_defs::specs::Commands::batch_form))]
fn batch_form(words: &[String]) -> Option<Form<'_>>
    ensures { option_map form_view result ≡ batch_form (map string_bytes words.now) }
{
    let [cart, font, list, workers] = words else {
        return None;
    };
    let count = number_of(workers.as_bytes())? as usize;
    if count < 1 || count > MOST_WORKERS {
        return None;
    }
    Some(Form::OnCart(CartCommand::Batch(BatchNames {
        cart: cart.as_str(),
        font: font.as_str(),
        list: list.as_str(),
        workers: Workers { count },
    })))
}

fn serve_form(words: &[String]) -> Option<Form<'_>>
    ensures { option_map form_view result ≡ serve_form (map string_bytes words.now) }
{
    let [cart, recording, font, out] = words else {
        return None;
    };
    Some(Form::InEditor(EditorCommand::Serve(ServeNames {
        run: run_names(cart, recording, font),
        out: out.as_str(),
    })))
}

fn compare_form(words: &[String]) -> Option<Form<'_>>
    ensures { option_map form_view result ≡ compare_form (map string_bytes words.now) }
{
    let [cart, recording, other_cart, other_recording, font] = words else {
        return None;
    };
    Some(Form::Compare(CompareNames {
        cart: cart.as_str(),
        recording: recording.as_str(),
        other_cart: other_cart.as_str(),
        other_recording: other_recording.as_str(),
        font: font.as_str(),
    }))
}

fn rebind_form(words: &[String]) -> Option<Form<'_>>
    ensures { option_map form_view result ≡ rebind_form (map string_bytes words.now) }
{
    let [cart, recording] = words else {
        return None;
    };
    Some(Form::OnCart(CartCommand::Rebind(cart.as_str(), recording.as_str())))
}

fn inputs_form(words: &[String]) -> Option<Form<'_>>
    ensures { option_map form_view result ≡ inputs_form (map string_bytes words.now) }
{
    let [recording] = words else {
        return None;
    };
    Some(Form::Inputs(recording.as_str()))
}

/// The form of the arguments, or None if they match no command.
#[tactic(auto, unfolding(w4_defs::specs::Commands::form_of))]
pub fn form_of_words(words: &[String]) -> Option<Form<'_>>
    ensures { option_map form_view result ≡ form_of (map string_bytes words.now) }
{
    let [name, rest @ ..] = words else {
        return None;
    };
    match name.as_str() {
        "check" => check_form(rest),
        "blank" => blank_form(rest),
        "frames" => frames_form(rest),
        "tones" => whole_form(rest, WholeText::Tones),
        "trace" => whole_form(rest, WholeText::Trace),
        "disk" => disk_form(rest),
        "edit" => edit_form(rest),
        "make" => make_form(rest),
        "net" => net_form(rest),
        "ram" => ram_form(rest),
        "wave" => whole_form(rest, WholeText::Wave),
        "batch" => batch_form(rest),
        "serve" => serve_form(rest),
        "units" => whole_form(rest, WholeText::Units),
        "compare" => compare_form(rest),
        "rebind" => rebind_form(rest),
        "inputs" => inputs_form(rest),
        _ => None,
    }
}
