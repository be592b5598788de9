//! `make`: a cart that a number makes, run through all its frames.

ghost use Rattle.std.specs.Prelude.{◌≡◌, Some, IfOk, replicate};
ghost use Rattle.std.specs.Option.{ForSome};
ghost use Rattle.sha2.specs.Sha256.{sha256};
ghost use Rattle.w4_defs.specs.Cart.{IsCart};
ghost use Rattle.w4_defs.specs.Generator.{made_budget, made_inputs, made_module};
ghost use Rattle.w4_defs.specs.MadeSummary.{summary_text};
ghost use Rattle.w4_defs.specs.World.{LeavesWriting};
ghost use Rattle.w4_defs.specs.Causes.{LeavesErr};
ghost use Rattle.w4_commands.specs.Commands.{EndsDone, MakesOf};
ghost use Rattle.w4_answers.specs.Writing.{Written};
ghost use Rattle.w4_defs.specs.Output.{made_text, make_output};
ghost use Rattle.w4_defs.specs.EncodeModule.{module_bytes};

use crate::scene::Scene;
use crate::stage::Stage;
use crate::summary::{Summary, summary_text};
use std::alloc::Global;
use w4_answers::writing::write_bytes;
use w4_cart::{CartRefusal, accept};
use w4_console::Setup;
use w4_console::laws::accepted_runs_have_meaning;
use w4_defs::tool_laws::generator_laws;
use w4_defs::{OutOfMemory, Refusal};
use w4_font::{FONT_BYTES, Font};
use w4_house::House;
use w4_record::digest_of;
use wasm_read::at_most_one;
use wasm_register::Cart;
use wasm_write::laws::made_modules_are_carts;
use wasm_write::{MADE_FRAMES, Made, Maker};

/// `make NUMBER`.
pub fn run_make<H: House>(alloc: Global, house: &mut H, number: u32) -> Result<(), Refusal>
    ensures ends { EndsDone (H.world house.old) (H.world house.new) result
        (MakesOf (λ files. make_output number)) }
    ensures err { LeavesErr (H.world house.old) (H.world house.new) }
{
    made_modules_are_carts();
    accepted_runs_have_meaning();
    write_made(alloc, house, number)
}

/// Writes the five lines.
fn write_made<H: House>(alloc: Global, house: &mut H, number: u32) -> Result<(), Refusal>
    ensures out { ForSome (made_text number)
        (λ text. Written (H.world house.old) (H.world house.new) result text) }
    ensures rest { LeavesWriting (H.world house.old) (H.world house.new) }
{
    let text = made_lines(alloc, number)?;
    write_bytes(alloc, house, text.as_slice())
}

/// The cart that these bytes are: a made one, which is always accepted.
fn accept_made(alloc: Global, bytes: &[u8], number: u32) -> Result<Cart, OutOfMemory>
    requires { IsCart bytes.now (made_module number) }
    ensures { IfOk result (λ cart. cart ≡ made_module number) }
{
    at_most_one();
    match accept(alloc, bytes) {
        Ok(cart) => Ok(cart),
        Err(CartRefusal::OutOfMemory) => Err(OutOfMemory),
        Err(CartRefusal::Kind(_)) => unreachable!(),
    }
}

/// The font that made carts are run with: zeros alone.
fn zero_font() -> Font
    ensures { result ≡ replicate 1792 0 }
{
    match Font::new(&[0; FONT_BYTES]) {
        Ok(font) => font,
        Err(_) => unreachable!(),
    }
}

/// The five lines of the cart that a number makes.
fn made_lines(alloc: Global, number: u32) -> Result<Vec<u8>, OutOfMemory>
    ensures { IfOk result (λ text. made_text number ≡ Some text.items) }
{
    let made = Maker::make(alloc, number)?;
    lines_of(alloc, number, &made)
}

/// The five lines of a made cart.
fn lines_of(alloc: Global, number: u32, made: &Made) -> Result<Vec<u8>, OutOfMemory>
    requires accepted { IsCart made.now.cart.items (made_module number) }
    requires shortest { made.now.cart.items ≡ module_bytes (made_module number) }
    requires budget { made.now.budget ≡ made_budget }
    requires inputs { made.now.inputs.items ≡ made_inputs number }
    ensures { IfOk result (λ text. made_text number ≡ Some text.items) }
{
    let cart = accept_made(alloc, made.cart.as_slice(), number)?;
    lines_of_run(alloc, number, made, &cart)
}

/// The five lines of a made cart, once it is accepted.
fn lines_of_run(
    alloc: Global,
    number: u32,
    made: &Made,
    cart: &Cart,
) -> Result<Vec<u8>, OutOfMemory>
    requires accepted { cart.now ≡ made_module number }
    requires shortest { made.now.cart.items ≡ module_bytes (made_module number) }
    requires budget { made.now.budget ≡ made_budget }
    requires inputs { made.now.inputs.items ≡ made_inputs number }
    ensures { IfOk result (λ text. made_text number ≡ Some text.items) }
{
    generator_laws();
    let bytes = made.cart.as_slice();
    let font = zero_font();
    let mut stage = Stage::new(alloc, cart)?;
    let setup = Setup {
        cart,
        font: &font,
        budget: made.budget,
    };
    let scene = Scene { setup, disk: &[] };
    stage.run_to(&scene, made.inputs.as_slice(), MADE_FRAMES as usize);
    let lines = summary_of(alloc, &mut stage, bytes.len());
    stage.close();
    lines
}

/// The lines of the state that the stage has come to.
fn summary_of(alloc: Global, stage: &mut Stage, cart_len: usize) -> Result<Vec<u8>, OutOfMemory>
    ensures { IfOk result (λ text. text.items ≡ summary_text sha256 cart_len stage.old.console) }
{
    stage.paint();
    let summary = Summary {
        cart_len,
        halt: stage.halt(),
        lit: stage.lit(),
        image: digest_of(stage.painted()),
    };
    summary_text(alloc, &summary)
}
