//! The generator of large valid carts (project rule): from a number, a cart, its budget and its inputs. Draws
//! come in one order: three for each small function, and then one for each input.

ghost use Rattle.std.specs.Prelude.{IfOk, flat_map, map, ℕ, ◌*◌, ◌+◌, ◌++◌, ◌<◌, ◌∷◌, ◌≡◌};
ghost use Rattle.std.specs.List.{range_with_len};
ghost use Rattle.w4_defs.specs.Cart.{IsCart};
ghost use Rattle.w4_defs.specs.Generator.{byte_at, chosen, draw, made_budget, made_inputs, made_module, seed_after, small_function, small_functions, step_of, update_function};
ghost use Rattle.w4_defs.specs.Tree.{sequence};
ghost use Rattle.w4_defs.specs.View.{before};
ghost use Rattle.wasm_write.specs.Draws.{function_of_draws, input_of_draw, inputs_from};
ghost use Rattle.w4_defs.specs.EncodeModule.{module_bytes};
ghost use Rattle.wasm_write.specs.Sequences.{AppendsOperations, IsOperation};

use crate::made_module::{SMALL_FUNCTIONS, module_around};
use crate::module::write_module;
use std::alloc::Global;
use w4_defs::{Basic, Body, Input, Instr, OutOfMemory};

/// A made cart, the budget of its reset and of each frame, and its inputs.
#[derive(Debug, Drop)]
pub struct Made {
    pub cart: Vec<u8>,
    pub budget: u32,
    pub inputs: Vec<Input>,
}

/// Makes carts.
pub struct Maker;

const BUDGET: u32 = 100_000;

/// How many inputs a made cart has: ten seconds of 60 frames.
pub const MADE_FRAMES: u32 = 600;

/// Where the words begin that the small functions change: right after the framebuffer.
const WORDS: u32 = 6560;

/// Draws of 16 bits, by a linear congruential generator (Numerical Recipes in C, second edition, section
/// 7.1).
#[derive(Drop)]
struct Draws {
    number: u32,
}

impl Draws {
    fn next(&mut self) -> u32
        ensures next { self.new.number ≡ seed_after self.old.number 1 }
        ensures draw { result ≡ draw self.old.number 0 }
    {
        self.number = self
            .number
            .wrapping_mul(1_664_525)
            .wrapping_add(1_013_904_223);
        self.number >> 16
    }
}

/// The operation that a draw chooses.
#[tactic(auto, unfolding(w4_defs::specs::View::before))]
fn choice(drawn: u32) -> Instr
    ensures { IsOperation result (chosen drawn) }
{
    match drawn % 11 {
        0 => Instr::Basic(Basic::I32Add),
        1 => Instr::Basic(Basic::I32Sub),
        2 => Instr::Basic(Basic::I32Mul),
        3 => Instr::Basic(Basic::I32And),
        4 => Instr::Basic(Basic::I32Or),
        5 => Instr::Basic(Basic::I32Xor),
        6 => Instr::Basic(Basic::I32Shl),
        7 => Instr::Basic(Basic::I32ShrS),
        8 => Instr::Basic(Basic::I32ShrU),
        9 => Instr::Basic(Basic::I32Rotl),
        _ => Instr::Basic(Basic::I32Rotr),
    }
}

/// The function that three draws make.
fn function_of_draws(
    alloc: Global,
    first: u32,
    value: u32,
    second: u32,
) -> Result<Body, OutOfMemory>
    ensures { IfOk result (λ b. b ≡ function_of_draws first value second) }
{
    let mut list = Vec::new(alloc);
    list.push(Instr::LocalGet { index: 0 })?;
    list.push(Instr::LocalGet { index: 1 })?;
    list.push(choice(first))?;
    list.push(Instr::Basic(Basic::I32Const { value }))?;
    list.push(choice(second))?;
    let runs = Vec::new(alloc);
    Ok(Body { runs, list })
}

fn small_function(alloc: Global, draws: &mut Draws) -> Result<Body, OutOfMemory>
    ensures function { IfOk result (λ b. b ≡ small_function draws.old.number 0) }
    ensures draws { draws.new.number ≡ seed_after draws.old.number 3 }
{
    let first = draws.next();
    let value = draws.next();
    let second = draws.next();
    function_of_draws(alloc, first, value, second)
}

/// Appends the step of small function g, which is function g + 1, in `update`.
fn step(list: &mut Vec<Instr>, g: u32) -> Result<(), OutOfMemory>
    requires { g < 64 }
    ensures { IfOk result (λ _. AppendsOperations list.old.items (step_of g) list.new.items) }
{
    let address = WORDS + 4 * g;
    list.push(Instr::Basic(Basic::I32Const { value: address }))?;
    list.push(Instr::Basic(Basic::I32Const { value: address }))?;
    list.push(Instr::Basic(Basic::I32Load {
        align: 2,
        offset: 0,
    }))?;
    list.push(Instr::Basic(Basic::I32Const { value: 22 }))?;
    list.push(Instr::Basic(Basic::I32Load8U {
        align: 0,
        offset: 0,
    }))?;
    list.push(Instr::Call { func: g + 1 })?;
    list.push(Instr::Basic(Basic::I32Store {
        align: 2,
        offset: 0,
    }))?;
    Ok(())
}

/// All steps.
fn steps(list: &mut Vec<Instr>) -> Result<(), OutOfMemory>
    ensures { IfOk result (λ _. AppendsOperations list.old.items
        (flat_map step_of (range_with_len 0 small_functions)) list.new.items) }
{
    for g in 0..SMALL_FUNCTIONS {
        step(list, g)?;
    }
    Ok(())
}

/// Appends the byte of a word that `rect` is called with.
fn byte_of_word(list: &mut Vec<Instr>, address: u32) -> Result<(), OutOfMemory>
    ensures { IfOk result (λ _. AppendsOperations list.old.items (byte_at address) list.new.items) }
{
    list.push(Instr::Basic(Basic::I32Const { value: address }))?;
    list.push(Instr::Basic(Basic::I32Load8U {
        align: 0,
        offset: 0,
    }))?;
    Ok(())
}

/// The function that is exported: all steps, and then a rectangle.
fn update_function(alloc: Global) -> Result<Body, OutOfMemory>
    ensures { IfOk result (λ b. b ≡ update_function) }
{
    let mut list = Vec::new(alloc);
    steps(&mut list)?;
    byte_of_word(&mut list, WORDS)?;
    byte_of_word(&mut list, WORDS + 4)?;
    byte_of_word(&mut list, WORDS + 8)?;
    byte_of_word(&mut list, WORDS + 12)?;
    list.push(Instr::Call { func: 0 })?;
    let runs = Vec::new(alloc);
    Ok(Body { runs, list })
}

/// The bodies of all functions.
fn bodies(alloc: Global, draws: &mut Draws) -> Result<Vec<Body>, OutOfMemory>
    ensures bodies { IfOk result (λ bs. bs.items ≡ (made_module draws.old.number).bodies) }
    ensures draws { IfOk result (λ _. draws.new.number ≡ seed_after draws.old.number (3 * small_functions)) }
{
    let mut bodies = Vec::new(alloc);
    for _g in 0..SMALL_FUNCTIONS {
        bodies.push(small_function(alloc, draws)?)?;
    }
    bodies.push(update_function(alloc)?)?;
    Ok(bodies)
}

/// The input of a draw: gamepad 1 is its lowest byte.
fn input(drawn: u32) -> Input
    ensures { result ≡ input_of_draw drawn }
{
    Input {
        pads: [(drawn % 256) as u8, 0, 0, 0],
        mouse_x: 0,
        mouse_y: 0,
        buttons: 0,
        reset: false,
    }
}

fn inputs(alloc: Global, draws: &mut Draws) -> Result<Vec<Input>, OutOfMemory>
    ensures { IfOk result (λ is. is.items ≡ inputs_from draws.old.number) }
{
    let mut inputs = Vec::new(alloc);
    for _k in 0..MADE_FRAMES {
        inputs.push(input(draws.next()))?;
    }
    Ok(inputs)
}

impl Maker {
    /// The cart, the budget and the inputs of a number.
    pub fn make(alloc: Global, number: u32) -> Result<Made, OutOfMemory>
        ensures accepted { IfOk result (λ made. IsCart made.cart.items (made_module number)) }
        ensures shortest { IfOk result (λ made. made.cart.items ≡ module_bytes (made_module number)) }
        ensures budget { IfOk result (λ made. made.budget ≡ made_budget) }
        ensures inputs { IfOk result (λ made. made.inputs.items ≡ made_inputs number) }
    {
        let mut draws = Draws { number };
        let bodies = bodies(alloc, &mut draws)?;
        let module = module_around(alloc, bodies)?;
        let cart = write_module(alloc, &module)?;
        let inputs = inputs(alloc, &mut draws)?;
        Ok(Made {
            cart,
            budget: BUDGET,
            inputs,
        })
    }
}
