//! Judging bytes as a cart.

ghost use Rattle.std.proofs.Props.{props};
ghost use Rattle.std.specs.Prelude.{◌≡◌, Err, IfOk};
ghost use Rattle.sha2.specs.Sha256.{sha256};
ghost use Rattle.w4_defs.specs.Cart.{IsCart, IsRefused};
ghost use Rattle.w4_defs.specs.Meaning.{RunsHaveMeaning};
ghost use Rattle.w4_defs.specs.declared.refusal.CartKind.{CartKind};
ghost use Rattle.w4_cart.specs.declared.refusal.CartRefusal.TheVariants.{Kind as OfKind};

use crate::refusal::CartRefusal;
use std::alloc::Global;
use w4_console::laws::accepted_runs_have_meaning;
use w4_defs::{CartKind, OutOfMemory};
use w4_record::digest_of;
use wasm_link::check_profile;
use wasm_read::{ReadRefusal, read_module};
use wasm_register::Cart;
use wasm_valid::{Cart as ValidCart, ValidRefusal, validate};

/// How many bytes a cart has at most: 64 KiB, as in WASM-4.
pub const MOST_BYTES: usize = 65_536;

/// An accepted cart, whose runs all have a meaning, and the SHA-256 of its bytes, by
/// which recordings name it.
#[derive(Drop)]
pub struct CartFile {
    pub cart: Cart,
    pub digest: [u8; 32],
    ghost meaning: { RunsHaveMeaning cart } by { Prim.hlevel props },
}

impl CartFile {
    /// Gives its memory back. A function of its own, since each place at which a cart may be dropped costs
    /// much to prove.
    pub fn close(self) {}
}

/// The valid module that the bytes are. The causes of `CartKind` are looked at in their order.
fn judge(alloc: Global, bytes: &[u8]) -> Result<ValidCart, CartRefusal>
    ensures cart { IfOk result (λ valid. IsCart bytes.now valid) }
    ensures refused { (kind : CartKind) → result ≡ Err (OfKind kind) → IsRefused bytes.now kind }
{
    if bytes.len() > MOST_BYTES {
        return Err(CartRefusal::Kind(CartKind::TooLarge));
    }
    let code = match read_module(alloc, bytes) {
        Ok(code) => code,
        Err(ReadRefusal::Malformed) => return Err(CartRefusal::Kind(CartKind::Malformed)),
        Err(ReadRefusal::OutOfMemory) => return Err(CartRefusal::OutOfMemory),
    };
    if let Err(refusal) = check_profile(&code) {
        return Err(CartRefusal::Kind(CartKind::Profile(refusal)));
    }
    match validate(alloc, code) {
        Ok(valid) => Ok(valid),
        Err(ValidRefusal::Invalid(func)) => Err(CartRefusal::Kind(CartKind::Invalid(func))),
        Err(ValidRefusal::OutOfMemory) => Err(CartRefusal::OutOfMemory),
    }
}

/// The cart that the bytes are, or the first cause of `CartKind` for which they are none.
pub fn accept(alloc: Global, bytes: &[u8]) -> Result<Cart, CartRefusal>
    ensures cart { IfOk result (λ cart. IsCart bytes.now cart) }
    ensures refused { (kind : CartKind) → result ≡ Err (OfKind kind) → IsRefused bytes.now kind }
{
    let valid = judge(alloc, bytes)?;
    match Cart::new(alloc, valid) {
        Ok(cart) => Ok(cart),
        Err(OutOfMemory) => Err(CartRefusal::OutOfMemory),
    }
}

/// The cart that the bytes are, with their digest.
pub fn accept_file(alloc: Global, bytes: &[u8]) -> Result<CartFile, CartRefusal>
    ensures cart { IfOk result (λ file. IsCart bytes.now file.cart) }
    ensures digest { IfOk result (λ file. file.digest ≡ sha256 bytes.now) }
    ensures refused { (kind : CartKind) → result ≡ Err (OfKind kind) → IsRefused bytes.now kind }
{
    accepted_runs_have_meaning();
    let cart = accept(alloc, bytes)?;
    let digest = digest_of(bytes);
    Ok(CartFile { cart, digest })
}
