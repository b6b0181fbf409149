//! scrypt itself: PBKDF2, ROMix on each piece, and PBKDF2 again (RFC 7914, section 6).
ghost use Rattle.std.specs.Prelude.{◌≡◌, ◌<◌, ◌*◌, ℕ, List, IfOk, length, slice_index_or};
ghost use Rattle.cred_scrypt.specs.{Pbkdf2.pbkdf2, PieceWork.CanWork, PieceWork.Works, Pieces.AreCut, Pieces.AreMixed, Pieces.AreWhole};
ghost use Rattle.cred_scrypt.specs.{Scrypt.mixed_pieces, Scrypt.scrypt, declared.pieces.Piece.Piece};
ghost use denote.Param.Send.{IsSync};

use crate::error::ScryptError;
use crate::params::ScryptParams;
use crate::pbkdf::pbkdf2;
use crate::pieces::{Mixing, Piece};
use crate::scratch::ScryptScratch;
use cred_pool::{CrewFn, Gate, run_parts};
use std::alloc::Global;
use std::marker::Sync;
use std::thread::Threads;

/// Computes scrypt (RFC 7914, section 6): the key of a password and a salt, each of any length. At
/// most `workers` new threads mix the pieces, each piece between the gate's `enter` and `leave`
/// with its index. A piece needs a table of 128 * r * N bytes while a thread mixes it.
///
/// Errors: `Memory` if there is not enough for a table, for the 128 * r * p bytes of the pieces or
/// for the key.
pub fn scrypt<R: Threads + Sync, G: Gate + Sync>(
    rt: &R,
    alloc: Global,
    workers: u8,
    gate: &G,
    params: &ScryptParams,
    pw: &[u8],
    salt: &[u8],
) -> Result<Vec<u8>, ScryptError>
    ensures memory { (e : _) → result ≡ Err e → e ≡ ScryptError.Memory }
    ensures ok { IfOk result (λ key. key.items
        ≡ scrypt params.now.ln params.now.r params.now.p params.now.len pw.now salt.now) }
    ensures size { IfOk result (λ key. length key.items ≡ params.now.len) }
{
    let work_each = |shared: &Mixing, parts: &mut [Piece]|
        requires { IsSync R.row × IsSync G.row
            × ((i : ℕ) (d : Piece) → i < length parts.now
            → CanWork shared.now (slice_index_or parts.now i d)) }
        ensures { (i : ℕ) (d : Piece) → i < length parts.entry.now
            → Works shared.entry.now (slice_index_or parts.entry.now i d)
            (slice_index_or parts.exit.now i d) }
    { run_parts(rt, workers, gate, shared, parts) };
    let mut pieces = first_pieces(alloc, params, pw, salt)?;
    Piece::mix_all(&CrewFn { work_each }, alloc, params, &mut pieces);
    key_of(alloc, params, pw, &pieces)
}

/// Computes the same key on the caller's thread, without a runtime. The thread mixes the pieces in
/// turn, with the gate around each. The scratch keeps their table from key to key, up to its bound.
/// So the table doesn't go back to the system after each of many keys. No derivation reads what an
/// earlier one left in the table.
///
/// The errors are the same. The scratch can still serve the next key.
pub fn scrypt_in<G: Gate>(
    scratch: &mut ScryptScratch,
    alloc: Global,
    gate: &G,
    params: &ScryptParams,
    pw: &[u8],
    salt: &[u8],
) -> Result<Vec<u8>, ScryptError>
    ensures memory { (e : _) → result ≡ Err e → e ≡ ScryptError.Memory }
    ensures ok { IfOk result (λ key. key.items
        ≡ scrypt params.now.ln params.now.r params.now.p params.now.len pw.now salt.now) }
    ensures size { IfOk result (λ key. length key.items ≡ params.now.len) }
    ensures most { scratch.new ≡ scratch.old }
{
    let mut pieces = first_pieces(alloc, params, pw, salt)?;
    Piece::mix_in_turn(scratch, alloc, gate, params, &mut pieces);
    key_of(alloc, params, pw, &pieces)
}

/// Computes the pieces before they are mixed (step 1).
fn first_pieces(
    alloc: Global,
    params: &ScryptParams,
    pw: &[u8],
    salt: &[u8],
) -> Result<Vec<Piece>, ScryptError>
    ensures memory { (e : _) → result ≡ Err e → e ≡ ScryptError.Memory }
    ensures count { IfOk result (λ pieces. length pieces.items ≡ params.now.p) }
    ensures cut { IfOk result (λ pieces. AreCut params.now.r
        (pbkdf2 pw.now salt.now 1 (128 * params.now.r * params.now.p)) pieces.items) }
    ensures whole { IfOk result (λ pieces. AreWhole params.now.r pieces.items) }
{
    let bytes = pbkdf2(alloc, pw, salt, 1, pieces_len(params))?;
    Piece::cut(alloc, usize::from(params.r), usize::from(params.p), &bytes)
}

/// Derives the key from the mixed pieces (step 3).
///
/// Errors: `Memory` if a piece had no table, or if there is not enough for the key.
fn key_of(
    alloc: Global,
    params: &ScryptParams,
    pw: &[u8],
    pieces: &[Piece],
) -> Result<Vec<u8>, ScryptError>
    requires { length pieces.now ≡ params.now.p }
    ensures memory { (e : _) → result ≡ Err e → e ≡ ScryptError.Memory }
    ensures ok { (b : List ℕ) → AreMixed params.now.ln params.now.r b pieces.now
        → IfOk result (λ key. key.items
        ≡ pbkdf2 pw.now (mixed_pieces params.now.ln params.now.r b params.now.p) 1 params.now.len) }
    ensures size { IfOk result (λ key. length key.items ≡ params.now.len) }
{
    let mixed = Piece::joined(alloc, pieces_len(params) as usize, pieces)?;
    pbkdf2(alloc, pw, &mixed, 1, params.len)
}

/// Returns the length of all pieces in bytes.
fn pieces_len(params: &ScryptParams) -> u32
    ensures { result ≡ 128 * params.now.r * params.now.p }
{
    128 * u32::from(params.r) * u32::from(params.p)
}
