//! The pieces that scrypt mixes independently, as the parts of a run of workers (RFC 7914, section
//! 6, step 2).
ghost use Rattle.std.specs.Prelude.{◌≡◌, ℕ, ◌*◌, ◌^◌, ◌<◌, List, IfOk, false, length};
ghost use Rattle.cred_scrypt.specs.{PieceWork.CanWork, PieceWork.Works, Mixing.ro_mix, Scrypt.mixed_pieces};

use crate::error::ScryptError;
use crate::params::ScryptParams;
use crate::romix::ro_mix_in;
use crate::scratch::ScryptScratch;
use crate::words::{put_words, words_of};
use cred_pool::{Crew, Gate, Part};
use std::alloc::Global;

/// The bytes of a piece for each unit of the block size: two blocks.
const PAIR: usize = 128;

/// The values that the pieces share.
#[derive(Drop)]
pub(crate) struct Mixing {
    alloc: Global,
    params: ScryptParams,
}

/// One piece.
#[derive(Drop)]
pub(crate) struct Piece {
    words: Vec<u32>,
    /// Whether the allocator refused memory for the piece's table; the piece's words are then
    /// unchanged.
    refused: bool,
}

impl Part<Mixing> for Piece {
    ghost can_work = { CanWork };

    ghost works = { Works };

    /// Mixes the piece by ROMix, and frees the table when the piece is done.
    fn work(&mut self, shared: &Mixing) {
        let mut scratch = ScryptScratch::new(shared.alloc, 0);
        self.mix(&mut scratch, shared.alloc, &shared.params);
    }
}

impl Piece {
    ghost use Rattle.cred_scrypt.specs.Pieces.{AreCut, AreMixed, AreWhole};

    /// Mixes the piece by ROMix, with a table that is kept.
    fn mix(&mut self, scratch: &mut ScryptScratch, alloc: Global, params: &ScryptParams)
        requires { length self.old.words.items ≡ 32 * params.now.r }
        ensures mixed { self.new.refused ≡ false
            → self.new.words.items ≡ ro_mix params.now.r (2 ^ params.now.ln) self.old.words.items }
        ensures most { scratch.new ≡ scratch.old }
    {
        let mixed = ro_mix_in(
            scratch,
            alloc,
            params.r,
            params.ln,
            self.words.as_mut_slice(),
        );
        self.refused = mixed.is_err();
    }

    /// Cuts `bytes` into `p` pieces.
    pub(crate) fn cut(
        alloc: Global,
        r: usize,
        p: usize,
        bytes: &[u8],
    ) -> Result<Vec<Piece>, ScryptError>
        requires small { 128 * r * p < 2 ^ 32 }
        requires size { length bytes.now ≡ 128 * r * p }
        ensures memory { (e : _) → result ≡ Err e → e ≡ ScryptError.Memory }
        ensures count { IfOk result (λ pieces. length pieces.items ≡ p) }
        ensures cut { IfOk result (λ pieces. AreCut r bytes.now pieces.items) }
        ensures whole { IfOk result (λ pieces. AreWhole r pieces.items) }
    {
        let mut pieces = Vec::with_capacity(alloc, p)?;
        'cuts: for k in 0..p {
            let at = PAIR * r * k;
            let words = words_of(alloc, &bytes[at..at + PAIR * r])?;
            pieces.push(Piece {
                words,
                refused: false,
            })?;
        }
        Ok(pieces)
    }

    /// Has the crew mix each piece.
    pub(crate) fn mix_all<W: Crew<Mixing, Piece>>(
        crew: &W,
        alloc: Global,
        params: &ScryptParams,
        pieces: &mut [Piece],
    )
        requires crew { W.ready crew.now }
        requires whole { AreWhole params.now.r pieces.old }
        ensures { (b : List ℕ) → AreCut params.now.r b pieces.old
            → AreMixed params.now.ln params.now.r b pieces.new }
    {
        let shared = Mixing {
            alloc,
            params: *params,
        };
        crew.work_each(&shared, pieces);
    }

    /// Mixes each piece, between the gate's `enter` and `leave` with its index.
    pub(crate) fn mix_in_turn<G: Gate>(
        scratch: &mut ScryptScratch,
        alloc: Global,
        gate: &G,
        params: &ScryptParams,
        pieces: &mut [Piece],
    )
        requires whole { AreWhole params.now.r pieces.old }
        ensures mixed { (b : List ℕ) → AreCut params.now.r b pieces.old
            → AreMixed params.now.ln params.now.r b pieces.new }
        ensures count { length pieces.new ≡ length pieces.old }
        ensures most { scratch.new ≡ scratch.old }
    {
        'pieces: for k in 0..pieces.len() {
            gate.enter(k);
            pieces[k].mix(scratch, alloc, params);
            gate.leave(k);
        }
    }

    /// Returns the bytes of all the pieces, in order.
    ///
    /// Errors: `Memory` if there was not enough for a piece's table, or is not enough for the
    /// bytes.
    pub(crate) fn joined(
        alloc: Global,
        size: usize,
        pieces: &[Piece],
    ) -> Result<Vec<u8>, ScryptError>
        ensures memory { (e : _) → result ≡ Err e → e ≡ ScryptError.Memory }
        ensures ok { (ln r : ℕ) (b : List ℕ) → AreMixed ln r b pieces.now
            → IfOk result (λ bytes. bytes.items ≡ mixed_pieces ln r b (length pieces.now)) }
    {
        let mut bytes = Vec::with_capacity(alloc, size)?;
        'joins: for piece in pieces {
            if piece.refused {
                return Err(ScryptError::Memory);
            }
            put_words(&mut bytes, &piece.words)?;
        }
        Ok(bytes)
    }
}
