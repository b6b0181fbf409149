//! XOR of slices, in place.
ghost use Rattle.std.specs.Prelude.{◌≡◌, length};
ghost use Rattle.cred_scrypt.specs.Xor.{xor_all};

/// XORs the words of `with` into those of `into`.
#[inline(always)]
#[tactic(auto, using(crate::proofs::Pointwise::zipped_all))]
pub(crate) fn xor_words(into: &mut [u32], with: &[u32])
    requires { length into.old ≡ length with.now }
    ensures { into.new ≡ xor_all into.old with.now }
{
    'words: for i in 0..into.len() {
        into[i] ^= with[i];
    }
}

/// XORs the bytes of `with` into those of `into`.
#[tactic(auto, using(crate::proofs::Pointwise::zipped_all))]
pub(crate) fn xor_bytes(into: &mut [u8], with: &[u8])
    requires { length into.old ≡ length with.now }
    ensures { into.new ≡ xor_all into.old with.now }
{
    'bytes: for i in 0..into.len() {
        into[i] ^= with[i];
    }
}
