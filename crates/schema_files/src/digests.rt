//! The digests of files.

ghost use Rattle.std.specs.Prelude.{◌≡◌};
ghost use Rattle.sha2.specs.Sha256.{sha256};

use proof_file::head::Digest256;
use sha2::{Digest, Sha256};

/// The SHA-256 digest of a file's bytes (FIPS 180-4).
pub fn digest_of(bytes: &[u8]) -> Digest256
    ensures { result.0 ≡ sha256 bytes.now }
{
    Digest256(Sha256::digest(bytes))
}
