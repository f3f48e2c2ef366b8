//! A schedule that is read whole.
ghost use Rattle.std.specs.Prelude.{◌≡◌, ◌<◌, ◌++◌, false, List, ℕ, length, OnOk, IfOk, IfErr};
ghost use Rattle.std.specs.Prelude.{IfSome, Err, ◌⊎◌};
ghost use Rattle.std.specs.Io.KnownBytes.{Consumes, IsAtEnd};
ghost use Rattle.warm_world.specs.declared.play_fault.PlayFault.TheVariants.{Memory, ReadFault};

use std::alloc::Global;
use std::io::{ErrorKind, Read};
use warm_player::{MAX_READS, READ_SIZE};
use warm_world::PlayFault;

// Reads once, and appends the bytes read to the text. `false` at the end of the input. An
// interrupted read counts as reading nothing.
fn read_some<R: Read>(
    reader: &mut R,
    buffer: &mut [u8],
    text: &mut Vec<u8>,
) -> Result<bool, PlayFault>
    requires space { 0 < length buffer.old }
    ensures reads { OnOk result ((bytes : List ℕ)
        × Consumes (R.remaining reader.old) (R.remaining reader.new) bytes
        × (text.new.items ≡ text.old.items ++ bytes)) }
    ensures end { IfOk result (λ more. more ≡ false → IsAtEnd (R.remaining reader.new)) }
    ensures why { IfErr result (λ why. (why ≡ Memory) ⊎ (why ≡ ReadFault)) }
{
    match reader.read(buffer) {
        Ok(0) => Ok(false),
        Ok(n) => {
            text.extend_from_slice(&buffer[..n])?;
            Ok(true)
        }
        Err(e) => {
            if e.kind() != ErrorKind::Interrupted {
                return Err(PlayFault::ReadFault);
            }
            Ok(true)
        }
    }
}

// All that is left of the input.
pub(crate) fn read_whole<R: Read>(alloc: Global, reader: &mut R) -> Result<Vec<u8>, PlayFault>
    ensures end { OnOk result (IsAtEnd (R.remaining reader.new)) }
    ensures whole { IfOk result (λ text.
        IfSome (R.remaining reader.old) (λ all. all ≡ text.items)) }
    ensures why { IfErr result (λ why. (why ≡ Memory) ⊎ (why ≡ ReadFault)) }
{
    let mut buffer = vec![in alloc; 0u8; READ_SIZE]?;
    let mut text = Vec::new(alloc);
    for _ in 0..MAX_READS {
        if !read_some(reader, buffer.as_mut_slice(), &mut text)? {
            return Ok(text);
        }
    }
    Err(PlayFault::ReadFault)
}
