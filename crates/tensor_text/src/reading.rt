ghost use Rattle.std.specs.Prelude.{◌≡◌, ◌<◌, ◌^◌};
ghost use Rattle.tensor_text.specs.Answers.{Reads, HasReadCause};
ghost use Rattle.tensor_text.specs.Steps.{BytesRead};

use crate::refusals::TextErr;
use crate::text::read_text;
use airy_io::Source;
use sparse_tensor::Tensors;
use std::alloc::Global;

/// The most bytes of a text.
const MOST_BYTES: usize = 1_048_576;

/// Reads a source to its end and gives the tensors of its text, with their shape and letter, as the grammar says: those of a
/// text `airy 1` have the shape All and no letter.
///
/// `ReadFault` comes only where the source's count of faults rose, and every other answer leaves that count. `TooLong`
/// comes where the source gives a byte beyond 1,048,576, and reading stops at that byte. `Line` comes exactly where the
/// grammar refuses the text, with its first refused line and the first check that fails there, after the source was read
/// to its end.
pub fn read_tensors<S: Source>(alloc: Global, src: &mut S) -> Result<Tensors, TextErr>
    ensures read { Reads (S.state src.old) (S.state src.new) result }
    ensures cause { HasReadCause (S.state src.old).faults (S.state src.new).faults result }
{
    let text = read_bytes(alloc, src, MOST_BYTES)?;
    read_text(alloc, text.as_slice())
}

/// The bytes of a source up to its end, where they are at most `most`, which is below 2^63.
///
/// `ReadFault` comes only where the source's count of faults rose, and every other answer leaves that count. `TooLong`
/// comes where the source gives a byte beyond `most`, and reading stops at that byte. It never answers `Line`.
pub fn read_bytes<S: Source>(alloc: Global, src: &mut S, most: usize) -> Result<Vec<u8>, TextErr>
    requires { most < 2 ^ 63 }
    ensures read { BytesRead (λ v. v.items) most (S.state src.old).left (S.state src.new).left result }
    ensures cause { HasReadCause (S.state src.old).faults (S.state src.new).faults result }
{
    let mut room = [0u8; 4096];
    let mut text = Vec::new(alloc);
    while text.len() <= most {
        let wanted = room.len().min(most + 1 - text.len());
        let Ok(count) = src.read(&mut room[..wanted]) else {
            return Err(TextErr::ReadFault);
        };
        if count == 0 {
            return Ok(text);
        }
        if text.extend_from_slice(&room[..count]).is_err() {
            return Err(TextErr::NoMemory);
        }
    }
    Err(TextErr::TooLong)
}
