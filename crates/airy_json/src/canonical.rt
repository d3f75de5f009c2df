ghost use Rattle.std.specs.Prelude.{◌≡◌, ◌<◌, ◌≤◌, IfOk, Some, length, string_bytes};
ghost use Rattle.std.specs.Io.KnownBytes.{WriteAppends};
ghost use Rattle.airy_io.specs.Causes.{HasCause};
ghost use Rattle.tensor_text.specs.Canonical.{canonical_text};
ghost use Rattle.airy_json.specs.Reading.{kind_of, text};

use airy_io::{Failed, Sink};
use amp_terms::NoMemory;
use sparse_tensor::Tensors;
use std::alloc::{AllocError, Global};
use tensor_text::write_tensors;

/// A sink that keeps all its bytes in memory. It fails only where memory is refused.
#[derive(Drop)]
struct TextSink {
    bytes: Vec<u8>,
    faults: u64,
}

impl Sink for TextSink {
    ghost state = { λ s. record { taken = Some s.bytes.items; faults = s.faults } };

    fn write(&mut self, from: &[u8]) -> Result<usize, Failed>
        requires { 0 < length from.now }
        ensures bound { IfOk result (λ n. (0 < n) × (n ≤ length from.now)) }
        ensures bytes { WriteAppends (Some self.old.bytes.items) (Some self.new.bytes.items) result from.now }
        ensures cause { HasCause self.old.faults self.new.faults result }
    {
        match self.bytes.extend_from_slice(from) {
            Ok(()) => Ok(from.len()),
            Err(_) => {
                self.faults = self.faults.saturating_add(1);
                Err(Failed)
            }
        }
    }
}

/// The canonical text of tensors of a dim up to 32, as `write_tensors` writes it: the kind of a document of their table.
pub fn canonical_text(alloc: Global, t: &Tensors) -> Result<String, NoMemory>
    requires { t.now.dim ≤ 32 }
    ensures text { IfOk result (λ s. string_bytes s ≡ canonical_text t.now) }
    ensures kind { IfOk result (λ s. kind_of (string_bytes s) ≡ Some (text t.now)) }
{
    let mut sink = TextSink {
        bytes: Vec::new(alloc),
        faults: 0,
    };
    if write_tensors(t, &mut sink).is_err() {
        return Err(AllocError);
    }
    match String::from_utf8(sink.bytes) {
        Ok(text) => Ok(text),
        Err(_) => unreachable!(),
    }
}
