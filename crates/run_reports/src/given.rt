ghost use Rattle.std.specs.Prelude.{◌≡◌, ◌⊎◌, IfErr};

use std::{env, io};

/// The words behind a program's name, or the status to end with: 1 where the system doesn't give them, and 10 where memory for them is
/// wanting.
pub fn words_given(rt: &HostRuntime) -> Result<Vec<String>, u8>
    ensures status { IfErr result (λ s. (s ≡ 1) ⊎ (s ≡ 10)) }
{
    let mut args = match env::args(rt) {
        Ok(args) => args,
        Err(error) if error.kind() == io::ErrorKind::OutOfMemory => return Err(10),
        Err(_) => return Err(1),
    };
    let _name = args.next();
    args.collect(rt.alloc()).map_err(|_| 10)
}
