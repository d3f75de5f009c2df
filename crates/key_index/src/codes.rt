ghost use Rattle.std.specs.Prelude.{◌≡◌, ◌<◌, ◌≤◌, ◌*◌, ◌%◌, ◌^◌, length};
ghost use Rattle.key_index.specs.Codes.{code_prime, code_root, code_of_genus, code_of_list, code_of, AreCodes};

use airy_index::Key;

/// The prime 2^58 - 27.
const PRIME: u128 = 288_230_376_151_711_717;

/// A primitive root of the prime.
const ROOT: u64 = 178_136_169_051_924_959;

/// The code of the genus 1.
const GENUS: u64 = 5_566_755_282_872_655;

/// The codes of all indices.
pub(crate) type Codes = [u64; 256];

/// The code of the next index.
#[tactic(auto, unfolding(crate::specs::Codes::code_prime, crate::specs::Codes::code_root))]
fn next_code(code: u64) -> u64
    ensures { result ≡ code * code_root % code_prime }
{
    (code as u128 * ROOT as u128 % PRIME) as u64
}

/// The codes of all indices.
#[tactic(auto, unfolding(crate::specs::Codes::code_of_index))]
pub(crate) fn index_codes() -> Codes
    ensures { AreCodes result }
{
    let mut codes = [0; 256];
    let mut code = ROOT;
    for index in 0..256 {
        codes[index] = code;
        code = next_code(code);
    }
    codes
}

/// The code of a genus: the part that it has in the code of a key.
#[tactic(auto, unfolding(crate::specs::Codes::code_of_genus))]
pub fn genus_code(genus: u8) -> u64
    ensures code { result ≡ code_of_genus genus }
    ensures small { result < 2 ^ 61 }
{
    genus as u64 * GENUS
}

/// The code of a list of at most 27 indices.
pub(crate) fn list_code(codes: &Codes, indices: &[u8]) -> u64
    requires codes { AreCodes codes.now }
    requires short { length indices.now ≤ 27 }
    ensures { result ≡ code_of_list indices.now }
{
    let mut code = 0;
    for index in indices {
        code += codes[*index as usize];
    }
    code
}

/// The code of a key.
#[tactic(auto, unfolding(crate::specs::Codes::code_of))]
pub(crate) fn key_code(codes: &Codes, key: &Key) -> u64
    requires { AreCodes codes.now }
    ensures { result ≡ code_of key.now }
{
    key.validity_fact();
    genus_code(key.g()) + list_code(codes, key.idx())
}
