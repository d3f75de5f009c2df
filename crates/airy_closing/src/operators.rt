ghost use Rattle.std.specs.Prelude.{◌≡◌};
ghost use Rattle.airy_math.specs.Relations.{Close};
ghost use Rattle.sparse_tensor.specs.Entries.{looked_up};
ghost use Rattle.airy_relations.specs.Verdicts.{verdict};
ghost use Rattle.airy_relations.specs.Numbers.{TellsFailure};
ghost use Rattle.airy_closing.specs.Constants.{TellsClosing, CloseByConstants};

use crate::laws::{closing_law, numbers_law};
use airy_relations::{Verdict, check};
use sparse_tensor::Tensors;

/// Whether the operators `L_i` of the tensors close under the bracket: whether for all i and j there are numbers `f_a` with
/// `L_i L_j - L_j L_i = h sum f_a L_a` (Kontsevich and Soibelman; Andersen, Borot, Chekhov and Orantin).
///
/// It answers what the check of the five relations does in all places. Where it says Closed, the operators close, by the numbers
/// `B^i_{ja} - B^j_{ia}`. Where it says Differs, they don't. Over says nothing of it. Where the tensors carry a letter, all this is
/// meant of the fractions that they store, which is with 1 in the letter's place. It takes no memory.
pub fn closing(t: &Tensors) -> Verdict
    ensures found { result ≡ verdict (looked_up t.now) t.now.dim }
    ensures closed { result ≡ Verdict.Closed → Close (looked_up t.now) t.now.dim }
    ensures differs { TellsFailure (looked_up t.now) t.now.dim result }
    ensures operators { TellsClosing (looked_up t.now) result }
    ensures constants { result ≡ Verdict.Closed → CloseByConstants (looked_up t.now) }
{
    t.soundness_fact();
    closing_law();
    numbers_law();
    check(t, t.dim())
}
