ghost use Rattle.std.specs.Prelude.{◌≡◌, ◌<◌, IfSome};
ghost use Rattle.sparse_tensor.specs.Entries.{looked_up};
ghost use Rattle.airy_closing.specs.Constants.{IsConstant, obtained_constant};

use crate::laws::bracket_law;
use frac128::Frac;
use sparse_tensor::Tensors;

/// The number `f_a = B^i_{ja} - B^j_{ia}`, the only one that can stand at a in `L_i L_j - L_j L_i = h sum f_a L_a`. Where the
/// operators close, the bracket is this sum. With i and j exchanged it is the negative number. The indices are below dim.
///
/// None comes exactly where the sum of `B^i_{ja}` and the negative of `B^j_{ia}` isn't obtained in 128 bits. Where the tensors carry
/// a letter, the number is the one with 1 in its place. It takes no memory.
#[tactic(auto, unfolding(crate::specs::Constants::obtained_constant))]
pub fn bracket(t: &Tensors, i: u8, j: u8, a: u8) -> Option<Frac>
    requires i_below { i < t.now.dim }
    requires j_below { j < t.now.dim }
    requires a_below { a < t.now.dim }
    ensures sum { result ≡ obtained_constant (looked_up t.now) i j a }
    ensures constant { IfSome result (λ f. IsConstant (looked_up t.now) i j a f) }
{
    t.soundness_fact();
    bracket_law();
    t.b(i, j, a).add(t.b(j, i, a).neg())
}
