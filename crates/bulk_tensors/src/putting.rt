ghost use Rattle.std.specs.Prelude.{◌≡◌, ◌≤◌, ◌<◌, ◌+◌, ◌*◌, IfErr, OnOk, IfOk, false};
ghost use Rattle.bulk_tensors.specs.Full.{place, AreListed};
ghost use Rattle.bulk_tensors.specs.Filled.{AreFilled};

use crate::full::are_below;
use crate::full_tensors::FullTensors;
use frac128::Frac;
use sparse_tensor::{NoMemory, PutErr, Shape, Tensors};
use std::alloc::{AllocError, Global};

/// The answer of a put that only want of memory can refuse.
fn unless_wanting(answer: Result<(), PutErr>) -> Result<(), NoMemory>
    requires { IfErr answer (λ e. e ≡ PutErr.NoMemory) }
    ensures { OnOk result (answer ≡ Ok tt) }
{
    match answer {
        Ok(()) => Ok(()),
        Err(_) => Err(AllocError),
    }
}

impl FullTensors {
    /// Puts the entry of B at one place.
    fn put_b(&self, tensors: &mut Tensors, i: u8, j: u8, k: u8) -> Result<(), NoMemory>
        requires first { i < self.now.dim }
        requires second { j < self.now.dim }
        requires third { k < self.now.dim }
        requires before { AreFilled (place i j k) (place i j k) (place i j k) 0 self.now tensors.old }
        ensures { OnOk result (AreFilled (place i j k) (place i j k + 1) (place i j k) 0 self.now tensors.new) }
    {
        tensors.soundness_fact();
        let value = self.b.at(usize::from(i), usize::from(j), usize::from(k));
        unless_wanting(tensors.put_b(i, j, k, value))
    }

    /// Puts the entry of A at one place.
    fn put_a(&self, tensors: &mut Tensors, i: u8, j: u8, k: u8) -> Result<(), NoMemory>
        requires first { i < self.now.dim }
        requires second { j < self.now.dim }
        requires third { k < self.now.dim }
        requires ordered { j ≤ k }
        requires before { AreFilled (place i j k) (place i j k + 1) (place i j k) 0 self.now tensors.old }
        ensures { OnOk result (AreFilled (place i j k + 1) (place i j k + 1) (place i j k) 0 self.now tensors.new) }
    {
        tensors.soundness_fact();
        let value = self.a.at(usize::from(i), usize::from(j), usize::from(k));
        unless_wanting(tensors.put_a(i, j, k, value))
    }

    /// Puts the entry of C at one place.
    fn put_c(&self, tensors: &mut Tensors, i: u8, j: u8, k: u8) -> Result<(), NoMemory>
        requires first { i < self.now.dim }
        requires second { j < self.now.dim }
        requires third { k < self.now.dim }
        requires ordered { j ≤ k }
        requires before { AreFilled (place i j k + 1) (place i j k + 1) (place i j k) 0 self.now tensors.old }
        ensures { OnOk result (AreFilled (place i j k + 1) (place i j k + 1) (place i j k + 1) 0 self.now tensors.new) }
    {
        tensors.soundness_fact();
        let value = self.c.at(usize::from(i), usize::from(j), usize::from(k));
        unless_wanting(tensors.put_c(i, j, k, value))
    }

    /// Puts the entries of B, and where j is at most k of A and C, at one place.
    fn put_place(&self, tensors: &mut Tensors, i: u8, j: u8, k: u8) -> Result<(), NoMemory>
        requires first { i < self.now.dim }
        requires second { j < self.now.dim }
        requires third { k < self.now.dim }
        requires before { AreFilled (place i j k) (place i j k) (place i j k) 0 self.now tensors.old }
        ensures { OnOk result (AreFilled (place i j k + 1) (place i j k + 1) (place i j k + 1) 0 self.now tensors.new) }
    {
        let _dim = self.dim;
        self.put_b(tensors, i, j, k)?;
        if j <= k {
            self.put_a(tensors, i, j, k)?;
            self.put_c(tensors, i, j, k)?;
        }
        Ok(())
    }

    /// Puts the entry of D at one index.
    fn put_d(&self, tensors: &mut Tensors, i: u8) -> Result<(), NoMemory>
        requires below { i < self.now.dim }
        requires before { AreFilled 512 512 512 i self.now tensors.old }
        ensures { OnOk result (AreFilled 512 512 512 (i + 1) self.now tensors.new) }
    {
        tensors.soundness_fact();
        unless_wanting(tensors.put_d(i, self.d[usize::from(i)]))
    }

    /// The tensors of these entries, of shape All and without a letter, where A and C are symmetric in their last two indices.
    /// It is refused for want of memory alone.
    pub fn tensors(&self, alloc: Global) -> Result<Tensors, NoMemory>
        ensures entries { IfOk result (AreListed self.now) }
        ensures letter { IfOk result (λ t. t.letter ≡ false) }
    {
        let mut tensors = Tensors::empty(alloc, self.dim, Shape::All, false)?;
        for place in 0..512 {
            let (i, j, k) = (place / 64, place / 8 % 8, place % 8);
            if are_below(usize::from(self.dim), i, j, k) {
                self.put_place(&mut tensors, i as u8, j as u8, k as u8)?;
            }
        }
        for i in 0..self.dim {
            self.put_d(&mut tensors, i)?;
        }
        Ok(tensors)
    }
}
