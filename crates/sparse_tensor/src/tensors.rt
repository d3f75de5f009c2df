ghost use Rattle.std.specs.Prelude.{◌≡◌, ◌≤◌, ◌<◌, ◌↔◌, true, ltb, IsTrue, IsOk, OnOk, OnErr, IfOk, IfErr, IsErrOf};
ghost use Rattle.sparse_tensor.specs.Entries.{looked_up, no_entries, is_given};
ghost use Rattle.sparse_tensor.specs.Grades.{IsSmallLaw, IsAtMost, AreSound, keeps_d};
ghost use Rattle.sparse_tensor.specs.Rows.{PutsIn};
ghost use Rattle.sparse_tensor.specs.Parts.{checked, answered};
ghost use Rattle.sparse_tensor.specs.Puts.{are_inside, keeps_in, taken_in, with_in, putting_in, IsPut};
ghost use Rattle.sparse_tensor.specs.Puts.{IsAdmitted, putting_a, putting_b, putting_c, putting_d, Outside};
ghost use Rattle.sparse_tensor.specs.Puts.{Nothing, Ungraded, Taken, IsAllowed, with_a, with_b, with_c, with_d};
ghost use Rattle.airy_math.specs.Tensors.{is_zero, row_b, row_c};

use crate::grades::{keeps_a, keeps_b, keeps_c, keeps_d};
use crate::grid::Grid;
use crate::pairs::Pairs;
use crate::parts::Part;
use crate::row::Row;
use airy_math::Shape;
use frac128::Frac;
use std::alloc::{AllocError, Global};
use std::marker::Model;

/// Want of memory.
pub type NoMemory = AllocError;

/// Why an entry isn't put.
#[derive(Clone, Copy, Debug, PartialEq, Eq)]
pub enum PutErr {
    /// An index isn't below dim.
    Index,
    /// The entry breaks the shape's grading.
    Grade,
    /// The place holds an entry already.
    Twice,
    /// Want of memory.
    NoMemory,
}

/// The entries of A, B, C and D that aren't 0, with a dim, a shape and whether they carry a letter.
#[derive(Drop)]
pub struct Tensors {
    dim: u8,
    shape: Shape,
    letter: bool,
    a: Pairs,
    b: Grid,
    c: Pairs,
    d: Row,
}

impl Model for Tensors {
    ghost use Rattle.sparse_tensor.specs.Entries.{Entries, entries_code};

    ghost Value = { Entries };

    ghost coded = { entries_code };

    ghost use Rattle.sparse_tensor.specs.Parts.{gathered, AreParts};

    ghost view = { λ t. gathered t.dim t.shape t.letter t.a t.b t.c t.d };

    ghost invariant = { λ t. AreParts (gathered t.dim t.shape t.letter t.a t.b t.c t.d) t.a t.b t.c };
}

/// Whether all three indices are below dim.
#[tactic(auto, unfolding(crate::specs::Puts::are_inside))]
fn are_inside(dim: u8, i: u8, j: u8, k: u8) -> bool
    ensures { result ≡ are_inside dim i j k }
{
    i < dim && j < dim && k < dim
}

/// Whether an entry of the part keeps the grading.
#[tactic(auto, unfolding(crate::specs::Puts::keeps_in))]
fn keeps_in(part: Part, shape: Shape, i: u8, j: u8, k: u8) -> bool
    requires { IsSmallLaw shape }
    ensures { result ≡ keeps_in part shape i j k }
{
    match part {
        Part::A => keeps_a(shape, i, j, k),
        Part::B => keeps_b(shape, i, j, k),
        Part::C => keeps_c(shape, i, j, k),
    }
}

/// Whether the entry v is to be stored, or why it can't be.
#[tactic(auto, using(crate::proofs::SoundLaw::zero_tests))]
fn admitted(inside: bool, v: Frac, graded: bool) -> Result<bool, PutErr>
    ensures { result ≡ checked inside (is_zero v) graded }
{
    if !inside {
        Err(PutErr::Index)
    } else if v.is_zero() {
        Ok(false)
    } else if !graded {
        Err(PutErr::Grade)
    } else {
        Ok(true)
    }
}

/// The answer of a put, from whether the place was free.
fn stored(free: Result<bool, NoMemory>) -> Result<(), PutErr>
    ensures { result ≡ answered free }
{
    match free {
        Ok(true) => Ok(()),
        Ok(false) => Err(PutErr::Twice),
        Err(_) => Err(PutErr::NoMemory),
    }
}

impl Tensors {
    /// Tensors without entries. Dim is from 1 to 72; the numbers of the shape's law lie from -99 to 99; a letter wants
    /// a shape that is AtMost.
    pub fn empty(alloc: Global, dim: u8, shape: Shape, letter: bool) -> Result<Tensors, NoMemory>
        requires some { 0 < dim }
        requires most { dim ≤ 72 }
        requires law { IsSmallLaw shape }
        requires letter { letter ≡ true → IsAtMost shape }
        ensures { IfOk result (λ t. t ≡ no_entries dim shape letter) }
    {
        let a = Pairs::empty(alloc, dim)?;
        let b = Grid::empty(alloc, dim)?;
        let c = Pairs::empty(alloc, dim)?;
        let d = Row::new(alloc);
        Ok(Tensors {
            dim,
            shape,
            letter,
            a,
            b,
            c,
            d,
        })
    }

    /// Whether an entry of the part is to be stored, or why it can't be.
    fn admitted_in(&self, part: Part, i: u8, j: u8, k: u8, v: Frac) -> Result<bool, PutErr>
        ensures { result ≡ checked (are_inside self.now.dim i j k) (is_zero v) (keeps_in part self.now.shape i j k) }
    {
        let inside = are_inside(self.dim, i, j, k);
        admitted(inside, v, keeps_in(part, self.shape, i, j, k))
    }

    /// The same of an entry of D.
    fn admitted_d(&self, i: u8, v: Frac) -> Result<bool, PutErr>
        ensures { result ≡ checked (ltb i self.now.dim) (is_zero v) (keeps_d self.now.shape i) }
    {
        admitted(i < self.dim, v, keeps_d(self.shape, i))
    }

    /// Stores an entry that passes the checks, and answers whether its place was free.
    #[tactic(auto, unfolding(crate::specs::Puts::are_inside))]
    fn store(&mut self, part: Part, i: u8, j: u8, k: u8, v: Frac) -> Result<bool, NoMemory>
        requires { IsAdmitted (are_inside self.old.dim i j k) (is_zero v) (keeps_in part self.old.shape i j k) }
        ensures { PutsIn result (taken_in part self.old i j k) self.old (with_in part self.old i j k v) self.new }
    {
        v.range_fact();
        match part {
            Part::A => self.a.put(i, j.min(k), j.max(k), v),
            Part::B => self.b.put(i, j, k, v),
            Part::C => self.c.put(i, j.min(k), j.max(k), v),
        }
    }

    /// Puts an entry of the part, as `put_a`, `put_b` and `put_c` do.
    pub fn put(&mut self, part: Part, i: u8, j: u8, k: u8, v: Frac) -> Result<(), PutErr>
        ensures { IsPut result (putting_in part self.old i j k v) self.old (with_in part self.old i j k v) self.new }
    {
        match self.admitted_in(part, i, j, k, v) {
            Err(why) => Err(why),
            Ok(false) => Ok(()),
            Ok(true) => stored(self.store(part, i, j, k, v)),
        }
    }

    /// Puts `A^i_{jk}`, which is `A^i_{kj}` too. A zero value stores nothing.
    #[tactic(auto, unfolding(crate::specs::Puts::putting_a, crate::specs::Puts::putting_in, crate::specs::Puts::keeps_in, crate::specs::Puts::taken_in, crate::specs::Puts::with_in))]
    pub fn put_a(&mut self, i: u8, j: u8, k: u8, v: Frac) -> Result<(), PutErr>
        ensures index { IsErrOf result PutErr.Index ↔ (putting_a self.old i j k v ≡ Outside) }
        ensures grade { IsErrOf result PutErr.Grade ↔ (putting_a self.old i j k v ≡ Ungraded) }
        ensures twice { IsErrOf result PutErr.Twice ↔ (putting_a self.old i j k v ≡ Taken) }
        ensures nothing { putting_a self.old i j k v ≡ Nothing → IsOk result }
        ensures allowed { IsAllowed (putting_a self.old i j k v) → IfErr result (λ e. e ≡ PutErr.NoMemory) }
        ensures put { OnOk result (self.new ≡ with_a self.old i j k v) }
        ensures same { OnErr result (self.new ≡ self.old) }
    {
        self.put(Part::A, i, j, k, v)
    }

    /// Puts `B^i_{jk}`. A zero value stores nothing.
    #[tactic(auto, unfolding(crate::specs::Puts::putting_b, crate::specs::Puts::putting_in, crate::specs::Puts::keeps_in, crate::specs::Puts::taken_in, crate::specs::Puts::with_in))]
    pub fn put_b(&mut self, i: u8, j: u8, k: u8, v: Frac) -> Result<(), PutErr>
        ensures index { IsErrOf result PutErr.Index ↔ (putting_b self.old i j k v ≡ Outside) }
        ensures grade { IsErrOf result PutErr.Grade ↔ (putting_b self.old i j k v ≡ Ungraded) }
        ensures twice { IsErrOf result PutErr.Twice ↔ (putting_b self.old i j k v ≡ Taken) }
        ensures nothing { putting_b self.old i j k v ≡ Nothing → IsOk result }
        ensures allowed { IsAllowed (putting_b self.old i j k v) → IfErr result (λ e. e ≡ PutErr.NoMemory) }
        ensures put { OnOk result (self.new ≡ with_b self.old i j k v) }
        ensures same { OnErr result (self.new ≡ self.old) }
    {
        self.put(Part::B, i, j, k, v)
    }

    /// Puts `C^i_{jk}`, which is `C^i_{kj}` too. A zero value stores nothing.
    #[tactic(auto, unfolding(crate::specs::Puts::putting_c, crate::specs::Puts::putting_in, crate::specs::Puts::keeps_in, crate::specs::Puts::taken_in, crate::specs::Puts::with_in))]
    pub fn put_c(&mut self, i: u8, j: u8, k: u8, v: Frac) -> Result<(), PutErr>
        ensures index { IsErrOf result PutErr.Index ↔ (putting_c self.old i j k v ≡ Outside) }
        ensures grade { IsErrOf result PutErr.Grade ↔ (putting_c self.old i j k v ≡ Ungraded) }
        ensures twice { IsErrOf result PutErr.Twice ↔ (putting_c self.old i j k v ≡ Taken) }
        ensures nothing { putting_c self.old i j k v ≡ Nothing → IsOk result }
        ensures allowed { IsAllowed (putting_c self.old i j k v) → IfErr result (λ e. e ≡ PutErr.NoMemory) }
        ensures put { OnOk result (self.new ≡ with_c self.old i j k v) }
        ensures same { OnErr result (self.new ≡ self.old) }
    {
        self.put(Part::C, i, j, k, v)
    }

    /// Stores an entry of D that passes the checks, and answers whether its place was free.
    fn store_d(&mut self, i: u8, v: Frac) -> Result<bool, NoMemory>
        requires { IsAdmitted (ltb i self.old.dim) (is_zero v) (keeps_d self.old.shape i) }
        ensures { PutsIn result (is_given self.old.d i) self.old (with_d self.old i v) self.new }
    {
        v.range_fact();
        self.d.put(i, v)
    }

    /// Puts an entry of D, as `put_d` does.
    fn put_value(&mut self, i: u8, v: Frac) -> Result<(), PutErr>
        ensures { IsPut result (putting_d self.old i v) self.old (with_d self.old i v) self.new }
    {
        match self.admitted_d(i, v) {
            Err(why) => Err(why),
            Ok(false) => Ok(()),
            Ok(true) => stored(self.store_d(i, v)),
        }
    }

    /// Puts `D^i`. A zero value stores nothing.
    pub fn put_d(&mut self, i: u8, v: Frac) -> Result<(), PutErr>
        ensures index { IsErrOf result PutErr.Index ↔ (putting_d self.old i v ≡ Outside) }
        ensures grade { IsErrOf result PutErr.Grade ↔ (putting_d self.old i v ≡ Ungraded) }
        ensures twice { IsErrOf result PutErr.Twice ↔ (putting_d self.old i v ≡ Taken) }
        ensures nothing { putting_d self.old i v ≡ Nothing → IsOk result }
        ensures allowed { IsAllowed (putting_d self.old i v) → IfErr result (λ e. e ≡ PutErr.NoMemory) }
        ensures put { OnOk result (self.new ≡ with_d self.old i v) }
        ensures same { OnErr result (self.new ≡ self.old) }
    {
        self.put_value(i, v)
    }

    /// `A^i_{jk}`, 0 where no entry stands there.
    pub fn a(&self, i: u8, j: u8, k: u8) -> Frac
        ensures { result ≡ (looked_up self.now).A i j k }
    {
        if i < self.dim {
            self.a.value(i, j.min(k), j.max(k))
        } else {
            Frac::whole(0)
        }
    }

    /// `B^i_{jk}`, 0 where no entry stands there.
    pub fn b(&self, i: u8, j: u8, k: u8) -> Frac
        ensures { result ≡ (looked_up self.now).B i j k }
    {
        if i < self.dim && j < self.dim {
            self.b.value(i, j, k)
        } else {
            Frac::whole(0)
        }
    }

    /// `C^i_{jk}`, 0 where no entry stands there.
    pub fn c(&self, i: u8, j: u8, k: u8) -> Frac
        ensures { result ≡ (looked_up self.now).C i j k }
    {
        if i < self.dim {
            self.c.value(i, j.min(k), j.max(k))
        } else {
            Frac::whole(0)
        }
    }

    /// `D^i`, 0 where no entry stands there.
    #[tactic(auto, unfolding(crate::specs::Entries::looked_up))]
    pub fn d(&self, i: u8) -> Frac
        ensures { result ≡ (looked_up self.now).D i }
    {
        self.d.value(i)
    }

    /// The entries of `B^i_{ja}` by a ascending: each a with its value.
    pub fn row_b(&self, i: u8, j: u8) -> &[(u8, Frac)]
        ensures { result.now ≡ row_b (looked_up self.now) i j }
    {
        if i < self.dim && j < self.dim {
            self.b.row(i, j)
        } else {
            &[]
        }
    }

    /// The entries of `C^i_{ab}` with a at most b, by a and then b ascending.
    pub fn row_c(&self, i: u8) -> &[(u8, u8, Frac)]
        ensures { result.now ≡ row_c (looked_up self.now) i }
    {
        if i < self.dim { self.c.row(i) } else { &[] }
    }

    /// The number of indices.
    pub fn dim(&self) -> u8
        ensures { result ≡ self.now.dim }
    {
        self.dim
    }

    /// The shape.
    pub fn shape(&self) -> Shape
        ensures { result ≡ self.now.shape }
    {
        self.shape
    }

    /// Whether they carry a letter.
    pub fn letter(&self) -> bool
        ensures { result ≡ self.now.letter }
    {
        self.letter
    }

    /// What all tensors keep: the fact, for proofs of callers.
    pub fn soundness_fact(&self)
        ensures { AreSound self.now }
    {
        let _dim = self.dim;
    }
}
