ghost use Rattle.std.specs.Prelude.{◌≡◌, ◌∷◌, ◌<◌};
ghost use Rattle.tensor_text.specs.Lines.{words};
ghost use Rattle.tensor_text.specs.Grammar.{stored, place_line, index_line, said};
ghost use Rattle.sparse_tensor.specs.Entries.{is_given};
ghost use Rattle.sparse_tensor.specs.Grades.{keeps_d};
ghost use Rattle.sparse_tensor.specs.Puts.{with_d, keeps_in, taken_in, with_in};
ghost use Rattle.tensor_text.specs.Steps.{Stores, Says, err_at, refused_put};

use crate::lines::split_word;
use crate::refusals::{LineKind, TextErr};
use crate::values::read_value;
use crate::words::{letter_of, place_words, read_index, two_words};
use frac128::Frac;
use sparse_tensor::{Part, PutErr, Tensors};

/// Why a line stores nothing.
#[derive(Clone, Copy, Debug, PartialEq, Eq)]
pub(crate) enum Refusal {
    Kind(LineKind),
    NoMemory,
}

impl Refusal {
    /// The refusal of the line of this number.
    pub(crate) fn at(self, line: u32) -> TextErr
        ensures { result ≡ err_at line self }
    {
        match self {
            Refusal::Kind(kind) => TextErr::Line { line, kind },
            Refusal::NoMemory => TextErr::NoMemory,
        }
    }
}

/// What a line behind the first lines is.
#[derive(Clone, Copy, Debug, PartialEq, Eq)]
pub(crate) enum Said {
    Entry,
    End,
}

/// What became of an entry whose indices are below dim.
fn stored(answer: Result<(), PutErr>) -> Result<(), Refusal>
    ensures { result ≡ refused_put answer }
{
    match answer {
        Ok(()) => Ok(()),
        Err(PutErr::NoMemory) => Err(Refusal::NoMemory),
        Err(PutErr::Grade) => Err(Refusal::Kind(LineKind::Grade)),
        Err(_) => Err(Refusal::Kind(LineKind::Twice)),
    }
}

/// Stores an entry of A, B or C.
fn put(tensors: &mut Tensors, letter: Part, i: u8, j: u8, k: u8, v: Frac) -> Result<(), Refusal>
    requires i_inside { i < tensors.old.dim }
    requires j_inside { j < tensors.old.dim }
    requires k_inside { k < tensors.old.dim }
    ensures { Stores result tensors.new
        (stored (keeps_in letter tensors.old.shape i j k) (taken_in letter tensors.old i j k) v (with_in letter tensors.old i j k v)) }
{
    stored(tensors.put(letter, i, j, k, v))
}

/// Stores an entry of D.
fn put_d(tensors: &mut Tensors, i: u8, v: Frac) -> Result<(), Refusal>
    requires { i < tensors.old.dim }
    ensures { Stores result tensors.new (stored (keeps_d tensors.old.shape i) (is_given tensors.old.d i) v (with_d tensors.old i v)) }
{
    stored(tensors.put_d(i, v))
}

/// Reads what stands behind `A`, `B` or `C`.
#[tactic(auto, unfolding(crate::specs::Grammar::place_line, crate::specs::Grammar::checked))]
fn read_place(tensors: &mut Tensors, letter: Part, more: &[u8]) -> Result<(), Refusal>
    ensures { Stores result tensors.new (place_line letter tensors.old (words more.now)) }
{
    let dim = tensors.dim();
    let fields = place_words(more).ok_or(Refusal::Kind(LineKind::Count))?;
    let i = read_index(dim, fields.i).ok_or(Refusal::Kind(LineKind::Index))?;
    let j = read_index(dim, fields.j).ok_or(Refusal::Kind(LineKind::Index))?;
    let k = read_index(dim, fields.k).ok_or(Refusal::Kind(LineKind::Index))?;
    let v = read_value(fields.v).ok_or(Refusal::Kind(LineKind::Number))?;
    put(tensors, letter, i, j, k, v)
}

/// Reads what stands behind `D`.
#[tactic(auto, unfolding(crate::specs::Grammar::index_line, crate::specs::Grammar::checked))]
fn read_at_index(tensors: &mut Tensors, more: &[u8]) -> Result<(), Refusal>
    ensures { Stores result tensors.new (index_line tensors.old (words more.now)) }
{
    let dim = tensors.dim();
    let (index, value) = two_words(more).ok_or(Refusal::Kind(LineKind::Count))?;
    let i = read_index(dim, index).ok_or(Refusal::Kind(LineKind::Index))?;
    let v = read_value(value).ok_or(Refusal::Kind(LineKind::Number))?;
    put_d(tensors, i, v)
}

/// Reads a line behind the first lines, of which this is the first word and what stands behind it.
#[tactic(auto, unfolding(crate::specs::Grammar::said, crate::specs::Grammar::said_by, crate::specs::Grammar::end_line))]
pub(crate) fn read_line(tensors: &mut Tensors, word: &[u8], more: &[u8]) -> Result<Said, Refusal>
    ensures { Says result tensors.old tensors.new (said tensors.old (word.now ∷ words more.now)) }
{
    if let Some(letter) = letter_of(word) {
        read_place(tensors, letter, more)?;
        return Ok(Said::Entry);
    }
    if word == b"D".as_slice() {
        read_at_index(tensors, more)?;
        return Ok(Said::Entry);
    }
    if word != b"end".as_slice() {
        return Err(Refusal::Kind(LineKind::Word));
    }
    match split_word(more) {
        None => Ok(Said::End),
        Some(_) => Err(Refusal::Kind(LineKind::Count)),
    }
}
