ghost use Rattle.std.specs.Prelude.{◌≡◌, ◌≤◌, ◌<◌, ◌+◌, ◌++◌, codes, length, IsUtf8};
ghost use Rattle.airy_math.specs.Rational.{ℚ};
ghost use Rattle.std.specs.Fmt.{signed_decimal};
ghost use Rattle.frac128.specs.Fraction.{fraction_text};
ghost use Rattle.sparse_tensor.specs.Entries.{Entry};
ghost use Rattle.tensor_text.specs.Canonical.{spaced, place_text, index_text, dim_text, header_text, law_text};
ghost use Rattle.tensor_text.specs.Canonical.{letter_word, shape_text, first_text, entries_text, canonical_text};
ghost use Rattle.tensor_text.specs.Pieces.{place_piece, row_piece, plane_piece, places_piece, index_piece, indices_piece};
ghost use Rattle.airy_io.specs.Causes.{Writes};
ghost use Rattle.tensor_text.specs.Grammar.{reading_of, Read};

use crate::letters::{first_in, letter_text, value_in};
use airy_io::{Failed, LineText, Sink, write_all};
use frac128::Frac;
use sparse_tensor::{Law, Part, Shape, Tensors};

/// Puts a space and a number at the end of a line.
fn put_spaced(line: &mut LineText, n: u8)
    requires { length line.old + 11 ≤ 512 }
    ensures text { line.new ≡ line.old ++ spaced n }
    ensures short { length line.new ≤ length line.old + 11 }
{
    line.put(b" ");
    line.put_number(n as u32);
}

/// Puts a space, a value and a line feed at the end of a line.
fn put_value(line: &mut LineText, v: Frac)
    requires { length line.old + 86 ≤ 512 }
    ensures { line.new ≡ line.old ++ codes " " ++ fraction_text v ++ codes "\n" }
{
    let mut text = [0u8; 84];
    let size = v.write_into(&mut text);
    line.put(b" ");
    line.put(&text[..size]);
    line.put(b"\n");
}

/// Writes the line of an entry of A, B or C.
#[tactic(auto, unfolding(crate::specs::Canonical::place_text))]
fn write_entry<W: Sink>(
    letter: Part,
    i: u8,
    j: u8,
    k: u8,
    v: Frac,
    out: &mut W,
) -> Result<(), Failed>
    ensures { Writes (place_text letter (record { i = i; j = j; k = k; v = v })) (W.state out.old) (W.state out.new) result }
{
    let mut line = LineText::new();
    line.put(letter_text(letter));
    put_spaced(&mut line, i);
    put_spaced(&mut line, j);
    put_spaced(&mut line, k);
    put_value(&mut line, v);
    write_all(out, line.bytes())
}

/// Writes the line of an entry of D.
#[tactic(auto, unfolding(crate::specs::Canonical::index_text))]
fn write_index_entry<W: Sink>(i: u8, v: Frac, out: &mut W) -> Result<(), Failed>
    ensures { Writes (index_text (i, v)) (W.state out.old) (W.state out.new) result }
{
    let mut line = LineText::new();
    line.put(b"D");
    put_spaced(&mut line, i);
    put_value(&mut line, v);
    write_all(out, line.bytes())
}

/// Writes the header.
#[tactic(auto, unfolding(crate::specs::Canonical::header_text))]
fn write_header<W: Sink>(t: &Tensors, out: &mut W) -> Result<(), Failed>
    ensures { Writes (header_text t.now.shape) (W.state out.old) (W.state out.new) result }
{
    match t.shape() {
        Shape::All => write_all(out, b"airy 1\n"),
        Shape::Exact(_) | Shape::AtMost(_) => write_all(out, b"airy 2\n"),
    }
}

/// Writes the dim line.
#[tactic(auto, unfolding(crate::specs::Canonical::dim_text))]
fn write_dim<W: Sink>(t: &Tensors, out: &mut W) -> Result<(), Failed>
    ensures { Writes (dim_text t.now.dim) (W.state out.old) (W.state out.new) result }
{
    let mut line = LineText::new();
    line.put(b"dim");
    put_spaced(&mut line, t.dim());
    line.put(b"\n");
    write_all(out, line.bytes())
}

/// Puts a space and a number of a law at the end of a line.
fn put_signed(line: &mut LineText, z: i32)
    requires { length line.old + 12 ≤ 512 }
    ensures text { line.new ≡ line.old ++ codes " " ++ signed_decimal z }
    ensures short { length line.new ≤ length line.old + 12 }
{
    line.put(b" ");
    if z < 0 {
        line.put(b"-");
    }
    line.put_number(z.unsigned_abs());
}

/// Puts the numbers of a law at the end of a line.
fn put_law(line: &mut LineText, law: Law)
    requires { length line.old + 24 ≤ 512 }
    ensures text { line.new ≡ line.old ++ law_text law }
    ensures short { length line.new ≤ length line.old + 24 }
{
    put_signed(line, law.per_g);
    put_signed(line, law.per_n);
}

/// The word `letter` behind a space, where there is a letter.
fn letter_word(letter: bool) -> &'static [u8]
    ensures word { result.now ≡ letter_word letter }
    ensures short { length result.now ≤ 7 }
{
    if letter { b" letter" } else { b"" }
}

/// Writes a shape line: its first words, the numbers of its law, and what stands behind them.
fn write_law<W: Sink>(words: &[u8], law: Law, behind: &[u8], out: &mut W) -> Result<(), Failed>
    requires words { length words.now ≤ 12 }
    requires behind { length behind.now ≤ 7 }
    ensures { Writes (words.now ++ law_text law ++ behind.now ++ codes "\n") (W.state out.old) (W.state out.new) result }
{
    let mut line = LineText::new();
    line.put(words);
    put_law(&mut line, law);
    line.put(behind);
    line.put(b"\n");
    write_all(out, line.bytes())
}

/// Writes the shape line, where there is a law.
#[tactic(auto, unfolding(crate::specs::Canonical::shape_text))]
fn write_shape<W: Sink>(t: &Tensors, out: &mut W) -> Result<(), Failed>
    ensures { Writes (shape_text t.now.shape t.now.letter) (W.state out.old) (W.state out.new) result }
{
    match t.shape() {
        Shape::All => Ok(()),
        Shape::Exact(law) => write_law(b"shape exact", law, b"", out),
        Shape::AtMost(law) => write_law(b"shape atmost", law, letter_word(t.letter()), out),
    }
}

/// Writes the first lines.
fn write_first<W: Sink>(t: &Tensors, out: &mut W) -> Result<(), Failed>
    ensures { Writes (first_text t.now) (W.state out.old) (W.state out.new) result }
{
    write_header(t, out)?;
    write_dim(t, out)?;
    write_shape(t, out)
}

/// Writes the line of a place of A, B or C, where its value isn't 0.
#[tactic(auto, unfolding(crate::specs::Pieces::place_piece))]
fn write_place<W: Sink>(
    letter: Part,
    t: &Tensors,
    i: u8,
    j: u8,
    k: u8,
    out: &mut W,
) -> Result<(), Failed>
    ensures { Writes (place_piece letter t.now i j k) (W.state out.old) (W.state out.new) result }
{
    let v = value_in(letter, t, i, j, k);
    if v.is_zero() {
        return Ok(());
    }
    write_entry(letter, i, j, k, v, out)
}

/// Writes the entries of A, B or C with these first indices.
fn write_row<W: Sink>(letter: Part, t: &Tensors, i: u8, j: u8, out: &mut W) -> Result<(), Failed>
    requires { j < t.now.dim }
    ensures { Writes (row_piece letter t.now i j) (W.state out.old) (W.state out.new) result }
{
    for k in first_in(letter, j)..t.dim() {
        write_place(letter, t, i, j, k, out)?;
    }
    Ok(())
}

/// Writes the entries of A, B or C with this first index.
fn write_plane<W: Sink>(letter: Part, t: &Tensors, i: u8, out: &mut W) -> Result<(), Failed>
    ensures { Writes (plane_piece letter t.now i) (W.state out.old) (W.state out.new) result }
{
    for j in 0..t.dim() {
        write_row(letter, t, i, j, out)?;
    }
    Ok(())
}

/// Writes the entries of A, B or C.
fn write_places<W: Sink>(letter: Part, t: &Tensors, out: &mut W) -> Result<(), Failed>
    ensures { Writes (places_piece letter t.now) (W.state out.old) (W.state out.new) result }
{
    for i in 0..t.dim() {
        write_plane(letter, t, i, out)?;
    }
    Ok(())
}

/// Writes the line of an index of D, where its value isn't 0.
#[tactic(auto, unfolding(crate::specs::Pieces::index_piece))]
fn write_index<W: Sink>(t: &Tensors, i: u8, out: &mut W) -> Result<(), Failed>
    ensures { Writes (index_piece t.now i) (W.state out.old) (W.state out.new) result }
{
    let v = t.d(i);
    if v.is_zero() {
        return Ok(());
    }
    write_index_entry(i, v, out)
}

/// Writes the entries of D.
fn write_indices<W: Sink>(t: &Tensors, out: &mut W) -> Result<(), Failed>
    ensures { Writes (indices_piece t.now) (W.state out.old) (W.state out.new) result }
{
    for i in 0..t.dim() {
        write_index(t, i, out)?;
    }
    Ok(())
}

/// Writes the entries and `end`.
fn write_entries<W: Sink>(t: &Tensors, out: &mut W) -> Result<(), Failed>
    ensures { Writes (entries_text t.now) (W.state out.old) (W.state out.new) result }
{
    t.soundness_fact();
    write_places(Part::A, t, out)?;
    write_places(Part::B, t, out)?;
    write_places(Part::C, t, out)?;
    write_indices(t, out)?;
    write_all(out, b"end\n")
}

/// Writes the first lines, the entries and `end`.
fn write_text<W: Sink>(t: &Tensors, out: &mut W) -> Result<(), Failed>
    ensures { Writes (canonical_text t.now) (W.state out.old) (W.state out.new) result }
{
    write_first(t, out)?;
    write_entries(t, out)
}

/// Writes the canonical text of tensors: the header, which is `airy 1` where the shape is All and else `airy 2`, the dim,
/// for `airy 2` the shape line with the law's two numbers and the word `letter` where there is one, the entries of A with j
/// at most k by (i,j,k) ascending, those of B, those of C with j at most k, those of D by i ascending, and `end`, each on a
/// line of its own. Dim is at most 32. It takes no memory. After `Failed` a prefix was written. The grammar reads the
/// canonical text back as the same tensors, with their shape and letter. It is ASCII, and so UTF-8.
pub fn write_tensors<W: Sink>(t: &Tensors, out: &mut W) -> Result<(), Failed>
    requires { t.now.dim ≤ 32 }
    ensures written { Writes (canonical_text t.now) (W.state out.old) (W.state out.new) result }
    ensures back { reading_of (canonical_text t.now) ≡ Read t.now }
    ensures utf8 { IsUtf8 (canonical_text t.now) }
{
    t.soundness_fact();
    write_text(t, out)
}
