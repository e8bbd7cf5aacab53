//! The texts of elements.
#![tactic(auto, using(crate::proofs::Joining::joining))]

ghost use Rattle.std.specs.Prelude.{◌≡◌, ◌++◌, decimal, OnOk};
ghost use Rattle.std.specs.List.{flat_map};
ghost use Rattle.picture_svg.specs.Documents.{marker_text};
ghost use Rattle.picture_svg.specs.Shapes.{letter_text, escaped, opening, measure, corner, step, shape_text, words_text};
ghost use Rattle.picture_svg.specs.declared.shapes.Shape.TheVariants.{Line as TheLine, Bend as TheBend, Rect as TheRect, Circle as TheCircle};

use crate::classes::Class;
use crate::markers::Marker;
use crate::px::{Point, Px};
use crate::shapes::Shape;
use crate::texts::Words;
use lists::NoMemory;
use text_lines::Text;

fn add_letter(text: &mut Text, letter: u8) -> Result<(), NoMemory>
    ensures { OnOk result (text.new ≡ text.old ++ letter_text letter) }
{
    match letter {
        b'&' => text.add(b"&amp;"),
        b'<' => text.add(b"&lt;"),
        b'>' => text.add(b"&gt;"),
        b' '..=b'~' => text.add_byte(letter),
        _ => text.add(b"?"),
    }
}

/// Adds words as a text of XML.
pub fn add_escaped(text: &mut Text, words: &[u8]) -> Result<(), NoMemory>
    ensures { OnOk result (text.new ≡ text.old ++ escaped words.now) }
{
    for letter in words {
        add_letter(text, *letter)?;
    }
    Ok(())
}

/// Adds a length in pixels.
pub fn add_px(text: &mut Text, length: Px) -> Result<(), NoMemory>
    ensures { OnOk result (text.new ≡ text.old ++ decimal length.0) }
{
    text.add_number(u64::from(length.0))
}

fn add_opening(text: &mut Text, name: &[u8], class: Class) -> Result<(), NoMemory>
    ensures { OnOk result (text.new ≡ text.old ++ opening name.now class) }
{
    text.add(b"<")?;
    text.add(name)?;
    text.add(b" class=\"")?;
    text.add(class.name())?;
    text.add(b"\"")
}

fn add_measure(text: &mut Text, name: &[u8], length: Px) -> Result<(), NoMemory>
    ensures { OnOk result (text.new ≡ text.old ++ measure name.now length.0) }
{
    text.add(b" ")?;
    text.add(name)?;
    text.add(b"=\"")?;
    add_px(text, length)?;
    text.add(b"\"")
}

fn add_corner(text: &mut Text, point: Point) -> Result<(), NoMemory>
    ensures { OnOk result (text.new ≡ text.old ++ corner point) }
{
    add_measure(text, b"x", point.x)?;
    add_measure(text, b"y", point.y)
}

fn add_step(text: &mut Text, letter: &[u8], point: Point) -> Result<(), NoMemory>
    ensures { OnOk result (text.new ≡ text.old ++ step letter.now point) }
{
    text.add(letter)?;
    add_px(text, point.x)?;
    text.add(b" ")?;
    add_px(text, point.y)
}

fn add_line(text: &mut Text, class: Class, from: Point, to: Point) -> Result<(), NoMemory>
    ensures { OnOk result (text.new ≡ text.old ++ shape_text (TheLine class from to)) }
{
    add_opening(text, b"path", class)?;
    text.add(b" d=\"")?;
    add_step(text, b"M", from)?;
    add_step(text, b"L", to)?;
    text.add(b"\"/>\n")
}

fn add_bend(
    text: &mut Text,
    class: Class,
    from: Point,
    by: Point,
    to: Point,
) -> Result<(), NoMemory>
    ensures { OnOk result (text.new ≡ text.old ++ shape_text (TheBend class from by to)) }
{
    add_opening(text, b"path", class)?;
    text.add(b" d=\"")?;
    add_step(text, b"M", from)?;
    add_step(text, b"L", by)?;
    add_step(text, b"L", to)?;
    text.add(b"\"/>\n")
}

fn add_rect(
    text: &mut Text,
    class: Class,
    corner: Point,
    width: Px,
    height: Px,
) -> Result<(), NoMemory>
    ensures { OnOk result (text.new ≡ text.old ++ shape_text (TheRect class corner width height)) }
{
    add_opening(text, b"rect", class)?;
    add_corner(text, corner)?;
    add_measure(text, b"width", width)?;
    add_measure(text, b"height", height)?;
    text.add(b"/>\n")
}

fn add_circle(text: &mut Text, class: Class, center: Point, radius: Px) -> Result<(), NoMemory>
    ensures { OnOk result (text.new ≡ text.old ++ shape_text (TheCircle class center radius)) }
{
    add_opening(text, b"circle", class)?;
    add_measure(text, b"cx", center.x)?;
    add_measure(text, b"cy", center.y)?;
    add_measure(text, b"r", radius)?;
    text.add(b"/>\n")
}

fn add_shape(text: &mut Text, shape: Shape) -> Result<(), NoMemory>
    ensures { OnOk result (text.new ≡ text.old ++ shape_text shape) }
{
    match shape {
        Shape::Line { class, from, to } => add_line(text, class, from, to),
        Shape::Bend {
            class,
            from,
            by,
            to,
        } => add_bend(text, class, from, by, to),
        Shape::Rect {
            class,
            corner,
            width,
            height,
        } => add_rect(text, class, corner, width, height),
        Shape::Circle {
            class,
            center,
            radius,
        } => add_circle(text, class, center, radius),
    }
}

/// Adds the texts of shapes.
pub fn add_shapes(text: &mut Text, shapes: &[Shape]) -> Result<(), NoMemory>
    ensures { OnOk result (text.new ≡ text.old ++ flat_map shape_text shapes.now) }
{
    for shape in shapes {
        add_shape(text, *shape)?;
    }
    Ok(())
}

fn add_words(text: &mut Text, words: &Words) -> Result<(), NoMemory>
    ensures { OnOk result (text.new ≡ text.old ++ words_text words.now) }
{
    add_opening(text, b"text", words.class)?;
    add_corner(text, words.point)?;
    text.add(b">")?;
    add_escaped(text, words.text.as_slice())?;
    text.add(b"</text>\n")
}

/// Adds the elements of texts.
pub fn add_texts(text: &mut Text, words: &[Words]) -> Result<(), NoMemory>
    ensures { OnOk result (text.new ≡ text.old ++ flat_map words_text words.now) }
{
    for one in words {
        add_words(text, one)?;
    }
    Ok(())
}

/// Adds the ends of arrows.
pub fn add_markers(text: &mut Text, markers: &[Marker]) -> Result<(), NoMemory>
    ensures { OnOk result (text.new ≡ text.old ++ flat_map marker_text markers.now) }
{
    for marker in markers {
        text.add(marker.text())?;
    }
    Ok(())
}
