//! A picture as SVG.
#![tactic(auto, using(crate::proofs::Joining::joining))]

ghost use Rattle.std.specs.Prelude.{◌≡◌, ◌++◌, OnOk, IfOk};
ghost use Rattle.text_lines.specs.Lines.{Lacks};
ghost use Rattle.picture_svg.specs.Titles.{title_text};
ghost use Rattle.picture_svg.specs.Documents.{size_text, view_text, beginning, title_element, description_element, head_text, looks_text, body_text, document, IsDescription, Says, IsPictureOf};

use crate::classes::{CLASSES, Class, styles_of};
use crate::drawing::shapes_of;
use crate::elements::{add_escaped, add_markers, add_px, add_shapes, add_texts};
use crate::layout::{Layout, MARGIN};
use crate::legend::Legend;
use crate::markers::{Marker, markers_of};
use crate::picture::Picture;
use crate::px::{Point, at};
use crate::shapes::{Shape, Shapes};
use crate::texts::{Texts, Words};
use crate::titles::{crashed_among, description_of, title_of};
use crate::writing::texts_of;
use lists::NoMemory;
use std::alloc::Global;
use text_lines::Text;

/// The parts of a picture's text.
#[derive(Drop)]
pub struct Parts {
    pub size: Point,
    pub title: Text,
    pub description: Text,
    pub styles: Text,
    pub markers: Vec<Marker>,
    pub shapes: Vec<Shape>,
    pub words: Vec<Words>,
}

/// The text of a picture: one SVG image, whose texts are those of the picture, in order, and those of a legend.
pub fn svg_of(alloc: Global, picture: &Picture) -> Result<Text, NoMemory>
    ensures { IfOk result (IsPictureOf picture.now) }
{
    let parts = parts_of(alloc, picture)?;
    let text = written(alloc, &parts)?;
    Ok(text)
}

/// The parts of a picture's text.
fn parts_of(alloc: Global, picture: &Picture) -> Result<Parts, NoMemory>
    ensures title { IfOk result (λ parts. parts.title ≡ title_text picture.now.lifelines.items) }
    ensures description { IfOk result (λ parts. IsDescription picture.now parts.description) }
    ensures plain { IfOk result (λ parts. Lacks 60 parts.styles) }
    ensures says { IfOk result (λ parts. Says picture.now parts.words.items) }
{
    let layout = Layout::of(alloc, picture)?;
    let legend = Legend::of(alloc, picture, &layout)?;
    let shapes = shapes_of(alloc, picture, &layout, &legend)?;
    let texts = texts_of(alloc, picture, &layout, &legend)?;
    let used = classes_of(alloc, &shapes, &texts)?;
    let words = texts.into_items();
    Ok(Parts {
        size: at(layout.width, legend.end() + MARGIN),
        title: title_of(alloc, picture.lifelines.as_slice())?,
        description: described(alloc, picture)?,
        styles: styles_of(alloc, used.as_slice())?,
        markers: markers_of(alloc, used.as_slice())?,
        shapes: shapes.into_items(),
        words,
    })
}

/// The description of a picture.
fn described(alloc: Global, picture: &Picture) -> Result<Text, NoMemory>
    ensures { IfOk result (IsDescription picture.now) }
{
    let crashed = crashed_among(alloc, picture)?;
    let description = description_of(alloc, picture, crashed.as_slice())?;
    Ok(description)
}

/// The text of these parts.
fn written(alloc: Global, parts: &Parts) -> Result<Text, NoMemory>
    ensures { IfOk result (λ text. text ≡ document parts.now) }
{
    let mut text = Text::new(alloc);
    add_head(
        &mut text,
        parts.size,
        parts.title.as_slice(),
        parts.description.as_slice(),
    )?;
    add_looks(&mut text, parts.styles.as_slice(), parts.markers.as_slice())?;
    add_body(&mut text, parts.shapes.as_slice(), parts.words.as_slice())?;
    Ok(text)
}

/// The classes of shapes and texts, in the order of all.
fn classes_of(alloc: Global, shapes: &Shapes, texts: &Texts) -> Result<Vec<Class>, NoMemory> {
    let mut used = Vec::new(alloc);
    for class in &CLASSES {
        if shapes.classes().contains(class) || texts.items().iter().any(|it| it.class == *class) {
            used.push(*class)?;
        }
    }
    Ok(used)
}

/// Adds the beginning, the title and the description.
fn add_head(text: &mut Text, size: Point, title: &[u8], description: &[u8]) -> Result<(), NoMemory>
    ensures { OnOk result (text.new ≡ text.old ++ head_text size title.now description.now) }
{
    add_beginning(text, size)?;
    add_title(text, title)?;
    add_description(text, description)
}

fn add_beginning(text: &mut Text, size: Point) -> Result<(), NoMemory>
    ensures { OnOk result (text.new ≡ text.old ++ beginning size) }
{
    text.add(b"<svg xmlns=\"http://www.w3.org/2000/svg\"")?;
    add_size(text, size)?;
    add_view(text, size)?;
    text.add(b" role=\"img\" aria-labelledby=\"picture-title picture-desc\">\n")
}

fn add_size(text: &mut Text, size: Point) -> Result<(), NoMemory>
    ensures { OnOk result (text.new ≡ text.old ++ size_text size) }
{
    text.add(b" width=\"")?;
    add_px(text, size.x)?;
    text.add(b"\" height=\"")?;
    add_px(text, size.y)?;
    text.add(b"\"")
}

fn add_view(text: &mut Text, size: Point) -> Result<(), NoMemory>
    ensures { OnOk result (text.new ≡ text.old ++ view_text size) }
{
    text.add(b" viewBox=\"0 0 ")?;
    add_px(text, size.x)?;
    text.add(b" ")?;
    add_px(text, size.y)?;
    text.add(b"\"")
}

fn add_title(text: &mut Text, title: &[u8]) -> Result<(), NoMemory>
    ensures { OnOk result (text.new ≡ text.old ++ title_element title.now) }
{
    text.add(b"<title id=\"picture-title\">")?;
    add_escaped(text, title)?;
    text.add(b"</title>\n")
}

fn add_description(text: &mut Text, description: &[u8]) -> Result<(), NoMemory>
    ensures { OnOk result (text.new ≡ text.old ++ description_element description.now) }
{
    text.add(b"<desc id=\"picture-desc\">")?;
    add_escaped(text, description)?;
    text.add(b"</desc>\n")
}

/// Adds the styles and the ends of arrows.
fn add_looks(text: &mut Text, styles: &[u8], markers: &[Marker]) -> Result<(), NoMemory>
    ensures { OnOk result (text.new ≡ text.old ++ looks_text styles.now markers.now) }
{
    text.add(b"<style>\n")?;
    text.add(styles)?;
    text.add(b"</style>\n")?;
    add_markers(text, markers)
}

/// Adds the shapes, the texts and the end.
fn add_body(text: &mut Text, shapes: &[Shape], words: &[Words]) -> Result<(), NoMemory>
    ensures { OnOk result (text.new ≡ text.old ++ body_text shapes.now words.now) }
{
    add_shapes(text, shapes)?;
    add_texts(text, words)?;
    text.add(b"</svg>\n")
}
