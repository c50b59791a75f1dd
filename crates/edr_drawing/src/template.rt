//! Templates of a page, what goes into their holes, and the shapes of a chart, which are made by templates.
//!
//! A template is a text in which `{0}` stands for the first value, `{1}` for the second, up to `{9}`. The definitions of
//! `specs/` name the templates of `src/`, so each text of a page stands once. A unit of a chart is a tenth of a millimetre
//! on a sheet of A4.

ghost use Rattle.std.specs.Prelude.{◌≡◌, ◌++◌, ◌≤◌, OnOk, map};
ghost use Rattle.edr_drawing.specs.Template.{either, filled, filled_if, filling_bytes, fixed, of_profile, of_switch, seconds, shape_bytes, shapes_bytes};

use Filling::{Number, Text};
use edr_record::{Extreme, Place, Profile};
use edr_report::tenths_of;
use itoa::{Buffer, Integer};
use std::alloc::AllocError as OutOfMemory;

/// Whether there was memory for what is appended.
pub type Drawn = Result<(), OutOfMemory>;

/// The words of the place of an event in its crash.
pub const FIRST: &[u8] = b"first or only";

pub const SECOND: &[u8] = b"second, ";

pub const AFTER_FIRST: &[u8] = b" s after the first";

/// What goes into a hole of a template.
#[derive(Clone, Copy)]
pub enum Filling<'a> {
    Text(&'a [u8]),
    Number(u32),
    Count(u64),
    Change(i16),
    /// Tenths of a second, as seconds.
    Seconds(u64),
    /// The place of an event in its crash.
    Place(Place),
    Milliseconds(u16),
    /// A greatest change, with its time.
    Extreme(Extreme),
}

/// The first of two if this is so, or else the second.
pub fn either(is_so: bool, pair: (&'static [u8], &'static [u8])) -> &'static [u8]
    ensures { result.now ≡ either is_so pair.entry.0.now pair.entry.1.now }
{
    if is_so { pair.0 } else { pair.1 }
}

/// The first of two for a short profile, the second for a long one.
pub fn of_profile<T: Copy>(profile: Profile, pair: (T, T)) -> T
    ensures { result ≡ of_profile profile pair }
{
    match profile {
        Profile::Short => pair.0,
        Profile::Long => pair.1,
    }
}

/// The first of three for a switch that is on, the second for one that is off, the third where that is absent.
pub fn of_switch<T: Copy>(shows: Option<bool>, three: (T, T, T)) -> T
    ensures { result ≡ of_switch shows three }
{
    match shows {
        Some(true) => three.0,
        Some(false) => three.1,
        None => three.2,
    }
}

fn put_number<N: Integer>(out: &mut Vec<u8>, n: N) -> Drawn
    ensures { OnOk result (out.new.items ≡ out.old.items ++ N.text n) }
{
    let mut buffer = Buffer::new();
    out.extend_from_slice(buffer.format(n).as_bytes())
}

fn put_seconds(out: &mut Vec<u8>, tenths: u64) -> Drawn
    ensures { OnOk result (out.new.items ≡ out.old.items ++ seconds tenths) }
{
    put_number(out, tenths / 10)?;
    out.extend_from_slice(b".")?;
    put_number(out, tenths % 10)
}

fn put_filling(out: &mut Vec<u8>, filling: Filling<'_>) -> Drawn
    ensures { OnOk result (out.new.items ≡ out.old.items ++ filling_bytes filling.entry) }
{
    match filling {
        Filling::Text(text) => out.extend_from_slice(text),
        Filling::Number(n) => put_number(out, n),
        Filling::Count(n) => put_number(out, n),
        Filling::Change(z) => put_number(out, z),
        Filling::Seconds(tenths) => put_seconds(out, tenths),
        Filling::Place(Place::First) => out.extend_from_slice(FIRST),
        Filling::Place(Place::Second { after }) => {
            out.extend_from_slice(SECOND)?;
            put_seconds(out, tenths_of(after))?;
            out.extend_from_slice(AFTER_FIRST)
        }
        Filling::Milliseconds(time) => {
            put_number(out, time)?;
            out.extend_from_slice(b" ms")
        }
        Filling::Extreme(extreme) => {
            put_number(out, extreme.kmh)?;
            out.extend_from_slice(b" km/h at ")?;
            put_number(out, extreme.at)?;
            out.extend_from_slice(b" ms")
        }
    }
}

/// Appends a template, with these values in its holes.
#[tactic(auto, unfolding(crate::specs::Template::filled))]
pub fn fill(out: &mut Vec<u8>, template: &[u8], fillings: &[Filling<'_>]) -> Drawn
    ensures { OnOk result (out.new.items ≡ out.old.items ++ filled template.now (map filling_bytes fillings.now)) }
{
    let mut in_hole = false;
    for byte in template {
        match *byte {
            b'{' => in_hole = true,
            b'}' => in_hole = false,
            digit if in_hole => {
                if let Some(filling) = fillings.get(usize::from(digit.saturating_sub(b'0'))) {
                    put_filling(out, *filling)?;
                }
            }
            other => out.extend_from_slice(&[other])?,
        }
    }
    Ok(())
}

/// Appends it, if this is so.
pub fn fill_if(out: &mut Vec<u8>, is_so: bool, template: &[u8], fillings: &[Filling<'_>]) -> Drawn
    ensures { OnOk result (out.new.items ≡ out.old.items ++ filled_if is_so template.now (map filling_bytes fillings.now)) }
{
    if !is_so {
        return Ok(());
    }
    fill(out, template, fillings)
}

/// Appends a text with no holes.
#[tactic(auto, unfolding(crate::specs::Template::fixed))]
pub fn put(out: &mut Vec<u8>, text: &[u8]) -> Drawn
    ensures { OnOk result (out.new.items ≡ out.old.items ++ fixed text.now) }
{
    out.extend_from_slice(text)
}

/// What stands before a number below 0, and before others.
pub const MINUS: (&[u8], &[u8]) = (b"-", b"");

/// The words of what is absent, and of what a switch is.
pub const NONE: &[u8] = b"none";

pub const SWITCH_WORDS: (&[u8], &[u8], &[u8]) = (b"on", b"off", NONE);

/// The classes of fields and of their words, which the style gives their looks.
pub const FIELD_CLASSES: (&[u8], &[u8], &[u8]) = (b"on", b"off", b"gap");

pub const WORD_CLASSES: (&[u8], &[u8], &[u8]) = (b"c w", b"c", b"c g h");

/// A path of this look, up to its points, and what ends it.
pub const PATH: &[u8] = br#"<path class="s{0}" d=""#;

pub const PATH_END: &[u8] = b"\"/>\n";

/// A point of a path, which is joined to the point before it, and one at which a path begins.
pub const JOINED_OR_FIRST: (&[u8], &[u8]) = (b"L{0} {1}", b"M{0} {1}");

pub const DOT: &[u8] = br#"<circle cx="{0}" cy="{1}" r="{2}" class="p1"/>
"#;

/// How large a dot is, and one of many.
pub const RADII: (u32, u32) = (9, 3);

pub const SQUARE: &[u8] = br#"<rect x="{0}" y="{1}" width="16" height="16" class="p2"/>
"#;

pub const NUMBER: &[u8] = br#"<text x="{0}" y="{1}" class="c v">{2}</text>
"#;

pub const FIELD: &[u8] = br#"<rect x="{0}" y="{1}" width="{2}" height="{3}" class="{4}"/>
"#;

pub const WORD: &[u8] = br#"<text x="{0}" y="{1}" class="{2}">{3}</text>
"#;

/// A shape that stands where a value says: its place across and up comes first, but for a joint.
#[derive(Clone, Copy)]
pub enum Shape {
    /// A point of a path, which is joined to the one before it or not.
    Joint(bool, u32, u32),
    /// A dot of this radius.
    Dot(u32, u32, u32),
    Square(u32, u32),
    /// The number of a dot.
    Value(u32, u32, u32),
    /// A field of this width and height, which shows what a switch is, or that there is nothing.
    Field(u32, u32, u32, u32, Option<bool>),
    /// The word in such a field.
    Word(u32, u32, Option<bool>),
}

fn put_shape(out: &mut Vec<u8>, shape: Shape) -> Drawn
    ensures { OnOk result (out.new.items ≡ out.old.items ++ shape_bytes shape) }
{
    match shape {
        Shape::Joint(is_joined, x, y) => {
            let point = either(is_joined, JOINED_OR_FIRST);
            fill(out, point, &[Number(x), Number(y)])
        }
        Shape::Dot(x, y, radius) => fill(out, DOT, &[Number(x), Number(y), Number(radius)]),
        Shape::Square(x, y) => {
            let (left, top) = (x.saturating_sub(8), y.saturating_sub(8));
            fill(out, SQUARE, &[Number(left), Number(top)])
        }
        Shape::Value(x, y, value) => fill(out, NUMBER, &[Number(x), Number(y), Number(value)]),
        Shape::Field(x, y, width, height, shows) => {
            let class = Text(of_switch(shows, FIELD_CLASSES));
            let (width, height) = (Number(width), Number(height));
            fill(out, FIELD, &[Number(x), Number(y), width, height, class])
        }
        Shape::Word(x, y, shows) => {
            let class = Text(of_switch(shows, WORD_CLASSES));
            let word = Text(of_switch(shows, SWITCH_WORDS));
            fill(out, WORD, &[Number(x), Number(y), class, word])
        }
    }
}

/// Appends shapes.
pub fn draw(out: &mut Vec<u8>, shapes: &[Shape]) -> Drawn
    ensures { OnOk result (out.new.items ≡ out.old.items ++ shapes_bytes shapes.now) }
{
    for shape in shapes {
        put_shape(out, *shape)?;
    }
    Ok(())
}
