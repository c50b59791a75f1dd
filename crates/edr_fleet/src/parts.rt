//! The lines of images that follow one another.
ghost use Rattle.std.specs.Prelude.{◌≡◌, ◌+◌, ◌*◌, ◌≤◌, ◌<◌, ◌^◌, ◌++◌, map, length, All, IfOk, OnOk};
ghost use Rattle.edr_fleet.specs.Frames.{FitsFrame};
ghost use Rattle.edr_fleet.specs.Numbers.{events_in};
ghost use Rattle.edr_fleet.specs.Text.{all_events, image_line, image_lines, totals};

use crate::numbers::{put_image, put_number};
use std::alloc::{AllocError as OutOfMemory, Global};

/// Is told of each image before it is read, by its place from 1.
pub trait Turn {
    fn pass(&self, image: u32);
}

/// A turn that does nothing.
#[derive(Drop)]
pub struct NoTurn;

impl Turn for NoTurn {
    fn pass(&self, _image: u32) {}
}

/// The lines of some images, and how many events these hold.
#[derive(Drop)]
pub(crate) struct FleetPart {
    pub(crate) lines: Vec<u8>,
    pub(crate) events: u64,
}

// Appends the line of the image in this place.
fn put_line_of(
    alloc: Global,
    out: &mut Vec<u8>,
    place: u32,
    image: &[u8],
) -> Result<u8, OutOfMemory>
    requires { length image.now < 2 ^ 32 }
    ensures line { OnOk result (out.new.items ≡ out.old.items ++ image_line place image.now) }
    ensures events { IfOk result (λ n. n ≡ events_in image.now) }
    ensures few { IfOk result (λ n. n ≤ 16) }
{
    put_number(out, "image ", u64::from(place))?;
    out.extend_from_slice(b": ")?;
    let events = put_image(alloc, out, image)?;
    out.push(b'\n')?;
    Ok(events)
}

/// The lines of images, the first of which is in this place.
pub(crate) fn part_of<P: Turn>(
    alloc: Global,
    first: u32,
    images: &[&[u8]],
    turn: &P,
) -> Result<FleetPart, OutOfMemory>
    requires fit { All (λ i. FitsFrame i.now) images.now }
    requires few { first + length images.now ≤ 2 ^ 32 }
    ensures lines { IfOk result (λ p. p.lines.items ≡ image_lines first (map (λ i. i.now) images.now)) }
    ensures events { IfOk result (λ p. p.events ≡ all_events (map (λ i. i.now) images.now)) }
    ensures some { IfOk result (λ p. p.events ≤ 16 * length images.now) }
{
    let mut part = FleetPart {
        lines: Vec::new(alloc),
        events: 0,
    };
    for k in 0..images.len() {
        let image = images[k];
        let place = first + k as u32;
        turn.pass(place);
        part.events += u64::from(put_line_of(alloc, &mut part.lines, place, image)?);
    }
    Ok(part)
}

/// Appends the two totals.
pub(crate) fn with_totals(part: FleetPart, images: usize) -> Result<Vec<u8>, OutOfMemory>
    ensures { IfOk result (λ out. out.items ≡ part.lines.items ++ totals images part.events) }
{
    let mut out = part.lines;
    put_number(&mut out, "images: ", images as u64)?;
    put_number(&mut out, "\nevents: ", part.events)?;
    out.push(b'\n')?;
    Ok(out)
}
