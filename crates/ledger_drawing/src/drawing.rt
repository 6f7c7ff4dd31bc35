//! The picture of a device.
ghost use Rattle.std.specs.Prelude.{IsErrAnd};
ghost use Rattle.sector_device.specs.Crash.{AreLooks};
ghost use Rattle.text_streams.specs.Faults.{IsOfSource};

use crate::kind::SectorKind;
use crate::map::Map;
use crate::section::{COLUMNS, Section};
use crate::style::STYLE;
use ledger_damage::Place;
use sector_device::{Device, DeviceFault};
use std::alloc::Global;
use std::fmt;
use std::io::Write;
use text_streams::{Output, OutputFault, StreamFault};

/// The width of the picture; this and all below are in pixels.
const WIDTH: u64 = 864;

/// Where what isn't a cell begins.
const LEFT: u64 = 16;

/// Where a row's first cell begins.
const CELLS_AT: u64 = 80;

/// From one cell to the next, and from one row to the next.
const STEP: u64 = 12;

/// Where the legend begins, and its kinds beside the live bank, in rows of five.
const LEGEND_AT: u64 = 84;

const KINDS_AT: u64 = 124;

const KIND_WIDTH: u64 = 148;

const KIND_HEIGHT: u64 = 18;

/// Where the first part begins.
const SECTIONS_AT: u64 = 124;

/// How high a heading is with the room before it.
const HEADING: u64 = 24;

/// Draws the sectors of a device as a picture in SVG: what each is, which gates are open, which
/// bank is live, and in red the sector of the damage. Each part of the layout begins with a row of
/// its own. Of more than 4,096 sectors neighbours of one part are drawn as one cell, which is red
/// if one of them is damaged, and else a record if one of them is. The device is only read; the
/// memory doesn't grow with its sectors.
///
/// # Errors
/// A read failed, the drawing can't be written, or out of memory.
pub fn draw<D: Device, W: Write>(
    alloc: Global,
    device: &mut D,
    damage: Option<Place>,
    writer: &mut W,
) -> Result<(), OutputFault<DeviceFault>>
    ensures looks { AreLooks (D.state device.old) (D.state device.new)
        (IsErrAnd result IsOfSource) }
{
    let map = Map::read(device, damage).map_err(OutputFault::Source)?;
    let mut output = Output::new(alloc, writer)?;
    let sections = map.sections();
    print_head(&map, &sections, &mut output)?;
    let mut top = SECTIONS_AT;
    for section in &sections {
        print_section(device, &map, section, top, &mut output)?;
        top = top.saturating_add(height_of(section));
    }
    output.line("</svg>")?;
    Ok(output.flush()?)
}

// How high a part is with its heading, or 0 if it has no sector.
fn height_of(section: &Section) -> u64 {
    let rows = section.rows();
    if rows == 0 {
        return 0;
    }
    HEADING + STEP * rows
}

// How high the picture is.
fn whole_height(sections: &[Section]) -> u64 {
    let mut height = SECTIONS_AT + LEFT;
    for section in sections {
        height = height.saturating_add(height_of(section));
    }
    height
}

// What stands before the parts.
fn print_head<W: Write>(
    map: &Map,
    sections: &[Section],
    output: &mut Output<'_, W>,
) -> Result<(), StreamFault> {
    let height = whole_height(sections);
    output.line(format_args!(
        "<svg xmlns=\"http://www.w3.org/2000/svg\" viewBox=\"0 0 {WIDTH} {height}\" width=\"{WIDTH}\" height=\"{height}\" role=\"img\">"
    ))?;
    output.line("<title>Sectors of a device</title>")?;
    output.line(STYLE)?;
    output.line(format_args!("<rect class=\"page\" width=\"{WIDTH}\" height=\"{height}\"/>"))?;
    print_captions(map, output)?;
    print_legend(output)
}

// The title, what the device is, and the damage.
fn print_captions<W: Write>(map: &Map, output: &mut Output<'_, W>) -> Result<(), StreamFault> {
    output.line(format_args!(
        "<text class=\"ink title\" x=\"{LEFT}\" y=\"28\">Sectors of a device</text>"
    ))?;
    output.line(format_args!("<text class=\"faint\" x=\"{LEFT}\" y=\"48\">{map}</text>"))?;
    if let Some(place) = map.damage {
        let offset = place.offset();
        output.line(format_args!(
            "<text class=\"ink\" x=\"{LEFT}\" y=\"66\">damage: {place}; byte {offset} of the file</text>"
        ))?;
    }
    Ok(())
}

fn print_legend<W: Write>(output: &mut Output<'_, W>) -> Result<(), StreamFault> {
    output.line(format_args!(
        "<rect class=\"live\" x=\"{LEFT}\" y=\"{LEGEND_AT}\" width=\"4\" height=\"28\"/>"
    ))?;
    output.line(format_args!("<text class=\"faint\" x=\"26\" y=\"102\">the live bank</text>"))?;
    for (index, kind) in SectorKind::ALL.iter().enumerate() {
        let (row, column) = (index as u64 / 5, index as u64 % 5);
        let (x, y) = (KINDS_AT + KIND_WIDTH * column, KIND_HEIGHT * row);
        print_kind(*kind, x, y.saturating_add(LEGEND_AT), output)?;
    }
    Ok(())
}

// One kind of the legend.
fn print_kind<W: Write>(
    kind: SectorKind,
    x: u64,
    y: u64,
    output: &mut Output<'_, W>,
) -> Result<(), StreamFault> {
    output.line(format_args!(
        "<rect class=\"{kind}\" x=\"{x}\" y=\"{y}\" width=\"10\" height=\"10\"/>"
    ))?;
    let (label, x, y) = (kind.label(), x.saturating_add(16), y.saturating_add(9));
    output.line(format_args!("<text class=\"faint\" x=\"{x}\" y=\"{y}\">{label}</text>"))
}

// A part: its heading and its rows.
fn print_section<D: Device, W: Write>(
    device: &mut D,
    map: &Map,
    section: &Section,
    top: u64,
    output: &mut Output<'_, W>,
) -> Result<(), OutputFault<DeviceFault>>
    ensures looks { AreLooks (D.state device.old) (D.state device.new)
        (IsErrAnd result IsOfSource) }
{
    let rows = section.rows();
    if rows == 0 {
        return Ok(());
    }
    print_heading(section, top, output)?;
    for row in 0..rows {
        let y = top.saturating_add(HEADING + STEP * row);
        print_row(device, map, section, row, y, output)?;
    }
    Ok(())
}

// The heading of a part, and the bar beside its rows if it is of the live bank.
fn print_heading<W: Write>(
    section: &Section,
    top: u64,
    output: &mut Output<'_, W>,
) -> Result<(), StreamFault> {
    let (heading, y) = (section.heading, top.saturating_add(HEADING - 6));
    output.line(format_args!("<text class=\"ink\" x=\"{CELLS_AT}\" y=\"{y}\">{heading}</text>"))?;
    if !heading.is_live() {
        return Ok(());
    }
    let (y, height) = (top.saturating_add(HEADING), STEP * section.rows());
    output.line(format_args!(
        "<rect class=\"live\" x=\"{LEFT}\" y=\"{y}\" width=\"4\" height=\"{height}\"/>"
    ))
}

// A row: the number of its first sector, and its cells.
fn print_row<D: Device, W: Write>(
    device: &mut D,
    map: &Map,
    section: &Section,
    row: u64,
    y: u64,
    output: &mut Output<'_, W>,
) -> Result<(), OutputFault<DeviceFault>>
    ensures looks { AreLooks (D.state device.old) (D.state device.new)
        (IsErrAnd result IsOfSource) }
{
    for column in 0..COLUMNS {
        let Some((from, to)) = section.cell(row, column) else {
            return Ok(());
        };
        if column == 0 {
            print_number(from, y, output)?;
        }
        let x = CELLS_AT + STEP * column;
        let kind = map.kind_of(device, from, to).map_err(OutputFault::Source)?;
        let sectors = Sectors { from, to };
        output.line(format_args!(
            "<rect class=\"{kind}\" x=\"{x}\" y=\"{y}\" width=\"10\" height=\"10\"><title>{sectors}</title></rect>"
        ))?;
    }
    Ok(())
}

fn print_number<W: Write>(
    sector: u64,
    y: u64,
    output: &mut Output<'_, W>,
) -> Result<(), StreamFault> {
    let baseline = y.saturating_add(9);
    output.line(format_args!(
        "<text class=\"faint\" x=\"74\" y=\"{baseline}\" text-anchor=\"end\">{sector}</text>"
    ))
}

// The sectors from one to before another.
#[derive(Clone, Copy)]
struct Sectors {
    from: u64,
    to: u64,
}

impl fmt::Display for Sectors {
    fn fmt<W: fmt::Write>(&self, f: &mut fmt::Formatter<W>) -> fmt::Result {
        let (first, last) = (self.from, self.to.saturating_sub(1));
        if first == last {
            return write!(f, "sector {first}");
        }
        write!(f, "sectors {first} to {last}")
    }
}
