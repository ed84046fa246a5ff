// Every check of a chart file, before anything is written.
ghost use Rattle.std.specs.Prelude.{◌≡◌, IfOk};
ghost use Rattle.chart.specs.Refusals.{refused};
ghost use Rattle.chart_file.specs.Checks.{Passed, file_refusal};

use crate::frame::Frame;
use crate::trailer::Trailer;
use chart::ChartFault;

// The trailer of a file that can be read into memory for so many place records and link records, or the refusal
// by 1, 2, 9, 4 or 5 that comes first.
pub fn check_file(file: &[u8], place_room: usize, link_room: usize) -> Result<Trailer, ChartFault>
    ensures answer { refused result ≡ file_refusal file.now place_room link_room }
    ensures passed { IfOk result (Passed file.now place_room link_room) }
{
    let frame = Frame::checked(file, place_room, link_room)?;
    Ok(frame.trailer)
}
