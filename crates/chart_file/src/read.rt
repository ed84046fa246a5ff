// Reading a chart file into lent records.
ghost use Rattle.std.specs.Prelude.{◌≡◌, length, IfOk, OnOk};
ghost use Rattle.chart.specs.Lawful.{Lawful};
ghost use Rattle.chart.specs.Refusals.{refused, unless};
ghost use Rattle.chart_file.specs.Checks.{file_refusal};
ghost use Rattle.chart_file.specs.File.{drawn, filled, link_layout, place_layout, trailer_mean, trailer_of};

use crate::frame::Frame;
use crate::records::{LinkRecord, PlaceRecord};
use crate::trailer::Trailer;
use chart::ChartFault;

// Fills the first records of both memories and answers the trailer, or refuses and leaves both as they were.
// Records past the file's counts are neither read nor written.
pub fn read_chart(
    file: &[u8],
    places: &mut [PlaceRecord],
    links: &mut [LinkRecord],
) -> Result<Trailer, ChartFault>
    ensures answer { refused result ≡ file_refusal file.now (length places.old) (length links.old) }
    ensures whole { IfOk result (λ t. t ≡ trailer_of file.now) }
    ensures place_memory { places.new ≡ unless (file_refusal file.now (length places.old) (length links.old)) places.old (filled place_layout file.now places.old) }
    ensures link_memory { links.new ≡ unless (file_refusal file.now (length places.old) (length links.old)) links.old (filled link_layout file.now links.old) }
    ensures meaning { IfOk result (λ t. trailer_mean t places.new links.new ≡ drawn file.now) }
    ensures lawful { OnOk result (Lawful (drawn file.now)) }
{
    let frame = Frame::checked(file, places.len(), links.len())?;
    frame.write(places);
    frame.write(links);
    Ok(frame.trailer)
}
