// Reading a chart file, and what is on it.
ghost use Rattle.std.specs.Prelude.{◌≡◌, length, IfOk, None, MatchResult};
ghost use Rattle.chart.specs.Refusals.{refused};
ghost use Rattle.chart_file.specs.Checks.{file_refusal};
ghost use Rattle.travel.specs.Survey.{Says, input_refusal, open_count, report_of};

use crate::fault::TravelFault;
use crate::report::Report;
use chart::ChartFault;
use chart_file::{LinkRecord, PlaceRecord, Trailer, read_chart};
use std::alloc::Global;

// The longest file that the program reads, in bytes, and the most records that such a file can have.
pub const LONGEST_FILE: usize = 8192;

const PLACES: usize = 1024;

const LINKS: usize = 512;

// How many links are open.
fn count_open(links: &[LinkRecord]) -> usize
    ensures { result ≡ open_count links.now }
{
    links.iter().filter(|link| link.is_open()).count()
}

// What is on a chart file, read into lent records.
fn survey_into(
    file: &[u8],
    places: &mut [PlaceRecord],
    links: &mut [LinkRecord],
) -> Result<Report, ChartFault>
    ensures answer { refused result ≡ file_refusal file.now (length places.old) (length links.old) }
    ensures report { IfOk result (λ s. s ≡ report_of file.now) }
{
    let trailer = read_chart(file, places, links)?;
    let open_links = count_open(&links[..usize::from(trailer.links)]);
    let Trailer {
        start,
        goal,
        places,
        links,
        ..
    } = trailer;
    Ok(Report {
        places,
        links,
        open_links,
        start,
        goal,
    })
}

// What is on a chart file, read into memory of the program's own.
pub fn survey(heap: Global, file: &[u8]) -> Result<Report, TravelFault>
    ensures { MatchResult result (λ s. (input_refusal file.now ≡ None) × (s ≡ report_of file.now)) (λ f. Says file.now f) }
{
    if file.len() > LONGEST_FILE {
        return Err(TravelFault::TooLong);
    }
    let mut places = vec![in heap; PlaceRecord::default(); PLACES]?;
    let mut links = vec![in heap; LinkRecord::default(); LINKS]?;
    let report = survey_into(file, &mut places, &mut links)?;
    Ok(report)
}
