// A file whose trailer is within the limits, so that every record lies inside it.
ghost use Rattle.std.specs.Prelude.{◌≡◌, ◌<◌, ◌≤◌, true, length, IfOk, None};
ghost use Rattle.chart.specs.Refusals.{refused};
ghost use Rattle.chart_file.specs.Checks.{Passed, at_link, estimate_holds, file_refusal, in_limits, lowest_failing, records_refusal, trailer_refusal};
ghost use Rattle.chart_file.specs.File.{filled, link_records, record_of, trailer_of};
ghost use Rattle.chart_file.specs.Records.{keeps_rules};

use crate::layout::Record;
use crate::records::{LinkRecord, PlaceRecord};
use crate::trailer::Trailer;
use chart::{Cause, ChartFault};

#[derive(Clone, Copy)]
pub(crate) struct Frame<'a> {
    file: &'a [u8],
    pub(crate) trailer: Trailer,
    ghost whole: { trailer ≡ trailer_of file.now },
    ghost within: { in_limits trailer (length file.now) ≡ true },
}

impl<'a> Frame<'a> {
    // The frame of a file, or a refusal by 1 or 2.
    pub(crate) fn open(file: &'a [u8]) -> Result<Frame<'a>, ChartFault>
        ensures answer { refused result ≡ trailer_refusal file.now }
        ensures of_file { IfOk result (λ f. f.file.now ≡ file.now) }
    {
        let trailer = Trailer::read(file).ok_or(ChartFault::of_chart(Cause::NotAChart))?;
        if !trailer.is_within(file.len()) {
            return Err(ChartFault::of_chart(Cause::OutsideLimits));
        }
        Ok(Frame { file, trailer })
    }

    // The frame of a file that passes every check, or the refusal by 1, 2, 9, 4 or 5 that comes first.
    pub(crate) fn checked(
        file: &'a [u8],
        place_room: usize,
        link_room: usize,
    ) -> Result<Frame<'a>, ChartFault>
        ensures answer { refused result ≡ file_refusal file.now place_room link_room }
        ensures of_file { IfOk result (λ f. f.file.now ≡ file.now) }
        ensures passed { IfOk result (λ f. Passed file.now place_room link_room f.trailer) }
    {
        let frame = Frame::open(file)?;
        if usize::from(frame.trailer.places) > place_room
            || usize::from(frame.trailer.links) > link_room
        {
            return Err(ChartFault::of_chart(Cause::ShortMemory));
        }
        frame.check_records()?;
        Ok(frame)
    }

    // A refusal by 4 or 5, if there is one.
    fn check_records(self) -> Result<(), ChartFault>
        ensures { refused result ≡ records_refusal self.entry.file.now }
    {
        self.check_rules()?;
        let goal: PlaceRecord = self.record(self.trailer.goal);
        if goal != PlaceRecord::default() {
            return Err(ChartFault::of_chart(Cause::BadEstimate));
        }
        self.check_estimates()
    }

    // The record of a number.
    fn record<R: Record>(self, n: u16) -> R
        requires { n < R.layout.count self.trailer }
        ensures { result ≡ record_of R.layout self.entry.file.now n }
    {
        let first_place = self.file.len() - self.trailer.back as usize;
        let table = R::offset(self.trailer) + first_place;
        R::read(self.file, table + R::SIZE * usize::from(n))
    }

    // A refusal by 4 at the lowest link record that breaks its rules.
    fn check_rules(self) -> Result<(), ChartFault>
        ensures { refused result ≡ at_link 4 (lowest_failing (keeps_rules self.entry.trailer.places) (link_records self.entry.file.now)) }
    {
        for n in 0..self.trailer.links {
            let link: LinkRecord = self.record(n);
            if !link.keeps_rules(self.trailer.places) {
                return Err(ChartFault::at_link(Cause::BadLink, n));
            }
        }
        Ok(())
    }

    // A refusal by 5 at the lowest link where the estimate law fails. Each link's ends are places, since each link keeps
    // its rules.
    fn check_estimates(self) -> Result<(), ChartFault>
        requires { lowest_failing (keeps_rules self.trailer.places) (link_records self.file.now) ≡ None }
        ensures { refused result ≡ at_link 5 (lowest_failing (estimate_holds self.entry.file.now) (link_records self.entry.file.now)) }
    {
        for n in 0..self.trailer.links {
            let link: LinkRecord = self.record(n);
            if !link.keeps_estimate(self.record(link.from), self.record(link.to)) {
                return Err(ChartFault::at_link(Cause::BadEstimate, n));
            }
        }
        Ok(())
    }

    // Writes the records of a type over the first of the memory; what lies past them stays. A count has 16 bits, so each
    // number has too.
    pub(crate) fn write<R: Record>(self, memory: &mut [R])
        requires { R.layout.count self.trailer ≤ length memory.old }
        ensures { memory.new ≡ filled R.layout self.entry.file.now memory.old }
    {
        let count = usize::from(R::count(self.trailer));
        let first = &mut memory[..count];
        for (n, record) in first.iter_mut().enumerate() {
            *record = self.record(n as u16);
        }
    }
}
