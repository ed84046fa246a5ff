// The last 16 bytes of a chart file.
ghost use Rattle.std.specs.Prelude.{◌≡◌, if◌then◌else◌, Some, None};
ghost use Rattle.chart_file.specs.Checks.{in_limits};
ghost use Rattle.chart_file.specs.File.{is_chart, trailer_of};

// `back` counts bytes from the end of the file to its first place record.
#[derive(Clone, Copy, PartialEq, Eq, Debug)]
pub struct Trailer {
    pub start: u16,
    pub goal: u16,
    pub places: u16,
    pub links: u16,
    pub back: u32,
}

impl Trailer {
    // The trailer of a file, or none where it is too short or does not end in LAST.
    pub fn read(file: &[u8]) -> Option<Trailer>
        ensures { result ≡ (if is_chart file.now then Some (trailer_of file.now) else None) }
    {
        match file {
            [
                ..,
                s0,
                s1,
                g0,
                g1,
                p0,
                p1,
                l0,
                l1,
                b0,
                b1,
                b2,
                b3,
                b'L',
                b'A',
                b'S',
                b'T',
            ] => Some(Trailer {
                start: u16::from_le_bytes([*s0, *s1]),
                goal: u16::from_le_bytes([*g0, *g1]),
                places: u16::from_le_bytes([*p0, *p1]),
                links: u16::from_le_bytes([*l0, *l1]),
                back: u32::from_le_bytes([*b0, *b1, *b2, *b3]),
            }),
            _ => None,
        }
    }

    // Are the counts and places within their limits, and does the length back fit them and a file of so many bytes?
    pub fn is_within(self, bytes: usize) -> bool
        ensures { result ≡ in_limits self bytes }
    {
        (1..=4096).contains(&self.places)
            && self.links <= 16384
            && self.start < self.places
            && self.goal < self.places
            && self.back == 8 * u32::from(self.places) + 16 * u32::from(self.links) + 16
            && self.back as usize <= bytes
    }
}
