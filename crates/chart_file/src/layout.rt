// How the records of each type lie in a chart file.
ghost use Rattle.std.specs.Prelude.{◌≡◌, ℕ, ◌+◌, ◌*◌, ◌≤◌, length, refl};
ghost use Rattle.std.proofs.Common.{arith};
ghost use Rattle.chart_file.specs.declared.trailer.Trailer.{Trailer};
ghost use Rattle.chart_file.specs.File.{Layout, four_bytes, link_layout, place_layout, two_bytes};

use crate::records::{LinkRecord, PlaceRecord};
use crate::trailer::Trailer;

// Numbers of a chart file, at an offset that its caller knows to be inside: byte by byte, since a chunk of a slice is
// tested for its length at each number, which doubled the time of a check.
fn u16_at(file: &[u8], at: usize) -> u16
    requires { at + 2 ≤ length file.now }
    ensures { result ≡ two_bytes file.now at }
{
    u16::from_le_bytes([file[at], file[at + 1]])
}

fn u32_at(file: &[u8], at: usize) -> u32
    requires { at + 4 ≤ length file.now }
    ensures { result ≡ four_bytes file.now at }
{
    u32::from_le_bytes([file[at], file[at + 1], file[at + 2], file[at + 3]])
}

// A record of a chart file: each type has a table of its own, one record after another. The trait is not exported: there
// are two such types, and `read` trusts its caller.
pub trait Record: Copy {
    ghost SIZE: { ℕ };

    ghost layout: { Layout Self };

    // The bytes of a record.
    const SIZE: usize;

    // How many records of this type a file has.
    fn count(trailer: Trailer) -> u16
        ensures { result ≡ layout.count trailer };

    // The bytes from the first place record to the first record of this type.
    fn offset(trailer: Trailer) -> usize
        ensures { result ≡ layout.offset trailer };

    // The record whose bytes begin at an offset of the file.
    fn read(file: &[u8], at: usize) -> Self
        requires { at + SIZE ≤ length file.now }
        ensures { result ≡ layout.at file.now at };

    ghost sized: { layout.size ≡ SIZE };

    // the table ends before the trailer does
    ghost inside: { (t : Trailer) → layout.offset t + SIZE * layout.count t ≤ 8 * t.places + 16 * t.links };
}

impl Record for PlaceRecord {
    const SIZE: usize = 8;

    ghost SIZE = { 8 };

    ghost layout = { place_layout };

    fn count(trailer: Trailer) -> u16 {
        trailer.places
    }

    fn offset(_trailer: Trailer) -> usize {
        0
    }

    fn read(file: &[u8], at: usize) -> PlaceRecord {
        PlaceRecord {
            lifts: u32_at(file, at),
            ms: u32_at(file, at + 4),
        }
    }

    ghost sized = { refl };

    ghost inside = { λ t. Prim.omega arith };
}

impl Record for LinkRecord {
    const SIZE: usize = 16;

    ghost SIZE = { 16 };

    ghost layout = { link_layout };

    fn count(trailer: Trailer) -> u16 {
        trailer.links
    }

    fn offset(trailer: Trailer) -> usize {
        8 * usize::from(trailer.places)
    }

    fn read(file: &[u8], at: usize) -> LinkRecord {
        LinkRecord {
            from: u16_at(file, at),
            to: u16_at(file, at + 2),
            floor_lifts: u16_at(file, at + 4),
            price_lifts: u16_at(file, at + 6),
            floor_ms: u32_at(file, at + 8),
            price_ms: u32_at(file, at + 12),
        }
    }

    ghost sized = { refl };

    ghost inside = { λ t. Prim.omega arith };
}
