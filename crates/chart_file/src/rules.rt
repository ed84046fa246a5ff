// What a place record and a link record mean, and the rules of a link record.
ghost use Rattle.std.specs.Prelude.{◌≡◌};
ghost use Rattle.chart_file.specs.Records.{end_of, estimate_of, floor_of, keeps_estimate, keeps_rules, lifts_ms, price_of};
ghost use Rattle.price.specs.Kinds.{lift_value};
ghost use Rattle.rows.specs.Rows.{is_open};

use crate::records::{LinkRecord, PlaceRecord};
use chart::End;
use price::{Lift, Number, PriceKind};

fn open_price(lifts: u32, ms: u32) -> Lift
    ensures { lift_value result ≡ lifts_ms lifts ms }
{
    Lift::Open {
        lifts: Number::from(lifts),
        ms: Number::from(ms),
    }
}

impl From<PlaceRecord> for Lift {
    ghost from_gives = { λ p r. lift_value r ≡ estimate_of p };

    fn from(place: PlaceRecord) -> Lift {
        open_price(place.lifts, place.ms)
    }
}

impl PlaceRecord {
    pub fn estimate(self) -> Lift
        ensures { lift_value result ≡ estimate_of self }
    {
        Lift::from(self)
    }
}

impl LinkRecord {
    // The place at one of its ends.
    pub fn end(self, end: End) -> u16
        ensures { result ≡ end_of end self }
    {
        match end {
            End::From => self.from,
            End::To => self.to,
        }
    }

    pub fn floor(self) -> Lift
        ensures { lift_value result ≡ floor_of self }
    {
        open_price(u32::from(self.floor_lifts), self.floor_ms)
    }

    pub fn price(self) -> Lift
        ensures { lift_value result ≡ price_of self }
    {
        if self.price_lifts == 0 && self.price_ms == 0 {
            return Lift::Closed;
        }
        open_price(u32::from(self.price_lifts), self.price_ms)
    }

    pub fn is_open(self) -> bool
        ensures { result ≡ is_open (price_of self) }
    {
        self.price() != Lift::Closed
    }

    // Are its ends two different places of a chart with so many, its floor and price in range?
    pub fn keeps_rules(self, places: u16) -> bool
        ensures { result ≡ keeps_rules places self }
    {
        let floor = self.floor();
        let price = self.price();
        let ends = self.from < places && self.to < places && self.from != self.to;
        let floored = Lift::zero().below(floor) && floor.fits_link();
        let priced = price.fits_link() && !price.below(floor);
        ends && floored && priced
    }

    // Is the estimate of its from place at most its floor plus the estimate of its to place?
    pub fn keeps_estimate(self, from: PlaceRecord, to: PlaceRecord) -> bool
        ensures { result ≡ keeps_estimate (estimate_of from) (estimate_of to) self }
    {
        !self.floor().plus(to.estimate()).below(from.estimate())
    }
}
