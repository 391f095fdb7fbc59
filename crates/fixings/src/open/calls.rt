ghost use Rattle.std.specs.Prelude.{◌≡◌, length};
ghost use Rattle.fixings.specs.Calls.{taken, Begins, Samples, Closes};

use crate::closed::ClosedFixing;
use crate::level::Level;
use crate::mean::final_price;
use crate::open::{MOST_SAMPLES, OpenFixing};
use arrayvec::ArrayVec;
use terms::{Family, Price, Reason, Refusal};

impl OpenFixing {
    /// Begins a fixing for the family with this number, 0 to 2, that expects 1 to 200 samples.
    pub fn begin(family: u8, expected: usize) -> Result<OpenFixing, Refusal>
        ensures { Begins family expected result }
    {
        let family = Family::try_from(family)?;
        if !(1..=MOST_SAMPLES).contains(&expected) {
            return Err(Refusal::plain(Reason::OutOfRange));
        }
        Ok(OpenFixing {
            family,
            expected,
            samples: ArrayVec::new(),
        })
    }

    /// Takes the next sample, in hundredths of a point.
    pub fn sample(&mut self, price: u32) -> Result<(), Refusal>
        ensures { Samples self.old price self.new result }
    {
        let price = Price::try_from(price)?;
        if self.samples.len() == self.expected {
            return Err(Refusal::plain(Reason::WrongState));
        }
        self.samples.push(Level::from(price));
        Ok(())
    }

    /// Closes the fixing by the closing value, once all samples are there; a refusal gives it back.
    pub fn close(self, value: u32) -> Result<ClosedFixing, (Refusal, OpenFixing)>
        ensures { Closes self value result }
    {
        // `map_err` would have to move the fixing into its closure.
        let value = match Price::try_from(value) {
            Ok(price) => Level::from(price),
            Err(refusal) => return Err((refusal, self)),
        };
        if self.samples.len() < self.expected {
            return Err((Refusal::plain(Reason::WrongState), self));
        }
        let OpenFixing {
            family,
            expected: _,
            samples,
        } = self;
        let price = final_price(family, samples.as_slice(), value);
        Ok(ClosedFixing { family, price })
    }

    /// Gives the fixing up. Answers how many samples are thrown away.
    pub fn abandon(self) -> usize
        ensures { result ≡ length (taken self) }
    {
        let thrown_away = self.samples.len();
        let OpenFixing {
            family: _,
            expected: _,
            samples: _,
        } = self;
        thrown_away
    }
}
