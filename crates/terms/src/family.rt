ghost use Rattle.std.specs.Prelude.{◌≡◌, ◌<◌, true, List};
ghost use Rattle.terms.specs.Numbers.{Numbered};
ghost use Rattle.terms.specs.Families.{family_number, cents_of, tick_of, limit_of, minis_in, future_options_in, bands_of};
ghost use Rattle.terms.specs.Steps.{joined, Unbroken};

use crate::refusal::{Reason, Refusal};
use crate::steps::{StepBand, StepTable};

/// The index families.
#[derive(Clone, Copy, PartialEq, Eq, Debug)]
pub enum Family {
    HangSeng,
    ChinaEnterprises,
    MsciTaiwan,
}

#[derive(Clone, Copy)]
struct FamilyTerms {
    cents: u32,
    tick: u32,
    limit: u32,
    minis: bool,
    options_on_future: bool,
    steps: StepTable,
}

/// The steps of families 0 and 1: 50; 100 from 5,000; 200 from 20,000.
const INDEX_STEPS: StepTable = StepTable {
    bands: [
        StepBand { from: 0, step: 50 },
        StepBand {
            from: 5_000,
            step: 100,
        },
        StepBand {
            from: 20_000,
            step: 200,
        },
        StepBand {
            from: 20_000,
            step: 200,
        },
    ],
};

/// The steps of family 2: 1; 2 from 200; 5 from 500; 10 from 1,000.
const TAIWAN_STEPS: StepTable = StepTable {
    bands: [
        StepBand { from: 0, step: 1 },
        StepBand { from: 200, step: 2 },
        StepBand { from: 500, step: 5 },
        StepBand {
            from: 1_000,
            step: 10,
        },
    ],
};

/// The families in the order of their numbers.
const FAMILIES: [FamilyTerms; 3] = [
    FamilyTerms {
        cents: 10,
        tick: 100,
        limit: 15_000,
        minis: true,
        options_on_future: true,
        steps: INDEX_STEPS,
    },
    FamilyTerms {
        cents: 10,
        tick: 100,
        limit: 25_000,
        minis: true,
        options_on_future: true,
        steps: INDEX_STEPS,
    },
    FamilyTerms {
        cents: 20,
        tick: 10,
        limit: 20_000,
        minis: false,
        options_on_future: false,
        steps: TAIWAN_STEPS,
    },
];

/// The family with this number, 0 to 2.
impl TryFrom<u8> for Family {
    type Error = Refusal;

    ghost try_from_gives = { Numbered (λ n. n < 3) family_number };

    fn try_from(number: u8) -> Result<Family, Refusal> {
        match number {
            0 => Ok(Family::HangSeng),
            1 => Ok(Family::ChinaEnterprises),
            2 => Ok(Family::MsciTaiwan),
            _ => Err(Refusal::plain(Reason::OutOfRange)),
        }
    }
}

impl Family {
    /// The cents by which one hundredth of a point moves one unit.
    pub fn cents_per_hundredth(self) -> u32
        ensures { result ≡ cents_of self }
    {
        FAMILIES[self as usize].cents
    }

    /// The tick of a traded price, in hundredths of a point.
    pub fn tick(self) -> u32
        ensures { result ≡ tick_of self }
    {
        FAMILIES[self as usize].tick
    }

    /// The position limit, in full contracts.
    pub fn limit(self) -> u32
        ensures { result ≡ limit_of self }
    {
        FAMILIES[self as usize].limit
    }

    pub fn has_minis(self) -> bool
        ensures { result ≡ minis_in self }
    {
        FAMILIES[self as usize].minis
    }

    pub fn has_options_on_future(self) -> bool
        ensures { result ≡ future_options_in self }
    {
        FAMILIES[self as usize].options_on_future
    }

    /// How far apart the family's strikes lie.
    #[tactic(auto, using(crate::proofs::Grid::unbroken))]
    pub fn steps(self) -> StepTable
        ensures value { result.bands ≡ bands_of self }
        ensures rule { (bands : List StepBand) → joined bands ≡ true → Unbroken bands }
        ensures row { joined (bands_of self) ≡ true }
    {
        self.step_table()
    }

    fn step_table(self) -> StepTable
        ensures { result.bands ≡ bands_of self }
    {
        FAMILIES[self as usize].steps
    }
}
