//! The strike lists around a closing level.
#![tactic(auto)]

ghost use Rattle.strikelists.specs.Lists.{NearestAnswer, ListAnswer, OneNearest, OneList, Worked};
ghost use Rattle.strikelists.specs.Strikes.{Nearest};
ghost use Rattle.terms.specs.declared.family.Family.TheVariants.{HangSeng};
ghost use Rattle.terms.specs.Families.{bands_of};
ghost use Rattle.strikelists.specs.Asks.{AskedFor};

mod ends;
mod grid;
mod runs;
mod span;

use grid::StrikeGrid;
use span::Span;
use terms::{Family, Price, Reason, Refusal};

/// The strike nearest to a closing level (in hundredths), the lower of two that are as near.
#[tactic(auto, using(crate::proofs::Words::one_nearest))]
pub fn nearest_strike(family: u8, level: u32) -> Result<u32, Refusal>
    ensures answer { NearestAnswer family level result }
    ensures one { OneNearest }
{
    let (grid, level) = asked(family, level)?;
    Ok(grid.nearest(level).strike)
}

/// Writes every strike around a closing level (in hundredths), ascending, to the front of `out`, and answers how many
/// there are. Refused by 4 where the family or the level is out of range, then by 12 where `out` is too short; nothing
/// is written then.
pub fn strikes(family: u8, level: u32, out: &mut [u32]) -> Result<usize, Refusal>
    ensures answer { ListAnswer family level out.old out.new result }
    ensures one { OneList }
{
    let (grid, level) = asked(family, level)?;
    let middle = grid.nearest(level);
    let span = Span {
        grid,
        low: grid.low_end(middle),
        high: grid.high_end(middle),
    };
    let count = span.count();
    if out.len() < count {
        return Err(Refusal::plain(Reason::NoSpace));
    }
    span.fill(out);
    Ok(count)
}

/// Worked examples in family 0: level 20,126 gives A = 20,200 and 32 strikes from 18,100 to 22,400; level 4,975 lies
/// midway and gives A = 4,950. The code does nothing but answer 0: what counts is the statement.
pub fn worked_lists() -> u8
    ensures list { Worked HangSeng 2012600 20200 32 18100 22400 }
    ensures midway { Nearest (bands_of HangSeng) 497500 4950 }
{
    0
}

// The family's strikes and the level as a price.
fn asked(family: u8, level: u32) -> Result<(StrikeGrid, Price), Refusal>
    ensures { AskedFor family level result }
{
    let family = Family::try_from(family)?;
    let level = Price::try_from(level)?;
    let grid = StrikeGrid {
        steps: family.steps(),
    };
    Ok((grid, level))
}
