ghost use Rattle.std.specs.Prelude.{◌≡◌};
ghost use Rattle.positions.specs.Keys.{future_key};
ghost use Rattle.ledger.specs.Book.{terms_at};
ghost use Rattle.tables.specs.Model.{model_of, Judges};
ghost use Rattle.tables.specs.Months.{trading};

use crate::tables::Tables;
use ledger::Terms;
use positions::future_key;
use terms::{Month, Reason, Refusal};

impl Tables {
    /// The future of a month that trades: 7 where it is not listed, then 8 where the month is not trading.
    pub fn trading_future(&self, month: Month) -> Result<Terms, Refusal>
        ensures { Judges (trading (model_of self.now) month.number) (λ t. t ≡ terms_at (model_of self.now) (future_key month.number)) result }
    {
        let future = self.listed(future_key(month))?;
        if !future.state.is_trading() {
            return Err(Refusal::plain(Reason::WrongState));
        }
        Ok(future)
    }
}
