ghost use Rattle.std.specs.Prelude.{◌≡◌};
ghost use Rattle.ledger.specs.Book.{is_trading, is_done};

use crate::rows::State;

impl State {
    pub fn is_trading(self) -> bool
        ensures { result ≡ is_trading self }
    {
        matches!(self, State::Trading)
    }

    pub fn is_done(self) -> bool
        ensures { result ≡ is_done self }
    {
        matches!(self, State::Done)
    }
}
