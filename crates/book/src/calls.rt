ghost use Rattle.std.specs.Prelude.{◌≡◌};
ghost use Rattle.ledger.specs.Book.{opened};
ghost use Rattle.ledger.specs.Calls.{admit, list, close, mark, delta};
ghost use Rattle.ledger.specs.Judge.{judge_opening};
ghost use Rattle.ledger.specs.Numbers.{family_of};
ghost use Rattle.ledger.specs.Runs.{standing_after};
ghost use Rattle.tables.specs.Opening.{spaces_in};
ghost use Rattle.tables.specs.Model.{spaces_of, bare, Judges, numbered};
ghost use Rattle.trading.specs.Deals.{trade_of, event_of};
ghost use Rattle.book.specs.Sealed.{book_of, Law, Answers, Enters};

use crate::sealed::Book;
use fixings::ClosedFixing;
use series::SeriesNumbers;
use tables::{Space, Tables};
use tariffs::Tariff;
use terms::{Family, Refusal};
use trading::Trade;

// Calls take the numbers that offices send, so that any number has a stated answer.
impl Book {
    /// An empty book for a family, over the supplied space. Any number and any space makes a book; one that may not be
    /// used refuses every call.
    pub fn open(family: u8, space: Space) -> Book
        ensures book { book_of result ≡ opened family (spaces_in space) }
        ensures law { Law result }
    {
        Book {
            tables: Tables::open(family, space),
        }
    }

    /// The family, or what every call is refused for: 4 for a family that is none, then 12 for space outside 1 to 4,096.
    pub fn usable(&self) -> Result<Family, Refusal>
        ensures { Judges (judge_opening self.now.tables.family (spaces_of self.now.tables)) (λ f. family_of self.now.tables.family ≡ f) result }
    {
        self.tables.usable()
    }

    /// Admits an account as house 0, maker 1 or client 2.
    pub fn admit(&mut self, account: u16, kind: u8) -> Result<(), Refusal>
        ensures { Answers (bare (admit account kind)) self.old self.new result }
    {
        entering::admit(&mut self.tables, account, kind)
    }

    /// Lists a future with its first mark, or an option with its first delta.
    pub fn list(&mut self, numbers: SeriesNumbers, first: i32) -> Result<(), Refusal>
        ensures { Answers (bare (list (numbered numbers) first)) self.old self.new result }
    {
        entering::list(&mut self.tables, numbers, first)
    }

    /// Trades so many contracts from the seller to the buyer, at the tariff's prices, which moves its standing.
    pub fn trade<T: Tariff>(&mut self, tariff: &mut T, trade: Trade) -> Result<(), Refusal>
        ensures call { Answers (event_of (T.Tariff.price tariff.old) (trade_of trade)) self.old self.new result }
        ensures standing { tariff.new ≡ standing_after T.Tariff.after tariff.old (book_of self.old) (event_of (T.Tariff.price tariff.old) (trade_of trade)) }
    {
        trading::trade(&mut self.tables, tariff, trade)
    }

    /// Closes `count` fulls against five times as many minis of opposite sign in an account's position.
    pub fn close(&mut self, numbers: SeriesNumbers, account: u16, count: u32) -> Result<(), Refusal>
        ensures { Answers (bare (close (numbered numbers) account count)) self.old self.new result }
    {
        entering::close(&mut self.tables, numbers, account, count)
    }

    /// Moves the mark of a month's future to a price, in hundredths of a point: each position in it gets the difference.
    pub fn mark(&mut self, month: u16, price: u32) -> Result<(), Refusal>
        ensures { Answers (bare (mark month price)) self.old self.new result }
    {
        settling::mark(&mut self.tables, month, price)
    }

    /// Gives an option a new delta, in ten-thousandths.
    pub fn delta(&mut self, numbers: SeriesNumbers, value: i32) -> Result<(), Refusal>
        ensures { Answers (bare (delta (numbered numbers) value)) self.old self.new result }
    {
        entering::delta(&mut self.tables, numbers, value)
    }

    /// Gives a closed fixing to a month, which fixes its final price. A refusal gives the fixing back.
    pub fn enter(&mut self, month: u16, fixing: ClosedFixing) -> Result<(), (Refusal, ClosedFixing)>
        ensures { Enters month fixing self.old self.new result }
    {
        entering::enter(&mut self.tables, month, fixing)
    }
}
