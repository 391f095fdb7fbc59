ghost use Rattle.std.specs.Prelude.{◌≡◌, Ok};
ghost use Rattle.terms.specs.Refusals.{plain};
ghost use Rattle.terms.specs.Kinds.{kind_number};
ghost use Rattle.positions.specs.Keys.{series_key};
ghost use Rattle.ledger.specs.Calls.{list};
ghost use Rattle.ledger.specs.Judge.{judge_list};
ghost use Rattle.ledger.specs.Numbers.{first_in, delta_range, key_of};
ghost use Rattle.ledger.specs.Post.{post};
ghost use Rattle.tables.specs.Model.{model_of, unpriced, bare, Judges, Follows, numbered};

use ledger::{State, Terms};
use positions::series_key;
use series::{Delta, Series, SeriesNumbers};
use tables::{InUse, Tables};
use terms::{Reason, Refusal, SeriesKind};

/// Whether an option of this kind may have this delta, in ten-thousandths.
pub(crate) fn takes_delta(kind: SeriesKind, value: i32) -> bool
    ensures { result ≡ delta_range kind value }
{
    Delta::checked(kind, value).is_ok()
}

// A future's first mark is a price, an option's first delta one of its kind.
fn takes_first(kind: SeriesKind, first: i32) -> bool
    ensures { result ≡ first_in kind first }
{
    match kind {
        // A first mark is signed, as deltas are, so it is no `Price` yet.
        SeriesKind::Future => (1..=10_000_000).contains(&first),
        _ => takes_delta(kind, first),
    }
}

/// Lists a future with its first mark, or an option with its first delta: 4 for a number out of range, 5 for a strike
/// off its step, 6 where it is there already, 7 and 8 for an option whose month's future is absent or not trading, 12
/// where there is no space.
pub fn list(tables: &mut Tables, numbers: SeriesNumbers, first: i32) -> Result<(), Refusal>
    ensures { Follows (bare (list (numbered numbers) first)) tables.old tables.new result }
{
    let series = listed(&tables.in_use()?, numbers, first)?;
    let terms = Terms {
        value: first,
        state: State::Trading,
    };
    // `listed` found place for the row.
    let _ = tables.series.put(series_key(series), terms);
    Ok(())
}

// The series that may be listed.
fn listed(book: &InUse, numbers: SeriesNumbers, first: i32) -> Result<Series, Refusal>
    ensures { Judges (judge_list (model_of book.now.tables.now) (numbered numbers) first (post (model_of book.now.tables.now) (list (numbered numbers) first) unpriced)) (λ s. series_key (kind_number s.kind) s.month.number s.strike ≡ key_of (numbered numbers)) result }
{
    let series = Series::numbered(book.family, numbers)?;
    if !takes_first(series.kind(), first) {
        return Err(Refusal::plain(Reason::OutOfRange));
    }
    if !series.on_step(book.family) {
        return Err(Refusal::plain(Reason::OffStep));
    }
    if book.tables.series.read(series_key(series)).is_some() {
        return Err(Refusal::plain(Reason::Present));
    }
    if series.kind() != SeriesKind::Future {
        book.tables.trading_future(series.month())?;
    }
    if !book.tables.series.has_place() {
        return Err(Refusal::plain(Reason::NoSpace));
    }
    Ok(series)
}
