use crate::{charge_both, fee_of};
use std::test::Fail;
use tariffs::{Allowance, Either, Event, Listing, Side};
use terms::{AccountKind, Refusal, SeriesKind, Size};

/// A maker's trade of so many futures.
fn trade(account: u16, count: u32) -> Side {
    Side {
        account,
        account_kind: AccountKind::Maker,
        series_kind: SeriesKind::Future,
        size: Size::Full,
        event: Event::Trade,
        count,
    }
}

/// 1,000 cents below; 2 contracts of account 7 left at 200 above it, and 1 left at 100 above that.
fn two_allowances() -> Result<Allowance<Allowance<Listing>>, Refusal> {
    let mut listing = Listing::new();
    listing.set(0, 0, 1, 0, Some(1_000))?;
    let mut lower = Allowance::new(listing);
    lower.set_reduced(200)?;
    lower.set_left(7, 2)?;
    let mut upper = Allowance::new(lower);
    upper.set_reduced(100)?;
    upper.set_left(7, 1)?;
    Ok(upper)
}

#[test]
fn an_allowance_stands_over_an_allowance(rt: HostRuntime) -> Result<(), Fail> {
    let mut tariff = two_allowances()?;
    assert_eq!(rt; fee_of(&tariff, &trade(7, 5)), Ok(2_500));
    let fees = charge_both(&mut tariff, &trade(7, 2), &trade(8, 2));
    assert_eq!(rt; fees, Ok((300, 2_000)));
    assert_eq!(rt; tariff.left(7), Ok(0));
    assert_eq!(rt; fee_of(&tariff, &trade(7, 5)), Ok(4_200));
    Ok(())
}

#[test]
fn a_tariff_is_chosen_at_run_time(rt: HostRuntime) -> Result<(), Fail> {
    for (reduced, refused) in [(true, None), (false, Some(13))] {
        let tariff = if reduced {
            Either::Left(two_allowances()?)
        } else {
            Either::Right(Listing::new())
        };
        let refusal = fee_of(&tariff, &trade(7, 5)).err();
        assert_eq!(rt; refusal.map(|refusal| refusal.reason.number()), refused);
    }
    Ok(())
}
