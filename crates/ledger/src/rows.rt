use terms::AccountKind;

/// An account: whose it is, and its cash balance in cents.
#[derive(Clone, Copy, PartialEq, Eq, Debug)]
pub struct Account {
    pub kind: AccountKind,
    pub cash: i64,
}

/// How far a series is: a month's state stands with its future, and any other series is `Trading` until it is `Done`.
#[derive(Clone, Copy, PartialEq, Eq, Debug)]
pub enum State {
    Trading,
    /// The final price is known, in hundredths of a point.
    Fixed(u32),
    Done,
}

/// A listed series: a future's mark in hundredths of a point, or an option's delta in ten-thousandths; and its state.
#[derive(Clone, Copy, PartialEq, Eq, Debug)]
pub struct Terms {
    pub value: i32,
    pub state: State,
}
