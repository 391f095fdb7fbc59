// The writing of an accepted trade.
ghost use Rattle.std.specs.Prelude.{◌≡◌, ◌≤◌, true, length, ◌≢◌};
ghost use Rattle.registers.specs.Rows.{put};
ghost use Rattle.registers.specs.Held.{rows_of, room_of};
ghost use Rattle.ledger.specs.Rows.{present, placed};
ghost use Rattle.tables.specs.Model.{model_of};
ghost use Rattle.trading.specs.Found.{posted};

use crate::found::{Leg, Outcome};
use ledger::Account;
use positions::Position;
use registers::Register;
use tables::{Tables, place};

fn post_accounts(accounts: &mut Register<Account>, buyer: &Leg, seller: &Leg)
    requires buyer { present (rows_of accounts.old) buyer.now.side.account ≡ true }
    requires seller { present (rows_of accounts.old) seller.now.side.account ≡ true }
    ensures rows { rows_of accounts.new ≡ put seller.now.side.account seller.now.account (put buyer.now.side.account buyer.now.account (rows_of accounts.old)) }
    ensures room { room_of accounts.new ≡ room_of accounts.old }
{
    // Both accounts have rows.
    let _ = accounts.put(u64::from(buyer.side.account), buyer.account);
    let _ = accounts.put(u64::from(seller.side.account), seller.account);
}

// Where the seller's row goes, it goes first, so that there is place for the buyer's.
fn post_positions(positions: &mut Register<Position>, buyer: &Leg, seller: &Leg)
    requires apart { seller.now.key ≢ buyer.now.key }
    requires space { length (placed seller.now.key seller.now.position (placed buyer.now.key buyer.now.position (rows_of positions.old))) ≤ room_of positions.old }
    ensures rows { rows_of positions.new ≡ placed seller.now.key seller.now.position (placed buyer.now.key buyer.now.position (rows_of positions.old)) }
    ensures room { room_of positions.new ≡ room_of positions.old }
{
    // There is place for both: a flat seller's row goes before the buyer's comes.
    if seller.position.is_flat() {
        positions.take(seller.key);
        let _ = place(positions, buyer.key, buyer.position);
        return;
    }
    let _ = place(positions, buyer.key, buyer.position);
    let _ = positions.put(seller.key, seller.position);
}

/// Writes both accounts, both positions and the exchange's balance.
pub(crate) fn post(tables: &mut Tables, outcome: &Outcome)
    requires buyer { present (rows_of tables.old.accounts) outcome.now.buyer.side.account ≡ true }
    requires seller { present (rows_of tables.old.accounts) outcome.now.seller.side.account ≡ true }
    requires apart { outcome.now.seller.key ≢ outcome.now.buyer.key }
    requires space { length (posted (model_of tables.old) outcome.now).positions ≤ room_of tables.old.positions }
    ensures { model_of tables.new ≡ posted (model_of tables.old) outcome.now }
{
    post_accounts(&mut tables.accounts, &outcome.buyer, &outcome.seller);
    post_positions(&mut tables.positions, &outcome.buyer, &outcome.seller);
    tables.exchange = outcome.exchange;
}
