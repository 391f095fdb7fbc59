ghost use Rattle.std.specs.Prelude.{◌≡◌, ◌≤◌};
ghost use Rattle.terms.specs.Families.{family_number};
ghost use Rattle.registers.specs.Held.{room_of};
ghost use Rattle.ledger.specs.Numbers.{family_of};

use crate::tables::Tables;
use terms::Family;

/// Tables that calls may use, and their family: its number is a family's, and each register has room for 1 to 4,096 rows.
#[derive(Clone, Copy)]
pub struct InUse<'a> {
    pub tables: &'a Tables,
    pub family: Family,
    ghost number: { family_number family ≡ tables.now.family },
    ghost family_is: { family_of tables.now.family ≡ family },
    ghost accounts: { (1 ≤ room_of tables.now.accounts) × (room_of tables.now.accounts ≤ 4096) },
    ghost series: { (1 ≤ room_of tables.now.series) × (room_of tables.now.series ≤ 4096) },
    ghost positions: { (1 ≤ room_of tables.now.positions) × (room_of tables.now.positions ≤ 4096) },
}
