ghost use Rattle.std.specs.Prelude.{◌≡◌, ◌||◌, Ok, if◌then◌else◌};
ghost use Rattle.registers.specs.Held.{rows_of, room_of};
ghost use Rattle.registers.specs.Rows.{place_for, answered};
ghost use Rattle.positions.specs.Positions.{is_flat};
ghost use Rattle.ledger.specs.Rows.{placed};

use positions::Position;
use registers::Register;

/// Puts a position under its key; a flat one has no row. Where there is no place for one more row, the position is given
/// back, and nothing changes.
pub fn place(
    positions: &mut Register<Position>,
    key: u64,
    position: Position,
) -> Result<(), Position>
    ensures answer { result ≡ (if is_flat position then Ok tt else answered (place_for key (rows_of positions.old) (room_of positions.old)) position) }
    ensures rows { rows_of positions.new ≡ (if is_flat position || place_for key (rows_of positions.old) (room_of positions.old) then placed key position (rows_of positions.old) else rows_of positions.old) }
    ensures room { room_of positions.new ≡ room_of positions.old }
{
    if position.is_flat() {
        positions.take(key);
        return Ok(());
    }
    positions.put(key, position)
}
