ghost use Rattle.ledger.specs.Reached.{Reached};
ghost use Rattle.tables.specs.Model.{model_of};

use tables::Tables;

/// A position book. Whatever book a program holds, some list of events leads to it from its opening: that is part of its
/// type, and the law of whole runs holds of it.
#[derive(Drop)]
pub struct Book {
    pub(crate) tables: Tables,
    ghost reached: { Reached (model_of tables) },
}
