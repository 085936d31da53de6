//! A law of lines.
ghost use Rattle.revoked_lines.specs.Tables.{LinesAreTables};

/// A law: a line says what a table of an order's array says that has its texts.
pub fn lines_are_tables()
    ensures { LinesAreTables }
{}
