//! What holds of every table's history.
ghost use Rattle.work_table.specs.Cancelling.{CancelledWhileOpen};

/// A table's plan is cancelled exactly where a cancel of it came while a step had no end.
pub fn cancelled_while_open()
    ensures { CancelledWhileOpen }
{}
