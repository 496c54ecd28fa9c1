//! Who plays a table.

ghost use Rattle.std.specs.Prelude.{⊤};

/// Who plays a table. It promises nothing, not even that a table comes back: the type of the table that comes back says
/// all that is known of it.
///
/// A type of workers that starts threads needs something of its own types, such as that its runtime may be lent to
/// threads. That is `crosses`, and each caller shows it of the type that it passes.
pub trait Workers<T> {
    /// What the type needs to start threads.
    ghost crosses: { Type 0 } = { ⊤ };

    /// Plays the table with so many workers.
    fn drive(&self, table: T, count: u32) -> Option<T>
        requires { crosses };
}
