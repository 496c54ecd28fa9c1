//! What stops one process.

ghost use Rattle.std.specs.Prelude.{◌≡◌};
ghost use Rattle.fm_base.specs.Texts.{fault_name};

/// What stops one process.
#[derive(Clone, Copy)]
pub enum Fault {
    /// A result outside the range of INTEGER.
    Overflow,
    /// A division by 0, or a loop with increment 0.
    ZeroDivide,
    /// A subscript outside its bounds, a SEND whose sizes reach outside an array, or a message that is too long.
    Subscript,
    /// A port statement on NULL.
    NullPort,
    /// A receive at the end of its channel, with no way out.
    EndOfChannel,
    /// A location outside its shape.
    BadLocation,
    /// A submachine outside its machine, or a child with more PROCESSORS than its machine has nodes.
    BadMachine,
}

impl Fault {
    /// The name of the fault, as the report has it.
    pub fn name(self) -> &'static [u8]
        ensures { result.now ≡ fault_name self }
    {
        match self {
            Fault::Overflow => b"Overflow",
            Fault::ZeroDivide => b"ZeroDivide",
            Fault::Subscript => b"Subscript",
            Fault::NullPort => b"NullPort",
            Fault::EndOfChannel => b"EndOfChannel",
            Fault::BadLocation => b"BadLocation",
            Fault::BadMachine => b"BadMachine",
        }
    }
}
