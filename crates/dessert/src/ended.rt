//! How a call ended.

ghost use Rattle.std.specs.Prelude.{◌≡◌};
ghost use Rattle.dessert.specs.Answer.{number};
ghost use Rattle.dessert.specs.Calls.Ended.{status_of};

/// How a call ended.
#[derive(Clone, Copy, Debug, PartialEq, Eq)]
pub enum Ended {
    Quiet,
    Failure,
    Usage,
    Design,
    Input,
    File,
    Reading,
    Writing,
    Reporting,
    Memory,
}

impl Ended {
    /// The status that the program ends with.
    pub fn number(self) -> u8
        ensures { result ≡ number (status_of self) }
    {
        match self {
            Ended::Quiet => 0,
            Ended::Failure => 1,
            Ended::Usage => 2,
            Ended::Design => 3,
            Ended::Input => 4,
            Ended::File => 5,
            Ended::Reading => 6,
            Ended::Writing => 7,
            Ended::Reporting => 8,
            Ended::Memory => 9,
        }
    }
}
