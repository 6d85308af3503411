//! What the calls of the code ask for.

ghost use Rattle.std.specs.Prelude.{◌≡◌};
ghost use Rattle.lfi_run_image.specs.Serving.{service_of};

/// What is done at a call.
#[derive(Clone, Copy)]
pub enum Service {
    /// The run ends, with the low byte of x0 as its status.
    Finish,
    /// The low byte of x0 is written to the output.
    Print,
    /// Nothing is: x0 is answered with all bits set.
    Unknown,
}

impl Service {
    /// The service of an entry: 0 finishes, 1 prints, and no other is known.
    pub fn of(entry: u32) -> Service
        ensures { result ≡ service_of entry }
    {
        match entry {
            0 => Service::Finish,
            1 => Service::Print,
            _ => Service::Unknown,
        }
    }
}
