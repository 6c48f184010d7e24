//! Jobs.
ghost use Rattle.std.specs.Prelude.{◌≡◌, ℕ};

/// What one thread at a time does, in one run.
pub trait Job: Send + Drop {
    ghost number_of: { Self → ℕ };

    /// What any run needs, whatever the job.
    ghost can_run: { Type 0 };

    // the job before and after one run
    ghost ran: { Self → Self → Type 0 };

    /// The jobs come back in the order of these.
    fn number(&self) -> u16
        ensures { result ≡ number_of self.now };

    fn run(&mut self)
        requires { can_run }
        ensures ran { ran self.old self.new }
        ensures number { number_of self.new ≡ number_of self.old };
}
