//! A command.

use report_sheet::Form;

/// What a run reads and reports.
#[derive(Clone, Copy)]
pub enum Mode {
    /// Hand histories, each with its verdict and the equity of its all-in.
    Audit,
    /// Hand histories, as `Audit`, with the equity of each counted all-in on each later street of the
    /// hand.
    Streets,
    /// Hand histories, each with its verdict.
    Check,
    /// Hand histories, each with the chips that its players had, put in, received, and netted.
    Results,
    /// Hand histories, each with the payments that the rules give for its pots.
    Settle,
    /// Spot lines, each with its equity.
    Spots,
    /// Lines with ranges of hands, each with the equities of its ranges against each other.
    Ranges,
    /// Hand histories, and the sums of each player by name.
    Totals,
    /// Hand histories, and what each player won and lost, by name.
    Balance,
    /// No input: hands that a generator makes, with the sums of their all-ins.
    Made,
}

/// A command.
#[derive(Clone, Copy)]
pub struct Command {
    /// What the run reads and reports.
    pub mode: Mode,
    /// The number of workers that count: 1 to 16.
    pub workers: u32,
    /// The form of the report.
    pub form: Form,
    /// The seed of made input.
    pub seed: u64,
    /// The number of hands to make: at most 10,000.
    pub hands: u32,
}

impl Mode {
    ghost use Rattle.std.specs.Prelude.{◌≡◌};
    ghost use Rattle.command_words.specs.Command.{reads_input};

    /// Returns whether the run reads its input.
    pub fn reads_input(self) -> bool
        ensures { result ≡ reads_input self }
    {
        match self {
            Mode::Audit
            | Mode::Streets
            | Mode::Check
            | Mode::Results
            | Mode::Settle
            | Mode::Spots
            | Mode::Ranges
            | Mode::Totals
            | Mode::Balance => true,
            Mode::Made => false,
        }
    }
}
