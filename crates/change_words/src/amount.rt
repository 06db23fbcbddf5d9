//! How many ticks something takes: so many, or a share of what it took.
ghost use Rattle.std.specs.Prelude.{◌≡◌, IsTrue};
ghost use Rattle.stage_graph.specs.Checks.{is_tick};
ghost use Rattle.change_words.specs.Amounts.{amount_in, percent_of, share_of, ticks_of};

use std::marker::Model;

/// The most hundredths that may be asked for.
const MOST_HUNDREDTHS: u64 = 100_000;

/// So many hundredths: 0 to 100,000.
#[derive(Clone, Copy, Debug)]
pub struct Percent {
    hundredths: u64,
}

impl Model for Percent {
    ghost use Rattle.std.specs.Prelude.{ℕ, ◌≤◌};

    ghost Value = { ℕ };

    ghost view = { λ percent. percent.hundredths };

    ghost invariant = { λ percent. percent.hundredths ≤ 100000 };

    ghost inverse = { λ hundredths. record { hundredths = hundredths } };
}

impl Percent {
    /// So many hundredths, if they are not too many.
    pub fn new(hundredths: u64) -> Option<Percent>
        ensures { result ≡ percent_of hundredths }
    {
        if hundredths > MOST_HUNDREDTHS {
            return None;
        }
        Some(Percent { hundredths })
    }

    /// So many hundredths of a number of ticks, rounded down.
    #[tactic(auto, using(crate::proofs::Shares::share_fits))]
    pub(crate) fn share_of(self, ticks: u64) -> u64
        requires { IsTrue (is_tick ticks) }
        ensures { result ≡ share_of self ticks }
    {
        ticks * self.hundredths / 100
    }
}

/// How many ticks something is to take.
#[derive(Clone, Copy, Debug)]
pub enum Amount {
    /// So many.
    Ticks(u64),
    /// So many hundredths of those that it takes.
    Share(Percent),
}

impl Amount {
    /// How many ticks that are, of something that has taken some.
    fn ticks_of(self, taken: u64) -> u64
        requires { IsTrue (is_tick taken) }
        ensures { result ≡ ticks_of self taken }
    {
        match self {
            Amount::Ticks(ticks) => ticks,
            Amount::Share(percent) => percent.share_of(taken),
        }
    }
}

/// How many ticks something takes that has taken some: as many, where nothing is assigned.
pub(crate) fn amount_in(amount: Option<Amount>, taken: u64) -> u64
    requires { IsTrue (is_tick taken) }
    ensures { result ≡ amount_in amount taken }
{
    match amount {
        None => taken,
        Some(amount) => amount.ticks_of(taken),
    }
}
