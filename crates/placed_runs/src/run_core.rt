// The core of the runs by placed berths.
ghost use Rattle.placed_berths.specs.Laws as own;
ghost use Rattle.placed_runs.specs.RunLaws as laws;

use core_contract::Rules;
use exec_journal::{Call, Reply};
use placed_berths::PlacedCore;
use placed_rules::Placed;

/// The core by which runs on placed berths go. It does what [`PlacedCore`] does: it is a type of its own,
/// since a front names a core without parameters.
#[derive(Drop)]
pub struct RunCore {
    pub(crate) core: PlacedCore,
}

impl Rules for RunCore {
    type Plan = Placed;

    ghost plan = { λ m. ⟦<PlacedCore as Rules>⟧.plan m.core };

    ghost blank = { ⟦<PlacedCore as Rules>⟧.blank };

    ghost discipline = { ⟦<PlacedCore as Rules>⟧.discipline };

    ghost kept = { ⟦<PlacedCore as Rules>⟧.kept };

    ghost stands = { λ m. ⟦<PlacedCore as Rules>⟧.stands m.core };

    ghost news = { λ m. ⟦<PlacedCore as Rules>⟧.news m.core };

    fn step(&mut self, lane: u32, call: &Call) -> Reply {
        Rules::step(&mut self.core, lane, call)
    }

    fn has_news(&self, lane: u32) -> bool {
        Rules::has_news(&self.core, lane)
    }

    fn owed(&self) -> u64 {
        Rules::owed(&self.core)
    }

    fn berths(&self) -> u32 {
        Rules::berths(&self.core)
    }

    fn most_lines(&self) -> u32 {
        Rules::most_lines(&self.core)
    }

    ghost came = { λ m. laws.came_about m.core };

    ghost news_are = { λ m. laws.news_are m.core };

    ghost keeps = { laws.keeps };

    ghost kept_is = { own.kept_is };
}
