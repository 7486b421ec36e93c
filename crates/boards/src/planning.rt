//! Quotes and surveys over what a board shows.
ghost use Rattle.std.specs.Prelude.{◌≡◌, ℕ, ◌&&◌, List, [], ◌∷◌, length, is_ok, nat_le};
ghost use Rattle.networks.specs.Meaning.{Net};
ghost use Rattle.planner_tables.specs.Room.{all_fit, long_enough};
ghost use Rattle.quotes.specs.Quotes.{Quoted};
ghost use Rattle.surveys.specs.Surveys.{Surveyed};
ghost use Rattle.registers.specs.States.{shown};
ghost use Rattle.registers.specs.Events.{Event};
ghost use Rattle.registers.specs.Events as asked;
ghost use Rattle.registers.specs.Registers.{register, links};
ghost use Rattle.registers.specs.Histories.{Agrees};
ghost use Rattle.boards.specs.Boards.{state};
ghost use Rattle.boards.specs.Calls.{event, Does};
ghost use Rattle.boards.specs.Orders.{TrueQuote, TrueSurvey};

use crate::board::Board;
use costs::Cost;
use marks::Marks;
use networks::network::Network;
use planner_tables::{PlannerRefusal, Tables};
use quotes::Quote;
use surveys::Outcome;

impl<N: Network> Board<N> {
    /// The least pair of routes from a root to a target that share no link, by the cost kind of the tables: writes both into the route tables. All tables need as many entries as there are sites.
    pub fn quote<C: Cost + Copy, M: Marks>(
        &self,
        root: u16,
        target: u16,
        tables: Tables<C, M>,
        one: &mut [u16],
        two: &mut [u16],
    ) -> Result<Quote<C>, PlannerRefusal>
        ensures answer { Quoted C.Cost.ops (shown (state N.Network.meaning self.now)) root target (long_enough (shown (state N.Network.meaning self.now)).sites M.Marks.rooms tables.entry && all_fit (shown (state N.Network.meaning self.now)).sites (length one.old ∷ length two.old ∷ [])) result one.old two.old one.new two.new }
        ensures right { (number : ℕ) (given : Net) (events : List Event) → Agrees number given events (state N.Network.meaning self.now) → TrueQuote C.Cost.ops (links (register given events)) root target (long_enough (shown (state N.Network.meaning self.now)).sites M.Marks.rooms tables.entry && all_fit (shown (state N.Network.meaning self.now)).sites (length one.old ∷ length two.old ∷ [])) result one.new two.new }
        ensures does { Does (state N.Network.meaning self.now) (event (asked.quote root target) (is_ok result)) (state N.Network.meaning self.now) }
    {
        quotes::quote(&self.pile, root, target, tables, one, two)
    }

    /// The outcome of every site for a root, by the cost kind of the tables: writes one entry for each site into the survey table. All tables need as many entries as there are sites.
    pub fn survey<C: Cost + Copy, M: Marks>(
        &self,
        root: u16,
        tables: Tables<C, M>,
        survey: &mut [Outcome<C>],
    ) -> Result<u16, PlannerRefusal>
        ensures answer { Surveyed C.Cost.ops (shown (state N.Network.meaning self.now)) root (long_enough (shown (state N.Network.meaning self.now)).sites M.Marks.rooms tables.entry && nat_le (shown (state N.Network.meaning self.now)).sites (length survey.old)) result survey.old survey.new }
        ensures right { (number : ℕ) (given : Net) (events : List Event) → Agrees number given events (state N.Network.meaning self.now) → TrueSurvey C.Cost.ops (links (register given events)) root (long_enough (shown (state N.Network.meaning self.now)).sites M.Marks.rooms tables.entry && nat_le (shown (state N.Network.meaning self.now)).sites (length survey.old)) result survey.new }
        ensures does { Does (state N.Network.meaning self.now) (event (asked.survey root) (is_ok result)) (state N.Network.meaning self.now) }
    {
        surveys::survey(&self.pile, root, tables, survey)
    }
}
