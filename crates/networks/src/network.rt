//! The trait that every network meets, the ones that own their links and the layers over another network alike.
ghost use Rattle.std.specs.Prelude.{◌≡◌, true, length, is_err};
ghost use Rattle.networks.specs.Meaning.{Net, Sound};
ghost use Rattle.networks.specs.Changing.{cleared};
ghost use Rattle.networks.specs.Telling.{told, ends, lengths, channels, take_answer, take_after, give_answer, give_after};

use crate::model::NetworkRefusal;

/// A network by its meaning. `kept` says of a network before and after what takes and gives leave alone: all but channels taken, and in a layer its own table too.
pub trait Network {
    ghost meaning: { Self → Net };

    ghost kept: { Self → Self → Type 0 };

    /// How many sites there are.
    fn sites(&self) -> u16
        ensures { result ≡ (meaning self.now).sites };

    /// How many links there are.
    fn links(&self) -> u16
        ensures { result ≡ length (meaning self.now).links };

    /// A link's start and end.
    fn ends(&self, link: u16) -> Result<(u16, u16), NetworkRefusal>
        ensures { result ≡ told ends (meaning self.now) link };

    /// A link's metres and pole metres.
    fn lengths(&self, link: u16) -> Result<(u32, u32), NetworkRefusal>
        ensures { result ≡ told lengths (meaning self.now) link };

    /// A link's channels and how many of them are taken.
    fn channels(&self, link: u16) -> Result<(u16, u16), NetworkRefusal>
        ensures { result ≡ told channels (meaning self.now) link };

    /// Whether a link is lit.
    fn is_lit(&self, link: u16) -> Result<bool, NetworkRefusal>
        ensures { result ≡ told (λ l. l.lit) (meaning self.now) link };

    /// Takes one channel of a usable link.
    fn take(&mut self, link: u16) -> Result<(), NetworkRefusal>
        ensures answer { result ≡ take_answer (meaning self.old) link }
        ensures after { meaning self.new ≡ take_after (meaning self.old) link }
        ensures keeps { kept self.old self.new }
        ensures refused { is_err result ≡ true → self.new ≡ self.old };

    /// Gives one channel of a link back, lit or dark.
    fn give(&mut self, link: u16) -> Result<(), NetworkRefusal>
        ensures answer { result ≡ give_answer (meaning self.old) link }
        ensures after { meaning self.new ≡ give_after (meaning self.old) link }
        ensures keeps { kept self.old self.new }
        ensures refused { is_err result ≡ true → self.new ≡ self.old };

    ghost sound: { (n : Self) → Sound (meaning n) };

    ghost reflexive: { (n : Self) → kept n n };

    ghost transitive: { (a b c : Self) → kept a b → kept b c → kept a c };

    ghost alike: { (a b : Self) → kept a b → cleared (meaning a) ≡ cleared (meaning b) };
}
