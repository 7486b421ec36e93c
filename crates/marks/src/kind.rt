//! What a set of marked sites is: its calls and their meaning.
ghost use Rattle.std.specs.Prelude.{◌≡◌, ℕ, Bool, false, if◌then◌else◌, nat_lt};
ghost use Rattle.marks.specs.Sets.{with, less};

/// A set of marked sites, with room for the sites below a number.
pub trait Marks {
    ghost rooms: { Self → ℕ };

    ghost marked: { Self → ℕ → Bool };

    /// For how many sites there is room.
    fn room(&self) -> usize
        ensures { result ≡ rooms self.now };

    /// Whether a site is marked. Past the room none is.
    fn is_marked(&self, site: u16) -> bool
        ensures { result ≡ marked self.now site };

    /// Marks a site. Past the room it does nothing.
    fn mark(&mut self, site: u16)
        ensures set { (w : ℕ) → marked self.new w ≡
            (if nat_lt site (rooms self.old) then with site (marked self.old) w
            else marked self.old w) }
        ensures room { rooms self.new ≡ rooms self.old };

    /// Wipes the mark of a site.
    fn wipe(&mut self, site: u16)
        ensures set { (w : ℕ) → marked self.new w ≡ less site (marked self.old) w }
        ensures room { rooms self.new ≡ rooms self.old };

    /// Wipes all marks.
    fn clear(&mut self)
        ensures set { (w : ℕ) → marked self.new w ≡ false }
        ensures room { rooms self.new ≡ rooms self.old };
}
