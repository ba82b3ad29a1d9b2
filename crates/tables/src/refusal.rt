ghost use Rattle.std.specs.Prelude.{◌≡◌, ℕ};

// What every refusal reports: its number, and the spot that it names, 0 where it names none.
pub trait Refusal {
    ghost numbered: { Self → ℕ };

    ghost spotted: { Self → ℕ };

    fn number(&self) -> u8
        ensures { result ≡ numbered self.now };

    fn spot(&self) -> usize
        ensures { result ≡ spotted self.now };
}
