//! What a text is written to.
ghost use Rattle.std.specs.Prelude.{◌≡◌, ℕ, decimal};
ghost use Rattle.std.specs.List.{fold};

/// What takes a text byte by byte. Texts are put by hand, since what `fmt` promises never says that writing succeeds.
pub trait Sink {
    ghost after: { Self → ℕ → Self };

    /// Takes one byte.
    fn byte(&mut self, byte: u8)
        ensures { self.new ≡ after self.old byte };

    /// Takes the bytes of a word.
    final fn word(&mut self, word: &[u8])
        ensures { self.new ≡ fold after self.old word.now }
    {
        for byte in word {
            self.byte(*byte);
        }
    }

    /// Takes the decimal digits of a number. A digit is cast, since `try_from` would ask for a branch that is never
    /// taken.
    #[tactic(auto, using(std::proofs::lemmas::Fmt::decimal_digit, std::proofs::lemmas::Fmt::decimal_step, std::proofs::lemmas::List::Sums::fold_push))]
    final fn number(&mut self, number: u64)
        ensures { self.new ≡ fold after self.old (decimal number) }
    {
        if number < 10 {
            self.byte(b'0' + number as u8);
        } else {
            self.number(number / 10);
            self.byte(b'0' + (number % 10) as u8);
        }
    }
}
