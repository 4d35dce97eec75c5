ghost use Rattle.std.specs.Prelude.{◌≡◌, ◌≤◌, ◌<◌, List, ℕ, length};
ghost use Rattle.std.specs.declared.option.Option.{Option};
ghost use Rattle.fpl_outside.specs.Outside.{Rose, Reads, Puts};

/// What one read gave.
#[derive(Clone, Copy, Debug, PartialEq, Eq)]
pub enum Got {
    /// This many bytes, at least 1, at the front of the buffer.
    Read(usize),
    /// Nothing is left.
    End,
    /// A fault, which the source counted. It lost nothing.
    Failed,
}

/// What one put took.
#[derive(Clone, Copy, Debug, PartialEq, Eq)]
pub enum Put {
    /// This many bytes, at least 1, from the front of the piece.
    Took(usize),
    /// A fault, which the sink counted. It took nothing.
    Failed,
}

/// Where bytes come from.
pub trait Source {
    /// The bytes left, where the source tells them.
    ghost left: { Self → Option (List ℕ) };

    /// How often a read has failed. It never falls.
    ghost faults: { Self → ℕ };

    /// Reads the next bytes into the front of a buffer, which isn't empty.
    fn read(&mut self, buf: &mut [u8]) -> Got
        requires { 0 < length buf.old }
        ensures bytes { Reads (left self.old) (left self.new) buf.new result }
        ensures later { faults self.old ≤ faults self.new }
        ensures cause { result ≡ Got.Failed → Rose (faults self.old) (faults self.new) };
}

/// Where bytes go.
pub trait Sink {
    /// The bytes taken, where the sink tells them.
    ghost taken: { Self → Option (List ℕ) };

    /// How often a put has failed. It never falls.
    ghost faults: { Self → ℕ };

    /// Takes bytes from the front of a piece, which isn't empty.
    fn put(&mut self, piece: &[u8]) -> Put
        requires { 0 < length piece.now }
        ensures bytes { Puts (taken self.old) (taken self.new) piece.now result }
        ensures later { faults self.old ≤ faults self.new }
        ensures cause { result ≡ Put.Failed → Rose (faults self.old) (faults self.new) };
}
