// What was read of an input and is not obeyed yet.
ghost use Rattle.std.specs.Prelude.{◌≡◌, List, [], ℕ, ◌<◌, ◌≤◌, length, take, drop, IfOk, OnErr};
ghost use Rattle.desk.specs.Bytes.{Gains};

use crate::input::to_front;
use std::io;
use std::io::Read;
use std::marker::Model;

// Its bytes are the first ones of a buffer of a fixed size.
#[derive(Drop)]
pub struct Pending<const N: usize> {
    text: [u8; N],
    len: usize,
}

impl<const N: usize> Model for Pending<N> {
    ghost Value = { List ℕ };

    ghost view = { λ p. take p.len p.text };

    ghost invariant = { λ p. p.len ≤ length p.text };
}

impl<const N: usize> Pending<N> {
    pub fn new() -> Self
        ensures { result ≡ [] }
    {
        Pending {
            text: [0; N],
            len: 0,
        }
    }

    pub fn bytes(&self) -> &[u8]
        ensures value { result.now ≡ self.now }
        ensures fits { length self.now ≤ N }
    {
        &self.text[..self.len]
    }

    // More is read after them: so many bytes, and none where the input has ended. Where the read fails, they stay.
    pub fn refill<R: Read>(&mut self, input: &mut R) -> io::Result<usize>
        requires { length self.old < N }
        ensures ok { IfOk result (λ n. Gains self.old self.new n) }
        ensures err { OnErr result (self.new ≡ self.old) }
    {
        let text = &mut self.text[..];
        let got = input.read(&mut text[self.len..])?;
        self.len += got;
        Ok(got)
    }

    // The first n are let go.
    pub fn pass(&mut self, n: usize)
        requires { n ≤ length self.old }
        ensures { self.new ≡ drop n self.old }
    {
        to_front(&mut self.text, n, self.len);
        self.len -= n;
    }
}
