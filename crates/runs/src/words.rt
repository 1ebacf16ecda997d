// The words of a request that are left to read.
use requests::words::{bytes_in, next_word, number_in};

#[derive(Clone, Copy)]
pub(crate) struct Words<'a>(&'a [u8]);

impl<'a> Words<'a> {
    // All words of a line.
    pub(crate) fn of(line: &'a [u8]) -> Words<'a> {
        Words(line)
    }

    // The words behind the first.
    pub(crate) fn others(self) -> Words<'a> {
        let Words(words) = self;
        Words(&words[next_word(words)..])
    }

    // The first word as a number.
    pub(crate) fn number(&mut self) -> usize {
        let number = number_in(self.0);
        *self = self.others();
        number
    }

    // The bytes of the first word, put into a buffer as far as they fit.
    pub(crate) fn bytes<'b>(&mut self, buffer: &'b mut [u8]) -> &'b [u8] {
        let n = bytes_in(self.0, buffer);
        *self = self.others();
        &buffer[..n]
    }
}
