use std::io;

/// Where lines come from and answers go.
pub trait Terminal {
    /// The next line, where there is one.
    fn next_line(&mut self) -> io::Result<Option<Vec<u8>>>;

    fn answer(&mut self, text: &str) -> io::Result<()>;

    /// Tells how many of many steps are done.
    fn progress(&mut self, done: u32, count: u32) -> io::Result<()>;

    /// The bytes of a file, or none where it cannot be read.
    // Stays: why a file is not there, or not written, is not told; so neither of the two hands an error on.
    fn load(&mut self, path: &[u8]) -> Option<Vec<u8>>;

    /// Writes a file, and answers whether it was written.
    fn save(&mut self, path: &[u8], bytes: &[u8]) -> bool;
}
