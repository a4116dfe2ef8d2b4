// What the examples are printed with.
use std::fmt;
use std::fmt::InlineText;

// Standard output. Each piece of a line is a write of its own; where one cannot be written it is missing, and the next are tried.
#[derive(Drop)]
pub(crate) struct Output<'a, P>(pub(crate) &'a P);

impl<'a, P: Print> fmt::Write for Output<'a, P> {
    fn write_str(&mut self, text: &str) -> fmt::Result {
        let _ = self.0.write_all(text.as_bytes());
        Ok(())
    }
}

// The names of the technologies of a set, each after a space.
#[derive(Clone, Copy)]
pub(crate) struct Names(pub(crate) u16);

impl fmt::Display for Names {
    fn fmt<W: fmt::Write>(&self, f: &mut fmt::Formatter<W>) -> fmt::Result {
        let set = self.0;
        if set == 0 {
            return write!(f, " none");
        }
        for (id, name) in [(0, " UWB"), (1, " CS"), (2, " NAN"), (3, " RSSI")] {
            if codec::has(set, id) {
                write!(f, "{name}")?;
            }
        }
        Ok(())
    }
}

// The first octets of a buffer in hexadecimal, each after a space.
#[derive(Clone, Copy)]
pub(crate) struct Octets<'a> {
    pub(crate) buffer: &'a [u8],
    pub(crate) length: usize,
}

impl<'a> fmt::Display for Octets<'a> {
    fn fmt<W: fmt::Write>(&self, f: &mut fmt::Formatter<W>) -> fmt::Result {
        if self.length == 0 {
            return write!(f, " none");
        }
        for octet in self.buffer.iter().take(self.length) {
            // the space and both digits are one piece
            let text = InlineText::<3>::of(format_args!(" {octet:02X}"));
            write!(f, "{}", text.as_str())?;
        }
        Ok(())
    }
}
