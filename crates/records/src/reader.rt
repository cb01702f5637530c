//! The parts of a record, taken off its front one by one.

ghost use Rattle.std.specs.Prelude.{◌≡◌};
ghost use Rattle.std.specs.Option.{option_map};
ghost use Rattle.records.specs.Record.{code as code_as, field as field_as};
ghost use Rattle.records.specs.Views.{before};

/// The bytes of a record that are not read yet.
#[derive(Drop)]
pub(crate) struct Reader<'a> {
    pub rest: &'a [u8],
}

impl<'a> Reader<'a> {
    /// A code of one byte where there is one, and otherwise the one that it stands for.
    pub(crate) fn code(&mut self, present: bool, absent: u8) -> Option<u8>
        ensures { option_map (before self.new.rest.now) result ≡ code_as present absent self.old.rest.now }
    {
        if !present {
            return Some(absent);
        }
        self.rest.split_off_first().copied()
    }

    /// A row of bytes after its length where there is one, and otherwise no bytes.
    pub(crate) fn field(&mut self, present: bool) -> Option<&'a [u8]>
        ensures { option_map (λ bs. before self.new.rest.now bs.now) result ≡ field_as present self.old.rest.now }
    {
        if !present {
            return Some(&[]);
        }
        let (length, rest) = self.rest.split_first_chunk()?;
        let (field, rest) = rest.split_at_checked(usize::from(u16::from_be_bytes(*length)))?;
        self.rest = rest;
        Some(field)
    }
}
